//! The environment that the program is handed.

use hs_text::Text;
use std::alloc::{AllocError, Global};
use std::env::FillError;
use std::rt::Env;

/// The first size of the buffer for an entry.
const SIZE: usize = 256;

/// Reads an entry into this many bytes, of which it may need more.
fn read<R: Env>(
    alloc: Global,
    rt: &R,
    number: usize,
    size: usize,
) -> Result<Result<Vec<u8>, FillError>, AllocError> {
    let mut bytes = vec![in alloc; 0u8; size]?;
    match rt.var_at(number, &mut bytes) {
        Ok(len) => {
            bytes.truncate(len);
            Ok(Ok(bytes))
        }
        Err(error) => Ok(Err(error)),
    }
}

/// The bytes of an entry, or None behind the last one. The buffer doubles until they fit.
fn entry<R: Env>(alloc: Global, rt: &R, number: usize) -> Result<Option<Vec<u8>>, AllocError> {
    let mut size = SIZE;
    for _ in 0..usize::BITS {
        match read(alloc, rt, number, size)? {
            Ok(bytes) => return Ok(Some(bytes)),
            Err(FillError::NotPresent) => return Ok(None),
            Err(FillError::TooLong) => size = size.saturating_mul(2),
        }
    }
    Err(AllocError)
}

/// The name and the value of an entry, or None where it has no `=` or is not UTF-8.
fn pair(alloc: Global, bytes: &[u8]) -> Result<Option<(Text, Text)>, AllocError> {
    if str::from_utf8(bytes).is_err() {
        return Ok(None);
    }
    let Some(place) = bytes.iter().position(|byte| *byte == b'=') else {
        return Ok(None);
    };
    let (name, rest) = bytes.split_at(place);
    let name = Text::from_slice(alloc, name)?;
    let value = Text::from_slice(alloc, &rest[1..])?;
    Ok(Some((name, value)))
}

/// The names and the values of all entries, in order.
pub fn environ<R: Env>(alloc: Global, rt: &R) -> Result<Vec<(Text, Text)>, AllocError> {
    let mut pairs = Vec::new(alloc);
    for number in 0..usize::MAX {
        let Some(bytes) = entry(alloc, rt, number)? else {
            return Ok(pairs);
        };
        if let Some(pair) = pair(alloc, &bytes)? {
            pairs.push(pair)?;
        }
    }
    Ok(pairs)
}
