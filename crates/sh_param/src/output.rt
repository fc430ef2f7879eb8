//! What a command substitution gives (POSIX.1-2017, XCU 2.6.3).

ghost use Rattle.std.specs.Prelude.{◌≡◌, IfOk};
ghost use Rattle.sh_param.specs.Outputs as spec;

use hs_text::Text;
use std::alloc::{AllocError, Global};

/// The bytes but the NULs.
fn without_nuls(alloc: Global, bytes: &[u8]) -> Result<Vec<u8>, AllocError>
    ensures { IfOk result (λ kept. kept.items ≡ spec.without_nuls bytes.now) }
{
    let mut kept = Vec::new(alloc);
    for byte in bytes {
        if *byte != 0 {
            kept.push(*byte)?;
        }
    }
    Ok(kept)
}

/// The bytes but the newlines at their end.
fn without_newlines(bytes: &[u8]) -> &[u8]
    ensures { result.now ≡ spec.without_newlines bytes.now }
{
    let mut rest = bytes;
    'newlines: while let Some((last, front)) = rest.split_last() {
        if *last != b'\n' {
            return rest;
        }
        rest = front;
    }
    rest
}

/// The output without NULs, and then without the newlines at its end.
pub fn substituted(alloc: Global, output: &[u8]) -> Result<Text, AllocError>
    ensures { IfOk result (λ text. text ≡ spec.substituted output.now) }
{
    let bytes = without_nuls(alloc, output)?;
    Text::from_slice(alloc, without_newlines(bytes.as_slice()))
}
