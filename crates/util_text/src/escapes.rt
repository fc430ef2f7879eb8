//! The list of delimiters of `paste` (POSIX.1-2017, XCU, `paste`).

ghost use Rattle.std.specs.Prelude.{◌≡◌, ◌<◌, [], ◌∷◌, ◌++◌, None, Some, length, IfOk, IfErr, MatchOption, OnOk};
ghost use Rattle.util_text.specs.Paste as spec;
ghost use Rattle.util_text.specs.Refusals.{Refuses};
ghost use Rattle.util_text.specs.Sequences.{with_first};
ghost use Rattle.util_text.specs.Turns.{turns};

use crate::delimiters::Delimiters;
use crate::fault::TextErr;
use std::alloc::{AllocError, Global};

/// What a byte stands for behind a backslash.
fn escaped(byte: u8) -> Option<Option<u8>>
    ensures { result ≡ spec.escaped byte }
{
    match byte {
        b'n' => Some(Some(b'\n')),
        b't' => Some(Some(b'\t')),
        b'\\' => Some(Some(b'\\')),
        b'0' => Some(None),
        _ => None,
    }
}

/// The first delimiter, and what stands behind it; none where the list is bad there.
fn split_delimiter(list: &[u8]) -> Option<(Option<u8>, &[u8])>
    requires { 0 < length list.now }
    ensures first { MatchOption result (spec.delimiters_from list.now ≡ None) (λ parts. spec.delimiters_from list.now ≡ with_first (Some parts.0) (spec.delimiters_from parts.1.now)) }
    ensures shorter { MatchOption result (Unit {0}) (λ parts. length parts.1.now < length list.now) }
{
    let (byte, more) = list.split_first()?;
    if *byte != b'\\' {
        return Some((Some(*byte), more));
    }
    let (letter, more) = more.split_first()?;
    Some((escaped(*letter)?, more))
}

fn push_delimiter(items: &mut Vec<Option<u8>>, delimiter: Option<u8>) -> Result<(), AllocError>
    ensures { OnOk result (items.new.items ≡ items.old.items ++ delimiter ∷ []) }
{
    items.push(delimiter)?;
    Ok(())
}

/// The delimiters that a list writes: bytes, `\n`, `\t`, `\\` and `\0`, which is nothing. Another backslash makes a bad list, and so
/// does an empty list.
pub fn read_delimiters(alloc: Global, list: &[u8]) -> Result<Delimiters, TextErr>
    ensures ok { IfOk result (λ delimiters. spec.delimiters_of list.now ≡ Some (turns delimiters)) }
    ensures fault { IfErr result (λ e. Refuses e (spec.delimiters_of list.now)) }
{
    if list.is_empty() {
        return Err(TextErr::BadList);
    }
    let mut items = Vec::new(alloc);
    let mut rest = list;
    'list: while !rest.is_empty() {
        let Some((delimiter, more)) = split_delimiter(rest) else {
            return Err(TextErr::BadList);
        };
        push_delimiter(&mut items, delimiter)?;
        rest = more;
    }
    Ok(Delimiters::new(items))
}
