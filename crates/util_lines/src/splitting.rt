//! Lines of a text. A last piece without a newline is a line too.

ghost use Rattle.std.specs.Prelude.{◌≡◌, ◌<◌, ◌≤◌, ◌+◌, [], ◌∷◌, ◌++◌, length, MatchOption, OnOk};
ghost use Rattle.util_lines.specs.Splitting as spec;

use memchr::memchr;
use std::alloc::AllocError;

/// The first line, without its newline, and what stands behind it: none in an empty text.
pub fn split_line(text: &[u8]) -> Option<(&[u8], &[u8])>
    ensures line { MatchOption result (text.now ≡ []) (λ parts. spec.lines text.now ≡ parts.0.now ∷ spec.lines parts.1.now) }
    ensures within { MatchOption result (text.now ≡ []) (λ parts. length parts.0.now + length parts.1.now ≤ length text.now) }
    ensures shorter { MatchOption result (text.now ≡ []) (λ parts. length parts.1.now < length text.now) }
{
    match memchr(b'\n', text) {
        Some(at) => Some((text.split_at(at).0, text.split_at(at + 1).1)),
        None if text.is_empty() => None,
        None => Some((text, text.split_at(text.len()).1)),
    }
}

/// Puts a line and its newline at the end.
pub fn write_line(out: &mut Vec<u8>, line: &[u8]) -> Result<(), AllocError>
    ensures { OnOk result (out.new.items ≡ out.old.items ++ spec.ended line.now) }
{
    out.extend_from_slice(line)?;
    out.push(b'\n')?;
    Ok(())
}
