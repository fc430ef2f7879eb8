//! The first and the last line of a text. A last piece without a newline is a line too.

ghost use Rattle.std.specs.Prelude.{◌≡◌, ◌<◌, ◌≤◌, ◌+◌, [], ◌∷◌, ◌++◌, length, take, drop, MatchOption};
ghost use Rattle.util_text.specs.Lines as spec;

use memchr::{memchr, memrchr};

/// How many bytes the first line has, with its newline where it has one: 0 for an empty text.
pub fn line_len(text: &[u8]) -> usize
    ensures within { result ≤ length text.now }
    ensures some { 0 < length text.now → 0 < result }
    ensures line { 0 < length text.now → spec.pieces text.now ≡ take result text.now ∷ spec.pieces (drop result text.now) }
{
    match memchr(b'\n', text) {
        Some(at) => at + 1,
        None => text.len(),
    }
}

/// Where the last line begins: 0 for an empty text.
pub fn last_start(text: &[u8]) -> usize
    ensures within { 0 < length text.now → result < length text.now }
    ensures line { 0 < length text.now → spec.pieces text.now ≡ spec.pieces (take result text.now) ++ drop result text.now ∷ [] }
{
    let front = text.split_at(text.len().saturating_sub(1)).0;
    match memrchr(b'\n', front) {
        Some(at) => at + 1,
        None => 0,
    }
}

/// The first line, without its newline, and what stands behind it: none in an empty text.
pub fn split_line(text: &[u8]) -> Option<(&[u8], &[u8])>
    ensures line { MatchOption result (text.now ≡ []) (λ parts. spec.lines text.now ≡ parts.0.now ∷ spec.lines parts.1.now) }
    ensures within { MatchOption result (text.now ≡ []) (λ parts. length parts.0.now + length parts.1.now ≤ length text.now) }
    ensures shorter { MatchOption result (text.now ≡ []) (λ parts. length parts.1.now < length text.now) }
{
    match memchr(b'\n', text) {
        Some(at) => Some((text.split_at(at).0, text.split_at(at + 1).1)),
        None if text.is_empty() => None,
        None => Some((text, text.split_at(text.len()).1)),
    }
}
