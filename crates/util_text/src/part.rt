//! The parts of bytes between delimiters.

ghost use Rattle.std.specs.Prelude.{◌≡◌, ◌==◌, ◌∷◌, ◌<◌, length, is_some, option_copied, MatchOption};
ghost use Rattle.std.specs.List.{list_any};
ghost use Rattle.util_text.specs.Parts.{parts, parts_behind};
ghost use Rattle.util_text.specs.Places.{is_separator};

use memchr::{memchr, memchr3};

/// The first field of a line, and what stands behind its delimiter, where one is there.
pub fn split_field(delimiter: u8, line: &[u8]) -> (&[u8], Option<&[u8]>)
    ensures field { parts (λ b. b == delimiter) line.now ≡ result.0.now ∷ parts_behind (λ b. b == delimiter) (option_copied result.1) }
    ensures found { is_some result.1 ≡ list_any (λ b. b == delimiter) line.now }
    ensures shorter { MatchOption result.1 (Unit {0}) (λ rest. length rest.now < length line.now) }
{
    match memchr(delimiter, line) {
        Some(at) => (line.split_at(at).0, Some(line.split_at(at + 1).1)),
        None => (line, None),
    }
}

/// Whether a line has the delimiter.
pub fn has_field(delimiter: u8, line: &[u8]) -> bool
    ensures { result ≡ list_any (λ b. b == delimiter) line.now }
{
    split_field(delimiter, line).1.is_some()
}

/// The first item of a list, and what stands behind the comma or blank that ends it, where one is there.
pub fn split_item(list: &[u8]) -> (&[u8], Option<&[u8]>)
    ensures item { parts (λ b. is_separator b) list.now ≡ result.0.now ∷ parts_behind (λ b. is_separator b) (option_copied result.1) }
    ensures shorter { MatchOption result.1 (Unit {0}) (λ rest. length rest.now < length list.now) }
{
    match memchr3(b',', b' ', b'\t', list) {
        Some(at) => (list.split_at(at).0, Some(list.split_at(at + 1).1)),
        None => (list, None),
    }
}
