//! Numbers that `test` compares.

ghost use Rattle.std.specs.Prelude.{◌≡◌};
ghost use Rattle.util_test.specs.Numbers as spec;

use std::cmp::Ordering;

/// The number that a text writes.
fn number_in(text: &str) -> Option<i64>
    ensures { result ≡ spec.number text.now }
{
    text.parse().ok()
}

/// The number that a word writes: decimal digits, with a sign or without, whose number is one of 64 bits with its sign.
fn number(word: &[u8]) -> Option<i64>
    ensures { result ≡ spec.number word.now }
{
    match std::str::from_utf8(word) {
        Ok(text) => number_in(text),
        Err(_) => None,
    }
}

/// The order of the numbers that two words write.
pub fn order(a: &[u8], b: &[u8]) -> Option<Ordering>
    ensures { result ≡ spec.order a.now b.now }
{
    let first = number(a)?;
    let second = number(b)?;
    Some(first.cmp(&second))
}
