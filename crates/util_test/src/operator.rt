//! What stands between two words that `test` compares.

ghost use Rattle.std.specs.Prelude.{◌≡◌};
ghost use Rattle.util_test.specs.Operators as spec;

use crate::number::order;

/// How two words are compared.
#[derive(Clone, Copy)]
pub enum Operator {
    /// `=`, byte by byte.
    Same,
    /// `!=`
    Differs,
    /// `-eq`, as numbers, as all that follow.
    Equal,
    Unequal,
    Greater,
    GreaterOrEqual,
    Less,
    LessOrEqual,
}

/// Whether a word is this text.
pub fn is(word: &[u8], text: &[u8]) -> bool
    ensures { result ≡ spec.is_word text.now word.now }
{
    word == text
}

/// The operator that a word writes between numbers.
fn number_operator(word: &[u8]) -> Option<Operator>
    ensures { result ≡ spec.number_operator word.now }
{
    if is(word, b"-eq") {
        Some(Operator::Equal)
    } else if is(word, b"-ne") {
        Some(Operator::Unequal)
    } else if is(word, b"-gt") {
        Some(Operator::Greater)
    } else if is(word, b"-ge") {
        Some(Operator::GreaterOrEqual)
    } else if is(word, b"-lt") {
        Some(Operator::Less)
    } else if is(word, b"-le") {
        Some(Operator::LessOrEqual)
    } else {
        None
    }
}

/// The operator that a word writes.
pub fn read_operator(word: &[u8]) -> Option<Operator>
    ensures { result ≡ spec.operator word.now }
{
    if is(word, b"=") {
        Some(Operator::Same)
    } else if is(word, b"!=") {
        Some(Operator::Differs)
    } else {
        number_operator(word)
    }
}

/// Whether two words compare so. There is no answer where one of them should write a number and does not.
pub fn compared(operator: Operator, a: &[u8], b: &[u8]) -> Option<bool>
    ensures { result ≡ spec.compared operator a.now b.now }
{
    match operator {
        Operator::Same => Some(is(b, a)),
        Operator::Differs => Some(!is(b, a)),
        Operator::Equal => Some(order(a, b)?.is_eq()),
        Operator::Unequal => Some(order(a, b)?.is_ne()),
        Operator::Greater => Some(order(a, b)?.is_gt()),
        Operator::GreaterOrEqual => Some(order(a, b)?.is_ge()),
        Operator::Less => Some(order(a, b)?.is_lt()),
        Operator::LessOrEqual => Some(order(a, b)?.is_le()),
    }
}
