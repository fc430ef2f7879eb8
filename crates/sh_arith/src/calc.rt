//! Operators on numbers of 64 bits with a sign (ISO C, 6.5.3 to 6.5.14).

ghost use Rattle.std.specs.Prelude.{◌≡◌};
ghost use Rattle.sh_arith.specs.Value as spec;
ghost use Rattle.sh_arith.specs.Calc.{Gives};

use crate::token::{Math, Sign};

/// Why an operator gives no number.
#[derive(Clone, Copy, Debug, PartialEq, Eq)]
pub enum NoNumber {
    ByZero,
    BadShift,
}

pub fn truth(holds: bool) -> i64
    ensures { result ≡ spec.truth holds }
{
    if holds { 1 } else { 0 }
}

pub fn is_zero(number: i64) -> bool
    ensures { result ≡ spec.is_zero number }
{
    number == 0
}

fn sum(a: i64, b: i64) -> i64
    ensures { result ≡ spec.sum a b }
{
    a.wrapping_add(b)
}

fn difference(a: i64, b: i64) -> i64
    ensures { result ≡ spec.difference a b }
{
    a.wrapping_sub(b)
}

fn product(a: i64, b: i64) -> i64
    ensures { result ≡ spec.product a b }
{
    a.wrapping_mul(b)
}

fn negated(a: i64) -> i64
    ensures { result ≡ spec.negated a }
{
    a.wrapping_neg()
}

fn quotient(a: i64, b: i64) -> Result<i64, NoNumber>
    ensures { Gives result (spec.quotient a b) }
{
    if is_zero(b) {
        return Err(NoNumber::ByZero);
    }
    Ok(a.wrapping_div(b))
}

fn remainder(a: i64, b: i64) -> Result<i64, NoNumber>
    ensures { Gives result (spec.remainder a b) }
{
    if is_zero(b) {
        return Err(NoNumber::ByZero);
    }
    Ok(a.wrapping_rem(b))
}

/// The number as one by which can be shifted.
fn bits(number: i64) -> Option<u32>
    ensures { result ≡ spec.bits number }
{
    if (0..64).contains(&number) {
        Some(number as u32)
    } else {
        None
    }
}

fn left(a: i64, b: i64) -> Result<i64, NoNumber>
    ensures { Gives result (spec.left a b) }
{
    match bits(b) {
        Some(n) => Ok(a << n),
        None => Err(NoNumber::BadShift),
    }
}

fn right(a: i64, b: i64) -> Result<i64, NoNumber>
    ensures { Gives result (spec.right a b) }
{
    match bits(b) {
        Some(n) => Ok(a >> n),
        None => Err(NoNumber::BadShift),
    }
}

pub fn calculate(math: Math, a: i64, b: i64) -> Result<i64, NoNumber>
    ensures { Gives result (spec.calculate math a b) }
{
    match math {
        Math::Times => Ok(product(a, b)),
        Math::Over => quotient(a, b),
        Math::Modulo => remainder(a, b),
        Math::Plus => Ok(sum(a, b)),
        Math::Minus => Ok(difference(a, b)),
        Math::Left => left(a, b),
        Math::Right => right(a, b),
        Math::Less => Ok(truth(a < b)),
        Math::AtMost => Ok(truth(a <= b)),
        Math::Greater => Ok(truth(a > b)),
        Math::AtLeast => Ok(truth(a >= b)),
        Math::Equal => Ok(truth(a == b)),
        Math::Unequal => Ok(truth(a != b)),
        Math::And => Ok(a & b),
        Math::Xor => Ok(a ^ b),
        Math::Or => Ok(a | b),
    }
}

pub fn with_sign(sign: Sign, a: i64) -> i64
    ensures { result ≡ spec.with_sign sign a }
{
    match sign {
        Sign::Plus => a,
        Sign::Minus => negated(a),
        Sign::Not => truth(is_zero(a)),
        Sign::Complement => !a,
    }
}
