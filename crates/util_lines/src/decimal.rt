//! Decimal numbers at the start of lines (POSIX.1-2017, XCU, `sort`, `-n`): they can be of any length.

ghost use Rattle.std.specs.Prelude.{◌≡◌, ◌==◌, not};
ghost use Rattle.std.specs.List.{list_any};
ghost use Rattle.std.specs.Ordering.{nat_cmp};
ghost use Rattle.util_lines.specs.Decimals as spec;

use std::cmp::Ordering;

/// A number: whether it is below 0, the digits before the point, and those behind it without zeros at their end.
#[derive(Clone, Copy)]
pub struct Digits<'a> {
    pub below: bool,
    pub whole: &'a [u8],
    pub fraction: &'a [u8],
}

/// What stands behind the blanks that come first.
fn trim_blanks(text: &[u8]) -> &[u8]
    ensures { result.now ≡ spec.behind_blanks text.now }
{
    let mut rest = text;
    'blanks: while let [b' ' | b'\t', more @ ..] = rest {
        rest = more;
    }
    rest
}

/// Whether a `-` comes first, and what stands behind it.
fn split_sign(text: &[u8]) -> (bool, &[u8])
    ensures sign { result.0 ≡ spec.has_sign text.now }
    ensures behind { result.1.now ≡ spec.behind_sign text.now }
{
    match text {
        [b'-', behind @ ..] => (true, behind),
        _ => (false, text),
    }
}

/// The digits that come first, and what stands behind them.
fn split_digits(text: &[u8]) -> (&[u8], &[u8])
    ensures digits { result.0.now ≡ spec.digits text.now }
    ensures behind { result.1.now ≡ spec.behind_digits text.now }
{
    let mut len = 0;
    'digits: while len < text.len() && text[len].is_ascii_digit() {
        len += 1;
    }
    text.split_at(len)
}

/// The digits behind a point, where it comes first.
fn digits_behind_point(text: &[u8]) -> &[u8]
    ensures { result.now ≡ spec.digits_behind_point text.now }
{
    match text {
        [b'.', behind @ ..] => split_digits(behind).0,
        _ => text.split_at(0).0,
    }
}

/// The digits without zeros at their end.
#[tactic(auto, using(crate::proofs::Zeros::zero_dropped, crate::proofs::Zeros::zeros_done, crate::proofs::Zeros::zeros_none, crate::proofs::Zeros::zeros_begin))]
fn trim_zeros(digits: &[u8]) -> &[u8]
    ensures { result.now ≡ spec.without_zeros digits.now }
{
    let mut len = digits.len();
    'zeros: while len > 0 && digits[len - 1] == b'0' {
        len -= 1;
    }
    digits.split_at(len).0
}

/// Whether a digit among them is not 0.
fn has_value(digits: &[u8]) -> bool
    ensures { result ≡ list_any (λ b. not (b == 48)) digits.now }
{
    digits.iter().any(|digit| *digit != b'0')
}

/// Whether the number is 0.
fn is_zero(whole: &[u8], fraction: &[u8]) -> bool
    requires { spec.digits whole.now ≡ whole.now }
    ensures { result ≡ spec.is_zero (spec.number whole.now) fraction.now }
{
    match fraction {
        [] => !has_value(whole),
        _ => false,
    }
}

/// The number at the start of a line.
pub fn read_digits(line: &[u8]) -> Digits<'_>
    ensures number { spec.decimal_of line.now ≡ spec.decimal result.below (spec.number result.whole.now) result.fraction.now }
    ensures digits { spec.digits result.whole.now ≡ result.whole.now }
{
    let (minus, text) = split_sign(trim_blanks(line));
    let (whole, behind) = split_digits(text);
    let fraction = trim_zeros(digits_behind_point(behind));
    let below = minus & !is_zero(whole, fraction);
    Digits {
        below,
        whole,
        fraction,
    }
}

/// Compares the numbers that digits write.
fn compare_whole(a: &[u8], b: &[u8]) -> Ordering
    requires first { spec.digits a.now ≡ a.now }
    requires second { spec.digits b.now ≡ b.now }
    ensures { result ≡ nat_cmp (spec.number a.now) (spec.number b.now) }
{
    let (a_front, a_back) = a.split_at(a.len().saturating_sub(b.len()));
    let (b_front, b_back) = b.split_at(b.len().saturating_sub(a.len()));
    if has_value(a_front) {
        return Ordering::Greater;
    }
    if has_value(b_front) {
        return Ordering::Less;
    }
    a_back.cmp(b_back)
}

/// Compares two numbers, their signs aside.
fn compare_size(a: &Digits<'_>, b: &Digits<'_>) -> Ordering
    requires first { spec.digits a.now.whole.now ≡ a.now.whole.now }
    requires second { spec.digits b.now.whole.now ≡ b.now.whole.now }
    ensures { result ≡ spec.size_order (spec.decimal a.now.below (spec.number a.now.whole.now) a.now.fraction.now) (spec.decimal b.now.below (spec.number b.now.whole.now) b.now.fraction.now) }
{
    match compare_whole(a.whole, b.whole) {
        Ordering::Less => Ordering::Less,
        Ordering::Equal => a.fraction.cmp(b.fraction),
        Ordering::Greater => Ordering::Greater,
    }
}

/// Compares two numbers.
pub fn compare_digits(a: &Digits<'_>, b: &Digits<'_>) -> Ordering
    requires first { spec.digits a.now.whole.now ≡ a.now.whole.now }
    requires second { spec.digits b.now.whole.now ≡ b.now.whole.now }
    ensures { result ≡ spec.decimal_order (spec.decimal a.now.below (spec.number a.now.whole.now) a.now.fraction.now) (spec.decimal b.now.below (spec.number b.now.whole.now) b.now.fraction.now) }
{
    match (a.below, b.below) {
        (false, false) => compare_size(a, b),
        (false, true) => Ordering::Greater,
        (true, false) => Ordering::Less,
        (true, true) => compare_size(b, a),
    }
}
