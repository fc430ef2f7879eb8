//! Lines in order (POSIX.1-2017, XCU, `sort`).

ghost use Rattle.std.specs.Prelude.{◌≡◌};
ghost use Rattle.util_lines.specs.Orders as spec;

use crate::decimal::{compare_digits, read_digits};
use std::cmp::Ordering;

/// By what lines are compared.
#[derive(Clone, Copy, Debug, PartialEq, Eq)]
pub enum By {
    /// All bytes.
    Bytes,
    /// The number at the start.
    Number,
    /// The number at the start, and all bytes where that is equal.
    NumberThenBytes,
}

/// How lines are put in order.
#[derive(Clone, Copy, Debug, PartialEq, Eq)]
pub struct Sorting {
    /// By the number at the start.
    pub numeric: bool,
    /// The other way round.
    pub reverse: bool,
    /// Of equal lines the first one alone.
    pub unique: bool,
}

/// By what lines are compared then: equal numbers go by the whole line, but not where the first of equal lines is kept alone.
pub fn compared_by(sorting: Sorting) -> By
    ensures { result ≡ spec.compared_by sorting }
{
    if !sorting.numeric {
        By::Bytes
    } else if sorting.unique {
        By::Number
    } else {
        By::NumberThenBytes
    }
}

/// Compares the numbers at the start of two lines.
fn compare_numbers(a: &[u8], b: &[u8]) -> Ordering
    ensures { result ≡ spec.number_order a.now b.now }
{
    let first = read_digits(a);
    let second = read_digits(b);
    compare_digits(&first, &second)
}

/// Compares two lines.
pub fn compare(by: By, a: &[u8], b: &[u8]) -> Ordering
    ensures { result ≡ spec.order by a.now b.now }
{
    match by {
        By::Bytes => a.cmp(b),
        By::Number => compare_numbers(a, b),
        By::NumberThenBytes => match compare_numbers(a, b) {
            Ordering::Less => Ordering::Less,
            Ordering::Equal => a.cmp(b),
            Ordering::Greater => Ordering::Greater,
        },
    }
}
