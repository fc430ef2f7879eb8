//! Counts in the words of a command.

ghost use Rattle.std.specs.Prelude.{◌≡◌, ◌==◌, ℕ, not, nat_lt, None, Some, IfOk, IfErr};
ghost use Rattle.std.specs.List.{list_any};
ghost use Rattle.util_text.specs.Count as spec;

use crate::fault::TextErr;

/// The number that the word writes in decimal digits, or the greatest count where it is greater: no text has so many bytes.
/// Any other word is a bad number.
pub fn read_count(word: &[u8]) -> Result<usize, TextErr>
    ensures ok { IfOk result (λ count. (n : ℕ) × (spec.number word.now ≡ Some n) × spec.StandsFor count n) }
    ensures fault { IfErr result (λ e. (e ≡ TextErr.BadNumber) × (spec.number word.now ≡ None)) }
{
    if word.is_empty() {
        return Err(TextErr::BadNumber);
    }
    let mut count: usize = 0;
    'digits: for byte in word {
        if !byte.is_ascii_digit() {
            return Err(TextErr::BadNumber);
        }
        count = count
            .saturating_mul(10)
            .saturating_add(usize::from(*byte - b'0'));
    }
    Ok(count)
}

/// Whether a digit among them is not 0.
fn has_value(digits: &[u8]) -> bool
    ensures { result ≡ list_any (λ b. not (b == 48)) digits.now }
{
    digits.iter().any(|digit| *digit != b'0')
}

/// Whether the first of two numbers is the greater one: they can have any length.
pub fn is_greater(a: &[u8], b: &[u8]) -> bool
    ensures { (m n : ℕ) → spec.number a.now ≡ Some m → spec.number b.now ≡ Some n → result ≡ nat_lt n m }
{
    let (a_front, a_back) = a.split_at(a.len().saturating_sub(b.len()));
    let (b_front, b_back) = b.split_at(b.len().saturating_sub(a.len()));
    if has_value(a_front) {
        return true;
    }
    if has_value(b_front) {
        return false;
    }
    a_back.cmp(b_back).is_gt()
}
