//! Numbers in the words of utilities.

ghost use Rattle.std.specs.Prelude.{◌≡◌, ℕ, Some, IfOk, IfErr};
ghost use Rattle.util_text.specs.Count.{StandsFor, number};
ghost use Rattle.util_text.specs.Numbers.{RefusesNumber};

use crate::number::read_count;
use hs_text::Text;
use util_common::{Why, WordErr};

/// The number that a word writes.
pub fn count_in(word: &Text) -> Result<usize, WordErr>
    ensures ok { IfOk result (λ count. (n : ℕ) × (number word.now ≡ Some n) × StandsFor count n) }
    ensures fault { IfErr result (λ e. RefusesNumber e (number word.now)) }
{
    match read_count(word.as_slice()) {
        Ok(count) => Ok(count),
        Err(_) => Err(WordErr::Refused(Why::BadNumber)),
    }
}
