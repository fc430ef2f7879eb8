//! The first and the last lines of a text (POSIX.1-2017, XCU, `head` and `tail`), as the bytes that they are.

ghost use Rattle.std.specs.Prelude.{◌≡◌, ℕ, true, false, None, Some, ◌≤◌, length, drop, IfOk, IfErr, MatchOption};
ghost use Rattle.util_text.specs.Lines as spec;
ghost use Rattle.util_text.specs.Count.{StandsFor};
ghost use Rattle.util_text.specs.Tail.{AreEnds, begins, ends_of, tail};

use crate::fault::TextErr;
use crate::line::{last_start, line_len};
use crate::number::read_count;
use hs_text::Text;
use std::alloc::AllocError;

/// The first lines, so many. Its time is linear in what it answers.
pub fn first_lines(text: &[u8], count: usize) -> &[u8]
    ensures { (n : ℕ) → StandsFor count n → result.now ≡ spec.first_lines n text.now }
{
    let mut end = 0;
    let mut left = count;
    'lines: while left > 0 {
        if end == text.len() {
            return text;
        }
        end += line_len(text.split_at(end).1);
        left -= 1;
    }
    text.split_at(end).0
}

/// The last lines, so many. Its time is linear in what it answers.
pub fn last_lines(text: &[u8], count: usize) -> &[u8]
    ensures { (n : ℕ) → StandsFor count n → result.now ≡ spec.last_lines n text.now }
{
    let mut start = text.len();
    let mut wanted = count;
    'lines: while wanted > 0 {
        if start == 0 {
            return text;
        }
        start = last_start(text.split_at(start).0);
        wanted -= 1;
    }
    text.split_at(start).1
}

/// The lines from this one on, which is counted from 1; 0 is taken as 1. Its time is linear in what it leaves out.
pub fn lines_from(text: &[u8], number: usize) -> &[u8]
    ensures { (n : ℕ) → StandsFor number n → result.now ≡ spec.lines_from n text.now }
{
    let mut start = 0;
    let mut before = number.saturating_sub(1);
    'lines: while before > 0 {
        if start == text.len() {
            break;
        }
        start += line_len(text.split_at(start).1);
        before -= 1;
    }
    text.split_at(start).1
}

/// Which lines `tail` copies.
#[derive(Clone, Copy, Debug, PartialEq, Eq)]
pub enum Ends {
    /// The last lines, so many.
    Last(usize),
    /// The lines from this one on.
    From(usize),
}

/// What stands behind the byte, where the word begins with it.
fn behind(sign: u8, word: &[u8]) -> Option<&[u8]>
    ensures { MatchOption result (begins sign word.now ≡ false) (λ rest. (begins sign word.now ≡ true) × (rest.now ≡ drop 1 word.now)) }
{
    match word.split_first() {
        Some((first, rest)) if *first == sign => Some(rest),
        _ => None,
    }
}

/// What the value of `-n` asks of `tail`: `N` or `-N` for the last N lines, `+N` for the lines from line N on. Any other word is
/// a bad number.
pub fn read_ends(word: &[u8]) -> Result<Ends, TextErr>
    ensures ok { IfOk result (λ ends. (exact : Ends) × (ends_of word.now ≡ Some exact) × AreEnds ends exact) }
    ensures fault { IfErr result (λ e. (e ≡ TextErr.BadNumber) × (ends_of word.now ≡ None)) }
{
    match behind(b'+', word) {
        Some(number) => Ok(Ends::From(read_count(number)?)),
        None => match behind(b'-', word) {
            Some(number) => Ok(Ends::Last(read_count(number)?)),
            None => Ok(Ends::Last(read_count(word)?)),
        },
    }
}

/// The lines that `tail` copies.
pub fn tail(text: &[u8], ends: Ends) -> &[u8]
    ensures { (exact : Ends) → AreEnds ends exact → result.now ≡ tail exact text.now }
{
    match ends {
        Ends::Last(count) => last_lines(text, count),
        Ends::From(number) => lines_from(text, number),
    }
}

/// Where the lines that `tail` copies begin: they go to the end of the text.
fn tail_start(text: &[u8], ends: Ends) -> usize
    ensures within { result ≤ length text.now }
    ensures lines { (exact : Ends) → AreEnds ends exact → drop result text.now ≡ tail exact text.now }
{
    text.len().saturating_sub(tail(text, ends).len())
}

/// The lines that `tail` copies. They share the bytes of the content where they are half of them at least.
pub fn tail_part(content: &Text, ends: Ends) -> Result<Text, AllocError>
    ensures { (exact : Ends) → AreEnds ends exact → IfOk result (λ lines. lines ≡ tail exact content.now) }
{
    content.part(tail_start(content.as_slice(), ends), content.len())
}
