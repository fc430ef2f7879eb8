//! `head` (POSIX.1-2017, XCU, `head`).

ghost use Rattle.std.specs.Prelude.{◌≡◌, ◌++◌, ℕ, Some, None, IfOk, IfErr, Ok, Err};
ghost use Rattle.hs_view.specs.Acts.{Acts};
ghost use Rattle.util_common.specs.Words.{last_value};
ghost use Rattle.util_text.specs.Count.{StandsFor};
ghost use Rattle.util_text.specs.Head as spec;
ghost use Rattle.util_text.specs.Numbers.{RefusesNumber};

use crate::counted::count_in;
use crate::ends::first_lines;
use hs_text::{Text, TextList};
use hs_view::{Base, Halt, View};
use std::alloc::{AllocError, Global};
use util_common::{Filter, WordErr, filter_files, read_words, refuse_words, value_of};
use util_opts::{GivenList, Options};

/// The first lines of each content, so many, with a title where there are several operands.
#[derive(Drop)]
pub struct Heads {
    pub alloc: Global,
    pub count: usize,
    pub several: bool,
    /// Whether no operand was read yet.
    pub first: bool,
}

impl Filter for Heads {
    ghost use Rattle.util_text.specs.Head.{Heading};

    ghost writes = { λ filter text before. Heading filter text before };

    fn filter(&mut self, word: &Text, content: Text) -> Result<Text, AllocError> {
        let out = titled(self, word, first_lines(content.as_slice(), self.count))?;
        self.first = false;
        Ok(out)
    }
}

/// Lines behind the title of their operand, where it has one.
fn titled(heads: &Heads, word: &Text, lines: &[u8]) -> Result<Text, AllocError>
    ensures { IfOk result (λ text. text ≡ spec.header heads.now.several heads.now.first word.now ++ lines.now) }
{
    if !heads.several {
        return Text::from_slice(heads.alloc, lines);
    }
    let mut text = title(heads.alloc, heads.first, word)?;
    text.extend(lines)?;
    Ok(text)
}

/// The line with the name of an operand.
fn title(alloc: Global, first: bool, word: &Text) -> Result<Text, AllocError>
    ensures { IfOk result (λ text. text ≡ spec.title first word.now) }
{
    let mut text = Text::from_slice(alloc, gap(first))?;
    text.extend(b"==> ")?;
    text.extend(word.as_slice())?;
    text.extend(b" <==\n")?;
    Ok(text)
}

/// What stands before a title.
fn gap(first: bool) -> &'static [u8]
    ensures { result.now ≡ spec.gap first }
{
    if first { b"" } else { b"\n" }
}

/// How many lines are wanted.
fn lines_wanted(given: &GivenList) -> Result<usize, WordErr>
    ensures ok { IfOk result (λ count. (n : ℕ) × (spec.lines_wanted (last_value 110 given.now) ≡ Some n) × StandsFor count n) }
    ensures fault { IfErr result (λ e. RefusesNumber e (spec.lines_wanted (last_value 110 given.now))) }
{
    match value_of(given, b'n')? {
        Some(word) => count_in(&word),
        None => Ok(10),
    }
}

/// Whether there are several operands.
pub fn is_several(operands: &TextList) -> bool
    ensures { result ≡ spec.is_several operands.now }
{
    matches!(operands.as_slice(), [_, _, ..])
}

/// Writes the first lines of the operands, so many of each.
fn head_files<B: Base>(
    alloc: Global,
    count: usize,
    operands: TextList,
    view: &mut View<B>,
) -> Result<u8, Halt>
    ensures { (n : ℕ) → StandsFor count n → Acts B.seen (spec.heads_written n operands) view.old view.new result }
{
    let several = is_several(&operands);
    let mut heads = Heads {
        alloc,
        count,
        several,
        first: true,
    };
    filter_files(alloc, b"head", operands, &mut heads, view)
}

fn head_words<B: Base>(alloc: Global, words: Options, view: &mut View<B>) -> Result<u8, Halt>
    ensures { Acts B.seen (spec.head_by (Ok words)) view.old view.new result }
{
    let Options { given, operands } = words;
    let wanted = lines_wanted(&given);
    drop(given);
    match wanted {
        Ok(count) => head_files(alloc, count, operands, view),
        Err(err) => refuse_words(alloc, b"head", err, view),
    }
}

/// Writes the first lines of each operand: ten of them, or the number that `-n` gives. `-` is standard input, which is read too
/// where there is no operand. Of several operands each that is read has a title.
pub fn head<B: Base>(alloc: Global, args: &TextList, view: &mut View<B>) -> Result<u8, Halt>
    ensures { Acts B.seen (spec.head args.now) view.old view.new result }
{
    match read_words(alloc, &[(b'n', true)], args) {
        Ok(words) => head_words(alloc, words, view),
        Err(err) => refuse_words(alloc, b"head", err, view),
    }
}
