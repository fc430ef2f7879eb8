//! `wc` (POSIX.1-2017, XCU, `wc`).

ghost use Rattle.std.specs.Prelude.{◌≡◌, true, false, Ok, Err, IfOk, option_copied};
ghost use Rattle.hs_view.specs.Acts.{Acts};
ghost use Rattle.util_text.specs.Tallying as spec;
ghost use Rattle.util_text.specs.Wc.{counts_line};

use crate::chosen::{Chosen, write_counts};
use crate::counting::{Counts, count, count_lines, sum};
use crate::heading::is_several;
use hs_text::{Text, TextList};
use hs_view::{Base, Halt, View};
use hs_world::Fd;
use std::alloc::{AllocError, Global};
use util_common::{Filter, emit, filter_files, is_given, read_words, refuse_words};
use util_opts::{GivenList, Options};

/// The counts of no text.
const NONE: Counts = Counts {
    lines: 0,
    words: 0,
    bytes: 0,
};

/// The line of the counts of each content, and the sum of the counts so far.
#[derive(Drop)]
pub struct Tally {
    pub alloc: Global,
    pub chosen: Chosen,
    /// Whether the line has the name of the operand.
    pub named: bool,
    pub total: Counts,
}

impl Filter for Tally {
    ghost use Rattle.util_text.specs.Tallying.{Tallying};

    ghost writes = { λ filter text before. Tallying filter text before };

    fn filter(&mut self, word: &Text, content: Text) -> Result<Text, AllocError> {
        let counts = count(content.as_slice());
        let line = line_of(self.alloc, &self.chosen, &counts, name_in(self.named, word))?;
        self.total = sum(&self.total, &counts);
        Ok(line)
    }
}

/// The line of the counts of each content, where no words are written, and the sum of the other counts so far.
#[derive(Drop)]
pub struct LineTally {
    pub alloc: Global,
    pub chosen: Chosen,
    /// Whether the line has the name of the operand.
    pub named: bool,
    pub total: Counts,
}

impl Filter for LineTally {
    ghost use Rattle.util_text.specs.Tallying.{LineTallying};

    ghost writes = { λ filter text before. LineTallying filter text before };

    fn filter(&mut self, word: &Text, content: Text) -> Result<Text, AllocError> {
        let counts = count_lines(content.as_slice());
        let line = line_of(self.alloc, &self.chosen, &counts, name_in(self.named, word))?;
        self.total = sum(&self.total, &counts);
        Ok(line)
    }
}

/// The name of an operand, where it is written.
fn name_in(named: bool, word: &Text) -> Option<&[u8]>
    ensures { option_copied result ≡ spec.name_in named word.now }
{
    if named { Some(word.as_slice()) } else { None }
}

/// The line of these counts.
fn line_of(
    alloc: Global,
    chosen: &Chosen,
    counts: &Counts,
    name: Option<&[u8]>,
) -> Result<Text, AllocError>
    ensures { IfOk result (λ text. text ≡ counts_line chosen.now counts.now (option_copied name.entry)) }
{
    let mut out = Vec::new(alloc);
    write_counts(&mut out, chosen, counts, name)?;
    Text::from_vec(alloc, out)
}

/// Which counts are chosen.
fn chosen_by(given: &GivenList) -> Chosen
    ensures { result ≡ spec.chosen_by given.now }
{
    Chosen {
        lines: is_given(given, b'l'),
        words: is_given(given, b'w'),
        bytes: is_given(given, b'c'),
    }
}

/// Whether there is an operand.
fn has_operand(operands: &[Text]) -> bool
    ensures { result ≡ spec.has_operand operands.now }
{
    matches!(operands, [_, ..])
}

/// Writes the line of a sum, where there are several operands.
fn write_sum<B: Base>(
    alloc: Global,
    chosen: &Chosen,
    several: bool,
    sum: &Counts,
    status: u8,
    view: &mut View<B>,
) -> Result<u8, Halt>
    ensures { Acts B.seen (spec.sum_written chosen.now several sum.now status) view.old view.new result }
{
    if !several {
        return Ok(status);
    }
    let line = line_of(alloc, chosen, sum, Some(b"total"))?;
    emit(Fd::One, line, status, view)
}

/// Whether words are written: they are chosen, or nothing is.
fn has_words(chosen: &Chosen) -> bool
    ensures { result ≡ spec.has_words chosen.now }
{
    chosen.words || !(chosen.lines || chosen.words || chosen.bytes)
}

/// Writes the counts of the operands, and their sum.
fn tally_words<B: Base>(
    alloc: Global,
    chosen: Chosen,
    operands: TextList,
    view: &mut View<B>,
) -> Result<u8, Halt>
    ensures { Acts B.seen (spec.tallies_written chosen operands) view.old view.new result }
{
    let several = is_several(&operands);
    let named = has_operand(operands.as_slice());
    let mut tally = Tally {
        alloc,
        chosen,
        named,
        total: NONE,
    };
    let status = filter_files(alloc, b"wc", operands, &mut tally, view)?;
    write_sum(alloc, &chosen, several, &tally.total, status, view)
}

/// Writes the counts of the operands, and their sum, where no words are written.
fn tally_lines<B: Base>(
    alloc: Global,
    chosen: Chosen,
    operands: TextList,
    view: &mut View<B>,
) -> Result<u8, Halt>
    requires { spec.has_words chosen ≡ false }
    ensures { Acts B.seen (spec.tallies_written chosen operands) view.old view.new result }
{
    let several = is_several(&operands);
    let named = has_operand(operands.as_slice());
    let mut tally = LineTally {
        alloc,
        chosen,
        named,
        total: NONE,
    };
    let status = filter_files(alloc, b"wc", operands, &mut tally, view)?;
    write_sum(alloc, &chosen, several, &tally.total, status, view)
}

/// Writes the counts of the operands, and their sum. Words are counted only where they are written.
fn tally_files<B: Base>(
    alloc: Global,
    chosen: Chosen,
    operands: TextList,
    view: &mut View<B>,
) -> Result<u8, Halt>
    ensures { Acts B.seen (spec.tallies_written chosen operands) view.old view.new result }
{
    if has_words(&chosen) {
        tally_words(alloc, chosen, operands, view)
    } else {
        tally_lines(alloc, chosen, operands, view)
    }
}

/// Writes the newlines, words and bytes of each operand, or those of them that `-l`, `-w` and `-c` choose, and its name. Where
/// there are several operands, a last line has the sums. `-` is standard input, which is read too where there is no operand; then
/// no name is written.
pub fn wc<B: Base>(alloc: Global, args: &TextList, view: &mut View<B>) -> Result<u8, Halt>
    ensures { Acts B.seen (spec.wc args.now) view.old view.new result }
{
    match read_words(alloc, &[(b'c', false), (b'l', false), (b'w', false)], args) {
        Ok(words) => {
            let Options { given, operands } = words;
            let chosen = chosen_by(&given);
            drop(given);
            tally_files(alloc, chosen, operands, view)
        }
        Err(err) => refuse_words(alloc, b"wc", err, view),
    }
}
