//! `tail` (POSIX.1-2017, XCU, `tail`).

ghost use Rattle.std.specs.Prelude.{◌≡◌, Some, IfOk, IfErr, Ok, Err};
ghost use Rattle.hs_view.specs.Acts.{Acts};
ghost use Rattle.util_common.specs.Words.{last_value};
ghost use Rattle.util_text.specs.Numbers.{RefusesNumber};
ghost use Rattle.util_text.specs.Tail.{AreEnds, ends_of};
ghost use Rattle.util_text.specs.Tailing as spec;

use crate::ends::{Ends, read_ends, tail_part};
use crate::heading::is_several;
use hs_text::{Text, TextList};
use hs_view::{Base, Halt, View};
use std::alloc::{AllocError, Global};
use util_common::{Filter, Why, WordErr, filter_files, read_words, refuse, refuse_words, value_of};
use util_opts::{GivenList, Options};

/// The last lines of each content, or those from a line on.
#[derive(Drop)]
pub struct Tails {
    pub ends: Ends,
}

impl Filter for Tails {
    ghost use Rattle.util_text.specs.Tailing.{Tailing};

    ghost writes = { λ filter text before. Tailing filter text };

    fn filter(&mut self, _word: &Text, content: Text) -> Result<Text, AllocError> {
        tail_part(&content, self.ends)
    }
}

/// Which lines are wanted.
fn ends_wanted(given: &GivenList) -> Result<Ends, WordErr>
    ensures ok { IfOk result (λ ends. (exact : Ends) × (spec.ends_wanted (last_value 110 given.now) ≡ Some exact) × AreEnds ends exact) }
    ensures fault { IfErr result (λ e. RefusesNumber e (spec.ends_wanted (last_value 110 given.now))) }
{
    match value_of(given, b'n')? {
        Some(word) => ends_in(&word),
        None => Ok(Ends::Last(10)),
    }
}

/// The lines that a word asks for.
fn ends_in(word: &Text) -> Result<Ends, WordErr>
    ensures ok { IfOk result (λ ends. (exact : Ends) × (ends_of word.now ≡ Some exact) × AreEnds ends exact) }
    ensures fault { IfErr result (λ e. RefusesNumber e (ends_of word.now)) }
{
    match read_ends(word.as_slice()) {
        Ok(ends) => Ok(ends),
        Err(_) => Err(WordErr::Refused(Why::BadNumber)),
    }
}

/// Writes these lines of the operand, of which there may be one.
fn tail_file<B: Base>(
    alloc: Global,
    ends: Ends,
    operands: TextList,
    view: &mut View<B>,
) -> Result<u8, Halt>
    ensures { (exact : Ends) → AreEnds ends exact → Acts B.seen (spec.tails_written exact operands) view.old view.new result }
{
    if is_several(&operands) {
        return refuse(alloc, b"tail", Why::ExtraOperand, view);
    }
    let mut tails = Tails { ends };
    filter_files(alloc, b"tail", operands, &mut tails, view)
}

fn tail_words<B: Base>(alloc: Global, words: Options, view: &mut View<B>) -> Result<u8, Halt>
    ensures { Acts B.seen (spec.tail_by (Ok words)) view.old view.new result }
{
    let Options { given, operands } = words;
    let wanted = ends_wanted(&given);
    drop(given);
    match wanted {
        Ok(ends) => tail_file(alloc, ends, operands, view),
        Err(err) => refuse_words(alloc, b"tail", err, view),
    }
}

/// Writes the last lines of its operand: ten of them, or the number that `-n` gives; with `+` the lines from that one on. `-` is
/// standard input, which is read too where there is no operand.
pub fn tail<B: Base>(alloc: Global, args: &TextList, view: &mut View<B>) -> Result<u8, Halt>
    ensures { Acts B.seen (spec.tail_command args.now) view.old view.new result }
{
    match read_words(alloc, &[(b'n', true)], args) {
        Ok(words) => tail_words(alloc, words, view),
        Err(err) => refuse_words(alloc, b"tail", err, view),
    }
}
