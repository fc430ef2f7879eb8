//! `fold` (POSIX.1-2017, XCU, `fold`).

ghost use Rattle.std.specs.Prelude.{◌≡◌, ℕ, Some, IfOk, IfErr, Ok, Err};
ghost use Rattle.hs_view.specs.Acts.{Acts};
ghost use Rattle.util_common.specs.Words.{last_value};
ghost use Rattle.util_text.specs.Count.{StandsFor, number};
ghost use Rattle.util_text.specs.Fold as lines;
ghost use Rattle.util_text.specs.Numbers.{RefusesNumber};
ghost use Rattle.util_text.specs.Wrapping as spec;

use crate::counted::count_in;
use crate::folding;
use crate::width::Width;
use hs_text::{Text, TextList};
use hs_view::{Base, Halt, View};
use std::alloc::{AllocError, Global};
use util_common::{Filter, Why, WordErr, filter_files, read_words, refuse_words, value_of};
use util_opts::{GivenList, Options};

/// The lines of each content, cut after so many bytes.
#[derive(Drop)]
pub struct Folds {
    pub alloc: Global,
    pub width: Width,
}

impl Filter for Folds {
    ghost use Rattle.util_text.specs.Wrapping.{Folding};

    ghost writes = { λ filter text before. Folding filter text };

    fn filter(&mut self, _word: &Text, content: Text) -> Result<Text, AllocError> {
        folded(self.alloc, content.as_slice(), self.width)
    }
}

/// Lines, cut after so many bytes.
fn folded(alloc: Global, content: &[u8], width: Width) -> Result<Text, AllocError>
    ensures { IfOk result (λ text. (n : ℕ) → StandsFor width.bytes n → text ≡ lines.fold n content.now) }
{
    let mut out = Vec::new(alloc);
    folding::fold(&mut out, content, width.bytes)?;
    Text::from_vec(alloc, out)
}

/// The width that is wanted.
fn width_wanted(given: &GivenList) -> Result<Width, WordErr>
    ensures ok { IfOk result (λ width. (n : ℕ) × (spec.width_wanted (last_value 119 given.now) ≡ Some n) × StandsFor width.bytes n) }
    ensures fault { IfErr result (λ e. RefusesNumber e (spec.width_wanted (last_value 119 given.now))) }
{
    match value_of(given, b'w')? {
        Some(word) => width_in(&word),
        None => Ok(Width { bytes: 80 }),
    }
}

/// The width that a word asks for.
fn width_in(word: &Text) -> Result<Width, WordErr>
    ensures ok { IfOk result (λ width. (n : ℕ) × (spec.positive (number word.now) ≡ Some n) × StandsFor width.bytes n) }
    ensures fault { IfErr result (λ e. RefusesNumber e (spec.positive (number word.now))) }
{
    let bytes = count_in(word)?;
    if bytes == 0 {
        return Err(WordErr::Refused(Why::BadNumber));
    }
    Ok(Width { bytes })
}

/// Writes the lines of the operands, cut after so many bytes.
fn fold_files<B: Base>(
    alloc: Global,
    width: Width,
    operands: TextList,
    view: &mut View<B>,
) -> Result<u8, Halt>
    ensures { (n : ℕ) → StandsFor width.bytes n → Acts B.seen (spec.folds_written n operands) view.old view.new result }
{
    let mut folds = Folds { alloc, width };
    filter_files(alloc, b"fold", operands, &mut folds, view)
}

fn fold_words<B: Base>(alloc: Global, words: Options, view: &mut View<B>) -> Result<u8, Halt>
    ensures { Acts B.seen (spec.fold_by (Ok words)) view.old view.new result }
{
    let Options { given, operands } = words;
    let wanted = width_wanted(&given);
    drop(given);
    match wanted {
        Ok(width) => fold_files(alloc, width, operands, view),
        Err(err) => refuse_words(alloc, b"fold", err, view),
    }
}

/// Writes the lines of its operands, cut after each 80 bytes, or as many as `-w` gives. `-` is standard input, which is read too
/// where there is no operand.
pub fn fold<B: Base>(alloc: Global, args: &TextList, view: &mut View<B>) -> Result<u8, Halt>
    ensures { Acts B.seen (spec.fold_command args.now) view.old view.new result }
{
    match read_words(alloc, &[(b'b', false), (b'w', true)], args) {
        Ok(words) => fold_words(alloc, words, view),
        Err(err) => refuse_words(alloc, b"fold", err, view),
    }
}
