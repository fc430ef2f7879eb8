//! `tr` (POSIX.1-2017, XCU, `tr`).

ghost use Rattle.std.specs.Prelude.{◌≡◌, IfOk, IfErr, Ok, Err};
ghost use Rattle.hs_view.specs.Acts.{Acts};
ghost use Rattle.util_common.specs.Words.{Answers};
ghost use Rattle.util_lines.specs.ByteSet.{set_of};
ghost use Rattle.util_lines.specs.Transliterate.{Job, StandFor, transliterated};
ghost use Rattle.util_lines.specs.Translating as spec;

use crate::byte_set::{SetErr, complement, read_set};
use crate::byte_table::{image_table, member_table};
use crate::transliterating::{Tables, transliterate};
use hs_text::{Text, TextList};
use hs_view::{Base, Halt, View};
use hs_world::Fd;
use std::alloc::{AllocError, Global};
use util_common::{Why, WordErr, emit, is_given, read_input, read_words, refuse_words};
use util_opts::{GivenList, Options};

/// What the options ask for.
#[derive(Clone, Copy)]
pub struct Asked {
    /// The first set is all other bytes.
    pub complements: bool,
    /// The first set is deleted.
    pub deletes: bool,
    /// Runs of the last set are squeezed.
    pub squeezes: bool,
}

fn asked_by(given: &GivenList) -> Asked
    ensures { result ≡ spec.asked_by given.now }
{
    Asked {
        complements: is_given(given, b'c'),
        deletes: is_given(given, b'd'),
        squeezes: is_given(given, b's'),
    }
}

/// The set, or nothing where it is not wanted.
fn where_true(wanted: bool, set: &[u8]) -> &[u8]
    ensures { result.now ≡ spec.where_true wanted set.now }
{
    if wanted { set } else { b"" }
}

/// The second set where there is one, else the first.
fn last_set<'a>(one: &'a [u8], two: &'a [u8]) -> &'a [u8]
    ensures { result.now ≡ spec.last_set one.now two.now }
{
    match two {
        [] => one,
        [_, ..] => two,
    }
}

/// What is to be done with these sets; an empty second one is none.
fn tables_for(asked: Asked, one: &[u8], two: &[u8]) -> Tables
    ensures { StandFor result (spec.job_of asked one.now two.now) }
{
    Tables {
        deletes: member_table(where_true(asked.deletes, one)),
        images: image_table(one, where_true(!asked.deletes, two)),
        squeezes: member_table(where_true(asked.squeezes, last_set(one, two))),
    }
}

/// The set that a word writes.
fn set_in(alloc: Global, word: &Text) -> Result<Vec<u8>, WordErr>
    ensures ok { IfOk result (λ set. spec.set_read (set_of word.now) ≡ Ok set.items) }
    ensures fault { IfErr result (λ e. Answers (Err e) (spec.set_read (set_of word.now))) }
{
    match read_set(alloc, word.as_slice()) {
        Ok(set) => Ok(set),
        Err(SetErr::BadSet) => Err(WordErr::Refused(Why::BadSet)),
        Err(SetErr::NoMemory) => Err(WordErr::NoMemory),
    }
}

/// The first set, or all other bytes.
fn first_set(alloc: Global, complements: bool, word: &Text) -> Result<Vec<u8>, WordErr>
    ensures ok { IfOk result (λ set. spec.first_set complements (spec.set_read (set_of word.now)) ≡ Ok set.items) }
    ensures fault { IfErr result (λ e. Answers (Err e) (spec.first_set complements (spec.set_read (set_of word.now)))) }
{
    let set = set_in(alloc, word)?;
    if complements {
        let others = complement(alloc, set.as_slice())?;
        return Ok(others);
    }
    Ok(set)
}

/// The second set, which is not empty.
fn second_set(alloc: Global, word: &Text) -> Result<Vec<u8>, WordErr>
    ensures ok { IfOk result (λ set. spec.second_set (spec.set_read (set_of word.now)) ≡ Ok set.items) }
    ensures fault { IfErr result (λ e. Answers (Err e) (spec.second_set (spec.set_read (set_of word.now)))) }
{
    let set = set_in(alloc, word)?;
    if set.is_empty() {
        return Err(WordErr::Refused(Why::BadSet));
    }
    Ok(set)
}

fn by_one(alloc: Global, asked: Asked, one: &Text) -> Result<Tables, WordErr>
    ensures ok { IfOk result (λ tables. (job : Job) × (spec.by_one asked one.now ≡ Ok job) × StandFor tables job) }
    ensures fault { IfErr result (λ e. Answers (Err e) (spec.by_one asked one.now)) }
{
    let set = first_set(alloc, asked.complements, one)?;
    Ok(tables_for(asked, set.as_slice(), b""))
}

fn by_two(alloc: Global, asked: Asked, one: &Text, two: &Text) -> Result<Tables, WordErr>
    ensures ok { IfOk result (λ tables. (job : Job) × (spec.by_two asked one.now two.now ≡ Ok job) × StandFor tables job) }
    ensures fault { IfErr result (λ e. Answers (Err e) (spec.by_two asked one.now two.now)) }
{
    let first = first_set(alloc, asked.complements, one)?;
    let second = second_set(alloc, two)?;
    Ok(tables_for(asked, first.as_slice(), second.as_slice()))
}

/// One set is enough where it is deleted or squeezed.
fn with_one(alloc: Global, asked: Asked, one: &Text) -> Result<Tables, WordErr>
    ensures ok { IfOk result (λ tables. (job : Job) × (spec.with_one asked one.now ≡ Ok job) × StandFor tables job) }
    ensures fault { IfErr result (λ e. Answers (Err e) (spec.with_one asked one.now)) }
{
    if asked.deletes || asked.squeezes {
        return by_one(alloc, asked, one);
    }
    Err(WordErr::Refused(Why::MissingOperand))
}

/// Two sets are too many where the first is deleted and none squeezed.
fn with_two(alloc: Global, asked: Asked, one: &Text, two: &Text) -> Result<Tables, WordErr>
    ensures ok { IfOk result (λ tables. (job : Job) × (spec.with_two asked one.now two.now ≡ Ok job) × StandFor tables job) }
    ensures fault { IfErr result (λ e. Answers (Err e) (spec.with_two asked one.now two.now)) }
{
    if asked.deletes && !asked.squeezes {
        return Err(WordErr::Refused(Why::ExtraOperand));
    }
    by_two(alloc, asked, one, two)
}

/// What is to be done, by the options and the operands.
pub fn tables_wanted(alloc: Global, asked: Asked, operands: &[Text]) -> Result<Tables, WordErr>
    ensures ok { IfOk result (λ tables. (job : Job) × (spec.wanted asked operands.now ≡ Ok job) × StandFor tables job) }
    ensures fault { IfErr result (λ e. Answers (Err e) (spec.wanted asked operands.now)) }
{
    match operands {
        [] => Err(WordErr::Refused(Why::MissingOperand)),
        [one] => with_one(alloc, asked, one),
        [one, two] => with_two(alloc, asked, one, two),
        _ => Err(WordErr::Refused(Why::ExtraOperand)),
    }
}

/// The text that is written.
fn image_of(alloc: Global, tables: &Tables, text: &Text) -> Result<Text, AllocError>
    ensures { IfOk result (λ image. (job : Job) → StandFor tables.now job → image ≡ transliterated job text.now) }
{
    let bytes = transliterate(alloc, tables, text.as_slice())?;
    Text::from_vec(alloc, bytes)
}

fn write_image<B: Base>(
    alloc: Global,
    tables: &Tables,
    text: &Text,
    view: &mut View<B>,
) -> Result<u8, Halt>
    ensures { (job : Job) → StandFor tables.now job → Acts B.seen (spec.image_written job text.now) view.old view.new result }
{
    let image = image_of(alloc, tables, text)?;
    emit(Fd::One, image, 0, view)
}

/// Writes what standard input becomes.
fn write_input<B: Base>(alloc: Global, tables: &Tables, view: &mut View<B>) -> Result<u8, Halt>
    ensures { (job : Job) → StandFor tables.now job → Acts B.seen (spec.input_written job) view.old view.new result }
{
    let text = read_input(alloc, view)?;
    write_image(alloc, tables, &text, view)
}

fn tr_words<B: Base>(alloc: Global, words: Options, view: &mut View<B>) -> Result<u8, Halt>
    ensures { Acts B.seen (spec.tr_by (Ok words)) view.old view.new result }
{
    let Options { given, operands } = words;
    let asked = asked_by(&given);
    drop(given);
    match tables_wanted(alloc, asked, operands.as_slice()) {
        Ok(tables) => write_input(alloc, &tables, view),
        Err(err) => refuse_words(alloc, b"tr", err, view),
    }
}

/// Writes standard input. Each byte of the first set becomes the one at its place in the second, whose last byte is repeated; with
/// `-d` the first set is deleted. With `-c` the first set is all other bytes, ascending. With `-s` of each run of a byte of the last set
/// one is left, after the rest. A set that falls and an empty second set are refused.
pub fn tr<B: Base>(alloc: Global, args: &TextList, view: &mut View<B>) -> Result<u8, Halt>
    ensures { Acts B.seen (spec.tr args.now) view.old view.new result }
{
    match read_words(alloc, &[(b'c', false), (b'd', false), (b's', false)], args) {
        Ok(words) => tr_words(alloc, words, view),
        Err(err) => refuse_words(alloc, b"tr", err, view),
    }
}
