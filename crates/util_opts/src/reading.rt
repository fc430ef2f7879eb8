//! Options and operands from the words of a command (POSIX.1-2017, XBD 12.2).

ghost use Rattle.std.specs.Prelude.{◌≡◌, ◌≤◌, ℕ, Bool, List, true, false, length, drop, None, IfOk, IfErr, MatchOption};
ghost use Rattle.util_opts.specs.Reading as spec;

use crate::options::{GivenList, OptErr, Options};
use crate::table::OptionTable;
use hs_text::{Text, TextList};
use std::alloc::{AllocError, Global};

/// Whether the word ends the options.
fn ends_options(word: &[u8]) -> bool
    ensures { result ≡ spec.ends_options word.now }
{
    matches!(word, [b'-', b'-'])
}

/// The letters of a group of options, where the word is one.
fn letters(word: &[u8]) -> Option<&[u8]>
    ensures { MatchOption result (spec.is_group word.now ≡ false) (λ letters. (spec.is_group word.now ≡ true) × (letters.now ≡ drop 1 word.now)) }
{
    match word {
        [b'-', _, ..] => Some(word.split_at(1).1),
        _ => None,
    }
}

/// Gives the option its value: the bytes that are joined to it, or the next word. Answers the words behind.
fn read_value<'a>(
    alloc: Global,
    byte: u8,
    joined: &[u8],
    after: &'a [Text],
    given: &mut GivenList,
) -> Result<&'a [Text], OptErr>
    ensures read { IfOk result (λ rest. (table : List (ℕ × Bool)) → spec.behind given.old (spec.value byte joined.now (spec.read table after.now)) ≡ spec.behind given.new (spec.read table rest.now None)) }
    ensures within { IfOk result (λ rest. length rest.now ≤ length after.now) }
    ensures fault { IfErr result (λ e. (table : List (ℕ × Bool)) → spec.Tells e (spec.behind given.old (spec.value byte joined.now (spec.read table after.now)))) }
{
    if !joined.is_empty() {
        given.push(byte, Some(Text::from_slice(alloc, joined)?))?;
        return Ok(after);
    }
    match after.split_first() {
        Some((value, rest)) => {
            given.push(byte, Some(value.clone()?))?;
            Ok(rest)
        }
        None => Err(OptErr::Missing(byte)),
    }
}

/// Reads the letters of a group, whose last one may take the next word as its value. Answers the words behind.
fn read_group<'a>(
    alloc: Global,
    table: &OptionTable,
    letters: &[u8],
    after: &'a [Text],
    given: &mut GivenList,
) -> Result<&'a [Text], OptErr>
    ensures read { IfOk result (λ rest. spec.behind given.old (spec.group table.now letters.now (spec.read table.now after.now)) ≡ spec.behind given.new (spec.read table.now rest.now None)) }
    ensures within { IfOk result (λ rest. length rest.now ≤ length after.now) }
    ensures fault { IfErr result (λ e. spec.Tells e (spec.behind given.old (spec.group table.now letters.now (spec.read table.now after.now)))) }
{
    let mut left = letters;
    'letters: while let Some((byte, more)) = left.split_first() {
        match table.takes_value(*byte) {
            None => return Err(OptErr::Unknown(*byte)),
            Some(false) => given.push(*byte, None)?,
            Some(true) => return read_value(alloc, *byte, more, after, given),
        }
        left = more;
    }
    Ok(after)
}

/// Reads the words up to the operands, and answers these.
fn read_words<'a>(
    alloc: Global,
    table: &OptionTable,
    words: &'a [Text],
    given: &mut GivenList,
) -> Result<&'a [Text], OptErr>
    ensures read { IfOk result (λ operands. spec.behind given.old (spec.read table.now words.now None) ≡ spec.Reads given.new operands.now) }
    ensures fault { IfErr result (λ e. spec.Tells e (spec.behind given.old (spec.read table.now words.now None))) }
{
    let mut rest = words;
    'words: while let Some((word, after)) = rest.split_first() {
        if ends_options(word.as_slice()) {
            return Ok(after);
        }
        match letters(word.as_slice()) {
            Some(letters) => rest = read_group(alloc, table, letters, after, given)?,
            None => return Ok(rest),
        }
    }
    Ok(rest)
}

/// The words as a list. A clone of a text shares its bytes.
fn copied(alloc: Global, words: &[Text]) -> Result<TextList, AllocError>
    ensures { IfOk result (λ list. list ≡ words.now) }
{
    let mut list = TextList::new(alloc);
    for word in words {
        list.push(word.clone()?)?;
    }
    Ok(list)
}

/// The options and operands of a command's words, or their first fault in order. Its time is linear in the words and their
/// bytes; each option byte is looked up by a scan of the table.
pub fn read_options(alloc: Global, table: &OptionTable, args: &TextList) -> Result<Options, OptErr>
    ensures { spec.Answers result (spec.options_of table.now args.now) }
{
    let mut given = GivenList::new(alloc);
    let words = read_words(alloc, table, args.as_slice(), &mut given)?;
    let operands = copied(alloc, words)?;
    Ok(Options { given, operands })
}
