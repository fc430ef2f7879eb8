//! `grep` (POSIX.1-2017, XCU, `grep`) with `-F`.

ghost use Rattle.std.specs.Prelude.{◌≡◌, [], false, true, IfOk, Ok, codes};
ghost use Rattle.hs_view.specs.Acts.{Acts, only};
ghost use Rattle.hs_world.specs.declared.effect.Effect.TheVariants.{Emit};
ghost use Rattle.hs_world.specs.declared.effect.Fd.TheVariants.{Two};
ghost use Rattle.util_common.specs.Messages.{message_on};
ghost use Rattle.util_common.specs.Operands.{or_input};
ghost use Rattle.util_common.specs.declared.content.Content.TheVariants as taken;
ghost use Rattle.util_lines.specs.FixedLines.{has_selected};
ghost use Rattle.util_lines.specs.Selecting as spec;

use crate::fixed_lines::{Flags, Search, folded, write_report};
use hs_text::{Text, TextList};
use hs_view::{Base, Halt, View};
use hs_world::Fd;
use std::alloc::{AllocError, Global};
use util_common::{
    Content, Why, emit, is_given, message_on, operands_or_input, read_words, refuse, refuse_words,
    take_content,
};
use util_opts::{GivenList, Options};

/// What was found so far.
#[derive(Clone, Copy, Debug, PartialEq, Eq)]
pub struct Found {
    /// A line is selected.
    pub selected: bool,
    /// An operand was refused.
    pub refused: bool,
}

impl Found {
    /// The exit status.
    fn status(self, quiet: bool) -> u8
        ensures { result ≡ spec.status_of quiet self }
    {
        if self.refused {
            return if quiet && self.selected { 0 } else { 2 };
        }
        if self.selected { 0 } else { 1 }
    }
}

fn flags_by(given: &GivenList) -> Flags
    ensures { result ≡ spec.flags_by given.now }
{
    Flags {
        folds: is_given(given, b'i'),
        inverts: is_given(given, b'v'),
        whole: is_given(given, b'x'),
        counts: is_given(given, b'c'),
        numbers: is_given(given, b'n'),
        quiet: is_given(given, b'q'),
    }
}

fn search_of(alloc: Global, flags: Flags, operand: &Text) -> Result<Search, AllocError>
    ensures { IfOk result (λ search. search ≡ spec.search_of flags operand.now) }
{
    let patterns = folded(alloc, flags.folds, operand)?;
    Ok(Search { flags, patterns })
}

/// What stands before each line of an operand: its name, where there are several.
fn prefix_of(alloc: Global, several: bool, name: &Text) -> Result<Text, AllocError>
    ensures { IfOk result (λ prefix. prefix ≡ spec.prefix_of several name.now) }
{
    if !several {
        return Ok(Text::new(alloc));
    }
    let mut prefix = name.clone()?;
    prefix.extend(b":")?;
    Ok(prefix)
}

/// What is written of a content, and whether a line of it is selected.
fn reported(
    alloc: Global,
    search: &Search,
    several: bool,
    word: &Text,
    content: &Text,
) -> Result<(Text, bool), AllocError>
    ensures { IfOk result (λ out. (out.0 ≡ spec.text_of search.now several word.now content.now) × (out.1 ≡ has_selected search.now.flags search.now.patterns content.now)) }
{
    let prefix = prefix_of(alloc, several, word)?;
    let mut out = Vec::new(alloc);
    let selected = write_report(
        alloc,
        &mut out,
        search,
        prefix.as_slice(),
        content.as_slice(),
    )?;
    let text = Text::from_vec(alloc, out)?;
    Ok((text, selected))
}

/// Writes a text, and answers what was found.
fn emit_found<B: Base>(fd: Fd, text: Text, found: Found, view: &mut View<B>) -> Result<Found, Halt>
    ensures { Acts B.seen (only (Emit fd text) found) view.old view.new result }
{
    emit(fd, text, 0, view)?;
    Ok(found)
}

fn search_content<B: Base>(
    alloc: Global,
    search: &Search,
    several: bool,
    word: &Text,
    content: &Text,
    found: Found,
    view: &mut View<B>,
) -> Result<Found, Halt>
    ensures { Acts B.seen (spec.content_searched search.now several word.now found (taken.Bytes content.now)) view.old view.new result }
{
    let made = reported(alloc, search, several, word, content)?;
    let found = Found {
        selected: found.selected | made.1,
        refused: found.refused,
    };
    emit_found(Fd::One, made.0, found, view)
}

/// Writes the message on an operand that is refused.
fn refuse_operand<B: Base>(
    alloc: Global,
    word: &Text,
    why: Why,
    found: Found,
    view: &mut View<B>,
) -> Result<Found, Halt>
    ensures { Acts B.seen (only (Emit Two (message_on (codes "grep") word.now why)) (spec.found_by found.selected true)) view.old view.new result }
{
    let line = message_on(alloc, b"grep", word, why)?;
    let found = Found {
        selected: found.selected,
        refused: true,
    };
    emit_found(Fd::Two, line, found, view)
}

/// Searches what an operand has.
fn search_taken<B: Base>(
    alloc: Global,
    search: &Search,
    several: bool,
    word: &Text,
    content: Content,
    found: Found,
    view: &mut View<B>,
) -> Result<Found, Halt>
    ensures { Acts B.seen (spec.content_searched search.now several word.now found content) view.old view.new result }
{
    match content {
        Content::Bytes(bytes) => search_content(alloc, search, several, word, &bytes, found, view),
        Content::Refused(why) => refuse_operand(alloc, word, why, found, view),
    }
}

/// Searches one operand.
fn search_operand<B: Base>(
    alloc: Global,
    search: &Search,
    several: bool,
    word: &Text,
    found: Found,
    view: &mut View<B>,
) -> Result<Found, Halt>
    ensures { Acts B.seen (spec.operand_searched search.now several word.now found) view.old view.new result }
{
    let content = take_content(alloc, word, view)?;
    search_taken(alloc, search, several, word, content, found, view)
}

/// Searches operands, in order. Each content is read after what the operands before it wrote.
fn search_words<B: Base>(
    alloc: Global,
    search: &Search,
    several: bool,
    words: &[Text],
    view: &mut View<B>,
) -> Result<Found, Halt>
    ensures { Acts B.seen (spec.words_searched search.now several (spec.found_by false false) words.now) view.old view.new result }
{
    let mut found = Found {
        selected: false,
        refused: false,
    };
    for word in words {
        found = search_operand(alloc, search, several, word, found, view)?;
    }
    Ok(found)
}

fn is_several(files: &[Text]) -> bool
    ensures { result ≡ spec.is_several files.now }
{
    matches!(files, [_, _, ..])
}

/// Searches standard input.
fn search_input<B: Base>(alloc: Global, search: &Search, view: &mut View<B>) -> Result<Found, Halt>
    ensures { Acts B.seen (spec.words_searched search.now false (spec.found_by false false) (or_input [])) view.old view.new result }
{
    let words = operands_or_input(alloc, TextList::new(alloc))?;
    search_words(alloc, search, false, words.as_slice(), view)
}

/// Searches files, or standard input where there is none.
fn search_or_input<B: Base>(
    alloc: Global,
    search: &Search,
    files: &[Text],
    view: &mut View<B>,
) -> Result<Found, Halt>
    ensures { Acts B.seen (spec.words_searched search.now (spec.is_several files.now) (spec.found_by false false) (or_input files.now)) view.old view.new result }
{
    if files.is_empty() {
        return search_input(alloc, search, view);
    }
    search_words(alloc, search, is_several(files), files, view)
}

/// Searches files, and answers the status.
fn search_files<B: Base>(
    alloc: Global,
    search: &Search,
    files: &[Text],
    view: &mut View<B>,
) -> Result<u8, Halt>
    ensures { Acts B.seen (spec.files_searched search.now files.now) view.old view.new result }
{
    let found = search_or_input(alloc, search, files, view)?;
    Ok(found.status(search.flags.quiet))
}

/// Searches files for these patterns.
fn search_for<B: Base>(
    alloc: Global,
    flags: Flags,
    patterns: &Text,
    files: &[Text],
    view: &mut View<B>,
) -> Result<u8, Halt>
    ensures { Acts B.seen (spec.files_searched (spec.search_of flags patterns.now) files.now) view.old view.new result }
{
    let search = search_of(alloc, flags, patterns)?;
    search_files(alloc, &search, files, view)
}

/// Searches the operands behind the first, which has the patterns.
fn search_operands<B: Base>(
    alloc: Global,
    flags: Flags,
    operands: &[Text],
    view: &mut View<B>,
) -> Result<u8, Halt>
    ensures { Acts B.seen (spec.operands_searched flags operands.now) view.old view.new result }
{
    match operands.split_first() {
        Some((patterns, files)) => search_for(alloc, flags, patterns, files, view),
        None => refuse(alloc, b"grep", Why::MissingOperand, view),
    }
}

fn grep_words<B: Base>(alloc: Global, words: Options, view: &mut View<B>) -> Result<u8, Halt>
    ensures { Acts B.seen (spec.grep_by (Ok words)) view.old view.new result }
{
    let Options { given, operands } = words;
    let fixed = is_given(&given, b'F');
    let flags = flags_by(&given);
    drop(given);
    if !fixed {
        return refuse(alloc, b"grep", Why::OnlyFixed, view);
    }
    search_operands(alloc, flags, operands.as_slice(), view)
}

/// Writes the lines of its operands in which one of the patterns occurs, which are the lines of the first operand; with `-x` those
/// that one of them is, and with `-v` the others. With `-i` the case of letters does not count. A line stands behind the name of its
/// operand, where there are several, and with `-n` behind its number; with `-c` the count is written for each operand instead, and
/// with `-q` nothing. `-` is standard input, which is read too where there is no operand behind the first. The status is 0 where a line
/// is selected, else 1; 2 where an operand is refused, but not with `-q` and a selected line. Each line is searched once for each
/// pattern, in time linear in both.
pub fn grep<B: Base>(alloc: Global, args: &TextList, view: &mut View<B>) -> Result<u8, Halt>
    ensures { Acts B.seen (spec.grep args.now) view.old view.new result }
{
    match read_words(
        alloc,
        &[
            (b'F', false),
            (b'c', false),
            (b'i', false),
            (b'n', false),
            (b'q', false),
            (b'v', false),
            (b'x', false),
        ],
        args,
    ) {
        Ok(words) => grep_words(alloc, words, view),
        Err(err) => refuse_words(alloc, b"grep", err, view),
    }
}
