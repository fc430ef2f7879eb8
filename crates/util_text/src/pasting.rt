//! `paste` (POSIX.1-2017, XCU, `paste`).

ghost use Rattle.std.specs.Prelude.{◌≡◌, ℕ, Some, IfOk, IfErr, Ok};
ghost use Rattle.hs_view.specs.Acts.{Acts};
ghost use Rattle.util_common.specs.Operands.{is_dash};
ghost use Rattle.util_common.specs.Words.{last_value};
ghost use Rattle.util_text.specs.Lines.{lines};
ghost use Rattle.util_text.specs.Lists.{RefusesList};
ghost use Rattle.util_text.specs.Paste.{delimiters_of, paste, serial};
ghost use Rattle.util_text.specs.Pasting as spec;
ghost use Rattle.util_text.specs.Turns.{turns};

use crate::column::Column;
use crate::delimiters::Delimiters;
use crate::escapes::read_delimiters;
use crate::fault::TextErr;
use crate::gathering::{Gathered, gather_operands};
use crate::joining;
use crate::unread::Unread;
use hs_text::{Text, TextList};
use hs_view::{Base, Halt, View};
use hs_world::Fd;
use std::alloc::{AllocError, Global};
use util_common::{
    Filter, Why, WordErr, emit, filter_operands, is_given, read_words, refuse, refuse_words,
    value_of,
};
use util_opts::{GivenList, Options};

/// The lines of each content, joined to one.
#[derive(Drop)]
pub struct Serials {
    pub alloc: Global,
    pub delimiters: Delimiters,
}

impl Filter for Serials {
    ghost use Rattle.util_text.specs.Pasting.{SerialsWritten};

    ghost writes = { λ filter text _. SerialsWritten filter text };

    fn filter(&mut self, _word: &Text, content: Text) -> Result<Text, AllocError> {
        serial(self.alloc, content.as_slice(), &self.delimiters)
    }
}

/// All lines, joined to one.
fn serial(alloc: Global, content: &[u8], delimiters: &Delimiters) -> Result<Text, AllocError>
    ensures { IfOk result (λ text. text ≡ serial (turns delimiters.now) content.now) }
{
    let mut out = Vec::new(alloc);
    joining::paste_serial(&mut out, content, delimiters)?;
    Text::from_vec(alloc, out)
}

fn is_dash(word: &[u8]) -> bool
    ensures { result ≡ is_dash word.now }
{
    matches!(word, [b'-'])
}

fn column_of(word: &Text, content: &Text) -> Result<Column, AllocError>
    ensures { IfOk result (λ column. column ≡ spec.column word.now content.now) }
{
    if is_dash(word.as_slice()) {
        return Ok(Column::Input);
    }
    Ok(Column::File(Unread::new(content.clone()?)))
}

/// A column for each word, by its content.
fn columns_of(alloc: Global, words: &[Text], contents: &[Text]) -> Result<Vec<Column>, AllocError>
    ensures { IfOk result (λ columns. columns.items ≡ spec.columns words.now contents.now) }
{
    let mut columns = Vec::new(alloc);
    let mut left = contents;
    for word in words {
        let Some((content, more)) = left.split_first() else {
            return Ok(columns);
        };
        columns.push(column_of(word, content)?)?;
        left = more;
    }
    Ok(columns)
}

/// The content of the first `-`.
fn input_in(alloc: Global, words: &[Text], contents: &[Text]) -> Result<Text, AllocError>
    ensures { IfOk result (λ text. text ≡ spec.input_in words.now contents.now) }
{
    let mut left = contents;
    for word in words {
        let Some((content, more)) = left.split_first() else {
            return Ok(Text::new(alloc));
        };
        if is_dash(word.as_slice()) {
            return content.clone();
        }
        left = more;
    }
    Ok(Text::new(alloc))
}

/// The lines of the contents side by side.
fn pasted(
    alloc: Global,
    words: &[Text],
    contents: &[Text],
    delimiters: &Delimiters,
) -> Result<Text, AllocError>
    ensures { IfOk result (λ text. text ≡ paste (turns delimiters.now) (spec.columns words.now contents.now) (lines (spec.input_in words.now contents.now))) }
{
    let mut columns = columns_of(alloc, words, contents)?;
    let mut input = Unread::new(input_in(alloc, words, contents)?);
    let mut out = Vec::new(alloc);
    joining::paste(&mut out, columns.as_mut_slice(), &mut input, delimiters)?;
    Text::from_vec(alloc, out)
}

/// Writes the lines, where no operand was refused.
fn write_gathered<B: Base>(
    alloc: Global,
    words: &[Text],
    read: &Gathered,
    delimiters: &Delimiters,
    view: &mut View<B>,
) -> Result<u8, Halt>
    ensures { Acts B.seen (spec.gathered_written (turns delimiters.now) words.now read.now.contents read.now.status) view.old view.new result }
{
    if read.status != 0 {
        return Ok(read.status);
    }
    let text = pasted(alloc, words, read.contents.as_slice(), delimiters)?;
    emit(Fd::One, text, 0, view)
}

/// Writes the lines of the operands side by side, once all are read.
fn paste_columns<B: Base>(
    alloc: Global,
    words: &[Text],
    delimiters: &Delimiters,
    view: &mut View<B>,
) -> Result<u8, Halt>
    ensures { Acts B.seen (spec.columns_written (turns delimiters.now) words.now) view.old view.new result }
{
    let read = gather_operands(alloc, b"paste", words, view)?;
    write_gathered(alloc, words, &read, delimiters, view)
}

/// Writes the lines of each operand in one line.
fn paste_each<B: Base>(
    alloc: Global,
    words: &[Text],
    delimiters: Delimiters,
    view: &mut View<B>,
) -> Result<u8, Halt>
    ensures { Acts B.seen (spec.serials_written (turns delimiters) words.now) view.old view.new result }
{
    let mut serials = Serials { alloc, delimiters };
    filter_operands(alloc, b"paste", words, &mut serials, view)
}

/// Writes the lines of the operands, of which there is one at least.
fn paste_operands<B: Base>(
    alloc: Global,
    apart: bool,
    words: &[Text],
    delimiters: Delimiters,
    view: &mut View<B>,
) -> Result<u8, Halt>
    ensures { Acts B.seen (spec.operands_pasted apart (turns delimiters) words.now) view.old view.new result }
{
    if words.is_empty() {
        return refuse(alloc, b"paste", Why::MissingOperand, view);
    }
    if apart {
        return paste_each(alloc, words, delimiters, view);
    }
    paste_columns(alloc, words, &delimiters, view)
}

/// The delimiters of a list.
fn delimiters_in(alloc: Global, list: &Text) -> Result<Delimiters, WordErr>
    ensures ok { IfOk result (λ delimiters. delimiters_of list.now ≡ Some (turns delimiters)) }
    ensures fault { IfErr result (λ e. RefusesList e (delimiters_of list.now)) }
{
    match read_delimiters(alloc, list.as_slice()) {
        Ok(delimiters) => Ok(delimiters),
        Err(TextErr::NoMemory) => Err(WordErr::NoMemory),
        Err(_) => Err(WordErr::Refused(Why::BadList)),
    }
}

/// The delimiters that are wanted.
fn delimiters_wanted(alloc: Global, given: &GivenList) -> Result<Delimiters, WordErr>
    ensures ok { IfOk result (λ delimiters. spec.delimiters_wanted (last_value 100 given.now) ≡ Some (turns delimiters)) }
    ensures fault { IfErr result (λ e. RefusesList e (spec.delimiters_wanted (last_value 100 given.now))) }
{
    match value_of(given, b'd')? {
        Some(list) => delimiters_in(alloc, &list),
        None => Ok(Delimiters::tab(alloc)?),
    }
}

fn paste_words<B: Base>(alloc: Global, words: Options, view: &mut View<B>) -> Result<u8, Halt>
    ensures { Acts B.seen (spec.paste_by (Ok words)) view.old view.new result }
{
    let Options { given, operands } = words;
    let wanted = delimiters_wanted(alloc, &given);
    let apart = is_given(&given, b's');
    drop(given);
    match wanted {
        Ok(delimiters) => paste_operands(alloc, apart, operands.as_slice(), delimiters, view),
        Err(err) => refuse_words(alloc, b"paste", err, view),
    }
}

/// Writes line k of all its operands, joined to one line, until all have ended; one that has ended gives an empty text. With `-s` it
/// writes all lines of each operand, joined to one line, instead. Between two parts a tab stands, or a delimiter of the list that `-d`
/// gives, in turn and anew for each line: a byte, `\n`, `\t`, `\\`, or `\0` for none. `-` is standard input, whose lines are taken in
/// turn where it is given more than once. Where an operand is no file, only messages are written, but with `-s`.
pub fn paste<B: Base>(alloc: Global, args: &TextList, view: &mut View<B>) -> Result<u8, Halt>
    ensures { Acts B.seen (spec.paste_command args.now) view.old view.new result }
{
    match read_words(alloc, &[(b'd', true), (b's', false)], args) {
        Ok(words) => paste_words(alloc, words, view),
        Err(err) => refuse_words(alloc, b"paste", err, view),
    }
}
