//! `cut` (POSIX.1-2017, XCU, `cut`).

ghost use Rattle.std.specs.Prelude.{◌≡◌, List, Some, None, IfOk, IfErr, Ok, Err};
ghost use Rattle.hs_view.specs.Acts.{Acts};
ghost use Rattle.util_common.specs.Words.{Answers, is_given, last_value};
ghost use Rattle.util_text.specs.Places.{Range, list_of};
ghost use Rattle.util_text.specs.Selected.{Selects};
ghost use Rattle.util_text.specs.Slicing as spec;

use crate::cutting::cut_bytes;
use crate::fault::TextErr;
use crate::fielding::cut_fields;
use crate::list::read_list;
use crate::places::Selection;
use hs_text::{Text, TextList};
use hs_view::{Base, Halt, View};
use std::alloc::{AllocError, Global};
use util_common::{
    Filter, Why, WordErr, filter_files, is_given, read_words, refuse_words, value_of,
};
use util_opts::{GivenList, Options};

/// What a list has the places of: bytes, or the fields that this delimiter parts, where lines without it are written too or not.
#[derive(Clone, Copy)]
pub enum Items {
    Bytes,
    Fields(u8, bool),
}

/// What is cut from each content.
#[derive(Drop)]
pub struct Cuts {
    pub alloc: Global,
    pub items: Items,
    pub selection: Selection,
}

impl Filter for Cuts {
    ghost use Rattle.util_text.specs.Slicing.{Slicing};

    ghost writes = { λ filter text before. Slicing filter text };

    fn filter(&mut self, _word: &Text, content: Text) -> Result<Text, AllocError> {
        cut_content(self.alloc, self.items, &self.selection, content.as_slice())
    }
}

/// The selected items of each line.
fn cut_content(
    alloc: Global,
    items: Items,
    selection: &Selection,
    content: &[u8],
) -> Result<Text, AllocError>
    ensures { IfOk result (λ text. (ranges : List Range) → Selects selection.now ranges → text ≡ spec.cut_text items ranges content.now) }
{
    let mut out = Vec::new(alloc);
    match items {
        Items::Bytes => cut_bytes(&mut out, content, selection)?,
        Items::Fields(delimiter, only) => {
            cut_fields(&mut out, content, selection, delimiter, only)?;
        }
    }
    Text::from_vec(alloc, out)
}

/// The one list that is given, and whether it is one of fields.
fn list_given(given: &GivenList) -> Result<(bool, Text), WordErr>
    ensures { Answers result (spec.list_given (last_value 98 given.now) (last_value 99 given.now) (last_value 102 given.now)) }
{
    let bytes = value_of(given, b'b')?;
    let characters = value_of(given, b'c')?;
    let fields = value_of(given, b'f')?;
    one_list(bytes, characters, fields)
}

fn one_list(
    bytes: Option<Text>,
    characters: Option<Text>,
    fields: Option<Text>,
) -> Result<(bool, Text), WordErr>
    ensures { Answers result (spec.list_given bytes characters fields) }
{
    match bytes {
        Some(list) => list_of_bytes(list, characters, fields),
        None => other_list(characters, fields),
    }
}

/// The list of `-b`, where there is no other one.
fn list_of_bytes(
    list: Text,
    characters: Option<Text>,
    fields: Option<Text>,
) -> Result<(bool, Text), WordErr>
    ensures { Answers result (spec.list_given (Some list) characters fields) }
{
    if characters.is_some() {
        return Err(WordErr::Refused(Why::Excluding));
    }
    if fields.is_some() {
        return Err(WordErr::Refused(Why::Excluding));
    }
    Ok((false, list))
}

/// The list of `-c` or `-f`, where `-b` is not given.
fn other_list(characters: Option<Text>, fields: Option<Text>) -> Result<(bool, Text), WordErr>
    ensures { Answers result (spec.list_given None characters fields) }
{
    match characters {
        Some(list) => list_of_characters(list, fields),
        None => list_of_fields(fields),
    }
}

fn list_of_characters(list: Text, fields: Option<Text>) -> Result<(bool, Text), WordErr>
    ensures { Answers result (spec.list_given None (Some list) fields) }
{
    if fields.is_some() {
        return Err(WordErr::Refused(Why::Excluding));
    }
    Ok((false, list))
}

fn list_of_fields(fields: Option<Text>) -> Result<(bool, Text), WordErr>
    ensures { Answers result (spec.list_given None None fields) }
{
    match fields {
        Some(list) => Ok((true, list)),
        None => Err(WordErr::Refused(Why::MissingOperand)),
    }
}

/// The byte of a word that has just one.
fn one_byte(word: &[u8]) -> Option<u8>
    ensures { result ≡ spec.one_byte word.now }
{
    match word {
        [byte] => Some(*byte),
        _ => None,
    }
}

/// The delimiter: a tab, where none is given.
fn delimiter_of(word: &Option<Text>) -> Option<u8>
    ensures { result ≡ spec.delimiter_of word.now }
{
    match word {
        Some(word) => one_byte(word.as_slice()),
        None => Some(b'\t'),
    }
}

fn fields_by(delimiter: &Option<Text>, only: bool) -> Result<Items, WordErr>
    ensures { Answers result (spec.fields_by (spec.delimiter_of delimiter.now) only) }
{
    match delimiter_of(delimiter) {
        Some(delimiter) => Ok(Items::Fields(delimiter, only)),
        None => Err(WordErr::Refused(Why::BadList)),
    }
}

fn bytes_by(delimiter: &Option<Text>, only: bool) -> Result<Items, WordErr>
    ensures { Answers result (spec.bytes_by delimiter.now only) }
{
    if delimiter.is_some() {
        return Err(WordErr::Refused(Why::Excluding));
    }
    if only {
        return Err(WordErr::Refused(Why::Excluding));
    }
    Ok(Items::Bytes)
}

/// The items that a list has the places of: fields, or bytes, which need no delimiter.
fn items_by(fields: bool, given: &GivenList) -> Result<Items, WordErr>
    ensures { Answers result (spec.items_by fields (last_value 100 given.now) (is_given 115 given.now)) }
{
    let delimiter = value_of(given, b'd')?;
    let only = is_given(given, b's');
    if fields {
        return fields_by(&delimiter, only);
    }
    bytes_by(&delimiter, only)
}

/// The places that a list selects.
fn selection_of(alloc: Global, items: Items, list: &Text) -> Result<Selection, WordErr>
    ensures ok { IfOk result (λ selection. (ranges : List Range) × (spec.with_ranges items (list_of list.now) ≡ Ok (items, ranges)) × Selects selection ranges) }
    ensures fault { IfErr result (λ e. Answers (Err e) (spec.with_ranges items (list_of list.now))) }
{
    match read_list(alloc, list.as_slice()) {
        Ok(selection) => Ok(selection),
        Err(TextErr::NoMemory) => Err(WordErr::NoMemory),
        Err(_) => Err(WordErr::Refused(Why::BadList)),
    }
}

/// What is cut.
fn cuts_wanted(alloc: Global, given: &GivenList) -> Result<Cuts, WordErr>
    ensures ok { IfOk result (λ cuts. (ranges : List Range) × (spec.wanted given.now ≡ Ok (cuts.items, ranges)) × Selects cuts.selection ranges) }
    ensures fault { IfErr result (λ e. Answers (Err e) (spec.wanted given.now)) }
{
    let (fields, list) = list_given(given)?;
    let items = items_by(fields, given)?;
    let selection = selection_of(alloc, items, &list)?;
    Ok(Cuts {
        alloc,
        items,
        selection,
    })
}

/// Writes what is cut from the operands.
fn cut_files<B: Base>(
    alloc: Global,
    cuts: Cuts,
    operands: TextList,
    view: &mut View<B>,
) -> Result<u8, Halt>
    ensures { (ranges : List Range) → Selects cuts.selection ranges → Acts B.seen (spec.cuts_written cuts.items ranges operands) view.old view.new result }
{
    let mut cuts = cuts;
    filter_files(alloc, b"cut", operands, &mut cuts, view)
}

fn cut_words<B: Base>(alloc: Global, words: Options, view: &mut View<B>) -> Result<u8, Halt>
    ensures { Acts B.seen (spec.cut_by (Ok words)) view.old view.new result }
{
    let Options { given, operands } = words;
    let wanted = cuts_wanted(alloc, &given);
    drop(given);
    match wanted {
        Ok(cuts) => cut_files(alloc, cuts, operands, view),
        Err(err) => refuse_words(alloc, b"cut", err, view),
    }
}

/// Writes of each line of its operands the bytes that the list of `-b` or `-c` selects, or the fields that the list of `-f` selects,
/// in the order of the line. `-d` gives the delimiter of fields, one byte, where it is no tab; a line without it passes whole, or with
/// `-s` not at all. `-` is standard input, which is read too where there is no operand. Just one of the lists is given, and `-d` and
/// `-s` only beside `-f`.
pub fn cut<B: Base>(alloc: Global, args: &TextList, view: &mut View<B>) -> Result<u8, Halt>
    ensures { Acts B.seen (spec.cut_command args.now) view.old view.new result }
{
    match read_words(
        alloc,
        &[
            (b'b', true),
            (b'c', true),
            (b'd', true),
            (b'f', true),
            (b's', false),
        ],
        args,
    ) {
        Ok(words) => cut_words(alloc, words, view),
        Err(err) => refuse_words(alloc, b"cut", err, view),
    }
}
