//! The parts of a word (POSIX.1-2017, XCU 2.2, 2.6).

ghost use Rattle.std.specs.Prelude.{◌≡◌, ◌+◌, ◌<◌, ◌≤◌, ◌++◌, ◌∷◌, [], false, OnOk, option_map};
ghost use Rattle.sh_expand.specs.Moves.{Moved, Stepped, Tried, goes_on, in_memory, told_of};
ghost use Rattle.sh_expand.specs.Rest.{means, next_of, part_plan, quotes_unless, rest_of, waiting_of, with_start, words_of};
ghost use Rattle.sh_expand.specs.Sums.{sums};
ghost use Rattle.sh_expand.specs.Weights.{part_weight, parts_weight, weight, word_weight};
ghost use Rattle.sh_param.specs.Lookups as lookups;
ghost use Rattle.sh_param.specs.Parts as spec;
ghost use Rattle.sh_param.specs.Plans.{after};
ghost use Rattle.sh_param.specs.Tildes as tildes;

use crate::machine::Machine;
use hs_text::Text;
use hs_view::{Base, Halt, View};
use sh_param::{Expanded, Follow, Piece, starts_after, with_text};
use sh_split::Mark;
use sh_syntax::{ParamOp, Part, Word};
use std::alloc::AllocError;

/// What stands there where a text does: its first byte.
fn first_byte(text: &[u8]) -> Follow
    ensures { result ≡ spec.first_byte (Some text.now) }
{
    match text.first() {
        Some(byte) => Follow::Byte(*byte),
        None => Follow::Other,
    }
}

/// What a part begins with.
fn follow(part: &Part) -> Follow
    ensures { result ≡ spec.first_byte (spec.meaning sums part.now).bytes }
{
    match part {
        Part::Plain(text) => first_byte(text.as_slice()),
        _ => Follow::Other,
    }
}

/// What stands behind a part.
fn follow_of(parts: &[Part]) -> Follow
    ensures { result ≡ spec.follow_of (means parts.now) }
{
    match parts.first() {
        Some(part) => follow(part),
        None => Follow::End,
    }
}

fn is_at_name(name: &[u8]) -> bool
    ensures { result ≡ spec.is_at_byte name.now }
{
    matches!(name, [b'@'])
}

fn is_value(op: ParamOp) -> bool
    ensures { result ≡ spec.is_value op }
{
    op == ParamOp::Value
}

/// Whether the part is `$@`.
fn is_at(part: &Part) -> bool
    ensures { result ≡ (spec.meaning sums part.now).is_at }
{
    match part {
        Part::Param {
            name,
            op,
            colon: _,
            word: _,
        } => is_value(*op) && is_at_name(name.as_slice()),
        _ => false,
    }
}

/// Whether the parts are `$@` alone.
fn is_at_alone(parts: &[Part]) -> bool
    ensures { spec.quotes_of (means parts.now) ≡ quotes_unless result }
{
    match parts {
        [part] => is_at(part),
        _ => false,
    }
}

/// The parts of the word of a parameter expansion.
fn word_of(word: &Option<Word>) -> &[Part]
    ensures means { means result.now ≡ words_of word.now }
    ensures weighs { parts_weight result.now ≡ word_weight word.now }
{
    match word {
        Some(word) => word.parts.as_slice(),
        None => &[],
    }
}

impl<'a> Machine<'a> {
    /// Bytes that stand for themselves, but for tildes.
    fn plain<B: Base>(&mut self, start: bool, text: &Text, view: &mut View<B>) -> Result<(), Halt>
        ensures moves { Moved B.seen (after (lookups.with_text self.old.mode start (spec.follow_of (means self.old.parts.now)) text.now self.old.pieces) (next_of (with_start (tildes.starts_after self.old.mode start text.now) self.old))) (rest_of self.new) view.old view.new result }
        ensures weighs { OnOk result (weight self.new ≡ weight self.old) }
    {
        let follow = follow_of(self.parts);
        let pieces = self.take_pieces();
        self.pieces = with_text(self.alloc, self.mode, start, follow, text, pieces, view)?;
        self.start = starts_after(self.mode, start, text.as_slice());
        Ok(())
    }

    /// What stands between single quotes.
    fn single(&mut self, text: &[u8]) -> Result<(), AllocError>
        ensures rest { OnOk result (rest_of self.new ≡ next_of self.old (self.old.pieces ++ spec.single_pieces text.now)) }
        ensures weighs { OnOk result (weight self.new ≡ weight self.old) }
    {
        self.pieces.quotes()?;
        self.pieces.quote(text)
    }

    /// A byte behind a backslash.
    fn escaped(&mut self, byte: u8) -> Result<(), AllocError>
        ensures rest { OnOk result (rest_of self.new ≡ next_of self.old (self.old.pieces ++ Piece.Mark (Mark.Quoted byte) ∷ [])) }
        ensures weighs { OnOk result (weight self.new ≡ weight self.old) }
    {
        self.pieces.push(Piece::Mark(Mark::Quoted(byte)))
    }

    /// Double quotes begin, which make a field also of nothing, but for `"$@"`.
    fn begin_quotes(&mut self, parts: &[Part]) -> Result<(), AllocError>
        ensures { OnOk result (self.new ≡ record self.old { pieces = self.old.pieces ++ spec.quotes_of (means parts.now) }) }
    {
        if is_at_alone(parts) {
            return Ok(());
        }
        self.pieces.quotes()
    }

    /// What stands between double quotes.
    fn double(&mut self, parts: &'a [Part]) -> Result<(), AllocError>
        requires { self.old.start ≡ false }
        ensures rest { OnOk result (rest_of self.new ≡ spec.double_means (means parts.now) self.old.mode self.old.pieces (next_of self.old)) }
        ensures weighs { OnOk result (weight self.new ≡ parts_weight parts.now + 1 + weight self.old) }
    {
        self.begin_quotes(parts)?;
        self.enter(self.mode.quoted(), false, parts)
    }
}

/// Without a message.
fn quietly(done: Result<(), Halt>) -> Result<Option<Text>, Halt>
    ensures { result ≡ goes_on done }
{
    done?;
    Ok(None)
}

/// Without an answer yet.
fn going(done: Result<(), Halt>) -> Result<Option<Expanded>, Halt>
    ensures { result ≡ goes_on done }
{
    done?;
    Ok(None)
}

/// Without an answer yet, where nothing but memory can be wanting.
fn kept(done: Result<(), AllocError>) -> Result<Option<Expanded>, Halt>
    ensures { result ≡ in_memory done }
{
    done?;
    Ok(None)
}

/// A message as an answer.
pub fn told(why: Option<Text>) -> Option<Expanded>
    ensures { result ≡ option_map Expanded.Error why }
{
    match why {
        Some(why) => Some(Expanded::Error(why)),
        None => None,
    }
}

/// With the message as an answer, where there is one.
fn failing(done: Result<Option<Text>, Halt>) -> Result<Option<Expanded>, Halt>
    ensures { result ≡ told_of done }
{
    let why = done?;
    Ok(told(why))
}

impl<'a> Machine<'a> {
    /// A parameter expansion. The answer is the message where it fails.
    fn param<B: Base>(
        &mut self,
        name: &'a Text,
        op: ParamOp,
        colon: bool,
        word: &'a [Part],
        view: &mut View<B>,
    ) -> Result<Option<Text>, Halt>
        requires { self.old.start ≡ false }
        ensures moves { Tried B.seen (spec.param_means name.now op colon (means word.now) self.old.mode self.old.pieces (next_of self.old)) (rest_of self.new) view.old view.new result }
        ensures weighs { OnOk result (weight self.new ≤ parts_weight word.now + 1 + weight self.old) }
    {
        match op {
            ParamOp::Value => quietly(self.value(name, view)),
            ParamOp::Length => quietly(self.size(name, view)),
            ParamOp::Default => quietly(self.default(name, colon, word, view)),
            ParamOp::Assign => self.assign(name, colon, word, view),
            ParamOp::Error => self.error(name, colon, word, view),
            ParamOp::Alternative => quietly(self.alternative(name, colon, word, view)),
            ParamOp::SmallSuffix => quietly(self.trim(op, name, word, view)),
            ParamOp::LargeSuffix => quietly(self.trim(op, name, word, view)),
            ParamOp::SmallPrefix => quietly(self.trim(op, name, word, view)),
            ParamOp::LargePrefix => quietly(self.trim(op, name, word, view)),
        }
    }

    /// The next part, behind which come those that are next now.
    pub fn part<B: Base>(
        &mut self,
        part: &'a Part,
        view: &mut View<B>,
    ) -> Result<Option<Expanded>, Halt>
        ensures moves { Stepped B.seen (part_plan part.now self.old) (rest_of self.new) (waiting_of self.new) view.old view.new result }
        ensures weighs { OnOk result (weight self.new < part_weight part.now + weight self.old) }
    {
        let start = self.start;
        self.start = false;
        match part {
            Part::Plain(text) => going(self.plain(start, text, view)),
            Part::Single(text) => kept(self.single(text.as_slice())),
            Part::Escaped(byte) => kept(self.escaped(*byte)),
            Part::Double(parts) => kept(self.double(parts.as_slice())),
            Part::Arith(word) => kept(self.sum(word.parts.as_slice())),
            Part::Command(list) => Ok(Some(Expanded::Wants(*list))),
            Part::Param {
                name,
                op,
                colon,
                word,
            } => failing(self.param(name, *op, *colon, word_of(word), view)),
        }
    }
}
