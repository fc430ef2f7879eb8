//! Parameters in a state of the shell (POSIX.1-2017, XCU 2.5), and what stands for them in a word.

ghost use Rattle.std.specs.Prelude.{◌≡◌, ℕ, ◌-◌, ◌^◌, ◌<◌, ◌++◌, false, nat_lt, length, min, IfOk};
ghost use Rattle.hs_view.specs.Acts.{Acts};
ghost use Rattle.hs_view.specs.Steps.{nothing};
ghost use Rattle.sh_param.specs.Kinds.{number};
ghost use Rattle.sh_param.specs.Lookups as spec;
ghost use Rattle.sh_param.specs.Values.{digits as digits_of, pieces_of};

use crate::kind::{Kind, kind_of, position};
use crate::mode::Mode;
use crate::piece::Pieces;
use crate::tilde::{Follow, has_tilde};
use crate::value::{ParamValue, digits};
use hs_text::{Text, TextList};
use hs_view::{Base, Halt, View};
use hs_world::Var;
use std::alloc::{AllocError, Global};

/// The value, if it has one.
fn text_in(var: Option<Var>) -> Option<Text>
    ensures { result ≡ spec.text_in var }
{
    match var {
        Some(var) => {
            let Var {
                value,
                exported: _,
                readonly: _,
            } = var;
            value
        }
        None => None,
    }
}

/// The value of a variable, if it has one.
pub fn text_of<B: Base>(name: &Text, view: &mut View<B>) -> Result<Option<Text>, Halt>
    ensures { Acts B.seen (λ w. nothing (spec.text_of name.now w) w) view.old view.new result }
{
    let var = view.var(name)?;
    Ok(text_in(var))
}

/// The value of IFS, if it has one.
pub fn ifs_of<B: Base>(alloc: Global, view: &mut View<B>) -> Result<Option<Text>, Halt>
    ensures { Acts B.seen (λ w. nothing (spec.ifs_of w) w) view.old view.new result }
{
    let name = Text::from_slice(alloc, b"IFS")?;
    text_of(&name, view)
}

/// The value of HOME, if it has one.
pub fn home_of<B: Base>(alloc: Global, view: &mut View<B>) -> Result<Option<Text>, Halt>
    ensures { Acts B.seen (λ w. nothing (spec.home_of w) w) view.old view.new result }
{
    let name = Text::from_slice(alloc, b"HOME")?;
    text_of(&name, view)
}

fn one_or_unset(text: Option<Text>) -> ParamValue
    ensures { result ≡ spec.one_or_unset text }
{
    match text {
        Some(text) => ParamValue::One(text),
        None => ParamValue::Unset,
    }
}

fn variable<B: Base>(name: &Text, view: &mut View<B>) -> Result<ParamValue, Halt>
    ensures { Acts B.seen (λ w. nothing (spec.one_or_unset (spec.text_of name.now w)) w) view.old view.new result }
{
    let var = view.var(name)?;
    Ok(one_or_unset(text_in(var)))
}

fn each<B: Base>(star: bool, view: &mut View<B>) -> Result<ParamValue, Halt>
    ensures { Acts B.seen (λ w. nothing (ParamValue.Each star w.params) w) view.old view.new result }
{
    let (_zero, texts) = view.params()?;
    Ok(ParamValue::Each { star, texts })
}

/// How many there are.
fn count_of(alloc: Global, texts: &TextList) -> Result<ParamValue, AllocError>
    ensures { IfOk result (λ value. value ≡ ParamValue.One (digits_of (length texts.now))) }
{
    let text = digits(alloc, texts.as_slice().len() as u64)?;
    Ok(ParamValue::One(text))
}

fn count<B: Base>(alloc: Global, view: &mut View<B>) -> Result<ParamValue, Halt>
    ensures { Acts B.seen (λ w. nothing (ParamValue.One (digits_of (length w.params))) w) view.old view.new result }
{
    let (_zero, texts) = view.params()?;
    let value = count_of(alloc, &texts)?;
    Ok(value)
}

fn number_of(alloc: Global, number: u8) -> Result<ParamValue, AllocError>
    ensures { IfOk result (λ value. value ≡ ParamValue.One (digits_of number)) }
{
    let text = digits(alloc, u64::from(number))?;
    Ok(ParamValue::One(text))
}

/// The parameter at a place from 1 on, or `$0`.
fn at_place(place: u64, zero: Text, texts: &TextList) -> Result<ParamValue, AllocError>
    ensures { IfOk result (λ value. value ≡ spec.positional place zero texts.now) }
{
    if place == 0 {
        return Ok(ParamValue::One(zero));
    }
    match texts.as_slice().get((place - 1) as usize) {
        Some(text) => Ok(ParamValue::One(text.clone()?)),
        None => Ok(ParamValue::Unset),
    }
}

/// Whether there are fewer texts.
fn is_behind(number: u128, texts: &[Text]) -> bool
    ensures behind { result ≡ nat_lt (length texts.now) number }
    ensures within { result ≡ false → number < 2 ^ 64 }
{
    number > texts.len() as u128
}

/// The parameter of a number, or `$0`. The greatest number, as which greater ones come, is behind all texts.
fn numbered(number: u128, zero: Text, texts: &TextList) -> Result<ParamValue, AllocError>
    ensures { IfOk result (λ value. (n : ℕ) → number ≡ min n (2 ^ 128 - 1) → value ≡ spec.positional n zero texts.now) }
{
    if is_behind(number, texts.as_slice()) {
        return Ok(ParamValue::Unset);
    }
    let value = at_place(number as u64, zero, texts)?;
    Ok(value)
}

fn positional<B: Base>(name: &Text, view: &mut View<B>) -> Result<ParamValue, Halt>
    ensures { Acts B.seen (λ w. nothing (spec.positional (number 0 name.now) w.zero w.params) w) view.old view.new result }
{
    let (zero, texts) = view.params()?;
    let value = numbered(position(name.as_slice()), zero, &texts)?;
    Ok(value)
}

/// The value of a parameter, where `$?` gives this status. It reads the variable or the positional parameters.
pub fn value_of<B: Base>(
    alloc: Global,
    name: &Text,
    status: u8,
    view: &mut View<B>,
) -> Result<ParamValue, Halt>
    ensures { Acts B.seen (λ w. nothing (spec.value_of status name.now w) w) view.old view.new result }
{
    match kind_of(name.as_slice()) {
        Kind::At => each(false, view),
        Kind::Star => each(true, view),
        Kind::Count => count(alloc, view),
        Kind::Status => {
            let value = number_of(alloc, status)?;
            Ok(value)
        }
        Kind::Position => positional(name, view),
        Kind::Variable => variable(name, view),
    }
}

/// Pieces with a value behind them.
fn put_value(
    alloc: Global,
    mode: Mode,
    ifs: &Option<Text>,
    value: &ParamValue,
    pieces: Pieces,
) -> Result<Pieces, AllocError>
    ensures { IfOk result (λ all. all ≡ pieces ++ pieces_of mode ifs.now value.now) }
{
    let mut all = pieces;
    match ifs {
        Some(bytes) => all.value(alloc, mode, Some(bytes.as_slice()), value)?,
        None => all.value(alloc, mode, None, value)?,
    }
    Ok(all)
}

/// Pieces with a value behind them. IFS is read where it tells how positional parameters are joined.
pub fn with_value<B: Base>(
    alloc: Global,
    mode: Mode,
    value: &ParamValue,
    pieces: Pieces,
    view: &mut View<B>,
) -> Result<Pieces, Halt>
    ensures { Acts B.seen (spec.with_value mode value.now pieces) view.old view.new result }
{
    if value.needs_ifs(mode) {
        let ifs = ifs_of(alloc, view)?;
        let all = put_value(alloc, mode, &ifs, value, pieces)?;
        return Ok(all);
    }
    let all = put_value(alloc, mode, &None, value, pieces)?;
    Ok(all)
}

/// Pieces with a text behind them.
fn put_text(
    mode: Mode,
    start: bool,
    home: &Option<Text>,
    follow: Follow,
    text: &[u8],
    pieces: Pieces,
) -> Result<Pieces, AllocError>
    ensures { IfOk result (λ all. all ≡ pieces ++ spec.written mode start home.now follow text.now) }
{
    let mut all = pieces;
    if mode.quoted {
        all.quote(text)?;
        return Ok(all);
    }
    match home {
        Some(bytes) => all.write(mode, start, text, follow, Some(bytes.as_slice()))?,
        None => all.write(mode, start, text, follow, None)?,
    }
    Ok(all)
}

/// Whether a tilde stands in the text, outside of quotes.
fn needs_home(mode: Mode, text: &[u8]) -> bool
    ensures { result ≡ spec.needs_home mode text.now }
{
    !mode.quoted && has_tilde(text)
}

/// Pieces with a text behind them that stands for itself but for its tildes. `start` says whether a tilde may stand at its
/// beginning, and `follow` what stands behind it. HOME is read where there is a tilde outside of quotes.
pub fn with_text<B: Base>(
    alloc: Global,
    mode: Mode,
    start: bool,
    follow: Follow,
    text: &Text,
    pieces: Pieces,
    view: &mut View<B>,
) -> Result<Pieces, Halt>
    ensures { Acts B.seen (spec.with_text mode start follow text.now pieces) view.old view.new result }
{
    if needs_home(mode, text.as_slice()) {
        let home = home_of(alloc, view)?;
        let all = put_text(mode, start, &home, follow, text.as_slice(), pieces)?;
        return Ok(all);
    }
    let all = put_text(mode, start, &None, follow, text.as_slice(), pieces)?;
    Ok(all)
}
