//! The steps of words and of their parts (POSIX.1-2017, XCU 2.2, 2.6).

ghost use Rattle.std.specs.Prelude.{◌≡◌, ◌++◌, OnOk, map};
ghost use Rattle.sh_spell.specs.Steps as spec;

use crate::step::{Step, Steps};
use hs_text::Text;
use sh_lexer::{Bit, End, Opener, Token};
use sh_syntax::{ParamOp, Part, Word};
use std::alloc::AllocError;

pub fn push_part<'a>(steps: &mut Steps<'a>, part: &'a Part) -> Result<(), AllocError>
    ensures { OnOk result (steps.new ≡ steps.old ++ spec.part_steps part.now) }
{
    match part {
        Part::Plain(bytes) => steps.push_bit(Bit::Piece(bytes.clone()?)),
        Part::Single(bytes) => steps.push_bit(Bit::Single(bytes.clone()?)),
        Part::Escaped(byte) => steps.push_bit(Bit::Escaped(*byte)),
        Part::Double(parts) => push_between(steps, Opener::Double, parts.as_slice(), End::Quote),
        Part::Param {
            name,
            op,
            colon,
            word,
        } => push_param(steps, name, *op, *colon, word),
        Part::Command(list) => push_substitution(steps, *list),
        Part::Arith(word) => push_between(steps, Opener::Arith, word.parts.as_slice(), End::Arith),
    }
}

fn push_parts<'a>(steps: &mut Steps<'a>, parts: &'a [Part]) -> Result<(), AllocError>
    ensures { OnOk result (steps.new ≡ steps.old ++ map spec.part_step parts.now) }
{
    for part in parts {
        steps.push(Step::Part(part))?;
    }
    Ok(())
}

/// Parts between two signs.
fn push_between<'a>(
    steps: &mut Steps<'a>,
    opener: Opener,
    parts: &'a [Part],
    end: End,
) -> Result<(), AllocError>
    ensures { OnOk result (steps.new ≡ steps.old ++ spec.parts_steps opener parts.now end) }
{
    steps.push_opener(opener)?;
    push_parts(steps, parts)?;
    steps.push_end(end)
}

fn push_substitution(steps: &mut Steps, list: u32) -> Result<(), AllocError>
    ensures { OnOk result (steps.new ≡ steps.old ++ spec.substitution_steps list) }
{
    steps.push_opener(Opener::Command)?;
    steps.push_list(list)?;
    steps.push_end(End::List)
}

/// A parameter whose operator takes no word.
fn push_alone<'a>(steps: &mut Steps<'a>, name: &'a Text, op: ParamOp) -> Result<(), AllocError>
    ensures { OnOk result (steps.new ≡ steps.old ++ spec.alone_steps op name.now) }
{
    match op {
        ParamOp::Length => steps.push_token(Token::Param(name.clone()?, true)),
        _ => steps.push(Step::Value(name)),
    }
}

fn push_param<'a>(
    steps: &mut Steps<'a>,
    name: &'a Text,
    op: ParamOp,
    colon: bool,
    word: &'a Option<Word>,
) -> Result<(), AllocError>
    ensures { OnOk result (steps.new ≡ steps.old ++ spec.param_steps name.now op colon word.now) }
{
    match word {
        None => push_alone(steps, name, op),
        Some(word) => {
            let opener = Opener::Braces {
                name: name.clone()?,
                op,
                colon,
                quoted: false,
            };
            push_between(steps, opener, word.parts.as_slice(), End::Brace)
        }
    }
}

pub fn push_word<'a>(steps: &mut Steps<'a>, word: &'a Word) -> Result<(), AllocError>
    ensures { OnOk result (steps.new ≡ steps.old ++ spec.word_steps word.now) }
{
    push_parts(steps, word.parts.as_slice())?;
    steps.push_end(End::Word)
}

pub fn push_words<'a>(steps: &mut Steps<'a>, words: &'a [Word]) -> Result<(), AllocError>
    ensures { OnOk result (steps.new ≡ steps.old ++ spec.all_steps spec.word_steps words.now) }
{
    for word in words {
        push_word(steps, word)?;
    }
    Ok(())
}
