//! The steps of compound commands (POSIX.1-2017, XCU 2.9.4).

ghost use Rattle.std.specs.Prelude.{◌≡◌, ◌++◌, OnOk};
ghost use Rattle.sh_grammar.specs.Grammar.{loop_op};
ghost use Rattle.sh_spell.specs.Steps as spec;

use crate::step::Steps;
use crate::words::{push_word, push_words};
use hs_text::Text;
use sh_lexer::{Bit, End, Op};
use sh_syntax::{Compound, Word};
use sqlite_items::Items;
use std::alloc::AllocError;

/// A list in a compound command, and the reserved word behind it.
fn push_listed(steps: &mut Steps, list: u32, op: Op) -> Result<(), AllocError>
    ensures { OnOk result (steps.new ≡ steps.old ++ spec.listed_steps list op) }
{
    steps.push_list(list)?;
    steps.push_op(Op::Semi)?;
    steps.push_op(op)
}

/// A test and what runs where it holds.
fn push_branch(steps: &mut Steps, branch: (u32, u32)) -> Result<(), AllocError>
    ensures { OnOk result (steps.new ≡ steps.old ++ spec.branch_steps branch) }
{
    push_listed(steps, branch.0, Op::Then)?;
    steps.push_list(branch.1)?;
    steps.push_op(Op::Semi)
}

fn push_elifs(steps: &mut Steps, branches: &[(u32, u32)]) -> Result<(), AllocError>
    ensures { OnOk result (steps.new ≡ steps.old ++ spec.all_steps spec.elif_steps branches.now) }
{
    for branch in branches {
        steps.push_op(Op::Elif)?;
        push_branch(steps, *branch)?;
    }
    Ok(())
}

fn push_branches(steps: &mut Steps, branches: &[(u32, u32)]) -> Result<(), AllocError>
    ensures { OnOk result (steps.new ≡ steps.old ++ spec.branches_steps branches.now) }
{
    match branches {
        [] => Ok(()),
        [first, rest @ ..] => {
            push_branch(steps, *first)?;
            push_elifs(steps, rest)
        }
    }
}

fn push_else(steps: &mut Steps, other: Option<u32>) -> Result<(), AllocError>
    ensures { OnOk result (steps.new ≡ steps.old ++ spec.else_steps other) }
{
    match other {
        None => steps.push_op(Op::Fi),
        Some(list) => {
            steps.push_op(Op::Else)?;
            push_listed(steps, list, Op::Fi)
        }
    }
}

fn push_if(steps: &mut Steps, branches: &[(u32, u32)], other: Option<u32>) -> Result<(), AllocError>
    ensures { OnOk result (steps.new ≡ steps.old ++ spec.if_steps branches.now other) }
{
    steps.push_op(Op::If)?;
    push_branches(steps, branches)?;
    push_else(steps, other)
}

fn loop_op(until: bool) -> Op
    ensures { result ≡ loop_op until }
{
    if until { Op::Until } else { Op::While }
}

fn push_loop(steps: &mut Steps, until: bool, test: u32, body: u32) -> Result<(), AllocError>
    ensures { OnOk result (steps.new ≡ steps.old ++ spec.loop_steps until test body) }
{
    steps.push_op(loop_op(until))?;
    push_listed(steps, test, Op::Do)?;
    push_listed(steps, body, Op::Done)
}

/// The words that a `for` goes through.
fn push_for_words<'a>(
    steps: &mut Steps<'a>,
    words: &'a Option<Items<Word>>,
) -> Result<(), AllocError>
    ensures { OnOk result (steps.new ≡ steps.old ++ spec.for_words_steps words.now) }
{
    match words {
        None => Ok(()),
        Some(words) => {
            steps.push_op(Op::In)?;
            push_words(steps, words.as_slice())?;
            steps.push_op(Op::Semi)
        }
    }
}

fn push_for<'a>(
    steps: &mut Steps<'a>,
    name: &Text,
    words: &'a Option<Items<Word>>,
    body: u32,
) -> Result<(), AllocError>
    ensures { OnOk result (steps.new ≡ steps.old ++ spec.for_steps name.now words.now body) }
{
    steps.push_op(Op::For)?;
    steps.push_bit(Bit::Piece(name.clone()?))?;
    steps.push_end(End::Word)?;
    push_for_words(steps, words)?;
    steps.push_op(Op::Do)?;
    push_listed(steps, body, Op::Done)
}

fn push_more_patterns<'a>(steps: &mut Steps<'a>, patterns: &'a [Word]) -> Result<(), AllocError>
    ensures { OnOk result (steps.new ≡ steps.old ++ spec.all_steps spec.more_pattern_steps patterns.now) }
{
    for pattern in patterns {
        steps.push_op(Op::PipePattern)?;
        push_word(steps, pattern)?;
    }
    Ok(())
}

fn push_patterns<'a>(steps: &mut Steps<'a>, patterns: &'a [Word]) -> Result<(), AllocError>
    ensures { OnOk result (steps.new ≡ steps.old ++ spec.patterns_steps patterns.now) }
{
    match patterns {
        [] => Ok(()),
        [first, rest @ ..] => {
            push_word(steps, first)?;
            push_more_patterns(steps, rest)
        }
    }
}

fn push_arm<'a>(steps: &mut Steps<'a>, arm: &'a (Items<Word>, u32)) -> Result<(), AllocError>
    ensures { OnOk result (steps.new ≡ steps.old ++ spec.arm_steps arm.now) }
{
    push_patterns(steps, arm.0.as_slice())?;
    steps.push_op(Op::Close)?;
    steps.push_list(arm.1)?;
    steps.push_op(Op::DoubleSemi)
}

fn push_arms<'a>(steps: &mut Steps<'a>, arms: &'a [(Items<Word>, u32)]) -> Result<(), AllocError>
    ensures { OnOk result (steps.new ≡ steps.old ++ spec.all_steps spec.arm_steps arms.now) }
{
    for arm in arms {
        push_arm(steps, arm)?;
    }
    Ok(())
}

fn push_case<'a>(
    steps: &mut Steps<'a>,
    word: &'a Word,
    arms: &'a [(Items<Word>, u32)],
) -> Result<(), AllocError>
    ensures { OnOk result (steps.new ≡ steps.old ++ spec.case_steps word.now arms.now) }
{
    steps.push_op(Op::Case)?;
    push_word(steps, word)?;
    steps.push_op(Op::CaseIn)?;
    push_arms(steps, arms)?;
    steps.push_op(Op::Esac)
}

fn push_group(steps: &mut Steps, list: u32) -> Result<(), AllocError>
    ensures { OnOk result (steps.new ≡ steps.old ++ spec.group_steps list) }
{
    steps.push_op(Op::LeftBrace)?;
    push_listed(steps, list, Op::RightBrace)
}

fn push_subshell(steps: &mut Steps, list: u32) -> Result<(), AllocError>
    ensures { OnOk result (steps.new ≡ steps.old ++ spec.subshell_steps list) }
{
    steps.push_op(Op::Open)?;
    steps.push_list(list)?;
    steps.push_op(Op::Close)
}

pub fn push_compound<'a>(steps: &mut Steps<'a>, compound: &'a Compound) -> Result<(), AllocError>
    ensures { OnOk result (steps.new ≡ steps.old ++ spec.compound_steps compound.now) }
{
    match compound {
        Compound::Group(list) => push_group(steps, *list),
        Compound::Subshell(list) => push_subshell(steps, *list),
        Compound::If { arms, other } => push_if(steps, arms.as_slice(), *other),
        Compound::While { until, test, body } => push_loop(steps, *until, *test, *body),
        Compound::For { name, words, body } => push_for(steps, name, words, *body),
        Compound::Case { word, arms } => push_case(steps, word, arms.as_slice()),
    }
}
