//! The steps of commands (POSIX.1-2017, XCU 2.9).

ghost use Rattle.std.specs.Prelude.{◌≡◌, ◌++◌, OnOk};
ghost use Rattle.sh_spell.specs.Scripts as scripts;
ghost use Rattle.sh_spell.specs.Steps as spec;

use crate::compounds::push_compound;
use crate::numbers::{assigns_list, list_behind, list_behind_assign};
use crate::redirs::{Waiting, push_going, push_redirs, wait};
use crate::step::Steps;
use crate::words::push_word;
use hs_text::Text;
use sh_lexer::{Op, Token};
use sh_syntax::{Command, Redir, Script, Word};
use std::alloc::AllocError;

fn push_assign<'a>(steps: &mut Steps<'a>, assign: &'a (Text, Word)) -> Result<(), AllocError>
    ensures { OnOk result (steps.new ≡ steps.old ++ spec.assign_steps assign.now) }
{
    let (name, word) = assign;
    steps.push_token(Token::Assign(name.clone()?))?;
    push_word(steps, word)
}

/// Words, where redirections wait for the first one. The first list in the words is given.
fn push_words_with<'a>(
    steps: &mut Steps<'a>,
    words: &'a [Word],
    redirs: Waiting<'a>,
    first: Option<u32>,
) -> Result<(), AllocError>
    requires list { redirs.list ≡ scripts.front_list redirs.redirs.now }
    requires first { first ≡ scripts.words_list words.now }
    ensures { OnOk result (steps.new ≡ steps.old ++ spec.words_steps words.now redirs.entry.redirs.now) }
{
    let mut waiting = redirs;
    let mut next = first;
    let mut left = words;
    'words: while let Some((word, rest)) = left.split_first() {
        push_word(steps, word)?;
        next = list_behind(word, rest, next);
        waiting = push_going(steps, waiting, next)?;
        left = rest;
    }
    push_redirs(steps, waiting.redirs)
}

/// Assignments and words, where redirections wait for the first one. The first list in them is given.
fn push_assigns_with<'a>(
    steps: &mut Steps<'a>,
    assigns: &'a [(Text, Word)],
    words: &'a [Word],
    redirs: Waiting<'a>,
    first: Option<u32>,
) -> Result<(), AllocError>
    requires list { redirs.list ≡ scripts.front_list redirs.redirs.now }
    requires first { first ≡ scripts.assigns_list assigns.now words.now }
    ensures { OnOk result (steps.new ≡ steps.old ++ spec.assigns_steps assigns.now words.now redirs.entry.redirs.now) }
{
    let mut waiting = redirs;
    let mut next = first;
    let mut left = assigns;
    'assigns: while let Some((assign, rest)) = left.split_first() {
        push_assign(steps, assign)?;
        next = list_behind_assign(assign, rest, words, next);
        waiting = push_going(steps, waiting, next)?;
        left = rest;
    }
    push_words_with(steps, words, waiting, next)
}

/// What a function runs: a compound command with its redirections.
fn push_body<'a>(steps: &mut Steps<'a>, body: &'a Command) -> Result<(), AllocError>
    ensures { OnOk result (steps.new ≡ steps.old ++ spec.body_steps body.now) }
{
    match body {
        Command::Compound { body, redirs } => {
            push_compound(steps, body)?;
            push_redirs(steps, redirs.as_slice())
        }
        Command::Simple { .. } => Ok(()),
        Command::Function { .. } => Ok(()),
    }
}

fn push_body_of<'a>(
    steps: &mut Steps<'a>,
    script: &'a Script,
    number: u32,
) -> Result<(), AllocError>
    ensures { OnOk result (steps.new ≡ steps.old ++ spec.body_steps_of script.now number) }
{
    match script.bodies.get(number as usize) {
        None => Ok(()),
        Some(body) => push_body(steps, body),
    }
}

fn push_function<'a>(
    steps: &mut Steps<'a>,
    script: &'a Script,
    name: &Text,
    body: u32,
) -> Result<(), AllocError>
    ensures { OnOk result (steps.new ≡ steps.old ++ spec.function_steps script.now name.now body) }
{
    steps.push_token(Token::Function(name.clone()?))?;
    steps.push_op(Op::Open)?;
    steps.push_op(Op::Close)?;
    push_body_of(steps, script, body)
}

fn push_simple<'a>(
    steps: &mut Steps<'a>,
    assigns: &'a [(Text, Word)],
    words: &'a [Word],
    redirs: &'a [Redir],
) -> Result<(), AllocError>
    ensures { OnOk result (steps.new ≡ steps.old ++ spec.simple_steps assigns.now words.now redirs.now) }
{
    let first = assigns_list(assigns, words);
    let waiting = push_going(steps, wait(redirs), first)?;
    push_assigns_with(steps, assigns, words, waiting, first)
}

pub fn push_command<'a>(
    steps: &mut Steps<'a>,
    script: &'a Script,
    command: &'a Command,
) -> Result<(), AllocError>
    ensures { OnOk result (steps.new ≡ steps.old ++ spec.command_steps script.now command.now) }
{
    match command {
        Command::Simple {
            assigns,
            words,
            redirs,
        } => push_simple(
            steps,
            assigns.as_slice(),
            words.as_slice(),
            redirs.as_slice(),
        ),
        Command::Compound { .. } => push_body(steps, command),
        Command::Function { name, body } => push_function(steps, script, name, *body),
    }
}
