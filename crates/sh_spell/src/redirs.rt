//! The steps of redirections (POSIX.1-2017, XCU 2.7), and where they stand in a simple command. Lists are numbered in the order of
//! the text, so a redirection with a list in its word stands behind the lists of the command that have smaller numbers.

ghost use Rattle.std.specs.Prelude.{◌≡◌, ◌++◌, IfOk, OnOk};
ghost use Rattle.sh_spell.specs.Scripts as scripts;
ghost use Rattle.sh_spell.specs.Steps as spec;

use crate::numbers::word_list;
use crate::step::Steps;
use crate::words::push_word;
use sh_lexer::Token;
use sh_syntax::{Part, Redir};
use std::alloc::AllocError;

fn push_redir<'a>(steps: &mut Steps<'a>, redir: &'a Redir) -> Result<(), AllocError>
    ensures { OnOk result (steps.new ≡ steps.old ++ spec.redir_steps redir.now) }
{
    steps.push_token(Token::Redirect(redir.fd, redir.op))?;
    push_word(steps, &redir.word)
}

pub fn push_redirs<'a>(steps: &mut Steps<'a>, redirs: &'a [Redir]) -> Result<(), AllocError>
    ensures { OnOk result (steps.new ≡ steps.old ++ spec.all_steps spec.redir_steps redirs.now) }
{
    for redir in redirs {
        push_redir(steps, redir)?;
    }
    Ok(())
}

/// A backslash that stands for itself, as it may at the very end of a text.
fn is_lone(part: &Part) -> bool
    ensures { result ≡ scripts.is_lone part.now }
{
    match part {
        Part::Plain(bytes) => is_backslash(bytes.as_slice()),
        Part::Single(_) => false,
        Part::Escaped(_) => false,
        Part::Double(_) => false,
        Part::Param { .. } => false,
        Part::Command(_) => false,
        Part::Arith(_) => false,
    }
}

fn is_backslash(bytes: &[u8]) -> bool
    ensures { result ≡ scripts.is_backslash bytes.now }
{
    match bytes {
        [byte] => *byte == b'\\',
        _ => false,
    }
}

fn ends_lone(parts: &[Part]) -> bool
    ensures { result ≡ scripts.ends_lone parts.now }
{
    match parts.split_last() {
        None => false,
        Some((last, _)) => is_lone(last),
    }
}

/// Whether a list that begins there, if any does, comes before the other one.
fn is_sooner(list: Option<u32>, other: Option<u32>) -> bool
    ensures { result ≡ scripts.is_sooner list other }
{
    match (list, other) {
        (None, _) => true,
        (Some(_), None) => true,
        (Some(number), Some(other)) => number < other,
    }
}

/// Whether a redirection, whose first list is given, stands before what is left of a command, whose first list is given too.
fn goes_first(redir: &Redir, list: Option<u32>, next: Option<u32>) -> bool
    requires { list ≡ scripts.word_list redir.now.word }
    ensures { result ≡ scripts.goes_first next redir.now }
{
    !ends_lone(redir.word.parts.as_slice()) && is_sooner(list, next)
}

/// Redirections that wait, and the first list in the first one, which is looked for once.
#[derive(Drop)]
pub struct Waiting<'a> {
    pub redirs: &'a [Redir],
    list: Option<u32>,
}

fn front_list(redirs: &[Redir]) -> Option<u32>
    ensures { result ≡ scripts.front_list redirs.now }
{
    match redirs.split_first() {
        None => None,
        Some((first, _)) => word_list(&first.word),
    }
}

pub fn wait<'a>(redirs: &'a [Redir]) -> Waiting<'a>
    ensures redirs { result.redirs.now ≡ redirs.now }
    ensures list { result.list ≡ scripts.front_list redirs.now }
{
    Waiting {
        redirs,
        list: front_list(redirs),
    }
}

/// The redirections that stand before what is left, whose first list is given.
pub fn push_going<'a>(
    steps: &mut Steps<'a>,
    waiting: Waiting<'a>,
    next: Option<u32>,
) -> Result<Waiting<'a>, AllocError>
    requires { waiting.list ≡ scripts.front_list waiting.redirs.now }
    ensures steps { OnOk result (steps.new ≡ steps.old ++ spec.all_steps spec.redir_steps (scripts.going next waiting.entry.redirs.now)) }
    ensures left { IfOk result (λ left. left.redirs.now ≡ scripts.waiting next waiting.entry.redirs.now) }
    ensures list { IfOk result (λ left. left.list ≡ scripts.front_list left.redirs.now) }
{
    let mut left = waiting;
    'redirs: while let Some((first, rest)) = left.redirs.split_first() {
        if !goes_first(first, left.list, next) {
            return Ok(left);
        }
        push_redir(steps, first)?;
        left = wait(rest);
    }
    Ok(left)
}
