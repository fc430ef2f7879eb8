//! One token.

ghost use Rattle.std.specs.Prelude.{◌≡◌, ◌<◌, ◌^◌, Ok, length};
ghost use Rattle.sh_grammar.specs.Machine as machine;
ghost use Rattle.sh_grammar.specs.declared.state.Now.TheVariants as now_of;
ghost use Rattle.sh_machine.specs.Numbers.{NowBegun};
ghost use Rattle.sh_machine.specs.Steps.{Steps, IsReady};

use crate::command::{delimiter, elements, redirs};
use crate::compare::{is_end, is_op};
use crate::for_case::{for_name, for_named, for_words, patterns_op};
use crate::gap::{in_gap, one_command};
use crate::newline::due;
use crate::parts::parts;
use crate::rest::Rest;
use hs_text::Text;
use sh_grammar::{Case, Gap, Now};
use sh_lexer::{End, Mode, Op, Token};
use sh_syntax::Word;
use sqlite_items::Items;
use std::alloc::{AllocError, Global};

/// After the name of a function.
fn name(name: Text, rest: &Rest, token: &Token) -> Option<Now>
    ensures { Steps (Ok result) rest.now (machine.step_now (now_of.Name name) rest.now.below rest.now.room rest.now.script token.now) }
{
    if !is_op(Op::Open, token) {
        return None;
    }
    Some(Now::Named(name))
}

/// After `name(`.
fn named(name: Text, rest: &Rest, token: &Token) -> Option<Now>
    ensures { Steps (Ok result) rest.now (machine.step_now (now_of.Named name) rest.now.below rest.now.room rest.now.script token.now) }
{
    if !is_op(Op::Close, token) {
        return None;
    }
    Some(Now::Gap(Gap::Function(name)))
}

/// In the name of a `for`.
fn in_for_name(name: Text, rest: &Rest, token: &Token) -> Option<Now>
    ensures { Steps (Ok result) rest.now (machine.step_now (now_of.ForName name) rest.now.below rest.now.room rest.now.script token.now) }
{
    if !is_end(End::Word, &Mode::Command, token) {
        return None;
    }
    Some(Now::ForNamed(name))
}

fn patterns(
    alloc: Global,
    case: Case,
    words: Items<Word>,
    rest: &mut Rest,
    token: &Token,
) -> Result<Option<Now>, AllocError>
    requires { length rest.old.script.script.lists < 2 ^ 32 }
    ensures { Steps result rest.new (machine.step_now (now_of.Patterns case words) rest.old.below rest.old.room rest.old.script token.now) }
{
    match token {
        Token::Operator(op) => patterns_op(alloc, case, words, rest, *op),
        _ => Ok(None),
    }
}

/// Reads one token. None: no script goes on so.
pub fn step_now(
    alloc: Global,
    now: Now,
    rest: &mut Rest,
    token: Token,
) -> Result<Option<Now>, AllocError>
    requires ready { IsReady rest.old }
    requires begun { NowBegun now rest.old.script }
    ensures { Steps result rest.new (machine.step_now now rest.old.below rest.old.room rest.old.script token) }
{
    match now {
        Now::Gap(gap) => in_gap(alloc, gap, rest, token),
        Now::Due(first, others, gap) => due(alloc, first, others, gap, rest, token),
        Now::Parts(before) => parts(alloc, before, rest, token),
        Now::Elements(command) => elements(alloc, command, rest, token),
        Now::Redirs(compound, before) => redirs(alloc, compound, before, rest, token),
        Now::Bang => one_command(alloc, rest, token),
        Now::Delimiter(fd, strip, host) => delimiter(alloc, fd, strip, host, rest, token),
        Now::Name(text) => Ok(name(text, rest, &token)),
        Now::Named(text) => Ok(named(text, rest, &token)),
        Now::For => Ok(for_name(rest, token)),
        Now::ForName(text) => Ok(in_for_name(text, rest, &token)),
        Now::ForNamed(text) => for_named(alloc, text, rest, token),
        Now::ForWords(text, words) => for_words(alloc, text, words, rest, token),
        Now::Patterns(case, words) => patterns(alloc, case, words, rest, &token),
    }
}
