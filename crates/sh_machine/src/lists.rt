//! Lists that begin and end (POSIX.1-2017, XCU 2.9.3 and 2.9.4).

ghost use Rattle.std.specs.Prelude.{◌≡◌, ◌<◌, ◌^◌, Ok, Some, [], ◌∷◌, ◌++◌, suc, IfOk, length};
ghost use Rattle.sh_grammar.specs.Draft as spec;
ghost use Rattle.sh_grammar.specs.Machine as machine;
ghost use Rattle.sh_grammar.specs.declared.state.Below.TheVariants as below;
ghost use Rattle.sh_grammar.specs.declared.state.Gap.TheVariants as gap;
ghost use Rattle.sh_grammar.specs.declared.state.Now.TheVariants as now;
ghost use Rattle.sh_machine.specs.Numbers.{HasBegun};
ghost use Rattle.sh_machine.specs.Steps.{Steps, CanGoOn};
ghost use Rattle.sh_syntax.specs.declared.tree.Compound.TheVariants as compound;

use crate::compare::{is_end, is_op};
use crate::draft::{begin_list, end_list, next_list};
use crate::rest::Rest;
use hs_text::Text;
use sh_grammar::{Below, Case, Gap, Now};
use sh_lexer::{End, Mode, Op, Token};
use sh_syntax::{AndOr, Compound, Part, Word};
use sqlite_items::Items;
use std::alloc::{AllocError, Global};

/// A list begins, after which this goes on.
pub fn open_list(alloc: Global, frame: Below, rest: &mut Rest) -> Result<Now, AllocError>
    ensures { IfOk result (λ n. Steps (Ok (Some n)) rest.new (Some (machine.at (now.Gap (gap.Begin [])) (frame ∷ rest.old.below) rest.old.room (spec.begin_list rest.old.script)))) }
{
    rest.below.push(frame)?;
    begin_list(alloc, &mut rest.script)?;
    Ok(Now::Gap(Gap::Begin(Items::new(alloc))))
}

/// A compound command ends, and with it this list.
fn close(
    alloc: Global,
    compound: Compound,
    number: u32,
    items: Items<AndOr>,
    rest: &mut Rest,
) -> Now
    requires begun { number < length rest.old.script.script.lists }
    requires room { rest.old.room < 2 ^ 32 }
    ensures { Steps (Ok (Some result)) rest.new (Some (machine.at (now.Redirs compound []) rest.old.below (suc rest.old.room) (spec.end_list number items rest.old.script))) }
{
    rest.room += 1;
    end_list(number, items, &mut rest.script);
    Now::Redirs(compound, Items::new(alloc))
}

fn end_group(
    alloc: Global,
    items: Items<AndOr>,
    number: u32,
    rest: &mut Rest,
    token: &Token,
) -> Option<Now>
    requires begun { number < length rest.old.script.script.lists }
    requires room { rest.old.room < 2 ^ 32 }
    ensures { Steps (Ok result) rest.new (machine.list_end items (below.Group number) rest.old.below rest.old.room rest.old.script token.now) }
{
    if items.is_empty() || !is_op(Op::RightBrace, token) {
        return None;
    }
    Some(close(alloc, Compound::Group(number), number, items, rest))
}

fn end_subshell(
    alloc: Global,
    items: Items<AndOr>,
    number: u32,
    rest: &mut Rest,
    token: &Token,
) -> Option<Now>
    requires begun { number < length rest.old.script.script.lists }
    requires room { rest.old.room < 2 ^ 32 }
    ensures { Steps (Ok result) rest.new (machine.list_end items (below.Subshell number) rest.old.below rest.old.room rest.old.script token.now) }
{
    if items.is_empty() || !is_op(Op::Close, token) {
        return None;
    }
    Some(close(alloc, Compound::Subshell(number), number, items, rest))
}

/// The list after `if` or `elif` ends.
fn end_test(
    alloc: Global,
    items: Items<AndOr>,
    arms: Items<(u32, u32)>,
    number: u32,
    rest: &mut Rest,
    token: &Token,
) -> Result<Option<Now>, AllocError>
    requires begun { number < length rest.old.script.script.lists }
    requires lists { length rest.old.script.script.lists < 2 ^ 32 }
    ensures { Steps result rest.new (machine.list_end items (below.Test arms number) rest.old.below rest.old.room rest.old.script token.now) }
{
    if items.is_empty() || !is_op(Op::Then, token) {
        return Ok(None);
    }
    let body = next_list(&rest.script);
    end_list(number, items, &mut rest.script);
    Ok(Some(open_list(alloc, Below::Then(arms, number, body), rest)?))
}

/// What comes after the arms of an `if`.
fn after_branch(
    alloc: Global,
    arms: Items<(u32, u32)>,
    rest: &mut Rest,
    op: Op,
) -> Result<Option<Now>, AllocError>
    requires lists { length rest.old.script.script.lists < 2 ^ 32 }
    requires room { rest.old.room < 2 ^ 32 }
    ensures { Steps result rest.new (machine.after_branch arms rest.old.below rest.old.room rest.old.script op) }
{
    let list = next_list(&rest.script);
    match op {
        Op::Fi => {
            rest.room += 1;
            let compound = Compound::If { arms, other: None };
            Ok(Some(Now::Redirs(compound, Items::new(alloc))))
        }
        Op::Elif => Ok(Some(open_list(alloc, Below::Test(arms, list), rest)?)),
        Op::Else => Ok(Some(open_list(alloc, Below::Else(arms, list), rest)?)),
        _ => Ok(None),
    }
}

/// The list after `then` ends.
fn end_then(
    alloc: Global,
    items: Items<AndOr>,
    mut arms: Items<(u32, u32)>,
    test: u32,
    number: u32,
    rest: &mut Rest,
    token: &Token,
) -> Result<Option<Now>, AllocError>
    requires begun { number < length rest.old.script.script.lists }
    requires lists { length rest.old.script.script.lists < 2 ^ 32 }
    requires room { rest.old.room < 2 ^ 32 }
    ensures { Steps result rest.new (machine.list_end items (below.Then arms test number) rest.old.below rest.old.room rest.old.script token.now) }
{
    let Token::Operator(op) = *token else {
        return Ok(None);
    };
    if items.is_empty() {
        return Ok(None);
    }
    arms.push((test, number))?;
    end_list(number, items, &mut rest.script);
    after_branch(alloc, arms, rest, op)
}

fn end_else(
    alloc: Global,
    items: Items<AndOr>,
    arms: Items<(u32, u32)>,
    number: u32,
    rest: &mut Rest,
    token: &Token,
) -> Option<Now>
    requires begun { number < length rest.old.script.script.lists }
    requires room { rest.old.room < 2 ^ 32 }
    ensures { Steps (Ok result) rest.new (machine.list_end items (below.Else arms number) rest.old.below rest.old.room rest.old.script token.now) }
{
    if items.is_empty() || !is_op(Op::Fi, token) {
        return None;
    }
    let compound = Compound::If {
        arms,
        other: Some(number),
    };
    Some(close(alloc, compound, number, items, rest))
}

/// The condition of a loop ends.
fn end_while(
    alloc: Global,
    items: Items<AndOr>,
    until: bool,
    number: u32,
    rest: &mut Rest,
    token: &Token,
) -> Result<Option<Now>, AllocError>
    requires begun { number < length rest.old.script.script.lists }
    requires lists { length rest.old.script.script.lists < 2 ^ 32 }
    ensures { Steps result rest.new (machine.list_end items (below.While until number) rest.old.below rest.old.room rest.old.script token.now) }
{
    if items.is_empty() || !is_op(Op::Do, token) {
        return Ok(None);
    }
    let body = next_list(&rest.script);
    end_list(number, items, &mut rest.script);
    Ok(Some(open_list(alloc, Below::WhileDo(until, number, body), rest)?))
}

fn end_while_do(
    alloc: Global,
    items: Items<AndOr>,
    until: bool,
    test: u32,
    number: u32,
    rest: &mut Rest,
    token: &Token,
) -> Option<Now>
    requires begun { number < length rest.old.script.script.lists }
    requires room { rest.old.room < 2 ^ 32 }
    ensures { Steps (Ok result) rest.new (machine.list_end items (below.WhileDo until test number) rest.old.below rest.old.room rest.old.script token.now) }
{
    if items.is_empty() || !is_op(Op::Done, token) {
        return None;
    }
    let compound = Compound::While {
        until,
        test,
        body: number,
    };
    Some(close(alloc, compound, number, items, rest))
}

fn end_for(
    alloc: Global,
    items: Items<AndOr>,
    name: Text,
    words: Option<Items<Word>>,
    number: u32,
    rest: &mut Rest,
    token: &Token,
) -> Option<Now>
    requires begun { number < length rest.old.script.script.lists }
    requires room { rest.old.room < 2 ^ 32 }
    ensures { Steps (Ok result) rest.new (machine.list_end items (below.ForDo name words number) rest.old.below rest.old.room rest.old.script token.now) }
{
    if items.is_empty() || !is_op(Op::Done, token) {
        return None;
    }
    let compound = Compound::For {
        name,
        words,
        body: number,
    };
    Some(close(alloc, compound, number, items, rest))
}

fn with_arm(patterns: Items<Word>, number: u32, mut case: Case) -> Result<Case, AllocError>
    ensures { IfOk result (λ c. c ≡ machine.with_arm patterns number case) }
{
    case.arms.push((patterns, number))?;
    Ok(case)
}

/// The command, where its arms are complete.
pub fn case_command(case: Case) -> Compound
    ensures { result ≡ machine.case case }
{
    let Case { word, arms } = case;
    Compound::Case { word, arms }
}

/// What comes after an arm of a `case`.
fn after_arm(alloc: Global, case: Case, rest: &mut Rest, op: Op) -> Option<Now>
    requires { rest.old.room < 2 ^ 32 }
    ensures { Steps (Ok result) rest.new (machine.after_arm case rest.old.below rest.old.room rest.old.script op) }
{
    match op {
        Op::DoubleSemi => Some(Now::Gap(Gap::Arms(case))),
        Op::Esac => {
            rest.room += 1;
            Some(Now::Redirs(case_command(case), Items::new(alloc)))
        }
        _ => None,
    }
}

fn end_arm(
    alloc: Global,
    items: Items<AndOr>,
    case: Case,
    patterns: Items<Word>,
    number: u32,
    rest: &mut Rest,
    token: &Token,
) -> Result<Option<Now>, AllocError>
    requires begun { number < length rest.old.script.script.lists }
    requires room { rest.old.room < 2 ^ 32 }
    ensures { Steps result rest.new (machine.list_end items (below.Arm case patterns number) rest.old.below rest.old.room rest.old.script token.now) }
{
    let Token::Operator(op) = *token else {
        return Ok(None);
    };
    let case = with_arm(patterns, number, case)?;
    end_list(number, items, &mut rest.script);
    Ok(after_arm(alloc, case, rest, op))
}

/// A command substitution ends.
fn end_command(
    items: Items<AndOr>,
    mut parts: Items<Part>,
    mode: Mode,
    number: u32,
    rest: &mut Rest,
    token: &Token,
) -> Result<Option<Now>, AllocError>
    requires begun { number < length rest.old.script.script.lists }
    requires room { rest.old.room < 2 ^ 32 }
    ensures { Steps result rest.new (machine.list_end items (below.Command parts mode number) rest.old.below rest.old.room rest.old.script token.now) }
{
    if !is_end(End::List, &mode, token) {
        return Ok(None);
    }
    rest.room += 1;
    end_list(number, items, &mut rest.script);
    parts.push(Part::Command(number))?;
    Ok(Some(Now::Parts(parts)))
}

fn end_backquote(
    items: Items<AndOr>,
    mut parts: Items<Part>,
    mode: Mode,
    number: u32,
    rest: &mut Rest,
    token: &Token,
) -> Result<Option<Now>, AllocError>
    requires begun { number < length rest.old.script.script.lists }
    requires room { rest.old.room < 2 ^ 32 }
    ensures { Steps result rest.new (machine.list_end items (below.Backquote parts mode number) rest.old.below rest.old.room rest.old.script token.now) }
{
    if !is_end(End::Text, &mode, token) {
        return Ok(None);
    }
    rest.room += 1;
    end_list(number, items, &mut rest.script);
    parts.push(Part::Command(number))?;
    Ok(Some(Now::Parts(parts)))
}

/// A list of these items ends by the token, and this goes on.
fn list_end(
    alloc: Global,
    items: Items<AndOr>,
    frame: Below,
    rest: &mut Rest,
    token: &Token,
) -> Result<Option<Now>, AllocError>
    requires begun { HasBegun frame rest.old.script }
    requires lists { length rest.old.script.script.lists < 2 ^ 32 }
    requires room { rest.old.room < 2 ^ 32 }
    ensures { Steps result rest.new (machine.list_end items frame rest.old.below rest.old.room rest.old.script token.now) }
{
    match frame {
        Below::Group(list) => Ok(end_group(alloc, items, list, rest, token)),
        Below::Subshell(list) => Ok(end_subshell(alloc, items, list, rest, token)),
        Below::Test(arms, list) => end_test(alloc, items, arms, list, rest, token),
        Below::Then(arms, test, list) => end_then(alloc, items, arms, test, list, rest, token),
        Below::Else(arms, list) => Ok(end_else(alloc, items, arms, list, rest, token)),
        Below::While(until, list) => end_while(alloc, items, until, list, rest, token),
        Below::WhileDo(until, test, list) => Ok(end_while_do(
            alloc, items, until, test, list, rest, token,
        )),
        Below::ForDo(name, words, list) => Ok(end_for(
            alloc, items, name, words, list, rest, token,
        )),
        Below::Arm(case, patterns, list) => end_arm(
            alloc, items, case, patterns, list, rest, token,
        ),
        Below::Command(parts, mode, list) => end_command(items, parts, mode, list, rest, token),
        Below::Backquote(parts, mode, list) => {
            end_backquote(items, parts, mode, list, rest, token)
        }
        _ => Ok(None),
    }
}

/// The innermost list has these items, and ends by the token.
pub fn list_ended(
    alloc: Global,
    items: Items<AndOr>,
    rest: &mut Rest,
    token: &Token,
) -> Result<Option<Now>, AllocError>
    requires { CanGoOn rest.old }
    ensures { Steps result rest.new (machine.list_ended items rest.old.below rest.old.room rest.old.script token.now) }
{
    match rest.below.pop() {
        None => Ok(None),
        Some(frame) => list_end(alloc, items, frame, rest, token),
    }
}
