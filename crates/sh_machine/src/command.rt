//! Commands, pipelines and AND-OR lists that end, and elements of commands (POSIX.1-2017, XCU 2.9.1 to 2.9.3).

ghost use Rattle.std.specs.Prelude.{◌≡◌, ◌<◌, ◌^◌, Ok, [], ◌∷◌, ◌++◌, IfOk, length};
ghost use Rattle.sh_grammar.specs.Draft as spec;
ghost use Rattle.sh_grammar.specs.Grammar as grammar;
ghost use Rattle.sh_grammar.specs.Machine as machine;
ghost use Rattle.sh_machine.specs.Steps.{Steps, CanGoOn};

use crate::compare::same_mode;
use crate::draft::{begin_here, end_body, end_leaf, next_here};
use crate::lists::list_ended;
use crate::modes::host_mode;
use crate::newline::newline;
use crate::parts::{parts, redirected};
use crate::rest::Rest;
use sh_grammar::{Below, Gap, Host, Now, Pipe, Simple};
use sh_lexer::{End, Mode, Op, Token};
use sh_syntax::{AndOr, Command, Compound, Join, Part, Redir, RedirOp, Word};
use sqlite_items::Items;
use std::alloc::{AllocError, Global};

/// The AND-OR list so far, with this pipeline.
pub fn this_and_or(
    alloc: Global,
    before: Option<(AndOr, Join)>,
    leaf: u32,
) -> Result<AndOr, AllocError>
    ensures { IfOk result (λ a. a ≡ machine.this_and_or before leaf) }
{
    match before {
        None => Ok(AndOr {
            first: leaf,
            rest: Items::new(alloc),
        }),
        Some((mut and_or, join)) => {
            and_or.rest.push((join, leaf))?;
            Ok(and_or)
        }
    }
}

/// The items of a list, and one more.
pub fn with_item(mut items: Items<AndOr>, item: AndOr) -> Result<Items<AndOr>, AllocError>
    ensures { IfOk result (λ is. is ≡ items ++ item ∷ []) }
{
    items.push(item)?;
    Ok(items)
}

fn and_or_op(
    alloc: Global,
    items: Items<AndOr>,
    and_or: AndOr,
    rest: &mut Rest,
    op: Op,
) -> Result<Option<Now>, AllocError>
    requires { CanGoOn rest.old }
    ensures { Steps result rest.new (machine.and_or_op items and_or rest.old.below rest.old.room rest.old.script op) }
{
    match op {
        Op::AndIf => Ok(Some(Now::Gap(Gap::Join(items, and_or, Join::And)))),
        Op::OrIf => Ok(Some(Now::Gap(Gap::Join(items, and_or, Join::Or)))),
        Op::Semi => Ok(Some(Now::Gap(Gap::Begin(with_item(items, and_or)?)))),
        _ => list_ended(alloc, with_item(items, and_or)?, rest, &Token::Operator(op)),
    }
}

fn and_or_end(
    alloc: Global,
    items: Items<AndOr>,
    and_or: AndOr,
    rest: &mut Rest,
    mode: Mode,
    end: End,
) -> Result<Option<Now>, AllocError>
    requires { CanGoOn rest.old }
    ensures { Steps result rest.new (machine.and_or_end items and_or rest.old.below rest.old.room rest.old.script mode end) }
{
    let items = with_item(items, and_or)?;
    match end {
        End::Newline => newline(alloc, Gap::Begin(items), rest, &mode),
        _ => list_ended(alloc, items, rest, &Token::End(end, mode)),
    }
}

/// After a pipeline.
fn after(
    alloc: Global,
    items: Items<AndOr>,
    and_or: AndOr,
    rest: &mut Rest,
    token: Token,
) -> Result<Option<Now>, AllocError>
    requires { CanGoOn rest.old }
    ensures { Steps result rest.new (machine.after items and_or rest.old.below rest.old.room rest.old.script token) }
{
    match token {
        Token::Operator(op) => and_or_op(alloc, items, and_or, rest, op),
        Token::End(end, mode) => and_or_end(alloc, items, and_or, rest, mode, end),
        _ => Ok(None),
    }
}

/// The pipeline ends before the token.
fn after_pipeline(
    alloc: Global,
    pipe: Pipe,
    rest: &mut Rest,
    token: Token,
) -> Result<Option<Now>, AllocError>
    requires leaf { pipe.leaf < length rest.old.script.script.leaves }
    requires rest { CanGoOn rest.old }
    ensures { Steps result rest.new (machine.after pipe.items (machine.this_and_or pipe.before pipe.leaf) rest.old.below rest.old.room
        (spec.end_leaf pipe.leaf pipe.bang pipe.stages rest.old.script) token) }
{
    let Pipe {
        items,
        before,
        leaf,
        bang,
        stages,
    } = pipe;
    let and_or = this_and_or(alloc, before, leaf)?;
    end_leaf(leaf, bang, stages, &mut rest.script);
    after(alloc, items, and_or, rest, token)
}

pub fn with_stage(command: Command, mut pipe: Pipe) -> Result<Pipe, AllocError>
    ensures { IfOk result (λ p. p ≡ machine.with_stage command pipe) }
{
    pipe.stages.push(command)?;
    Ok(pipe)
}

fn piped_op(alloc: Global, pipe: Pipe, rest: &mut Rest, op: Op) -> Result<Option<Now>, AllocError>
    requires leaf { pipe.leaf < length rest.old.script.script.leaves }
    requires rest { CanGoOn rest.old }
    ensures { Steps result rest.new (machine.piped_op pipe rest.old.below rest.old.room rest.old.script op) }
{
    match op {
        Op::Pipe => {
            rest.below.push(Below::Pipe(pipe))?;
            Ok(Some(Now::Gap(Gap::Stage)))
        }
        _ => after_pipeline(alloc, pipe, rest, Token::Operator(op)),
    }
}

/// After a command of a pipeline.
fn piped(
    alloc: Global,
    pipe: Pipe,
    rest: &mut Rest,
    token: Token,
) -> Result<Option<Now>, AllocError>
    requires leaf { pipe.leaf < length rest.old.script.script.leaves }
    requires rest { CanGoOn rest.old }
    ensures { Steps result rest.new (machine.piped pipe rest.old.below rest.old.room rest.old.script token) }
{
    match token {
        Token::Operator(op) => piped_op(alloc, pipe, rest, op),
        _ => after_pipeline(alloc, pipe, rest, token),
    }
}

/// The command ends before the token.
fn command_ended(
    alloc: Global,
    command: Command,
    rest: &mut Rest,
    token: Token,
) -> Result<Option<Now>, AllocError>
    requires { CanGoOn rest.old }
    ensures { Steps result rest.new (machine.command_ended command rest.old.below rest.old.room rest.old.script token) }
{
    let mut command = command;
    'owners: while let Some(owner) = rest.below.pop() {
        match owner {
            Below::Function(name, body) => {
                end_body(body, command, &mut rest.script);
                command = Command::Function { name, body };
            }
            Below::Pipe(pipe) => return piped(alloc, with_stage(command, pipe)?, rest, token),
            _ => {
                drop(owner);
                return Ok(None);
            }
        }
    }
    Ok(None)
}

/// One more element of a simple command.
pub fn element(
    alloc: Global,
    command: Simple,
    rest: &mut Rest,
    token: Token,
) -> Result<Option<Now>, AllocError>
    requires { CanGoOn rest.old }
    ensures { Steps result rest.new (machine.element command rest.old.below rest.old.room rest.old.script token) }
{
    match token {
        Token::Assign(name) => {
            rest.below.push(Below::Assign(name, command))?;
            Ok(Some(Now::Parts(Items::new(alloc))))
        }
        Token::Redirect(fd, op) => {
            rest.below
                .push(Below::Redirect(fd, op, Host::Simple(command)))?;
            Ok(Some(Now::Parts(Items::new(alloc))))
        }
        Token::Here(fd, strip) => Ok(Some(Now::Delimiter(fd, strip, Host::Simple(command)))),
        _ => {
            rest.below.push(Below::Argument(command))?;
            parts(alloc, Items::new(alloc), rest, token)
        }
    }
}

pub fn simple(command: Simple) -> Command
    ensures { result ≡ grammar.simple command }
{
    let Simple {
        assigns,
        words,
        redirs,
    } = command;
    Command::Simple {
        assigns,
        words,
        redirs,
    }
}

/// In a simple command, between words.
pub fn elements(
    alloc: Global,
    command: Simple,
    rest: &mut Rest,
    token: Token,
) -> Result<Option<Now>, AllocError>
    requires { CanGoOn rest.old }
    ensures { Steps result rest.new (machine.elements command rest.old.below rest.old.room rest.old.script token) }
{
    match token {
        Token::Operator(_) | Token::End(..) => command_ended(alloc, simple(command), rest, token),
        _ => element(alloc, command, rest, token),
    }
}

/// After a compound command.
pub fn redirs(
    alloc: Global,
    compound: Compound,
    redirs: Items<Redir>,
    rest: &mut Rest,
    token: Token,
) -> Result<Option<Now>, AllocError>
    requires { CanGoOn rest.old }
    ensures { Steps result rest.new (machine.redirs compound redirs rest.old.below rest.old.room rest.old.script token) }
{
    match token {
        Token::Redirect(fd, op) => {
            rest.below
                .push(Below::Redirect(fd, op, Host::Compound(compound, redirs)))?;
            Ok(Some(Now::Parts(Items::new(alloc))))
        }
        Token::Here(fd, strip) => Ok(Some(Now::Delimiter(
            fd,
            strip,
            Host::Compound(compound, redirs),
        ))),
        _ => {
            let command = Command::Compound {
                body: compound,
                redirs,
            };
            command_ended(alloc, command, rest, token)
        }
    }
}

/// The redirection of a here-document, whose body isn't put in its place yet.
fn here_redir(alloc: Global, fd: u8, number: u32) -> Result<Redir, AllocError>
    ensures { IfOk result (λ r. r ≡ spec.here_redir fd number) }
{
    let mut parts = Items::new(alloc);
    parts.push(Part::Command(number))?;
    Ok(Redir {
        fd,
        op: RedirOp::Here,
        word: Word { parts },
    })
}

/// A token where the delimiter of a here-document comes next.
pub fn delimiter(
    alloc: Global,
    fd: u8,
    strip: bool,
    host: Host,
    rest: &mut Rest,
    token: Token,
) -> Result<Option<Now>, AllocError>
    requires { length rest.old.script.heres < 2 ^ 32 }
    ensures { Steps result rest.new (machine.delimiter fd strip host rest.old.below rest.old.room rest.old.script token) }
{
    match token {
        Token::Delimiter(text, quoted, mode) => {
            if !same_mode(&host_mode(&host), &mode) {
                return Ok(None);
            }
            let redir = here_redir(alloc, fd, next_here(&rest.script))?;
            begin_here(alloc, text, strip, quoted, &mut rest.script)?;
            Ok(Some(redirected(redir, host)?))
        }
        _ => Ok(None),
    }
}
