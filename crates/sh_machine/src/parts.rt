//! Parts of words, and of what is in them.

ghost use Rattle.std.specs.Prelude.{◌≡◌, ◌<◌, ◌^◌, IfOk, Ok, [], ◌∷◌, ◌++◌, length};
ghost use Rattle.sh_grammar.specs.Draft.{cut_mode};
ghost use Rattle.sh_grammar.specs.Grammar as grammar;
ghost use Rattle.sh_grammar.specs.Machine as machine;
ghost use Rattle.sh_grammar.specs.Tests as tests;
ghost use Rattle.sh_grammar.specs.declared.state.Below.TheVariants as below;
ghost use Rattle.sh_lexer.specs.declared.token.End.TheVariants as end;
ghost use Rattle.sh_lexer.specs.declared.token.Token.TheVariants as token_of;
ghost use Rattle.sh_lexer.specs.declared.token.Opener.TheVariants as opener;
ghost use Rattle.sh_machine.specs.Numbers.{HasBegun};
ghost use Rattle.sh_machine.specs.Steps.{Steps, CanGoOn};
ghost use Rattle.sh_syntax.specs.Trees.{word};

use crate::compare::is_end;
use crate::draft::{begin_list, end_here, next_list};
use crate::modes::host_mode;
use crate::newline::{next_due, reads_due};
use crate::rest::Rest;
use hs_text::Text;
use sh_grammar::{Below, Case, Due, Gap, Host, Now, Simple, Stack};
use sh_lexer::{Bit, End, Mode, Opener, Token};
use sh_syntax::{ParamOp, Part, Redir, RedirOp, Word};
use sqlite_items::Items;
use std::alloc::{AllocError, Global};

fn part_of(bit: Bit) -> Part
    ensures { result ≡ grammar.part_of bit }
{
    match bit {
        Bit::Piece(text) => Part::Plain(text),
        Bit::Sum(text, _) => Part::Plain(text),
        Bit::Escaped(byte) => Part::Escaped(byte),
        Bit::Single(text) => Part::Single(text),
        Bit::Value(name) => Part::Param {
            name,
            op: ParamOp::Value,
            colon: false,
            word: None,
        },
    }
}

fn param_of(name: Text, length: bool) -> Part
    ensures { result ≡ grammar.param_of name length }
{
    let op = if length {
        ParamOp::Length
    } else {
        ParamOp::Value
    };
    Part::Param {
        name,
        op,
        colon: false,
        word: None,
    }
}

/// A simple command with one more word.
fn with_word(parts: Items<Part>, mut command: Simple) -> Result<Simple, AllocError>
    ensures { IfOk result (λ c. c ≡ grammar.with_word parts command) }
{
    command.words.push(Word { parts })?;
    Ok(command)
}

fn with_assign(name: Text, parts: Items<Part>, mut command: Simple) -> Result<Simple, AllocError>
    ensures { IfOk result (λ c. c ≡ grammar.with_assign name parts command) }
{
    command.assigns.push((name, Word { parts }))?;
    Ok(command)
}

/// What goes on after a redirection.
pub fn redirected(redir: Redir, host: Host) -> Result<Now, AllocError>
    ensures { IfOk result (λ now. now ≡ machine.redirected redir host) }
{
    match host {
        Host::Simple(mut command) => {
            command.redirs.push(redir)?;
            Ok(Now::Elements(command))
        }
        Host::Compound(compound, mut redirs) => {
            redirs.push(redir)?;
            Ok(Now::Redirs(compound, redirs))
        }
    }
}

/// Words, and one more.
fn one_more(mut words: Items<Word>, parts: Items<Part>) -> Result<Items<Word>, AllocError>
    ensures { IfOk result (λ ws. ws ≡ words ++ word parts ∷ []) }
{
    words.push(Word { parts })?;
    Ok(words)
}

fn end_argument(
    parts: Items<Part>,
    command: Simple,
    rest: &Rest,
    token: &Token,
) -> Result<Option<Now>, AllocError>
    ensures { Steps result rest.now (machine.parts_end parts (below.Argument command) rest.now.below rest.now.room rest.now.script token.now) }
{
    if parts.is_empty() || !is_end(End::Word, &Mode::Arguments, token) {
        return Ok(None);
    }
    Ok(Some(Now::Elements(with_word(parts, command)?)))
}

fn end_assign(
    parts: Items<Part>,
    name: Text,
    command: Simple,
    rest: &Rest,
    token: &Token,
) -> Result<Option<Now>, AllocError>
    ensures { Steps result rest.now (machine.parts_end parts (below.Assign name command) rest.now.below rest.now.room rest.now.script token.now) }
{
    if !is_end(End::Word, &Mode::Prefix, token) {
        return Ok(None);
    }
    Ok(Some(Now::Elements(with_assign(name, parts, command)?)))
}

fn end_redirect(
    parts: Items<Part>,
    fd: u8,
    op: RedirOp,
    host: Host,
    rest: &Rest,
    token: &Token,
) -> Result<Option<Now>, AllocError>
    ensures { Steps result rest.now (machine.parts_end parts (below.Redirect fd op host) rest.now.below rest.now.room rest.now.script token.now) }
{
    if parts.is_empty() || !is_end(End::Word, &host_mode(&host), token) {
        return Ok(None);
    }
    let redir = Redir {
        fd,
        op,
        word: Word { parts },
    };
    Ok(Some(redirected(redir, host)?))
}

fn end_for_word(
    parts: Items<Part>,
    name: Text,
    words: Items<Word>,
    rest: &Rest,
    token: &Token,
) -> Result<Option<Now>, AllocError>
    ensures { Steps result rest.now (machine.parts_end parts (below.ForWord name words) rest.now.below rest.now.room rest.now.script token.now) }
{
    if parts.is_empty() || !is_end(End::Word, &Mode::Arguments, token) {
        return Ok(None);
    }
    Ok(Some(Now::ForWords(name, one_more(words, parts)?)))
}

fn end_case_word(parts: Items<Part>, rest: &Rest, token: &Token) -> Option<Now>
    ensures { Steps (Ok result) rest.now (machine.parts_end parts below.CaseWord rest.now.below rest.now.room rest.now.script token.now) }
{
    if parts.is_empty() || !is_end(End::Word, &Mode::Command, token) {
        return None;
    }
    Some(Now::Gap(Gap::In(Word { parts })))
}

fn end_pattern(
    parts: Items<Part>,
    case: Case,
    words: Items<Word>,
    rest: &Rest,
    token: &Token,
) -> Result<Option<Now>, AllocError>
    ensures { Steps result rest.now (machine.parts_end parts (below.Pattern case words) rest.now.below rest.now.room rest.now.script token.now) }
{
    if parts.is_empty() || !is_end(End::Word, &Mode::Arguments, token) {
        return Ok(None);
    }
    Ok(Some(Now::Patterns(case, one_more(words, parts)?)))
}

fn end_double(
    parts: Items<Part>,
    mut before: Items<Part>,
    mode: Mode,
    rest: &Rest,
    token: &Token,
) -> Result<Option<Now>, AllocError>
    ensures { Steps result rest.now (machine.parts_end parts (below.Double before mode) rest.now.below rest.now.room rest.now.script token.now) }
{
    if !is_end(End::Quote, &mode, token) {
        return Ok(None);
    }
    before.push(Part::Double(parts))?;
    Ok(Some(Now::Parts(before)))
}

fn end_braces(
    parts: Items<Part>,
    mut before: Items<Part>,
    name: Text,
    op: ParamOp,
    colon: bool,
    mode: Mode,
    rest: &mut Rest,
    token: &Token,
) -> Result<Option<Now>, AllocError>
    requires { rest.old.room < 2 ^ 32 }
    ensures { Steps result rest.new (machine.parts_end parts (below.Braces before name op colon mode) rest.old.below rest.old.room rest.old.script token.now) }
{
    if !is_end(End::Brace, &mode, token) {
        return Ok(None);
    }
    rest.room += 1;
    before.push(Part::Param {
        name,
        op,
        colon,
        word: Some(Word { parts }),
    })?;
    Ok(Some(Now::Parts(before)))
}

fn end_arith(
    parts: Items<Part>,
    mut before: Items<Part>,
    mode: Mode,
    rest: &mut Rest,
    token: &Token,
) -> Result<Option<Now>, AllocError>
    requires { rest.old.room < 2 ^ 32 }
    ensures { Steps result rest.new (machine.parts_end parts (below.Arith before mode) rest.old.below rest.old.room rest.old.script token.now) }
{
    if !is_end(End::Arith, &mode, token) {
        return Ok(None);
    }
    rest.room += 1;
    before.push(Part::Arith(Word { parts }))?;
    Ok(Some(Now::Parts(before)))
}

/// Whether the token ends the text that was cut out, and the next one is read as what comes after it.
fn ends_body(due: &Stack<Due>, gap: &Gap, token: &Token) -> bool
    ensures { result ≡ tests.is_end end.Text (cut_mode (machine.gap_mode gap.now) due.now) token.now }
{
    match token {
        Token::End(End::Text, mode) => reads_due(due, gap, mode),
        _ => false,
    }
}

fn end_body(
    alloc: Global,
    parts: Items<Part>,
    number: u32,
    due: Stack<Due>,
    gap: Gap,
    rest: &mut Rest,
    token: &Token,
) -> Result<Option<Now>, AllocError>
    requires { number < length rest.old.script.heres }
    ensures { Steps result rest.new (machine.parts_end parts (below.Body number due gap) rest.old.below rest.old.room rest.old.script token.now) }
{
    if !ends_body(&due, &gap, token) {
        return Ok(None);
    }
    end_here(alloc, number, Part::Double(parts), &mut rest.script)?;
    Ok(Some(next_due(due, gap)))
}

/// Parts end by the token, and this is open round them.
fn parts_end(
    alloc: Global,
    parts: Items<Part>,
    frame: Below,
    rest: &mut Rest,
    token: &Token,
) -> Result<Option<Now>, AllocError>
    requires begun { HasBegun frame rest.old.script }
    requires room { rest.old.room < 2 ^ 32 }
    ensures { Steps result rest.new (machine.parts_end parts frame rest.old.below rest.old.room rest.old.script token.now) }
{
    match frame {
        Below::Argument(command) => end_argument(parts, command, rest, token),
        Below::Assign(name, command) => end_assign(parts, name, command, rest, token),
        Below::Redirect(fd, op, host) => end_redirect(parts, fd, op, host, rest, token),
        Below::ForWord(name, words) => end_for_word(parts, name, words, rest, token),
        Below::CaseWord => Ok(end_case_word(parts, rest, token)),
        Below::Pattern(case, words) => end_pattern(parts, case, words, rest, token),
        Below::Double(before, mode) => end_double(parts, before, mode, rest, token),
        Below::Braces(before, name, op, colon, mode) => end_braces(
            parts, before, name, op, colon, mode, rest, token,
        ),
        Below::Arith(before, mode) => end_arith(parts, before, mode, rest, token),
        Below::Body(number, due, gap) => end_body(alloc, parts, number, due, gap, rest, token),
        _ => Ok(None),
    }
}

fn parts_ended(
    alloc: Global,
    parts: Items<Part>,
    rest: &mut Rest,
    token: &Token,
) -> Result<Option<Now>, AllocError>
    requires { CanGoOn rest.old }
    ensures { Steps result rest.new (machine.parts_ended parts rest.old.below rest.old.room rest.old.script token.now) }
{
    match rest.below.pop() {
        None => Ok(None),
        Some(frame) => parts_end(alloc, parts, frame, rest, token),
    }
}

fn open_braces(
    alloc: Global,
    parts: Items<Part>,
    rest: &mut Rest,
    mode: Mode,
    name: Text,
    op: ParamOp,
    colon: bool,
    quoted: bool,
) -> Result<Option<Now>, AllocError>
    ensures { Steps result rest.new (machine.open_part parts rest.old.below rest.old.room rest.old.script mode (opener.Braces name op colon quoted)) }
{
    if rest.room == 0 {
        return Ok(None);
    }
    rest.room -= 1;
    rest.below
        .push(Below::Braces(parts, name, op, colon, mode))?;
    Ok(Some(Now::Parts(Items::new(alloc))))
}

fn open_command(
    alloc: Global,
    parts: Items<Part>,
    rest: &mut Rest,
    mode: Mode,
) -> Result<Option<Now>, AllocError>
    requires { length rest.old.script.script.lists < 2 ^ 32 }
    ensures { Steps result rest.new (machine.open_part parts rest.old.below rest.old.room rest.old.script mode opener.Command) }
{
    if rest.room == 0 {
        return Ok(None);
    }
    rest.room -= 1;
    let list = next_list(&rest.script);
    rest.below.push(Below::Command(parts, mode, list))?;
    begin_list(alloc, &mut rest.script)?;
    Ok(Some(Now::Gap(Gap::Begin(Items::new(alloc)))))
}

fn open_arith(
    alloc: Global,
    parts: Items<Part>,
    rest: &mut Rest,
    mode: Mode,
) -> Result<Option<Now>, AllocError>
    ensures { Steps result rest.new (machine.open_part parts rest.old.below rest.old.room rest.old.script mode opener.Arith) }
{
    if rest.room == 0 {
        return Ok(None);
    }
    rest.room -= 1;
    rest.below.push(Below::Arith(parts, mode))?;
    Ok(Some(Now::Parts(Items::new(alloc))))
}

fn open_backquote(
    alloc: Global,
    parts: Items<Part>,
    rest: &mut Rest,
    mode: Mode,
) -> Result<Option<Now>, AllocError>
    requires { length rest.old.script.script.lists < 2 ^ 32 }
    ensures { Steps result rest.new (machine.open_part parts rest.old.below rest.old.room rest.old.script mode opener.Backquote) }
{
    if rest.room == 0 {
        return Ok(None);
    }
    rest.room -= 1;
    let list = next_list(&rest.script);
    rest.below.push(Below::Backquote(parts, mode, list))?;
    begin_list(alloc, &mut rest.script)?;
    Ok(Some(Now::Gap(Gap::Begin(Items::new(alloc)))))
}

/// A part begins that has parts or a list in it. Then the parts before are those of what is read in the mode.
fn open_part(
    alloc: Global,
    parts: Items<Part>,
    rest: &mut Rest,
    mode: Mode,
    opener: Opener,
) -> Result<Option<Now>, AllocError>
    requires { length rest.old.script.script.lists < 2 ^ 32 }
    ensures { Steps result rest.new (machine.open_part parts rest.old.below rest.old.room rest.old.script mode opener) }
{
    match opener {
        Opener::Double => {
            rest.below.push(Below::Double(parts, mode))?;
            Ok(Some(Now::Parts(Items::new(alloc))))
        }
        Opener::Braces {
            name,
            op,
            colon,
            quoted,
        } => open_braces(alloc, parts, rest, mode, name, op, colon, quoted),
        Opener::Command => open_command(alloc, parts, rest, mode),
        Opener::Arith => open_arith(alloc, parts, rest, mode),
        Opener::Backquote => open_backquote(alloc, parts, rest, mode),
    }
}

/// `${x}`, which is opened and closed at once.
fn param(
    mut parts: Items<Part>,
    rest: &Rest,
    name: Text,
    length: bool,
) -> Result<Option<Now>, AllocError>
    ensures { Steps result rest.now (machine.parts parts rest.now.below rest.now.room rest.now.script (token_of.Param name length)) }
{
    if rest.room == 0 {
        return Ok(None);
    }
    parts.push(param_of(name, length))?;
    Ok(Some(Now::Parts(parts)))
}

/// A token where parts are read.
pub fn parts(
    alloc: Global,
    mut parts: Items<Part>,
    rest: &mut Rest,
    token: Token,
) -> Result<Option<Now>, AllocError>
    requires { CanGoOn rest.old }
    ensures { Steps result rest.new (machine.parts parts rest.old.below rest.old.room rest.old.script token) }
{
    match token {
        Token::Part(bit) => {
            parts.push(part_of(bit))?;
            Ok(Some(Now::Parts(parts)))
        }
        Token::Param(name, length) => param(parts, rest, name, length),
        Token::Open(opener, mode) => open_part(alloc, parts, rest, mode, opener),
        Token::End(end, mode) => parts_ended(alloc, parts, rest, &Token::End(end, mode)),
        _ => Ok(None),
    }
}
