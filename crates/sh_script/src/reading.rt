//! Reading a text token by token.

ghost use Rattle.std.specs.Prelude.{◌≡◌, ◌≤◌, ◌<◌, ◌^◌, ◌-◌, suc, IfOk, length};
ghost use Rattle.sh_grammar.specs.Grammar.{max_nesting};
ghost use Rattle.sh_lexer.specs.Trail.{line_of};
ghost use Rattle.sh_machine.specs.Numbered.{Numbered, Within};
ghost use Rattle.sh_script.specs.Longest.{longest};
ghost use Rattle.sh_script.specs.Readings.{HaltOf, IsAdvance, IsMore, IsRead, Takes};
ghost use Rattle.sh_script.specs.Turns as spec;

use crate::openings::{Openings, Stop, change_of};
use hs_text::Text;
use sh_lexer::{End, LexError, Lexer, Mode, Token};
use sh_machine::{Machine, mode_after};
use std::alloc::{AllocError, Global};

/// How many things may be open at once: compound commands, `${`, `$(`, `$((` and backquotes.
const DEEPEST: u32 = 100;

/// Where the reading of a text is.
#[derive(Drop)]
pub struct Reader {
    lexer: Lexer,
    machine: Machine,
    /// How the next token is read.
    mode: Mode,
    openings: Openings,
}

/// Why nothing more is taken.
#[derive(Drop)]
pub enum Halt {
    /// The text ends here.
    Ended(Machine, Openings),
    Stopped(Stop, Openings),
}

/// One more token, or why there is none.
#[derive(Drop)]
pub enum Advance {
    More(Machine, Mode, Openings),
    Halts(Halt),
}

/// Whether it is the end of a text that was cut out.
fn ends_text(token: &Token) -> bool
    ensures { result ≡ spec.ends_text token.now }
{
    match token {
        Token::End(end, _) => match end {
            End::Text => true,
            End::Word | End::Quote | End::Brace | End::Arith | End::List | End::Newline => false,
        },
        Token::Operator(_) | Token::Part(_) | Token::Param(..) | Token::Open(..) => false,
        Token::Assign(_) | Token::Redirect(..) | Token::Here(..) | Token::Delimiter(..) => false,
        Token::Body | Token::Verbatim(..) | Token::Function(_) => false,
    }
}

fn refused_at(ends_text: bool) -> Stop
    ensures { result ≡ spec.refused_at ends_text }
{
    if ends_text {
        Stop::EndOfText
    } else {
        Stop::Refused
    }
}

/// A token that is taken.
fn more(
    machine: Machine,
    mode: Mode,
    openings: Result<Openings, AllocError>,
) -> Result<Advance, AllocError>
    ensures { IsMore result machine mode openings }
{
    match openings {
        Ok(openings) => Ok(Advance::More(machine, mode, openings)),
        Err(error) => {
            drop(machine);
            Err(error)
        }
    }
}

/// After a token that is seen.
fn take(
    alloc: Global,
    machine: Machine,
    mode: Mode,
    openings: Openings,
    seen: Token,
) -> Result<Advance, AllocError>
    requires numbered { Numbered machine }
    requires counted { Within (2 ^ 32 - 1) machine }
    requires few { openings.count < 2 ^ 32 }
    ensures { Takes result machine mode openings seen }
{
    let stop = refused_at(ends_text(&seen));
    let token = match machine.told(seen) {
        Ok(token) => token,
        Err(error) => {
            drop(machine);
            return Err(error);
        }
    };
    let change = change_of(&token);
    let after = match mode_after(mode, &token) {
        Ok(after) => after,
        Err(error) => {
            drop(machine);
            return Err(error);
        }
    };
    match machine.step(alloc, token)? {
        Some(next) => more(next, after, openings.after(change)),
        None => Ok(Advance::Halts(Halt::Stopped(stop, openings))),
    }
}

/// Why there is no token.
fn halt_of(error: LexError, machine: Machine, openings: Openings) -> Result<Halt, AllocError>
    ensures { HaltOf result error machine openings }
{
    match error {
        LexError::Memory => {
            drop(machine);
            Err(AllocError)
        }
        LexError::End => Ok(Halt::Ended(machine, openings)),
        LexError::Bad(fault) => {
            drop(machine);
            Ok(Halt::Stopped(Stop::Bad(fault), openings))
        }
    }
}

/// Asks for one more token. The lexer is what it is after that.
fn next_token(alloc: Global, reader: Reader) -> Result<(Lexer, Advance), AllocError>
    requires numbered { Numbered reader.machine }
    requires counted { Within (2 ^ 32 - 1) reader.machine }
    requires few { reader.openings.count < 2 ^ 32 }
    ensures lexer { IfOk result (λ p. p.0 ≡ spec.lexer_after reader) }
    ensures advance { IfOk result (λ p. IsAdvance reader p.1) }
{
    let Reader {
        mut lexer,
        machine,
        mode,
        openings,
    } = reader;
    let before = match mode.clone() {
        Ok(before) => before,
        Err(error) => {
            drop(machine);
            return Err(error);
        }
    };
    match lexer.next(mode) {
        Ok(seen) => {
            let next = take(alloc, machine, before, openings, seen)?;
            Ok((lexer, next))
        }
        Err(error) => {
            let halt = halt_of(error, machine, openings)?;
            Ok((lexer, Advance::Halts(halt)))
        }
    }
}

/// At the beginning of a text, where so many things may be open at once.
fn begin(alloc: Global, text: Text, limit: u32) -> Result<Reader, AllocError>
    ensures reader { IfOk result (λ r. r ≡ spec.reader_at limit text) }
    ensures numbered { IfOk result (λ r. Numbered r.machine) }
    ensures counted { IfOk result (λ r. Within (suc limit) r.machine) }
{
    let machine = Machine::start(alloc, limit)?;
    Ok(Reader {
        lexer: Lexer::new(alloc, text),
        machine,
        mode: Mode::Command,
        openings: Openings::new(alloc),
    })
}

/// Reads a text as far as it begins a script.
pub fn read_all(alloc: Global, text: Text) -> Result<Halt, AllocError>
    requires { length text ≤ longest }
    ensures { IfOk result (λ halt. IsRead text halt) }
{
    let mut reader = begin(alloc, text, DEEPEST)?;
    'tokens: loop {
        let (lexer, next) = next_token(alloc, reader)?;
        match next {
            Advance::More(machine, mode, openings) => {
                reader = Reader {
                    lexer,
                    machine,
                    mode,
                    openings,
                };
            }
            Advance::Halts(halt) => return Ok(halt),
        }
    }
}

/// How many things may be open at once: as many as are allowed, or one more.
fn nesting(one_more: bool) -> u32
    ensures { result ≡ spec.nesting one_more }
{
    if one_more { DEEPEST + 1 } else { DEEPEST }
}

/// The line of the token that was read last.
fn last_line(lexer: &Lexer) -> usize
    ensures { result ≡ line_of lexer.now lexer.now.last }
{
    lexer.line(lexer.place())
}

/// The line of a token of a text, and whether it is taken, by its number: or of the token at which the reading halts before
/// that. So many things may be open at once as are allowed, or one more.
pub fn look_at(
    alloc: Global,
    text: Text,
    one_more: bool,
    number: usize,
) -> Result<(usize, bool), AllocError>
    requires { length text ≤ longest }
    ensures { IfOk result (λ seen. seen ≡ spec.looked number (spec.reader_at (spec.nesting one_more) text)) }
{
    let mut reader = begin(alloc, text, nesting(one_more))?;
    let mut left = number;
    'tokens: loop {
        let (lexer, next) = next_token(alloc, reader)?;
        match next {
            Advance::More(machine, mode, openings) => {
                if left == 0 {
                    drop(machine);
                    let line = last_line(&lexer);
                    return Ok((line, true));
                }
                left -= 1;
                reader = Reader {
                    lexer,
                    machine,
                    mode,
                    openings,
                };
            }
            Advance::Halts(halt) => {
                drop(halt);
                let line = last_line(&lexer);
                return Ok((line, false));
            }
        }
    }
}
