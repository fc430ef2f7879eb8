//! Delimiters of here-documents (POSIX.1-2017, XCU 2.7.4). Each byte is looked at once, and copied once.

ghost use Rattle.std.specs.Prelude.{◌≡◌, [], ◌∷◌, false};
ghost use Rattle.sh_lexer.specs.Bytes as bytes;
ghost use Rattle.sh_lexer.specs.declared.delimiter.Within.TheVariants as within;
ghost use Rattle.sh_lexer.specs.Cut as spec;
ghost use Rattle.sh_lexer.specs.Delimiting.{IsTurn, TurnsOn};
ghost use Rattle.sh_lexer.specs.Gives.{IsDelimited};

use crate::bytes::{delimits, first, push};
use crate::read::LexError;
use hs_text::Text;
use sh_syntax::{Fault, Opening};
use std::alloc::Global;

/// Where in a delimiter a byte stands.
#[derive(Clone, Copy, Debug, PartialEq, Eq)]
enum Within {
    /// Outside of quotes.
    Word,
    /// In single quotes.
    Single,
    /// In double quotes.
    Double,
}

/// What comes next in a delimiter.
enum Turn<'a> {
    /// Nothing: it ends here.
    Finish,
    /// No byte of it. Where the next one stands, and whether a part was quoted.
    Go(Within, bool, &'a [u8]),
    /// A byte of it, and whether a part was quoted.
    Take(u8, bool, &'a [u8]),
}

/// In single quotes.
#[tactic(auto, unfolding(crate::specs::Cut::in_single))]
fn turn_single(quoted: bool, text: &[u8]) -> Result<Turn<'_>, LexError>
    ensures reads { IsTurn result within.Single quoted text.now }
    ensures shorter { TurnsOn result text.now }
{
    match text {
        [] => Err(LexError::Bad(Fault::Unclosed(Opening::Single))),
        [b'\'', rest @ ..] => Ok(Turn::Go(Within::Word, true, rest)),
        [0, ..] => Err(LexError::Bad(Fault::Nul)),
        [b, rest @ ..] => Ok(Turn::Take(*b, quoted, rest)),
    }
}

/// What a backslash quotes in double quotes.
fn quotable(b: u8) -> bool
    ensures { result ≡ spec.quotable b }
{
    matches!(b, b'"' | b'$' | b'\\' | b'`')
}

/// After a backslash in double quotes.
#[tactic(auto, using(crate::proofs::Delimiters::doubles))]
fn escape_double(quoted: bool, text: &[u8]) -> Result<Turn<'_>, LexError>
    ensures reads { IsTurn result within.Double quoted (92 ∷ text.now) }
    ensures shorter { TurnsOn result (92 ∷ text.now) }
{
    let Some((c, rest)) = first(text) else {
        return Ok(Turn::Take(b'\\', quoted, text));
    };
    if c == b'\n' {
        return Ok(Turn::Go(Within::Double, quoted, rest));
    }
    if quotable(c) {
        return Ok(Turn::Take(c, quoted, rest));
    }
    Ok(Turn::Take(b'\\', quoted, text))
}

/// A byte in double quotes.
#[tactic(auto, using(crate::proofs::Delimiters::doubles))]
fn byte_double(quoted: bool, b: u8, rest: &[u8]) -> Result<Turn<'_>, LexError>
    ensures reads { IsTurn result within.Double quoted (b ∷ rest.now) }
    ensures shorter { TurnsOn result (b ∷ rest.now) }
{
    match b {
        b'"' => Ok(Turn::Go(Within::Word, true, rest)),
        0 => Err(LexError::Bad(Fault::Nul)),
        b'\\' => escape_double(quoted, rest),
        _ => Ok(Turn::Take(b, quoted, rest)),
    }
}

/// In double quotes.
#[tactic(auto, unfolding(crate::specs::Cut::in_double))]
fn turn_double(quoted: bool, text: &[u8]) -> Result<Turn<'_>, LexError>
    ensures reads { IsTurn result within.Double quoted text.now }
    ensures shorter { TurnsOn result text.now }
{
    match first(text) {
        None => Err(LexError::Bad(Fault::Unclosed(Opening::Double))),
        Some((b, rest)) => byte_double(quoted, b, rest),
    }
}

/// After a backslash outside of quotes.
#[tactic(auto, using(crate::proofs::Delimiters::words))]
fn escape_word(quoted: bool, text: &[u8]) -> Result<Turn<'_>, LexError>
    ensures reads { IsTurn result within.Word quoted (92 ∷ text.now) }
    ensures shorter { TurnsOn result (92 ∷ text.now) }
{
    let Some((c, rest)) = first(text) else {
        return Ok(Turn::Take(b'\\', quoted, text));
    };
    match c {
        b'\n' => Ok(Turn::Go(Within::Word, quoted, rest)),
        0 => Err(LexError::Bad(Fault::Nul)),
        _ => Ok(Turn::Take(c, true, rest)),
    }
}

/// A byte outside of quotes that ends no word.
#[tactic(auto, using(crate::proofs::Delimiters::words))]
fn byte_word(quoted: bool, b: u8, rest: &[u8]) -> Result<Turn<'_>, LexError>
    requires { bytes.delimits b ≡ false }
    ensures reads { IsTurn result within.Word quoted (b ∷ rest.now) }
    ensures shorter { TurnsOn result (b ∷ rest.now) }
{
    match b {
        b'\'' => Ok(Turn::Go(Within::Single, true, rest)),
        b'"' => Ok(Turn::Go(Within::Double, true, rest)),
        0 => Err(LexError::Bad(Fault::Nul)),
        b'\\' => escape_word(quoted, rest),
        _ => Ok(Turn::Take(b, quoted, rest)),
    }
}

/// Outside of quotes. `$` and backquotes are plain bytes.
#[tactic(auto, using(crate::proofs::Delimiters::words))]
fn turn_word(quoted: bool, text: &[u8]) -> Result<Turn<'_>, LexError>
    ensures reads { IsTurn result within.Word quoted text.now }
    ensures shorter { TurnsOn result text.now }
{
    match first(text) {
        None => Ok(Turn::Finish),
        Some((b, rest)) => {
            if delimits(b) {
                return Ok(Turn::Finish);
            }
            byte_word(quoted, b, rest)
        }
    }
}

fn take_turn(within: Within, quoted: bool, text: &[u8]) -> Result<Turn<'_>, LexError>
    ensures reads { IsTurn result within quoted text.now }
    ensures shorter { TurnsOn result text.now }
{
    match within {
        Within::Word => turn_word(quoted, text),
        Within::Single => turn_single(quoted, text),
        Within::Double => turn_double(quoted, text),
    }
}

/// A delimiter without its quotes, whether any part was quoted, and the text after it.
pub fn read_delimiter(alloc: Global, text: &[u8]) -> Result<(Text, bool, &[u8]), LexError>
    ensures { IsDelimited result (spec.in_delimiter [] false text.now) }
{
    let mut bytes = Vec::new(alloc);
    let mut within = Within::Word;
    let mut quoted = false;
    let mut left = text;
    loop {
        match take_turn(within, quoted, left)? {
            Turn::Finish => return Ok((Text::from_vec(alloc, bytes)?, quoted, left)),
            Turn::Go(place, part, rest) => {
                within = place;
                quoted = part;
                left = rest;
            }
            Turn::Take(b, part, rest) => {
                push(&mut bytes, b)?;
                quoted = part;
                left = rest;
            }
        }
    }
}
