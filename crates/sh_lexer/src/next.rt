//! One token from the front of a text, in a mode (POSIX.1-2017, XCU 2.3).

ghost use Rattle.std.specs.Prelude.{◌≡◌, [], ◌∷◌};
ghost use Rattle.sh_lexer.specs.Words.{word_between};
ghost use Rattle.sh_lexer.specs.Cut as cut;
ghost use Rattle.sh_lexer.specs.Gives.{Gives};
ghost use Rattle.sh_lexer.specs.Lex as spec;

use crate::arith::in_arith;
use crate::body::read_body;
use crate::bytes::{ends_word, first, has_nul, peel, plain, skip};
use crate::delimiter::read_delimiter;
use crate::lex::{
    ampersand, bar, ends, greater, in_body, in_plain_braces, in_quoted_braces, in_quotes, in_word,
    less, operator, semi, word_bit,
};
use crate::read::{LexError, Read};
use crate::token::{End, Here, Mode, Op, Token};
use crate::word::plain_at;
use hs_text::Text;
use sh_syntax::{Fault, Opening};
use std::alloc::Global;

/// A token of more than one byte, or a part of a word, where no other one begins.
fn word_between<'a>(
    alloc: Global,
    mode: Mode,
    text: &'a [u8],
    b: u8,
    rest: &[u8],
) -> Result<Read<'a>, LexError>
    requires { text.now ≡ b ∷ rest.now }
    ensures { Gives result (word_between mode b rest.now) }
{
    if plain(b) {
        return plain_at(alloc, mode, text, b, rest);
    }
    word_bit(alloc, text)
}

/// Between words.
#[tactic(auto, unfolding(crate::specs::Lex::between))]
fn between(alloc: Global, mode: Mode, text: &[u8]) -> Result<Read<'_>, LexError>
    ensures { Gives result (spec.between mode text.now) }
{
    let Some((b, rest)) = first(text) else {
        return Err(LexError::End);
    };
    match b {
        b'\n' => ends(End::Newline, rest),
        b';' => semi(peel(rest)),
        b'&' => ampersand(peel(rest)),
        b'|' => bar(peel(rest)),
        b'(' => operator(Op::Open, rest),
        b')' => operator(Op::Close, rest),
        b'<' => less(0, peel(rest)),
        b'>' => greater(1, peel(rest)),
        _ => word_between(alloc, mode, text, b, rest),
    }
}

/// After `<<` or `<<-`.
#[tactic(auto, unfolding(crate::specs::Lex::delimiter))]
fn delimiter(alloc: Global, text: &[u8]) -> Result<Read<'_>, LexError>
    ensures { Gives result (spec.delimiter text.now) }
{
    if ends_word(text) {
        return between(alloc, Mode::Arguments, text);
    }
    let (bytes, quoted, rest) = read_delimiter(alloc, text)?;
    Ok(Read::Token(Token::Delimiter(bytes, quoted, Mode::Command), rest))
}

/// A body that is not expanded.
fn verbatim(body: Text, rest: &[u8]) -> Result<Read<'_>, LexError>
    ensures { Gives result (spec.verbatim (body, rest.now)) }
{
    if has_nul(body.as_slice()) {
        return Err(LexError::Bad(Fault::Nul));
    }
    Ok(Read::Token(Token::Verbatim(body, Mode::Command), rest))
}

/// The body of a here-document is cut out.
fn cut_out<'a>(alloc: Global, here: &Here, text: &'a [u8]) -> Result<Read<'a>, LexError>
    ensures { Gives result (spec.cut here.now (cut.body_of here.now [] [] text.now)) }
{
    let Some((body, rest)) = read_body(alloc, here, text)? else {
        return Err(LexError::Bad(Fault::Unclosed(Opening::Here)));
    };
    if here.quoted {
        return verbatim(body, rest);
    }
    Ok(Read::Cut(Token::Body, body, Some(rest)))
}

/// Where the next token begins.
pub fn token_start<'a>(mode: &Mode, text: &'a [u8]) -> &'a [u8]
    ensures { result.now ≡ spec.start mode.now text.now }
{
    match mode {
        Mode::Command | Mode::Prefix | Mode::Arguments | Mode::Pattern => skip(text),
        Mode::Delimiter => skip(text),
        Mode::Cut(_) => text,
        Mode::Word | Mode::Quotes | Mode::Braces(_) | Mode::Arith(_) | Mode::Body => peel(text),
    }
}

/// The token that begins here.
fn token_at(alloc: Global, mode: Mode, text: &[u8]) -> Result<Read<'_>, LexError>
    ensures { Gives result (spec.token_at mode text.now) }
{
    match mode {
        Mode::Word => in_word(alloc, text),
        Mode::Quotes => in_quotes(alloc, text),
        Mode::Braces(true) => in_quoted_braces(alloc, text),
        Mode::Braces(false) => in_plain_braces(alloc, text),
        Mode::Arith(open) => in_arith(alloc, open, text),
        Mode::Body => in_body(alloc, text),
        Mode::Delimiter => delimiter(alloc, text),
        Mode::Cut(here) => cut_out(alloc, &here, text),
        Mode::Command => between(alloc, Mode::Command, text),
        Mode::Prefix => between(alloc, Mode::Prefix, text),
        Mode::Arguments => between(alloc, Mode::Arguments, text),
        Mode::Pattern => between(alloc, Mode::Pattern, text),
    }
}

/// The first token of a text that is read in this mode.
pub fn read_token(alloc: Global, mode: Mode, text: &[u8]) -> Result<Read<'_>, LexError>
    ensures { Gives result (spec.lex mode text.now) }
{
    let text = token_start(&mode, text);
    token_at(alloc, mode, text)
}
