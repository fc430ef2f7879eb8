//! The first piece of a word: descriptors' numbers, assignments, reserved words and functions' names (POSIX.1-2017, XCU 2.4,
//! 2.7, 2.9.1 and 2.9.5). Each byte is looked at a bounded number of times.

ghost use Rattle.std.specs.Prelude.{◌≡◌, ◌&&◌, ◌∷◌, not};
ghost use Rattle.sh_lexer.specs.Bytes as bytes;
ghost use Rattle.sh_lexer.specs.Gives.{Gives};
ghost use Rattle.sh_lexer.specs.Lex as spec;
ghost use Rattle.sh_lexer.specs.Words.{IsDescriptor, ReadsOr, Redirects};
ghost use Rattle.sh_lexer.specs.declared.token.Mode.TheVariants as mode;

use crate::bytes::{Class, begins_name, ends_word, in_name, peel, piece, skip};
use crate::lex::{greater, less, opens_parenthesis, operator, plain_text, special_builtin};
use crate::read::{LexError, Read};
use crate::token::{Bit, Mode, Op, Token};
use hs_text::Text;
use sh_syntax::Fault;
use std::alloc::Global;

/// The number that digits stand for, where a redirection may name it.
#[tactic(auto, using(crate::proofs::Numbers::at_least), unfolding(crate::specs::Bytes::number))]
fn descriptor(digits: &[u8]) -> Option<u8>
    ensures { IsDescriptor result (bytes.number 0 digits.now) }
{
    let mut number = 0;
    let mut left = digits;
    while let [b, rest @ ..] = left {
        number = number * 10 + b.saturating_sub(b'0');
        if number > 2 {
            return None;
        }
        left = rest;
    }
    Some(number)
}

/// A redirection of the descriptor that digits stand for, to be read from the text after its first byte.
fn redirected<'a>(digits: &[u8], out: bool, rest: &'a [u8]) -> Result<Read<'a>, LexError>
    ensures { Redirects result (bytes.number 0 digits.now) out rest.now }
{
    match descriptor(digits) {
        None => Err(LexError::Bad(Fault::Unexpected)),
        Some(fd) if out => greater(fd, peel(rest)),
        Some(fd) => less(fd, peel(rest)),
    }
}

/// After digits. None: they are no number of a descriptor.
fn numbered<'a>(digits: &[u8], text: &'a [u8]) -> Result<Option<Read<'a>>, LexError>
    ensures { ReadsOr result (λ word. spec.numbered word (bytes.number 0 digits.now) text.now) }
{
    match text {
        [b'<', rest @ ..] => Ok(Some(redirected(digits, false, rest)?)),
        [b'>', rest @ ..] => Ok(Some(redirected(digits, true, rest)?)),
        _ => Ok(None),
    }
}

fn all_in_name(word: &[u8]) -> bool
    ensures { result ≡ bytes.all_in_name word.now }
{
    let mut left = word;
    while let [b, rest @ ..] = left {
        if !in_name(*b) {
            return false;
        }
        left = rest;
    }
    true
}

fn is_name(word: &[u8]) -> bool
    ensures { result ≡ bytes.is_name word.now }
{
    match word {
        [] => false,
        [b, rest @ ..] => begins_name(*b) && all_in_name(rest),
    }
}

/// The operator that the word is as a reserved word.
fn reserved(word: &[u8]) -> Option<Op>
    ensures { result ≡ spec.reserved word.now }
{
    if word == b"!".as_slice() {
        return Some(Op::Bang);
    }
    if word == b"{".as_slice() {
        return Some(Op::LeftBrace);
    }
    if word == b"}".as_slice() {
        return Some(Op::RightBrace);
    }
    if word == b"case".as_slice() {
        return Some(Op::Case);
    }
    if word == b"do".as_slice() {
        return Some(Op::Do);
    }
    if word == b"done".as_slice() {
        return Some(Op::Done);
    }
    if word == b"elif".as_slice() {
        return Some(Op::Elif);
    }
    if word == b"else".as_slice() {
        return Some(Op::Else);
    }
    if word == b"esac".as_slice() {
        return Some(Op::Esac);
    }
    if word == b"fi".as_slice() {
        return Some(Op::Fi);
    }
    if word == b"for".as_slice() {
        return Some(Op::For);
    }
    if word == b"if".as_slice() {
        return Some(Op::If);
    }
    if word == b"in".as_slice() {
        return Some(Op::In);
    }
    if word == b"then".as_slice() {
        return Some(Op::Then);
    }
    if word == b"until".as_slice() {
        return Some(Op::Until);
    }
    if word == b"while".as_slice() {
        return Some(Op::While);
    }
    None
}

/// Whether the word is a function's name, as a `(` comes after it.
fn names_function(word: &[u8], rest: &[u8]) -> bool
    ensures { result ≡ (bytes.is_name word.now && (not (spec.special_builtin word.now) && spec.opens_parenthesis (bytes.skip rest.now))) }
{
    is_name(word) && !special_builtin(word) && opens_parenthesis(skip(rest))
}

fn function_or_text(word: Text, rest: &[u8]) -> Result<Read<'_>, LexError>
    ensures { Gives result (spec.function_or_text (word, rest.now)) }
{
    if names_function(word.as_slice(), rest) {
        return Ok(Read::Token(Token::Function(word), rest));
    }
    Ok(Read::Token(Token::Part(Bit::Piece(word)), rest))
}

fn reserved_or_text(word: Text, rest: &[u8]) -> Result<Read<'_>, LexError>
    ensures { Gives result (spec.reserved_or_text (spec.reserved word) (word, rest.now)) }
{
    match reserved(word.as_slice()) {
        Some(op) => operator(op, rest),
        None => function_or_text(word, rest),
    }
}

/// The first word of a command.
#[tactic(auto, unfolding(crate::specs::Bytes::stands))]
fn command_text(alloc: Global, text: &[u8]) -> Result<Read<'_>, LexError>
    ensures { Gives result (spec.command_text (bytes.piece bytes.plain text.now)) }
{
    let (word, rest) = piece(alloc, Class::Plain, text)?;
    if ends_word(rest) {
        return reserved_or_text(word, rest);
    }
    Ok(Read::Token(Token::Part(Bit::Piece(word)), rest))
}

/// The first pattern of an arm of `case`.
#[tactic(auto, unfolding(crate::specs::Bytes::stands))]
fn pattern_text(alloc: Global, text: &[u8]) -> Result<Read<'_>, LexError>
    ensures { Gives result (spec.pattern_text (bytes.piece bytes.plain text.now)) }
{
    let (word, rest) = piece(alloc, Class::Plain, text)?;
    if ends_word(rest) && word.as_slice() == b"esac".as_slice() {
        return operator(Op::Esac, rest);
    }
    Ok(Read::Token(Token::Part(Bit::Piece(word)), rest))
}

#[tactic(auto, unfolding(crate::specs::Bytes::stands))]
fn word_text(alloc: Global, text: &[u8]) -> Result<Read<'_>, LexError>
    ensures { Gives result (spec.plain_text (bytes.piece bytes.plain text.now)) }
{
    plain_text(alloc, Class::Plain, text)
}

/// A name with `=` behind it. None: there is none.
#[tactic(auto, unfolding(crate::specs::Bytes::stands))]
fn assigned(alloc: Global, text: &[u8]) -> Result<Option<Read<'_>>, LexError>
    ensures { ReadsOr result (λ word. spec.assigned_text word (bytes.piece bytes.in_name text.now)) }
{
    let (name, rest) = piece(alloc, Class::Name, text)?;
    if !is_name(name.as_slice()) {
        return Ok(None);
    }
    match rest {
        [b'=', rest @ ..] => Ok(Some(Read::Token(Token::Assign(name), rest))),
        _ => Ok(None),
    }
}

fn command_word(alloc: Global, text: &[u8]) -> Result<Read<'_>, LexError>
    ensures { Gives result (spec.word_at mode.Command text.now) }
{
    match assigned(alloc, text)? {
        Some(read) => Ok(read),
        None => command_text(alloc, text),
    }
}

fn prefix_word(alloc: Global, text: &[u8]) -> Result<Read<'_>, LexError>
    ensures { Gives result (spec.word_at mode.Prefix text.now) }
{
    match assigned(alloc, text)? {
        Some(read) => Ok(read),
        None => word_text(alloc, text),
    }
}

fn word_at(alloc: Global, mode: Mode, text: &[u8]) -> Result<Read<'_>, LexError>
    ensures { Gives result (spec.word_at mode text.now) }
{
    match mode {
        Mode::Command => command_word(alloc, text),
        Mode::Prefix => prefix_word(alloc, text),
        Mode::Pattern => pattern_text(alloc, text),
        Mode::Arguments | Mode::Word | Mode::Quotes | Mode::Braces(_) => word_text(alloc, text),
        Mode::Arith(_) | Mode::Body | Mode::Delimiter | Mode::Cut(_) => word_text(alloc, text),
    }
}

/// The digits at the front. None: they are no number of a descriptor.
#[tactic(auto, unfolding(crate::specs::Bytes::stands))]
fn numbered_text(alloc: Global, text: &[u8]) -> Result<Option<Read<'_>>, LexError>
    ensures { ReadsOr result (λ word. spec.numbered_text word (bytes.piece bytes.is_digit text.now)) }
{
    let (digits, rest) = piece(alloc, Class::Digit, text)?;
    numbered(digits.as_slice(), rest)
}

/// Plain bytes between words, the first of which is given.
#[tactic(auto, unfolding(crate::specs::Lex::plain_at))]
pub fn plain_at<'a>(
    alloc: Global,
    mode: Mode,
    text: &'a [u8],
    b: u8,
    rest: &[u8],
) -> Result<Read<'a>, LexError>
    requires { text.now ≡ b ∷ rest.now }
    ensures { Gives result (spec.plain_at mode b rest.now) }
{
    if !b.is_ascii_digit() {
        return word_at(alloc, mode, text);
    }
    match numbered_text(alloc, text)? {
        Some(read) => Ok(read),
        None => word_at(alloc, mode, text),
    }
}
