//! Classes of bytes, and runs of them. Each run is read once.

ghost use Rattle.std.specs.Prelude.{◌≡◌, [], ◌∷◌, ◌++◌, OnOk, OnErr, Err, MatchOption};
ghost use Rattle.sh_lexer.specs.declared.read.LexError.TheVariants.{Memory};
ghost use Rattle.sh_lexer.specs.Bytes as spec;
ghost use Rattle.sh_lexer.specs.Gives.{IsPair, IsSingle};

use crate::read::LexError;
use hs_text::Text;
use std::alloc::{AllocError, Global};

/// Which bytes a piece is made of.
#[derive(Clone, Copy, Debug, PartialEq, Eq)]
pub enum Class {
    Digit,
    /// Letters, digits and `_`.
    Name,
    /// What stands for itself in a word.
    Plain,
    /// In double quotes.
    Quoted,
    /// In the word of `${x-`.
    Braces,
    /// The same, in double quotes.
    QuotedBraces,
    /// In the body of a here-document.
    Body,
}

/// What stands for itself in single quotes alone.
#[tactic(auto, unfolding(crate::specs::Bytes::special))]
pub fn special(b: u8) -> bool
    ensures { result ≡ spec.special b }
{
    matches!(b, 0 | b'$' | b'\\' | b'`')
}

pub fn delimits(b: u8) -> bool
    ensures { result ≡ spec.delimits b }
{
    matches!(
        b,
        b' ' | b'\t' | b'\n' | b'&' | b'(' | b')' | b';' | b'<' | b'>' | b'|'
    )
}

pub fn begins_name(b: u8) -> bool
    ensures { result ≡ spec.begins_name b }
{
    b.is_ascii_alphabetic() || b == b'_'
}

pub fn in_name(b: u8) -> bool
    ensures { result ≡ spec.in_name b }
{
    begins_name(b) || b.is_ascii_digit()
}

pub fn plain(b: u8) -> bool
    ensures { result ≡ spec.plain b }
{
    !(delimits(b) || special(b) || matches!(b, b'"' | b'\''))
}

/// Whether the byte is of the class.
#[tactic(auto, unfolding(crate::specs::Bytes::stands))]
pub fn stands(class: Class, b: u8) -> bool
    ensures { result ≡ spec.stands class b }
{
    match class {
        Class::Digit => b.is_ascii_digit(),
        Class::Name => in_name(b),
        Class::Plain => plain(b),
        Class::Quoted => !(special(b) || b == b'"'),
        Class::Braces => !(special(b) || matches!(b, b'"' | b'\'' | b'}')),
        Class::QuotedBraces => !(special(b) || matches!(b, b'"' | b'}')),
        Class::Body => !special(b),
    }
}

/// Whether a word ends before the text.
pub fn ends_word(text: &[u8]) -> bool
    ensures { result ≡ spec.ends_word text.now }
{
    match text {
        [] => true,
        [b, ..] => delimits(*b),
    }
}

/// The text without the joined lines at its front.
#[tactic(auto, unfolding(crate::specs::Bytes::peel))]
pub fn peel(text: &[u8]) -> &[u8]
    ensures { result.now ≡ spec.peel text.now }
{
    let mut left = text;
    while let [b'\\', b'\n', rest @ ..] = left {
        left = rest;
    }
    left
}

#[tactic(auto, unfolding(crate::specs::Bytes::comment))]
fn comment(text: &[u8]) -> &[u8]
    ensures { result.now ≡ spec.comment text.now }
{
    let mut left = text;
    while let [b, rest @ ..] = left {
        if matches!(*b, b'\n' | 0) {
            return left;
        }
        left = rest;
    }
    left
}

/// The text without blanks, joined lines and a comment at its front.
#[tactic(auto, unfolding(crate::specs::Bytes::skip))]
pub fn skip(text: &[u8]) -> &[u8]
    ensures { result.now ≡ spec.skip text.now }
{
    let mut left = text;
    loop {
        match left {
            [b' ' | b'\t', rest @ ..] => left = rest,
            [b'\\', b'\n', rest @ ..] => left = rest,
            [b'#', rest @ ..] => return comment(rest),
            _ => return left,
        }
    }
}

/// The longest run of bytes of the class, without joined lines, and the text after it.
#[tactic(auto, unfolding(crate::specs::Bytes::piece))]
pub fn piece(alloc: Global, class: Class, text: &[u8]) -> Result<(Text, &[u8]), AllocError>
    ensures { IsPair result (spec.piece (spec.stands class) text.now) }
{
    let mut bytes = Vec::new(alloc);
    let mut left = text;
    loop {
        match left {
            [b'\\', b'\n', rest @ ..] => left = rest,
            [b, rest @ ..] if stands(class, *b) => {
                bytes.push(*b)?;
                left = rest;
            }
            _ => return Ok((Text::from_vec(alloc, bytes)?, left)),
        }
    }
}

/// Up to the next single quote, and the text after it.
#[tactic(auto, unfolding(crate::specs::Bytes::single))]
pub fn single(alloc: Global, text: &[u8]) -> Result<Option<(Text, &[u8])>, AllocError>
    ensures { IsSingle result (spec.single text.now) }
{
    let mut bytes = Vec::new(alloc);
    let mut left = text;
    while let [b, rest @ ..] = left {
        if *b == b'\'' {
            return Ok(Some((Text::from_vec(alloc, bytes)?, rest)));
        }
        bytes.push(*b)?;
        left = rest;
    }
    Ok(None)
}

/// The first byte of a text, and what comes after it.
pub fn first(text: &[u8]) -> Option<(u8, &[u8])>
    ensures { MatchOption result (text.now ≡ []) (λ p. text.now ≡ p.0 ∷ p.1.now) }
{
    match text {
        [] => None,
        [b, rest @ ..] => Some((*b, rest)),
    }
}

/// Puts a byte behind the others.
pub fn push(bytes: &mut Vec<u8>, b: u8) -> Result<(), LexError>
    ensures ok { OnOk result (bytes.new.items ≡ bytes.old.items ++ b ∷ []) }
    ensures err { OnErr result (result ≡ Err Memory) }
    ensures kept { OnErr result (bytes.new.items ≡ bytes.old.items) }
{
    match bytes.push(b) {
        Ok(()) => Ok(()),
        Err(_) => Err(LexError::Memory),
    }
}

pub fn has_nul(text: &[u8]) -> bool
    ensures { result ≡ spec.has_nul text.now }
{
    text.contains(&0)
}
