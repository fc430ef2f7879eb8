//! Arithmetic expressions (POSIX.1-2017, XCU 2.6.4).

ghost use Rattle.std.specs.Prelude.{◌≡◌, false, [], ◌∷◌, ◌==◌, ◌&&◌, OnOk, OnErr, Err, Ok};
ghost use Rattle.sh_lexer.specs.Bytes as bytes;
ghost use Rattle.sh_lexer.specs.declared.token.End.TheVariants as end;
ghost use Rattle.sh_lexer.specs.Lex as spec;
ghost use Rattle.sh_lexer.specs.declared.token.Mode.TheVariants as mode;
ghost use Rattle.sh_lexer.specs.declared.read.LexError.TheVariants.{Memory};
ghost use Rattle.sh_lexer.specs.Gives.{Gives};
ghost use Rattle.sh_lexer.specs.Runs.{IsSum, IsStep, IsShorter, IsUnjoined, BeginsNoJoin, brackets};

use crate::bytes::{peel, push, special};
use crate::lex::{Quoting, begins_nul, ends, special_at};
use crate::read::{LexError, Read};
use crate::token::{Bit, End, Mode, Token};
use hs_text::Text;
use sh_syntax::Fault;
use std::alloc::Global;

fn closes(text: &[u8]) -> bool
    ensures { result ≡ spec.closes text.now }
{
    matches!(text, [b')', ..])
}

/// Whether the expression ends at this byte, with so many brackets open.
fn ends_at(count: u32, b: u8, rest: &[u8]) -> bool
    ensures { result ≡ (b == 41 && (count == 0 && spec.closes (bytes.peel rest.now))) }
{
    b == b')' && count == 0 && closes(peel(rest))
}

/// How many brackets are open after the byte. A count that doesn't fit is want of memory.
fn open_after(count: u32, b: u8) -> Result<u32, LexError>
    ensures ok { OnOk result (result ≡ Ok (brackets count b)) }
    ensures err { OnErr result (result ≡ Err Memory) }
{
    match b {
        b'(' => count.checked_add(1).ok_or(LexError::Memory),
        b')' => Ok(count.saturating_sub(1)),
        _ => Ok(count),
    }
}

/// What stands at the front of a sum.
enum Step<'a> {
    /// Nothing of it: the sum ends here.
    Stop,
    /// Joined lines.
    Join(&'a [u8]),
    /// A byte, and how many brackets are open after it.
    Take(u8, u32, &'a [u8]),
}

/// A byte that stands for itself where the expression doesn't end at it, and the text after it, which is not empty.
#[tactic(auto, unfolding(crate::specs::Lex::sum))]
fn plain_of_sum(count: u32, b: u8, rest: &[u8]) -> Result<Step<'_>, LexError>
    requires { bytes.special b ≡ false }
    ensures reads { IsUnjoined b rest.now → IsStep result count (b ∷ rest.now) }
    ensures shorter { IsShorter result (b ∷ rest.now) }
{
    if ends_at(count, b, rest) {
        return Ok(Step::Stop);
    }
    Ok(Step::Take(b, open_after(count, b)?, rest))
}

/// A byte that begins no joined lines, and the text after it.
#[tactic(auto, unfolding(crate::specs::Lex::sum))]
fn byte_of_sum(count: u32, b: u8, rest: &[u8]) -> Result<Step<'_>, LexError>
    ensures reads { BeginsNoJoin b rest.now → IsStep result count (b ∷ rest.now) }
    ensures shorter { IsShorter result (b ∷ rest.now) }
{
    if special(b) {
        return Ok(Step::Stop);
    }
    match rest {
        [] => Ok(Step::Take(b, count, rest)),
        [_, ..] => plain_of_sum(count, b, rest),
    }
}

#[tactic(auto, unfolding(crate::specs::Lex::sum))]
fn first_of_sum(count: u32, text: &[u8]) -> Result<Step<'_>, LexError>
    ensures reads { IsStep result count text.now }
    ensures shorter { IsShorter result text.now }
{
    match text {
        [] => Ok(Step::Stop),
        [b'\\', b'\n', rest @ ..] => Ok(Step::Join(rest)),
        [b, rest @ ..] => byte_of_sum(count, *b, rest),
    }
}

/// Plain bytes with so many brackets open before them, how many are open after them, and the text after that. Each byte is
/// looked at twice at most.
fn sum(alloc: Global, count: u32, text: &[u8]) -> Result<(Text, u32, &[u8]), LexError>
    ensures { IsSum result (spec.sum count text.now) }
{
    let mut bytes = Vec::new(alloc);
    let mut count = count;
    let mut left = text;
    loop {
        match first_of_sum(count, left)? {
            Step::Stop => return Ok((Text::from_vec(alloc, bytes)?, count, left)),
            Step::Join(rest) => left = rest,
            Step::Take(b, more, rest) => {
                push(&mut bytes, b)?;
                count = more;
                left = rest;
            }
        }
    }
}

/// Plain bytes of an expression. No NUL may follow.
fn sum_text(alloc: Global, count: u32, text: &[u8]) -> Result<Read<'_>, LexError>
    ensures { Gives result (spec.sum_text (spec.sum count text.now)) }
{
    let (bytes, count, rest) = sum(alloc, count, text)?;
    if begins_nul(rest) {
        return Err(LexError::Bad(Fault::Nul));
    }
    Ok(Read::Token(Token::Part(Bit::Sum(bytes, count)), rest))
}

fn arith_special(alloc: Global, count: u32, b: u8, rest: &[u8]) -> Result<Read<'_>, LexError>
    ensures { Gives result (spec.special_at (mode.Arith count) (spec.escaped_if spec.escapable) b rest.now) }
{
    special_at(alloc, Mode::Arith(count), Quoting::Body, b, rest)
}

/// The `))` at the end.
fn arith_end(rest: &[u8]) -> Result<Read<'_>, LexError>
    ensures { Gives result (spec.ends end.Arith (spec.after_first (bytes.peel rest.now))) }
{
    match peel(rest) {
        [] => ends(End::Arith, &[]),
        [_, rest @ ..] => ends(End::Arith, rest),
    }
}

/// In an expression with so many brackets open.
#[tactic(auto, unfolding(crate::specs::Lex::in_arith))]
pub fn in_arith(alloc: Global, count: u32, text: &[u8]) -> Result<Read<'_>, LexError>
    ensures { Gives result (spec.in_arith count text.now) }
{
    match text {
        [] => Err(LexError::End),
        [b, rest @ ..] if special(*b) => arith_special(alloc, count, *b, rest),
        [b, rest @ ..] if ends_at(count, *b, rest) => arith_end(rest),
        _ => sum_text(alloc, count, text),
    }
}
