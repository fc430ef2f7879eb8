//! One token from the front of an expression (ISO C, 6.4).

ghost use Rattle.std.specs.Prelude.{◌≡◌, ◌≤◌, length, drop, slice_get, Some};
ghost use Rattle.std.specs.List.{prefix_len};
ghost use Rattle.sh_arith.specs.Lex as spec;
ghost use Rattle.sh_arith.specs.Lex.{Gives, IsOp};

use crate::number::{blank, decimal, literal, run_len, word_byte};
use crate::token::{LexError, Logic, Math, Op, Token};
use hs_text::Text;
use std::alloc::Global;

/// The operator, or its assignment where `=` follows.
fn or_assign(math: Math, rest: &[u8]) -> (Op, &[u8])
    ensures { spec.or_assign math rest.now ≡ spec.sign result.0 result.1.now }
{
    match rest {
        [b'=', after @ ..] => (Op::Assign(Some(math)), after),
        _ => (Op::Math(math), rest),
    }
}

/// One operator where `=` follows, and else another.
fn with_equals(long: Op, short: Op, rest: &[u8]) -> (Op, &[u8])
    ensures { spec.with_equals long short rest.now ≡ spec.sign result.0 result.1.now }
{
    match rest {
        [b'=', after @ ..] => (long, after),
        _ => (short, rest),
    }
}

fn less(rest: &[u8]) -> (Op, &[u8])
    ensures { spec.angle 60 Math.Left Math.AtMost Math.Less rest.now ≡ spec.sign result.0 result.1.now }
{
    match rest {
        [b'<', after @ ..] => or_assign(Math::Left, after),
        _ => with_equals(Op::Math(Math::AtMost), Op::Math(Math::Less), rest),
    }
}

fn greater(rest: &[u8]) -> (Op, &[u8])
    ensures { spec.angle 62 Math.Right Math.AtLeast Math.Greater rest.now ≡ spec.sign result.0 result.1.now }
{
    match rest {
        [b'>', after @ ..] => or_assign(Math::Right, after),
        _ => with_equals(Op::Math(Math::AtLeast), Op::Math(Math::Greater), rest),
    }
}

fn ampersand(rest: &[u8]) -> (Op, &[u8])
    ensures { spec.ampersand rest.now ≡ spec.sign result.0 result.1.now }
{
    match rest {
        [b'&', after @ ..] => (Op::Logic(Logic::Both), after),
        _ => or_assign(Math::And, rest),
    }
}

fn bar(rest: &[u8]) -> (Op, &[u8])
    ensures { spec.bar rest.now ≡ spec.sign result.0 result.1.now }
{
    match rest {
        [b'|', after @ ..] => (Op::Logic(Logic::Either), after),
        _ => or_assign(Math::Or, rest),
    }
}

/// An operator that stands alone.
fn single(first: u8, rest: &[u8]) -> Option<(Op, &[u8])>
    ensures { IsOp result (spec.single first rest.now) }
{
    match first {
        b'~' => Some((Op::Complement, rest)),
        b'?' => Some((Op::Question, rest)),
        b':' => Some((Op::Colon, rest)),
        b'(' => Some((Op::Open, rest)),
        b')' => Some((Op::Close, rest)),
        _ => None,
    }
}

/// An operator that `=` may follow.
fn joined(first: u8, rest: &[u8]) -> Option<(Op, &[u8])>
    ensures { IsOp result (spec.joined first rest.now) }
{
    match first {
        b'+' => Some(or_assign(Math::Plus, rest)),
        b'-' => Some(or_assign(Math::Minus, rest)),
        b'*' => Some(or_assign(Math::Times, rest)),
        b'/' => Some(or_assign(Math::Over, rest)),
        b'%' => Some(or_assign(Math::Modulo, rest)),
        b'^' => Some(or_assign(Math::Xor, rest)),
        _ => single(first, rest),
    }
}

/// An operator by its first byte. None: there is none.
fn operator(first: u8, rest: &[u8]) -> Option<(Op, &[u8])>
    ensures { IsOp result (spec.operator first rest.now) }
{
    match first {
        b'<' => Some(less(rest)),
        b'>' => Some(greater(rest)),
        b'=' => Some(with_equals(Op::Math(Math::Equal), Op::Assign(None), rest)),
        b'!' => Some(with_equals(Op::Math(Math::Unequal), Op::Not, rest)),
        b'&' => Some(ampersand(rest)),
        b'|' => Some(bar(rest)),
        _ => joined(first, rest),
    }
}

/// A constant or a name: the longest run of letters, digits and `_`.
fn run_at(alloc: Global, place: usize, first: u8, text: &[u8]) -> Result<(Token, &[u8]), LexError>
    requires { slice_get text.now 0 ≡ Some first }
    ensures { Gives result (spec.run_at place first (drop 1 text.now)) }
{
    let (run, rest) = text.split_at(run_len(text));
    if !decimal(first) {
        return Ok((Token::Name(place, Text::from_slice(alloc, run)?), rest));
    }
    match literal(run) {
        Some(number) => Ok((Token::Number(number), rest)),
        None => Err(LexError::Bad),
    }
}

/// The token at the begin of the text, which is at this place.
pub fn token_at(alloc: Global, place: usize, text: &[u8]) -> Result<(Token, &[u8]), LexError>
    ensures { Gives result (spec.token_at place text.now) }
{
    match text {
        [] => Err(LexError::End),
        [first, ..] if word_byte(*first) => run_at(alloc, place, *first, text),
        [first, rest @ ..] => match operator(*first, rest) {
            Some((op, after)) => Ok((Token::Operator(op), after)),
            None => Err(LexError::Bad),
        },
    }
}

fn gap(b: u8) -> bool
    ensures { result ≡ spec.gap b }
{
    blank(b) || b == b'\n'
}

fn gaps(text: &[u8]) -> usize
    ensures count { result ≡ prefix_len spec.gap text.now }
    ensures within { result ≤ length text.now }
{
    text.iter().take_while(|b| gap(**b)).count()
}

/// The text from its first token on.
pub fn skip(text: &[u8]) -> &[u8]
    ensures text { result.now ≡ spec.skip text.now }
    ensures within { length result.now ≤ length text.now }
{
    text.split_at(gaps(text)).1
}
