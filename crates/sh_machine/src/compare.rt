//! Tests of tokens. None takes memory.

ghost use Rattle.std.specs.Prelude.{◌≡◌};
ghost use Rattle.std.specs.Str.{bytes_eq};
ghost use Rattle.sh_grammar.specs.Tests as spec;

use hs_text::Text;
use sh_lexer::{End, Here, Mode, Op, Token};

pub fn same_text(a: &Text, b: &Text) -> bool
    ensures { result ≡ bytes_eq a.now b.now }
{
    a.as_slice() == b.as_slice()
}

pub fn same_here(a: &Here, b: &Here) -> bool
    ensures { result ≡ spec.same_here a.now b.now }
{
    same_text(&a.delimiter, &b.delimiter) && a.strip == b.strip && a.quoted == b.quoted
}

pub fn same_mode(a: &Mode, b: &Mode) -> bool
    ensures { result ≡ spec.same_mode a.now b.now }
{
    match a {
        Mode::Command => matches!(b, Mode::Command),
        Mode::Prefix => matches!(b, Mode::Prefix),
        Mode::Arguments => matches!(b, Mode::Arguments),
        Mode::Pattern => matches!(b, Mode::Pattern),
        Mode::Word => matches!(b, Mode::Word),
        Mode::Quotes => matches!(b, Mode::Quotes),
        Mode::Braces(quoted) => matches!(b, Mode::Braces(quoted2) if quoted == quoted2),
        Mode::Arith(open) => matches!(b, Mode::Arith(open2) if open == open2),
        Mode::Body => matches!(b, Mode::Body),
        Mode::Delimiter => matches!(b, Mode::Delimiter),
        Mode::Cut(here) => matches!(b, Mode::Cut(here2) if same_here(here, here2)),
    }
}

/// Whether the token is the operator.
pub fn is_op(op: Op, token: &Token) -> bool
    ensures { result ≡ spec.is_op op token.now }
{
    matches!(token, Token::Operator(op2) if op == *op2)
}

/// Whether the token is the end, after which the next token is read in the mode.
pub fn is_end(end: End, mode: &Mode, token: &Token) -> bool
    ensures { result ≡ spec.is_end end mode.now token.now }
{
    matches!(token, Token::End(end2, mode2) if end == *end2 && same_mode(mode, mode2))
}

/// Whether a list may end by the operator.
pub fn ends_list(op: Op) -> bool
    ensures { result ≡ spec.ends_list op }
{
    matches!(
        op,
        Op::RightBrace
            | Op::Close
            | Op::Then
            | Op::Elif
            | Op::Else
            | Op::Fi
            | Op::Do
            | Op::Done
            | Op::DoubleSemi
            | Op::Esac
    )
}
