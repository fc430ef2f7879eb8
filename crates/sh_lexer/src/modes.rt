//! How a token is read follows from the one before it and from how that was read (POSIX.1-2017, XCU 2.3 and 2.4).

ghost use Rattle.std.specs.Prelude.{◌≡◌, IfOk};
ghost use Rattle.sh_lexer.specs.Modes as spec;

use crate::token::{Bit, Here, Mode, Op, Opener, Token};
use std::alloc::AllocError;

impl Clone for Here {
    ghost is_clone = { λ x y. y ≡ x };

    fn clone(&self) -> Result<Here, AllocError> {
        Ok(Here {
            delimiter: self.delimiter.clone()?,
            strip: self.strip,
            quoted: self.quoted,
        })
    }
}

impl Clone for Mode {
    ghost is_clone = { λ x y. y ≡ x };

    fn clone(&self) -> Result<Mode, AllocError> {
        match self {
            Mode::Command => Ok(Mode::Command),
            Mode::Prefix => Ok(Mode::Prefix),
            Mode::Arguments => Ok(Mode::Arguments),
            Mode::Pattern => Ok(Mode::Pattern),
            Mode::Word => Ok(Mode::Word),
            Mode::Quotes => Ok(Mode::Quotes),
            Mode::Braces(quoted) => Ok(Mode::Braces(*quoted)),
            Mode::Arith(count) => Ok(Mode::Arith(*count)),
            Mode::Body => Ok(Mode::Body),
            Mode::Delimiter => Ok(Mode::Delimiter),
            Mode::Cut(here) => Ok(Mode::Cut(here.clone()?)),
        }
    }
}

/// How a word goes on that began in this mode.
fn inside(mode: Mode) -> Mode
    ensures { result ≡ spec.inside mode }
{
    match mode {
        Mode::Command | Mode::Prefix | Mode::Arguments => Mode::Word,
        Mode::Pattern | Mode::Delimiter | Mode::Word => Mode::Word,
        Mode::Quotes => Mode::Quotes,
        Mode::Braces(quoted) => Mode::Braces(quoted),
        Mode::Arith(count) => Mode::Arith(count),
        Mode::Body => Mode::Body,
        Mode::Cut(here) => Mode::Cut(here),
    }
}

fn after_op(op: Op) -> Mode
    ensures { result ≡ spec.after_op op }
{
    match op {
        Op::Case | Op::For | Op::In | Op::PipePattern => Mode::Arguments,
        Op::DoubleSemi | Op::CaseIn | Op::OpenPattern => Mode::Pattern,
        Op::AndIf | Op::OrIf | Op::Semi | Op::Pipe | Op::Open | Op::Close => Mode::Command,
        Op::Bang | Op::LeftBrace | Op::RightBrace | Op::Do | Op::Done => Mode::Command,
        Op::Elif | Op::Else | Op::Esac | Op::Fi | Op::If => Mode::Command,
        Op::Then | Op::Until | Op::While => Mode::Command,
    }
}

fn after_bit(mode: Mode, bit: &Bit) -> Mode
    ensures { result ≡ spec.after_bit mode bit.now }
{
    match bit {
        Bit::Sum(_, count) => Mode::Arith(*count),
        Bit::Piece(_) | Bit::Escaped(_) | Bit::Single(_) | Bit::Value(_) => inside(mode),
    }
}

fn after_opener(opener: &Opener) -> Mode
    ensures { result ≡ spec.after_opener opener.now }
{
    match opener {
        Opener::Double => Mode::Quotes,
        Opener::Braces { quoted, .. } => Mode::Braces(*quoted),
        Opener::Command | Opener::Backquote => Mode::Command,
        Opener::Arith => Mode::Arith(0),
    }
}

/// How the token after this one is read, which was read in this mode.
pub fn mode_after(mode: Mode, token: &Token) -> Result<Mode, AllocError>
    ensures { IfOk result (λ next. next ≡ spec.mode_after mode token.now) }
{
    match token {
        Token::Operator(op) => Ok(after_op(*op)),
        Token::Part(bit) => Ok(after_bit(mode, bit)),
        Token::Param(_, _) => Ok(inside(mode)),
        Token::Open(opener, _) => Ok(after_opener(opener)),
        Token::End(_, next) | Token::Delimiter(_, _, next) | Token::Verbatim(_, next) =>
            next.clone(),
        Token::Assign(_) => Ok(Mode::Word),
        Token::Redirect(_, _) | Token::Function(_) => Ok(Mode::Arguments),
        Token::Here(_, _) => Ok(Mode::Delimiter),
        Token::Body => Ok(Mode::Body),
    }
}
