//! How a token is read follows from the one before it and from how that was read.

ghost use Rattle.std.specs.Prelude.{◌≡◌, IfOk};
ghost use Rattle.sh_lexer.specs.Modes as spec;

use crate::modes::copy_mode;
use sh_lexer::{Bit, Mode, Op, Opener, Token};
use std::alloc::AllocError;

/// How a word goes on that began in this mode.
fn inside(mode: Mode) -> Mode
    ensures { result ≡ spec.inside mode }
{
    match mode {
        Mode::Command | Mode::Prefix | Mode::Arguments | Mode::Pattern | Mode::Delimiter =>
            Mode::Word,
        _ => mode,
    }
}

fn after_op(op: Op) -> Mode
    ensures { result ≡ spec.after_op op }
{
    match op {
        Op::Case | Op::For | Op::In | Op::PipePattern => Mode::Arguments,
        Op::DoubleSemi | Op::CaseIn | Op::OpenPattern => Mode::Pattern,
        _ => Mode::Command,
    }
}

fn after_bit(mode: Mode, bit: &Bit) -> Mode
    ensures { result ≡ spec.after_bit mode bit.now }
{
    match bit {
        Bit::Sum(_, open) => Mode::Arith(*open),
        _ => inside(mode),
    }
}

fn after_opener(opener: &Opener) -> Mode
    ensures { result ≡ spec.after_opener opener.now }
{
    match opener {
        Opener::Double => Mode::Quotes,
        Opener::Braces { quoted, .. } => Mode::Braces(*quoted),
        Opener::Command => Mode::Command,
        Opener::Arith => Mode::Arith(0),
        Opener::Backquote => Mode::Command,
    }
}

/// How the token after this one is read, where this one was read in the mode (POSIX.1-2017, XCU 2.3).
pub fn mode_after(mode: Mode, token: &Token) -> Result<Mode, AllocError>
    ensures { IfOk result (λ m. m ≡ spec.mode_after mode token.now) }
{
    match token {
        Token::Operator(op) => Ok(after_op(*op)),
        Token::Part(bit) => Ok(after_bit(mode, bit)),
        Token::Param(..) => Ok(inside(mode)),
        Token::Open(opener, _) => Ok(after_opener(opener)),
        Token::End(_, next) => copy_mode(next),
        Token::Assign(_) => Ok(Mode::Word),
        Token::Redirect(..) => Ok(Mode::Arguments),
        Token::Here(..) => Ok(Mode::Delimiter),
        Token::Delimiter(_, _, next) => copy_mode(next),
        Token::Body => Ok(Mode::Body),
        Token::Verbatim(_, next) => copy_mode(next),
        Token::Function(_) => Ok(Mode::Arguments),
    }
}
