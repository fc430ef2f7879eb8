//! How operators and signs are written.

ghost use Rattle.std.specs.Prelude.{◌≡◌};
ghost use Rattle.sh_spell.specs.Layout as spec;

use sh_lexer::{End, Op};
use sh_syntax::{ParamOp, RedirOp};

/// Control operators and reserved words (XCU 2.4, 2.10.2).
pub fn op_text(op: Op) -> &'static [u8]
    ensures { result.now ≡ spec.op_text op }
{
    match op {
        Op::AndIf => b"&&",
        Op::OrIf => b"||",
        Op::Semi => b";",
        Op::DoubleSemi => b";;",
        Op::Pipe => b"|",
        Op::PipePattern => b"|",
        Op::Open => b"(",
        Op::OpenPattern => b"(",
        Op::Close => b")",
        Op::Bang => b"!",
        Op::LeftBrace => b"{",
        Op::RightBrace => b"}",
        Op::Case => b"case",
        Op::Do => b"do",
        Op::Done => b"done",
        Op::Elif => b"elif",
        Op::Else => b"else",
        Op::Esac => b"esac",
        Op::Fi => b"fi",
        Op::For => b"for",
        Op::If => b"if",
        Op::In => b"in",
        Op::CaseIn => b"in",
        Op::Then => b"then",
        Op::Until => b"until",
        Op::While => b"while",
    }
}

/// Redirections (XCU 2.7).
pub fn redir_text(op: RedirOp) -> &'static [u8]
    ensures { result.now ≡ spec.redir_text op }
{
    match op {
        RedirOp::Read => b"<",
        RedirOp::Write => b">",
        RedirOp::Clobber => b">|",
        RedirOp::Append => b">>",
        RedirOp::DupIn => b"<&",
        RedirOp::DupOut => b">&",
        RedirOp::Here => b"<<",
    }
}

/// The descriptor that is meant where none is written (XCU 2.7).
pub fn usual_descriptor(op: RedirOp) -> u8
    ensures { result ≡ spec.usual_descriptor op }
{
    match op {
        RedirOp::Read => 0,
        RedirOp::DupIn => 0,
        RedirOp::Here => 0,
        RedirOp::Write => 1,
        RedirOp::Clobber => 1,
        RedirOp::Append => 1,
        RedirOp::DupOut => 1,
    }
}

/// Operators of parameters (XCU 2.6.2).
pub fn param_op_text(op: ParamOp) -> &'static [u8]
    ensures { result.now ≡ spec.param_op_text op }
{
    match op {
        ParamOp::Value => b"",
        ParamOp::Length => b"",
        ParamOp::Default => b"-",
        ParamOp::Assign => b"=",
        ParamOp::Error => b"?",
        ParamOp::Alternative => b"+",
        ParamOp::SmallSuffix => b"%",
        ParamOp::LargeSuffix => b"%%",
        ParamOp::SmallPrefix => b"#",
        ParamOp::LargePrefix => b"##",
    }
}

/// Ends of words and of what is in them. Those that take no bytes are written as none.
pub fn end_text(end: End) -> &'static [u8]
    ensures { result.now ≡ spec.end_text end }
{
    match end {
        End::Word => b"",
        End::Quote => b"\"",
        End::Brace => b"}",
        End::Arith => b"))",
        End::List => b")",
        End::Text => b"",
        End::Newline => b"\n",
    }
}
