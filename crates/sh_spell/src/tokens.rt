//! One token in front of a text, and all of them.

ghost use Rattle.std.specs.Prelude.{◌≡◌, ℕ, [], ◌∷◌, ◌++◌, List, IfOk, OnOk};
ghost use Rattle.sh_syntax.specs.declared.tree.Script.{Script};
ghost use Rattle.sh_lexer.specs.declared.token.Mode.TheVariants as mode;
ghost use Rattle.sh_lexer.specs.Lexes.{Lexes, source};
ghost use Rattle.sh_grammar.specs.Grammar.{Parses};
ghost use Rattle.sh_grammar.specs.Spells.{Spells};
ghost use Rattle.sh_spell.specs.Layout as spec;
ghost use Rattle.sh_spell.specs.Tidy.{HasNoHere};

use crate::back::Back;
use crate::names::{end_text, op_text, param_op_text, redir_text, usual_descriptor};
use crate::sheet::Sheet;
use hs_text::Text;
use sh_lexer::{Bit, End, Opener, Token};
use sh_syntax::{ParamOp, RedirOp};
use std::alloc::{AllocError, Global};

/// The tokens as a text. Where they are those of any text that spells a script, and no here-document is among them, the text
/// spells this script too. It is written in time linear in its length, but that what stands in backquotes is copied once for
/// each backquote round it. The error is want of memory.
pub fn spell_tokens(alloc: Global, tokens: &[Token]) -> Result<Text, AllocError>
    ensures written { IfOk result (λ text. text ≡ (spec.source_of tokens.now).text) }
    ensures spells { IfOk result (λ text. (script : Script) (other : List ℕ) → Lexes mode.Command (source other []) tokens.now → Parses script tokens.now → HasNoHere tokens.now → Spells script text) }
{
    let mut sheet = Sheet::new(alloc);
    let mut left = tokens;
    'tokens: while let Some((last, rest)) = left.split_last() {
        sheet.put(alloc, last)?;
        left = rest;
    }
    sheet.into_text()
}

/// Writes a token that stands in the text, before what is written.
pub fn write_token(out: &mut Back, token: &Token) -> Result<(), AllocError>
    ensures { OnOk result (out.new ≡ spec.written token.now out.old) }
{
    match token {
        Token::Operator(op) => write_word(out, op_text(*op)),
        Token::Part(bit) => write_bit(out, bit),
        Token::Param(name, length) => write_param(out, name, *length),
        Token::Open(opener, _) => write_opener(out, opener),
        Token::End(end, _) => write_end(out, *end),
        Token::Assign(name) => write_assign(out, name),
        Token::Redirect(fd, op) => write_redirect(out, *fd, *op),
        Token::Here(fd, strip) => write_here(out, *fd, *strip),
        Token::Delimiter(_, _, _) => Ok(()),
        Token::Body => Ok(()),
        Token::Verbatim(_, _) => Ok(()),
        Token::Function(name) => write_word(out, name.as_slice()),
    }
}

/// With a blank behind it.
fn write_word(out: &mut Back, bytes: &[u8]) -> Result<(), AllocError>
    ensures { OnOk result (out.new ≡ bytes.now ++ 32 ∷ out.old) }
{
    out.put(b' ')?;
    out.put_all(bytes)
}

fn write_bit(out: &mut Back, bit: &Bit) -> Result<(), AllocError>
    ensures { OnOk result (out.new ≡ spec.bit_text bit.now ++ out.old) }
{
    match bit {
        Bit::Piece(bytes) => out.put_all(bytes.as_slice()),
        Bit::Sum(bytes, _) => out.put_all(bytes.as_slice()),
        Bit::Escaped(byte) => {
            out.put(*byte)?;
            out.put(b'\\')
        }
        Bit::Single(bytes) => {
            out.put(b'\'')?;
            out.put_all(bytes.as_slice())?;
            out.put(b'\'')
        }
        Bit::Value(name) => {
            out.put_all(name.as_slice())?;
            out.put(b'$')
        }
    }
}

/// In braces.
pub fn write_param(out: &mut Back, name: &Text, length: bool) -> Result<(), AllocError>
    ensures { OnOk result (out.new ≡ spec.param_text name.now length ++ out.old) }
{
    out.put(b'}')?;
    out.put_all(name.as_slice())?;
    if length {
        out.put_all(b"${#")
    } else {
        out.put_all(b"${")
    }
}

/// The operator in braces.
fn write_param_op(out: &mut Back, colon: bool, op: ParamOp) -> Result<(), AllocError>
    ensures { OnOk result (out.new ≡ (spec.colon_text colon ++ spec.param_op_text op) ++ out.old) }
{
    out.put_all(param_op_text(op))?;
    if colon { out.put(b':') } else { Ok(()) }
}

fn write_opener(out: &mut Back, opener: &Opener) -> Result<(), AllocError>
    ensures { OnOk result (out.new ≡ spec.opener_text opener.now ++ spec.opener_left opener.now out.old) }
{
    match opener {
        Opener::Double => out.put(b'"'),
        Opener::Braces {
            name,
            op,
            colon,
            ..
        } => {
            write_param_op(out, *colon, *op)?;
            out.put_all(name.as_slice())?;
            out.put_all(b"${")
        }
        Opener::Command => write_word(out, b"$("),
        Opener::Arith => out.put_all(b"$(("),
        Opener::Backquote => out.put(b'`'),
    }
}

/// A blank, unless nothing is behind it.
fn write_gap(out: &mut Back) -> Result<(), AllocError>
    ensures { OnOk result (out.new ≡ spec.gap out.old) }
{
    if out.is_empty() {
        Ok(())
    } else {
        out.put(b' ')
    }
}

fn write_end(out: &mut Back, end: End) -> Result<(), AllocError>
    ensures { OnOk result (out.new ≡ spec.end_text end ++ spec.end_left end out.old) }
{
    match end {
        End::Word => write_gap(out),
        End::Quote => out.put_all(end_text(end)),
        End::Brace => out.put_all(end_text(end)),
        End::Arith => out.put_all(end_text(end)),
        End::List => out.put_all(end_text(end)),
        End::Text => out.put_all(end_text(end)),
        End::Newline => out.put_all(end_text(end)),
    }
}

fn write_assign(out: &mut Back, name: &Text) -> Result<(), AllocError>
    ensures { OnOk result (out.new ≡ (name.now ++ 61 ∷ []) ++ out.old) }
{
    out.put(b'=')?;
    out.put_all(name.as_slice())
}

/// The digit of a descriptor.
fn digit(fd: u8) -> u8
    ensures { result ≡ spec.digit_of fd }
{
    match fd {
        0 => b'0',
        1 => b'1',
        _ => b'2',
    }
}

fn write_descriptor(out: &mut Back, fd: u8, op: RedirOp) -> Result<(), AllocError>
    ensures { OnOk result (out.new ≡ spec.descriptor_text fd op ++ out.old) }
{
    if fd == usual_descriptor(op) {
        Ok(())
    } else {
        out.put(digit(fd))
    }
}

fn write_redirect(out: &mut Back, fd: u8, op: RedirOp) -> Result<(), AllocError>
    ensures { OnOk result (out.new ≡ (spec.descriptor_text fd op ++ spec.redir_text op) ++ 32 ∷ out.old) }
{
    write_word(out, redir_text(op))?;
    write_descriptor(out, fd, op)
}

fn here_text(strip: bool) -> &'static [u8]
    ensures { result.now ≡ spec.here_text strip }
{
    if strip { b"<<-" } else { b"<<" }
}

fn write_here(out: &mut Back, fd: u8, strip: bool) -> Result<(), AllocError>
    ensures { OnOk result (out.new ≡ (spec.descriptor_text fd RedirOp.Here ++ spec.here_text strip) ++ 32 ∷ out.old) }
{
    write_word(out, here_text(strip))?;
    write_descriptor(out, fd, RedirOp::Here)
}
