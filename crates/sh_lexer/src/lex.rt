//! One token from the front of a text (POSIX.1-2017, XCU 2.2 and 2.3).

ghost use Rattle.std.specs.Prelude.{◌≡◌, true, false};
ghost use Rattle.sh_lexer.specs.Bytes as bytes;
ghost use Rattle.sh_lexer.specs.Cut as cut;
ghost use Rattle.sh_lexer.specs.Lex as spec;
ghost use Rattle.sh_lexer.specs.declared.token.Mode.TheVariants as mode;
ghost use Rattle.sh_lexer.specs.declared.token.Op.TheVariants as op;
ghost use Rattle.sh_lexer.specs.Lex.{bad};
ghost use Rattle.sh_syntax.specs.declared.fault.Fault.TheVariants.{Unexpected};
ghost use Rattle.sh_lexer.specs.Gives.{Gives};
ghost use Rattle.sh_lexer.specs.Quoting.{escapes, backslash};

use crate::bytes::{
    Class, begins_name, ends_word, has_nul, peel, piece, single, skip, special, stands,
};
use crate::cut::backquoted;
use crate::read::{LexError, Read};
use crate::token::{Bit, End, Mode, Op, Opener, Token};
use hs_text::Text;
use sh_syntax::{Fault, Opening, ParamOp, RedirOp};
use std::alloc::Global;

/// Which bytes a backslash quotes.
#[derive(Clone, Copy, Debug, PartialEq, Eq)]
pub enum Quoting {
    All,
    /// In a here-document and in an arithmetic expression.
    Body,
    Quotes,
    /// In the word of `${x-` in double quotes.
    Braces,
}

/// An end, for which the grammar says how to go on.
pub fn ends(end: End, rest: &[u8]) -> Result<Read<'_>, LexError>
    ensures { Gives result (spec.ends end rest.now) }
{
    Ok(Read::Token(Token::End(end, Mode::Command), rest))
}

pub fn operator(op: Op, rest: &[u8]) -> Result<Read<'_>, LexError>
    ensures { Gives result (spec.operator op rest.now) }
{
    Ok(Read::Token(Token::Operator(op), rest))
}

/// The longest run of bytes of the class.
pub fn plain_text(alloc: Global, class: Class, text: &[u8]) -> Result<Read<'_>, LexError>
    ensures { Gives result (spec.plain_text (bytes.piece (bytes.stands class) text.now)) }
{
    let (bytes, rest) = piece(alloc, class, text)?;
    Ok(Read::Token(Token::Part(Bit::Piece(bytes)), rest))
}

pub fn begins_nul(text: &[u8]) -> bool
    ensures { result ≡ spec.begins_nul text.now }
{
    matches!(text, [0, ..])
}

/// The same where newlines may be in it: no NUL may follow.
fn quoted_text(alloc: Global, class: Class, text: &[u8]) -> Result<Read<'_>, LexError>
    ensures { Gives result (spec.quoted_text (bytes.piece (bytes.stands class) text.now)) }
{
    let (bytes, rest) = piece(alloc, class, text)?;
    if begins_nul(rest) {
        return Err(LexError::Bad(Fault::Nul));
    }
    Ok(Read::Token(Token::Part(Bit::Piece(bytes)), rest))
}

/// A byte that stands for itself though others like it don't.
fn alone(alloc: Global, b: u8, rest: &[u8]) -> Result<Read<'_>, LexError>
    ensures { Gives result (spec.alone b rest.now) }
{
    let bytes = Text::from_slice(alloc, &[b])?;
    Ok(Read::Token(Token::Part(Bit::Piece(bytes)), rest))
}

/// Whether the word of `${x-` is read as in double quotes, in an expansion that is read in this mode.
fn is_quoted(mode: &Mode) -> bool
    ensures { result ≡ spec.is_quoted mode.now }
{
    match mode {
        Mode::Quotes | Mode::Arith(_) | Mode::Body => true,
        Mode::Braces(quoted) => *quoted,
        Mode::Command | Mode::Prefix | Mode::Arguments | Mode::Pattern | Mode::Word => false,
        Mode::Delimiter | Mode::Cut(_) => false,
    }
}

fn braces(
    mode: Mode,
    name: Text,
    op: ParamOp,
    colon: bool,
    quoted: bool,
    rest: &[u8],
) -> Result<Read<'_>, LexError>
    ensures { Gives result (spec.braces mode name op colon quoted rest.now) }
{
    let opener = Opener::Braces {
        name,
        op,
        colon,
        quoted,
    };
    Ok(Read::Token(Token::Open(opener, mode), rest))
}

/// After the `:` of an operator.
fn colon_op(mode: Mode, name: Text, text: &[u8]) -> Result<Read<'_>, LexError>
    ensures { Gives result (spec.colon_op mode name text.now) }
{
    let quoted = is_quoted(&mode);
    match text {
        [] => Err(LexError::Bad(Fault::Unclosed(Opening::Braces))),
        [b'-', rest @ ..] => braces(mode, name, ParamOp::Default, true, quoted, rest),
        [b'=', rest @ ..] => braces(mode, name, ParamOp::Assign, true, quoted, rest),
        [b'?', rest @ ..] => braces(mode, name, ParamOp::Error, true, quoted, rest),
        [b'+', rest @ ..] => braces(mode, name, ParamOp::Alternative, true, quoted, rest),
        [0, ..] => Err(LexError::Bad(Fault::Nul)),
        _ => Err(LexError::Bad(Fault::BadParameter)),
    }
}

/// After a `%` or `#`, which may be doubled.
fn doubled(
    mode: Mode,
    name: Text,
    byte: u8,
    small: ParamOp,
    large: ParamOp,
    text: &[u8],
) -> Result<Read<'_>, LexError>
    ensures { Gives result (spec.doubled mode name byte small large text.now) }
{
    match text {
        [b, rest @ ..] if *b == byte => braces(mode, name, large, false, false, rest),
        _ => braces(mode, name, small, false, false, text),
    }
}

/// After the name in braces.
#[tactic(auto, unfolding(crate::specs::Lex::param_op_at))]
fn param_op(mode: Mode, name: Text, text: &[u8]) -> Result<Read<'_>, LexError>
    ensures { Gives result (spec.param_op_at mode name text.now) }
{
    let quoted = is_quoted(&mode);
    match text {
        [] => Err(LexError::Bad(Fault::Unclosed(Opening::Braces))),
        [b'}', rest @ ..] => Ok(Read::Token(Token::Param(name, false), rest)),
        [b':', rest @ ..] => colon_op(mode, name, peel(rest)),
        [b'-', rest @ ..] => braces(mode, name, ParamOp::Default, false, quoted, rest),
        [b'=', rest @ ..] => braces(mode, name, ParamOp::Assign, false, quoted, rest),
        [b'?', rest @ ..] => braces(mode, name, ParamOp::Error, false, quoted, rest),
        [b'+', rest @ ..] => braces(mode, name, ParamOp::Alternative, false, quoted, rest),
        [b'%', rest @ ..] => doubled(
            mode,
            name,
            b'%',
            ParamOp::SmallSuffix,
            ParamOp::LargeSuffix,
            peel(rest),
        ),
        [b'#', rest @ ..] => doubled(
            mode,
            name,
            b'#',
            ParamOp::SmallPrefix,
            ParamOp::LargePrefix,
            peel(rest),
        ),
        [0, ..] => Err(LexError::Bad(Fault::Nul)),
        _ => Err(LexError::Bad(Fault::BadParameter)),
    }
}

/// After the name in `${#x`.
fn length_end(name: Text, text: &[u8]) -> Result<Read<'_>, LexError>
    ensures { Gives result (spec.length_end name text.now) }
{
    match text {
        [] => Err(LexError::Bad(Fault::Unclosed(Opening::Braces))),
        [b'}', rest @ ..] => Ok(Read::Token(Token::Param(name, true), rest)),
        [0, ..] => Err(LexError::Bad(Fault::Nul)),
        _ => Err(LexError::Bad(Fault::BadParameter)),
    }
}

/// Whether the digits are the number of a positional parameter.
fn positional(digits: &[u8]) -> bool
    ensures { result ≡ spec.positional digits.now }
{
    match digits {
        [] => false,
        [b, ..] => *b != b'0',
    }
}

fn zero_alone(digits: &[u8]) -> bool
    ensures { result ≡ spec.zero_alone digits.now }
{
    matches!(digits, [_])
}

#[tactic(auto, unfolding(crate::specs::Bytes::stands))]
fn length_name(alloc: Global, text: &[u8]) -> Result<Read<'_>, LexError>
    ensures { Gives result (spec.length_name (bytes.piece bytes.in_name text.now)) }
{
    let (name, rest) = piece(alloc, Class::Name, text)?;
    length_end(name, rest)
}

#[tactic(auto, unfolding(crate::specs::Bytes::stands))]
fn length_digits(alloc: Global, text: &[u8]) -> Result<Read<'_>, LexError>
    ensures { Gives result (spec.length_digits (bytes.piece bytes.is_digit text.now)) }
{
    let (digits, rest) = piece(alloc, Class::Digit, text)?;
    if positional(digits.as_slice()) {
        return length_end(digits, rest);
    }
    Err(LexError::Bad(Fault::BadParameter))
}

/// After `${#`: the length of a parameter, or the parameter `#`.
#[tactic(auto, unfolding(crate::specs::Lex::hash))]
fn hash(alloc: Global, mode: Mode, text: &[u8]) -> Result<Read<'_>, LexError>
    ensures { Gives result (spec.hash mode text.now) }
{
    match text {
        [] => Err(LexError::Bad(Fault::Unclosed(Opening::Braces))),
        [b, ..] if begins_name(*b) => length_name(alloc, text),
        [b, ..] if b.is_ascii_digit() => length_digits(alloc, text),
        _ => param_op(mode, Text::from_slice(alloc, b"#")?, text),
    }
}

/// `@`, `*` and `?`
fn special_parameter(b: u8) -> bool
    ensures { result ≡ spec.special_parameter b }
{
    matches!(b, b'@' | b'*' | b'?')
}

#[tactic(auto, unfolding(crate::specs::Bytes::stands))]
fn name_param(alloc: Global, mode: Mode, text: &[u8]) -> Result<Read<'_>, LexError>
    ensures { Gives result (spec.name_param mode (bytes.piece bytes.in_name text.now)) }
{
    let (name, rest) = piece(alloc, Class::Name, text)?;
    param_op(mode, name, rest)
}

#[tactic(auto, unfolding(crate::specs::Bytes::stands))]
fn digits_param(alloc: Global, mode: Mode, text: &[u8]) -> Result<Read<'_>, LexError>
    ensures { Gives result (spec.digits_param mode (bytes.piece bytes.is_digit text.now)) }
{
    let (digits, rest) = piece(alloc, Class::Digit, text)?;
    if positional(digits.as_slice()) || zero_alone(digits.as_slice()) {
        return param_op(mode, digits, rest);
    }
    Err(LexError::Bad(Fault::BadParameter))
}

/// After `${`.
#[tactic(auto, unfolding(crate::specs::Lex::in_braces))]
fn in_braces(alloc: Global, mode: Mode, text: &[u8]) -> Result<Read<'_>, LexError>
    ensures { Gives result (spec.in_braces mode text.now) }
{
    match text {
        [] => Err(LexError::Bad(Fault::Unclosed(Opening::Braces))),
        [b, ..] if begins_name(*b) => name_param(alloc, mode, text),
        [b, ..] if b.is_ascii_digit() => digits_param(alloc, mode, text),
        [b'#', rest @ ..] => hash(alloc, mode, peel(rest)),
        [b, rest @ ..] if special_parameter(*b) => {
            param_op(mode, Text::from_slice(alloc, &[*b])?, peel(rest))
        }
        [0, ..] => Err(LexError::Bad(Fault::Nul)),
        _ => Err(LexError::Bad(Fault::BadParameter)),
    }
}

/// After `$(`.
fn parenthesis(mode: Mode, text: &[u8]) -> Result<Read<'_>, LexError>
    ensures { Gives result (spec.parenthesis mode text.now) }
{
    match text {
        [b'(', rest @ ..] => Ok(Read::Token(Token::Open(Opener::Arith, mode), rest)),
        _ => Ok(Read::Token(Token::Open(Opener::Command, mode), text)),
    }
}

#[tactic(auto, unfolding(crate::specs::Bytes::stands))]
fn value(alloc: Global, text: &[u8]) -> Result<Read<'_>, LexError>
    ensures { Gives result (spec.value (bytes.piece bytes.in_name text.now)) }
{
    let (name, rest) = piece(alloc, Class::Name, text)?;
    Ok(Read::Token(Token::Part(Bit::Value(name)), rest))
}

/// After a `$`, in a word that goes on in this mode.
#[tactic(auto, unfolding(crate::specs::Lex::dollar))]
fn dollar(alloc: Global, mode: Mode, text: &[u8]) -> Result<Read<'_>, LexError>
    ensures { Gives result (spec.dollar mode text.now) }
{
    match text {
        [b'(', rest @ ..] => parenthesis(mode, peel(rest)),
        [b'{', rest @ ..] => in_braces(alloc, mode, peel(rest)),
        [b, ..] if begins_name(*b) => value(alloc, text),
        [b, rest @ ..] if b.is_ascii_digit() || special_parameter(*b) || *b == b'#' => {
            let name = Text::from_slice(alloc, &[*b])?;
            Ok(Read::Token(Token::Part(Bit::Value(name)), rest))
        }
        [b'$' | b'!' | b'-', ..] => Err(LexError::Bad(Fault::BadParameter)),
        _ => alone(alloc, b'$', text),
    }
}

fn escapes(quoting: Quoting, b: u8) -> bool
    ensures { result ≡ escapes quoting b }
{
    match quoting {
        Quoting::All => true,
        Quoting::Body => matches!(b, b'$' | b'\\' | b'`'),
        Quoting::Quotes => matches!(b, b'$' | b'\\' | b'`' | b'"'),
        Quoting::Braces => matches!(b, b'$' | b'\\' | b'`' | b'"' | b'}'),
    }
}

/// After a backslash that quotes each byte.
fn escaped(alloc: Global, text: &[u8]) -> Result<Read<'_>, LexError>
    ensures { Gives result (spec.escaped text.now) }
{
    match text {
        [] => alone(alloc, b'\\', text),
        [0, ..] => Err(LexError::Bad(Fault::Nul)),
        [b, rest @ ..] => Ok(Read::Token(Token::Part(Bit::Escaped(*b)), rest)),
    }
}

/// After a backslash that quotes some bytes.
fn escaped_if(alloc: Global, quoting: Quoting, text: &[u8]) -> Result<Read<'_>, LexError>
    ensures { Gives result (spec.escaped_if (escapes quoting) text.now) }
{
    match text {
        [b, rest @ ..] if escapes(quoting, *b) => {
            Ok(Read::Token(Token::Part(Bit::Escaped(*b)), rest))
        }
        _ => alone(alloc, b'\\', text),
    }
}

fn backslash(alloc: Global, quoting: Quoting, text: &[u8]) -> Result<Read<'_>, LexError>
    ensures { Gives result (backslash quoting text.now) }
{
    match quoting {
        Quoting::All => escaped(alloc, text),
        Quoting::Body | Quoting::Quotes | Quoting::Braces => escaped_if(alloc, quoting, text),
    }
}

fn backquote(alloc: Global, mode: Mode, text: &[u8]) -> Result<Read<'_>, LexError>
    ensures { Gives result (spec.backquote mode (cut.backquoted text.now)) }
{
    let (inside, rest) = backquoted(alloc, text)?;
    Ok(Read::Cut(Token::Open(Opener::Backquote, mode), inside, rest))
}

/// A byte that stands for itself in single quotes alone, and the text after it.
#[tactic(auto, unfolding(crate::specs::Lex::special_at))]
pub fn special_at(
    alloc: Global,
    mode: Mode,
    quoting: Quoting,
    b: u8,
    rest: &[u8],
) -> Result<Read<'_>, LexError>
    ensures { Gives result (spec.special_at mode (backslash quoting) b rest.now) }
{
    match b {
        b'$' => dollar(alloc, mode, peel(rest)),
        b'`' => backquote(alloc, mode, rest),
        b'\\' => backslash(alloc, quoting, rest),
        _ => Err(LexError::Bad(Fault::Nul)),
    }
}

fn word_special(alloc: Global, mode: Mode, b: u8, rest: &[u8]) -> Result<Read<'_>, LexError>
    ensures { Gives result (spec.special_at mode spec.escaped b rest.now) }
{
    special_at(alloc, mode, Quoting::All, b, rest)
}

fn quotes_special(alloc: Global, b: u8, rest: &[u8]) -> Result<Read<'_>, LexError>
    ensures { Gives result (spec.special_at mode.Quotes (spec.escaped_if spec.quotes_escapable) b rest.now) }
{
    special_at(alloc, Mode::Quotes, Quoting::Quotes, b, rest)
}

fn braces_special(alloc: Global, b: u8, rest: &[u8]) -> Result<Read<'_>, LexError>
    ensures { Gives result (spec.special_at (mode.Braces true) (spec.escaped_if spec.braces_escapable) b rest.now) }
{
    special_at(alloc, Mode::Braces(true), Quoting::Braces, b, rest)
}

fn body_special(alloc: Global, b: u8, rest: &[u8]) -> Result<Read<'_>, LexError>
    ensures { Gives result (spec.special_at mode.Body (spec.escaped_if spec.escapable) b rest.now) }
{
    special_at(alloc, Mode::Body, Quoting::Body, b, rest)
}

#[tactic(auto, unfolding(crate::specs::Bytes::stands))]
fn quotes_text(alloc: Global, text: &[u8]) -> Result<Read<'_>, LexError>
    ensures { Gives result (spec.quoted_text (bytes.piece bytes.quoted_plain text.now)) }
{
    quoted_text(alloc, Class::Quoted, text)
}

#[tactic(auto, unfolding(crate::specs::Bytes::stands))]
fn braces_text(alloc: Global, text: &[u8]) -> Result<Read<'_>, LexError>
    ensures { Gives result (spec.quoted_text (bytes.piece bytes.quoted_braces_plain text.now)) }
{
    quoted_text(alloc, Class::QuotedBraces, text)
}

#[tactic(auto, unfolding(crate::specs::Bytes::stands))]
fn body_text(alloc: Global, text: &[u8]) -> Result<Read<'_>, LexError>
    ensures { Gives result (spec.quoted_text (bytes.piece bytes.body_plain text.now)) }
{
    quoted_text(alloc, Class::Body, text)
}

/// After a single quote.
fn single_text(alloc: Global, text: &[u8]) -> Result<Read<'_>, LexError>
    ensures { Gives result (spec.single_text (bytes.single text.now)) }
{
    let Some((inside, rest)) = single(alloc, text)? else {
        return Err(LexError::Bad(Fault::Unclosed(Opening::Single)));
    };
    if has_nul(inside.as_slice()) {
        return Err(LexError::Bad(Fault::Nul));
    }
    Ok(Read::Token(Token::Part(Bit::Single(inside)), rest))
}

/// The longest run of bytes of the class, where there is one.
#[tactic(auto, unfolding(crate::specs::Lex::text_if))]
fn text_if(alloc: Global, class: Class, text: &[u8]) -> Result<Read<'_>, LexError>
    ensures { Gives result (spec.text_if (bytes.stands class) text.now) }
{
    match text {
        [b, ..] if stands(class, *b) => quoted_text(alloc, class, text),
        _ => Err(LexError::Bad(Fault::Unexpected)),
    }
}

/// A part of a word, where quotes quote. Other bytes are of the class.
#[tactic(auto, unfolding(crate::specs::Lex::bit_at))]
fn bit_at(alloc: Global, mode: Mode, class: Class, text: &[u8]) -> Result<Read<'_>, LexError>
    ensures { Gives result (spec.bit_at mode (bytes.stands class) text.now) }
{
    match text {
        [b, rest @ ..] if special(*b) => word_special(alloc, mode, *b, rest),
        [b'\'', rest @ ..] => single_text(alloc, rest),
        [b'"', rest @ ..] => Ok(Read::Token(Token::Open(Opener::Double, mode), rest)),
        [] => Err(LexError::Bad(Fault::Unexpected)),
        [_, ..] => text_if(alloc, class, text),
    }
}

#[tactic(auto, unfolding(crate::specs::Bytes::stands))]
pub fn word_bit(alloc: Global, text: &[u8]) -> Result<Read<'_>, LexError>
    ensures { Gives result (spec.bit_at mode.Word bytes.plain text.now) }
{
    bit_at(alloc, Mode::Word, Class::Plain, text)
}

#[tactic(auto, unfolding(crate::specs::Bytes::stands))]
fn braces_bit(alloc: Global, text: &[u8]) -> Result<Read<'_>, LexError>
    ensures { Gives result (spec.bit_at (mode.Braces false) bytes.braces_plain text.now) }
{
    bit_at(alloc, Mode::Braces(false), Class::Braces, text)
}

#[tactic(auto, unfolding(crate::specs::Lex::in_word))]
pub fn in_word(alloc: Global, text: &[u8]) -> Result<Read<'_>, LexError>
    ensures { Gives result (spec.in_word text.now) }
{
    if ends_word(text) {
        return ends(End::Word, text);
    }
    word_bit(alloc, text)
}

#[tactic(auto, unfolding(crate::specs::Lex::in_quotes))]
pub fn in_quotes(alloc: Global, text: &[u8]) -> Result<Read<'_>, LexError>
    ensures { Gives result (spec.in_quotes text.now) }
{
    match text {
        [] => Err(LexError::End),
        [b, rest @ ..] if special(*b) => quotes_special(alloc, *b, rest),
        [b'"', rest @ ..] => ends(End::Quote, rest),
        _ => quotes_text(alloc, text),
    }
}

/// The word of `${x-`.
#[tactic(auto, unfolding(crate::specs::Lex::in_plain_braces))]
pub fn in_plain_braces(alloc: Global, text: &[u8]) -> Result<Read<'_>, LexError>
    ensures { Gives result (spec.in_plain_braces text.now) }
{
    match text {
        [] => Err(LexError::End),
        [b'}', rest @ ..] => ends(End::Brace, rest),
        _ => braces_bit(alloc, text),
    }
}

/// The same, in double quotes.
#[tactic(auto, unfolding(crate::specs::Lex::in_quoted_braces))]
pub fn in_quoted_braces(alloc: Global, text: &[u8]) -> Result<Read<'_>, LexError>
    ensures { Gives result (spec.in_quoted_braces text.now) }
{
    match text {
        [] => Err(LexError::End),
        [b, rest @ ..] if special(*b) => braces_special(alloc, *b, rest),
        [b'}', rest @ ..] => ends(End::Brace, rest),
        [b'"', rest @ ..] => {
            let opener = Token::Open(Opener::Double, Mode::Braces(true));
            Ok(Read::Token(opener, rest))
        }
        _ => braces_text(alloc, text),
    }
}

#[tactic(auto, unfolding(crate::specs::Lex::in_body))]
pub fn in_body(alloc: Global, text: &[u8]) -> Result<Read<'_>, LexError>
    ensures { Gives result (spec.in_body text.now) }
{
    match text {
        [] => Err(LexError::End),
        [b, rest @ ..] if special(*b) => body_special(alloc, *b, rest),
        _ => body_text(alloc, text),
    }
}

fn redirect(fd: u8, op: RedirOp, rest: &[u8]) -> Result<Read<'_>, LexError>
    ensures { Gives result (spec.redirect fd op rest.now) }
{
    Ok(Read::Token(Token::Redirect(fd, op), rest))
}

/// After `<<`.
fn here(fd: u8, text: &[u8]) -> Result<Read<'_>, LexError>
    ensures { Gives result (spec.here fd text.now) }
{
    match text {
        [b'-', rest @ ..] => Ok(Read::Token(Token::Here(fd, true), rest)),
        _ => Ok(Read::Token(Token::Here(fd, false), text)),
    }
}

/// After `<`.
#[tactic(auto, unfolding(crate::specs::Lex::less))]
pub fn less(fd: u8, text: &[u8]) -> Result<Read<'_>, LexError>
    ensures { Gives result (spec.less fd text.now) }
{
    match text {
        [b'<', rest @ ..] => here(fd, peel(rest)),
        [b'&', rest @ ..] => redirect(fd, RedirOp::DupIn, rest),
        [b'>', ..] => Err(LexError::Bad(Fault::Unexpected)),
        _ => redirect(fd, RedirOp::Read, text),
    }
}

/// After `>`.
#[tactic(auto, unfolding(crate::specs::Lex::greater))]
pub fn greater(fd: u8, text: &[u8]) -> Result<Read<'_>, LexError>
    ensures { Gives result (spec.greater fd text.now) }
{
    match text {
        [b'>', rest @ ..] => redirect(fd, RedirOp::Append, rest),
        [b'&', rest @ ..] => redirect(fd, RedirOp::DupOut, rest),
        [b'|', rest @ ..] => redirect(fd, RedirOp::Clobber, rest),
        _ => redirect(fd, RedirOp::Write, text),
    }
}

/// After `;`.
pub fn semi(text: &[u8]) -> Result<Read<'_>, LexError>
    ensures { Gives result (spec.two 59 (spec.operator op.Semi text.now) op.DoubleSemi text.now) }
{
    match text {
        [b';', rest @ ..] => operator(Op::DoubleSemi, rest),
        _ => operator(Op::Semi, text),
    }
}

/// After `&`.
pub fn ampersand(text: &[u8]) -> Result<Read<'_>, LexError>
    ensures { Gives result (spec.two 38 (bad Unexpected) op.AndIf text.now) }
{
    match text {
        [b'&', rest @ ..] => operator(Op::AndIf, rest),
        _ => Err(LexError::Bad(Fault::Unexpected)),
    }
}

/// After `|`.
pub fn bar(text: &[u8]) -> Result<Read<'_>, LexError>
    ensures { Gives result (spec.two 124 (spec.operator op.Pipe text.now) op.OrIf text.now) }
{
    match text {
        [b'|', rest @ ..] => operator(Op::OrIf, rest),
        _ => operator(Op::Pipe, text),
    }
}

pub fn opens_parenthesis(text: &[u8]) -> bool
    ensures { result ≡ spec.opens_parenthesis text.now }
{
    matches!(text, [b'(', ..])
}

pub fn special_builtin(word: &[u8]) -> bool
    ensures { result ≡ spec.special_builtin word.now }
{
    word == b":".as_slice()
        || word == b"break".as_slice()
        || word == b"continue".as_slice()
        || word == b"exit".as_slice()
        || word == b"export".as_slice()
        || word == b"readonly".as_slice()
        || word == b"return".as_slice()
        || word == b"set".as_slice()
        || word == b"shift".as_slice()
        || word == b"unset".as_slice()
}
