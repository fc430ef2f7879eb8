//! Numbers in the words of `printf` (POSIX.1-2017, XCU, `printf`).

ghost use Rattle.std.specs.Prelude.{◌≡◌, ◌∷◌, IfOk, string_bytes};
ghost use Rattle.util_print.specs.Numerals as spec;

use crate::format::Style;
use crate::pieces::{behind_bytes, worth};
use std::alloc::{AllocError, Global};

/// What a word writes as a number.
#[derive(Clone, Copy)]
pub struct Numeral {
    pub negative: bool,
    pub magnitude: u64,
    /// Whether the word is this number, and nothing else.
    pub whole: bool,
}

/// The number with a digit more, where that is a digit of the radix, and the number no greater than `most`.
fn with_digit(radix: u64, most: u64, number: u64, byte: u8) -> Option<u64>
    ensures { result ≡ spec.with_digit radix most number byte }
{
    let digit = u64::from(worth(byte));
    if digit >= radix {
        return None;
    }
    let next = number.checked_mul(radix)?.checked_add(digit)?;
    if next <= most { Some(next) } else { None }
}

/// The number that the first digits write, as long as it is no greater than `most`, and whether they are all.
fn leading(radix: u64, most: u64, digits: &[u8]) -> (u64, bool)
    ensures { result ≡ spec.leading radix most 0 digits.now }
{
    let mut number = 0;
    'digits: for byte in digits {
        match with_digit(radix, most, number, *byte) {
            Some(next) => number = next,
            None => return (number, false),
        }
    }
    (number, true)
}

/// What a word that writes no number has.
fn no_numeral() -> Numeral
    ensures { result ≡ spec.no_numeral }
{
    Numeral {
        negative: false,
        magnitude: 0,
        whole: false,
    }
}

/// The number of these digits.
fn numeral_in(negative: bool, radix: u64, most: u64, digits: &[u8]) -> Numeral
    ensures { result ≡ spec.numeral_of negative (spec.leading radix most 0 digits.now) }
{
    let (magnitude, whole) = leading(radix, most, digits);
    Numeral {
        negative,
        magnitude,
        whole,
    }
}

fn starts_with_zero(text: &[u8]) -> bool
    ensures { result ≡ spec.starts spec.is_zero text.now }
{
    match text {
        [] => false,
        [first, ..] => *first == b'0',
    }
}

fn starts_with_x(text: &[u8]) -> bool
    ensures { result ≡ spec.starts spec.is_x text.now }
{
    match text {
        [] => false,
        [first, ..] => *first == b'x' || *first == b'X',
    }
}

fn starts_with_digit(radix: u8, text: &[u8]) -> bool
    ensures { result ≡ spec.starts (spec.is_digit radix) text.now }
{
    match text {
        [] => false,
        [first, ..] => worth(*first) < radix,
    }
}

/// Whether a text begins with `0x` and a digit.
fn is_hex(text: &[u8]) -> bool
    ensures { result ≡ spec.is_hex text.now }
{
    starts_with_zero(text)
        && starts_with_x(behind_bytes(text, 1))
        && starts_with_digit(16, behind_bytes(text, 2))
}

/// The number that a C constant writes at the start of a text.
fn constant(negative: bool, most: u64, text: &[u8]) -> Numeral
    ensures { result ≡ spec.constant negative most text.now }
{
    if is_hex(text) {
        numeral_in(negative, 16, most, behind_bytes(text, 2))
    } else if starts_with_zero(text) {
        numeral_in(negative, 8, most, text)
    } else if starts_with_digit(10, text) {
        numeral_in(negative, 10, most, text)
    } else {
        no_numeral()
    }
}

/// The greatest magnitude of a number of 64 bits.
fn most(signed: bool, negative: bool) -> u64
    ensures { result ≡ spec.most signed negative }
{
    if !signed {
        0xffff_ffff_ffff_ffff
    } else if negative {
        0x8000_0000_0000_0000
    } else {
        0x7fff_ffff_ffff_ffff
    }
}

/// The number of a text that begins with this byte, and has these behind it.
fn by_sign(signed: bool, first: u8, rest: &[u8], text: &[u8]) -> Numeral
    requires { text.now ≡ first ∷ rest.now }
    ensures { result ≡ spec.by_sign signed first rest.now }
{
    match first {
        b'-' => constant(true, most(signed, true), rest),
        b'+' => constant(false, most(signed, false), rest),
        _ => constant(false, most(signed, false), text),
    }
}

fn is_empty(text: &[u8]) -> bool
    ensures { result ≡ spec.is_empty text.now }
{
    matches!(text, [])
}

/// The number of the byte behind a quote.
fn quoted(text: &[u8]) -> Numeral
    ensures { result ≡ spec.quoted text.now }
{
    match text {
        [] => no_numeral(),
        [byte, rest @ ..] => Numeral {
            negative: false,
            magnitude: u64::from(*byte),
            whole: is_empty(rest),
        },
    }
}

fn is_quote(byte: u8) -> bool
    ensures { result ≡ spec.is_quote byte }
{
    byte == b'\'' || byte == b'"'
}

/// The number that a word writes: that of its longest part from the start which is a number, and 0 where there is none.
pub fn read_numeral(signed: bool, word: &[u8]) -> Numeral
    ensures { result ≡ spec.numeral signed word.now }
{
    match word {
        [] => no_numeral(),
        [first, rest @ ..] => {
            if is_quote(*first) {
                quoted(rest)
            } else {
                by_sign(signed, *first, rest, word)
            }
        }
    }
}

/// The number modulo 2^64.
fn modular(numeral: &Numeral) -> u64
    ensures { result ≡ spec.modular numeral.now }
{
    if numeral.negative {
        numeral.magnitude.wrapping_neg()
    } else {
        numeral.magnitude
    }
}

/// Whether numbers are written with a sign.
pub fn is_signed(style: Style) -> bool
    ensures { result ≡ spec.is_signed style }
{
    matches!(style, Style::Signed)
}

/// The digits of a number.
pub fn digits_in(alloc: Global, style: Style, numeral: &Numeral) -> Result<String, AllocError>
    ensures { IfOk result (λ text. string_bytes text ≡ spec.digits_in style numeral.now) }
{
    let magnitude = numeral.magnitude;
    let modular = modular(numeral);
    match style {
        Style::Signed => format!(in alloc; "{magnitude}"),
        Style::Unsigned => format!(in alloc; "{modular}"),
        Style::Octal => format!(in alloc; "{modular:o}"),
        Style::Hex => format!(in alloc; "{modular:x}"),
        Style::UpperHex => format!(in alloc; "{modular:X}"),
    }
}

/// Whether a number is written with a minus.
fn has_sign(style: Style, numeral: &Numeral) -> bool
    ensures { result ≡ spec.has_sign style numeral.now }
{
    is_signed(style) && numeral.negative && numeral.magnitude != 0
}

/// The sign of a number that is written.
pub fn sign_in(style: Style, numeral: &Numeral) -> &'static [u8]
    ensures { result.now ≡ spec.sign_in style numeral.now }
{
    if has_sign(style, numeral) { b"-" } else { b"" }
}
