//! Formats of `printf` (POSIX.1-2017, XBD 5 and XCU, `printf`).

ghost use Rattle.std.specs.Prelude.{◌≡◌, ◌≤◌, ◌<◌, ◌+◌, ◌%◌, ◌^◌, [], ◌∷◌, ◌++◌, length, option_map, IfOk, OnOk};
ghost use Rattle.std.specs.Char.{is_ascii_digit};
ghost use Rattle.std.specs.List.{prefix_len};
ghost use Rattle.util_print.specs.Formats as spec;

use crate::pieces::{behind_bytes, first_bytes, worth};
use std::alloc::{AllocError, Global};

/// How a number is written.
#[derive(Clone, Copy)]
pub enum Style {
    /// Decimal, with its sign.
    Signed,
    /// Decimal, modulo 2^64, as in all that follow.
    Unsigned,
    Octal,
    Hex,
    UpperHex,
}

/// What is written for a word.
#[derive(Clone, Copy)]
pub enum Conversion {
    /// The word itself.
    Word,
    /// Its first byte.
    Byte,
    /// The number that it writes.
    Number(Style),
}

/// How a word is written.
#[derive(Clone, Copy)]
pub struct Directive {
    /// Whether spaces are filled in at the right.
    pub left: bool,
    /// Whether a number is filled with zeros at the left.
    pub zeros: bool,
    /// The least number of bytes.
    pub width: usize,
    /// The most bytes of the word.
    pub precision: Option<usize>,
    pub conversion: Conversion,
}

/// A part of a format.
#[derive(Clone, Copy)]
pub enum Part {
    /// A byte that is written as it is.
    Plain(u8),
    /// A word that is written.
    Shown(Directive),
}

/// The number that digits of this radix write, or the greatest count where it is greater.
fn count(digits: &[u8], radix: usize) -> usize
    requires { 1 ≤ radix }
    ensures { result ≡ spec.count radix digits.now }
{
    let mut count: usize = 0;
    'digits: for digit in digits {
        count = count
            .saturating_mul(radix)
            .saturating_add(usize::from(worth(*digit)));
    }
    count
}

/// The byte that a letter behind a backslash stands for.
fn letter(byte: u8) -> Option<u8>
    ensures { result ≡ spec.letter byte }
{
    match byte {
        b'\\' => Some(b'\\'),
        b'a' => Some(7),
        b'b' => Some(8),
        b'f' => Some(12),
        b'n' => Some(10),
        b'r' => Some(13),
        b't' => Some(9),
        b'v' => Some(11),
        _ => None,
    }
}

fn is_octal(byte: u8) -> bool
    ensures { result ≡ spec.is_octal byte }
{
    matches!(byte, b'0'..=b'7')
}

/// How many octal digits come first.
fn octal_len(text: &[u8]) -> usize
    ensures count { result ≡ prefix_len spec.is_octal text.now }
    ensures within { result ≤ length text.now }
{
    text.iter().take_while(|byte| is_octal(**byte)).count()
}

/// The octal digits that come first, three at most.
fn octal_digits(text: &[u8]) -> &[u8]
    ensures { result.now ≡ spec.octal_digits text.now }
{
    let front = first_bytes(text, 3);
    front.split_at(octal_len(front)).0
}

fn lettered(byte: Option<u8>) -> Option<(Part, usize)>
    ensures { result ≡ spec.lettered byte }
{
    match byte {
        Some(byte) => Some((Part::Plain(byte), 1)),
        None => None,
    }
}

/// The part that a letter behind a backslash makes, and how many bytes that has.
fn by_letter(text: &[u8]) -> Option<(Part, usize)>
    ensures { result ≡ spec.by_letter text.now }
{
    match text {
        [] => None,
        [first, ..] => lettered(letter(*first)),
    }
}

/// The byte that an octal number stands for.
fn octal(digits: &[u8]) -> u8
    ensures { result ≡ spec.count 8 digits.now % 256 }
{
    (count(digits, 8) % 256) as u8
}

/// The part that octal digits make, or where there are none the letter of the text.
fn by_digits(digits: &[u8], text: &[u8]) -> Option<(Part, usize)>
    ensures { result ≡ spec.by_digits digits.now text.now }
{
    match digits {
        [] => by_letter(text),
        [_, ..] => Some((Part::Plain(octal(digits)), digits.len())),
    }
}

/// The part that an escape is, by what stands behind its backslash, and how many bytes of that belong to it.
fn escape(text: &[u8]) -> Option<(Part, usize)>
    ensures { result ≡ spec.escape text.now }
{
    by_digits(octal_digits(text), text)
}

fn read_conversion(byte: u8) -> Option<Conversion>
    ensures { result ≡ spec.conversion byte }
{
    match byte {
        b's' => Some(Conversion::Word),
        b'c' => Some(Conversion::Byte),
        b'd' => Some(Conversion::Number(Style::Signed)),
        b'i' => Some(Conversion::Number(Style::Signed)),
        b'u' => Some(Conversion::Number(Style::Unsigned)),
        b'o' => Some(Conversion::Number(Style::Octal)),
        b'x' => Some(Conversion::Number(Style::Hex)),
        b'X' => Some(Conversion::Number(Style::UpperHex)),
        _ => None,
    }
}

fn conversion_at(text: &[u8]) -> Option<Conversion>
    ensures { result ≡ spec.conversion_at text.now }
{
    match text {
        [] => None,
        [first, ..] => read_conversion(*first),
    }
}

fn is_flag(byte: u8) -> bool
    ensures { result ≡ spec.is_flag byte }
{
    byte == b'-' || byte == b'0'
}

/// How many flags come first.
fn flags_len(text: &[u8]) -> usize
    ensures count { result ≡ prefix_len spec.is_flag text.now }
    ensures within { result ≤ length text.now }
{
    text.iter().take_while(|byte| is_flag(**byte)).count()
}

fn has_flag(flags: &[u8], flag: u8) -> bool
    ensures { result ≡ spec.has_flag flag flags.now }
{
    flags.iter().any(|byte| *byte == flag)
}

/// How many decimal digits come first.
fn digits_len(text: &[u8]) -> usize
    ensures count { result ≡ prefix_len is_ascii_digit text.now }
    ensures within { result ≤ length text.now }
{
    text.iter().take_while(|byte| byte.is_ascii_digit()).count()
}

/// The decimal digits that come first.
fn digits_at(text: &[u8]) -> &[u8]
    ensures { result.now ≡ spec.digits_at text.now }
{
    text.split_at(digits_len(text)).0
}

/// The point and the digits at the start of a text, as a most number of bytes.
fn precision(text: &[u8]) -> Option<usize>
    ensures { result ≡ spec.precision text.now }
{
    match text {
        [] => None,
        [first, rest @ ..] => {
            if *first == b'.' {
                Some(count(digits_at(rest), 10))
            } else {
                None
            }
        }
    }
}

/// How many bytes those have.
fn precision_len(text: &[u8]) -> usize
    ensures count { result ≡ spec.precision_len text.now }
    ensures within { result ≤ length text.now }
{
    match text {
        [] => 0,
        [first, rest @ ..] => {
            if *first == b'.' {
                1 + digits_len(rest)
            } else {
                0
            }
        }
    }
}

fn is_word(conversion: Conversion) -> bool
    ensures { result ≡ spec.is_word conversion }
{
    matches!(conversion, Conversion::Word)
}

/// Whether the conversion may have this precision.
fn takes_precision(precision: Option<usize>, conversion: Conversion) -> bool
    ensures { result ≡ spec.takes_precision precision conversion }
{
    match precision {
        Some(_) => is_word(conversion),
        None => true,
    }
}

/// Whether a width and a precision may stand there.
fn is_right(width: usize, precision: Option<usize>, conversion: Conversion) -> bool
    ensures { result ≡ spec.is_right width precision conversion }
{
    width <= 100_000 && takes_precision(precision, conversion)
}

fn directive_of(
    flags: &[u8],
    width: usize,
    precision: Option<usize>,
    conversion: Conversion,
) -> Directive
    ensures { result ≡ spec.directive_of flags.now width precision conversion }
{
    Directive {
        left: has_flag(flags, b'-'),
        zeros: has_flag(flags, b'0'),
        width,
        precision,
        conversion,
    }
}

/// The directive of these parts, where they may stand together.
fn checked(
    flags: &[u8],
    width: usize,
    precision: Option<usize>,
    conversion: Option<Conversion>,
) -> Option<Directive>
    ensures { result ≡ spec.checked flags.now width precision conversion }
{
    match conversion {
        Some(conversion) => {
            if is_right(width, precision, conversion) {
                Some(directive_of(flags, width, precision, conversion))
            } else {
                None
            }
        }
        None => None,
    }
}

fn shown_with(len: usize, directive: Option<Directive>) -> Option<(Part, usize)>
    ensures { result ≡ spec.shown_with len directive }
{
    match directive {
        Some(directive) => Some((Part::Shown(directive), len)),
        None => None,
    }
}

/// The directive of these flags and digits, and of a precision and the conversion at the start of a text.
fn behind_width(flags: &[u8], digits: &[u8], text: &[u8]) -> Option<(Part, usize)>
    requires { length flags.now + length digits.now + length text.now < 2 ^ 63 }
    ensures { result ≡ spec.behind_width flags.now digits.now text.now }
{
    let point = precision_len(text);
    let conversion = conversion_at(text.split_at(point).1);
    let directive = checked(flags, count(digits, 10), precision(text), conversion);
    shown_with(flags.len() + digits.len() + point + 1, directive)
}

fn behind_flags(flags: &[u8], text: &[u8]) -> Option<(Part, usize)>
    requires { length flags.now + length text.now < 2 ^ 63 }
    ensures { result ≡ spec.behind_flags flags.now text.now }
{
    let (digits, rest) = text.split_at(digits_len(text));
    behind_width(flags, digits, rest)
}

/// The directive that stands behind a `%`, and how many bytes of that belong to it.
fn read_directive(text: &[u8]) -> Option<(Part, usize)>
    ensures { result ≡ spec.directive text.now }
{
    let (flags, rest) = text.split_at(flags_len(text));
    behind_flags(flags, rest)
}

/// The part that a text makes behind a `%`, which begins with this byte: a second `%` stands for itself.
fn percent_or_directive(first: u8, text: &[u8]) -> Option<(Part, usize)>
    ensures { result ≡ spec.percent_or_directive first text.now }
{
    if first == b'%' {
        return Some((Part::Plain(first), 1));
    }
    read_directive(text)
}

fn behind_percent(text: &[u8]) -> Option<(Part, usize)>
    ensures { result ≡ spec.behind_percent text.now }
{
    match text {
        [] => None,
        [first, ..] => percent_or_directive(*first, text),
    }
}

/// The part that a byte begins, and how many bytes behind it belong to the part.
fn part_at(byte: u8, text: &[u8]) -> Option<(Part, usize)>
    ensures { result ≡ spec.part_at byte text.now }
{
    if byte == b'%' {
        return behind_percent(text);
    }
    if byte == b'\\' {
        return escape(text);
    }
    Some((Part::Plain(byte), 0))
}

fn push_part(parts: &mut Vec<Part>, part: Part) -> Result<(), AllocError>
    ensures { OnOk result (parts.new.items ≡ parts.old.items ++ part ∷ []) }
{
    parts.push(part)?;
    Ok(())
}

/// The parts of a format. None comes where it is none. Each byte is looked at a few times.
pub fn read_format(alloc: Global, format: &[u8]) -> Result<Option<Vec<Part>>, AllocError>
    ensures { IfOk result (λ parts. option_map (λ v. v.items) parts ≡ spec.parts format.now) }
{
    let mut parts = Vec::new(alloc);
    let mut rest = format;
    'parts: while let Some((first, behind)) = rest.split_first() {
        let Some((part, len)) = part_at(*first, behind) else {
            return Ok(None);
        };
        push_part(&mut parts, part)?;
        rest = behind_bytes(behind, len);
    }
    Ok(Some(parts))
}
