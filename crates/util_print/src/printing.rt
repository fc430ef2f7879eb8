//! What `printf` writes for its words (POSIX.1-2017, XCU, `printf`).

ghost use Rattle.std.specs.Prelude.{◌≡◌, ◌<◌, [], ◌∷◌, ◌++◌, IfOk, OnOk, drop, replicate};
ghost use Rattle.util_print.specs.Rounds.{left_bad, left_text};
ghost use Rattle.util_print.specs.Shown as spec;

use crate::format::{Conversion, Directive, Part, Style};
use crate::numeral::{Numeral, digits_in, is_signed, read_numeral, sign_in};
use crate::pieces::{behind_word, first_bytes};
use hs_text::{Text, TextList};
use std::alloc::{AllocError, Global};

/// What is printed so far.
#[derive(Drop)]
pub struct Printed {
    pub out: Vec<u8>,
    /// The words that should write numbers, and do not.
    pub bad: TextList,
}

/// Puts a byte at the end, so many times.
fn fill(out: &mut Vec<u8>, byte: u8, count: usize) -> Result<(), AllocError>
    ensures { OnOk result (out.new.items ≡ out.old.items ++ replicate count byte) }
{
    match out.len().checked_add(count) {
        Some(len) => out.resize(len, byte),
        None => Err(AllocError),
    }
}

fn write_left(out: &mut Vec<u8>, spaces: usize, text: &[u8]) -> Result<(), AllocError>
    ensures { OnOk result (out.new.items ≡ out.old.items ++ (text.now ++ replicate spaces 32)) }
{
    out.extend_from_slice(text)?;
    fill(out, b' ', spaces)
}

fn write_right(out: &mut Vec<u8>, spaces: usize, text: &[u8]) -> Result<(), AllocError>
    ensures { OnOk result (out.new.items ≡ out.old.items ++ (replicate spaces 32 ++ text.now)) }
{
    fill(out, b' ', spaces)?;
    out.extend_from_slice(text)
}

/// Puts a text at the end, and spaces at its right or at its left, up to a width.
fn write_padded(out: &mut Vec<u8>, left: bool, width: usize, text: &[u8]) -> Result<(), AllocError>
    ensures { OnOk result (out.new.items ≡ out.old.items ++ spec.padded left width text.now) }
{
    if left {
        return write_left(out, width.saturating_sub(text.len()), text);
    }
    write_right(out, width.saturating_sub(text.len()), text)
}

/// Puts a sign and digits at the end, with zeros between them up to a width.
fn write_with_zeros(
    out: &mut Vec<u8>,
    width: usize,
    sign: &[u8],
    digits: &[u8],
) -> Result<(), AllocError>
    ensures { OnOk result (out.new.items ≡ out.old.items ++ spec.with_zeros width sign.now digits.now) }
{
    out.extend_from_slice(sign)?;
    fill(out, b'0', width.saturating_sub(sign.len() + digits.len()))?;
    out.extend_from_slice(digits)
}

/// Puts a sign and digits at the end, and spaces up to a width.
fn write_with_spaces(
    alloc: Global,
    out: &mut Vec<u8>,
    directive: &Directive,
    sign: &[u8],
    digits: &[u8],
) -> Result<(), AllocError>
    ensures { OnOk result (out.new.items ≡ out.old.items ++ spec.padded directive.now.left directive.now.width (sign.now ++ digits.now)) }
{
    let mut text = Vec::from_slice(alloc, sign)?;
    text.extend_from_slice(digits)?;
    write_padded(out, directive.left, directive.width, text.as_slice())
}

fn takes_zeros(directive: &Directive) -> bool
    ensures { result ≡ spec.takes_zeros directive.now }
{
    directive.zeros && !directive.left
}

/// Puts a sign and digits at the end.
fn write_number(
    alloc: Global,
    out: &mut Vec<u8>,
    directive: &Directive,
    sign: &[u8],
    digits: &[u8],
) -> Result<(), AllocError>
    ensures { OnOk result (out.new.items ≡ out.old.items ++ spec.number_text directive.now sign.now digits.now) }
{
    if takes_zeros(directive) {
        return write_with_zeros(out, directive.width, sign, digits);
    }
    write_with_spaces(alloc, out, directive, sign, digits)
}

/// Puts a number at the end.
fn show_number(
    alloc: Global,
    out: &mut Vec<u8>,
    directive: &Directive,
    style: Style,
    numeral: &Numeral,
) -> Result<(), AllocError>
    ensures { OnOk result (out.new.items ≡ out.old.items ++ spec.number_shown directive.now style numeral.now) }
{
    let digits = digits_in(alloc, style, numeral)?;
    write_number(
        alloc,
        out,
        directive,
        sign_in(style, numeral),
        digits.as_bytes(),
    )
}

/// A word, cut to so many bytes.
fn cut(precision: Option<usize>, word: &[u8]) -> &[u8]
    ensures { result.now ≡ spec.cut precision word.now }
{
    match precision {
        Some(most) => first_bytes(word, most),
        None => word,
    }
}

/// The number of the first word; a missing one is 0.
fn first_number(style: Style, words: &[Text]) -> Numeral
    ensures { result ≡ spec.first_number style words.now }
{
    match words {
        [] => Numeral {
            negative: false,
            magnitude: 0,
            whole: true,
        },
        [word, ..] => read_numeral(is_signed(style), word.as_slice()),
    }
}

/// The first word; a missing one is empty.
fn first_word(words: &[Text]) -> &[u8]
    ensures { result.now ≡ spec.first_word words.now }
{
    match words {
        [] => b"",
        [word, ..] => word.as_slice(),
    }
}

/// Puts what a directive writes for the first of these words at the end.
fn show(
    alloc: Global,
    out: &mut Vec<u8>,
    directive: &Directive,
    words: &[Text],
) -> Result<(), AllocError>
    ensures { OnOk result (out.new.items ≡ out.old.items ++ spec.shown directive.now words.now) }
{
    let (left, width) = (directive.left, directive.width);
    match directive.conversion {
        Conversion::Word => {
            write_padded(
                out,
                left,
                width,
                cut(directive.precision, first_word(words)),
            )
        }
        Conversion::Byte => write_padded(out, left, width, first_bytes(first_word(words), 1)),
        Conversion::Number(style) => {
            show_number(alloc, out, directive, style, &first_number(style, words))
        }
    }
}

/// Whether a word should write a number, and does not.
fn is_bad(conversion: Conversion, word: &[u8]) -> bool
    ensures { result ≡ spec.is_bad conversion word.now }
{
    match conversion {
        Conversion::Word => false,
        Conversion::Byte => false,
        Conversion::Number(style) => !read_numeral(is_signed(style), word).whole,
    }
}

/// Keeps the first word, where it is a bad number.
fn check_word(bad: &mut TextList, conversion: Conversion, words: &[Text]) -> Result<(), AllocError>
    ensures { OnOk result (bad.new ≡ bad.old ++ spec.bad_first conversion words.now) }
{
    match words {
        [] => Ok(()),
        [word, ..] => {
            if is_bad(conversion, word.as_slice()) {
                bad.push(word.clone()?)
            } else {
                Ok(())
            }
        }
    }
}

/// Prints the first word as a directive says.
fn print_word(
    alloc: Global,
    printed: &mut Printed,
    directive: &Directive,
    words: &[Text],
) -> Result<(), AllocError>
    ensures out { OnOk result (printed.new.out.items ≡ printed.old.out.items ++ spec.shown directive.now words.now) }
    ensures bad { OnOk result (printed.new.bad ≡ printed.old.bad ++ spec.bad_first directive.now.conversion words.now) }
{
    show(alloc, &mut printed.out, directive, words)?;
    check_word(&mut printed.bad, directive.conversion, words)
}

fn print_byte(printed: &mut Printed, byte: u8) -> Result<(), AllocError>
    ensures out { OnOk result (printed.new.out.items ≡ printed.old.out.items ++ byte ∷ []) }
    ensures bad { OnOk result (printed.new.bad ≡ printed.old.bad) }
{
    printed.out.push(byte)?;
    Ok(())
}

/// Prints a part: one that shows a word takes the next one.
fn print_part(
    alloc: Global,
    printed: &mut Printed,
    part: &Part,
    words: &[Text],
) -> Result<(), AllocError>
    ensures out { OnOk result (printed.new.out.items ≡ printed.old.out.items ++ spec.part_text part.now words.now) }
    ensures bad { OnOk result (printed.new.bad ≡ printed.old.bad ++ spec.part_bad part.now words.now) }
{
    match part {
        Part::Plain(byte) => print_byte(printed, *byte),
        Part::Shown(directive) => print_word(alloc, printed, directive, words),
    }
}

fn takes_word(part: &Part) -> bool
    ensures { result ≡ spec.takes_word part.now }
{
    matches!(part, Part::Shown(_))
}

/// The words that a part leaves.
fn words_left<'a>(part: &Part, words: &'a [Text]) -> &'a [Text]
    ensures { result.now ≡ drop (spec.part_taken part.now) words.now }
{
    if takes_word(part) {
        behind_word(words)
    } else {
        words
    }
}

/// Prints all parts once. It answers the words that are left.
fn print_round<'a>(
    alloc: Global,
    printed: &mut Printed,
    parts: &[Part],
    words: &'a [Text],
) -> Result<&'a [Text], AllocError>
    ensures out { OnOk result (printed.new.out.items ≡ printed.old.out.items ++ spec.written parts.now words.now) }
    ensures bad { OnOk result (printed.new.bad ≡ printed.old.bad ++ spec.bad_words parts.now words.now) }
    ensures left { IfOk result (λ left. left.now ≡ drop (spec.taken parts.now) words.now) }
{
    let mut left = words;
    'parts: for part in parts {
        print_part(alloc, printed, part, left)?;
        left = words_left(part, left);
    }
    Ok(left)
}

/// Whether there is a part that takes a word.
fn takes_words(parts: &[Part]) -> bool
    ensures { result ≡ spec.takes_words parts.now }
{
    parts.iter().any(|part| takes_word(part))
}

/// Prints the parts as often as there are words left for them.
fn print_rest(
    alloc: Global,
    printed: &mut Printed,
    parts: &[Part],
    words: &[Text],
) -> Result<(), AllocError>
    requires { 0 < spec.taken parts.now }
    ensures out { OnOk result (printed.new.out.items ≡ printed.old.out.items ++ left_text parts.now words.now) }
    ensures bad { OnOk result (printed.new.bad ≡ printed.old.bad ++ left_bad parts.now words.now) }
{
    let mut left = words;
    'rounds: while !left.is_empty() {
        left = print_round(alloc, printed, parts, left)?;
    }
    Ok(())
}

/// Prints the parts as often as there are words for them, and once at least.
fn print_all(
    alloc: Global,
    printed: &mut Printed,
    parts: &[Part],
    words: &[Text],
) -> Result<(), AllocError>
    ensures out { OnOk result (printed.new.out.items ≡ printed.old.out.items ++ spec.written (spec.all_parts parts.now words.now) words.now) }
    ensures bad { OnOk result (printed.new.bad ≡ printed.old.bad ++ spec.bad_words (spec.all_parts parts.now words.now) words.now) }
{
    let left = print_round(alloc, printed, parts, words)?;
    if takes_words(parts) {
        return print_rest(alloc, printed, parts, left);
    }
    Ok(())
}

/// What is printed for these words, and which of them are bad numbers. The time is that of the text and of the words, and of the
/// parts once a round.
pub fn print_words(alloc: Global, parts: &[Part], words: &[Text]) -> Result<Printed, AllocError>
    ensures out { IfOk result (λ printed. printed.out.items ≡ spec.written (spec.all_parts parts.now words.now) words.now) }
    ensures bad { IfOk result (λ printed. printed.bad ≡ spec.bad_words (spec.all_parts parts.now words.now) words.now) }
{
    let mut printed = Printed {
        out: Vec::new(alloc),
        bad: TextList::new(alloc),
    };
    print_all(alloc, &mut printed, parts, words)?;
    Ok(printed)
}
