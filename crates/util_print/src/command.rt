//! `printf` (POSIX.1-2017, XCU, `printf`).

ghost use Rattle.std.specs.Prelude.{◌≡◌, option_map};
ghost use Rattle.hs_view.specs.Acts.{Acts};
ghost use Rattle.util_print.specs.Formats.{parts};
ghost use Rattle.util_print.specs.Printf as spec;

use crate::format::{Part, read_format};
use crate::printing::{Printed, print_words};
use hs_text::{Text, TextList};
use hs_view::{Base, Halt, View};
use hs_world::Fd;
use std::alloc::Global;
use util_common::{Why, emit, refuse, write_message};

/// Writes a message for each word that is a bad number, and then the text.
fn tell<B: Base>(alloc: Global, bad: &[Text], text: Text, view: &mut View<B>) -> Result<u8, Halt>
    ensures { Acts B.seen (spec.told bad.now text 0) view.old view.new result }
{
    let mut status = 0;
    'words: for word in bad {
        status = write_message(alloc, b"printf", word, Why::BadNumber, view)?;
    }
    emit(Fd::One, text, status, view)
}

/// Writes the parts of a format for these words.
fn print_parts<B: Base>(
    alloc: Global,
    parts: &[Part],
    words: &[Text],
    view: &mut View<B>,
) -> Result<u8, Halt>
    ensures { Acts B.seen (spec.parts_printed parts.now words.now) view.old view.new result }
{
    let Printed { out, bad } = print_words(alloc, parts, words)?;
    let text = Text::from_vec(alloc, out)?;
    tell(alloc, bad.as_slice(), text, view)
}

/// Writes the parts of a format, or refuses what is none.
fn print_by<B: Base>(
    alloc: Global,
    parts: Option<Vec<Part>>,
    words: &[Text],
    view: &mut View<B>,
) -> Result<u8, Halt>
    ensures { Acts B.seen (spec.printf_by (option_map (λ v. v.items) parts) words.now) view.old view.new result }
{
    match parts {
        Some(parts) => print_parts(alloc, parts.as_slice(), words, view),
        None => refuse(alloc, b"printf", Why::BadFormat, view),
    }
}

/// Writes the words by a format, or refuses what is none.
fn print_format<B: Base>(
    alloc: Global,
    format: &Text,
    words: &[Text],
    view: &mut View<B>,
) -> Result<u8, Halt>
    ensures { Acts B.seen (spec.printf_by (parts format.now) words.now) view.old view.new result }
{
    let parts = read_format(alloc, format.as_slice())?;
    print_by(alloc, parts, words, view)
}

fn print_of<B: Base>(alloc: Global, args: &[Text], view: &mut View<B>) -> Result<u8, Halt>
    ensures { Acts B.seen (spec.printf_of args.now) view.old view.new result }
{
    match args.split_first() {
        Some((format, words)) => print_format(alloc, format, words, view),
        None => refuse(alloc, b"printf", Why::MissingOperand, view),
    }
}

fn is_dashes(word: &[u8]) -> bool
    ensures { result ≡ spec.is_dashes word.now }
{
    matches!(word, [b'-', b'-'])
}

/// The words without a first one that is `--`.
fn without_dashes(words: &[Text]) -> &[Text]
    ensures { result.now ≡ spec.without_dashes words.now }
{
    match words {
        [] => words,
        [first, rest @ ..] => {
            if is_dashes(first.as_slice()) {
                rest
            } else {
                words
            }
        }
    }
}

/// Writes its words by its first one, the format. A format that is none is refused with status 2, before anything is written. A word
/// that should write a number and does not has a message; the number of its longest part from the start is written, and the status is
/// 1 then. It has no options; a first word `--` is dropped.
pub fn printf<B: Base>(alloc: Global, args: &TextList, view: &mut View<B>) -> Result<u8, Halt>
    ensures { Acts B.seen (spec.printf args.now) view.old view.new result }
{
    print_of(alloc, without_dashes(args.as_slice()), view)
}
