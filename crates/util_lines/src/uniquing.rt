//! `uniq` (POSIX.1-2017, XCU, `uniq`).

ghost use Rattle.std.specs.Prelude.{◌≡◌, IfOk, Ok, Some, option_copied};
ghost use Rattle.hs_view.specs.Acts.{Acts};
ghost use Rattle.util_lines.specs.Runs as made;
ghost use Rattle.util_lines.specs.Uniquing as spec;

use crate::filing::{Output, write_file};
use crate::gathering::{Gathered, Reader, gather};
use crate::runs::{Mode, write_runs};
use hs_text::{Text, TextList};
use hs_view::{Base, Halt, View};
use hs_world::Fd;
use std::alloc::{AllocError, Global};
use util_common::{Why, emit, is_given, operands_or_input, read_words, refuse, refuse_words};
use util_opts::{GivenList, Options};

/// What is written for a run, by the options; none where two of them exclude each other.
fn mode_by(given: &GivenList) -> Option<Mode>
    ensures { result ≡ spec.mode_by given.now }
{
    let counted = is_given(given, b'c');
    let repeated = is_given(given, b'd');
    let single = is_given(given, b'u');
    match (counted, repeated, single) {
        (false, false, false) => Some(Mode::All),
        (true, false, false) => Some(Mode::Counted),
        (false, true, false) => Some(Mode::Repeated),
        (false, false, true) => Some(Mode::Single),
        _ => None,
    }
}

/// What is written for the runs of a content.
fn uniqued(alloc: Global, mode: Mode, content: &Text) -> Result<Text, AllocError>
    ensures { IfOk result (λ text. text ≡ made.uniq mode content.now) }
{
    let out = write_runs(alloc, mode, content.as_slice())?;
    Text::from_vec(alloc, out)
}

/// Writes a text to standard output, or to the file that a word names.
fn write_text<B: Base>(
    output: Output,
    target: Option<&Text>,
    view: &mut View<B>,
) -> Result<u8, Halt>
    ensures { Acts B.seen (spec.text_written (option_copied target.entry) output.text output.status) view.old view.new result }
{
    match target {
        Some(word) => write_file(&output, word, view),
        None => {
            let Output {
                alloc: _,
                text,
                status,
            } = output;
            emit(Fd::One, text, status, view)
        }
    }
}

/// Writes the runs of what was read, if it was.
fn write_input<B: Base>(
    alloc: Global,
    mode: Mode,
    input: &Gathered,
    target: Option<&Text>,
    view: &mut View<B>,
) -> Result<u8, Halt>
    ensures { Acts B.seen (spec.runs_written mode (option_copied target.entry) input.now) view.old view.new result }
{
    match input.contents.as_slice() {
        [content, ..] => {
            let text = uniqued(alloc, mode, content)?;
            let output = Output {
                alloc,
                text,
                status: input.status,
            };
            write_text(output, target, view)
        }
        [] => Ok(input.status),
    }
}

/// Reads one operand, and writes its runs.
fn uniq_input<B: Base>(
    alloc: Global,
    mode: Mode,
    input: &[Text],
    target: Option<&Text>,
    view: &mut View<B>,
) -> Result<u8, Halt>
    ensures { Acts B.seen (spec.input_uniqued mode input.now (option_copied target.entry)) view.old view.new result }
{
    let reader = Reader {
        alloc,
        utility: b"uniq",
        bad: 1,
    };
    let read = gather(&reader, input, view)?;
    write_input(alloc, mode, &read, target, view)
}

/// The second of two words, where there are two.
fn second(words: &[Text]) -> Option<&Text>
    ensures { option_copied result ≡ spec.second words.now }
{
    match words {
        [_, second, ..] => Some(second),
        _ => None,
    }
}

/// Writes the runs of the input to the output.
fn uniq_files<B: Base>(
    alloc: Global,
    mode: Mode,
    operands: TextList,
    view: &mut View<B>,
) -> Result<u8, Halt>
    ensures { Acts B.seen (spec.files_uniqued mode operands) view.old view.new result }
{
    if operands.as_slice().len() > 2 {
        return refuse(alloc, b"uniq", Why::ExtraOperand, view);
    }
    let words = operands_or_input(alloc, operands)?;
    let input = words.as_slice().split_at(1).0;
    uniq_input(alloc, mode, input, second(words.as_slice()), view)
}

fn uniq_words<B: Base>(alloc: Global, words: Options, view: &mut View<B>) -> Result<u8, Halt>
    ensures { Acts B.seen (spec.uniq_by (Ok words)) view.old view.new result }
{
    let Options { given, operands } = words;
    let mode = mode_by(&given);
    drop(given);
    match mode {
        Some(mode) => uniq_files(alloc, mode, operands, view),
        None => refuse(alloc, b"uniq", Why::Excluding, view),
    }
}

/// Writes one line of each run of equal lines of its first operand, or of standard input, which `-` names too: with `-c` behind the
/// number of its lines and a space, with `-d` of runs of several lines alone, with `-u` of single lines alone. These options exclude
/// each other. Where a second operand is given, the file that it names is made, or made anew, in place of writing to standard output.
/// An operand that is refused has its message, and the status is 1 then.
pub fn uniq<B: Base>(alloc: Global, args: &TextList, view: &mut View<B>) -> Result<u8, Halt>
    ensures { Acts B.seen (spec.uniq_command args.now) view.old view.new result }
{
    match read_words(alloc, &[(b'c', false), (b'd', false), (b'u', false)], args) {
        Ok(words) => uniq_words(alloc, words, view),
        Err(err) => refuse_words(alloc, b"uniq", err, view),
    }
}
