//! `basename` and `dirname` (POSIX.1-2017, XCU, `basename` and `dirname`).

ghost use Rattle.std.specs.Prelude.{◌≡◌, ◌++◌, [], ◌∷◌, IfOk, Ok};
ghost use Rattle.hs_view.specs.Acts.{Acts};
ghost use Rattle.util_common.specs.Words.{Answers};
ghost use Rattle.util_print.specs.Components as spec;

use crate::naming::{folder_of, name_of, without_suffix};
use hs_text::{Text, TextList};
use hs_view::{Base, Halt, View};
use hs_world::Fd;
use std::alloc::{AllocError, Global};
use util_common::{Why, WordErr, emit, read_words, refuse_words};

/// A text and a newline.
pub fn line_of(alloc: Global, text: &[u8]) -> Result<Text, AllocError>
    ensures { IfOk result (λ line. line ≡ text.now ++ 10 ∷ []) }
{
    let mut line = Text::from_slice(alloc, text)?;
    line.extend(b"\n")?;
    Ok(line)
}

/// The line that `basename` writes for its operands.
fn basename_line(alloc: Global, operands: &[Text]) -> Result<Text, WordErr>
    ensures { Answers result (spec.basename_of operands.now) }
{
    match operands {
        [] => Err(WordErr::Refused(Why::MissingOperand)),
        [path] => Ok(line_of(alloc, name_of(path.as_slice()))?),
        [path, suffix] => {
            let name = without_suffix(name_of(path.as_slice()), suffix.as_slice());
            Ok(line_of(alloc, name)?)
        }
        _ => Err(WordErr::Refused(Why::ExtraOperand)),
    }
}

/// The line that `dirname` writes for its operands.
fn dirname_line(alloc: Global, operands: &[Text]) -> Result<Text, WordErr>
    ensures { Answers result (spec.dirname_of operands.now) }
{
    match operands {
        [] => Err(WordErr::Refused(Why::MissingOperand)),
        [path] => Ok(line_of(alloc, folder_of(path.as_slice()))?),
        _ => Err(WordErr::Refused(Why::ExtraOperand)),
    }
}

/// Writes a line, or why the words of a utility are refused.
fn write_line<B: Base>(
    alloc: Global,
    utility: &[u8],
    line: Result<Text, WordErr>,
    view: &mut View<B>,
) -> Result<u8, Halt>
    ensures { (wanted : spec.Line) → Answers line wanted → Acts B.seen (spec.line_written utility.now wanted) view.old view.new result }
{
    match line {
        Ok(line) => emit(Fd::One, line, 0, view),
        Err(err) => refuse_words(alloc, utility, err, view),
    }
}

/// Writes the last component of the path that its first operand is, without the suffix that the second one is, unless that is all
/// of it. A path of slashes alone is written as `/`, and an empty one as nothing. It has no options.
pub fn basename<B: Base>(alloc: Global, args: &TextList, view: &mut View<B>) -> Result<u8, Halt>
    ensures { Acts B.seen (spec.basename args.now) view.old view.new result }
{
    match read_words(alloc, &[], args) {
        Ok(words) => {
            let line = basename_line(alloc, words.operands.as_slice());
            write_line(alloc, b"basename", line, view)
        }
        Err(err) => refuse_words(alloc, b"basename", err, view),
    }
}

/// Writes what stands before the last component of the path that its operand is, without slashes at its end: `.` where no slash is
/// there, and `/` for the root. It has no options.
pub fn dirname<B: Base>(alloc: Global, args: &TextList, view: &mut View<B>) -> Result<u8, Halt>
    ensures { Acts B.seen (spec.dirname args.now) view.old view.new result }
{
    match read_words(alloc, &[], args) {
        Ok(words) => {
            let line = dirname_line(alloc, words.operands.as_slice());
            write_line(alloc, b"dirname", line, view)
        }
        Err(err) => refuse_words(alloc, b"dirname", err, view),
    }
}
