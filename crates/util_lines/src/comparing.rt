//! `comm` (POSIX.1-2017, XCU, `comm`).

ghost use Rattle.std.specs.Prelude.{◌≡◌, IfOk};
ghost use Rattle.hs_view.specs.Acts.{Acts};
ghost use Rattle.util_lines.specs.Comparing as spec;
ghost use Rattle.util_lines.specs.Merging as made;

use crate::gathering::{Gathered, Reader, gather};
use crate::merging::{Columns, merge};
use hs_text::{Text, TextList};
use hs_view::{Base, Halt, View};
use hs_world::Fd;
use std::alloc::{AllocError, Global};
use util_common::{Why, emit, is_given, read_words, refuse, refuse_words};
use util_opts::{GivenList, Options};

/// Which columns are written.
fn columns_by(given: &GivenList) -> Columns
    ensures { result ≡ spec.columns_by given.now }
{
    Columns {
        first: !is_given(given, b'1'),
        second: !is_given(given, b'2'),
        both: !is_given(given, b'3'),
    }
}

/// The lines of two contents in their columns.
fn compared(alloc: Global, columns: Columns, one: &Text, two: &Text) -> Result<Text, AllocError>
    ensures { IfOk result (λ text. text ≡ made.comm columns one.now two.now) }
{
    let out = merge(alloc, columns, one.as_slice(), two.as_slice())?;
    Text::from_vec(alloc, out)
}

/// Writes the lines of what was read, if both contents were.
fn write_merge<B: Base>(
    alloc: Global,
    columns: Columns,
    read: &Gathered,
    view: &mut View<B>,
) -> Result<u8, Halt>
    ensures { Acts B.seen (spec.merge_written columns read.now) view.old view.new result }
{
    match read.contents.as_slice() {
        [one, two, ..] => {
            let text = compared(alloc, columns, one, two)?;
            emit(Fd::One, text, read.status, view)
        }
        _ => Ok(read.status),
    }
}

/// Reads two operands, and writes their lines.
fn compare_two<B: Base>(
    alloc: Global,
    columns: Columns,
    operands: &[Text],
    view: &mut View<B>,
) -> Result<u8, Halt>
    ensures { Acts B.seen (spec.two_compared columns operands.now) view.old view.new result }
{
    let reader = Reader {
        alloc,
        utility: b"comm",
        bad: 1,
    };
    let read = gather(&reader, operands, view)?;
    write_merge(alloc, columns, &read, view)
}

/// Writes the lines of two operands.
fn compare_files<B: Base>(
    alloc: Global,
    columns: Columns,
    operands: &[Text],
    view: &mut View<B>,
) -> Result<u8, Halt>
    ensures { Acts B.seen (spec.files_compared columns operands.now) view.old view.new result }
{
    match operands {
        [] | [_] => refuse(alloc, b"comm", Why::MissingOperand, view),
        [_, _] => compare_two(alloc, columns, operands, view),
        _ => refuse(alloc, b"comm", Why::ExtraOperand, view),
    }
}

/// Writes the lines of its two operands, merged: the smaller one of the two front lines comes first, and equal ones are written
/// together. Lines of the first operand alone stand in the first column, those of the second in the second, behind a tab, and those of
/// both in the third, behind two; `-1`, `-2` and `-3` leave a column out, and its tab. `-` is standard input. An operand that is
/// refused has its message, nothing else is written, and the status is 1 then.
pub fn comm<B: Base>(alloc: Global, args: &TextList, view: &mut View<B>) -> Result<u8, Halt>
    ensures { Acts B.seen (spec.comm_command args.now) view.old view.new result }
{
    match read_words(alloc, &[(b'1', false), (b'2', false), (b'3', false)], args) {
        Ok(words) => {
            let Options { given, operands } = words;
            let columns = columns_by(&given);
            drop(given);
            compare_files(alloc, columns, operands.as_slice(), view)
        }
        Err(err) => refuse_words(alloc, b"comm", err, view),
    }
}
