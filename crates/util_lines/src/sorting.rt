//! `sort` (POSIX.1-2017, XCU, `sort`).

ghost use Rattle.std.specs.Prelude.{◌≡◌, IfOk};
ghost use Rattle.hs_view.specs.Acts.{Acts};
ghost use Rattle.util_lines.specs.Orders as made;
ghost use Rattle.util_lines.specs.Sorting as spec;

use crate::arranging::sort_texts;
use crate::gathering::{Gathered, Reader, gather};
use crate::ordering::Sorting;
use hs_text::{Text, TextList};
use hs_view::{Base, Halt, View};
use hs_world::Fd;
use std::alloc::{AllocError, Global};
use util_common::{emit, is_given, operands_or_input, read_words, refuse_words};
use util_opts::{GivenList, Options};

/// How lines are put in order, by the options.
fn sorting_by(given: &GivenList) -> Sorting
    ensures { result ≡ spec.sorting_by given.now }
{
    Sorting {
        numeric: is_given(given, b'n'),
        reverse: is_given(given, b'r'),
        unique: is_given(given, b'u'),
    }
}

/// The lines of contents, sorted.
fn sorted(alloc: Global, sorting: Sorting, contents: &[Text]) -> Result<Text, AllocError>
    ensures { IfOk result (λ text. text ≡ made.sort sorting contents.now) }
{
    let out = sort_texts(alloc, sorting, contents)?;
    Text::from_vec(alloc, out)
}

/// Writes the lines of what was read, sorted.
fn write_sorted<B: Base>(
    alloc: Global,
    sorting: Sorting,
    read: &Gathered,
    view: &mut View<B>,
) -> Result<u8, Halt>
    ensures { Acts B.seen (spec.sorted_written sorting read.now) view.old view.new result }
{
    let text = sorted(alloc, sorting, read.contents.as_slice())?;
    emit(Fd::One, text, read.status, view)
}

/// Reads operands, and writes their lines, sorted.
fn sort_words<B: Base>(
    alloc: Global,
    sorting: Sorting,
    words: &[Text],
    view: &mut View<B>,
) -> Result<u8, Halt>
    ensures { Acts B.seen (spec.words_sorted sorting words.now) view.old view.new result }
{
    let reader = Reader {
        alloc,
        utility: b"sort",
        bad: 2,
    };
    let read = gather(&reader, words, view)?;
    write_sorted(alloc, sorting, &read, view)
}

/// Writes the lines of the operands, sorted.
fn sort_files<B: Base>(
    alloc: Global,
    sorting: Sorting,
    operands: TextList,
    view: &mut View<B>,
) -> Result<u8, Halt>
    ensures { Acts B.seen (spec.files_sorted sorting operands) view.old view.new result }
{
    let words = operands_or_input(alloc, operands)?;
    sort_words(alloc, sorting, words.as_slice(), view)
}

/// Writes all lines of its operands, sorted by their bytes, or with `-n` by the decimal number at their start, whatever its length;
/// equal numbers go by the whole line. `-u` keeps the first of equal lines, equal by the number where there is `-n`, and `-r` reverses
/// the order. `-` is standard input, which is read too where there is no operand. An operand that is refused has its message, and the
/// status is 2 then. Its time is that of a sort.
pub fn sort<B: Base>(alloc: Global, args: &TextList, view: &mut View<B>) -> Result<u8, Halt>
    ensures { Acts B.seen (spec.sort_command args.now) view.old view.new result }
{
    match read_words(alloc, &[(b'n', false), (b'r', false), (b'u', false)], args) {
        Ok(words) => {
            let Options { given, operands } = words;
            let sorting = sorting_by(&given);
            drop(given);
            sort_files(alloc, sorting, operands, view)
        }
        Err(err) => refuse_words(alloc, b"sort", err, view),
    }
}
