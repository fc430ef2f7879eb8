//! The lines of texts, sorted (POSIX.1-2017, XCU, `sort`).

ghost use Rattle.std.specs.Prelude.{◌≡◌, ◌++◌, reverse, IfOk, OnOk};
ghost use Rattle.std.specs.List.{dedup};
ghost use Rattle.std.specs.Ordering.{is_eq};
ghost use Rattle.util_lines.specs.Fronts.{shown_lines};
ghost use Rattle.util_lines.specs.Orders as spec;
ghost use Rattle.util_lines.specs.Splitting as split;

use crate::ordering::{By, Sorting, compare, compared_by};
use crate::splitting::{split_line, write_line};
use hs_text::Text;
use std::alloc::{AllocError, Global};

/// Sorts lines. What is equal stays in its order.
fn sort_lines(lines: &mut Vec<&[u8]>, by: By) -> Result<(), AllocError>
    ensures { OnOk result (shown_lines lines.new.items ≡ spec.sorted (spec.order by) (shown_lines lines.old.items)) }
{
    lines.sort_by(|a, b| compare(by, *a, *b))
}

/// Keeps the first one of equal neighbours.
fn keep_first(lines: &mut Vec<&[u8]>, by: By)
    ensures { shown_lines lines.new.items ≡ dedup (λ x y. is_eq (spec.order by x y)) (shown_lines lines.old.items) }
{
    lines.dedup_by(|line, kept| compare(by, *line, *kept).is_eq());
}

/// The same, where that is wanted.
fn keep_where(lines: &mut Vec<&[u8]>, unique: bool, by: By)
    ensures { shown_lines lines.new.items ≡ spec.kept_where unique by (shown_lines lines.old.items) }
{
    if !unique {
        return;
    }
    keep_first(lines, by);
}

/// Turns the order of lines round.
fn turn(lines: &mut [&[u8]])
    ensures { shown_lines lines.new ≡ reverse (shown_lines lines.old) }
{
    lines.reverse();
}

/// Puts the lines of a text at the end.
fn add_lines<'a>(lines: &mut Vec<&'a [u8]>, text: &'a [u8]) -> Result<(), AllocError>
    ensures { OnOk result (shown_lines lines.new.items ≡ shown_lines lines.old.items ++ split.lines text.now) }
{
    let mut rest = text;
    'lines: while let Some((line, more)) = split_line(rest) {
        lines.push(line)?;
        rest = more;
    }
    Ok(())
}

/// The lines of texts.
fn lines_of<'a>(alloc: Global, texts: &'a [Text]) -> Result<Vec<&'a [u8]>, AllocError>
    ensures { IfOk result (λ lines. shown_lines lines.items ≡ spec.all_lines texts.now) }
{
    let mut lines = Vec::new(alloc);
    for text in texts {
        add_lines(&mut lines, text.as_slice())?;
    }
    Ok(lines)
}

/// Lines, each with its newline.
fn join_lines(alloc: Global, lines: &[&[u8]]) -> Result<Vec<u8>, AllocError>
    ensures { IfOk result (λ out. out.items ≡ split.joined (shown_lines lines.now)) }
{
    let mut out = Vec::new(alloc);
    for line in lines {
        write_line(&mut out, line)?;
    }
    Ok(out)
}

/// Lines, in their order or the other way round, each with its newline.
fn join_turned(alloc: Global, lines: &mut [&[u8]], reversed: bool) -> Result<Vec<u8>, AllocError>
    ensures { IfOk result (λ out. out.items ≡ split.joined (spec.turned_where reversed (shown_lines lines.old))) }
{
    if reversed {
        turn(lines);
        return join_lines(alloc, lines);
    }
    join_lines(alloc, lines)
}

/// The lines of texts, sorted. Its time is that of a sort.
pub fn sort_texts(alloc: Global, sorting: Sorting, texts: &[Text]) -> Result<Vec<u8>, AllocError>
    ensures { IfOk result (λ out. out.items ≡ spec.sort sorting texts.now) }
{
    let by = compared_by(sorting);
    let mut lines = lines_of(alloc, texts)?;
    sort_lines(&mut lines, by)?;
    keep_where(&mut lines, sorting.unique, by);
    join_turned(alloc, lines.as_mut_slice(), sorting.reverse)
}
