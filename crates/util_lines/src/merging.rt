//! Lines of two texts, merged (POSIX.1-2017, XCU, `comm`).

ghost use Rattle.std.specs.Prelude.{◌≡◌, ◌<◌, ◌+◌, Some, [], ◌∷◌, ◌++◌, IfOk, OnOk, MatchOption};
ghost use Rattle.util_lines.specs.Fronts.{lines_left, size_left};
ghost use Rattle.util_lines.specs.Merging as spec;

use crate::splitting::{split_line, write_line};
use std::alloc::{AllocError, Global};
use std::cmp::Ordering;

/// Where a line is from.
#[derive(Clone, Copy, Debug, PartialEq, Eq)]
pub enum Column {
    First,
    Second,
    Both,
}

/// Which columns are written.
#[derive(Clone, Copy, Debug, PartialEq, Eq)]
pub struct Columns {
    pub first: bool,
    pub second: bool,
    pub both: bool,
}

/// A line, and what is left of the two texts behind it.
#[derive(Clone, Copy)]
pub struct Taken<'a> {
    pub column: Column,
    pub line: &'a [u8],
    pub one: Option<(&'a [u8], &'a [u8])>,
    pub two: Option<(&'a [u8], &'a [u8])>,
}

/// Takes the smaller one of two front lines, or both where they are equal.
fn take_smaller<'a>(one: (&'a [u8], &'a [u8]), two: (&'a [u8], &'a [u8])) -> Taken<'a>
    ensures line { spec.merged (lines_left (Some one.entry)) (lines_left (Some two.entry)) ≡ spec.entry result.column result.line.now ∷ spec.merged (lines_left result.one) (lines_left result.two) }
    ensures shorter { size_left result.one + size_left result.two < size_left (Some one.entry) + size_left (Some two.entry) }
{
    match one.0.cmp(two.0) {
        Ordering::Less => Taken {
            column: Column::First,
            line: one.0,
            one: split_line(one.1),
            two: Some(two),
        },
        Ordering::Equal => Taken {
            column: Column::Both,
            line: one.0,
            one: split_line(one.1),
            two: split_line(two.1),
        },
        Ordering::Greater => Taken {
            column: Column::Second,
            line: two.0,
            one: Some(one),
            two: split_line(two.1),
        },
    }
}

/// Takes the next line, where one is left.
fn take_line<'a>(
    one: Option<(&'a [u8], &'a [u8])>,
    two: Option<(&'a [u8], &'a [u8])>,
) -> Option<Taken<'a>>
    ensures line { MatchOption result (spec.merged (lines_left one.entry) (lines_left two.entry) ≡ []) (λ taken. spec.merged (lines_left one.entry) (lines_left two.entry) ≡ spec.entry taken.column taken.line.now ∷ spec.merged (lines_left taken.one) (lines_left taken.two)) }
    ensures shorter { MatchOption result (size_left one.entry ≡ 0) (λ taken. size_left taken.one + size_left taken.two < size_left one.entry + size_left two.entry) }
{
    match (one, two) {
        (None, None) => None,
        (Some((line, behind)), None) => Some(Taken {
            column: Column::First,
            line,
            one: split_line(behind),
            two: None,
        }),
        (None, Some((line, behind))) => Some(Taken {
            column: Column::Second,
            line,
            one: None,
            two: split_line(behind),
        }),
        (Some(one), Some(two)) => Some(take_smaller(one, two)),
    }
}

/// Puts a tab at the end for a column that is written.
fn write_tab(out: &mut Vec<u8>, written: bool) -> Result<(), AllocError>
    ensures { OnOk result (out.new.items ≡ out.old.items ++ spec.tab written) }
{
    if written {
        out.push(b'\t')?;
    }
    Ok(())
}

/// Puts a line at the end where its column is written, behind a tab for each column before its own that is written.
fn write_entry(
    out: &mut Vec<u8>,
    columns: Columns,
    column: Column,
    line: &[u8],
) -> Result<(), AllocError>
    ensures { OnOk result (out.new.items ≡ out.old.items ++ spec.shown columns column line.now) }
{
    match column {
        Column::First if columns.first => write_line(out, line),
        Column::Second if columns.second => {
            write_tab(out, columns.first)?;
            write_line(out, line)
        }
        Column::Both if columns.both => {
            write_tab(out, columns.first)?;
            write_tab(out, columns.second)?;
            write_line(out, line)
        }
        _ => Ok(()),
    }
}

/// The lines of two texts in three columns, in one pass over each.
pub fn merge(alloc: Global, columns: Columns, one: &[u8], two: &[u8]) -> Result<Vec<u8>, AllocError>
    ensures { IfOk result (λ out. out.items ≡ spec.comm columns one.now two.now) }
{
    let mut out = Vec::new(alloc);
    let mut left = split_line(one);
    let mut right = split_line(two);
    'lines: while let Some(taken) = take_line(left, right) {
        write_entry(&mut out, columns, taken.column, taken.line)?;
        left = taken.one;
        right = taken.two;
    }
    Ok(out)
}
