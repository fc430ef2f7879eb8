//! The columns of `paste` (POSIX.1-2017, XCU, `paste`).

ghost use Rattle.std.specs.Prelude.{◌≡◌, ◌++◌, map, OnErr, OnOk};
ghost use Rattle.util_text.specs.Buffer.{Keeps};
ghost use Rattle.util_text.specs.Paste as spec;

use crate::unread::Unread;
use std::alloc::AllocError;

/// What a column takes its lines from.
#[derive(Drop)]
pub enum Column {
    /// Standard input, whose lines all such columns take in turn.
    Input,
    File(Unread),
}

/// Whether no line is left for a column.
pub fn has_ended(column: &Column, input: &Unread) -> bool
    ensures { result ≡ spec.has_ended input.now column.now }
{
    match column {
        Column::Input => input.is_empty(),
        Column::File(own) => own.is_empty(),
    }
}

/// Takes the next line of a column, and puts it at the end.
pub fn write_cell(
    out: &mut Vec<u8>,
    column: &mut Column,
    input: &mut Unread,
) -> Result<(), AllocError>
    ensures ok { OnOk result (out.new.items ≡ out.old.items ++ spec.cell column.old input.old) }
    ensures column { OnOk result (column.new ≡ spec.column_left column.old) }
    ensures input { OnOk result (input.new ≡ spec.input_left column.old input.old) }
    ensures err { OnErr result (Keeps out.old.items out.new.items) }
{
    match column {
        Column::Input => input.write_next(out),
        Column::File(own) => own.write_next(out),
    }
}
