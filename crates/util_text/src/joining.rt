//! `paste`: lines of several texts, or of one, joined to one line (POSIX.1-2017, XCU, `paste`).

ghost use Rattle.std.specs.Prelude.{◌≡◌, ◌++◌, ◌∷◌, map, OnErr, OnOk};
ghost use Rattle.util_text.specs.Buffer.{Keeps};
ghost use Rattle.util_text.specs.Paste as spec;
ghost use Rattle.util_text.specs.Turns.{turns};

use crate::column::{Column, has_ended, write_cell};
use crate::delimiters::Delimiters;
use crate::line::split_line;
use crate::unread::Unread;
use std::alloc::AllocError;

/// Puts at the end what stands before line n of those that are joined.
#[tactic(auto, using(crate::proofs::Buffers::keeps_self, crate::proofs::Buffers::keeps_more, crate::proofs::Buffers::keeps_then))]
fn write_before(out: &mut Vec<u8>, delimiters: &Delimiters, n: usize) -> Result<(), AllocError>
    ensures ok { OnOk result (out.new.items ≡ out.old.items ++ spec.before (turns delimiters.now) n) }
    ensures err { OnErr result (Keeps out.old.items out.new.items) }
{
    if n == 0 {
        return Ok(());
    }
    if let Some(byte) = delimiters.at(n - 1) {
        out.push(byte)?;
    }
    Ok(())
}

/// Puts all lines of a text at the end, joined to one. Where there is no memory, the old bytes stand in front of what it leaves.
#[tactic(auto, using(crate::proofs::Buffers::keeps_self, crate::proofs::Buffers::keeps_more, crate::proofs::Buffers::keeps_then))]
pub fn paste_serial(
    out: &mut Vec<u8>,
    text: &[u8],
    delimiters: &Delimiters,
) -> Result<(), AllocError>
    ensures ok { OnOk result (out.new.items ≡ out.old.items ++ spec.serial (turns delimiters.now) text.now) }
    ensures err { OnErr result (Keeps out.old.items out.new.items) }
{
    let mut rest = text;
    let mut n: usize = 0;
    'lines: while let Some((line, more)) = split_line(rest) {
        write_before(out, delimiters, n)?;
        out.extend_from_slice(line)?;
        rest = more;
        n += 1;
    }
    out.push(b'\n')?;
    Ok(())
}

/// Puts one row at the end: the next line of each column, joined to one.
#[tactic(auto, using(crate::proofs::Buffers::keeps_self, crate::proofs::Buffers::keeps_more, crate::proofs::Buffers::keeps_then))]
fn write_row(
    out: &mut Vec<u8>,
    columns: &mut [Column],
    input: &mut Unread,
    delimiters: &Delimiters,
) -> Result<(), AllocError>
    ensures ok { OnOk result (out.new.items ≡ out.old.items ++ spec.one_line (turns delimiters.now) (spec.cells columns.old input.old)) }
    ensures columns { OnOk result (columns.new ≡ map spec.column_left columns.old) }
    ensures input { OnOk result (input.new ≡ spec.row_left columns.old input.old) }
    ensures err { OnErr result (Keeps out.old.items out.new.items) }
{
    'cells: for n in 0..columns.len() {
        write_before(out, delimiters, n)?;
        write_cell(out, &mut columns[n], input)?;
    }
    out.push(b'\n')?;
    Ok(())
}

fn have_ended(columns: &[Column], input: &Unread) -> bool
    ensures { result ≡ spec.have_ended columns.now input.now }
{
    columns.iter().all(|column| has_ended(column, input))
}

/// Puts rows at the end until all columns have ended, and takes all lines for that. Where there is no memory, the old bytes stand in
/// front of what it leaves. Its time is linear in the texts and in the bytes that it writes.
#[tactic(auto, using(crate::proofs::Buffers::keeps_self, crate::proofs::Buffers::keeps_more, crate::proofs::Buffers::keeps_then))]
pub fn paste(
    out: &mut Vec<u8>,
    columns: &mut [Column],
    input: &mut Unread,
    delimiters: &Delimiters,
) -> Result<(), AllocError>
    ensures ok { OnOk result (out.new.items ≡ out.old.items ++ spec.paste (turns delimiters.now) columns.old input.old) }
    ensures err { OnErr result (Keeps out.old.items out.new.items) }
{
    'rows: while !have_ended(columns, input) {
        write_row(out, columns, input, delimiters)?;
    }
    Ok(())
}
