//! `cut`: the fields of lines that a list selects (POSIX.1-2017, XCU, `cut`).

ghost use Rattle.std.specs.Prelude.{◌≡◌, ◌<◌, ◌≤◌, ◌+◌, ◌^◌, ◌++◌, ℕ, List, Bool, true, OnOk, OnErr};
ghost use Rattle.std.specs.List.{join_with_byte};
ghost use Rattle.util_text.specs.Buffer.{Keeps};
ghost use Rattle.util_text.specs.Cut as spec;
ghost use Rattle.util_text.specs.Places.{Range, selects};
ghost use Rattle.util_text.specs.Selected.{Selects};
ghost use Rattle.util_text.specs.Spans.{Reach, is_apart, in_spans};

use crate::buffer::write_line;
use crate::line::split_line;
use crate::part::{has_field, split_field};
use crate::places::{Selection, Span};
use std::alloc::AllocError;

/// Whether the spans, of which none ends before the place, have it; and those of them that end behind it.
fn step(spans: &[Span], place: usize) -> (bool, &[Span])
    requires { Reach place spans.now }
    ensures has { result.0 ≡ in_spans spans.now place }
    ensures later { (k : ℕ) → place < k → in_spans result.1.now k ≡ in_spans spans.now k }
    ensures reach { Reach (place + 1) result.1.now }
{
    let Some((span, more)) = spans.split_first() else {
        return (false, spans);
    };
    if span.high == place {
        return (true, more);
    }
    (span.low <= place, spans)
}

/// Puts a field at the end, where it is selected, and the delimiter before it where it comes behind another.
#[tactic(auto, using(crate::proofs::Buffers::keeps_self, crate::proofs::Buffers::keeps_more, crate::proofs::Buffers::keeps_then))]
fn write_field(
    out: &mut Vec<u8>,
    field: &[u8],
    delimiter: u8,
    selected: bool,
    behind: bool,
) -> Result<(), AllocError>
    ensures ok { OnOk result (out.new.items ≡ out.old.items ++ spec.field_shown delimiter selected behind field.now) }
    ensures err { OnErr result (Keeps out.old.items out.new.items) }
{
    if !selected {
        return Ok(());
    }
    if behind {
        out.push(delimiter)?;
    }
    out.extend_from_slice(field)
}

/// Puts the fields of a line at the end whose places the spans have, in the order of the line, with the delimiter between them.
#[tactic(auto, using(crate::proofs::Buffers::keeps_self, crate::proofs::Buffers::keeps_more, crate::proofs::Buffers::keeps_then))]
fn write_fields(
    out: &mut Vec<u8>,
    line: &[u8],
    delimiter: u8,
    spans: &[Span],
) -> Result<(), AllocError>
    requires { is_apart 0 spans.now ≡ true }
    ensures ok { OnOk result ((test : ℕ → Bool) → ((place : ℕ) → 0 < place → place ≤ 2 ^ 63 → test place ≡ in_spans spans.now place) → out.new.items ≡ out.old.items ++ join_with_byte delimiter (spec.chosen test 1 (spec.fields delimiter line.now))) }
    ensures err { OnErr result (Keeps out.old.items out.new.items) }
{
    let mut rest = Some(line);
    let mut left = spans;
    let mut place: usize = 1; // of the first field that is left
    let mut behind = false;
    'fields: while let Some(fields) = rest {
        let (field, more) = split_field(delimiter, fields);
        let (selected, later) = step(left, place);
        write_field(out, field, delimiter, selected, behind)?;
        behind = behind || selected;
        left = later;
        place += 1;
        rest = more;
    }
    Ok(())
}

/// Puts what is cut from a line at the end: its selected fields and a newline, or all of it where it has no delimiter, or then nothing
/// where only lines with one are wanted.
#[tactic(auto, using(crate::proofs::Buffers::keeps_self, crate::proofs::Buffers::keeps_more, crate::proofs::Buffers::keeps_then))]
fn cut_line(
    out: &mut Vec<u8>,
    line: &[u8],
    spans: &[Span],
    delimiter: u8,
    only: bool,
) -> Result<(), AllocError>
    requires { is_apart 0 spans.now ≡ true }
    ensures ok { OnOk result ((test : ℕ → Bool) → ((place : ℕ) → 0 < place → place ≤ 2 ^ 63 → test place ≡ in_spans spans.now place) → out.new.items ≡ out.old.items ++ spec.fields_of_line test delimiter only line.now) }
    ensures err { OnErr result (Keeps out.old.items out.new.items) }
{
    if has_field(delimiter, line) {
        write_fields(out, line, delimiter, spans)?;
        out.push(b'\n')?;
        return Ok(());
    }
    if only {
        return Ok(());
    }
    write_line(out, line)
}

/// Puts the selected fields of each line at the end, in the order of the line, with the delimiter between them, and a newline. A line
/// without the delimiter passes whole, or not at all where `only` says so. Where there is no memory, the old bytes stand in front of
/// what it leaves. Its time is linear in the text.
#[tactic(auto, using(crate::proofs::Buffers::keeps_self, crate::proofs::Buffers::keeps_more, crate::proofs::Buffers::keeps_then))]
pub fn cut_fields(
    out: &mut Vec<u8>,
    text: &[u8],
    selection: &Selection,
    delimiter: u8,
    only: bool,
) -> Result<(), AllocError>
    ensures ok { OnOk result ((ranges : List Range) → Selects selection.now ranges → out.new.items ≡ out.old.items ++ spec.cut_fields (λ place. selects ranges place) delimiter only text.now) }
    ensures err { OnErr result (Keeps out.old.items out.new.items) }
{
    let mut rest = text;
    'lines: while let Some((line, more)) = split_line(rest) {
        cut_line(out, line, selection.spans(), delimiter, only)?;
        rest = more;
    }
    Ok(())
}
