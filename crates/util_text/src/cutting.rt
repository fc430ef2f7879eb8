//! `cut`: the bytes of lines that a list selects (POSIX.1-2017, XCU, `cut`; each byte is one character).

ghost use Rattle.std.specs.Prelude.{◌≡◌, ◌<◌, ◌≤◌, ◌^◌, ◌++◌, ℕ, List, Bool, true, OnOk, OnErr};
ghost use Rattle.util_text.specs.Buffer.{Keeps};
ghost use Rattle.util_text.specs.Cut as spec;
ghost use Rattle.util_text.specs.Places.{Range, selects};
ghost use Rattle.util_text.specs.Selected.{Selects};
ghost use Rattle.util_text.specs.Spans.{is_apart, in_spans};

use crate::line::split_line;
use crate::places::{Selection, Span};
use std::alloc::AllocError;

/// Puts the bytes of a line at the end whose places the spans have.
#[tactic(auto, using(crate::proofs::Buffers::keeps_self, crate::proofs::Buffers::keeps_more, crate::proofs::Buffers::keeps_then))]
fn write_bytes(out: &mut Vec<u8>, line: &[u8], spans: &[Span]) -> Result<(), AllocError>
    requires { is_apart 0 spans.now ≡ true }
    ensures ok { OnOk result ((test : ℕ → Bool) → ((place : ℕ) → 0 < place → place ≤ 2 ^ 63 → test place ≡ in_spans spans.now place) → out.new.items ≡ out.old.items ++ spec.chosen test 1 line.now) }
    ensures err { OnErr result (Keeps out.old.items out.new.items) }
{
    let mut left = spans;
    'spans: while let Some((span, more)) = left.split_first() {
        if span.low > line.len() {
            return Ok(());
        }
        let rest = line.split_at(span.low - 1).1;
        let width = span.high - (span.low - 1);
        out.extend_from_slice(rest.split_at(width.min(rest.len())).0)?;
        left = more;
    }
    Ok(())
}

/// Puts the selected bytes of each line at the end, in their order, and a newline. Where there is no memory, the old bytes stand in
/// front of what it leaves. Its time is linear in the text.
#[tactic(auto, using(crate::proofs::Buffers::keeps_self, crate::proofs::Buffers::keeps_more, crate::proofs::Buffers::keeps_then))]
pub fn cut_bytes(out: &mut Vec<u8>, text: &[u8], selection: &Selection) -> Result<(), AllocError>
    ensures ok { OnOk result ((ranges : List Range) → Selects selection.now ranges → out.new.items ≡ out.old.items ++ spec.cut_bytes (λ place. selects ranges place) text.now) }
    ensures err { OnErr result (Keeps out.old.items out.new.items) }
{
    let mut rest = text;
    'lines: while let Some((line, more)) = split_line(rest) {
        write_bytes(out, line, selection.spans())?;
        out.push(b'\n')?;
        rest = more;
    }
    Ok(())
}
