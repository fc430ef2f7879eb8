//! `fold`: lines cut after so many bytes (POSIX.1-2017, XCU, `fold`; each byte is one column).

ghost use Rattle.std.specs.Prelude.{◌≡◌, ℕ, ◌<◌, ◌++◌, OnOk, OnErr};
ghost use Rattle.util_text.specs.Buffer.{Keeps};
ghost use Rattle.util_text.specs.Count.{StandsFor};
ghost use Rattle.util_text.specs.Fold as spec;

use crate::buffer::write_line;
use crate::line::split_line;
use std::alloc::AllocError;

/// Puts a line at the end, cut after each `width` bytes.
#[tactic(auto, using(crate::proofs::Buffers::keeps_self, crate::proofs::Buffers::keeps_more, crate::proofs::Buffers::keeps_then))]
fn fold_line(out: &mut Vec<u8>, line: &[u8], width: usize) -> Result<(), AllocError>
    requires { 0 < width }
    ensures ok { OnOk result ((n : ℕ) → StandsFor width n → out.new.items ≡ out.old.items ++ spec.fold_line n line.now) }
    ensures err { OnErr result (Keeps out.old.items out.new.items) }
{
    let mut rest = line;
    'cuts: while rest.len() > width {
        let (part, more) = rest.split_at(width);
        write_line(out, part)?;
        rest = more;
    }
    write_line(out, rest)
}

/// Puts the lines of a text at the end, each cut after each `width` bytes. Where there is no memory, the old bytes stand in front of
/// what it leaves. Its time is linear in the text.
#[tactic(auto, using(crate::proofs::Buffers::keeps_self, crate::proofs::Buffers::keeps_more, crate::proofs::Buffers::keeps_then))]
pub fn fold(out: &mut Vec<u8>, text: &[u8], width: usize) -> Result<(), AllocError>
    requires { 0 < width }
    ensures ok { OnOk result ((n : ℕ) → StandsFor width n → out.new.items ≡ out.old.items ++ spec.fold n text.now) }
    ensures err { OnErr result (Keeps out.old.items out.new.items) }
{
    let mut rest = text;
    'lines: while let Some((line, more)) = split_line(rest) {
        fold_line(out, line, width)?;
        rest = more;
    }
    Ok(())
}
