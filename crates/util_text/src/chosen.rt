//! The line that `wc` writes (POSIX.1-2017, XCU, `wc`).

ghost use Rattle.std.specs.Prelude.{◌≡◌, ◌++◌, ◌||◌, OnOk, OnErr, option_copied};
ghost use Rattle.util_text.specs.Buffer.{Keeps};
ghost use Rattle.util_text.specs.Wc as spec;

use crate::counting::Counts;
use itoa::Buffer;
use std::alloc::AllocError;

/// Which counts are written; where none is chosen, all are.
#[derive(Clone, Copy)]
pub struct Chosen {
    pub lines: bool,
    pub words: bool,
    pub bytes: bool,
}

/// Puts a count at the end, where it is chosen, and a space before it where it comes behind another.
#[tactic(auto, using(crate::proofs::Buffers::keeps_self, crate::proofs::Buffers::keeps_more, crate::proofs::Buffers::keeps_then))]
fn write_count(out: &mut Vec<u8>, count: u128, chosen: bool, behind: bool) -> Result<(), AllocError>
    ensures ok { OnOk result (out.new.items ≡ out.old.items ++ spec.shown behind chosen count) }
    ensures err { OnErr result (Keeps out.old.items out.new.items) }
{
    if !chosen {
        return Ok(());
    }
    if behind {
        out.push(b' ')?;
    }
    let mut buffer = Buffer::new();
    out.extend_from_slice(buffer.format(count).as_bytes())
}

/// Puts a space and the name at the end, where there is one, and a newline.
#[tactic(auto, using(crate::proofs::Buffers::keeps_self, crate::proofs::Buffers::keeps_more, crate::proofs::Buffers::keeps_then))]
fn write_name(out: &mut Vec<u8>, name: Option<&[u8]>) -> Result<(), AllocError>
    ensures ok { OnOk result (out.new.items ≡ out.old.items ++ spec.named (option_copied name.entry)) }
    ensures err { OnErr result (Keeps out.old.items out.new.items) }
{
    if let Some(name) = name {
        out.push(b' ')?;
        out.extend_from_slice(name)?;
    }
    out.push(b'\n')?;
    Ok(())
}

/// Puts the chosen counts at the end, one of them at least.
#[tactic(auto, using(crate::proofs::Buffers::keeps_self, crate::proofs::Buffers::keeps_more, crate::proofs::Buffers::keeps_then))]
fn write_chosen(out: &mut Vec<u8>, chosen: &Chosen, counts: &Counts) -> Result<(), AllocError>
    ensures ok { OnOk result (out.new.items ≡ out.old.items ++ spec.written chosen.now counts.now) }
    ensures err { OnErr result (Keeps out.old.items out.new.items) }
{
    write_count(out, counts.lines, chosen.lines, false)?;
    write_count(out, counts.words, chosen.words, chosen.lines)?;
    write_count(out, counts.bytes, chosen.bytes, chosen.lines | chosen.words)
}

/// Puts the line of these counts at the end, with the name where there is one. Where there is no memory, the old bytes stand in front
/// of what it leaves.
#[tactic(auto, using(crate::proofs::Buffers::keeps_self, crate::proofs::Buffers::keeps_more, crate::proofs::Buffers::keeps_then))]
pub fn write_counts(
    out: &mut Vec<u8>,
    chosen: &Chosen,
    counts: &Counts,
    name: Option<&[u8]>,
) -> Result<(), AllocError>
    ensures ok { OnOk result (out.new.items ≡ out.old.items ++ spec.counts_line chosen.now counts.now (option_copied name.entry)) }
    ensures err { OnErr result (Keeps out.old.items out.new.items) }
{
    let none = !(chosen.lines | chosen.words | chosen.bytes);
    let chosen = Chosen {
        lines: chosen.lines | none,
        words: chosen.words | none,
        bytes: chosen.bytes | none,
    };
    write_chosen(out, &chosen, counts)?;
    write_name(out, name)
}
