//! Lines at the end of a buffer.

ghost use Rattle.std.specs.Prelude.{◌≡◌, [], ◌∷◌, ◌++◌, OnOk, OnErr};
ghost use Rattle.util_text.specs.Buffer.{Keeps};

use std::alloc::AllocError;

/// Puts a line and its newline at the end. Where there is no memory, the old bytes stand in front of what it leaves.
#[tactic(auto, using(crate::proofs::Buffers::keeps_self, crate::proofs::Buffers::keeps_more))]
pub fn write_line(out: &mut Vec<u8>, line: &[u8]) -> Result<(), AllocError>
    ensures ok { OnOk result (out.new.items ≡ out.old.items ++ (line.now ++ 10 ∷ [])) }
    ensures err { OnErr result (Keeps out.old.items out.new.items) }
{
    out.extend_from_slice(line)?;
    out.push(b'\n')?;
    Ok(())
}
