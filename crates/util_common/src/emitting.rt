//! One text, and no more.

ghost use Rattle.hs_view.specs.Acts.{Acts};
ghost use Rattle.util_common.specs.Operands.{emitted, refused};

use crate::messages::{Why, message};
use hs_text::Text;
use hs_view::{Base, Halt, View};
use hs_world::{Effect, Fd};
use std::alloc::Global;

/// Writes a text to a descriptor, and answers the status.
pub fn emit<B: Base>(fd: Fd, text: Text, status: u8, view: &mut View<B>) -> Result<u8, Halt>
    ensures { Acts B.seen (emitted fd text status) view.old view.new result }
{
    view.put(Effect::Emit(fd, text))?;
    Ok(status)
}

/// Writes why the words of a utility are refused, and answers 2.
pub fn refuse<B: Base>(
    alloc: Global,
    utility: &[u8],
    why: Why,
    view: &mut View<B>,
) -> Result<u8, Halt>
    ensures { Acts B.seen (refused utility.now why) view.old view.new result }
{
    let text = message(alloc, utility, why)?;
    emit(Fd::Two, text, 2, view)
}
