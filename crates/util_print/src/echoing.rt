//! `echo` (POSIX.1-2017, XCU, `echo`).

ghost use Rattle.std.specs.Prelude.{◌≡◌, IfOk};
ghost use Rattle.hs_view.specs.Acts.{Acts};
ghost use Rattle.util_print.specs.Echo as spec;

use hs_text::{Text, TextList};
use hs_view::{Base, Halt, View};
use hs_world::Fd;
use std::alloc::{AllocError, Global};
use util_common::emit;

/// The line that is written.
fn line_of(alloc: Global, words: &[Text]) -> Result<Text, AllocError>
    ensures { IfOk result (λ line. line ≡ spec.echo_line words.now) }
{
    let mut line = Text::new(alloc);
    let mut first = true;
    for word in words {
        if !first {
            line.extend(b" ")?;
        }
        first = false;
        line.extend(word.as_slice())?;
    }
    line.extend(b"\n")?;
    Ok(line)
}

/// Writes its words, separated by spaces, and a newline. It has no options, and writes backslashes as they are.
pub fn echo<B: Base>(alloc: Global, args: &TextList, view: &mut View<B>) -> Result<u8, Halt>
    ensures { Acts B.seen (spec.echo args.now) view.old view.new result }
{
    let line = line_of(alloc, args.as_slice())?;
    emit(Fd::One, line, 0, view)
}
