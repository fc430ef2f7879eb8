//! How long the texts of a command are. Every limit of bytes takes 1,024 of them.

ghost use Rattle.std.specs.Prelude.{◌≡◌, nat_lt, Ok, IfOk};
ghost use Rattle.hs_view.specs.Acts.{Acts};
ghost use Rattle.sh_leaf.specs.Expanding as spec;

use hs_text::{Text, TextList};
use hs_view::{Base, Halt, View};
use hs_world::Effect;
use std::alloc::{AllocError, Global};

/// Whether the texts, with one byte more for each, are longer than 1,024 bytes. It looks at 1,024 of them at most.
fn are_long(texts: &[Text]) -> bool
    ensures { result ≡ nat_lt 1024 (spec.list_length texts.now) }
{
    let mut left = 1024;
    for text in texts {
        let len = text.len();
        if len >= left {
            return true;
        }
        left -= len + 1;
    }
    false
}

/// The texts as lines. Each byte is copied once.
fn lines_of(alloc: Global, texts: &[Text]) -> Result<Text, AllocError>
    ensures { IfOk result (λ lines. lines ≡ spec.lines_of texts.now) }
{
    let mut lines = Text::new(alloc);
    for text in texts {
        lines.extend(text.as_slice())?;
        lines.extend(b"\n")?;
    }
    Ok(lines)
}

/// Puts a text in place of standard input, and takes it away.
fn put_and_take<B: Base>(text: Text, view: &mut View<B>) -> Result<(), Halt>
    ensures { Acts B.seen (spec.taken_away text) view.old view.new result }
{
    view.put(Effect::PushInput(text))?;
    view.put(Effect::PopInput)
}

fn measure_long<B: Base>(alloc: Global, texts: &[Text], view: &mut View<B>) -> Result<(), Halt>
    ensures { Acts B.seen (spec.taken_away (spec.lines_of texts.now)) view.old view.new result }
{
    let lines = lines_of(alloc, texts)?;
    put_and_take(lines, view)
}

/// Measures the texts of a command, where they are long.
pub fn measure<B: Base>(alloc: Global, texts: &TextList, view: &mut View<B>) -> Result<(), Halt>
    ensures { Acts B.seen (spec.measured_done texts.now) view.old view.new result }
{
    if are_long(texts.as_slice()) {
        return measure_long(alloc, texts.as_slice(), view);
    }
    Ok(())
}
