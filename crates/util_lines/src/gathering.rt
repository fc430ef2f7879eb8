//! Contents of several operands, which are all read before anything is written.

ghost use Rattle.std.specs.Prelude.{◌≡◌, ◌∷◌, ◌++◌, [], IfOk};
ghost use Rattle.hs_view.specs.Acts.{Acts};
ghost use Rattle.hs_world.specs.declared.effect.Fd.TheVariants as fd;
ghost use Rattle.util_common.specs.Messages as line;
ghost use Rattle.util_common.specs.Operands.{emitted};
ghost use Rattle.util_lines.specs.Gathering as spec;

use hs_text::{Text, TextList};
use hs_view::{Base, Halt, View};
use hs_world::Fd;
use std::alloc::{AllocError, Global};
use util_common::{Content, Why, emit, message_on, take_content};

/// The contents that were read, in order, and the status: not 0 where an operand was refused, which has no content here.
#[derive(Drop)]
pub struct Gathered {
    pub contents: TextList,
    pub status: u8,
}

/// Who reads the operands, and the status where one is refused.
#[derive(Clone, Copy)]
pub struct Reader<'a> {
    pub alloc: Global,
    pub utility: &'a [u8],
    pub bad: u8,
}

/// The contents with one more.
fn with_content(so_far: Gathered, content: Text) -> Result<Gathered, AllocError>
    ensures { IfOk result (λ more. more ≡ spec.gathered (so_far.contents ++ content ∷ []) so_far.status) }
{
    let Gathered {
        mut contents,
        status,
    } = so_far;
    contents.push(content)?;
    Ok(Gathered { contents, status })
}

/// Writes the message on an operand that is refused, and answers the status.
fn write_refusal<B: Base>(
    reader: &Reader<'_>,
    word: &Text,
    why: Why,
    view: &mut View<B>,
) -> Result<u8, Halt>
    ensures { Acts B.seen (emitted fd.Two (line.message_on reader.now.utility.now word.now why) reader.now.bad) view.old view.new result }
{
    let text = message_on(reader.alloc, reader.utility, word, why)?;
    emit(Fd::Two, text, reader.bad, view)
}

/// The same contents, and the status of an operand that is refused.
fn refuse_operand<B: Base>(
    reader: &Reader<'_>,
    so_far: Gathered,
    word: &Text,
    why: Why,
    view: &mut View<B>,
) -> Result<Gathered, Halt>
    ensures { Acts B.seen (spec.refused_gathered reader.now.utility.now reader.now.bad so_far word.now why) view.old view.new result }
{
    let status = write_refusal(reader, word, why, view)?;
    let Gathered {
        contents,
        status: _,
    } = so_far;
    Ok(Gathered { contents, status })
}

/// The contents with what one operand has.
fn gather_content<B: Base>(
    reader: &Reader<'_>,
    so_far: Gathered,
    word: &Text,
    content: Content,
    view: &mut View<B>,
) -> Result<Gathered, Halt>
    ensures { Acts B.seen (spec.content_gathered reader.now.utility.now reader.now.bad so_far word.now content) view.old view.new result }
{
    match content {
        Content::Bytes(bytes) => {
            let more = with_content(so_far, bytes)?;
            Ok(more)
        }
        Content::Refused(why) => refuse_operand(reader, so_far, word, why, view),
    }
}

/// The contents with that of one operand more.
fn gather_operand<B: Base>(
    reader: &Reader<'_>,
    so_far: Gathered,
    word: &Text,
    view: &mut View<B>,
) -> Result<Gathered, Halt>
    ensures { Acts B.seen (spec.operand_gathered reader.now.utility.now reader.now.bad so_far word.now) view.old view.new result }
{
    let content = take_content(reader.alloc, word, view)?;
    gather_content(reader, so_far, word, content, view)
}

/// The contents of operands, in order. An operand that is refused has its message, and the next one follows. Each content is read
/// after the messages on the operands before it.
pub fn gather<B: Base>(
    reader: &Reader<'_>,
    words: &[Text],
    view: &mut View<B>,
) -> Result<Gathered, Halt>
    ensures { Acts B.seen (spec.operands_gathered reader.now.utility.now reader.now.bad spec.none_yet words.now) view.old view.new result }
{
    let mut so_far = Gathered {
        contents: TextList::new(reader.alloc),
        status: 0,
    };
    for word in words {
        so_far = gather_operand(reader, so_far, word, view)?;
    }
    Ok(so_far)
}
