//! Operands that are all read before anything is written of them.

ghost use Rattle.std.specs.Prelude.{◌≡◌, [], ◌∷◌, ◌++◌, IfOk};
ghost use Rattle.hs_view.specs.Acts.{Acts};
ghost use Rattle.util_common.specs.declared.content.Content.TheVariants as content;
ghost use Rattle.util_text.specs.Gathering as spec;

use hs_text::{Text, TextList};
use hs_view::{Base, Halt, View};
use std::alloc::{AllocError, Global};
use util_common::{Content, Why, take_content, write_message};

/// The contents that were read, in order, and the status: 1 where an operand was refused.
#[derive(Drop)]
pub struct Gathered {
    pub contents: TextList,
    pub status: u8,
}

/// Puts a content at the end.
fn with_content(so_far: Gathered, content: Text) -> Result<Gathered, AllocError>
    ensures { IfOk result (λ r. r ≡ spec.gathered (so_far.contents ++ content ∷ []) so_far.status) }
{
    let Gathered { contents, status } = so_far;
    let mut contents = contents;
    contents.push(content)?;
    Ok(Gathered { contents, status })
}

/// Writes the message on an operand that is refused.
fn refuse_operand<B: Base>(
    alloc: Global,
    utility: &[u8],
    word: &Text,
    why: Why,
    so_far: Gathered,
    view: &mut View<B>,
) -> Result<Gathered, Halt>
    ensures { Acts B.seen (spec.content_gathered utility.now so_far word.now (content.Refused why)) view.old view.new result }
{
    let Gathered {
        contents,
        status: _,
    } = so_far;
    let status = write_message(alloc, utility, word, why, view)?;
    Ok(Gathered { contents, status })
}

/// Reads one operand more.
fn gather_operand<B: Base>(
    alloc: Global,
    utility: &[u8],
    word: &Text,
    so_far: Gathered,
    view: &mut View<B>,
) -> Result<Gathered, Halt>
    ensures { Acts B.seen (spec.operand_gathered utility.now so_far word.now) view.old view.new result }
{
    match take_content(alloc, word, view)? {
        Content::Bytes(bytes) => Ok(with_content(so_far, bytes)?),
        Content::Refused(why) => refuse_operand(alloc, utility, word, why, so_far, view),
    }
}

/// Reads all operands, in order. One that is refused has its message.
pub fn gather_operands<B: Base>(
    alloc: Global,
    utility: &[u8],
    words: &[Text],
    view: &mut View<B>,
) -> Result<Gathered, Halt>
    ensures { Acts B.seen (spec.operands_gathered utility.now spec.none_gathered words.now) view.old view.new result }
{
    let mut so_far = Gathered {
        contents: TextList::new(alloc),
        status: 0,
    };
    for word in words {
        so_far = gather_operand(alloc, utility, word, so_far, view)?;
    }
    Ok(so_far)
}
