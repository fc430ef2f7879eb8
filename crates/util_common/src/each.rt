//! Operands, one after another, for each of which one text is written.

ghost use Rattle.std.specs.Prelude.{◌≡◌, ℕ, List, [], ◌∷◌, ◌++◌, IfOk, OnOk};
ghost use Rattle.hs_view.specs.Acts.{Acts};
ghost use Rattle.hs_world.specs.declared.effect.Fd.TheVariants.{Two};
ghost use Rattle.util_common.specs.Messages.{message_on};
ghost use Rattle.util_common.specs.Operands.{Filtered, Writer, content_written, emitted, none_yet, operand_written, operands_written, or_input, progress_of};
ghost use Rattle.util_common.specs.declared.content.Content.TheVariants as content;

use crate::content::{Content, take_content};
use crate::emitting::emit;
use crate::messages::{Why, message_on};
use crate::words::operands_or_input;
use hs_text::{Text, TextList};
use hs_view::{Base, Halt, View};
use hs_world::Fd;
use std::alloc::{AllocError, Global};

/// What a utility writes for the content of an operand.
pub trait Filter {
    /// That the filter, behind these contents, writes as the function says.
    ghost writes: { Self → Writer → List (List ℕ) → Type 0 };

    /// The text for an operand that has this content.
    fn filter(&mut self, word: &Text, content: Text) -> Result<Text, AllocError>
        ensures text { (text : Writer) → (before : List (List ℕ)) → writes self.old text before → IfOk result (λ out. out ≡ text before word.now content) }
        ensures behind { (text : Writer) → (before : List (List ℕ)) → writes self.old text before → OnOk result (writes self.new text (before ++ content ∷ [])) };
}

/// Writes the text for a content.
fn write_content<B: Base, F: Filter>(
    word: &Text,
    bytes: Text,
    status: u8,
    filter: &mut F,
    view: &mut View<B>,
) -> Result<u8, Halt>
    ensures { (utility : List ℕ) → (text : Writer) → (before : List (List ℕ)) → F.writes filter.old text before → Filtered (F.writes filter.new text) B.seen (content_written utility text (progress_of before status) word.now (content.Bytes bytes)) view.old view.new result }
{
    let out = filter.filter(word, bytes)?;
    emit(Fd::One, out, status, view)
}

/// Writes the message on an operand that is refused.
pub fn write_message<B: Base>(
    alloc: Global,
    utility: &[u8],
    word: &Text,
    why: Why,
    view: &mut View<B>,
) -> Result<u8, Halt>
    ensures { Acts B.seen (emitted Two (message_on utility.now word.now why) 1) view.old view.new result }
{
    let line = message_on(alloc, utility, word, why)?;
    emit(Fd::Two, line, 1, view)
}

/// Writes for one operand, and answers the status from that so far.
fn filter_operand<B: Base, F: Filter>(
    alloc: Global,
    utility: &[u8],
    word: &Text,
    status: u8,
    filter: &mut F,
    view: &mut View<B>,
) -> Result<u8, Halt>
    ensures { (text : Writer) → (before : List (List ℕ)) → F.writes filter.old text before → Filtered (F.writes filter.new text) B.seen (operand_written utility.now text (progress_of before status) word.now) view.old view.new result }
{
    match take_content(alloc, word, view)? {
        Content::Bytes(bytes) => write_content(word, bytes, status, filter, view),
        Content::Refused(why) => write_message(alloc, utility, word, why, view),
    }
}

/// Writes one text for each operand, in order, and answers the status: 1 where an operand is refused, whose message is written
/// in place of a text. Each content is read after what the operands before it wrote.
pub fn filter_operands<B: Base, F: Filter>(
    alloc: Global,
    utility: &[u8],
    words: &[Text],
    filter: &mut F,
    view: &mut View<B>,
) -> Result<u8, Halt>
    ensures { (text : Writer) → F.writes filter.old text [] → Filtered (F.writes filter.new text) B.seen (operands_written utility.now text none_yet words.now) view.old view.new result }
{
    let mut status = 0;
    for word in words {
        status = filter_operand(alloc, utility, word, status, filter, view)?;
    }
    Ok(status)
}

/// The same for the operands of a command, or for standard input where there is none.
pub fn filter_files<B: Base, F: Filter>(
    alloc: Global,
    utility: &[u8],
    operands: TextList,
    filter: &mut F,
    view: &mut View<B>,
) -> Result<u8, Halt>
    ensures { (text : Writer) → F.writes filter.old text [] → Filtered (F.writes filter.new text) B.seen (operands_written utility.now text none_yet (or_input operands)) view.old view.new result }
{
    let words = operands_or_input(alloc, operands)?;
    filter_operands(alloc, utility, words.as_slice(), filter, view)
}
