//! The contents of operands.

ghost use Rattle.std.specs.Prelude.{◌≡◌};
ghost use Rattle.hs_view.specs.Acts.{Acts};
ghost use Rattle.hs_view.specs.Steps.{nothing};
ghost use Rattle.hs_world.specs.Files.{bytes_of, entry_at};
ghost use Rattle.hs_world.specs.Paths.{resolve};
ghost use Rattle.util_common.specs.Operands as spec;

use crate::messages::Why;
use hs_text::Text;
use hs_view::{Base, Halt, View};
use hs_world::{Effect, Kind, PathName};
use std::alloc::Global;

/// What an operand has: bytes, or why it has none.
#[derive(Clone, Drop)]
pub enum Content {
    Bytes(Text),
    Refused(Why),
}

fn is_dash(word: &[u8]) -> bool
    ensures { result ≡ spec.is_dash word.now }
{
    matches!(word, [b'-'])
}

/// The bytes of a file.
fn bytes_at<B: Base>(path: &PathName, view: &mut View<B>) -> Result<Content, Halt>
    ensures { Acts B.seen (λ w. nothing (spec.bytes_content (bytes_of (entry_at w.tree path.now))) w) view.old view.new result }
{
    match view.bytes(path)? {
        Some(bytes) => Ok(Content::Bytes(bytes)),
        None => Ok(Content::Refused(Why::NoSuchFile)),
    }
}

/// What is at a path.
fn content_at<B: Base>(path: &PathName, view: &mut View<B>) -> Result<Content, Halt>
    ensures { Acts B.seen (λ w. nothing (spec.content_of (entry_at w.tree path.now)) w) view.old view.new result }
{
    match view.kind(path)? {
        Kind::File => bytes_at(path, view),
        Kind::Dir => Ok(Content::Refused(Why::IsFolder)),
        Kind::Other => Ok(Content::Refused(Why::OtherKind)),
        Kind::Absent => Ok(Content::Refused(Why::NoSuchFile)),
    }
}

/// What is at a path, if there is one.
fn content_in<B: Base>(path: Option<PathName>, view: &mut View<B>) -> Result<Content, Halt>
    ensures { Acts B.seen (λ w. nothing (spec.content_in w.tree path) w) view.old view.new result }
{
    match path {
        Some(path) => content_at(&path, view),
        None => Ok(Content::Refused(Why::NoSuchFile)),
    }
}

/// What is at the path that a word names, seen from the current folder.
fn content_named<B: Base>(alloc: Global, word: &Text, view: &mut View<B>) -> Result<Content, Halt>
    ensures { Acts B.seen (λ w. nothing (spec.content_in w.tree (resolve w.cwd word.now)) w) view.old view.new result }
{
    let cwd = view.cwd()?;
    let path = PathName::resolve(alloc, &cwd, word.as_slice())?;
    content_in(path, view)
}

/// All of standard input. Nothing of it is left.
pub fn read_input<B: Base>(alloc: Global, view: &mut View<B>) -> Result<Text, Halt>
    ensures { Acts B.seen spec.input_read view.old view.new result }
{
    let input = view.input()?;
    view.put(Effect::SetInput(Text::new(alloc)))?;
    Ok(input)
}

/// The same as the content of an operand.
fn take_input<B: Base>(alloc: Global, view: &mut View<B>) -> Result<Content, Halt>
    ensures { Acts B.seen spec.input_taken view.old view.new result }
{
    let input = read_input(alloc, view)?;
    Ok(Content::Bytes(input))
}

/// The content of an operand: `-` is standard input, which is used up then.
pub fn take_content<B: Base>(
    alloc: Global,
    word: &Text,
    view: &mut View<B>,
) -> Result<Content, Halt>
    ensures { Acts B.seen (spec.content_taken word.now) view.old view.new result }
{
    if is_dash(word.as_slice()) {
        return take_input(alloc, view);
    }
    content_named(alloc, word, view)
}
