//! Which texts are too long for an effect of a view. No call takes memory.

ghost use Rattle.std.specs.Prelude.{◌≡◌, ◌++◌, List, ℕ, Option, option_copied, option_map};
ghost use Rattle.hs_world.specs.Tables.{fd_number};
ghost use Rattle.hs_overlay.specs.Routing.{file_over};
ghost use Rattle.hs_world.specs.Tables.{taker_in};
ghost use Rattle.hs_overlay.specs.Sizes.{capped_length, grows_long, has_long, is_long, is_long_in, over_passes, whole_at, whole_file};

use crate::files::Files;
use crate::overlay::{Overlay, number_of};
use crate::paths::PathOver;
use crate::shown::file_of;
use hs_text::Text;
use hs_world::{Effect, Fd};

/// The most bytes of a text.
const MOST_BYTES: usize = 268_435_456;

impl Overlay {
    /// Whether a text of the effect, or a capture or a file that the effects have made whole, would be longer than
    /// 268,435,456 bytes.
    pub fn passes(&self, effect: &Effect) -> bool
        ensures { result ≡ over_passes effect.now self.now }
    {
        match effect {
            Effect::SetVar(name, var) => is_long(name) || is_long_in(&var.value),
            Effect::UnsetVar(name) => is_long(name),
            Effect::SetFunc(name, _) => is_long(name),
            Effect::UnsetFunc(name) => is_long(name),
            Effect::SetParams(params) => has_long(params.as_slice()),
            Effect::Put(_, text) => is_long(text),
            Effect::Append(path, text) => grows_long(self.files.whole_len(path.names()), text),
            Effect::Emit(fd, text) => grows_long(self.emitted_len(*fd), text),
            Effect::PushInput(text) => is_long(text),
            Effect::SetInput(text) => is_long(text),
            Effect::SetKept(_, text) => is_long_in(text),
            Effect::ExecInput(text) => is_long(text),
            Effect::Replied(reply) => is_long(&reply.out) || is_long(&reply.err),
            _ => false,
        }
    }

    /// How long what takes up the bytes of a descriptor is, where the effects have made it whole.
    fn emitted_len(&self, fd: Fd) -> Option<usize>
        ensures { result ≡ capped_length (whole_at (file_over (fd_number fd) self.now.routing) (taker_in (fd_number fd) self.now.routing.pushed) self.now.files) }
    {
        let descriptor = number_of(fd);
        match self.routing.file(descriptor) {
            Some(path) => self.files.whole_len(path.names()),
            None => len_of(self.routing.taker(descriptor)),
        }
    }
}

impl Files {
    /// How long a file is that the effects have made whole.
    fn whole_len(&self, path: &[Text]) -> Option<usize>
        ensures { result ≡ capped_length (whole_file self.now path.now) }
    {
        match (self.paths.get(path), &self.left) {
            (Some(PathOver::Whole(entry)), _) => len_of(file_of(entry)),
            (Some(PathOver::Longer(more)), Some(tree)) => len_with(tree.file(path), more),
            (None, Some(tree)) => len_of(tree.file(path)),
            (_, None) => None,
        }
    }
}

fn len_of(text: Option<&Text>) -> Option<usize>
    ensures { result ≡ capped_length (option_copied text.entry) }
{
    match text {
        Some(text) => Some(text.len()),
        None => None,
    }
}

fn len_with(text: Option<&Text>, more: &Text) -> Option<usize>
    ensures { result ≡ capped_length (option_map (λ t. t ++ more.now) (option_copied text.entry)) }
{
    match text {
        Some(text) => Some(text.len().saturating_add(more.len())),
        None => None,
    }
}

fn is_long(text: &Text) -> bool
    ensures { result ≡ is_long text.now }
{
    text.len() > MOST_BYTES
}

fn is_long_in(text: &Option<Text>) -> bool
    ensures { result ≡ is_long_in text.now }
{
    match text {
        Some(text) => is_long(text),
        None => false,
    }
}

fn has_long(texts: &[Text]) -> bool
    ensures { result ≡ has_long texts.now }
{
    match texts.split_first() {
        None => false,
        Some((text, rest)) => is_long(text) || has_long(rest),
    }
}

/// Whether a text is too long, or what has it at its end then.
fn grows_long(old: Option<usize>, more: &Text) -> bool
    ensures { (text : Option (List ℕ)) → old ≡ capped_length text → result ≡ grows_long text more.now }
{
    match old {
        None => is_long(more),
        Some(old) => old.saturating_add(more.len()) > MOST_BYTES,
    }
}
