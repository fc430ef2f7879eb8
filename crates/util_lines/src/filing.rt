//! A text that is written to a file.

ghost use Rattle.std.specs.Prelude.{◌≡◌, true, Some};
ghost use Rattle.hs_view.specs.Acts.{Acts, only};
ghost use Rattle.hs_view.specs.View.{Showed};
ghost use Rattle.hs_world.specs.Files.{entry_at, is_dir};
ghost use Rattle.hs_world.specs.Paths.{parent};
ghost use Rattle.hs_world.specs.World.{WorldData, is_valid};
ghost use Rattle.hs_world.specs.declared.effect.Effect.TheVariants as effect;
ghost use Rattle.util_lines.specs.Filing as spec;

use hs_text::Text;
use hs_view::{Base, Halt, View};
use hs_world::{Effect, Kind, PathName};
use std::alloc::Global;
use util_common::{Why, write_message};

/// What is written, and the status where that is done.
#[derive(Drop)]
pub struct Output {
    pub alloc: Global,
    pub text: Text,
    pub status: u8,
}

/// Makes a file, or makes it anew.
fn put_file<B: Base>(output: &Output, path: &PathName, view: &mut View<B>) -> Result<u8, Halt>
    requires valid { (u : WorldData) → Showed B.seen view.old view.old u → is_valid (effect.Put path.now output.now.text) u ≡ true }
    ensures { Acts B.seen (only (effect.Put path.now output.now.text) output.now.status) view.old view.new result }
{
    let path = path.clone()?;
    let text = output.text.clone()?;
    view.put(Effect::Put(path, text))?;
    Ok(output.status)
}

fn is_folder(kind: Kind) -> bool
    ensures { result ≡ spec.is_folder kind }
{
    matches!(kind, Kind::Dir)
}

/// Makes a file where there is a folder for it.
fn make_file<B: Base>(
    output: &Output,
    word: &Text,
    path: &PathName,
    view: &mut View<B>,
) -> Result<u8, Halt>
    requires free { (u : WorldData) → Showed B.seen view.old view.old u → spec.is_free (entry_at u.tree path.now) ≡ true }
    ensures { Acts B.seen (λ w. spec.told word.now output.now.status (spec.made_in (is_dir (entry_at w.tree (parent path.now))) path.now output.now.text) w) view.old view.new result }
{
    let mut folder = path.clone()?;
    folder.pop();
    let kind = view.kind(&folder)?;
    if is_folder(kind) {
        return put_file(output, path, view);
    }
    write_message(output.alloc, b"uniq", word, Why::NoSuchFolder, view)
}

/// Writes to a path.
fn write_at<B: Base>(
    output: &Output,
    word: &Text,
    path: &PathName,
    view: &mut View<B>,
) -> Result<u8, Halt>
    ensures { Acts B.seen (spec.path_written output.now.text word.now output.now.status (Some path.now)) view.old view.new result }
{
    match view.kind(path)? {
        Kind::File => make_file(output, word, path, view),
        Kind::Absent => make_file(output, word, path, view),
        Kind::Dir => write_message(output.alloc, b"uniq", word, Why::IsFolder, view),
        Kind::Other => write_message(output.alloc, b"uniq", word, Why::OtherKind, view),
    }
}

/// Writes to a path, where there is one.
fn write_path<B: Base>(
    output: &Output,
    word: &Text,
    path: Option<PathName>,
    view: &mut View<B>,
) -> Result<u8, Halt>
    ensures { Acts B.seen (spec.path_written output.now.text word.now output.now.status path) view.old view.new result }
{
    match path {
        Some(path) => write_at(output, word, &path, view),
        None => write_message(output.alloc, b"uniq", word, Why::BadName, view),
    }
}

/// Writes to the file that a word names, seen from the current folder: it is made, or made anew.
pub fn write_file<B: Base>(output: &Output, word: &Text, view: &mut View<B>) -> Result<u8, Halt>
    ensures { Acts B.seen (spec.file_written output.now.text word.now output.now.status) view.old view.new result }
{
    let cwd = view.cwd()?;
    let path = PathName::resolve(output.alloc, &cwd, word.as_slice())?;
    write_path(output, word, path, view)
}
