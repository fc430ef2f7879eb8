//! `tee` (POSIX.1-2017, XCU, `tee`).

ghost use Rattle.std.specs.Prelude.{◌≡◌, true, Some, Ok, Err};
ghost use Rattle.hs_view.specs.Acts.{Acts, only};
ghost use Rattle.hs_view.specs.View.{Showed};
ghost use Rattle.hs_world.specs.Files.{entry_at, is_dir, is_file};
ghost use Rattle.hs_world.specs.Paths.{parent};
ghost use Rattle.hs_world.specs.World.{WorldData, is_valid};
ghost use Rattle.hs_world.specs.declared.effect.Effect.TheVariants as effect;
ghost use Rattle.util_text.specs.Teeing as spec;

use hs_text::{Text, TextList};
use hs_view::{Base, Halt, View};
use hs_world::{Effect, Fd, Kind, PathName};
use std::alloc::Global;
use util_common::{Why, emit, is_given, read_input, read_words, refuse_words, write_message};
use util_opts::Options;

/// What is written to each file, and whether it is appended.
#[derive(Drop)]
pub struct Copied {
    pub alloc: Global,
    pub append: bool,
    pub text: Text,
}

/// Makes a file, or makes it anew.
fn put_file<B: Base>(
    copied: &Copied,
    path: &PathName,
    status: u8,
    view: &mut View<B>,
) -> Result<u8, Halt>
    requires valid { (u : WorldData) → Showed B.seen view.old view.old u → is_valid (effect.Put path.now copied.now.text) u ≡ true }
    ensures { Acts B.seen (only (effect.Put path.now copied.now.text) status) view.old view.new result }
{
    let path = path.clone()?;
    let text = copied.text.clone()?;
    view.put(Effect::Put(path, text))?;
    Ok(status)
}

/// Puts the text at the end of a file.
fn append_file<B: Base>(
    copied: &Copied,
    path: &PathName,
    status: u8,
    view: &mut View<B>,
) -> Result<u8, Halt>
    requires file { (u : WorldData) → Showed B.seen view.old view.old u → is_file (entry_at u.tree path.now) ≡ true }
    ensures { Acts B.seen (only (effect.Append path.now copied.now.text) status) view.old view.new result }
{
    let path = path.clone()?;
    let text = copied.text.clone()?;
    view.put(Effect::Append(path, text))?;
    Ok(status)
}

fn is_folder(kind: Kind) -> bool
    ensures { result ≡ spec.is_folder kind }
{
    matches!(kind, Kind::Dir)
}

/// Makes a file where there is a folder for it.
fn make_file<B: Base>(
    copied: &Copied,
    word: &Text,
    path: &PathName,
    status: u8,
    view: &mut View<B>,
) -> Result<u8, Halt>
    requires free { (u : WorldData) → Showed B.seen view.old view.old u → spec.is_free (entry_at u.tree path.now) ≡ true }
    ensures { Acts B.seen (λ w. spec.told word.now status (spec.made_in (is_dir (entry_at w.tree (parent path.now))) path.now copied.now.text) w) view.old view.new result }
{
    let mut folder = path.clone()?;
    folder.pop();
    let kind = view.kind(&folder)?;
    if is_folder(kind) {
        return put_file(copied, path, status, view);
    }
    write_message(copied.alloc, b"tee", word, Why::NoSuchFolder, view)
}

/// Writes to a file that is there.
fn write_over<B: Base>(
    copied: &Copied,
    word: &Text,
    path: &PathName,
    status: u8,
    view: &mut View<B>,
) -> Result<u8, Halt>
    requires file { (u : WorldData) → Showed B.seen view.old view.old u → is_file (entry_at u.tree path.now) ≡ true }
    ensures { Acts B.seen (λ w. spec.told word.now status (spec.written_over copied.now.append (is_dir (entry_at w.tree (parent path.now))) path.now copied.now.text) w) view.old view.new result }
{
    if copied.append {
        return append_file(copied, path, status, view);
    }
    make_file(copied, word, path, status, view)
}

/// Writes to a path.
fn write_at<B: Base>(
    copied: &Copied,
    word: &Text,
    path: &PathName,
    status: u8,
    view: &mut View<B>,
) -> Result<u8, Halt>
    ensures { Acts B.seen (spec.path_written copied.now.append copied.now.text word.now status (Some path.now)) view.old view.new result }
{
    match view.kind(path)? {
        Kind::File => write_over(copied, word, path, status, view),
        Kind::Absent => make_file(copied, word, path, status, view),
        Kind::Dir => write_message(copied.alloc, b"tee", word, Why::IsFolder, view),
        Kind::Other => write_message(copied.alloc, b"tee", word, Why::OtherKind, view),
    }
}

/// Writes to a path, where there is one.
fn write_path<B: Base>(
    copied: &Copied,
    word: &Text,
    path: Option<PathName>,
    status: u8,
    view: &mut View<B>,
) -> Result<u8, Halt>
    ensures { Acts B.seen (spec.path_written copied.now.append copied.now.text word.now status path) view.old view.new result }
{
    match path {
        Some(path) => write_at(copied, word, &path, status, view),
        None => write_message(copied.alloc, b"tee", word, Why::BadName, view),
    }
}

/// Writes to the file that a word names, seen from the current folder.
fn write_file<B: Base>(
    copied: &Copied,
    word: &Text,
    status: u8,
    view: &mut View<B>,
) -> Result<u8, Halt>
    ensures { Acts B.seen (spec.file_written copied.now.append copied.now.text word.now status) view.old view.new result }
{
    let cwd = view.cwd()?;
    let path = PathName::resolve(copied.alloc, &cwd, word.as_slice())?;
    write_path(copied, word, path, status, view)
}

/// Writes to each file.
fn write_files<B: Base>(
    copied: &Copied,
    status: u8,
    words: &[Text],
    view: &mut View<B>,
) -> Result<u8, Halt>
    ensures { Acts B.seen (spec.files_written copied.now.append copied.now.text status words.now) view.old view.new result }
{
    let mut so_far = status;
    for word in words {
        so_far = write_file(copied, word, so_far, view)?;
    }
    Ok(so_far)
}

/// Writes a text to standard output, and then to each file.
fn copy_text<B: Base>(copied: &Copied, words: &[Text], view: &mut View<B>) -> Result<u8, Halt>
    ensures { Acts B.seen (spec.copied copied.now.append words.now copied.now.text) view.old view.new result }
{
    let text = copied.text.clone()?;
    let status = emit(Fd::One, text, 0, view)?;
    write_files(copied, status, words, view)
}

/// Copies standard input.
fn copy_input<B: Base>(
    alloc: Global,
    append: bool,
    words: &[Text],
    view: &mut View<B>,
) -> Result<u8, Halt>
    ensures { Acts B.seen (spec.input_copied append words.now) view.old view.new result }
{
    let text = read_input(alloc, view)?;
    let copied = Copied {
        alloc,
        append,
        text,
    };
    copy_text(&copied, words, view)
}

/// Copies standard input to standard output, and then to each operand: a file is made, or made anew, or with `-a` appended to. An
/// operand that cannot be written has its message, and the status is 1 then. `-` is a file as any other.
pub fn tee<B: Base>(alloc: Global, args: &TextList, view: &mut View<B>) -> Result<u8, Halt>
    ensures { Acts B.seen (spec.tee args.now) view.old view.new result }
{
    match read_words(alloc, &[(b'a', false)], args) {
        Ok(words) => {
            let Options { given, operands } = words;
            let append = is_given(&given, b'a');
            drop(given);
            copy_input(alloc, append, operands.as_slice(), view)
        }
        Err(err) => refuse_words(alloc, b"tee", err, view),
    }
}
