//! `pwd` (POSIX.1-2017, XCU, `pwd`).

ghost use Rattle.std.specs.Prelude.{◌≡◌, IfOk, Ok};
ghost use Rattle.hs_view.specs.Acts.{Acts};
ghost use Rattle.util_print.specs.Folder as spec;

use crate::components::line_of;
use hs_text::{Text, TextList};
use hs_view::{Base, Halt, View};
use hs_world::{Fd, PathName};
use std::alloc::{AllocError, Global};
use util_common::{Why, emit, read_words, refuse, refuse_words};

/// Names, each with a slash before it.
fn names_text(alloc: Global, names: &[Text]) -> Result<Text, AllocError>
    ensures { IfOk result (λ text. text ≡ spec.names_text names.now) }
{
    let mut text = Text::new(alloc);
    'names: for name in names {
        text.extend(b"/")?;
        text.extend(name.as_slice())?;
    }
    Ok(text)
}

/// A path from the root: the root is a slash alone.
fn path_text(alloc: Global, path: &[Text]) -> Result<Text, AllocError>
    ensures { IfOk result (λ text. text ≡ spec.path_text path.now) }
{
    match path {
        [] => Text::from_slice(alloc, b"/"),
        _ => names_text(alloc, path),
    }
}

/// The line with a path.
fn path_line(alloc: Global, path: &PathName) -> Result<Text, AllocError>
    ensures { IfOk result (λ line. line ≡ spec.path_line path.now) }
{
    let text = path_text(alloc, path.names())?;
    line_of(alloc, text.as_slice())
}

/// Writes the current folder.
fn write_folder<B: Base>(alloc: Global, view: &mut View<B>) -> Result<u8, Halt>
    ensures { Acts B.seen spec.folder_written view.old view.new result }
{
    let path = view.cwd()?;
    let line = path_line(alloc, &path)?;
    emit(Fd::One, line, 0, view)
}

/// Whether there are operands.
fn has_words(operands: &[Text]) -> bool
    ensures { result ≡ spec.has_words operands.now }
{
    matches!(operands, [_, ..])
}

/// Writes the current folder, where there are no operands.
fn write_for<B: Base>(alloc: Global, operands: &[Text], view: &mut View<B>) -> Result<u8, Halt>
    ensures { Acts B.seen (spec.pwd_of operands.now) view.old view.new result }
{
    if has_words(operands) {
        return refuse(alloc, b"pwd", Why::ExtraOperand, view);
    }
    write_folder(alloc, view)
}

/// Writes the path of the current folder, and a newline. It has no options and no operands.
pub fn pwd<B: Base>(alloc: Global, args: &TextList, view: &mut View<B>) -> Result<u8, Halt>
    ensures { Acts B.seen (spec.pwd args.now) view.old view.new result }
{
    match read_words(alloc, &[], args) {
        Ok(words) => write_for(alloc, words.operands.as_slice(), view),
        Err(err) => refuse_words(alloc, b"pwd", err, view),
    }
}
