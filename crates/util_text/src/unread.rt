//! Texts that are taken line by line.

ghost use Rattle.std.specs.Prelude.{◌≡◌, ◌≤◌, ◌++◌, drop, length, OnErr, OnOk};
ghost use Rattle.util_text.specs.Buffer.{Keeps};
ghost use Rattle.util_text.specs.Lines.{lines};
ghost use Rattle.util_text.specs.Paste as spec;

use hs_text::Text;
use memchr::memchr;
use std::alloc::AllocError;
use std::marker::Model;

/// The lines of a text that are not taken yet.
#[derive(Drop)]
pub struct Unread {
    text: Text,
    start: usize,
}

impl Model for Unread {
    ghost use Rattle.std.specs.Prelude.{ℕ, List, ◌≤◌, drop, length};
    ghost use Rattle.util_text.specs.Lines.{lines};

    ghost Value = { List (List ℕ) };

    ghost view = { λ u. lines (drop u.start u.text) };

    ghost invariant = { λ u. u.start ≤ length u.text };
}

/// The line that begins at this place, without its newline, and where the next one begins; an empty one at the end of the text.
fn line_from(text: &[u8], start: usize) -> (&[u8], usize)
    requires { start ≤ length text.now }
    ensures line { result.0.now ≡ spec.next (lines (drop start text.now)) }
    ensures left { lines (drop result.1 text.now) ≡ drop 1 (lines (drop start text.now)) }
    ensures within { result.1 ≤ length text.now }
{
    let rest = text.split_at(start).1;
    match memchr(b'\n', rest) {
        Some(at) => (rest.split_at(at).0, start + at + 1),
        None => (rest, text.len()),
    }
}

impl Unread {
    /// All lines of a text.
    pub fn new(text: Text) -> Unread
        ensures { result ≡ lines text }
    {
        Unread { text, start: 0 }
    }

    pub fn is_empty(&self) -> bool
        ensures { result ≡ spec.has_none self.now }
    {
        self.text.as_slice().split_at(self.start).1.is_empty()
    }

    /// Takes the next line, and puts it at the end of a buffer without its newline; nothing where all are taken.
    pub fn write_next(&mut self, out: &mut Vec<u8>) -> Result<(), AllocError>
        ensures ok { OnOk result (out.new.items ≡ out.old.items ++ spec.next self.old) }
        ensures left { OnOk result (self.new ≡ drop 1 self.old) }
        ensures err { OnErr result (Keeps out.old.items out.new.items) }
    {
        let (line, next) = line_from(self.text.as_slice(), self.start);
        out.extend_from_slice(line)?;
        self.start = next;
        Ok(())
    }
}
