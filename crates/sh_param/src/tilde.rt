//! Tilde expansion (POSIX.1-2017, XCU 2.6.1) and bytes that stand for themselves.

ghost use Rattle.std.specs.Prelude.{◌≡◌, ◌++◌, ◌∷◌, [], OnOk, option_copied};
ghost use Rattle.sh_param.specs.Tildes as spec;

use crate::mode::Mode;
use crate::piece::{Piece, Pieces};
use sh_split::Mark;
use std::alloc::AllocError;

/// What stands behind a text in its word.
#[derive(Clone, Copy, Debug, PartialEq, Eq)]
pub enum Follow {
    /// The word ends.
    End,
    /// A byte that stands for itself.
    Byte(u8),
    /// Something else.
    Other,
}

/// Whether a tilde may stand behind this byte.
fn starts(mode: Mode, byte: u8) -> bool
    ensures { result ≡ spec.starts mode byte }
{
    mode.colons && byte == b':'
}

/// Whether a tilde may stand behind this text.
pub fn starts_after(mode: Mode, start: bool, text: &[u8]) -> bool
    ensures { result ≡ spec.starts_after mode start text.now }
{
    let mut start = start;
    for byte in text {
        start = starts(mode, *byte);
    }
    start
}

/// Whether this byte ends a tilde-prefix.
fn ends(mode: Mode, byte: u8) -> bool
    ensures { result ≡ spec.ends mode byte }
{
    byte == b'/' || starts(mode, byte)
}

/// Whether a tilde before these bytes is all of a tilde-prefix.
fn is_prefix(mode: Mode, follow: Follow, rest: &[u8]) -> bool
    ensures { result ≡ spec.is_prefix mode follow rest.now }
{
    match (rest, follow) {
        ([byte, ..], _) => ends(mode, *byte),
        ([], Follow::End) => true,
        ([], Follow::Byte(byte)) => ends(mode, byte),
        ([], Follow::Other) => false,
    }
}

/// Whether a tilde stands in the text.
pub fn has_tilde(text: &[u8]) -> bool
    ensures { result ≡ spec.has_tilde text.now }
{
    for byte in text {
        if *byte == b'~' {
            return true;
        }
    }
    false
}

impl Pieces {
    /// Puts the value of HOME at the end, as if it were quoted, or a tilde where it has none.
    fn home(&mut self, home: Option<&[u8]>) -> Result<(), AllocError>
        ensures { OnOk result (self.new ≡ self.old ++ spec.home_pieces (option_copied home.entry)) }
    {
        match home {
            Some(bytes) => {
                self.quotes()?;
                self.quote(bytes)
            }
            None => self.push(Piece::Mark(Mark::Written(b'~'))),
        }
    }

    /// Puts a byte that stands for itself at the end, or what a tilde stands for.
    fn write_byte(
        &mut self,
        mode: Mode,
        tilde: bool,
        byte: u8,
        home: Option<&[u8]>,
    ) -> Result<(), AllocError>
        ensures { OnOk result (self.new ≡ self.old ++ spec.byte_pieces mode tilde byte (option_copied home.entry)) }
    {
        if tilde {
            return self.home(home);
        }
        self.push(Piece::Mark(mode.literal(byte)))
    }

    /// Puts bytes at the end that stand for themselves, and in place of tildes the value of HOME.
    pub fn write(
        &mut self,
        mode: Mode,
        start: bool,
        text: &[u8],
        follow: Follow,
        home: Option<&[u8]>,
    ) -> Result<(), AllocError>
        ensures { OnOk result (self.new ≡ self.old ++ spec.text_pieces mode start (option_copied home.entry) follow text.now) }
    {
        let mut start = start;
        let mut rest = text;
        'bytes: while let Some((byte, after)) = rest.split_first() {
            let tilde = start && *byte == b'~' && is_prefix(mode, follow, after);
            self.write_byte(mode, tilde, *byte, home)?;
            start = starts(mode, *byte);
            rest = after;
        }
        Ok(())
    }
}
