//! How a run ends, and what is told of it.

ghost use Rattle.std.specs.Prelude.{◌≡◌, IfOk};
ghost use Rattle.hs_drive.specs.Ending.{fixed_line_of, status_of, syntax_line_of};

use hs_view::SpentKind;
use itoa::Buffer;
use sh_syntax::Fault;
use std::alloc::{AllocError, Global};

#[derive(Clone, Copy, Debug, PartialEq, Eq)]
pub enum Ending {
    /// The script ran to its end, with this status.
    Done(u8),
    /// The text spells no script: the line on which that is found, and why.
    Syntax { line: u32, fault: Fault },
    /// The words or the script are of a form that is not built yet.
    Unbuilt,
    /// A write to standard output or standard error failed.
    OutFault,
    /// The host failed.
    HostFault,
    /// The run used up what it was given.
    Spent(SpentKind),
    NoMemory,
}

impl Ending {
    /// The exit status.
    pub fn status(self) -> u8
        ensures { result ≡ status_of self }
    {
        match self {
            Ending::Done(status) => status,
            Ending::Syntax { .. } => 2,
            Ending::OutFault => 121,
            Ending::HostFault => 122,
            Ending::Unbuilt => 123,
            Ending::Spent(_) => 124,
            Ending::NoMemory => 125,
        }
    }

    /// The line for standard error, where it has no number in it. It takes no memory.
    pub fn fixed_line(self) -> &'static [u8]
        ensures { result.now ≡ fixed_line_of self }
    {
        match self {
            Ending::Done(_) => b"",
            Ending::Syntax { .. } => b"",
            Ending::OutFault => b"hs: output failed\n",
            Ending::HostFault => b"hs: tree failed\n",
            Ending::Unbuilt => b"hs: not built yet\n",
            Ending::Spent(SpentKind::Turns) => b"hs: budget spent: turns\n",
            Ending::Spent(SpentKind::Bytes) => b"hs: budget spent: bytes\n",
            Ending::Spent(SpentKind::Frames) => b"hs: budget spent: frames\n",
            Ending::Spent(SpentKind::Tree) => b"hs: budget spent: tree\n",
            Ending::NoMemory => b"hs: out of memory\n",
        }
    }
}

/// The line for a text that spells no script.
pub fn syntax_line(alloc: Global, line: u32) -> Result<Vec<u8>, AllocError>
    ensures { IfOk result (λ text. text.items ≡ syntax_line_of line) }
{
    let mut digits = Buffer::new();
    let mut text = Vec::from_slice(alloc, b"hs: line ")?;
    text.extend_from_slice(digits.format(line).as_bytes())?;
    text.extend_from_slice(b": syntax error\n")?;
    Ok(text)
}

/// What a run came to.
#[derive(Clone, Copy, Debug, PartialEq, Eq)]
pub struct Report {
    /// The leaves that were done whole.
    pub head: u64,
    /// The turns that were taken.
    pub turns: u32,
    /// The effects that were applied.
    pub count: u64,
}
