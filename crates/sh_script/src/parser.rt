//! Scripts from bytes.

ghost use Rattle.std.specs.Prelude.{◌≡◌, ◌≤◌, ◌<◌, length};
ghost use Rattle.sh_script.specs.Answers.{Answers, too_long};
ghost use Rattle.sh_machine.specs.Numbered.{Numbered};
ghost use Rattle.sh_script.specs.Longest.{longest};
ghost use Rattle.sh_script.specs.Readings.{Ends, IsRead};

use crate::error::ParseErr;
use crate::faults::{named, refused};
use crate::openings::{Openings, Stop};
use crate::reading::{Halt, read_all};
use hs_text::Text;
use sh_machine::Machine;
use sh_syntax::{Fault, Script};
use std::alloc::Global;

/// The longest text of a script, in bytes.
const LONGEST: usize = 1_048_576;

/// The script, where the text ends.
fn ended(
    alloc: Global,
    text: &Text,
    machine: Machine,
    openings: Openings,
) -> Result<Script, ParseErr>
    requires short { length text.now ≤ longest }
    requires numbered { Numbered machine }
    ensures { Ends result machine text.now openings }
{
    match machine.finish(alloc)? {
        Some(script) => Ok(script),
        None => Err(named(alloc, text, openings, Stop::End)?),
    }
}

/// The script, or the fault, where nothing more is taken.
fn halted(alloc: Global, text: &Text, halt: Halt) -> Result<Script, ParseErr>
    requires short { length text.now ≤ longest }
    requires read { IsRead text.now halt }
    ensures { Answers result text.now }
{
    match halt {
        Halt::Ended(machine, openings) => ended(alloc, text, machine, openings),
        Halt::Stopped(stop, openings) => Err(refused(alloc, text, openings, stop)?),
    }
}

/// The one script that a text spells which is not too long.
fn parse_text(alloc: Global, text: &Text) -> Result<Script, ParseErr>
    requires { length text.now ≤ longest }
    ensures { Answers result text.now }
{
    let halt = read_all(alloc, text.clone()?)?;
    halted(alloc, text, halt)
}

/// The one script that a text spells (POSIX.1-2017, XCU 2.10), or the fault of its first bad token with the line. Its time is
/// linear in the text.
pub fn parse(alloc: Global, text: &[u8]) -> Result<Script, ParseErr>
    ensures too_long { longest < length text.now → result ≡ too_long }
    ensures answers { length text.now ≤ longest → Answers result text.now }
{
    if text.len() > LONGEST {
        return Err(ParseErr::Syntax {
            line: 1,
            fault: Fault::TooLong,
        });
    }
    let text = Text::from_slice(alloc, text)?;
    parse_text(alloc, &text)
}
