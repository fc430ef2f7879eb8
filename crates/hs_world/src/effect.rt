//! Effects: what a command does to the state of the shell.

use crate::opts::Opts;
use crate::path::PathName;
use crate::reply::Reply;
use crate::route::Routes;
use crate::var::Var;
use hs_text::{Text, TextList};

/// A stream of the program: standard output or standard error (POSIX.1-2017, XBD 3.354 and 3.353).
#[derive(Clone, Copy, Debug, PartialEq, Eq)]
pub enum Fd {
    One,
    Two,
}

/// One change of the state. Whatever a script does is a list of these.
#[derive(Clone, Drop)]
pub enum Effect {
    SetVar(Text, Var),
    UnsetVar(Text),
    /// Names a function: its body, by the number that it has in the script.
    SetFunc(Text, u32),
    UnsetFunc(Text),
    /// Sets the positional parameters.
    SetParams(TextList),
    /// Sets the status that `$?` gives (XCU 2.5.2).
    SetStatus(u8),
    SetCwd(PathName),
    SetOpts(Opts),
    /// Makes a file, or gives it these bytes.
    Put(PathName, Text),
    /// Puts bytes at the end of a file.
    Append(PathName, Text),
    MakeDir(PathName),
    Remove(PathName),
    /// Writes bytes to descriptor 1 or 2.
    Emit(Fd, Text),
    /// Begins a subshell environment (XCU 2.12).
    PushShell,
    /// Ends the innermost subshell environment.
    PopShell,
    /// Puts a text in place of standard input.
    PushInput(Text),
    /// Sets what standard input has left.
    SetInput(Text),
    /// Takes the innermost text of standard input away.
    PopInput,
    /// Puts a table of routes above the others.
    PushRoutes(Routes),
    /// Takes the innermost table of routes away.
    PopRoutes,
    /// Puts a table of routes in place of the innermost one.
    SetRoutes(Routes),
    /// Opens a descriptor for reading a text, or closes it.
    SetKept(u8, Option<Text>),
    /// Sets standard input, to the end of the subshell environment.
    ExecInput(Text),
    /// An outside program has run.
    Replied(Reply),
}
