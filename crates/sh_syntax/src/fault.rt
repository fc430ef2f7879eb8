//! Why a text is no script.

/// What is opened in a word and has to be closed.
#[derive(Clone, Copy, Debug, PartialEq, Eq, Drop)]
pub enum Opening {
    /// `'` (POSIX.1-2017, XCU 2.2.2).
    Single,
    /// `"` (XCU 2.2.3).
    Double,
    /// `${` (XCU 2.6.2).
    Braces,
    /// `$(` (XCU 2.6.3).
    Command,
    /// `$((` (XCU 2.6.4).
    Arith,
    /// A backquote (XCU 2.6.3).
    Backquote,
    /// `<<` or `<<-` (XCU 2.7.4).
    Here,
}

#[derive(Clone, Copy, Debug, PartialEq, Eq, Drop)]
pub enum Fault {
    /// The text ends before what was opened is closed.
    Unclosed(Opening),
    /// A NUL byte.
    Nul,
    /// More than 100 things are open at once.
    TooDeep,
    /// A token that no script has there.
    Unexpected,
    /// A parameter expansion of a form that isn't known.
    BadParameter,
    /// More than 1,048,576 bytes.
    TooLong,
}
