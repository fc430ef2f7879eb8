//! What a leaf comes to.

/// How a command ends.
#[derive(Clone, Copy, Debug, PartialEq, Eq)]
pub enum Outcome {
    /// With this status (POSIX.1-2017, XCU 2.8.2).
    Status(u8),
    /// It leaves so many enclosing loops (XCU 2.14, break).
    Break(u32),
    /// It goes on with the next round of the loop so far out (XCU 2.14, continue).
    Continue(u32),
    /// It leaves the function (XCU 2.14, return).
    Return(u8),
    /// It leaves the shell (XCU 2.14, exit).
    Exit(u8),
}
