//! What an expression comes to.

/// The number of an expression, or why it has none.
#[derive(Clone, Copy, Debug, PartialEq, Eq)]
pub enum Sum {
    Number(i64),
    /// The text is no expression, the value of a name is no number, or a name that is read only is assigned.
    Bad,
    DivisionByZero,
    /// A shift by a number outside of 0 to 63.
    BadShift,
}
