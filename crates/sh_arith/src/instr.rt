//! An expression as a list of instructions for a stack of numbers: operands first, then what is done with them.

use crate::stack::Stack;
use crate::token::{Logic, Math, Sign};
use hs_text::Text;
use sqlite_items::Items;

/// A part of an expression that may be skipped stands between a `Begin` and an `End`.
#[derive(Clone, Copy, Debug, PartialEq, Eq)]
pub enum Part {
    /// The right side of `&&` or `||`.
    Logic(Logic),
    /// The two answers of `?:`, with `Otherwise` between them.
    Choice,
}

#[derive(Drop)]
pub enum Instr {
    Number(i64),
    /// The value of a name, which stands at this place.
    Read(usize, Text),
    Sign(Sign),
    Math(Math),
    Begin(Part),
    Otherwise,
    End(Part),
    /// Assigns to the name, which stands at this place: the number on top, or what the operator makes of the two on top.
    Store(Option<Math>, usize, Text),
}

/// What waits for its right operand while an expression is read.
#[derive(Drop)]
pub enum Frame {
    Sign(Sign),
    Math(Math),
    Logic(Logic),
    Open,
    /// After a `?`.
    Then,
    /// After the `:`.
    Otherwise,
    Assign(Option<Math>, usize, Text),
}

/// Where the reading is.
#[derive(Drop)]
pub enum Now {
    /// Before an operand.
    Want,
    /// Behind a name, which may be assigned to. Its value is not read yet.
    Named(usize, Text),
    /// Behind an operand.
    Have,
}

/// What an expression has given so far: what waits, the instructions, and how many brackets may still be opened.
#[derive(Drop)]
pub struct Rest {
    pub stack: Stack<Frame>,
    pub code: Items<Instr>,
    pub room: usize,
}
