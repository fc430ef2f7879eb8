//! What an instruction comes to.

use crate::sum::Sum;
use sh_arith::Stack;

/// The numbers after an instruction, or what the expression comes to with it.
#[derive(Drop)]
pub enum Turn {
    /// Where instructions are skipped, how many more parts have begun; and the numbers.
    On(Option<usize>, Stack<i64>),
    Ended(Sum),
}
