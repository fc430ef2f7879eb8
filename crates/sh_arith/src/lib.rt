//! Arithmetic expansion (POSIX.1-2017, XCU 2.6.4): expressions on signed numbers of 64 bits that wrap.
#![tactic(auto)]

mod calc;
mod evaluation;
mod exec;
mod instr;
mod lex;
mod names;
mod number;
mod reading;
mod stack;
mod step;
mod token;

pub use calc::NoNumber;
pub use evaluation::evaluate;
pub use exec::{NotDone, operand, plain, skip_one, take};
pub use instr::{Frame, Instr, Now, Part, Rest};
pub use names::{ArithErr, Assigned, Names};
pub use number::value_of;
pub use reading::{ReadErr, read};
pub use stack::Stack;
pub use token::{LexError, Logic, Math, Op, Sign, Token};

#[cfg(test)]
mod tests;
