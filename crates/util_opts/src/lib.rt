//! Options of utilities (POSIX.1-2017, XBD 12.2, guidelines 3 to 10): which options the words of a command give, with which
//! values, and which words are its operands.
#![tactic(auto)]

mod options;
mod reading;
mod table;

pub use options::{GivenList, OptErr, Options};
pub use reading::read_options;
pub use table::OptionTable;

#[cfg(test)]
mod tests;
