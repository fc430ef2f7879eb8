//! Field splitting and quote removal (POSIX.1-2017, XCU 2.6.5 and 2.6.7).
#![tactic(auto)]

mod mark;
mod place;
mod removal;
mod separators;
mod splitter;
mod splitting;

pub use mark::{Mark, Marked};
pub use place::Place;
pub use removal::unquote;
pub use splitting::{split, split_marked};

#[cfg(test)]
mod tests;
