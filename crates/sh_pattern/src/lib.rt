//! Patterns of the shell (POSIX.1-2017, XCU 2.13.1 and 2.13.2): from fields, and whether they match texts.
#![tactic(auto)]

mod bracket;
mod class;
mod item;
mod matching;
mod parts;
mod pattern;
mod reading;

pub use item::{ByteRange, Item, Set};
pub use matching::matches;
pub use parts::{largest_prefix, largest_suffix, smallest_prefix, smallest_suffix};
pub use pattern::Pattern;
pub use reading::compile;

#[cfg(test)]
mod tests;
