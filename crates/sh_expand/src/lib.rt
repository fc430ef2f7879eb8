//! The expansion of words (POSIX.1-2017, XCU 2.6), from one command substitution to the next.
#![tactic(auto)]

mod closing;
mod expansion;
mod machine;
mod open;
mod params;
mod parts;
mod summing;

pub use expansion::{Expansion, expand};
pub use sh_param::Expanded;

#[cfg(test)]
mod tests;
