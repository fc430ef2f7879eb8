//! Conditions (POSIX.1-2017, XCU 4): `test`, `[`, `true` and `false`. Their definitions stand in specs/.
#![tactic(auto)]

mod constant;
mod expression;
mod number;
mod operator;
mod testing;

pub use constant::{false_, true_};
pub use testing::{bracket, test_};

#[cfg(test)]
mod tests;
