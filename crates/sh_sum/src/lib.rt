//! Arithmetic expansion in a state of the shell (POSIX.1-2017, XCU 2.6.4).
#![tactic(auto)]

mod sum;
mod summing;
mod turn;
mod turning;
mod variable;

pub use sum::Sum;
pub use summing::sum_in;

#[cfg(test)]
mod tests;
