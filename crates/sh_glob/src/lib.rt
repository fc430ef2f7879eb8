//! Pathname expansion (POSIX.1-2017, XCU 2.6.6 and 2.13.3).
#![tactic(auto)]

mod fields;
mod part;
mod place;
mod walk;

pub use fields::paths;

#[cfg(test)]
mod tests;
