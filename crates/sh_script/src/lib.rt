//! Scripts from bytes: the whole grammar (POSIX.1-2017, XCU 2.10).
#![tactic(auto)]

mod error;
mod faults;
mod openings;
mod parser;
mod reading;

pub use error::ParseErr;
pub use parser::parse;

#[cfg(test)]
mod tests;
