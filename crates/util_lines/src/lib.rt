//! Utilities that work on the lines or the bytes of texts (POSIX.1-2017, XCU 4): `sort`, `uniq`, `comm`, `tr` and `grep -F`. Their
//! definitions stand in specs/.
#![tactic(auto)]

mod arranging;
mod byte_class;
mod byte_set;
mod byte_table;
mod comparing;
mod decimal;
mod filing;
mod fixed_lines;
mod gathering;
mod merging;
mod ordering;
mod runs;
mod selecting;
mod sorting;
mod splitting;
mod translating;
mod transliterating;
mod uniquing;

pub use comparing::comm;
pub use selecting::grep;
pub use sorting::sort;
pub use translating::tr;
pub use uniquing::uniq;

#[cfg(test)]
mod tests;
