//! Utilities that print (POSIX.1-2017, XCU 4): echo, printf, basename, dirname and pwd. Their definitions stand in specs/.
#![tactic(auto)]

mod command;
mod components;
mod echoing;
mod folder;
mod format;
mod naming;
mod numeral;
mod pieces;
mod printing;

pub use command::printf;
pub use components::{basename, dirname};
pub use echoing::echo;
pub use folder::pwd;

#[cfg(test)]
mod tests;
