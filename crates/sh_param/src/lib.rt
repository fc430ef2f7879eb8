//! Parameters of the shell, and what words become by their expansions (POSIX.1-2017, XCU 2.5 and 2.6).
#![tactic(auto)]

mod answer;
mod assigning;
mod fields;
mod kind;
mod lookup;
mod messages;
mod mode;
mod output;
mod piece;
mod tilde;
mod trim;
mod value;

pub use answer::Expanded;
pub use assigning::assign;
pub use fields::{split_fields, whole_fields};
pub use kind::{Kind, kind_of, position};
pub use lookup::{home_of, ifs_of, text_of, value_of, with_text, with_value};
pub use messages::{bare_message, message};
pub use mode::{Context, Mode};
pub use output::substituted;
pub use piece::{Piece, Pieces};
pub use tilde::{Follow, starts_after};
pub use trim::trimmed;
pub use value::{ParamValue, joined, separator};

#[cfg(test)]
mod tests;
