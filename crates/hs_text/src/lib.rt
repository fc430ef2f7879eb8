//! Texts, lists of texts, and fields, as contracts see them: lists of bytes, of texts, and of bytes with whether each is
//! quoted.
#![tactic(auto)]

mod block;
mod field;
mod list;
mod short;
mod text;

pub use field::{Field, Fields};
pub use list::TextList;
pub use text::{Text, copied, same_texts};

#[cfg(test)]
mod tests;
