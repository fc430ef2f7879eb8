//! The grammar of scripts over tokens, and the machine that reads it token by token.
#![tactic(auto)]

mod stack;
mod state;

pub use stack::Stack;
pub use state::{Below, Case, Draft, Due, Gap, Host, Now, Pipe, Simple};
