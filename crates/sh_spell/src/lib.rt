//! Writing tokens, and whole scripts, as texts that are read as these.
#![tactic(auto)]

mod back;
mod commands;
mod compounds;
mod lists;
mod names;
mod numbers;
mod redirs;
mod script;
mod sheet;
mod step;
#[cfg(test)]
mod tests;
mod tokens;
mod turn;
mod value;
mod words;

pub use script::spell;
pub use tokens::spell_tokens;
