//! Tokens of a script. How a token is read follows from the one before it and from how that was read.
#![tactic(auto)]

mod arith;
mod body;
mod bytes;
mod cut;
mod delimiter;
mod lex;
mod lexer;
mod modes;
mod next;
mod place;
mod read;
#[cfg(test)]
mod tests;
mod token;
mod word;

pub use lexer::Lexer;
pub use modes::mode_after;
pub use place::Place;
pub use read::LexError;
pub use token::{Bit, End, Here, Mode, Op, Opener, Token};
