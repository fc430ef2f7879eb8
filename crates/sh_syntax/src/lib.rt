//! Scripts as trees.
#![tactic(auto)]

mod copy;
mod equal;
mod fault;
mod tree;

pub use equal::same;
pub use fault::{Fault, Opening};
pub use tree::{
    AndOr, Command, Compound, Join, List, ParamOp, Part, Pipeline, Redir, RedirOp, Script, Word,
};

#[cfg(test)]
mod tests;
