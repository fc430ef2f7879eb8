//! Views: what a command reads of a base, and what it does, as a record that holds in every state with these reads.
#![tactic(auto)]

mod base;
mod fixed;
mod getters;
mod halt;
mod kept;
mod own;
mod pushes;
mod size;
mod tabled;
mod trace;
mod view;

pub use base::Base;
pub use fixed::Fixed;
pub use halt::{Halt, SpentKind};
pub use kept::Kept;
pub use trace::Trace;
pub use view::View;

#[cfg(test)]
mod tests;
