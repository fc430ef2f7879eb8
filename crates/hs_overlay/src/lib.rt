//! What a command's own effects make of a state that was not read: tables that are kept beside the effects, and what they
//! show at each location.
#![tactic(auto)]

mod files;
mod folders;
mod inputs;
mod marks;
mod overlay;
mod paths;
mod routing;
mod scope;
mod shells;
mod shown;
mod sizes;

pub use overlay::Overlay;

#[cfg(test)]
mod tests;
