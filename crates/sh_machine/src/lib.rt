//! The machine of the grammar, as code: it takes the tokens of a script one by one.
#![tactic(auto)]

mod command;
mod compare;
mod draft;
mod fill;
mod finish;
mod for_case;
mod gap;
mod lists;
mod machine;
mod modes;
mod names;
mod newline;
mod next_mode;
mod parts;
mod rest;
mod step;
mod told;

pub use fill::filled;
pub use machine::Machine;
pub use next_mode::mode_after;
