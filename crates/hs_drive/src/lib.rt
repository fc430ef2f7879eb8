//! The run of a script: each command in its turn on the committed state, its effects committed and written through to the
//! streams, and how the run ends.
#![tactic(auto)]

mod direct;
mod ending;
mod run;
mod stop;

pub use ending::{Ending, Report, syntax_line};
pub use run::plain;
