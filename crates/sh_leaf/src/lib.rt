//! What a script means, and what one leaf of it does.
#![tactic(auto)]

mod assigning;
mod command;
mod forms;
mod fuel;
mod head;
mod leaf;
mod measuring;
mod outcome;
mod record;
mod utility;
mod words;

pub use command::run_command;
pub use forms::built;
pub use fuel::Fuel;
pub use head::{HeadRecord, do_head_leaf};
pub use leaf::do_leaf;
pub use outcome::Outcome;
pub use record::Record;

#[cfg(test)]
mod tests;
