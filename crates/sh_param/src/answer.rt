//! How far an expansion goes.

use hs_text::{Fields, Text};

/// What an expansion answers.
#[derive(Drop)]
pub enum Expanded {
    /// The fields of all words.
    Fields(Fields),
    /// The output of this list is wanted.
    Wants(u32),
    /// The message that says why there are no fields.
    Error(Text),
}
