//! What utilities have in common (POSIX.1-2017, XCU 1.4): messages, the contents of operands, and a part for each operand.
#![tactic(auto)]

mod content;
mod each;
mod emitting;
mod messages;
mod words;

pub use content::{Content, read_input, take_content};
pub use each::{Filter, filter_files, filter_operands, write_message};
pub use emitting::{emit, refuse};
pub use messages::{Why, message, message_on};
pub use words::{WordErr, is_given, operands_or_input, read_words, refuse_words, value_of};
