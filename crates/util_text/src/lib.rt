//! Text utilities (POSIX.1-2017, XCU 4): `cat`, `head`, `tail`, `fold`, `wc`, `cut`, `paste` and `tee`. Their definitions stand in
//! specs/.
#![tactic(auto)]

mod buffer;
mod catenating;
mod chosen;
mod column;
mod counted;
mod counting;
mod cutting;
mod delimiters;
mod ends;
mod escapes;
mod fault;
mod fielding;
mod folding;
mod gathering;
mod heading;
mod joining;
mod line;
mod list;
mod number;
mod part;
mod pasting;
mod places;
mod slicing;
mod tailing;
mod tallying;
mod teeing;
mod unread;
mod width;
mod wrapping;

pub use catenating::cat;
pub use chosen::{Chosen, write_counts};
pub use counting::{Counts, count};
pub use cutting::cut_bytes;
pub use ends::{Ends, first_lines, last_lines, lines_from, read_ends};
pub use fault::TextErr;
pub use fielding::cut_fields;
pub use heading::head;
pub use list::read_list;
pub use number::read_count;
pub use pasting::paste;
pub use places::{Selection, Span};
pub use slicing::cut;
pub use tailing::tail;
pub use tallying::wc;
pub use teeing::tee;
pub use wrapping::fold;

#[cfg(test)]
mod tests;
