//! Entries of the tree.

use hs_text::Text;

/// What a path of the tree has.
#[derive(Clone, Drop)]
pub enum Entry {
    File(Text),
    Dir,
    /// An entry of another kind, which is left alone.
    Other,
}

/// The kind of what a path has.
#[derive(Clone, Copy, Debug, PartialEq, Eq)]
pub enum Kind {
    File,
    Dir,
    Other,
    Absent,
}
