//! What a leaf may use up.

/// What is left of a run where a leaf begins.
#[derive(Clone, Copy, Debug, PartialEq, Eq)]
pub struct Fuel {
    /// The turns: one is taken where a simple command begins.
    pub turns: u32,
    /// The compound commands and calls that may still begin in one another, 2,000 at most.
    pub frames: u32,
    /// The nested runs that may still begin in one another, 64 at most.
    pub nested: u32,
    /// The most bytes of what is read and done, over a base that does not write.
    pub trace: u64,
}
