use sh_grammar::{Below, Draft, Stack};

/// What a state has beside the innermost thing: what is open round it, the innermost first, how many things may still be
/// opened, and the script so far.
#[derive(Drop)]
pub struct Rest {
    pub below: Stack<Below>,
    pub room: usize,
    pub script: Draft,
}
