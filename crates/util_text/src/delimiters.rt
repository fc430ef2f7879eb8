//! The delimiters of `paste` (POSIX.1-2017, XCU, `paste`).

ghost use Rattle.std.specs.Prelude.{◌≡◌, ◌<◌, ◌%◌, ◌∷◌, [], length, None, Some, IfOk, slice_index_or, vec_len};

use std::alloc::{AllocError, Global};

/// What stands between joined lines, in turn: a byte, or nothing. There is at least one.
#[derive(Drop)]
pub struct Delimiters {
    items: Vec<Option<u8>>,
    ghost some: { 0 < vec_len items },
}

impl Delimiters {
    ghost use Rattle.util_text.specs.Turns.{turns};

    pub fn new(items: Vec<Option<u8>>) -> Delimiters
        requires { 0 < vec_len items }
        ensures { turns result ≡ items.items }
    {
        Delimiters { items }
    }

    /// A tab alone.
    pub fn tab(alloc: Global) -> Result<Delimiters, AllocError>
        ensures { IfOk result (λ delimiters. turns delimiters ≡ Some 9 ∷ []) }
    {
        let mut items = Vec::new(alloc);
        items.push(Some(b'\t'))?;
        Ok(Delimiters { items })
    }

    /// The delimiter of this turn. After the last one the first one comes again.
    pub fn at(&self, turn: usize) -> Option<u8>
        ensures { result ≡ slice_index_or (turns self.now) (turn % length (turns self.now)) None }
    {
        self.items[turn % self.items.len()]
    }
}
