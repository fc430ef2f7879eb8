//! The options that a utility has.

ghost use Rattle.std.specs.Prelude.{◌≡◌, IfOk};
ghost use Rattle.util_opts.specs.Reading as spec;

use std::alloc::{AllocError, Global};
use std::marker::Model;

/// Option bytes, each with whether it takes a value. Of two entries of one byte the first counts. A byte is looked up by a
/// scan: no utility has more than a dozen options.
#[derive(Clone, Drop)]
pub struct OptionTable {
    entries: Vec<(u8, bool)>,
}

impl Model for OptionTable {
    ghost use Rattle.std.specs.Prelude.{List, ℕ, Bool};

    ghost Value = { List (ℕ × Bool) };

    ghost view = { λ t. t.entries.items };
}

impl OptionTable {
    pub fn from_slice(alloc: Global, entries: &[(u8, bool)]) -> Result<OptionTable, AllocError>
        ensures { IfOk result (λ table. table ≡ entries.now) }
    {
        Ok(OptionTable {
            entries: Vec::from_slice(alloc, entries)?,
        })
    }

    /// Whether the option takes a value, and None where it is not listed.
    pub fn takes_value(&self, byte: u8) -> Option<bool>
        ensures { result ≡ spec.takes_value self.now byte }
    {
        for entry in self.entries.as_slice() {
            if entry.0 == byte {
                return Some(entry.1);
            }
        }
        None
    }
}
