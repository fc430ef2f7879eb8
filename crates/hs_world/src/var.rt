//! Variables (POSIX.1-2017, XCU 2.5.3).

ghost use Rattle.std.specs.Prelude.{◌≡◌, ◌↔◌, IsTrue};

use hs_text::{Text, same_texts};

/// A variable. One without a value is marked alone, as by `export x` where x is not set.
#[derive(Clone, Drop)]
pub struct Var {
    pub value: Option<Text>,
    pub exported: bool,
    pub readonly: bool,
}

impl Var {
    /// Whether the two are equal.
    pub fn same(&self, other: &Var) -> bool
        ensures { IsTrue result ↔ (self.now ≡ other.now) }
    {
        same_texts(self.value.as_ref(), other.value.as_ref())
            && self.exported == other.exported
            && self.readonly == other.readonly
    }
}
