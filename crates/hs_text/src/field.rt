//! Fields: what words become by expansion, before quote removal (POSIX.1-2017, XCU 2.6).

ghost use Rattle.std.specs.Prelude.{◌≡◌, [], ◌∷◌, ◌++◌, OnOk, OnErr};

use std::alloc::{AllocError, Global};
use std::marker::Model;

/// The bytes of a field, each with whether it is quoted. Adding at the end is amortised O(1).
#[derive(Drop)]
pub struct Field {
    items: Vec<(u8, bool)>,
}

impl Model for Field {
    ghost use Rattle.std.specs.Prelude.{List, ℕ, Bool};

    ghost Value = { List (ℕ × Bool) };

    ghost view = { λ a. a.items.items };
}

impl Field {
    pub fn new(alloc: Global) -> Field
        ensures { result ≡ [] }
    {
        Field {
            items: Vec::new(alloc),
        }
    }

    pub fn as_slice(&self) -> &[(u8, bool)]
        ensures { result.now ≡ self.now }
    {
        self.items.as_slice()
    }

    /// Puts a byte at the end. Where there is no memory, the field stays.
    pub fn push(&mut self, byte: u8, quoted: bool) -> Result<(), AllocError>
        ensures ok { OnOk result (self.new ≡ self.old ++ (byte, quoted) ∷ []) }
        ensures err { OnErr result (self.new ≡ self.old) }
    {
        self.items.push((byte, quoted))?;
        Ok(())
    }
}

impl Clone for Field {
    ghost is_clone = { λ x y. y ≡ x };

    fn clone(&self) -> Result<Field, AllocError> {
        Ok(Field {
            items: self.items.clone()?,
        })
    }
}

/// A list of fields.
#[derive(Drop)]
pub struct Fields {
    items: Vec<Field>,
}

impl Model for Fields {
    ghost use Rattle.std.specs.Prelude.{List, ℕ, Bool};

    ghost Value = { List (List (ℕ × Bool)) };

    ghost view = { λ a. a.items.items };
}

impl Fields {
    pub fn new(alloc: Global) -> Fields
        ensures { result ≡ [] }
    {
        Fields {
            items: Vec::new(alloc),
        }
    }

    pub fn as_slice(&self) -> &[Field]
        ensures { result.now ≡ self.now }
    {
        self.items.as_slice()
    }

    /// Puts a field at the end. Where there is no memory, the list stays.
    pub fn push(&mut self, field: Field) -> Result<(), AllocError>
        ensures ok { OnOk result (self.new ≡ self.old ++ field ∷ []) }
        ensures err { OnErr result (self.new ≡ self.old) }
    {
        self.items.push(field)?;
        Ok(())
    }
}

impl Clone for Fields {
    ghost is_clone = { λ x y. y ≡ x };

    fn clone(&self) -> Result<Fields, AllocError> {
        Ok(Fields {
            items: self.items.clone()?,
        })
    }
}
