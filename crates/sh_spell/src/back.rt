//! Bytes that are written from the end of a text to its beginning. Each byte costs amortised O(1).

ghost use Rattle.std.specs.Prelude.{◌≡◌, ◌↔◌, [], ◌∷◌, ◌++◌, IfOk, IsTrue, OnOk, reverse, slice_get};

use hs_text::Text;
use std::alloc::{AllocError, Global};
use std::marker::Model;

/// A text whose end is written.
#[derive(Drop)]
pub struct Back {
    bytes: Vec<u8>,
}

impl Model for Back {
    ghost use Rattle.std.specs.Prelude.{List, ℕ, reverse};

    ghost Value = { List ℕ };

    ghost view = { λ b. reverse b.bytes.items };
}

impl Back {
    pub fn new(alloc: Global) -> Back
        ensures { result ≡ [] }
    {
        Back {
            bytes: Vec::new(alloc),
        }
    }

    pub fn is_empty(&self) -> bool
        ensures { IsTrue result ↔ (self.now ≡ []) }
    {
        self.bytes.is_empty()
    }

    /// The first byte of what is written.
    pub fn first(&self) -> Option<u8>
        ensures { result ≡ slice_get self.now 0 }
    {
        match self.bytes.as_slice() {
            [] => None,
            [.., last] => Some(*last),
        }
    }

    /// The bytes, from the last one on.
    pub fn bytes(&self) -> &[u8]
        ensures { reverse result.now ≡ self.now }
    {
        self.bytes.as_slice()
    }

    /// Puts a byte in front. The error is want of memory.
    pub fn put(&mut self, byte: u8) -> Result<(), AllocError>
        ensures { OnOk result (self.new ≡ byte ∷ self.old) }
    {
        self.bytes.push(byte)?;
        Ok(())
    }

    /// Puts bytes in front. The error is want of memory.
    pub fn put_all(&mut self, bytes: &[u8]) -> Result<(), AllocError>
        ensures { OnOk result (self.new ≡ bytes.now ++ self.old) }
    {
        let mut left = bytes;
        while let [rest @ .., last] = left {
            self.put(*last)?;
            left = rest;
        }
        Ok(())
    }

    /// The whole text. The error is want of memory.
    pub fn into_text(self) -> Result<Text, AllocError>
        ensures { IfOk result (λ text. text ≡ self) }
    {
        let Back { mut bytes } = self;
        bytes.reverse();
        Text::from_vec(*bytes.allocator(), bytes)
    }
}
