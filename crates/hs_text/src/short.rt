//! Up to 22 bytes, held in place: as many as leave a text no larger than a `Vec`.
ghost use Rattle.std.specs.Prelude.{◌+◌, ◌≡◌, ◌↔◌, ◌≤◌, ℕ, List, [], ◌∷◌, ◌++◌, length, IsTrue, IsFalse};

use std::marker::Model;

/// How many bytes are held in place.
pub const ROOM: usize = 22;

#[derive(Drop)]
pub struct Short {
    len: u8,
    bytes: [u8; 22],
}

impl Model for Short {
    ghost use Rattle.std.specs.Prelude.{List, ℕ, take, ◌≤◌};

    ghost Value = { List ℕ };

    ghost view = { λ s. take s.len s.bytes };

    ghost invariant = { λ s. s.len ≤ 22 };
}

impl Short {
    pub fn new() -> Short
        ensures { result ≡ [] }
    {
        Short {
            len: 0,
            bytes: [0; 22],
        }
    }

    pub fn copy(&self) -> Short
        ensures { result ≡ self.now }
    {
        Short {
            len: self.len,
            bytes: self.bytes,
        }
    }

    pub fn as_slice(&self) -> &[u8]
        ensures { result.now ≡ self.now }
    {
        &self.bytes[..self.len as usize]
    }

    pub fn len(&self) -> usize
        ensures { result ≡ length self.now }
    {
        self.len as usize
    }

    /// Puts bytes at the end where they fit, and else leaves all as it was.
    pub fn push(&mut self, more: &[u8]) -> bool
        ensures fits { IsTrue result → self.new ≡ self.old ++ more.now }
        ensures full { IsFalse result → self.new ≡ self.old }
        ensures room { IsTrue result ↔ (length self.old + length more.now ≤ 22) }
    {
        let len = self.len as usize;
        if ROOM - len < more.len() {
            return false;
        }
        self.bytes[len..len + more.len()].copy_from_slice(more);
        self.len += more.len() as u8;
        true
    }
}
