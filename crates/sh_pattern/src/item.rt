//! What a pattern is made of: items, each of which takes one byte, or any number of bytes.

ghost use Rattle.std.specs.Prelude.{◌≡◌, [], ◌∷◌, ◌++◌, OnOk, OnErr, false};
ghost use Rattle.sh_pattern.specs.Match as spec;

use std::alloc::{AllocError, Global};
use std::marker::Model;

/// The bytes from one to another, with both: none where they fall.
#[derive(Clone, Copy, Drop)]
pub struct ByteRange {
    pub low: u8,
    pub high: u8,
}

impl ByteRange {
    pub fn holds(self, byte: u8) -> bool
        ensures { result ≡ spec.within self byte }
    {
        self.low <= byte && byte <= self.high
    }
}

/// A bracket expression: the bytes of its ranges, or all others. Its test takes as many steps as it has ranges,
/// which are no more than the bytes that it is written with, or three for a class.
#[derive(Drop)]
pub struct Set {
    negated: bool,
    ranges: Vec<ByteRange>,
}

impl Model for Set {
    ghost use Rattle.sh_pattern.specs.Sets.{Bracket};

    ghost Value = { Bracket };

    ghost view = { λ s. record { negated = s.negated; ranges = s.ranges.items } };
}

impl Set {
    pub fn new(negated: bool, ranges: Vec<ByteRange>) -> Set
        ensures { result ≡ record { negated = negated; ranges = ranges.items } }
    {
        Set { negated, ranges }
    }

    pub fn has(&self, byte: u8) -> bool
        ensures { result ≡ spec.has self.now byte }
    {
        let listed = listed(self.ranges.as_slice(), byte);
        if self.negated { !listed } else { listed }
    }
}

fn listed(ranges: &[ByteRange], byte: u8) -> bool
    ensures { result ≡ spec.listed ranges.now byte }
{
    ranges.iter().any(|range| range.holds(byte))
}

/// An item of a pattern.
#[derive(Drop)]
pub enum Item {
    /// Any number of bytes, also none.
    Star,
    /// Any one byte.
    Any,
    /// This byte.
    Byte(u8),
    /// One byte of the set.
    OneOf(Set),
}

impl Item {
    pub fn is_star(&self) -> bool
        ensures { result ≡ spec.is_star self.now }
    {
        matches!(self, Item::Star)
    }

    /// Whether it is the one byte that the item takes.
    pub fn takes(&self, byte: u8) -> bool
        ensures { result ≡ spec.takes self.now byte }
    {
        match self {
            Item::Star => false,
            Item::Any => true,
            Item::Byte(wanted) => *wanted == byte,
            Item::OneOf(set) => set.has(byte),
        }
    }
}
