//! Bytes that contracts see as a list. A clone shares them, a large part too, and a change of shared bytes copies them first. A
//! few bytes are held in place. A clone costs the same at any length; `extend` is amortised O(what is added) where no other
//! text shares the bytes, and copies them once where one does.
ghost use Rattle.std.specs.Prelude.{◌≡◌, ◌↔◌, ℕ, List, [], ◌∷◌, ◌++◌, ◌-◌, ◌≤◌, length, take, drop, IfOk, OnOk, OnErr, IsTrue, Some, nat_eq, refl, option_copied};
ghost use Rattle.std.specs.Ordering.{nat_cmp};
ghost use Rattle.std.specs.Cmp.Lexicographic.{pointwise, slice_cmp, nat_list_eq_equiv, nat_list_cmp_total, texts_ties, texts_po};
ghost use Rattle.std.specs.Cmp.{partial_equiv_from_equiv};

use crate::block::Block;
use crate::short::Short;
use std::alloc::{AllocError, Global};
use std::cmp::Ordering;
use std::marker::Model;

/// A text of bytes. Up to 22 bytes take no memory but the text's own.
#[derive(Drop)]
pub struct Text {
    alloc: Global,
    held: Held,
}

#[derive(Drop)]
enum Held {
    Inline(Short),
    Shared(Block),
}

impl Model for Text {
    ghost use Rattle.std.specs.Prelude.{List, ℕ};

    ghost Value = { List ℕ };

    ghost use Rattle.hs_text.specs.Held.{shown};

    ghost view = { λ a. shown a.held };
}

impl Text {
    pub fn new(alloc: Global) -> Text
        ensures { result ≡ [] }
    {
        Text {
            alloc,
            held: Held::Inline(Short::new()),
        }
    }

    pub fn from_slice(alloc: Global, bytes: &[u8]) -> Result<Text, AllocError>
        ensures { IfOk result (λ text. text ≡ bytes.now) }
    {
        let mut short = Short::new();
        if short.push(bytes) {
            return Ok(Text {
                alloc,
                held: Held::Inline(short),
            });
        }
        let block = Block::new(alloc, Vec::from_slice(alloc, bytes)?)?;
        Ok(Text {
            alloc,
            held: Held::Shared(block),
        })
    }

    /// A text of these bytes. It copies no more of them than are held in place.
    pub fn from_vec(alloc: Global, bytes: Vec<u8>) -> Result<Text, AllocError>
        ensures { IfOk result (λ text. text ≡ bytes.items) }
    {
        let mut short = Short::new();
        if short.push(bytes.as_slice()) {
            return Ok(Text {
                alloc,
                held: Held::Inline(short),
            });
        }
        let block = Block::new(alloc, bytes)?;
        Ok(Text {
            alloc,
            held: Held::Shared(block),
        })
    }

    pub fn as_slice(&self) -> &[u8]
        ensures { result.now ≡ self.now }
    {
        match &self.held {
            Held::Inline(short) => short.as_slice(),
            Held::Shared(block) => block.as_slice(),
        }
    }

    pub fn len(&self) -> usize
        ensures { result ≡ length self.now }
    {
        self.as_slice().len()
    }

    pub fn is_empty(&self) -> bool
        ensures { IsTrue result ↔ (self.now ≡ []) }
    {
        self.as_slice().is_empty()
    }

    /// Whether the two are equal.
    pub fn same(&self, other: &Text) -> bool
        ensures { IsTrue result ↔ (self.now ≡ other.now) }
    {
        self.as_slice() == other.as_slice()
    }

    /// The bytes from one place up to another. They are shared where they are at least half of what the text shares with others,
    /// and else copied.
    pub fn part(&self, from: usize, to: usize) -> Result<Text, AllocError>
        requires ordered { from ≤ to }
        requires within { to ≤ length self.now }
        ensures { IfOk result (λ part. part ≡ take (to - from) (drop from self.now)) }
    {
        let part = match &self.held {
            Held::Inline(_) => None,
            Held::Shared(block) => block.shared(from, to - from)?,
        };
        match part {
            Some(part) => Ok(Text {
                alloc: self.alloc,
                held: Held::Shared(part),
            }),
            None => Text::from_slice(self.alloc, &self.as_slice()[from..to]),
        }
    }

    /// Puts bytes behind the text. Where there is no memory, the text stays.
    pub fn extend(&mut self, more: &[u8]) -> Result<(), AllocError>
        ensures ok { OnOk result (self.new ≡ self.old ++ more.now) }
        ensures err { OnErr result (self.new ≡ self.old) }
    {
        if more.is_empty() {
            return Ok(());
        }
        match &mut self.held {
            Held::Inline(short) => {
                if short.push(more) {
                    return Ok(());
                }
                let block = Block::joined(self.alloc, short.as_slice(), more)?;
                self.held = Held::Shared(block);
                Ok(())
            }
            Held::Shared(block) => block.extend(self.alloc, more),
        }
    }
}

/// Whether the two are equal, or neither is there.
pub fn same_texts(a: Option<&Text>, b: Option<&Text>) -> bool
    ensures { IsTrue result ↔ (option_copied a.entry ≡ option_copied b.entry) }
{
    match (a, b) {
        (Some(a), Some(b)) => a.same(b),
        (None, None) => true,
        _ => false,
    }
}

/// A copy, where there is one.
pub fn copied(text: Option<&Text>) -> Result<Option<Text>, AllocError>
    ensures { IfOk result (λ copy. copy ≡ option_copied text.entry) }
{
    match text {
        Some(text) => Ok(Some(text.clone()?)),
        None => Ok(None),
    }
}

impl Clone for Text {
    ghost is_clone = { λ x y. y ≡ x };

    fn clone(&self) -> Result<Text, AllocError> {
        let held = match &self.held {
            Held::Inline(short) => Held::Inline(short.copy()),
            Held::Shared(block) => Held::Shared(block.copy()?),
        };
        Ok(Text {
            alloc: self.alloc,
            held,
        })
    }
}

impl PartialEq for Text {
    ghost eq = { pointwise nat_eq };

    ghost laws = { partial_equiv_from_equiv nat_list_eq_equiv };

    fn eq(&self, other: &Text) -> bool {
        self.as_slice() == other.as_slice()
    }
}

impl Eq for Text {
    ghost laws = { nat_list_eq_equiv };
}

impl PartialOrd for Text {
    ghost partial_cmp = { λ x y. Some (slice_cmp nat_cmp x y) };

    ghost laws = { texts_po };

    fn partial_cmp(&self, other: &Text) -> Option<Ordering> {
        Some(self.cmp(other))
    }
}

impl Ord for Text {
    ghost cmp = { slice_cmp nat_cmp };

    ghost total = { nat_list_cmp_total };

    ghost matches_partial_cmp = { λ x y. refl };

    ghost matches_eq = { texts_ties };

    fn cmp(&self, other: &Text) -> Ordering {
        self.as_slice().cmp(other.as_slice())
    }
}
