//! Bytes that texts share.
ghost use Rattle.std.specs.Prelude.{◌≡◌, ◌++◌, ◌+◌, ◌-◌, ◌≤◌, length, take, drop, IfOk, IfSome, OnOk, OnErr};
ghost use Rattle.std.specs.Arc.{arc_value};
ghost use Rattle.hs_text.specs.Blocks.{start_of};

use std::alloc::{AllocError, Global};
use std::marker::Model;
use std::sync::Arc;

/// So many bytes of a block, from a place on.
#[derive(Clone, Copy)]
pub struct Part {
    pub start: u32,
    pub len: u32,
}

/// All bytes of a block, or a part of them.
#[derive(Drop)]
pub struct Block {
    bytes: Arc<Vec<u8>>,
    part: Option<Part>,
}

impl Model for Block {
    ghost use Rattle.std.specs.Prelude.{List, ℕ, length, ◌≤◌};
    ghost use Rattle.std.specs.Arc.{arc_value};
    ghost use Rattle.hs_text.specs.Blocks.{part_of, end_of};

    ghost Value = { List ℕ };

    ghost view = { λ s. part_of s.part (arc_value s.bytes).items };

    ghost invariant = { λ s. end_of s.part ≤ length (arc_value s.bytes).items };
}

impl Block {
    pub fn new(alloc: Global, bytes: Vec<u8>) -> Result<Block, AllocError>
        ensures { IfOk result (λ block. block ≡ bytes.items) }
    {
        let bytes = Arc::new(alloc, bytes)?;
        Ok(Block { bytes, part: None })
    }

    /// These bytes, one behind the other.
    pub fn joined(alloc: Global, front: &[u8], more: &[u8]) -> Result<Block, AllocError>
        ensures { IfOk result (λ block. block ≡ front.now ++ more.now) }
    {
        let mut whole = Vec::with_capacity(alloc, front.len() + more.len())?;
        whole.extend_from_slice(front)?;
        whole.extend_from_slice(more)?;
        Block::new(alloc, whole)
    }

    pub fn as_slice(&self) -> &[u8]
        ensures { result.now ≡ self.now }
    {
        match self.part {
            Some(part) => part_in(self.bytes.as_slice(), part),
            None => self.bytes.as_slice(),
        }
    }

    pub fn copy(&self) -> Result<Block, AllocError>
        ensures { IfOk result (λ copy. copy ≡ self.now) }
    {
        Ok(Block {
            bytes: Arc::try_clone(&self.bytes)?,
            part: self.part,
        })
    }

    /// Puts bytes behind these: in place, where no other text shares the block and all of it is had. Where there is no memory,
    /// the bytes stay.
    pub fn extend(&mut self, alloc: Global, more: &[u8]) -> Result<(), AllocError>
        ensures ok { OnOk result (self.new ≡ self.old ++ more.now) }
        ensures err { OnErr result (self.new ≡ self.old) }
    {
        if self.part.is_none() {
            if let Some(bytes) = Arc::get_mut(&mut self.bytes) {
                return bytes.extend_from_slice(more);
            }
        }
        *self = Block::joined(alloc, self.as_slice(), more)?;
        Ok(())
    }

    /// So many bytes from a place on, where they are to be shared: where they are half of the block at least. So no text holds more
    /// than twice its bytes, and a text that loses its front piece by piece is copied once for each time that it has lost half of
    /// them.
    pub fn shared(&self, from: usize, len: usize) -> Result<Option<Block>, AllocError>
        requires { from + len ≤ length self.now }
        ensures { IfOk result (λ part. IfSome part (λ p. p ≡ take len (drop from self.now))) }
    {
        if len < self.bytes.len() / 2 {
            return Ok(None);
        }
        match part_from(self.part, from, len) {
            Some(part) => Ok(Some(share(&self.bytes, part)?)),
            None => Ok(None),
        }
    }
}

/// The part from a place of a part on, of this length, where its numbers have 32 bits.
fn part_from(part: Option<Part>, from: usize, len: usize) -> Option<Part>
    ensures start { IfSome result (λ p. p.start ≡ start_of part + from) }
    ensures len { IfSome result (λ p. p.len ≡ len) }
{
    let begin = match part {
        Some(part) => part.start as usize,
        None => 0,
    };
    let start = u32::try_from(begin.checked_add(from)?).ok()?;
    let len = u32::try_from(len).ok()?;
    Some(Part { start, len })
}

/// A part of a block, which is shared.
fn share(bytes: &Arc<Vec<u8>>, part: Part) -> Result<Block, AllocError>
    requires { part.start + part.len ≤ length (arc_value bytes.now).items }
    ensures { IfOk result (λ block. block ≡ take part.len (drop part.start (arc_value bytes.now).items)) }
{
    Ok(Block {
        bytes: Arc::try_clone(bytes)?,
        part: Some(part),
    })
}

fn part_in(bytes: &[u8], part: Part) -> &[u8]
    requires { part.start + part.len ≤ length bytes.now }
    ensures { result.now ≡ take part.len (drop part.start bytes.now) }
{
    let start = part.start as usize;
    &bytes[start..start + part.len as usize]
}
