//! What a shell meets outside of itself: a host with files and programs, a source of input, and sinks for output.
//!
//! Each keeps a count of faults that never falls, and answers `Fault` only where it rose. What an object holds is told
//! where it can be known, as by objects in memory; a real stream tells nothing.

ghost use Rattle.std.specs.Prelude.{◌≡◌, ◌<◌, ◌≤◌, ℕ, Bool, List, Option, length, IfOk};
ghost use Rattle.hs_outside.specs.Causes.{HasCause, IsCaused};
ghost use Rattle.hs_outside.specs.Hosts.{Loads, one_more};
ghost use Rattle.hs_outside.specs.Streams.{Gives, appended, ended_by, given, prepended, taken};
ghost use Rattle.hs_world.specs.Files.{Files};

use hs_text::Text;
use hs_world::Tree;
use std::alloc::Global;
use thiserror::Error;

/// Why a stream gave or took nothing.
#[derive(Clone, Copy, Debug, PartialEq, Eq, Error)]
pub enum Failed {
    #[error("out of memory")]
    NoMemory,
    #[error("the stream failed")]
    Fault,
}

/// Why a host did not do what it was asked.
#[derive(Clone, Copy, Debug, PartialEq, Eq, Error)]
pub enum HostErr {
    #[error("out of memory")]
    NoMemory,
    #[error("the host failed")]
    Fault,
    /// The files pass the limit of a tree: their bytes together, or 2^64 - 1 where they are more, and the number of entries
    /// without the root.
    #[error("the tree is too large")]
    TooLarge { bytes: u64, entries: u64 },
}

/// The files of the machine.
pub trait Host {
    /// The files.
    ghost files: { Self → Option Files };

    /// How many calls there were, where the host tells it. The count stays at the last number of 64 bits.
    ghost calls: { Self → Option ℕ };

    /// How often the host has failed.
    ghost faults: { Self → ℕ };

    /// All files. TooLarge comes exactly where they pass the limit of a tree.
    fn load(&mut self, alloc: Global) -> Result<Tree, HostErr>
        ensures loads { Loads (files self.old) result }
        ensures files { files self.new ≡ files self.old }
        ensures asked { calls self.new ≡ one_more (calls self.old) }
        ensures cause { IsCaused (faults self.old) (faults self.new) result };
}

/// Standard input.
pub trait Source {
    /// The bytes that were taken from it.
    ghost bytes_taken: { Self → Option (List ℕ) };

    /// The bytes that are left.
    ghost left: { Self → Option (List ℕ) };

    /// Whether it was asked and had nothing more.
    ghost ended: { Self → Bool };

    /// How often it has failed.
    ghost faults: { Self → ℕ };

    /// Takes from 1 to `max` bytes. None comes where nothing is left.
    fn take(&mut self, alloc: Global, max: u32) -> Result<Option<Text>, Failed>
        requires { 0 < max }
        ensures gives { IfOk result (λ bytes. Gives max bytes (left self.old)) }
        ensures bytes_taken { bytes_taken self.new ≡ appended (bytes_taken self.old) (given result) }
        ensures left { left self.old ≡ prepended (given result) (left self.new) }
        ensures ended { ended self.new ≡ ended_by result (ended self.old) }
        ensures cause { HasCause (faults self.old) (faults self.new) result };
}

/// Standard output or standard error.
pub trait Sink {
    /// The bytes that it took.
    ghost written: { Self → Option (List ℕ) };

    /// How often it has failed.
    ghost faults: { Self → ℕ };

    /// Takes a front of the piece, at least one byte, and answers how many. Refused, it took none.
    fn write(&mut self, piece: &[u8]) -> Result<u32, Failed>
        requires { 0 < length piece.now }
        ensures count { IfOk result (λ n. (0 < n) × (n ≤ length piece.now)) }
        ensures written { written self.new ≡ appended (written self.old) (taken result piece.now) }
        ensures cause { HasCause (faults self.old) (faults self.new) result };

    /// Hands the sink over, to be owned for a while. One that takes nothing stands in its place. It takes no memory.
    fn take(&mut self, alloc: Global) -> Self
        ensures { result ≡ self.old };

    /// Puts a sink into the place of this one.
    fn put(&mut self, sink: Self)
        ensures { self.new ≡ sink };
}
