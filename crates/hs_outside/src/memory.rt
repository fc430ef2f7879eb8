//! Hosts, sources and sinks in memory. They tell what they hold, and fail at the calls that they are told to.

ghost use Rattle.std.specs.Prelude.{◌≡◌, ◌↔◌, ◌<◌, ◌≤◌, ◌++◌, ◌-◌, ◌^◌, [], false, true, min, length, take, All, IfOk, IfSome, IsErrOf, IsTrue, Some};
ghost use Rattle.hs_outside.specs.Causes.{HasCause, IsCaused, Rose};
ghost use Rattle.hs_outside.specs.Hosts.{Loads, one_more};
ghost use Rattle.hs_outside.specs.Memory.{after_call, fails};
ghost use Rattle.hs_outside.specs.Streams.{Gives, appended, ended_by, given, prepended, taken};

use crate::outside::{Failed, Host, HostErr, Sink, Source};
use hs_text::Text;
use hs_world::Tree;
use std::alloc::{AllocError, Global};
use std::marker::Model;
use std::mem;

/// The calls of an object, some of which fail: counted from 1, and the count stays at the last number of 64 bits. A call
/// costs as many comparisons as there are failing ones.
#[derive(Drop)]
pub struct Calls {
    failing: Vec<u64>,
    made: u64,
    faults: u64,
}

impl Model for Calls {
    ghost use Rattle.hs_outside.specs.Memory.{CallsData};

    ghost Value = { CallsData };

    ghost view = { λ c. record { failing = c.failing.items; made = c.made; faults = c.faults } };
}

impl Calls {
    pub fn new(failing: Vec<u64>) -> Calls
        ensures { result ≡ record { failing = failing.items; made = 0; faults = 0 } }
    {
        Calls {
            failing,
            made: 0,
            faults: 0,
        }
    }

    /// Counts a call, and says whether it fails.
    fn count(&mut self) -> bool
        ensures fails { result ≡ fails self.old }
        ensures counted { self.new ≡ after_call self.old }
        ensures later { self.old.faults ≤ self.new.faults }
        ensures rose { IsTrue result → Rose self.old.faults self.new.faults }
    {
        self.made = self.made.saturating_add(1);
        let fails = self.failing.contains(&self.made);
        if fails {
            self.faults = self.faults.saturating_add(1);
        }
        fails
    }
}

/// A host with these files.
#[derive(Drop)]
pub struct MemoryHost {
    tree: Tree,
    calls: Calls,
}

impl Model for MemoryHost {
    ghost use Rattle.hs_outside.specs.Memory.{HostData};
    ghost use Rattle.hs_world.specs.Files.{files_code};
    ghost use Rattle.std.specs.Coded.{codes};

    ghost Value = { HostData };

    ghost coded = { Prim.hlevel (codes, files_code) };

    ghost view = { λ h. record { files = h.tree; calls = h.calls } };
}

impl MemoryHost {
    /// A host with these files. The calls with these numbers fail.
    pub fn new(tree: Tree, failing: Vec<u64>) -> Result<MemoryHost, AllocError>
        requires failing { All (λ n. n < 2 ^ 64 - 1) failing.items }
        ensures { IfOk result (λ h. h ≡ record { files = tree; calls = record { failing = failing.items; made = 0; faults = 0 } }) }
    {
        Ok(MemoryHost {
            tree,
            calls: Calls::new(failing),
        })
    }
}

impl Host for MemoryHost {
    ghost files = { λ h. Some h.files };

    ghost calls = { λ h. Some h.calls.made };

    ghost faults = { λ h. h.calls.faults };

    fn load(&mut self, alloc: Global) -> Result<Tree, HostErr>
        ensures loads { Loads (Some self.old.files) result }
        ensures files { Some self.new.files ≡ Some self.old.files }
        ensures asked { Some self.new.calls.made ≡ one_more (Some self.old.calls.made) }
        ensures calls { self.new.calls ≡ after_call self.old.calls }
        ensures fails { IsErrOf result HostErr.Fault ↔ (fails self.old.calls ≡ true) }
        ensures cause { IsCaused self.old.calls.faults self.new.calls.faults result }
    {
        if self.calls.count() {
            return Err(HostErr::Fault);
        }
        if self.tree.is_over() {
            return Err(HostErr::TooLarge {
                bytes: self.tree.bytes(),
                entries: self.tree.len() as u64,
            });
        }
        match self.tree.clone() {
            Ok(tree) => Ok(tree),
            Err(_) => Err(HostErr::NoMemory),
        }
    }
}

/// A sink that keeps what it takes.
#[derive(Drop)]
pub struct MemorySink {
    written: Vec<u8>,
    step: u32,
    calls: Calls,
}

impl Model for MemorySink {
    ghost use Rattle.hs_outside.specs.Memory.{SinkData};

    ghost Value = { SinkData };

    ghost view = { λ s. record { written = s.written.items; step = s.step; calls = s.calls } };

    ghost use Rattle.std.specs.Prelude.{◌<◌};

    ghost invariant = { λ s. 0 < s.step };
}

impl MemorySink {
    /// An empty sink. One call takes `step` bytes at most, and the calls with these numbers fail.
    pub fn new(alloc: Global, step: u32, failing: Vec<u64>) -> Result<MemorySink, AllocError>
        requires step { 0 < step }
        requires failing { All (λ n. n < 2 ^ 64 - 1) failing.items }
        ensures { IfOk result (λ s. s ≡ record { written = []; step = step; calls = record { failing = failing.items; made = 0; faults = 0 } }) }
    {
        Ok(MemorySink {
            written: Vec::new(alloc),
            step,
            calls: Calls::new(failing),
        })
    }

    pub fn written(&self) -> &[u8]
        ensures { result.now ≡ self.now.written }
    {
        &self.written
    }
}

impl Sink for MemorySink {
    ghost written = { λ s. Some s.written };

    ghost faults = { λ s. s.calls.faults };

    fn write(&mut self, piece: &[u8]) -> Result<u32, Failed>
        requires { 0 < length piece.now }
        ensures count { IfOk result (λ n. (0 < n) × (n ≤ length piece.now)) }
        ensures exact_count { IfOk result (λ n. n ≡ min self.old.step (length piece.now)) }
        ensures written { Some self.new.written ≡ appended (Some self.old.written) (taken result piece.now) }
        ensures calls { self.new.calls ≡ after_call self.old.calls }
        ensures fails { IsErrOf result Failed.Fault ↔ (fails self.old.calls ≡ true) }
        ensures step { self.new.step ≡ self.old.step }
        ensures cause { HasCause self.old.calls.faults self.new.calls.faults result }
    {
        if self.calls.count() {
            return Err(Failed::Fault);
        }
        let count = piece.len().min(self.step as usize);
        if self.written.extend_from_slice(&piece[..count]).is_err() {
            return Err(Failed::NoMemory);
        }
        Ok(count as u32)
    }

    fn take(&mut self, alloc: Global) -> MemorySink {
        let empty = MemorySink {
            written: Vec::new(alloc),
            step: 1,
            calls: Calls::new(Vec::new(alloc)),
        };
        mem::replace(self, empty)
    }

    fn put(&mut self, sink: MemorySink) {
        *self = sink;
    }
}

/// A source of these bytes.
#[derive(Drop)]
pub struct MemorySource {
    bytes: Text,
    at: usize,
    ended: bool,
    step: u32,
    calls: Calls,
}

impl Model for MemorySource {
    ghost use Rattle.std.specs.Prelude.{drop, take, length, ◌<◌, ◌≤◌};
    ghost use Rattle.hs_outside.specs.Memory.{SourceData};

    ghost Value = { SourceData };

    ghost view = { λ s. record { taken = take s.at s.bytes; left = drop s.at s.bytes; ended = s.ended; step = s.step; calls = s.calls } };

    ghost invariant = { λ s. (0 < s.step) × (s.at ≤ length s.bytes) };
}

impl MemorySource {
    /// A source of these bytes. One call gives `step` bytes at most, and the calls with these numbers fail.
    pub fn new(bytes: Text, step: u32, failing: Vec<u64>) -> Result<MemorySource, AllocError>
        requires step { 0 < step }
        requires failing { All (λ n. n < 2 ^ 64 - 1) failing.items }
        ensures { IfOk result (λ s. s ≡ record { taken = []; left = bytes; ended = false; step = step; calls = record { failing = failing.items; made = 0; faults = 0 } }) }
    {
        Ok(MemorySource {
            bytes,
            at: 0,
            ended: false,
            step,
            calls: Calls::new(failing),
        })
    }
}

impl Source for MemorySource {
    ghost bytes_taken = { λ s. Some s.taken };

    ghost left = { λ s. Some s.left };

    ghost ended = { λ s. s.ended };

    ghost faults = { λ s. s.calls.faults };

    fn take(&mut self, alloc: Global, max: u32) -> Result<Option<Text>, Failed>
        requires { 0 < max }
        ensures gives { IfOk result (λ bytes. Gives max bytes (Some self.old.left)) }
        ensures exact { IfOk result (λ bytes. IfSome bytes (λ b. b ≡ take (min max self.old.step) self.old.left)) }
        ensures bytes_taken { Some self.new.taken ≡ appended (Some self.old.taken) (given result) }
        ensures left { Some self.old.left ≡ prepended (given result) (Some self.new.left) }
        ensures ended { self.new.ended ≡ ended_by result self.old.ended }
        ensures calls { self.new.calls ≡ after_call self.old.calls }
        ensures fails { IsErrOf result Failed.Fault ↔ (fails self.old.calls ≡ true) }
        ensures step { self.new.step ≡ self.old.step }
        ensures cause { HasCause self.old.calls.faults self.new.calls.faults result }
    {
        if self.calls.count() {
            return Err(Failed::Fault);
        }
        let left = self.bytes.as_slice().split_at(self.at).1;
        if left.is_empty() {
            self.ended = true;
            return Ok(None);
        }
        let count = left.len().min(self.step as usize).min(max as usize);
        match Text::from_slice(alloc, left.split_at(count).0) {
            Ok(text) => {
                self.at += count;
                Ok(Some(text))
            }
            Err(_) => Err(Failed::NoMemory),
        }
    }
}
