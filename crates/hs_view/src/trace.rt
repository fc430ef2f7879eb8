//! What a view leaves.

ghost use Rattle.std.specs.Prelude.{◌≡◌, ◌≤◌, ◌↔◌, false, IsTrue};
ghost use Rattle.hs_view.specs.Size.{trace_size};
ghost use Rattle.hs_view.specs.Trace.{TraceData};
ghost use Rattle.hs_view.specs.View.{IsTree};
ghost use Rattle.hs_world.specs.Reads.{Fresh, Passes};
ghost use Rattle.hs_world.specs.World.{AllValid, WorldData};

use crate::own::OwnEffects;
use hs_overlay::Overlay;
use hs_world::{Effects, Reads};
use std::alloc::Global;
use std::marker::Model;

/// What was read of a base, and what was done on it. No location was read twice. Over a base that does not write the
/// effects are valid, one after another, in every state that passes the reads, and each pop has its push among them.
#[derive(Drop)]
pub struct Trace {
    pub(crate) alloc: Global,
    pub(crate) reads: Reads,
    pub(crate) effects: OwnEffects,
    pub(crate) overlay: Option<Overlay>,
    pub(crate) size: u128,
    pub(crate) written: bool,
}

impl Model for Trace {
    ghost use Rattle.hs_view.specs.Trace.{IsTraced, TraceData};
    ghost use Rattle.hs_world.specs.Files.{files_code};
    ghost use Rattle.std.specs.Coded.{codes};

    ghost Value = { TraceData };

    ghost coded = { Prim.hlevel (codes, files_code) };

    ghost view = { λ a. record { reads = a.reads; effects = a.effects; written = a.written } };

    ghost invariant = { λ a. IsTraced (record { reads = a.reads; effects = a.effects; written = a.written }) a.size a.overlay };
}

impl Trace {
    pub fn reads(&self) -> &Reads
        ensures { result.now ≡ self.now.reads }
    {
        &self.reads
    }

    pub fn effects(&self) -> &Effects
        ensures { result.now ≡ self.now.effects }
    {
        self.effects.effects()
    }

    /// Whether the base writes on which the effects were done.
    pub fn is_written(&self) -> bool
        ensures { result ≡ self.now.written }
    {
        self.written
    }

    /// Whether a trace over a base that does not write has at most so many bytes.
    pub fn is_within(&self, bytes: u64) -> bool
        requires { self.now.written ≡ false }
        ensures { IsTrue result ↔ (trace_size self.now.reads self.now.effects ≤ bytes) }
    {
        self.size <= u128::from(bytes)
    }

    /// Takes the trace apart.
    pub fn into_parts(self) -> (Reads, Effects)
        ensures reads { result.0 ≡ self.reads }
        ensures effects { result.1 ≡ self.effects }
        ensures fresh { Fresh self.reads }
        ensures valid { self.written ≡ false → (w : WorldData) → IsTree w.tree → Passes self.reads w → AllValid self.effects w }
    {
        let Trace {
            alloc: _,
            reads,
            effects,
            overlay: _,
            size: _,
            written: _,
        } = self;
        (reads, effects.into_effects())
    }
}
