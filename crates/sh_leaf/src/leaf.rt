//! A leaf that is run ahead of its turn.

ghost use Rattle.std.specs.Arc.{arc_value};
ghost use Rattle.std.specs.Prelude.{◌≡◌, ◌<◌, ◌≤◌, IfErr, IfOk, Some, false, slice_get};
ghost use Rattle.hs_view.specs.Causes.{Rose};
ghost use Rattle.hs_view.specs.Size.{trace_size};
ghost use Rattle.hs_view.specs.View.{IsTree};
ghost use Rattle.hs_world.specs.Reads.{Passes};
ghost use Rattle.hs_world.specs.World.{WorldData};
ghost use Rattle.sh_leaf.specs.Command.{leaf_done};
ghost use Rattle.sh_leaf.specs.Halting.{Halts, leaf_in};

use crate::command::run_command;
use crate::fuel::Fuel;
use crate::outcome::Outcome;
use crate::record::Record;
use hs_view::{Base, Halt, SpentKind, Trace, View};
use sh_syntax::Script;
use std::alloc::Global;
use std::sync::Arc;

/// What is left of a view whose leaf came to a halt.
pub(crate) fn halted<B: Base>(view: View<B>, halt: Halt) -> (B, Halt, Trace)
    ensures base { result.0 ≡ view.base }
    ensures halt { result.1 ≡ halt }
    ensures reads { result.2.reads ≡ view.reads }
    ensures effects { result.2.effects ≡ view.effects }
{
    let (base, trace) = view.into_trace();
    (base, halt, trace)
}

/// The record of a leaf that came to an outcome.
fn recorded<B: Base>(
    script: Arc<Script>,
    number: u32,
    outcome: Outcome,
    view: View<B>,
) -> (B, Record)
    requires writes { (B.seen.tells view.base).writes ≡ false }
    requires done { (w : WorldData) → IsTree w.tree → Passes view.reads w → leaf_done (slice_get (arc_value script).leaves number) w ≡ record { effects = view.effects; answer = outcome } }
    ensures base { result.0 ≡ view.base }
    ensures script { result.1.script ≡ arc_value script }
    ensures number { result.1.number ≡ number }
    ensures reads { result.1.reads ≡ view.reads }
    ensures turns { result.1.turns ≡ 1 }
{
    let (base, trace) = view.into_trace();
    let (reads, effects) = trace.into_parts();
    let record = Record {
        script,
        number,
        reads,
        effects,
        outcome,
        turns: 1,
    };
    (base, record)
}

/// Runs a leaf ahead of its turn, over a base that does not write. The record holds in every state that passes its reads. A
/// halt hands back what was read and done until then, which comes first among the leaf's effects in every such state.
pub fn do_leaf<B: Base>(
    alloc: Global,
    script: &Arc<Script>,
    number: u32,
    fuel: Fuel,
    base: B,
) -> Result<(B, Record), (B, Halt, Trace)>
    requires writes { (B.seen.tells base).writes ≡ false }
    ensures script { IfOk result (λ r. r.1.script ≡ arc_value script.now) }
    ensures number { IfOk result (λ r. r.1.number ≡ number) }
    ensures told { IfOk result (λ r. (w : WorldData) → (B.seen.tells base).world ≡ Some w → ((B.seen.tells r.0).world ≡ Some w) × Passes r.1.reads w) }
    ensures turns { IfOk result (λ r. r.1.turns ≤ fuel.turns) }
    ensures told_halted { IfErr result (λ r. (w : WorldData) → (B.seen.tells base).world ≡ Some w → ((B.seen.tells r.0).world ≡ Some w) × Passes r.2.reads w) }
    ensures halts { IfErr result (λ r. Halts (leaf_in (arc_value script.now) number fuel) r.2.reads r.2.effects r.1) }
    ensures trace { IfErr result (λ r. r.1 ≡ Halt.Trace → fuel.trace < trace_size r.2.reads r.2.effects) }
    ensures fault { IfErr result (λ r. r.1 ≡ Halt.Fault → Rose (B.seen.tells base).faults (B.seen.tells r.0).faults) }
{
    let mut view = View::new(alloc, base, fuel.trace);
    if fuel.turns == 0 {
        return Err(halted(view, Halt::Spent(SpentKind::Turns)));
    }
    let Ok(kept) = script.clone() else {
        return Err(halted(view, Halt::NoMemory));
    };
    match run_command(alloc, script, number, &mut view) {
        Ok(outcome) => Ok(recorded(kept, number, outcome, view)),
        Err(halt) => {
            drop(kept);
            Err(halted(view, halt))
        }
    }
}
