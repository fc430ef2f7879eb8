//! A leaf that runs in its turn.

ghost use Rattle.std.specs.Arc.{arc_value};
ghost use Rattle.std.specs.Prelude.{◌≡◌, ◌≢◌, IfErr, IfOk, Some, true};
ghost use Rattle.hs_view.specs.Causes.{Rose};
ghost use Rattle.hs_world.specs.World.{WorldData};
ghost use Rattle.sh_leaf.specs.Head.{HeadDone, HeadHalts, leaf_under};

use crate::command::run_command;
use crate::fuel::Fuel;
use crate::leaf::halted;
use crate::outcome::Outcome;
use hs_view::{Base, Halt, SpentKind, Trace, View};
use hs_world::Effects;
use sh_syntax::Script;
use std::alloc::Global;
use std::sync::Arc;

/// What a leaf did in a state that had each effect at once, and what it came to. It says nothing of other states. It must be
/// spent, by taking it apart.
pub struct HeadRecord {
    pub effects: Effects,
    pub outcome: Outcome,
    /// The turns that the leaf took.
    pub turns: u32,
}

/// What is left of a view whose leaf came to an outcome.
fn ended<B: Base>(view: View<B>, outcome: Outcome) -> (B, HeadRecord)
    ensures base { result.0 ≡ view.base }
    ensures left { result.1 ≡ record { effects = view.effects; outcome = outcome; turns = 1 } }
{
    let (base, trace) = view.into_trace();
    let (reads, effects) = trace.into_parts();
    drop(reads);
    let record = HeadRecord {
        effects,
        outcome,
        turns: 1,
    };
    (base, record)
}

/// Runs a leaf in its turn, over a base that writes: a told state has each effect at once. With an outcome it has exactly the
/// leaf's effects, in order; at a halt it has the first of them. Spent comes where no turn is left, and else only where the
/// told state does not fit the next effect.
pub fn do_head_leaf<B: Base>(
    alloc: Global,
    script: &Arc<Script>,
    number: u32,
    fuel: Fuel,
    base: B,
) -> Result<(B, HeadRecord), (B, Halt, Trace)>
    requires writes { (B.seen.tells base).writes ≡ true }
    ensures done { IfOk result (λ r. (w : WorldData) → (B.seen.tells base).world ≡ Some w → HeadDone B.seen (leaf_under (arc_value script.now) number fuel w) fuel.turns w base r.0 r.1) }
    ensures halts { IfErr result (λ r. (w : WorldData) → (B.seen.tells base).world ≡ Some w → HeadHalts B.seen (leaf_under (arc_value script.now) number fuel w) w base r.0 r.2.effects r.1) }
    ensures trace { IfErr result (λ r. r.1 ≢ Halt.Trace) }
    ensures fault { IfErr result (λ r. r.1 ≡ Halt.Fault → Rose (B.seen.tells base).faults (B.seen.tells r.0).faults) }
{
    let mut view = View::new(alloc, base, fuel.trace);
    if fuel.turns == 0 {
        return Err(halted(view, Halt::Spent(SpentKind::Turns)));
    }
    match run_command(alloc, script, number, &mut view) {
        Ok(outcome) => Ok(ended(view, outcome)),
        Err(halt) => Err(halted(view, halt)),
    }
}
