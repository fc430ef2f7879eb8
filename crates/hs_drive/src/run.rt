//! A run of a script, one leaf after another.

ghost use Rattle.std.specs.Prelude.{◌≡◌, ◌≢◌, ◌≤◌, ◌-◌, ℕ, [], true};
ghost use Rattle.std.specs.Arc.{arc_value};
ghost use Rattle.hs_outside.specs.Causes.{Rose};
ghost use Rattle.sh_leaf.specs.Built.{is_built};
ghost use Rattle.sh_leaf.specs.Cut.{Serial};
ghost use Rattle.sh_leaf.specs.Run.{list_at, run_items, run_list, status_of};
ghost use Rattle.sh_leaf.specs.State.{begin};
ghost use Rattle.sh_syntax.specs.declared.tree.Script.{Script};
ghost use Rattle.hs_drive.specs.Commit.{Streams};
ghost use Rattle.hs_drive.specs.Plain.{IsComplete, Runs, ending_of, leaf_got, stop_of};
ghost use Rattle.hs_drive.specs.Direct.{told};
ghost use Rattle.hs_drive.specs.Ran.{Ran};

use crate::direct::Direct;
use crate::ending::{Ending, Report};
use crate::stop::Stop;
use hs_outside::{Host, Sink};
use hs_view::{Base, Halt};
use hs_world::{Effect, Limits, World};
use sh_leaf::{Fuel, HeadRecord, Outcome, do_head_leaf};
use sh_syntax::{AndOr, Script};
use std::alloc::Global;
use std::sync::Arc;

/// The most compound commands and calls of a leaf that may be begun in one another.
const FRAMES: u32 = 2_000;

/// The most nested runs of a leaf that may be begun in one another.
const NESTED: u32 = 64;

/// Where a run stands between two leaves.
struct Run<O: Sink, E: Sink> {
    base: Direct<O, E>,
    /// The turns that are left.
    turns: u32,
    /// The leaves that were done.
    head: u64,
}

impl<O: Sink, E: Sink> Run<O, E> {
    fn report(&self, turns: u32) -> Report
        ensures { result ≡ record { head = self.now.head; turns = turns - self.now.turns; count = self.now.base.world.count } }
    {
        Report {
            head: self.head,
            turns: turns.saturating_sub(self.turns),
            count: self.base.world.count(),
        }
    }
}

/// Why a run stops where a leaf came to a halt.
fn stop_of(halt: Halt) -> Stop
    requires outside { halt ≢ Halt.Outside }
    requires trace { halt ≢ Halt.Trace }
    ensures { result ≡ stop_of halt }
{
    match halt {
        Halt::Spent(kind) => Stop::Spent(kind),
        Halt::Fault => Stop::OutFault,
        Halt::NoMemory => Stop::NoMemory,
        Halt::Outside | Halt::Trace => unreachable!(),
    }
}

/// Does one leaf in its turn: each effect is committed before the next one.
fn run_leaf<O: Sink, E: Sink>(
    alloc: Global,
    script: &Arc<Script>,
    number: u32,
    run: Run<O, E>,
) -> (Run<O, E>, Result<Outcome, Stop>)
    requires faults { run.base.faults ≡ 0 }
    ensures ran { Ran (told O.written O.faults) (told E.written E.faults) (leaf_got (arc_value script.now) number run.base.world run.turns) run result.0 0 result.1 }
    ensures head { result.0.head ≡ run.head }
{
    let Run { base, turns, head } = run;
    let fuel = Fuel {
        turns,
        frames: FRAMES,
        nested: NESTED,
        trace: u64::MAX,
    };
    match do_head_leaf(alloc, script, number, fuel, base) {
        Ok((base, done)) => ended_leaf(base, done, turns, head),
        Err((base, halt, trace)) => {
            drop(trace);
            (Run { base, turns, head }, Err(stop_of(halt)))
        }
    }
}

/// Where a run stands after a leaf, and what that came to.
fn ended_leaf<O: Sink, E: Sink>(
    base: Direct<O, E>,
    done: HeadRecord,
    turns: u32,
    head: u64,
) -> (Run<O, E>, Result<Outcome, Stop>)
    requires turns { done.turns ≤ turns }
    ensures { result ≡ (record { base = base; turns = turns - done.turns; head = head }, Ok done.outcome) }
{
    let HeadRecord {
        effects,
        outcome,
        turns: taken,
    } = done;
    drop(effects);
    let turns = turns - taken;
    (Run { base, turns, head }, Ok(outcome))
}

/// Does commands one after another, up to one that comes to no status.
fn run_items<O: Sink, E: Sink>(
    alloc: Global,
    script: &Arc<Script>,
    items: &[AndOr],
    run: Run<O, E>,
) -> (Run<O, E>, Result<Outcome, Stop>)
    requires head { run.head ≡ 0 }
    requires faults { run.base.faults ≡ 0 }
    ensures { Ran (told O.written O.faults) (told E.written E.faults) (run_items (arc_value script.now) items.now (Outcome.Status 0) (begin run.base.world run.turns [])) run result.0 result.0.head result.1 }
{
    let mut run = run;
    let mut outcome = Outcome::Status(0);
    for item in items {
        let Outcome::Status(_) = outcome else {
            return (run, Ok(outcome));
        };
        let (next, came) = run_leaf(alloc, script, item.first, run);
        run = next;
        match came {
            Ok(last) => outcome = last,
            Err(stop) => return (run, Err(stop)),
        }
        run.head += 1;
    }
    (run, Ok(outcome))
}

/// A list without commands.
fn run_nothing<O: Sink, E: Sink>(run: Run<O, E>) -> (Run<O, E>, Result<Outcome, Stop>)
    requires head { run.head ≡ 0 }
    requires faults { run.base.faults ≡ 0 }
    ensures { (script : Script) → Ran (told O.written O.faults) (told E.written E.faults) (run_list script [] (begin run.base.world run.turns [])) run result.0 result.0.head result.1 }
{
    let mut run = run;
    match run.base.push(&Effect::SetStatus(0)) {
        Ok(()) => (run, Ok(Outcome::Status(0))),
        Err(halt) => (run, Err(stop_of(halt))),
    }
}

/// The commands of a list; none where the script doesn't have it.
fn list_at(script: &Script, number: usize) -> &[AndOr]
    ensures { result.now ≡ list_at script.now number }
{
    match script.lists.get(number) {
        Some(list) => list.items.as_slice(),
        None => &[],
    }
}

/// Does the commands of a list. One without commands gives status 0.
fn run_list<O: Sink, E: Sink>(
    alloc: Global,
    script: &Arc<Script>,
    items: &[AndOr],
    run: Run<O, E>,
) -> (Run<O, E>, Result<Outcome, Stop>)
    requires head { run.head ≡ 0 }
    requires faults { run.base.faults ≡ 0 }
    ensures { Ran (told O.written O.faults) (told E.written E.faults) (run_list (arc_value script.now) items.now (begin run.base.world run.turns [])) run result.0 result.0.head result.1 }
{
    if items.is_empty() {
        return run_nothing(run);
    }
    run_items(alloc, script, items, run)
}

/// Does the whole script, which is its first list.
fn run_script<O: Sink, E: Sink>(
    alloc: Global,
    script: &Arc<Script>,
    run: Run<O, E>,
) -> (Run<O, E>, Result<Outcome, Stop>)
    requires head { run.head ≡ 0 }
    requires faults { run.base.faults ≡ 0 }
    ensures { Ran (told O.written O.faults) (told E.written E.faults) (run_list (arc_value script.now) (list_at (arc_value script.now) 0) (begin run.base.world run.turns [])) run result.0 result.0.head result.1 }
{
    run_list(alloc, script, list_at(script, 0), run)
}

/// The status of a script that ends so. A `break` or `continue` has status 0.
fn status_of(outcome: Outcome) -> u8
    ensures { result ≡ status_of outcome }
{
    match outcome {
        Outcome::Status(status) | Outcome::Return(status) | Outcome::Exit(status) => status,
        Outcome::Break(_) | Outcome::Continue(_) => 0,
    }
}

fn ending_of(stop: Stop) -> Ending
    ensures { result ≡ ending_of stop }
{
    match stop {
        Stop::Spent(kind) => Ending::Spent(kind),
        Stop::OutFault => Ending::OutFault,
        Stop::NoMemory => Ending::NoMemory,
    }
}

/// Runs a script to its end, with no thread, and says how it ended. Each leaf is done in its turn on the committed state, and what it
/// writes has gone to its stream before the next effect. The streams are owned meanwhile. The time is linear in what the script does.
pub fn plain<H: Host, O: Sink, E: Sink>(
    alloc: Global,
    script: Arc<Script>,
    world: World,
    limits: Limits,
    host: &mut H,
    out: &mut O,
    err: &mut E,
) -> (Ending, Report)
    requires built { is_built (arc_value script) ≡ true }
    ensures runs { Runs (Rose (O.faults out.old) (O.faults out.new)) (Rose (E.faults err.old) (E.faults err.new)) (arc_value script) world limits.turns
        (record { out = O.written out.old; err = E.written err.old }) (record { out = O.written out.new; err = E.written err.new }) result.0 result.1 }
    ensures complete { IsComplete (Rose (O.faults out.old) (O.faults out.new)) (Rose (E.faults err.old) (E.faults err.new)) (Serial (arc_value script) world limits.turns []) result.0 }
    ensures files { H.files host.new ≡ H.files host.old }
    ensures asked { H.calls host.new ≡ H.calls host.old }
    ensures host_later { H.faults host.old ≤ H.faults host.new }
    ensures out_later { O.faults out.old ≤ O.faults out.new }
    ensures err_later { E.faults err.old ≤ E.faults err.new }
{
    let _ = host;
    let base = Direct {
        world,
        out: out.take(alloc),
        err: err.take(alloc),
        faults: 0,
    };
    let run = Run {
        base,
        turns: limits.turns,
        head: 0,
    };
    let (run, came) = run_script(alloc, &script, run);
    let report = run.report(limits.turns);
    give_back(run, out, err);
    match came {
        Ok(outcome) => (Ending::Done(status_of(outcome)), report),
        Err(stop) => (ending_of(stop), report),
    }
}

/// Puts the streams back, and the state away.
fn give_back<O: Sink, E: Sink>(run: Run<O, E>, out: &mut O, err: &mut E)
    ensures out { out.new ≡ run.base.out }
    ensures err { err.new ≡ run.base.err }
{
    let Run {
        base,
        turns: _,
        head: _,
    } = run;
    let Direct {
        world,
        out: out_then,
        err: err_then,
        faults: _,
    } = base;
    drop(world);
    out.put(out_then);
    err.put(err_then);
}
