//! Leaves in their turn, over a state that has each effect at once.

ghost use Rattle.std.specs.Prelude.{None, [], true, false};
ghost use Rattle.hs_view.specs.Seen.{alone};

use super::{Step, are_steps, script, world};
use crate::{Fuel, HeadRecord, Outcome, do_head_leaf};
use hs_text::TextList;
use hs_view::{Base, Halt, SpentKind, Trace};
use hs_world::{Effect, Limit, Loc, Reply, Value, World, WorldErr};
use sh_syntax::Script;
use std::alloc::Global;
use std::sync::Arc;
use std::test::Fail;

/// A state that has each effect at once. It is not told, so that what is seen of it is what the leaf did.
#[derive(Drop)]
struct Written {
    world: World,
}

impl Base for Written {
    ghost seen = { alone (λ b. record { world = None; asked = []; writes = true; runs = false; faults = 0 }) };

    fn writes(&self) -> bool {
        true
    }

    fn get(&mut self, loc: &Loc) -> Result<Value, Halt> {
        Ok(self.world.at(loc)?)
    }

    fn push(&mut self, effect: &Effect) -> Result<(), Halt> {
        if !self.world.valid(effect) {
            return Err(Halt::NoMemory);
        }
        match self.world.apply(effect) {
            Ok(()) => Ok(()),
            Err(WorldErr::NoMemory) => Err(Halt::NoMemory),
            Err(WorldErr::Full(Limit::Bytes)) => Err(Halt::Spent(SpentKind::Bytes)),
            Err(WorldErr::Full(Limit::Tree)) => Err(Halt::Spent(SpentKind::Tree)),
        }
    }

    fn ask(&mut self, _argv: &TextList) -> Result<Reply, Halt> {
        Err(Halt::Outside)
    }
}

/// A command, its turns, and what the state has in the end: the status, and how many effects.
#[derive(Drop)]
struct Case<'a> {
    words: &'a [&'a str],
    turns: u32,
    steps: Option<&'a [Step<'a>]>,
    status: u8,
    count: u64,
}

fn shows(world: &World, case: &Case<'_>) -> bool {
    world.status() == case.status && world.count() == case.count
}

fn takes(record: HeadRecord, case: &Case<'_>) -> bool {
    let HeadRecord {
        effects,
        outcome,
        turns,
    } = record;
    let status = outcome == Outcome::Status(case.status) && turns == 1;
    match case.steps {
        Some(steps) => status && are_steps(effects.as_slice(), steps),
        None => false,
    }
}

fn is_case(ran: Result<(Written, HeadRecord), (Written, Halt, Trace)>, case: &Case<'_>) -> bool {
    match ran {
        Ok((base, record)) => {
            let shown = shows(&base.world, case);
            drop(base);
            takes(record, case) && shown
        }
        Err((base, halt, trace)) => {
            let shown = shows(&base.world, case);
            drop(base);
            drop(trace);
            shown && case.steps.is_none() && halt == Halt::Spent(SpentKind::Turns)
        }
    }
}

fn runs_in(alloc: Global, script: &Arc<Script>, case: &Case<'_>) -> bool {
    let fuel = Fuel {
        turns: case.turns,
        frames: 2000,
        nested: 64,
        trace: 0,
    };
    match world(alloc, Some("x")) {
        Ok(world) => is_case(
            do_head_leaf(alloc, script, 0, fuel, Written { world }),
            case,
        ),
        Err(_) => false,
    }
}

fn runs(alloc: Global, case: &Case<'_>) -> bool {
    match script(alloc, case.words) {
        Ok(script) => runs_in(alloc, &script, case),
        Err(_) => false,
    }
}

fn all_run(alloc: Global, cases: &[Case<'_>]) -> bool {
    for case in cases {
        if !runs(alloc, case) {
            return false;
        }
    }
    true
}

#[test]
fn a_state_has_the_effects_at_once(rt: HostRuntime) -> Result<(), Fail> {
    let cases = [
        Case {
            words: &["cat", "g", "f"],
            turns: 1,
            steps: Some(&[
                Step::Err("hs: cat: g: no such file\n"),
                Step::Out("x"),
                Step::Status(1),
            ]),
            status: 1,
            count: 3,
        },
        Case {
            words: &["cat", "f"],
            turns: 0,
            steps: None,
            status: 0,
            count: 0,
        },
    ];
    assert!(rt; all_run(rt.alloc(), &cases));
    Ok(())
}
