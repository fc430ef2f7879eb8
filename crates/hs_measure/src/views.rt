//! Work on a view.

use hs_text::{Text, TextList};
use hs_view::{Fixed, Halt, View};
use hs_world::{Effect, Limits, Tree, Var, World};
use std::alloc::{AllocError, Global};

/// The most that a value may have.
const LIMITS: Limits = Limits {
    bytes: 268_435_456,
    turns: 1,
};

fn name(alloc: Global, word: &str, place: u32) -> Result<Text, AllocError> {
    let name = format!(in alloc; "{word}{place}")?;
    Text::from_slice(alloc, name.as_bytes())
}

fn value(alloc: Global) -> Result<Var, AllocError> {
    Ok(Var {
        value: Some(Text::from_slice(alloc, b"a value of some length")?),
        exported: false,
        readonly: false,
    })
}

/// Sets one of 1,000 variables, and each tenth time reads one that was not read before.
fn work_step(alloc: Global, view: &mut View<Fixed>, place: u32) -> Result<(), Halt> {
    let own = name(alloc, "own", place % 1000)?;
    view.put(Effect::SetVar(own, value(alloc)?))?;
    if place % 10 == 0 {
        let other = name(alloc, "other", place / 10)?;
        view.var(&other)?;
    }
    Ok(())
}

fn work_steps(alloc: Global, view: &mut View<Fixed>, count: u32) -> Result<(), Halt> {
    for place in 0..count {
        work_step(alloc, view, place)?;
    }
    Ok(())
}

/// How many effects and reads a view leaves.
fn left(alloc: Global, view: View<Fixed>, count: u32) -> u64 {
    let mut view = view;
    let done = work_steps(alloc, &mut view, count).is_ok();
    let (base, trace) = view.into_trace();
    let counts = trace.effects().as_slice().len() as u64 + trace.reads().as_slice().len() as u64;
    drop(base);
    drop(trace);
    if done { counts } else { 0 }
}

/// Does effects in a view of the state in which a script begins, and reads one location for each ten of them.
pub fn view(alloc: Global, count: u32) -> u64 {
    let (zero, params, input) = (Text::new(alloc), TextList::new(alloc), Text::new(alloc));
    let tree = Tree::new(alloc);
    match World::new(alloc, tree, Vec::new(alloc), zero, params, input, LIMITS) {
        Ok(world) => left(alloc, View::new(alloc, Fixed::new(world), u64::MAX), count),
        Err(_) => 0,
    }
}
