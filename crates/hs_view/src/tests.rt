use crate::{Fixed, View};
use hs_text::{Text, TextList};
use hs_world::{Effect, Limits, Tree, World};
use std::alloc::{AllocError, Global};
use std::test::Fail;

const LIMITS: Limits = Limits {
    bytes: 1024,
    turns: 1,
};

/// The state of a script that has nothing.
fn nothing(alloc: Global) -> Result<World, AllocError> {
    let tree = Tree::new(alloc);
    let params = TextList::new(alloc);
    match World::new(
        alloc,
        tree,
        Vec::new(alloc),
        Text::new(alloc),
        params,
        Text::new(alloc),
        LIMITS,
    ) {
        Ok(world) => Ok(world),
        Err(_) => Err(AllocError),
    }
}

fn view_of(alloc: Global, trace: u64) -> Result<View<Fixed>, AllocError> {
    match nothing(alloc) {
        Ok(world) => Ok(View::new(alloc, Fixed::new(world), trace)),
        Err(error) => Err(error),
    }
}

/// How many pairs and effects a view leaves.
fn ended(view: View<Fixed>) -> (usize, usize) {
    let (base, trace) = view.into_trace();
    let counts = (
        trace.reads().as_slice().len(),
        trace.effects().as_slice().len(),
    );
    drop(base);
    drop(trace);
    counts
}

/// Whether a status is read within a limit, and leaves one pair.
fn is_read(view: View<Fixed>) -> bool {
    let mut view = view;
    let read = view.status() == Ok(0);
    ended(view) == (1, 0) && read
}

fn is_within(alloc: Global, limit: u64) -> Result<bool, AllocError> {
    match view_of(alloc, limit) {
        Ok(view) => Ok(is_read(view)),
        Err(error) => Err(error),
    }
}

/// A pair without texts has 64 bytes.
#[test]
fn a_trace_has_a_last_byte(rt: HostRuntime) -> Result<(), Fail> {
    let alloc = rt.alloc();
    assert!(rt; is_within(alloc, 64)?);
    Ok(())
}

fn set_status(view: &mut View<Fixed>) -> bool {
    view.put(Effect::SetStatus(7)).is_ok() && view.status() == Ok(7)
}

fn begin_shell(view: &mut View<Fixed>) -> bool {
    view.put(Effect::PushShell).is_ok() && view.pushed().shells == 1
}

fn end_shell(view: &mut View<Fixed>) -> bool {
    if !view.has_push(&Effect::PopShell) {
        return false;
    }
    view.put(Effect::PopShell).is_ok()
}

/// Whether an effect is seen, and nothing was read for that.
fn is_seen(view: View<Fixed>) -> bool {
    let mut view = view;
    let seen = set_status(&mut view);
    ended(view) == (0, 1) && seen
}

fn sees(alloc: Global) -> Result<bool, AllocError> {
    match view_of(alloc, 4096) {
        Ok(view) => Ok(is_seen(view)),
        Err(error) => Err(error),
    }
}

#[test]
fn an_effect_is_seen(rt: HostRuntime) -> Result<(), Fail> {
    let alloc = rt.alloc();
    assert!(rt; sees(alloc)?);
    Ok(())
}

/// Whether an environment is begun in a view, and ended in one that goes on with its trace.
fn goes_on(view: View<Fixed>) -> bool {
    let mut first = view;
    let began = begin_shell(&mut first);
    let (base, so_far) = first.into_trace();
    if !so_far.is_within(4096) {
        drop(base);
        drop(so_far);
        return false;
    }
    let mut second = View::resume(base, so_far, 4096);
    let ends = end_shell(&mut second);
    ended(second) == (0, 2) && began && ends
}

fn resumes(alloc: Global) -> Result<bool, AllocError> {
    match view_of(alloc, 4096) {
        Ok(view) => Ok(goes_on(view)),
        Err(error) => Err(error),
    }
}

#[test]
fn a_view_goes_on(rt: HostRuntime) -> Result<(), Fail> {
    let alloc = rt.alloc();
    assert!(rt; resumes(alloc)?);
    Ok(())
}
