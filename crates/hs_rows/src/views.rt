//! Each location as a view shows it: what is read of the state below, and what the view's own effects make of it.

ghost use Rattle.std.specs.Prelude.{◌≡◌, false, true};
ghost use Rattle.hs_view.specs.Pushes.{is_own_pop};
ghost use Rattle.hs_world.specs.World.{WorldData, is_valid};

use crate::places::{Read, Shows, Step, To, begin, does_steps, effect, read_of};
use hs_view::{Fixed, Halt, Trace, View};
use hs_world::{Effect, Kind, Opts, Reads, World};
use std::alloc::Global;
use std::test::Fail;

/// Room enough for every case.
const ROOM: u64 = 65536;

/// What was done before the view, what is done in it, and what it shows then, after so many reads.
#[derive(Drop)]
struct Case<'a> {
    before: &'a [Step<'a>],
    own: &'a [Step<'a>],
    shows: Shows<'a>,
    reads: usize,
}

/// Whether an effect may come in every state.
fn may_always_come(effect: &Effect) -> bool
    ensures { result ≡ true → (w : WorldData) → is_valid effect.now w ≡ true }
{
    match effect {
        Effect::SetVar(_, _) | Effect::UnsetVar(_) => true,
        Effect::SetFunc(_, _) | Effect::UnsetFunc(_) => true,
        Effect::SetParams(_) | Effect::SetStatus(_) => true,
        Effect::SetCwd(_) | Effect::SetOpts(_) => true,
        Effect::Emit(_, _) | Effect::PushShell => true,
        Effect::PushInput(_) | Effect::SetInput(_) => true,
        Effect::ExecInput(_) | Effect::Replied(_) => true,
        Effect::PushRoutes(routes) => routes.is_table(),
        Effect::SetKept(3, _) => true,
        _ => false,
    }
}

fn is_pop(effect: &Effect) -> bool
    ensures { result ≡ is_own_pop effect.now false }
{
    matches!(
        effect,
        Effect::PopShell | Effect::PopInput | Effect::PopRoutes
    )
}

/// Does an effect of the view's own, and says whether that may be told to be valid and was done.
fn puts(view: &mut View<Fixed>, effect: Effect) -> Result<(), Halt> {
    if !view.has_push(&effect) {
        return Err(Halt::Outside);
    }
    if is_pop(&effect) || may_always_come(&effect) {
        return view.put(effect);
    }
    Err(Halt::Outside)
}

fn puts_step(alloc: Global, view: &mut View<Fixed>, step: Step<'_>) -> Result<(), Halt> {
    match effect(alloc, step) {
        Ok(effect) => puts(view, effect),
        Err(_) => Err(Halt::NoMemory),
    }
}

fn puts_steps(alloc: Global, view: &mut View<Fixed>, steps: &[Step<'_>]) -> Result<(), Halt> {
    for step in steps {
        puts_step(alloc, view, *step)?;
    }
    Ok(())
}

/// The state in which a script begins, after these effects.
fn state(alloc: Global, steps: &[Step<'_>]) -> Option<World> {
    let mut world = begin(alloc)?;
    if does_steps(alloc, &mut world, steps) {
        return Some(world);
    }
    None
}

fn view_of(alloc: Global, steps: &[Step<'_>], room: u64) -> Option<View<Fixed>> {
    match state(alloc, steps) {
        Some(world) => Some(View::new(alloc, Fixed::new(world), room)),
        None => None,
    }
}

/// Whether each pair that was read is what the state below has.
fn are_true(base: Fixed, reads: &Reads) -> bool {
    let world = base.into_world();
    for (loc, value) in reads.as_slice() {
        if !world.holds(loc, value) {
            return false;
        }
    }
    true
}

/// Ends a view, and says whether it has so many reads and effects, and whether the state below has what was read.
fn leaves(view: View<Fixed>, reads: usize, effects: usize) -> bool {
    let (base, trace) = view.into_trace();
    let counts = trace.reads().as_slice().len() == reads
        && trace.effects().as_slice().len() == effects;
    let told = are_true(base, trace.reads());
    drop(trace);
    counts && told
}

/// Whether a view answers twice what the state has in which all was done.
fn answers(view: &mut View<Fixed>, whole: &World, read: &Read) -> bool {
    let (Ok(first), Ok(again)) = (view.get(&read.loc), view.get(&read.loc)) else {
        return false;
    };
    whole.holds(&read.loc, &first)
        && whole.holds(&read.loc, &again)
        && whole.holds(&read.loc, &read.value)
}

fn answers_so(alloc: Global, view: &mut View<Fixed>, case: &Case<'_>, read: &Read) -> bool {
    let Some(mut whole) = state(alloc, case.before) else {
        return false;
    };
    does_steps(alloc, &mut whole, case.own) && answers(view, &whole, read)
}

fn is_shown(alloc: Global, view: View<Fixed>, case: &Case<'_>) -> bool {
    let mut view = view;
    let shown = match read_of(alloc, case.shows) {
        Ok(read) => answers_so(alloc, &mut view, case, &read),
        Err(_) => false,
    };
    leaves(view, case.reads, case.own.len()) && shown
}

fn holds_in(alloc: Global, view: View<Fixed>, case: &Case<'_>) -> bool {
    let mut view = view;
    let done = puts_steps(alloc, &mut view, case.own).is_ok();
    is_shown(alloc, view, case) && done
}

fn holds(alloc: Global, case: &Case<'_>) -> bool {
    match view_of(alloc, case.before, ROOM) {
        Some(view) => holds_in(alloc, view, case),
        None => false,
    }
}

fn resumed(base: Fixed, so_far: Trace) -> Option<View<Fixed>> {
    if !so_far.is_written() && so_far.is_within(ROOM) {
        return Some(View::resume(base, so_far, ROOM));
    }
    drop(base);
    drop(so_far);
    None
}

/// Does one effect, and goes on with what the view leaves.
fn goes_on(alloc: Global, view: View<Fixed>, step: Step<'_>) -> Option<View<Fixed>> {
    let mut view = view;
    let done = puts_step(alloc, &mut view, step).is_ok();
    let (base, so_far) = view.into_trace();
    if done {
        return resumed(base, so_far);
    }
    drop(base);
    drop(so_far);
    None
}

/// Whether it holds too where the view is taken apart, and goes on, behind each of its effects.
fn holds_apart(alloc: Global, view: View<Fixed>, case: &Case<'_>) -> bool {
    let mut view = view;
    for step in case.own {
        match goes_on(alloc, view, *step) {
            Some(next) => view = next,
            None => return false,
        }
    }
    is_shown(alloc, view, case)
}

fn resumes(alloc: Global, case: &Case<'_>) -> bool {
    match view_of(alloc, case.before, ROOM) {
        Some(view) => holds_apart(alloc, view, case),
        None => false,
    }
}

fn hold(alloc: Global, cases: &[Case<'_>]) -> bool {
    for case in cases {
        if !holds(alloc, case) || !resumes(alloc, case) {
            return false;
        }
    }
    true
}

/// A value that is read of the state below, in one pair.
fn read<'a>(before: &'a [Step<'a>], shows: Shows<'a>) -> Case<'a> {
    Case {
        before,
        own: &[],
        shows,
        reads: 1,
    }
}

/// A value that the view's own effects give over one that is read, after so many reads.
fn both<'a>(
    before: &'a [Step<'a>],
    own: &'a [Step<'a>],
    shows: Shows<'a>,
    reads: usize,
) -> Case<'a> {
    Case {
        before,
        own,
        shows,
        reads,
    }
}

/// A value that the view's own effects give by themselves.
fn made<'a>(own: &'a [Step<'a>], shows: Shows<'a>) -> Case<'a> {
    Case {
        before: &[],
        own,
        shows,
        reads: 0,
    }
}

const FILE: Step<'static> = Step::Put("/f", "a");

const INNER: Step<'static> = Step::PushShell;

const OUTER: Step<'static> = Step::PopShell;

const ONE: Step<'static> = Step::SetVar("x", "1");

const TWO: Step<'static> = Step::SetVar("x", "2");

const NULL: Step<'static> = Step::PushRoutes(To::Null);

const CAPTURE: Step<'static> = Step::PushRoutes(To::Capture);

#[test]
fn files_are_recorded(rt: HostRuntime) -> Result<(), Fail> {
    let cases = [
        read(&[FILE], Shows::Kind("/f", Kind::File)),
        read(&[], Shows::Kind("/f", Kind::Absent)),
        read(&[FILE], Shows::Bytes("/f", Some("a"))),
        read(&[], Shows::Bytes("/f", None)),
    ];
    assert!(rt; hold(rt.alloc(), &cases));
    Ok(())
}

#[test]
fn names_are_recorded(rt: HostRuntime) -> Result<(), Fail> {
    let cases = [
        read(&[FILE], Shows::Names("/", &["f"])),
        read(&[ONE], Shows::Var("x", Some("1"))),
        read(&[], Shows::Var("x", None)),
        read(&[Step::SetFunc("f", 3)], Shows::Func("f", Some(3))),
    ];
    assert!(rt; hold(rt.alloc(), &cases));
    Ok(())
}

#[test]
fn what_the_shell_has_is_recorded(rt: HostRuntime) -> Result<(), Fail> {
    let cases = [
        read(&[Step::SetParams(&["a"])], Shows::Params(&["a"])),
        read(&[Step::SetStatus(3)], Shows::Status(3)),
        read(&[], Shows::Cwd("/")),
        read(&[Step::SetOpts(Opts::ERREXIT)], Shows::Opts(Opts::ERREXIT)),
    ];
    assert!(rt; hold(rt.alloc(), &cases));
    Ok(())
}

#[test]
fn inputs_and_routes_are_recorded(rt: HostRuntime) -> Result<(), Fail> {
    let cases = [
        read(&[Step::SetInput("a")], Shows::Input("a")),
        read(&[Step::SetKept("a")], Shows::Kept(Some("a"))),
        read(&[NULL], Shows::Routes(To::Null)),
        read(&[NULL], Shows::Ends(To::Null)),
    ];
    assert!(rt; hold(rt.alloc(), &cases));
    Ok(())
}

#[test]
fn environments_stand_in_one_another(rt: HostRuntime) -> Result<(), Fail> {
    let cases = [
        made(
            &[ONE, INNER, TWO, INNER, Step::UnsetVar("x")],
            Shows::Var("x", None),
        ),
        made(
            &[ONE, INNER, TWO, INNER, ONE, OUTER],
            Shows::Var("x", Some("2")),
        ),
        made(
            &[ONE, INNER, TWO, INNER, TWO, OUTER, OUTER],
            Shows::Var("x", Some("1")),
        ),
        made(
            &[
                INNER,
                Step::SetStatus(2),
                INNER,
                Step::SetStatus(3),
                OUTER,
                OUTER,
            ],
            Shows::Status(3),
        ),
        made(
            &[
                Step::SetKept("a"),
                INNER,
                Step::SetKept("b"),
                INNER,
                OUTER,
                OUTER,
            ],
            Shows::Kept(Some("a")),
        ),
        both(
            &[ONE],
            &[INNER, TWO, INNER, TWO, OUTER, OUTER],
            Shows::Var("x", Some("1")),
            1,
        ),
    ];
    assert!(rt; hold(rt.alloc(), &cases));
    Ok(())
}

#[test]
fn inputs_stand_on_one_another(rt: HostRuntime) -> Result<(), Fail> {
    let cases = [
        made(
            &[Step::PushInput("a"), Step::PushInput("b")],
            Shows::Input("b"),
        ),
        made(
            &[Step::PushInput("a"), Step::PushInput("b"), Step::PopInput],
            Shows::Input("a"),
        ),
        made(
            &[Step::PushInput("a"), INNER, Step::ExecInput("b"), OUTER],
            Shows::Input("a"),
        ),
        made(
            &[Step::PushInput("a"), Step::Replied("/o")],
            Shows::Input(""),
        ),
        both(
            &[Step::SetInput("c")],
            &[
                Step::PushInput("a"),
                Step::PushInput("b"),
                Step::PopInput,
                Step::PopInput,
            ],
            Shows::Input("c"),
            1,
        ),
    ];
    assert!(rt; hold(rt.alloc(), &cases));
    Ok(())
}

#[test]
fn tables_stand_on_one_another(rt: HostRuntime) -> Result<(), Fail> {
    let cases = [
        made(
            &[NULL, Step::PushRoutes(To::Closed)],
            Shows::Routes(To::Closed),
        ),
        made(
            &[NULL, Step::PushRoutes(To::Closed), Step::PopRoutes],
            Shows::Routes(To::Null),
        ),
        made(&[NULL, Step::PushRoutes(To::Two)], Shows::Ends(To::Closed)),
        made(
            &[CAPTURE, Step::Emit("a"), CAPTURE, Step::Emit("b")],
            Shows::Captured("b"),
        ),
        made(
            &[
                CAPTURE,
                Step::Emit("a"),
                CAPTURE,
                Step::Emit("b"),
                Step::PopRoutes,
            ],
            Shows::Captured("a"),
        ),
        both(
            &[NULL],
            &[CAPTURE, CAPTURE, Step::PopRoutes, Step::PopRoutes],
            Shows::Routes(To::Null),
            1,
        ),
    ];
    assert!(rt; hold(rt.alloc(), &cases));
    Ok(())
}

#[test]
fn effects_stand_on_what_is_read(rt: HostRuntime) -> Result<(), Fail> {
    let cases = [
        both(
            &[FILE, Step::PushRoutes(To::File("/f"))],
            &[Step::Emit("b"), Step::Emit("c")],
            Shows::Bytes("/f", Some("abc")),
            2,
        ),
        both(
            &[CAPTURE, Step::Emit("a")],
            &[Step::Emit("b")],
            Shows::Captured("ab"),
            2,
        ),
        both(
            &[FILE],
            &[Step::Replied("/o")],
            Shows::Names("/", &["o"]),
            0,
        ),
    ];
    assert!(rt; hold(rt.alloc(), &cases));
    Ok(())
}

/// What these effects and then one read come to.
fn takes(
    alloc: Global,
    view: &mut View<Fixed>,
    steps: &[Step<'_>],
    read: &Read,
) -> Result<(), Halt> {
    puts_steps(alloc, view, steps)?;
    match view.get(&read.loc) {
        Ok(_) => Ok(()),
        Err(halt) => Err(halt),
    }
}

fn comes_to(alloc: Global, view: View<Fixed>, steps: &[Step<'_>], read: &Read) -> Result<(), Halt> {
    let mut view = view;
    let came = takes(alloc, &mut view, steps, read);
    let (base, trace) = view.into_trace();
    drop(base);
    drop(trace);
    came
}

/// Whether effects and a read come to this in a view with room for so many bytes.
fn is_taken(alloc: Global, row: &Bound<'_>, room: u64, wanted: Result<(), Halt>) -> bool {
    let Ok(read) = read_of(alloc, row.shows) else {
        return false;
    };
    match view_of(alloc, &[], room) {
        Some(view) => comes_to(alloc, view, row.steps, &read) == wanted,
        None => false,
    }
}

/// Effects and a read, and the bytes of their trace.
#[derive(Drop)]
struct Bound<'a> {
    steps: &'a [Step<'a>],
    shows: Shows<'a>,
    size: u64,
}

fn are_measured(alloc: Global, rows: &[Bound<'_>]) -> bool {
    for row in rows {
        let whole = is_taken(alloc, row, row.size, Ok(()));
        if !whole || !is_taken(alloc, row, row.size.saturating_sub(1), Err(Halt::Trace)) {
            return false;
        }
    }
    true
}

fn sized<'a>(steps: &'a [Step<'a>], shows: Shows<'a>, size: u64) -> Bound<'a> {
    Bound { steps, shows, size }
}

/// A pair or an effect has 64 bytes, each text and path in it 16 and its own.
#[test]
fn a_trace_has_a_last_byte(rt: HostRuntime) -> Result<(), Fail> {
    let rows = [
        sized(&[], Shows::Status(0), 64),
        sized(&[], Shows::Kind("/f", Kind::Absent), 81),
        sized(&[], Shows::Var("x", None), 81),
        sized(&[ONE], Shows::Status(0), 162),
        sized(&[Step::Emit("ab")], Shows::Status(0), 146),
        sized(&[Step::PushRoutes(To::File("/f"))], Shows::Status(0), 145),
        sized(&[INNER, OUTER], Shows::Status(0), 192),
        sized(&[Step::SetParams(&["a", "b"])], Shows::Status(0), 162),
    ];
    assert!(rt; are_measured(rt.alloc(), &rows));
    Ok(())
}
