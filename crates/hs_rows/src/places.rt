//! Each location of the state, read back after each effect that touches it. A row is plain data, so that one more of them
//! is no more to prove.

use hs_world::{
    Effect, Entry, Fd, Found, Kind, Limits, Loc, Opts, PathName, Reply, Route, Routes, Text,
    TextList, Tree, Value, Var, World,
};
use std::alloc::{AllocError, Global};
use std::test::Fail;

/// Where descriptor 1 leads; in a table of it alone the others lead nowhere.
#[derive(Clone, Copy)]
pub enum To<'a> {
    Error,
    File(&'a str),
    Null,
    Closed,
    Capture,
    /// Where descriptor 2 leads in the table below.
    Two,
}

/// An effect.
#[derive(Clone, Copy)]
pub enum Step<'a> {
    SetVar(&'a str, &'a str),
    UnsetVar(&'a str),
    SetFunc(&'a str, u32),
    UnsetFunc(&'a str),
    SetParams(&'a [&'a str]),
    SetStatus(u8),
    SetCwd(&'a str),
    SetOpts(Opts),
    Put(&'a str, &'a str),
    Append(&'a str, &'a str),
    MakeDir(&'a str),
    Remove(&'a str),
    /// To descriptor 1.
    Emit(&'a str),
    PushShell,
    PopShell,
    PushInput(&'a str),
    SetInput(&'a str),
    PopInput,
    PushRoutes(To<'a>),
    PopRoutes,
    SetRoutes(To<'a>),
    SetKept(&'a str),
    ExecInput(&'a str),
    /// A program left this file with `k` in it, and nothing else.
    Replied(&'a str),
}

/// A location, and what it has.
#[derive(Clone, Copy)]
pub enum Shows<'a> {
    Kind(&'a str, Kind),
    Bytes(&'a str, Option<&'a str>),
    Names(&'a str, &'a [&'a str]),
    Var(&'a str, Option<&'a str>),
    Func(&'a str, Option<u32>),
    Params(&'a [&'a str]),
    Status(u8),
    Cwd(&'a str),
    Opts(Opts),
    Input(&'a str),
    /// The innermost table has descriptor 1 alone.
    Routes(To<'a>),
    /// It is that in which a script begins.
    FirstRoutes,
    Ends(To<'a>),
    FirstEnds,
    Captured(&'a str),
    /// Descriptor 3.
    Kept(Option<&'a str>),
}

#[derive(Drop)]
struct Row<'a> {
    steps: &'a [Step<'a>],
    shows: Shows<'a>,
}

#[derive(Drop)]
pub struct Read {
    pub loc: Loc,
    pub value: Value,
}

fn text(alloc: Global, bytes: &str) -> Result<Text, AllocError> {
    Text::from_slice(alloc, bytes.as_bytes())
}

fn maybe_text(alloc: Global, bytes: Option<&str>) -> Result<Option<Text>, AllocError> {
    match bytes {
        Some(bytes) => Ok(Some(text(alloc, bytes)?)),
        None => Ok(None),
    }
}

fn list(alloc: Global, words: &[&str]) -> Result<TextList, AllocError> {
    let mut list = TextList::new(alloc);
    for word in words {
        list.push(text(alloc, word)?)?;
    }
    Ok(list)
}

fn path(alloc: Global, bytes: &str) -> Result<PathName, AllocError> {
    let root = PathName::root(alloc);
    match PathName::resolve(alloc, &root, bytes.as_bytes())? {
        Some(path) => Ok(path),
        None => Ok(root),
    }
}

fn var(alloc: Global, value: &str) -> Result<Var, AllocError> {
    Ok(Var {
        value: Some(text(alloc, value)?),
        exported: false,
        readonly: false,
    })
}

fn maybe_var(alloc: Global, value: Option<&str>) -> Result<Option<Var>, AllocError> {
    match value {
        Some(value) => Ok(Some(var(alloc, value)?)),
        None => Ok(None),
    }
}

fn route(alloc: Global, to: To<'_>) -> Result<Route, AllocError> {
    match to {
        To::Error => Ok(Route::Stream(Fd::Two)),
        To::File(file) => Ok(Route::File(path(alloc, file)?)),
        To::Null => Ok(Route::Null),
        To::Closed => Ok(Route::Closed),
        To::Capture => Ok(Route::Capture),
        To::Two => Ok(Route::Same(2)),
    }
}

fn table(alloc: Global, to: To<'_>) -> Result<Routes, AllocError> {
    let mut routes = vec![in alloc; Route::Closed; 9]?;
    routes[0] = route(alloc, to)?;
    Ok(Routes::from_vec(routes))
}

/// A tree of one entry.
fn left(alloc: Global, path: PathName, entry: Entry) -> Tree {
    let mut tree = Tree::new(alloc);
    match tree.insert(path, entry) {
        Ok(()) => tree,
        Err(_) => Tree::new(alloc),
    }
}

/// What a program replies that took all of standard input.
fn reply(alloc: Global, file: &str) -> Result<Reply, AllocError> {
    let bytes = Entry::File(text(alloc, "k")?);
    Ok(Reply {
        out: Text::new(alloc),
        err: Text::new(alloc),
        status: 3,
        tree: left(alloc, path(alloc, file)?, bytes),
        found: Found::Found,
    })
}

pub fn effect(alloc: Global, step: Step<'_>) -> Result<Effect, AllocError> {
    match step {
        Step::SetVar(name, value) => Ok(Effect::SetVar(text(alloc, name)?, var(alloc, value)?)),
        Step::UnsetVar(name) => Ok(Effect::UnsetVar(text(alloc, name)?)),
        Step::SetFunc(name, body) => Ok(Effect::SetFunc(text(alloc, name)?, body)),
        Step::UnsetFunc(name) => Ok(Effect::UnsetFunc(text(alloc, name)?)),
        Step::SetParams(params) => Ok(Effect::SetParams(list(alloc, params)?)),
        Step::SetStatus(status) => Ok(Effect::SetStatus(status)),
        Step::SetCwd(folder) => Ok(Effect::SetCwd(path(alloc, folder)?)),
        Step::SetOpts(opts) => Ok(Effect::SetOpts(opts)),
        Step::Put(file, bytes) => Ok(Effect::Put(path(alloc, file)?, text(alloc, bytes)?)),
        Step::Append(file, bytes) => Ok(Effect::Append(path(alloc, file)?, text(alloc, bytes)?)),
        Step::MakeDir(folder) => Ok(Effect::MakeDir(path(alloc, folder)?)),
        Step::Remove(file) => Ok(Effect::Remove(path(alloc, file)?)),
        Step::Emit(bytes) => Ok(Effect::Emit(Fd::One, text(alloc, bytes)?)),
        Step::PushShell => Ok(Effect::PushShell),
        Step::PopShell => Ok(Effect::PopShell),
        Step::PushInput(bytes) => Ok(Effect::PushInput(text(alloc, bytes)?)),
        Step::SetInput(bytes) => Ok(Effect::SetInput(text(alloc, bytes)?)),
        Step::PopInput => Ok(Effect::PopInput),
        Step::PushRoutes(to) => Ok(Effect::PushRoutes(table(alloc, to)?)),
        Step::PopRoutes => Ok(Effect::PopRoutes),
        Step::SetRoutes(to) => Ok(Effect::SetRoutes(table(alloc, to)?)),
        Step::SetKept(bytes) => Ok(Effect::SetKept(3, Some(text(alloc, bytes)?))),
        Step::ExecInput(bytes) => Ok(Effect::ExecInput(text(alloc, bytes)?)),
        Step::Replied(file) => Ok(Effect::Replied(reply(alloc, file)?)),
    }
}

fn loc(alloc: Global, shows: Shows<'_>) -> Result<Loc, AllocError> {
    match shows {
        Shows::Kind(file, _) => Ok(Loc::Kind(path(alloc, file)?)),
        Shows::Bytes(file, _) => Ok(Loc::Bytes(path(alloc, file)?)),
        Shows::Names(folder, _) => Ok(Loc::Names(path(alloc, folder)?)),
        Shows::Var(name, _) => Ok(Loc::Var(text(alloc, name)?)),
        Shows::Func(name, _) => Ok(Loc::Func(text(alloc, name)?)),
        Shows::Params(_) => Ok(Loc::Params),
        Shows::Status(_) => Ok(Loc::Status),
        Shows::Cwd(_) => Ok(Loc::Cwd),
        Shows::Opts(_) => Ok(Loc::Opts),
        Shows::Input(_) => Ok(Loc::Input),
        Shows::Routes(_) | Shows::FirstRoutes => Ok(Loc::Routes),
        Shows::Ends(_) | Shows::FirstEnds => Ok(Loc::Ends),
        Shows::Captured(_) => Ok(Loc::Captured),
        Shows::Kept(_) => Ok(Loc::Kept(3)),
    }
}

fn value(alloc: Global, shows: Shows<'_>) -> Result<Value, AllocError> {
    match shows {
        Shows::Kind(_, kind) => Ok(Value::Kind(kind)),
        Shows::Bytes(_, bytes) => Ok(Value::Bytes(maybe_text(alloc, bytes)?)),
        Shows::Names(_, names) => Ok(Value::Names(Some(list(alloc, names)?))),
        Shows::Var(_, value) => Ok(Value::Var(maybe_var(alloc, value)?)),
        Shows::Func(_, body) => Ok(Value::Func(body)),
        Shows::Params(params) => Ok(Value::Params(Text::new(alloc), list(alloc, params)?)),
        Shows::Status(status) => Ok(Value::Status(status)),
        Shows::Cwd(folder) => Ok(Value::Cwd(path(alloc, folder)?)),
        Shows::Opts(opts) => Ok(Value::Opts(opts)),
        Shows::Input(bytes) => Ok(Value::Input(text(alloc, bytes)?)),
        Shows::Routes(to) => Ok(Value::Routes(table(alloc, to)?)),
        Shows::FirstRoutes => Ok(Value::Routes(Routes::first(alloc)?)),
        Shows::Ends(to) => Ok(Value::Ends(table(alloc, to)?)),
        Shows::FirstEnds => Ok(Value::Ends(Routes::first(alloc)?)),
        Shows::Captured(bytes) => Ok(Value::Captured(text(alloc, bytes)?)),
        Shows::Kept(bytes) => Ok(Value::Kept(maybe_text(alloc, bytes)?)),
    }
}

pub fn read_of(alloc: Global, shows: Shows<'_>) -> Result<Read, AllocError> {
    let loc = loc(alloc, shows)?;
    let value = value(alloc, shows)?;
    Ok(Read { loc, value })
}

/// The state in which a script begins, over an empty tree.
pub fn begin(alloc: Global) -> Option<World> {
    let limits = Limits {
        bytes: 1024,
        turns: 1,
    };
    let (zero, params, input) = (Text::new(alloc), TextList::new(alloc), Text::new(alloc));
    World::new(
        alloc,
        Tree::new(alloc),
        Vec::new(alloc),
        zero,
        params,
        input,
        limits,
    )
    .ok()
}

/// Does an effect, and says whether it may come, fits and was done.
fn does(world: &mut World, effect: &Effect) -> bool {
    world.valid(effect) && world.fits(effect).is_none() && world.apply(effect).is_ok()
}

fn does_step(alloc: Global, world: &mut World, step: Step<'_>) -> bool {
    match effect(alloc, step) {
        Ok(effect) => does(world, &effect),
        Err(_) => false,
    }
}

pub fn does_steps(alloc: Global, world: &mut World, steps: &[Step<'_>]) -> bool {
    for step in steps {
        if !does_step(alloc, world, *step) {
            return false;
        }
    }
    true
}

/// Whether a location has a value, and is read as what it has.
fn has(world: &World, read: &Read) -> bool {
    match world.at(&read.loc) {
        Ok(seen) => world.holds(&read.loc, &seen) && world.holds(&read.loc, &read.value),
        Err(_) => false,
    }
}

fn is_shown(alloc: Global, world: &World, shows: Shows<'_>) -> bool {
    match read_of(alloc, shows) {
        Ok(read) => has(world, &read),
        Err(_) => false,
    }
}

fn holds_from(alloc: Global, world: &mut World, row: &Row<'_>) -> bool {
    does_steps(alloc, world, row.steps) && is_shown(alloc, world, row.shows)
}

fn holds(alloc: Global, row: &Row<'_>) -> bool {
    match begin(alloc) {
        Some(mut world) => holds_from(alloc, &mut world, row),
        None => false,
    }
}

fn hold(alloc: Global, rows: &[Row<'_>]) -> bool {
    for row in rows {
        if !holds(alloc, row) {
            return false;
        }
    }
    true
}

fn after<'a>(steps: &'a [Step<'a>], shows: Shows<'a>) -> Row<'a> {
    Row { steps, shows }
}

const INNER: Step<'static> = Step::PushShell;

const OUTER: Step<'static> = Step::PopShell;

const SET: Step<'static> = Step::SetVar("x", "1");

const FILE: Step<'static> = Step::Put("/f", "a");

const FOLDER: Step<'static> = Step::MakeDir("/d");

const FIRST: Step<'static> = Step::SetInput("a");

const NULL: Step<'static> = Step::PushRoutes(To::Null);

const CLOSED: Step<'static> = Step::SetRoutes(To::Closed);

const TWO: Step<'static> = Step::PushRoutes(To::Two);

const CAPTURE: Step<'static> = Step::PushRoutes(To::Capture);

const TAKEN: Step<'static> = Step::Emit("a");

#[test]
fn names_are_read_back(rt: HostRuntime) -> Result<(), Fail> {
    let rows = [
        after(&[SET, Step::SetVar("x", "2")], Shows::Var("x", Some("2"))),
        after(&[SET, Step::UnsetVar("x")], Shows::Var("x", None)),
        after(
            &[Step::PushShell, SET, Step::PopShell],
            Shows::Var("x", None),
        ),
        after(&[Step::SetFunc("f", 3)], Shows::Func("f", Some(3))),
        after(
            &[Step::SetFunc("f", 3), Step::UnsetFunc("f")],
            Shows::Func("f", None),
        ),
        after(
            &[Step::PushShell, Step::SetFunc("f", 3), Step::PopShell],
            Shows::Func("f", None),
        ),
        after(&[Step::SetParams(&["a", "b"])], Shows::Params(&["a", "b"])),
        after(
            &[Step::PushShell, Step::SetParams(&["a"]), Step::PopShell],
            Shows::Params(&[]),
        ),
    ];
    assert!(rt; hold(rt.alloc(), &rows));
    Ok(())
}

#[test]
fn what_a_shell_keeps_is_read_back(rt: HostRuntime) -> Result<(), Fail> {
    let rows = [
        after(&[Step::SetStatus(3)], Shows::Status(3)),
        after(&[INNER, Step::SetStatus(3), OUTER], Shows::Status(3)),
        after(&[FOLDER, Step::SetCwd("/d")], Shows::Cwd("/d")),
        after(&[FOLDER, INNER, Step::SetCwd("/d"), OUTER], Shows::Cwd("/")),
        after(&[Step::SetOpts(Opts::ERREXIT)], Shows::Opts(Opts::ERREXIT)),
        after(
            &[INNER, Step::SetOpts(Opts::ERREXIT), OUTER],
            Shows::Opts(Opts::none()),
        ),
        after(&[Step::SetKept("a")], Shows::Kept(Some("a"))),
        after(&[INNER, Step::SetKept("a"), OUTER], Shows::Kept(None)),
    ];
    assert!(rt; hold(rt.alloc(), &rows));
    Ok(())
}

#[test]
fn kinds_are_read_back(rt: HostRuntime) -> Result<(), Fail> {
    let rows = [
        after(&[FILE], Shows::Kind("/f", Kind::File)),
        after(&[FOLDER], Shows::Kind("/d", Kind::Dir)),
        after(&[FILE, Step::Remove("/f")], Shows::Kind("/f", Kind::Absent)),
        after(
            &[FOLDER, Step::Remove("/d")],
            Shows::Kind("/d", Kind::Absent),
        ),
        after(
            &[FILE, Step::Replied("/o")],
            Shows::Kind("/f", Kind::Absent),
        ),
        after(&[Step::Replied("/o")], Shows::Kind("/o", Kind::File)),
    ];
    assert!(rt; hold(rt.alloc(), &rows));
    Ok(())
}

#[test]
fn files_are_read_back(rt: HostRuntime) -> Result<(), Fail> {
    let rows = [
        after(&[FILE], Shows::Bytes("/f", Some("a"))),
        after(&[FILE, Step::Put("/f", "b")], Shows::Bytes("/f", Some("b"))),
        after(
            &[FILE, Step::Append("/f", "b")],
            Shows::Bytes("/f", Some("ab")),
        ),
        after(&[FILE, Step::Remove("/f")], Shows::Bytes("/f", None)),
        after(
            &[FILE, Step::PushRoutes(To::File("/f")), Step::Emit("b")],
            Shows::Bytes("/f", Some("ab")),
        ),
        after(&[Step::Replied("/o")], Shows::Bytes("/o", Some("k"))),
        after(&[FILE, Step::Replied("/o")], Shows::Bytes("/f", None)),
    ];
    assert!(rt; hold(rt.alloc(), &rows));
    Ok(())
}

#[test]
fn names_of_a_folder_are_read_back(rt: HostRuntime) -> Result<(), Fail> {
    let rows = [
        after(
            &[Step::Put("/b", ""), Step::Put("/a", "")],
            Shows::Names("/", &["a", "b"]),
        ),
        after(&[FOLDER, Step::Put("/d/f", "")], Shows::Names("/d", &["f"])),
        after(&[FOLDER], Shows::Names("/", &["d"])),
        after(
            &[FILE, FOLDER, Step::Remove("/f")],
            Shows::Names("/", &["d"]),
        ),
        after(&[FILE, Step::Replied("/o")], Shows::Names("/", &["o"])),
    ];
    assert!(rt; hold(rt.alloc(), &rows));
    Ok(())
}

#[test]
fn standard_input_is_read_back(rt: HostRuntime) -> Result<(), Fail> {
    let rows = [
        after(&[FIRST, Step::PushInput("b")], Shows::Input("b")),
        after(
            &[Step::PushInput("ab"), Step::SetInput("b")],
            Shows::Input("b"),
        ),
        after(
            &[FIRST, Step::PushInput("b"), Step::PopInput],
            Shows::Input("a"),
        ),
        after(&[FIRST, Step::ExecInput("b")], Shows::Input("b")),
        after(
            &[FIRST, INNER, Step::ExecInput("b"), OUTER],
            Shows::Input("a"),
        ),
        after(
            &[FIRST, INNER, Step::SetInput("b"), OUTER],
            Shows::Input("b"),
        ),
        after(
            &[FIRST, INNER, Step::PushInput("b"), OUTER],
            Shows::Input("a"),
        ),
        after(&[FIRST, Step::Replied("/o")], Shows::Input("")),
    ];
    assert!(rt; hold(rt.alloc(), &rows));
    Ok(())
}

#[test]
fn routes_are_read_back(rt: HostRuntime) -> Result<(), Fail> {
    let rows = [
        after(&[NULL], Shows::Routes(To::Null)),
        after(&[Step::PushRoutes(To::Two)], Shows::Routes(To::Two)),
        after(&[NULL, CLOSED], Shows::Routes(To::Closed)),
        after(&[NULL, Step::PopRoutes], Shows::FirstRoutes),
        after(&[INNER, CLOSED, OUTER], Shows::FirstRoutes),
        after(&[NULL, INNER, CLOSED, OUTER], Shows::Routes(To::Null)),
    ];
    assert!(rt; hold(rt.alloc(), &rows));
    Ok(())
}

#[test]
fn ends_are_followed(rt: HostRuntime) -> Result<(), Fail> {
    let rows = [
        after(&[TWO], Shows::Ends(To::Error)),
        after(&[TWO, TWO], Shows::Ends(To::Closed)),
        after(&[NULL, Step::PopRoutes], Shows::FirstEnds),
        after(&[NULL, CLOSED], Shows::Ends(To::Closed)),
        after(&[INNER, CLOSED, OUTER], Shows::FirstEnds),
        after(&[NULL, INNER, CLOSED, OUTER], Shows::Ends(To::Null)),
    ];
    assert!(rt; hold(rt.alloc(), &rows));
    Ok(())
}

#[test]
fn captures_are_read_back(rt: HostRuntime) -> Result<(), Fail> {
    let rows = [
        after(&[CAPTURE], Shows::Captured("")),
        after(&[CAPTURE, TAKEN, Step::Emit("b")], Shows::Captured("ab")),
        after(&[CAPTURE, TAKEN, CAPTURE], Shows::Captured("")),
        after(
            &[CAPTURE, TAKEN, CAPTURE, Step::PopRoutes],
            Shows::Captured("a"),
        ),
        after(&[CAPTURE, TAKEN, Step::PopRoutes], Shows::Captured("")),
        after(
            &[CAPTURE, TAKEN, Step::PushRoutes(To::Null)],
            Shows::Captured("a"),
        ),
    ];
    assert!(rt; hold(rt.alloc(), &rows));
    Ok(())
}
