//! Work on the state of the shell.

use anyhow::{Context, bail};
use hs_text::{Text, TextList};
use hs_world::{Effect, Entry, Limits, Loc, PathName, Tree, Value, Var, World};
use std::alloc::{AllocError, Global};

/// The most that a value may have.
const LIMITS: Limits = Limits {
    bytes: 268_435_456,
    turns: 1,
};

/// What is done to a state: some effects once, and others so many times.
#[derive(Drop)]
struct Work {
    first: Vec<Effect>,
    again: Vec<Effect>,
    count: u32,
}

fn path(alloc: Global, text: &str) -> anyhow::Result<PathName> {
    let root = PathName::root(alloc);
    PathName::resolve(alloc, &root, text.as_bytes())?.context("no path")
}

fn apply_all(world: &mut World, effects: &[Effect]) -> bool {
    for effect in effects {
        if !world.valid(effect) || world.apply(effect).is_err() {
            return false;
        }
    }
    true
}

/// How many effects came.
fn apply_work(world: &mut World, work: &Work) -> u64 {
    if apply_all(world, &work.first) {
        for _ in 0..work.count {
            if !apply_all(world, &work.again) {
                break;
            }
        }
    }
    world.count()
}

/// The state in which a script begins, over an empty tree.
fn begin(alloc: Global, vars: Vec<(Text, Var)>) -> Option<World> {
    let (zero, params, input) = (Text::new(alloc), TextList::new(alloc), Text::new(alloc));
    World::new(alloc, Tree::new(alloc), vars, zero, params, input, LIMITS).ok()
}

fn work_on(alloc: Global, vars: Vec<(Text, Var)>, work: &Work) -> u64 {
    match begin(alloc, vars) {
        Some(mut world) => apply_work(&mut world, work),
        None => 0,
    }
}

/// The entry that comes at one place: a folder, or one of the 511 files in it.
fn entry(alloc: Global, place: u32) -> anyhow::Result<(PathName, Entry)> {
    let (folder, file) = (place / 512, place % 512);
    if file == 0 {
        let name = format!(in alloc; "/d{folder}")?;
        return Ok((path(alloc, name.as_str())?, Entry::Dir));
    }
    let name = format!(in alloc; "/d{folder}/f{file}")?;
    let path = path(alloc, name.as_str())?;
    Ok((path, Entry::File(Text::new(alloc))))
}

fn fill(alloc: Global, tree: &mut Tree, count: u32) -> anyhow::Result<()> {
    for place in 0..count {
        let (path, entry) = entry(alloc, place)?;
        if tree.insert(path, entry).is_err() {
            bail!("the tree takes no more");
        }
    }
    Ok(())
}

/// Puts entries into a tree: folders, each with 511 files.
pub fn tree(alloc: Global, count: u32) -> anyhow::Result<u64> {
    let mut tree = Tree::new(alloc);
    let filled = fill(alloc, &mut tree, count);
    let entries = tree.len() as u64;
    filled.map(|()| entries)
}

/// A file with these bytes.
fn file(alloc: Global, bytes: Vec<u8>) -> anyhow::Result<Effect> {
    Ok(Effect::Put(path(alloc, "/f")?, Text::from_vec(alloc, bytes)?))
}

/// A list of one effect.
fn single(alloc: Global, effect: Effect) -> Result<Vec<Effect>, AllocError> {
    let mut effects = Vec::new(alloc);
    effects.push(effect)?;
    Ok(effects)
}

fn append_piece(alloc: Global) -> anyhow::Result<Effect> {
    let piece = Text::from_slice(alloc, b"0123456789")?;
    Ok(Effect::Append(path(alloc, "/f")?, piece))
}

fn appends(alloc: Global, count: u32) -> anyhow::Result<Work> {
    let first = single(alloc, file(alloc, Vec::new(alloc))?)?;
    let again = single(alloc, append_piece(alloc)?)?;
    Ok(Work {
        first,
        again,
        count,
    })
}

/// Puts bytes at the end of a file.
pub fn append(alloc: Global, count: u32) -> anyhow::Result<u64> {
    let work = appends(alloc, count)?;
    Ok(work_on(alloc, Vec::new(alloc), &work))
}

fn variable(alloc: Global, place: u32) -> Result<(Text, Var), AllocError> {
    let name = format!(in alloc; "name{place}")?;
    let value = Text::from_slice(alloc, b"a value of some length")?;
    let var = Var {
        value: Some(value),
        exported: false,
        readonly: false,
    };
    Ok((Text::from_slice(alloc, name.as_bytes())?, var))
}

fn variables(alloc: Global) -> Result<Vec<(Text, Var)>, AllocError> {
    let mut vars = Vec::new(alloc);
    for place in 0..50 {
        vars.push(variable(alloc, place)?)?;
    }
    Ok(vars)
}

fn push_and_pop(alloc: Global, count: u32) -> Result<Work, AllocError> {
    let mut again = single(alloc, Effect::PushShell)?;
    again.push(Effect::PopShell)?;
    Ok(Work {
        first: Vec::new(alloc),
        again,
        count,
    })
}

/// Begins and ends subshell environments.
pub fn shells(alloc: Global, count: u32) -> anyhow::Result<u64> {
    let work = push_and_pop(alloc, count)?;
    Ok(work_on(alloc, variables(alloc)?, &work))
}

fn compare_with(world: &World, loc: &Loc, value: &Value, count: u32) -> u64 {
    let mut same: u64 = 0;
    for _ in 0..count {
        if world.holds(loc, value) {
            same = same.saturating_add(1);
        }
    }
    same
}

/// How often a state that an effect was done to holds a value.
fn compared(alloc: Global, put: &Effect, loc: &Loc, value: &Value, count: u32) -> u64 {
    match begin(alloc, Vec::new(alloc)) {
        Some(mut world) => {
            if world.valid(put) && world.apply(put).is_ok() {
                compare_with(&world, loc, value, count)
            } else {
                0
            }
        }
        None => 0,
    }
}

/// A file of 1 MiB.
fn large_file(alloc: Global) -> anyhow::Result<Effect> {
    file(alloc, vec![in alloc; b'a'; 1_048_576]?)
}

fn bytes_of_file(alloc: Global) -> anyhow::Result<Loc> {
    Ok(Loc::Bytes(path(alloc, "/f")?))
}

fn many_bytes(alloc: Global, count: usize) -> Result<Value, AllocError> {
    let text = Text::from_vec(alloc, vec![in alloc; b'a'; count]?)?;
    Ok(Value::Bytes(Some(text)))
}

fn compare_put(alloc: Global, put: &Effect, count: u32, bytes: usize) -> anyhow::Result<u64> {
    let loc = bytes_of_file(alloc)?;
    match many_bytes(alloc, bytes) {
        Ok(value) => Ok(compared(alloc, put, &loc, &value, count)),
        Err(error) => Err(error.into()),
    }
}

/// Compares a file of 1 MiB with a text of so many bytes.
pub fn compare(alloc: Global, count: u32, bytes: usize) -> anyhow::Result<u64> {
    let put = large_file(alloc)?;
    compare_put(alloc, &put, count, bytes)
}
