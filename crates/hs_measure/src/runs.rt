//! Runs of scripts over files in memory.

ghost use Rattle.std.specs.Arc.{arc_value};
ghost use Rattle.std.specs.Prelude.{◌≡◌, true};
ghost use Rattle.sh_leaf.specs.Built.{is_built};

use anyhow::{Context, bail};
use hs_drive::{Ending, plain};
use hs_outside::{Failed, MemoryHost, Sink};
use hs_text::{Text, TextList};
use hs_world::{Entry, Limits, PathName, Tree, World};
use sh_leaf::built;
use sh_script::parse;
use sh_syntax::Script;
use std::alloc::{AllocError, Global};
use std::sync::Arc;

const LIMITS: Limits = Limits {
    bytes: 268_435_456,
    turns: 1_000_000,
};

/// Counts the bytes that it takes, and keeps none. It never fails.
#[derive(Drop)]
struct Counter {
    taken: u64,
}

impl Sink for Counter {
    ghost use Rattle.std.specs.Prelude.{None};

    ghost written = { λ s. None };

    ghost faults = { λ s. 0 };

    fn write(&mut self, piece: &[u8]) -> Result<u32, Failed> {
        let count = piece.len().min(0xffff_ffff);
        self.taken = self.taken.saturating_add(count as u64);
        Ok(count as u32)
    }

    fn take(&mut self, _alloc: Global) -> Counter {
        Counter { taken: self.taken }
    }

    fn put(&mut self, sink: Counter) {
        *self = sink;
    }
}

/// Puts the files `f0`, `f1` and so on into a tree, all with this text, and says whether that went well.
fn fill(alloc: Global, tree: &mut Tree, count: u32, text: &Text) -> bool {
    for place in 0..count {
        if !put(alloc, tree, place, text) {
            return false;
        }
    }
    true
}

/// The path of one file, and its entry.
fn file(alloc: Global, place: u32, text: &Text) -> Result<Option<(PathName, Entry)>, AllocError> {
    let name = format!(in alloc; "f{place}")?;
    let root = PathName::root(alloc);
    match PathName::resolve(alloc, &root, name.as_bytes())? {
        Some(path) => Ok(Some((path, Entry::File(text.clone()?)))),
        None => Ok(None),
    }
}

fn put(alloc: Global, tree: &mut Tree, place: u32, text: &Text) -> bool {
    match file(alloc, place, text) {
        Ok(Some((path, entry))) => tree.insert(path, entry).is_ok(),
        _ => false,
    }
}

/// A line of 64 bytes, with spaces, tabs and commas.
const LINE: &[u8] = b"one two\tthree four,five six seven\teight nine,ten eleven twelve.\n";

/// A text of so many bytes: a front of one line, again and again.
fn lines(alloc: Global, size: u32) -> Result<Text, AllocError> {
    let mut bytes = Vec::new(alloc);
    for _ in 0..size / 64 {
        bytes.extend_from_slice(LINE)?;
    }
    let rest = (size % 64) as usize;
    bytes.extend_from_slice(&LINE[..rest.min(LINE.len())])?;
    Text::from_vec(alloc, bytes)
}

/// The bytes that a script which is built writes over this state.
fn written_over(alloc: Global, script: Arc<Script>, world: World, host: MemoryHost) -> Option<u64>
    requires { is_built (arc_value script) ≡ true }
{
    let mut host = host;
    let (mut out, mut err) = (Counter { taken: 0 }, Counter { taken: 0 });
    let (ending, _) = plain(alloc, script, world, LIMITS, &mut host, &mut out, &mut err);
    drop(host);
    match ending {
        Ending::Done(_) => Some(out.taken),
        _ => None,
    }
}

fn written(alloc: Global, script: Arc<Script>, world: World) -> Option<u64>
    requires { is_built (arc_value script) ≡ true }
{
    match MemoryHost::new(Tree::new(alloc), Vec::new(alloc)) {
        Ok(host) => written_over(alloc, script, world, host),
        Err(_) => {
            drop(script);
            drop(world);
            None
        }
    }
}

fn begin(alloc: Global, tree: Tree, input: Text) -> Option<World> {
    let (zero, params) = (Text::new(alloc), TextList::new(alloc));
    World::new(alloc, tree, Vec::new(alloc), zero, params, input, LIMITS).ok()
}

fn run_over(alloc: Global, script: Arc<Script>, tree: Tree, input: Text) -> Option<u64>
    requires { is_built (arc_value script) ≡ true }
{
    match begin(alloc, tree, input) {
        Some(world) => written(alloc, script, world),
        None => {
            drop(script);
            None
        }
    }
}

fn run_files(
    alloc: Global,
    script: Arc<Script>,
    count: u32,
    text: &Text,
    input: Text,
) -> Option<u64>
    requires { is_built (arc_value script) ≡ true }
{
    let mut tree = Tree::new(alloc);
    if fill(alloc, &mut tree, count, text) {
        return run_over(alloc, script, tree, input);
    }
    drop(script);
    drop(tree);
    None
}

fn run_script(
    alloc: Global,
    script: Script,
    count: u32,
    text: &Text,
    input: Text,
) -> anyhow::Result<u64> {
    if !built(&script) {
        drop(script);
        bail!("the script is not built");
    }
    match Arc::new(alloc, script) {
        Ok(script) => run_files(alloc, script, count, text, input).context("the run did not end"),
        Err(error) => Err(error.into()),
    }
}

/// Runs a script over so many files of so many bytes, and answers how many bytes it wrote on standard output.
pub fn run(alloc: Global, count: u32, size: u32, text: &[u8]) -> anyhow::Result<u64> {
    let content = lines(alloc, size)?;
    match parse(alloc, text) {
        Ok(script) => run_script(alloc, script, count, &content, Text::new(alloc)),
        Err(_) => bail!("the text spells no script"),
    }
}

/// Runs a script over the file `f0` with these bytes, which are standard input too, and answers how many bytes it wrote on standard
/// output.
pub fn over(alloc: Global, bytes: &[u8], text: &[u8]) -> anyhow::Result<u64> {
    let content = Text::from_slice(alloc, bytes)?;
    let input = content.clone()?;
    match parse(alloc, text) {
        Ok(script) => run_script(alloc, script, 1, &content, input),
        Err(_) => bail!("the text spells no script"),
    }
}
