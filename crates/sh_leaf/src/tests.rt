//! Leaves over states that are known. A row is plain data, so that one more of them is no more to prove.

mod head;

use crate::measuring::measure;
use crate::{Fuel, Outcome, Record, do_leaf};
use hs_text::{Text, TextList};
use hs_view::{Fixed, Halt, Kept, SpentKind, Trace, View};
use hs_world::{Effect, Entry, Fd, Kind, Limits, Loc, PathName, Tree, Value, Var, World};
use sh_syntax::{Command, ParamOp, Part, Pipeline, Script, Word};
use sqlite_items::Items;
use std::alloc::{AllocError, Global};
use std::sync::Arc;
use std::test::Fail;

/// What a command does.
#[derive(Clone, Copy)]
enum Step<'a> {
    Out(&'a str),
    Err(&'a str),
    /// Nothing of standard input is left.
    Taken,
    /// A file has these bytes.
    Made(&'a str),
    /// The variable `x` has this value, and is exported or not.
    Set(&'a str, bool),
    /// The variable `x` is gone.
    Unset,
    Status(u8),
}

/// A command, whether there is a file `f`, and what the command does.
#[derive(Drop)]
struct Row<'a> {
    words: &'a [&'a str],
    file: Option<&'a str>,
    steps: &'a [Step<'a>],
    outcome: Outcome,
}

/// A command, what it may use up, and how it halts: with so many reads and effects.
#[derive(Drop)]
struct Stop<'a> {
    words: &'a [&'a str],
    turns: u32,
    trace: u64,
    halt: Halt,
    reads: usize,
    effects: usize,
}

/// A text as a part: `$NAME` as a parameter, all else as plain bytes.
fn part(alloc: Global, text: &str) -> Result<Part, AllocError> {
    match text.as_bytes() {
        [b'$', name @ ..] => Ok(Part::Param {
            name: Text::from_slice(alloc, name)?,
            op: ParamOp::Value,
            colon: false,
            word: None,
        }),
        bytes => Ok(Part::Plain(Text::from_slice(alloc, bytes)?)),
    }
}

fn word(alloc: Global, text: &str) -> Result<Word, AllocError> {
    let mut parts = Items::new(alloc);
    parts.push(part(alloc, text)?)?;
    Ok(Word { parts })
}

/// The words of a command, and the value that `x` gets before it, if any, which is a first text `x=`.
fn split<'a>(texts: &'a [&'a str]) -> (Option<&'a str>, &'a [&'a str]) {
    match texts {
        ["x=", value, rest @ ..] => (Some(*value), rest),
        _ => (None, texts),
    }
}

fn assigns_of(alloc: Global, value: Option<&str>) -> Result<Items<(Text, Word)>, AllocError> {
    let mut assigns = Items::new(alloc);
    if let Some(text) = value {
        assigns.push((Text::from_slice(alloc, b"x")?, word(alloc, text)?))?;
    }
    Ok(assigns)
}

fn pipeline(alloc: Global, texts: &[&str]) -> Result<Pipeline, AllocError> {
    let (value, texts) = split(texts);
    let mut words = Items::new(alloc);
    for text in texts {
        words.push(word(alloc, text)?)?;
    }
    let mut stages = Items::new(alloc);
    stages.push(Command::Simple {
        assigns: assigns_of(alloc, value)?,
        words,
        redirs: Items::new(alloc),
    })?;
    Ok(Pipeline {
        bang: false,
        stages,
    })
}

/// A script of one leaf.
fn script(alloc: Global, texts: &[&str]) -> Result<Arc<Script>, AllocError> {
    let mut leaves = Items::new(alloc);
    leaves.push(pipeline(alloc, texts)?)?;
    let script = Script {
        lists: Items::new(alloc),
        bodies: Items::new(alloc),
        leaves,
    };
    Ok(Arc::new(alloc, script)?)
}

fn file_of(alloc: Global, bytes: &str) -> Result<(PathName, Entry), AllocError> {
    let root = PathName::root(alloc);
    let text = Text::from_slice(alloc, bytes.as_bytes())?;
    match PathName::resolve(alloc, &root, b"f")? {
        Some(path) => Ok((path, Entry::File(text))),
        None => Err(AllocError),
    }
}

fn tree(alloc: Global, file: Option<&str>) -> Result<Tree, AllocError> {
    let mut tree = Tree::new(alloc);
    if let Some(bytes) = file {
        let (path, entry) = file_of(alloc, bytes)?;
        if tree.insert(path, entry).is_err() {
            return Err(AllocError);
        }
    }
    Ok(tree)
}

/// The state in which a script begins, with `in` on standard input.
fn world(alloc: Global, file: Option<&str>) -> Result<World, AllocError> {
    let limits = Limits {
        bytes: 1024,
        turns: 1,
    };
    let tree = tree(alloc, file)?;
    let input = Text::from_slice(alloc, b"in")?;
    let (zero, params) = (Text::new(alloc), TextList::new(alloc));
    match World::new(alloc, tree, Vec::new(alloc), zero, params, input, limits) {
        Ok(world) => Ok(world),
        Err(_) => Err(AllocError),
    }
}

const FUEL: Fuel = Fuel {
    turns: 1,
    frames: 2000,
    nested: 64,
    trace: 4096,
};

fn is_written(effect: &Effect, to: Fd, bytes: &str) -> bool {
    match effect {
        Effect::Emit(fd, text) => *fd == to && text.as_slice() == bytes.as_bytes(),
        _ => false,
    }
}

fn has_text(var: &Var, bytes: &str) -> bool {
    matches!(&var.value, Some(text) if text.as_slice() == bytes.as_bytes())
}

fn is_set(effect: &Effect, bytes: &str, exported: bool) -> bool {
    match effect {
        Effect::SetVar(name, var) => {
            name.as_slice() == b"x".as_slice()
                && has_text(var, bytes)
                && var.exported == exported
                && !var.readonly
        }
        _ => false,
    }
}

fn is_step(effect: &Effect, step: Step<'_>) -> bool {
    match step {
        Step::Out(bytes) => is_written(effect, Fd::One, bytes),
        Step::Err(bytes) => is_written(effect, Fd::Two, bytes),
        Step::Taken => matches!(effect, Effect::SetInput(text) if text.is_empty()),
        Step::Made(bytes) => {
            matches!(effect, Effect::Put(_, text) if text.as_slice() == bytes.as_bytes())
        }
        Step::Status(status) => matches!(effect, Effect::SetStatus(set) if *set == status),
        Step::Set(bytes, exported) => is_set(effect, bytes, exported),
        Step::Unset =>
            matches!(effect, Effect::UnsetVar(name) if name.as_slice() == b"x".as_slice()),
    }
}

fn are_steps(effects: &[Effect], steps: &[Step<'_>]) -> bool {
    for (effect, step) in effects.iter().zip(steps) {
        if !is_step(effect, *step) {
            return false;
        }
    }
    effects.len() == steps.len()
}

fn is_done(record: &Record, row: &Row<'_>) -> bool {
    record.outcome() == row.outcome
        && record.number() == 0
        && record.turns() == 1
        && are_steps(record.effects().as_slice(), row.steps)
}

/// Whether the record of a leaf is the row's.
fn is_row(ran: Result<(Fixed, Record), (Fixed, Halt, Trace)>, row: &Row<'_>) -> bool {
    match ran {
        Ok((base, record)) => {
            let done = is_done(&record, row);
            record.drop_it();
            drop(base);
            done
        }
        Err((base, _, trace)) => {
            drop(base);
            drop(trace);
            false
        }
    }
}

fn does_in(alloc: Global, script: &Arc<Script>, row: &Row<'_>) -> bool {
    match world(alloc, row.file) {
        Ok(world) => is_row(do_leaf(alloc, script, 0, FUEL, Fixed::new(world)), row),
        Err(_) => false,
    }
}

fn does(alloc: Global, row: &Row<'_>) -> bool {
    match script(alloc, row.words) {
        Ok(script) => does_in(alloc, &script, row),
        Err(_) => false,
    }
}

fn do_all(alloc: Global, rows: &[Row<'_>]) -> bool {
    for row in rows {
        if !does(alloc, row) {
            return false;
        }
    }
    true
}

fn doing<'a>(
    words: &'a [&'a str],
    file: Option<&'a str>,
    steps: &'a [Step<'a>],
    status: u8,
) -> Row<'a> {
    Row {
        words,
        file,
        steps,
        outcome: Outcome::Status(status),
    }
}

#[test]
fn leaves_do_what_their_words_say(rt: HostRuntime) -> Result<(), Fail> {
    let rows = [
        doing(
            &["echo", "a", "b"],
            None,
            &[Step::Out("a b\n"), Step::Status(0)],
            0,
        ),
        doing(
            &["cat", "f"],
            None,
            &[Step::Err("hs: cat: f: no such file\n"), Step::Status(1)],
            1,
        ),
        doing(
            &["cat", "f"],
            Some("x"),
            &[Step::Out("x"), Step::Status(0)],
            0,
        ),
        doing(
            &["cat", "-", "f"],
            Some("x"),
            &[
                Step::Taken,
                Step::Out("in"),
                Step::Out("x"),
                Step::Status(0),
            ],
            0,
        ),
        doing(
            &["cat", "/", "f"],
            Some("x"),
            &[
                Step::Err("hs: cat: /: is a folder\n"),
                Step::Out("x"),
                Step::Status(1),
            ],
            1,
        ),
        doing(
            &["cat", "-n", "f"],
            Some("x"),
            &[Step::Err("hs: cat: unknown option -n\n"), Step::Status(2)],
            2,
        ),
        doing(&[], None, &[Step::Status(0)], 0),
        doing(&["ls"], None, &[Step::Status(127)], 127),
    ];
    assert!(rt; do_all(rt.alloc(), &rows));
    Ok(())
}

#[test]
fn each_utility_has_its_name(rt: HostRuntime) -> Result<(), Fail> {
    let file = Some("ab c\nd\n");
    let rows = [
        doing(
            &["head", "-n", "1", "f"],
            file,
            &[Step::Out("ab c\n"), Step::Status(0)],
            0,
        ),
        doing(
            &["tail", "-n", "1", "f"],
            file,
            &[Step::Out("d\n"), Step::Status(0)],
            0,
        ),
        doing(
            &["wc", "f"],
            file,
            &[Step::Out("2 3 7 f\n"), Step::Status(0)],
            0,
        ),
        doing(
            &["cut", "-b", "1", "f"],
            file,
            &[Step::Out("a\nd\n"), Step::Status(0)],
            0,
        ),
        doing(
            &["fold", "-w", "2", "f"],
            file,
            &[Step::Out("ab\n c\nd\n"), Step::Status(0)],
            0,
        ),
        doing(
            &["paste", "-s", "f"],
            file,
            &[Step::Out("ab c\td\n"), Step::Status(0)],
            0,
        ),
        doing(
            &["tee", "t"],
            None,
            &[
                Step::Taken,
                Step::Out("in"),
                Step::Made("in"),
                Step::Status(0),
            ],
            0,
        ),
    ];
    assert!(rt; do_all(rt.alloc(), &rows));
    Ok(())
}

#[test]
fn assignments_stay_or_are_lent(rt: HostRuntime) -> Result<(), Fail> {
    let rows = [
        doing(
            &["x=", "1"],
            None,
            &[Step::Set("1", false), Step::Status(0)],
            0,
        ),
        doing(
            &["x=", "$?", "echo", "a"],
            None,
            &[
                Step::Set("0", true),
                Step::Out("a\n"),
                Step::Unset,
                Step::Status(0),
            ],
            0,
        ),
        doing(
            &["echo", "$?", "$#", "$x"],
            None,
            &[Step::Out("0 0\n"), Step::Status(0)],
            0,
        ),
        doing(&["$x"], None, &[Step::Status(0)], 0),
    ];
    assert!(rt; do_all(rt.alloc(), &rows));
    Ok(())
}

/// So many texts of 63 bytes.
fn texts(alloc: Global, count: usize) -> Result<TextList, AllocError> {
    let mut texts = TextList::new(alloc);
    for _ in 0..count {
        texts.push(Text::from_slice(alloc, &[b'a'; 63])?)?;
    }
    Ok(texts)
}

/// The length of the text that is put in place of standard input, where one is.
fn put_len(effects: &[Effect]) -> Option<usize> {
    match effects {
        [Effect::PushInput(text), Effect::PopInput] => Some(text.len()),
        _ => None,
    }
}

/// What measuring so many texts of 63 bytes puts in place of standard input.
fn measured(alloc: Global, count: usize) -> Result<Option<usize>, AllocError> {
    let texts = texts(alloc, count)?;
    let mut view = View::new(alloc, Fixed::new(world(alloc, None)?), 4096);
    let done = measure(alloc, &texts, &mut view);
    let (base, trace) = view.into_trace();
    drop(base);
    let len = put_len(trace.effects().as_slice());
    drop(trace);
    match done {
        Ok(()) => Ok(len),
        Err(_) => Err(AllocError),
    }
}

/// 16 of them are 1,024 bytes with their newlines.
#[test]
fn long_texts_are_measured(rt: HostRuntime) -> Result<(), Fail> {
    assert_eq!(rt; measured(rt.alloc(), 16)?, None);
    assert_eq!(rt; measured(rt.alloc(), 17)?, Some(1088));
    Ok(())
}

fn passes(world: &World, reads: &[(Loc, Value)]) -> bool {
    for read in reads {
        if !world.holds(&read.0, &read.1) {
            return false;
        }
    }
    true
}

fn is_kind(read: &(Loc, Value), kind: Kind) -> bool {
    match &read.0 {
        Loc::Kind(path) => {
            path.names().len() == 1 && matches!(&read.1, Value::Kind(seen) if *seen == kind)
        }
        _ => false,
    }
}

fn has_kind(reads: &[(Loc, Value)], kind: Kind) -> bool {
    for read in reads {
        if is_kind(read, kind) {
            return true;
        }
    }
    false
}

/// Whether a record knows that there is no file: it passes in a state without it, and not in one with it.
fn knows(record: &Record, without: &World, with: &World) -> bool {
    let reads = record.reads().as_slice();
    has_kind(reads, Kind::Absent) && passes(without, reads) && !passes(with, reads)
}

fn knows_by(ran: Result<(Fixed, Record), (Fixed, Halt, Trace)>, with: &World) -> bool {
    match ran {
        Ok((base, record)) => {
            let without = base.into_world();
            let knows = knows(&record, &without, with);
            record.drop_it();
            drop(without);
            knows
        }
        Err((base, _, trace)) => {
            drop(base);
            drop(trace);
            false
        }
    }
}

fn knows_over(alloc: Global, script: &Arc<Script>, with: &World) -> bool {
    match world(alloc, None) {
        Ok(world) => knows_by(do_leaf(alloc, script, 0, FUEL, Fixed::new(world)), with),
        Err(_) => false,
    }
}

fn absence_is_read(alloc: Global, script: &Arc<Script>) -> bool {
    match world(alloc, Some("x")) {
        Ok(with) => knows_over(alloc, script, &with),
        Err(_) => false,
    }
}

#[test]
fn a_record_knows_that_there_is_no_file(rt: HostRuntime) -> Result<(), Fail> {
    let alloc = rt.alloc();
    let script = script(alloc, &["cat", "f"])?;
    assert!(rt; absence_is_read(alloc, &script));
    Ok(())
}

fn is_stop(ran: Result<(Fixed, Record), (Fixed, Halt, Trace)>, stop: &Stop<'_>) -> bool {
    match ran {
        Ok((base, record)) => {
            record.drop_it();
            drop(base);
            false
        }
        Err((base, halt, trace)) => {
            let counts = (
                trace.reads().as_slice().len(),
                trace.effects().as_slice().len(),
            );
            drop(base);
            drop(trace);
            halt == stop.halt && counts == (stop.reads, stop.effects)
        }
    }
}

fn stops_in(alloc: Global, script: &Arc<Script>, stop: &Stop<'_>) -> bool {
    let fuel = Fuel {
        turns: stop.turns,
        frames: 2000,
        nested: 64,
        trace: stop.trace,
    };
    match world(alloc, None) {
        Ok(world) => is_stop(do_leaf(alloc, script, 0, fuel, Fixed::new(world)), stop),
        Err(_) => false,
    }
}

fn stops(alloc: Global, stop: &Stop<'_>) -> bool {
    match script(alloc, stop.words) {
        Ok(script) => stops_in(alloc, &script, stop),
        Err(_) => false,
    }
}

fn all_stop(alloc: Global, rows: &[Stop<'_>]) -> bool {
    for stop in rows {
        if !stops(alloc, stop) {
            return false;
        }
    }
    true
}

/// A pair of a location and a value has 64 bytes, and more for names, texts and paths. Each leaf reads the status and IFS first.
/// What passes the limit is kept as the last.
#[test]
fn leaves_stop_where_too_little_is_left(rt: HostRuntime) -> Result<(), Fail> {
    let rows = [
        Stop {
            words: &["echo", "a"],
            turns: 0,
            trace: 4096,
            halt: Halt::Spent(SpentKind::Turns),
            reads: 0,
            effects: 0,
        },
        Stop {
            words: &["echo", "a"],
            turns: 1,
            trace: 0,
            halt: Halt::Trace,
            reads: 1,
            effects: 0,
        },
        Stop {
            words: &["echo", "a"],
            turns: 1,
            trace: 64,
            halt: Halt::Trace,
            reads: 2,
            effects: 0,
        },
        Stop {
            words: &["echo", "a"],
            turns: 1,
            trace: 160,
            halt: Halt::Trace,
            reads: 2,
            effects: 1,
        },
        Stop {
            words: &["cat", "f"],
            turns: 1,
            trace: 160,
            halt: Halt::Trace,
            reads: 3,
            effects: 0,
        },
    ];
    assert!(rt; all_stop(rt.alloc(), &rows));
    Ok(())
}
