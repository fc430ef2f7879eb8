//! The program over streams in memory. The rows say what the words write, and how the program ends.

ghost use Rattle.std.specs.Arc.{arc_value};
ghost use Rattle.std.specs.Prelude.{◌≡◌, ◌≤◌, true};
ghost use Rattle.sh_leaf.specs.Built.{is_built};

mod expanding;

use crate::gate::NoGate;
use crate::top::{Answer, top};
use hs_drive::{Ending, Report, plain};
use hs_outside::{MemoryHost, MemorySink, MemorySource};
use hs_text::{Text, TextList};
use hs_view::SpentKind;
use hs_world::{Entry, Limits, PathName, Tree, World};
use sh_leaf::built;
use sh_script::parse;
use sh_syntax::{Fault, Opening, Script};
use std::alloc::{AllocError, Global};
use std::sync::Arc;
use std::test::Fail;

/// What a run wrote, and its answer.
#[derive(Drop)]
struct Shown {
    out: MemorySink,
    err: MemorySink,
    answer: Answer,
}

/// Runs the program with these words over these, in an empty environment.
fn run_on(
    alloc: Global,
    words: &[&[u8]],
    host: &mut MemoryHost,
    out: MemorySink,
    err: MemorySink,
) -> Result<Shown, AllocError> {
    run_in(alloc, words, &[], host, (out, err))
}

/// Runs the program with these words in this environment.
fn run_in(
    alloc: Global,
    words: &[&[u8]],
    env: &[(Text, Text)],
    host: &mut MemoryHost,
    sinks: (MemorySink, MemorySink),
) -> Result<Shown, AllocError> {
    let (mut out, mut err) = sinks;
    let mut texts = Vec::new(alloc);
    for word in words {
        texts.push(Text::from_slice(alloc, word)?)?;
    }
    let mut input = MemorySource::new(Text::new(alloc), 1, Vec::new(alloc))?;
    let answer = top(
        alloc, &texts, env, host, &mut input, &mut out, &mut err, &NoGate,
    );
    Ok(Shown { out, err, answer })
}

/// Two sinks that take all.
fn sinks(alloc: Global) -> Result<(MemorySink, MemorySink), AllocError> {
    let out = MemorySink::new(alloc, 4096, Vec::new(alloc))?;
    let err = MemorySink::new(alloc, 4096, Vec::new(alloc))?;
    Ok((out, err))
}

/// Runs the program with these words and sinks over no file.
fn run_over(
    alloc: Global,
    words: &[&[u8]],
    out: MemorySink,
    err: MemorySink,
) -> Result<Shown, AllocError> {
    match MemoryHost::new(Tree::new(alloc), Vec::new(alloc)) {
        Ok(mut host) => run_on(alloc, words, &mut host, out, err),
        Err(error) => Err(error),
    }
}

/// Runs the program with these words over no file and sinks that take all.
fn run(alloc: Global, words: &[&[u8]]) -> Result<Shown, AllocError> {
    let (out, err) = sinks(alloc)?;
    run_over(alloc, words, out, err)
}

/// Words with what they write to the two streams, and how the program ends.
#[derive(Drop)]
struct Row<'a> {
    words: &'a [&'a [u8]],
    out: &'a [u8],
    err: &'a [u8],
    ending: Ending,
    status: u8,
}

fn done<'a>(words: &'a [&'a [u8]], out: &'a [u8]) -> Row<'a> {
    Row {
        words,
        out,
        err: b"",
        ending: Ending::Done(0),
        status: 0,
    }
}

/// The script ends with status 1 and a message.
fn told<'a>(words: &'a [&'a [u8]], err: &'a [u8]) -> Row<'a> {
    Row {
        words,
        out: b"",
        err,
        ending: Ending::Done(1),
        status: 1,
    }
}

fn unbuilt<'a>(words: &'a [&'a [u8]]) -> Row<'a> {
    Row {
        words,
        out: b"",
        err: b"hs: not built yet\n",
        ending: Ending::Unbuilt,
        status: 123,
    }
}

/// The script is refused on its first line.
fn refused<'a>(words: &'a [&'a [u8]], fault: Fault) -> Row<'a> {
    Row {
        words,
        out: b"",
        err: b"hs: line 1: syntax error\n",
        ending: Ending::Syntax { line: 1, fault },
        status: 2,
    }
}

#[test]
fn rows(rt: HostRuntime) -> Result<(), Fail> {
    let rows = [
        done(&[b"-c", b""], b""),
        done(&[b"-c", b"echo a; echo b"], b"a\nb\n"),
        done(&[b"-c", b"echo a; echo 'b c'"], b"a\nb c\n"),
        done(&[b"-c", b"\n\necho\n"], b"\n"),
        done(&[b"-c", b"echo \"a  b\" c\\ d # e"], b"a  b c d\n"),
        done(&[b"-c", b"echo \"\\$x\" '*'\necho a\\\nb"], b"$x *\nab\n"),
        done(&[b"-c", b"tee t; tee -a t; cat t; wc t"], b"0 0 0 t\n"),
        told(&[b"-c", b"cat f"], b"hs: cat: f: no such file\n"),
        told(&[b"-c", b"cut -b 1 f"], b"hs: cut: f: no such file\n"),
        told(&[b"-c", b"fold f"], b"hs: fold: f: no such file\n"),
        told(&[b"-c", b"head -n 1 f"], b"hs: head: f: no such file\n"),
        told(&[b"-c", b"tail -n 1 f"], b"hs: tail: f: no such file\n"),
        told(&[b"-c", b"tee /"], b"hs: tee: /: is a folder\n"),
        told(&[b"-c", b"wc f"], b"hs: wc: f: no such file\n"),
        unbuilt(&[b"-c", b"'cat' f"]),
        unbuilt(&[b"-c", b"echo $(echo a)"]),
        unbuilt(&[b"-c", b"echo \"${x:-`echo a`}\""]),
        unbuilt(&[b"-c", b"$x a"]),
        refused(&[b"-c", b"echo 'a"], Fault::Unclosed(Opening::Single)),
        refused(&[b"-c", b"; echo a"], Fault::Unexpected),
        refused(&[b"-c", b"a & b"], Fault::Unexpected),
        refused(&[b"-c", b"echo ${a$b}"], Fault::BadParameter),
        unbuilt(&[b"-c", b"ls"]),
        unbuilt(&[b"-c", b"echo a && echo b"]),
        unbuilt(&[b"-c", b"echo a >f"]),
        unbuilt(&[b"-c", b"{ echo a; }"]),
        unbuilt(&[b"-c"]),
        unbuilt(&[b"-c", b"echo a", b"name"]),
        unbuilt(&[b"script", b"echo a"]),
        unbuilt(&[]),
    ];
    for row in rows.iter() {
        let shown = run(rt.alloc(), row.words)?;
        assert!(rt; shown.out.written() == row.out);
        assert!(rt; shown.err.written() == row.err);
        assert_eq!(rt; shown.answer.ending, row.ending);
        assert_eq!(rt; shown.answer.status, row.status);
    }
    Ok(())
}

#[test]
fn utilities_run_by_their_names(rt: HostRuntime) -> Result<(), Fail> {
    let rows = [
        done(&[b"-c", b"basename /a/b.c .c; dirname /a/b.c"], b"b\n/a\n"),
        done(&[b"-c", b"pwd"], b"/\n"),
        done(
            &[b"-c", b"printf '%5s|%-3d|%03x\\n' ab 7 255"],
            b"   ab|7  |0ff\n",
        ),
        done(&[b"-c", b"true; test 2 -gt 1; [ a = a ]"], b""),
        done(&[b"-c", b"sort; uniq; tr a b"], b""),
        done(
            &[
                b"-c",
                b"tee f; sort -n -u f; uniq -c f; comm f f; echo \"[\"",
            ],
            b"[\n",
        ),
        told(&[b"-c", b"false"], b""),
        told(&[b"-c", b"[ a = b ]"], b""),
        told(&[b"-c", b"grep -F a"], b""),
        told(&[b"-c", b"uniq f"], b"hs: uniq: f: no such file\n"),
        told(
            &[b"-c", b"comm f f"],
            b"hs: comm: f: no such file\nhs: comm: f: no such file\n",
        ),
        done(&[b"-c", b"echo ["], b"[\n"),
    ];
    for row in rows.iter() {
        let shown = run(rt.alloc(), row.words)?;
        assert!(rt; shown.out.written() == row.out);
        assert!(rt; shown.err.written() == row.err);
        assert_eq!(rt; shown.answer.ending, row.ending);
        assert_eq!(rt; shown.answer.status, row.status);
    }
    Ok(())
}

#[test]
fn a_fault_is_told_with_its_line(rt: HostRuntime) -> Result<(), Fail> {
    let shown = run(rt.alloc(), &[b"-c", b"echo a\n)"])?;
    assert!(rt; shown.out.written().is_empty());
    assert!(rt; shown.err.written() == b"hs: line 2: syntax error\n".as_slice());
    Ok(())
}

/// How a script ends that is one comment of so many bytes.
fn comment(alloc: Global, bytes: usize) -> Result<Ending, AllocError> {
    let text = vec![in alloc; b'#'; bytes]?;
    Ok(run(alloc, &[b"-c", &text])?.answer.ending)
}

#[test]
fn a_script_has_a_mebibyte_at_most(rt: HostRuntime) -> Result<(), Fail> {
    let alloc = rt.alloc();
    assert_eq!(rt; comment(alloc, 1_048_576)?, Ending::Done(0));
    let too_long = Ending::Syntax {
        line: 1,
        fault: Fault::TooLong,
    };
    assert_eq!(rt; comment(alloc, 1_048_577)?, too_long);
    Ok(())
}

#[test]
fn a_report_counts_leaves_turns_and_effects(rt: HostRuntime) -> Result<(), Fail> {
    let shown = run(rt.alloc(), &[b"-c", b"echo a; echo b"])?;
    let report = Report {
        head: 2,
        turns: 2,
        count: 4,
    };
    assert_eq!(rt; shown.answer.report, report);
    Ok(())
}

#[test]
fn a_failing_write_ends_the_run(rt: HostRuntime) -> Result<(), Fail> {
    let alloc = rt.alloc();
    let words: [&[u8]; 2] = [b"-c", b"echo abc; echo d"];
    let failing: [(u64, &[u8]); 3] = [(1, b""), (2, b"ab"), (3, b"abc\n")];
    for (call, written) in failing.iter() {
        let out = MemorySink::new(alloc, 2, vec![in alloc; *call]?)?;
        let err = MemorySink::new(alloc, 4096, Vec::new(alloc))?;
        let shown = run_over(alloc, &words, out, err)?;
        assert!(rt; shown.out.written() == *written);
        assert!(rt; shown.err.written() == b"hs: output failed\n".as_slice());
        assert_eq!(rt; shown.answer.ending, Ending::OutFault);
        assert_eq!(rt; shown.answer.status, 121);
    }
    Ok(())
}

#[test]
fn a_line_that_cannot_be_written_changes_nothing_else(rt: HostRuntime) -> Result<(), Fail> {
    let alloc = rt.alloc();
    let out = MemorySink::new(alloc, 2, Vec::new(alloc))?;
    let err = MemorySink::new(alloc, 4096, vec![in alloc; 1]?)?;
    let shown = run_over(alloc, &[b"-c", b"ls"], out, err)?;
    assert!(rt; shown.err.written().is_empty());
    assert_eq!(rt; shown.answer.ending, Ending::Unbuilt);
    Ok(())
}

/// Runs a script over no file.
fn run_plain(
    alloc: Global,
    script: Arc<Script>,
    world: World,
    limits: Limits,
    out: &mut MemorySink,
    err: &mut MemorySink,
) -> Option<(Ending, Report)>
    requires built { is_built (arc_value script) ≡ true }
{
    match MemoryHost::new(Tree::new(alloc), Vec::new(alloc)) {
        Ok(mut host) => Some(plain(alloc, script, world, limits, &mut host, out, err)),
        Err(_) => None,
    }
}

/// A state without files, variables and parameters.
fn first_world(alloc: Global, limits: Limits) -> Result<World, AllocError>
    requires least { 1024 ≤ limits.bytes }
    requires most { limits.bytes ≤ 268435456 }
{
    let (zero, params) = (Text::new(alloc), TextList::new(alloc));
    let (tree, input) = (Tree::new(alloc), Text::new(alloc));
    match World::new(alloc, tree, Vec::new(alloc), zero, params, input, limits) {
        Ok(world) => Ok(world),
        Err(_) => Err(AllocError),
    }
}

#[test]
fn a_run_with_one_turn_does_one_command(rt: HostRuntime) -> Result<(), Fail> {
    let alloc = rt.alloc();
    let script = parse(alloc, b"echo a; echo b")?;
    assert!(rt; built(&script));
    let script = Arc::new(alloc, script)?;
    let limits = Limits {
        bytes: 16_777_216,
        turns: 1,
    };
    let mut out = MemorySink::new(alloc, 2, Vec::new(alloc))?;
    let mut err = MemorySink::new(alloc, 2, Vec::new(alloc))?;
    let world = first_world(alloc, limits)?;
    let ran = run_plain(alloc, script, world, limits, &mut out, &mut err);
    let (ending, report) = ran.ok_or("no memory for a host")?;
    assert_eq!(rt; ending, Ending::Spent(SpentKind::Turns));
    assert_eq!(rt; report.count, 2);
    assert!(rt; out.written() == b"a\n".as_slice());
    assert!(rt; err.written().is_empty());
    Ok(())
}

/// Whether the empty script ends so over this host, with this line.
fn is_ended(shown: &Shown, ending: Ending, line: &[u8]) -> bool {
    shown.answer.ending == ending && shown.out.written().is_empty() && shown.err.written() == line
}

fn ends_with(
    alloc: Global,
    host: &mut MemoryHost,
    sinks: (MemorySink, MemorySink),
    ending: Ending,
    line: &[u8],
) -> bool {
    let (out, err) = sinks;
    match run_on(alloc, &[b"-c", b""], host, out, err) {
        Ok(shown) => is_ended(&shown, ending, line),
        Err(_) => false,
    }
}

fn ends(alloc: Global, host: &mut MemoryHost, ending: Ending, line: &[u8]) -> bool {
    match sinks(alloc) {
        Ok(sinks) => ends_with(alloc, host, sinks, ending, line),
        Err(_) => false,
    }
}

/// Puts an entry at the path that a name has.
fn put_entry(alloc: Global, tree: &mut Tree, name: &str, entry: Entry) -> Result<(), AllocError> {
    let root = PathName::root(alloc);
    match PathName::resolve(alloc, &root, name.as_bytes())? {
        Some(path) => {
            let _ = tree.insert(path, entry);
        }
        None => drop(entry),
    }
    Ok(())
}

/// Puts an empty file into a tree, and says whether that went well.
fn put_file(alloc: Global, tree: &mut Tree, number: u32) -> bool {
    match format!(in alloc; "f{number}") {
        Ok(name) => put_entry(alloc, tree, &name, Entry::File(Text::new(alloc))).is_ok(),
        Err(_) => false,
    }
}

/// Puts so many empty files into a tree, and says whether that went well.
fn put_files(alloc: Global, tree: &mut Tree, count: u32) -> bool {
    for number in 0..count {
        if !put_file(alloc, tree, number) {
            return false;
        }
    }
    true
}

fn is_spent_over(alloc: Global, tree: Tree) -> bool {
    match MemoryHost::new(tree, Vec::new(alloc)) {
        Ok(mut host) => ends(
            alloc,
            &mut host,
            Ending::Spent(SpentKind::Tree),
            b"hs: budget spent: tree\n",
        ),
        Err(_) => false,
    }
}

fn is_spent_over_files(alloc: Global, count: u32) -> bool {
    let mut tree = Tree::new(alloc);
    put_files(alloc, &mut tree, count) && is_spent_over(alloc, tree)
}

#[test]
fn files_past_the_limit_are_spent(rt: HostRuntime) -> Result<(), Fail> {
    assert!(rt; is_spent_over_files(rt.alloc(), 262_145));
    Ok(())
}

/// Whether the first call of a host fails the program, and the second does not.
fn fails_once(alloc: Global) -> bool {
    let Ok(failing) = vec![in alloc; 1] else {
        return false;
    };
    match MemoryHost::new(Tree::new(alloc), failing) {
        Ok(mut host) => {
            ends(alloc, &mut host, Ending::HostFault, b"hs: tree failed\n")
                && ends(alloc, &mut host, Ending::Done(0), b"")
        }
        Err(_) => false,
    }
}

#[test]
fn files_that_cannot_be_loaded_are_a_fault(rt: HostRuntime) -> Result<(), Fail> {
    assert!(rt; fails_once(rt.alloc()));
    Ok(())
}

#[test]
fn a_file_that_is_not_there_is_told(rt: HostRuntime) -> Result<(), Fail> {
    let shown = run(rt.alloc(), &[b"-c", b"cat g; echo k"])?;
    assert!(rt; shown.out.written() == b"k\n".as_slice());
    assert!(rt; shown.err.written() == b"hs: cat: g: no such file\n".as_slice());
    assert_eq!(rt; shown.answer.ending, Ending::Done(0));
    Ok(())
}

/// Whether a script writes this over a host, and ends with this status.
fn writes(
    alloc: Global,
    host: &mut MemoryHost,
    script: &[u8],
    out: &[u8],
    err: &[u8],
    status: u8,
) -> bool {
    let Ok((to_out, to_err)) = sinks(alloc) else {
        return false;
    };
    match run_on(alloc, &[b"-c", script], host, to_out, to_err) {
        Ok(shown) => {
            shown.out.written() == out
                && shown.err.written() == err
                && shown.answer.ending == Ending::Done(status)
        }
        Err(_) => false,
    }
}

/// What utilities of lines write of the lines `10`, `9` and `09`, and those of columns of two files.
const SORTING: &[u8] = b"sort -n -u g; uniq g; comm g g; paste -d : g f; sort -r f; grep -F -n 9 g";

const SORTED: &[u8] =
    b"9\n10\n10\n9\n09\n\t\t10\n\t\t9\n\t\t09\n10:ab\n9:c\n09:\nc\nab\n2:9\n3:09\n";

/// Each utility that reads files.
const READING: &[u8] =
    b"head -n 1 f f; tail -n 1 f; tail -n +2 f; wc f f; wc -l f f; cut -b 1 f; cut -d b -f 1 f; fold -w 1 f";

/// What they write where `f` has the lines `ab` and `c`.
const READ: &[u8] =
    b"==> f <==\nab\n\n==> f <==\nab\nc\nc\n2 2 5 f\n2 2 5 f\n4 4 10 total\n2 f\n2 f\n4 total\na\nc\na\nc\na\nb\nc\n";

/// Whether utilities read the file of a host, and `cat` tells that the folder is none.
fn reads(alloc: Global, tree: Tree) -> bool {
    match MemoryHost::new(tree, Vec::new(alloc)) {
        Ok(mut host) => {
            let told = b"hs: cat: d: is a folder\n";
            writes(alloc, &mut host, b"cat f f", b"ab\nc\nab\nc\n", b"", 0)
                && writes(alloc, &mut host, b"cat d", b"", told, 1)
                && writes(alloc, &mut host, b"cat d f", b"ab\nc\n", told, 1)
                && writes(alloc, &mut host, READING, READ, b"", 0)
                && writes(alloc, &mut host, SORTING, SORTED, b"", 0)
        }
        Err(_) => false,
    }
}

fn reads_a_file(alloc: Global) -> bool {
    let mut tree = Tree::new(alloc);
    let Ok(text) = Text::from_slice(alloc, b"ab\nc\n") else {
        return false;
    };
    let Ok(numbers) = Text::from_slice(alloc, b"10\n9\n09\n") else {
        return false;
    };
    put_entry(alloc, &mut tree, "f", Entry::File(text)).is_ok()
        && put_entry(alloc, &mut tree, "g", Entry::File(numbers)).is_ok()
        && put_entry(alloc, &mut tree, "d", Entry::Dir).is_ok()
        && reads(alloc, tree)
}

#[test]
fn files_are_read_and_folders_are_not(rt: HostRuntime) -> Result<(), Fail> {
    assert!(rt; reads_a_file(rt.alloc()));
    Ok(())
}
