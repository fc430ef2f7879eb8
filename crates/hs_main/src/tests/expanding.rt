//! Scripts with expansions and assignments.

use super::{first_world, put_entry, run_in, run_plain, sinks, writes};
use hs_drive::Ending;
use hs_outside::{MemoryHost, MemorySink};
use hs_text::Text;
use hs_view::SpentKind;
use hs_world::{Entry, Limits, Tree};
use sh_leaf::built;
use sh_script::parse;
use std::alloc::{AllocError, Global};
use std::sync::Arc;
use std::test::Fail;

/// A script, what it writes to the two streams, and its status.
#[derive(Drop)]
struct Case<'a> {
    script: &'a [u8],
    out: &'a [u8],
    err: &'a [u8],
    status: u8,
}

fn writing<'a>(script: &'a [u8], out: &'a [u8]) -> Case<'a> {
    Case {
        script,
        out,
        err: b"",
        status: 0,
    }
}

/// A script that ends early, with a message.
fn failing<'a>(script: &'a [u8], out: &'a [u8], err: &'a [u8]) -> Case<'a> {
    Case {
        script,
        out,
        err,
        status: 2,
    }
}

fn is_case(alloc: Global, tree: Tree, case: &Case<'_>) -> bool {
    match MemoryHost::new(tree, Vec::new(alloc)) {
        Ok(mut host) => writes(
            alloc,
            &mut host,
            case.script,
            case.out,
            case.err,
            case.status,
        ),
        Err(_) => false,
    }
}

/// Whether the scripts write so where there is no file.
fn are_cases(alloc: Global, cases: &[Case<'_>]) -> bool {
    for case in cases {
        if !is_case(alloc, Tree::new(alloc), case) {
            return false;
        }
    }
    true
}

#[test]
fn words_are_expanded(rt: HostRuntime) -> Result<(), Fail> {
    let cases = [
        writing(b"echo $x", b"\n"),
        writing(b"echo *", b"*\n"),
        writing(b"x='a  b'; echo $x \"$x\"", b"a b a  b\n"),
        writing(b"x=a:b; IFS=:; echo $x \"$x\"", b"a b a:b\n"),
        writing(b"x=; echo ${x:-d} ${x-e} ${y-f} ${x:+g} ${x+h}", b"d f h\n"),
        writing(b"x=3; y=${x%3}4; echo $x$y $((x*y)) ${#y}", b"34 12 1\n"),
        writing(b"echo ${x:=a b} \"$x\" ~", b"a b a b ~\n"),
        writing(b"HOME=/h; x=~/a:~; echo $x ~/b '~'", b"/h/a:/h /h/b ~\n"),
        writing(b"echo \"$@\" a$* $# $0", b"a 0 hs\n"),
        writing(b"false; echo $? $?; echo $?", b"1 1\n0\n"),
    ];
    assert!(rt; are_cases(rt.alloc(), &cases));
    Ok(())
}

#[test]
fn assignments_are_made_in_order(rt: HostRuntime) -> Result<(), Fail> {
    let cases = [
        writing(b"x=1 y=$x; echo $x$y", b"11\n"),
        writing(b"x=1; x=2 echo $x; echo $x", b"1\n1\n"),
        writing(b"x=1 x=2 true; echo ${x-none}", b"none\n"),
        writing(b"false; x=$?; echo $x $?", b"1 0\n"),
        writing(b"x=$((y=2)) echo $y; echo $y", b"\n2\n"),
    ];
    assert!(rt; are_cases(rt.alloc(), &cases));
    Ok(())
}

#[test]
fn a_message_ends_the_script(rt: HostRuntime) -> Result<(), Fail> {
    let cases = [
        failing(b"echo ${x?no}; echo k", b"", b"hs: x: no\n"),
        failing(
            b"echo a; x=${y:?}; echo k",
            b"a\n",
            b"hs: y: parameter not set\n",
        ),
        failing(b"echo $((1/0)); echo k", b"", b"hs: division by zero\n"),
        failing(b"echo $((1+)); echo k", b"", b"hs: bad arithmetic\n"),
        failing(b"echo ${1=a}", b"", b"hs: 1: cannot assign\n"),
    ];
    assert!(rt; are_cases(rt.alloc(), &cases));
    Ok(())
}

/// An empty tree but for the files `a.c` and `b.c`.
fn tree_of_two(alloc: Global) -> Result<Tree, AllocError> {
    let mut tree = Tree::new(alloc);
    put_entry(alloc, &mut tree, "a.c", Entry::File(Text::new(alloc)))?;
    put_entry(alloc, &mut tree, "b.c", Entry::File(Text::new(alloc)))?;
    Ok(tree)
}

#[test]
fn pathnames_are_expanded(rt: HostRuntime) -> Result<(), Fail> {
    let row = writing(
        b"x=c; echo *.$x \"${y:-d}\" $((x=2+3)) $x",
        b"a.c b.c d 5 5\n",
    );
    assert!(rt; is_case(rt.alloc(), tree_of_two(rt.alloc())?, &row));
    Ok(())
}

/// The word of `echo`, with so many bytes.
fn echo_of(alloc: Global, bytes: usize) -> Result<Text, AllocError> {
    let mut text = Text::from_slice(alloc, b"echo ")?;
    for _ in 0..bytes {
        text.extend(b"a")?;
    }
    Ok(text)
}

/// With 1,024 bytes for a value the two texts are too long together.
#[test]
fn long_texts_are_spent(rt: HostRuntime) -> Result<(), Fail> {
    let alloc = rt.alloc();
    let script = parse(alloc, echo_of(alloc, 1024)?.as_slice())?;
    assert!(rt; built(&script));
    let script = Arc::new(alloc, script)?;
    let limits = Limits {
        bytes: 1024,
        turns: 1,
    };
    let mut out = MemorySink::new(alloc, 4096, Vec::new(alloc))?;
    let mut err = MemorySink::new(alloc, 4096, Vec::new(alloc))?;
    let world = first_world(alloc, limits)?;
    let ran = run_plain(alloc, script, world, limits, &mut out, &mut err);
    let (ending, report) = ran.ok_or("no memory for a host")?;
    assert_eq!(rt; ending, Ending::Spent(SpentKind::Bytes));
    assert_eq!(rt; report.count, 0);
    assert!(rt; out.written().is_empty());
    Ok(())
}

/// Names with their values.
fn environ(alloc: Global, entries: &[(&str, &str)]) -> Result<Vec<(Text, Text)>, AllocError> {
    let mut env = Vec::new(alloc);
    for (name, value) in entries {
        let name = Text::from_slice(alloc, name.as_bytes())?;
        env.push((name, Text::from_slice(alloc, value.as_bytes())?))?;
    }
    Ok(env)
}

/// What a script writes in this environment.
fn written(
    alloc: Global,
    entries: &[(&str, &str)],
    script: &[u8],
) -> Result<MemorySink, AllocError> {
    let env = environ(alloc, entries)?;
    let Ok(mut host) = MemoryHost::new(Tree::new(alloc), Vec::new(alloc)) else {
        return Err(AllocError);
    };
    let shown = run_in(alloc, &[b"-c", script], &env, &mut host, sinks(alloc)?)?;
    Ok(shown.out)
}

/// The first entry of a name counts, names that are none of a variable are dropped, and IFS and PWD are the program's own.
#[test]
fn the_environment_is_found(rt: HostRuntime) -> Result<(), Fail> {
    let entries = [
        ("HOME", "/h"),
        ("x", "a b"),
        ("x", "c"),
        ("IFS", "b"),
        ("PWD", "/p"),
        ("a-b", "d"),
        ("1", "e"),
    ];
    let out = written(
        rt.alloc(),
        &entries,
        b"echo ~ $x \"${#IFS}\" $PWD ${1-none} ${a-b}",
    )?;
    assert!(rt; out.written() == b"/h a b 3 / none b\n".as_slice());
    Ok(())
}
