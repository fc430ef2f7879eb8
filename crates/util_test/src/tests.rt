//! Conditions over one state: a file `f` with a byte, an empty file `e`, and a folder `d`.

use crate::{bracket, false_, test_, true_};
use hs_text::{Text, TextList};
use hs_view::{Fixed, Halt, View};
use hs_world::{Effect, Entry, Fd, Limits, PathName, Tree, World};
use std::alloc::{AllocError, Global};
use std::test::Fail;

/// The words of `test`, and its status.
type Row<'a> = (&'a [&'a str], u8);

const ROWS: [Row<'static>; 56] = [
    (&[], 1),
    (&[""], 1),
    (&["a"], 0),
    (&["-n"], 0),
    (&["!"], 0),
    (&["!", ""], 0),
    (&["!", "a"], 1),
    (&["-n", ""], 1),
    (&["-n", "a"], 0),
    (&["-z", ""], 0),
    (&["-z", "a"], 1),
    (&["-x", "a"], 2),
    (&["a", "b"], 2),
    (&["-e", "f"], 0),
    (&["-e", "d"], 0),
    (&["-e", "g"], 1),
    (&["-e", ""], 1),
    (&["-e", "/"], 0),
    (&["-f", "f"], 0),
    (&["-f", "d/../f"], 0),
    (&["-f", "d"], 1),
    (&["-d", "d/"], 0),
    (&["-d", "f"], 1),
    (&["-s", "f"], 0),
    (&["-s", "e"], 1),
    (&["-s", "d"], 1),
    (&["-s", "g"], 1),
    (&["a", "=", "a"], 0),
    (&["a", "=", "b"], 1),
    (&["a", "=", "ab"], 1),
    (&["a", "!=", "b"], 0),
    (&["", "!=", ""], 1),
    (&["!", "=", "!"], 0),
    (&["!", "-e", "g"], 0),
    (&["!", "!", "a"], 0),
    (&["2", "-eq", "+02"], 0),
    (&["-1", "-ne", "1"], 0),
    (&["2", "-gt", "10"], 1),
    (&["10", "-ge", "10"], 0),
    (&["-2", "-lt", "-1"], 0),
    (&["1", "-le", "0"], 1),
    (&["9223372036854775807", "-gt", "-9223372036854775808"], 0),
    (&["0000000000000000000000000000001", "-eq", "1"], 0),
    (&["9223372036854775808", "-gt", "0"], 2),
    (&["-9223372036854775809", "-lt", "0"], 2),
    (&["1", "-eq", "one"], 2),
    (&["", "-eq", "0"], 2),
    (&[" 1", "-eq", "1"], 2),
    (&["+", "-eq", "0"], 2),
    (&["a", "b", "c"], 2),
    (&["!", "a", "=", "b"], 0),
    (&["!", "!", "-e", "f"], 0),
    (&["!", "1", "-eq", "1"], 1),
    (&["!", "1", "-eq", "x"], 2),
    (&["a", "=", "b", "c"], 2),
    (&["!", "!", "a", "=", "b"], 2),
];

/// The words of `[`, and its status.
const BRACKETS: [Row<'static>; 10] = [
    (&[], 2),
    (&["]"], 1),
    (&["a"], 2),
    (&["a", "]"], 0),
    (&["", "]"], 1),
    (&["]", "]"], 0),
    (&["a", "=", "a", "]"], 0),
    (&["a", "=", "b", "]"], 1),
    (&["a", "=", "a"], 2),
    (&["1", "-eq", "]"], 2),
];

fn put(alloc: Global, tree: &mut Tree, name: &str, entry: Entry) -> Result<(), AllocError> {
    let root = PathName::root(alloc);
    if let Some(path) = PathName::resolve(alloc, &root, name.as_bytes())? {
        if tree.insert(path, entry).is_ok() {
            return Ok(());
        }
    } else {
        drop(entry);
    }
    Err(AllocError)
}

fn tree(alloc: Global) -> Result<Tree, AllocError> {
    let mut tree = Tree::new(alloc);
    put(
        alloc,
        &mut tree,
        "f",
        Entry::File(Text::from_slice(alloc, b"x")?),
    )?;
    put(alloc, &mut tree, "e", Entry::File(Text::new(alloc)))?;
    put(alloc, &mut tree, "d", Entry::Dir)?;
    Ok(tree)
}

fn world(alloc: Global) -> Result<World, AllocError> {
    let limits = Limits {
        bytes: 1024,
        turns: 1,
    };
    let (zero, params) = (Text::new(alloc), TextList::new(alloc));
    let input = Text::new(alloc);
    match World::new(
        alloc,
        tree(alloc)?,
        Vec::new(alloc),
        zero,
        params,
        input,
        limits,
    ) {
        Ok(world) => Ok(world),
        Err(_) => Err(AllocError),
    }
}

fn words(alloc: Global, texts: &[&str]) -> Result<TextList, AllocError> {
    let mut words = TextList::new(alloc);
    for text in texts {
        words.push(Text::from_slice(alloc, text.as_bytes())?)?;
    }
    Ok(words)
}

#[derive(Clone, Copy)]
enum Utility {
    Test,
    Bracket,
}

fn message(utility: Utility) -> &'static [u8] {
    match utility {
        Utility::Test => b"hs: test: bad expression\n",
        Utility::Bracket => b"hs: [: bad expression\n",
    }
}

/// Whether a command that answered so wrote what goes with it: a message with status 2, and else nothing.
fn is_told(utility: Utility, status: u8, effects: &[Effect]) -> bool {
    match effects {
        [] => status < 2,
        [Effect::Emit(Fd::Two, text)] => status == 2 && text.as_slice() == message(utility),
        _ => false,
    }
}

fn is_answer(utility: Utility, answer: Result<u8, Halt>, view: View<Fixed>, wanted: u8) -> bool {
    let (base, trace) = view.into_trace();
    let told = is_told(utility, wanted, trace.effects().as_slice());
    drop(base);
    drop(trace);
    told && answer == Ok(wanted)
}

fn answers(alloc: Global, utility: Utility, args: &TextList, wanted: u8) -> bool {
    match world(alloc) {
        Ok(world) => {
            let mut view = View::new(alloc, Fixed::new(world), 4096);
            let answer = match utility {
                Utility::Test => test_(alloc, args, &mut view),
                Utility::Bracket => bracket(alloc, args, &mut view),
            };
            is_answer(utility, answer, view, wanted)
        }
        Err(_) => false,
    }
}

#[test]
fn test_answers_by_the_number_of_its_words(rt: HostRuntime) -> Result<(), Fail> {
    for (texts, wanted) in &ROWS {
        let args = words(rt.alloc(), texts)?;
        assert!(rt;
            answers(rt.alloc(), Utility::Test, &args, *wanted),
            "test {texts:?}"
        );
    }
    Ok(())
}

#[test]
fn a_bracket_is_closed(rt: HostRuntime) -> Result<(), Fail> {
    for (texts, wanted) in &BRACKETS {
        let args = words(rt.alloc(), texts)?;
        assert!(rt;
            answers(rt.alloc(), Utility::Bracket, &args, *wanted),
            "[ {texts:?}"
        );
    }
    Ok(())
}

fn constants(alloc: Global, args: &TextList) -> bool {
    match world(alloc) {
        Ok(world) => {
            let mut view = View::new(alloc, Fixed::new(world), 4096);
            let both = true_(alloc, args, &mut view) == Ok(0)
                && false_(alloc, args, &mut view) == Ok(1);
            let (base, trace) = view.into_trace();
            drop(base);
            drop(trace);
            both
        }
        Err(_) => false,
    }
}

#[test]
fn true_and_false_read_no_words(rt: HostRuntime) -> Result<(), Fail> {
    let args = words(rt.alloc(), &["-x", "a"])?;
    assert!(rt; constants(rt.alloc(), &args));
    Ok(())
}
