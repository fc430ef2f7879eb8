//! Utilities over one state, whose current folder is the root.

use crate::naming::{folder_of, name_of, without_suffix};
use crate::{basename, dirname, echo, printf, pwd};
use hs_text::{Text, TextList};
use hs_view::{Fixed, Halt, View};
use hs_world::{Effect, Fd, Limits, Tree, World};
use std::alloc::{AllocError, Global};
use std::test::Fail;

/// A path, its last component, and what stands before it.
const PATHS: [(&str, &str, &str); 14] = [
    ("/a/b.c", "b.c", "/a"),
    ("a/b", "b", "a"),
    ("a", "a", "."),
    ("/a", "a", "/"),
    ("/", "/", "/"),
    ("//", "/", "/"),
    ("///", "/", "/"),
    ("", "", "."),
    ("a/", "a", "."),
    ("a//", "a", "."),
    ("/a/", "a", "/"),
    ("//a//b//", "b", "//a"),
    ("a//b", "b", "a"),
    ("../.", ".", ".."),
];

#[test]
fn paths_have_a_name_and_a_folder(rt: HostRuntime) -> Result<(), Fail> {
    for (path, name, folder) in &PATHS {
        assert_eq!(rt; name_of(path.as_bytes()), name.as_bytes(), "{path:?}");
        assert_eq!(rt; folder_of(path.as_bytes()), folder.as_bytes(), "{path:?}");
    }
    Ok(())
}

/// A name, a suffix, and the name without it.
const SUFFIXES: [(&str, &str, &str); 10] = [
    ("b.c", ".c", "b"),
    ("b.c", "c", "b."),
    ("b.c", "b.c", "b.c"),
    ("b.c", "", "b.c"),
    ("b.c", ".h", "b.c"),
    ("b.c", "bb.c", "b.c"),
    (".c", ".c", ".c"),
    ("aa", "a", "a"),
    ("", "", ""),
    ("/", "/", "/"),
];

#[test]
fn suffixes_are_removed_unless_they_are_all(rt: HostRuntime) -> Result<(), Fail> {
    for (name, suffix, wanted) in &SUFFIXES {
        assert_eq!(rt;
            without_suffix(name.as_bytes(), suffix.as_bytes()),
            wanted.as_bytes(),
            "{suffix:?} of {name:?}"
        );
    }
    Ok(())
}

#[derive(Clone, Copy)]
enum Utility {
    Basename,
    Dirname,
    Echo,
    Printf,
    Pwd,
}

/// A utility, its words, what it writes, and its status, which is 2 for a message.
type Row<'a> = (Utility, &'a [&'a str], &'a str, u8);

const ROWS: [Row<'static>; 16] = [
    (Utility::Basename, &["/a/b.c", ".c"], "b\n", 0),
    (Utility::Basename, &["--", "-a"], "-a\n", 0),
    (Utility::Basename, &[""], "\n", 0),
    (Utility::Basename, &[], "hs: basename: missing operand\n", 2),
    (
        Utility::Basename,
        &["a", "b", "c"],
        "hs: basename: extra operand\n",
        2,
    ),
    (
        Utility::Basename,
        &["-a", "b"],
        "hs: basename: unknown option -a\n",
        2,
    ),
    (Utility::Dirname, &["/a/b.c"], "/a\n", 0),
    (Utility::Dirname, &["-"], ".\n", 0),
    (Utility::Dirname, &[], "hs: dirname: missing operand\n", 2),
    (
        Utility::Dirname,
        &["a", "b"],
        "hs: dirname: extra operand\n",
        2,
    ),
    (Utility::Echo, &["-n", "a"], "-n a\n", 0),
    (Utility::Echo, &[], "\n", 0),
    (Utility::Pwd, &[], "/\n", 0),
    (Utility::Pwd, &["--"], "/\n", 0),
    (Utility::Pwd, &["a"], "hs: pwd: extra operand\n", 2),
    (Utility::Pwd, &["-x"], "hs: pwd: unknown option -x\n", 2),
];

const PRINTED: [Row<'static>; 16] = [
    (Utility::Printf, &["a\\nb\\nc\\n"], "a\nb\nc\n", 0),
    (
        Utility::Printf,
        &["%5s|%-3d|%03x\\n", "ab", "7", "255"],
        "   ab|7  |0ff\n",
        0,
    ),
    (
        Utility::Printf,
        &["%s-%s\\n", "a", "b", "c"],
        "a-b\nc-\n",
        0,
    ),
    (
        Utility::Printf,
        &["%d,", "1", "-2", "+3", "010", "0x1F", "'a", "\"b"],
        "1,-2,3,8,31,97,98,",
        0,
    ),
    (Utility::Printf, &["%s%d %c|"], "0 |", 0),
    (Utility::Printf, &["x", "a", "b"], "x", 0),
    (
        Utility::Printf,
        &["%u %o %x %X", "-1", "-1", "-1", "-1"],
        "18446744073709551615 1777777777777777777777 ffffffffffffffff FFFFFFFFFFFFFFFF",
        0,
    ),
    (
        Utility::Printf,
        &["%.2s|%c%c|%.s%3.1s", "abc", "xyz", "", "u", "vw"],
        "ab|x|  v",
        0,
    ),
    (Utility::Printf, &["%%%s%%", "a"], "%a%", 0),
    (
        Utility::Printf,
        &["\\101\\501\\7\\\\\\0411\\t"],
        "AA\x07\\!1\t",
        0,
    ),
    (Utility::Printf, &["--", "%s", "--"], "--", 0),
    (
        Utility::Printf,
        &["%05d|%-05d|%05s|%0-5x", "-42", "-42", "ab", "10"],
        "-0042|-42  |   ab|a    ",
        0,
    ),
    (Utility::Printf, &[""], "", 0),
    (
        Utility::Printf,
        &["%i", "-9223372036854775808"],
        "-9223372036854775808",
        0,
    ),
    (Utility::Printf, &[], "hs: printf: missing operand\n", 2),
    (Utility::Printf, &["--"], "hs: printf: missing operand\n", 2),
];

/// Formats that are none.
const BAD_FORMATS: [&str; 9] = [
    "%z", "%", "a\\", "\\q", "%5%", "%.3d", "%100001s", "%-", "%1$s",
];

/// The words of a `printf` of which one is a bad number, its message, and the text.
const BAD_NUMBERS: [(&[&str], &str, &str); 8] = [
    (&["%d|", "7x", "8"], "hs: printf: 7x: bad number\n", "7|8|"),
    (&["%d", ""], "hs: printf: : bad number\n", "0"),
    (&["%x", "0x"], "hs: printf: 0x: bad number\n", "0"),
    (&["%d", "-"], "hs: printf: -: bad number\n", "0"),
    (&["%o", "08"], "hs: printf: 08: bad number\n", "0"),
    (&["%i", "'ab"], "hs: printf: 'ab: bad number\n", "97"),
    (
        &["%d", "9223372036854775808"],
        "hs: printf: 9223372036854775808: bad number\n",
        "922337203685477580",
    ),
    (
        &["%u", "18446744073709551616"],
        "hs: printf: 18446744073709551616: bad number\n",
        "1844674407370955161",
    ),
];

fn world(alloc: Global) -> Result<World, AllocError> {
    let limits = Limits {
        bytes: 1024,
        turns: 1,
    };
    let (zero, params) = (Text::new(alloc), TextList::new(alloc));
    let input = Text::new(alloc);
    match World::new(
        alloc,
        Tree::new(alloc),
        Vec::new(alloc),
        zero,
        params,
        input,
        limits,
    ) {
        Ok(world) => Ok(world),
        Err(_) => Err(AllocError),
    }
}

fn words(alloc: Global, texts: &[&str]) -> Result<TextList, AllocError> {
    let mut words = TextList::new(alloc);
    for text in texts {
        words.push(Text::from_slice(alloc, text.as_bytes())?)?;
    }
    Ok(words)
}

fn is_written(effects: &[Effect], wanted: &str, status: u8) -> bool {
    match effects {
        [Effect::Emit(Fd::One, text)] => status == 0 && text.as_slice() == wanted.as_bytes(),
        [Effect::Emit(Fd::Two, text)] => status == 2 && text.as_slice() == wanted.as_bytes(),
        _ => false,
    }
}

fn is_row(answer: Result<u8, Halt>, view: View<Fixed>, wanted: &str, status: u8) -> bool {
    let (base, trace) = view.into_trace();
    let written = is_written(trace.effects().as_slice(), wanted, status);
    drop(base);
    drop(trace);
    written && answer == Ok(status)
}

fn does(alloc: Global, utility: Utility, args: &TextList, wanted: &str, status: u8) -> bool {
    match world(alloc) {
        Ok(world) => {
            let mut view = View::new(alloc, Fixed::new(world), 4096);
            let answer = match utility {
                Utility::Basename => basename(alloc, args, &mut view),
                Utility::Dirname => dirname(alloc, args, &mut view),
                Utility::Echo => echo(alloc, args, &mut view),
                Utility::Printf => printf(alloc, args, &mut view),
                Utility::Pwd => pwd(alloc, args, &mut view),
            };
            is_row(answer, view, wanted, status)
        }
        Err(_) => false,
    }
}

#[test]
fn each_writes_one_text(rt: HostRuntime) -> Result<(), Fail> {
    for (utility, texts, wanted, status) in &ROWS {
        let args = words(rt.alloc(), texts)?;
        assert!(rt;
            does(rt.alloc(), *utility, &args, wanted, *status),
            "{wanted:?}"
        );
    }
    Ok(())
}

#[test]
fn printf_writes_one_text(rt: HostRuntime) -> Result<(), Fail> {
    for (utility, texts, wanted, status) in &PRINTED {
        let args = words(rt.alloc(), texts)?;
        assert!(rt;
            does(rt.alloc(), *utility, &args, wanted, *status),
            "{wanted:?}"
        );
    }
    Ok(())
}

#[test]
fn bad_formats_are_refused(rt: HostRuntime) -> Result<(), Fail> {
    for format in &BAD_FORMATS {
        let args = words(rt.alloc(), &[*format, "1"])?;
        assert!(rt;
            does(
                rt.alloc(),
                Utility::Printf,
                &args,
                "hs: printf: bad format\n",
                2
            ),
            "{format:?}"
        );
    }
    Ok(())
}

fn is_told(effects: &[Effect], message: &str, wanted: &str) -> bool {
    match effects {
        [Effect::Emit(Fd::Two, line), Effect::Emit(Fd::One, text)] => {
            line.as_slice() == message.as_bytes() && text.as_slice() == wanted.as_bytes()
        }
        _ => false,
    }
}

fn complains(alloc: Global, args: &TextList, message: &str, wanted: &str) -> bool {
    match world(alloc) {
        Ok(world) => {
            let mut view = View::new(alloc, Fixed::new(world), 4096);
            let answer = printf(alloc, args, &mut view);
            let (base, trace) = view.into_trace();
            let told = is_told(trace.effects().as_slice(), message, wanted);
            drop(base);
            drop(trace);
            told && answer == Ok(1)
        }
        Err(_) => false,
    }
}

#[test]
fn bad_numbers_have_a_message(rt: HostRuntime) -> Result<(), Fail> {
    for (texts, message, wanted) in &BAD_NUMBERS {
        let args = words(rt.alloc(), texts)?;
        assert!(rt; complains(rt.alloc(), &args, message, wanted), "{wanted:?}");
    }
    Ok(())
}
