mod sets;

use crate::arranging::sort_texts;
use crate::fixed_lines::{Flags, Search, folded, write_report};
use crate::merging::{Columns, merge};
use crate::ordering::Sorting;
use crate::runs::{Mode, write_runs};
use hs_text::{Text, TextList};
use std::alloc::{AllocError, Global};
use std::test::Fail;

/// What is written for a run, a text, and what comes of it.
const RUNS: [(Mode, &str, &str); 12] = [
    (Mode::All, "", ""),
    (Mode::All, "a\na\nb\n", "a\nb\n"),
    (Mode::All, "a\nb\na", "a\nb\na\n"),
    (Mode::All, "\n\n\na", "\na\n"),
    (Mode::Counted, "a\na\nb\n", "2 a\n1 b\n"),
    (Mode::Counted, "a\nb\nb\nb\na\n", "1 a\n3 b\n1 a\n"),
    (Mode::Counted, "x\nx\nx\nx\nx\nx\nx\nx\nx\nx", "10 x\n"),
    (Mode::Repeated, "a\na\nb\nc\nc\n", "a\nc\n"),
    (Mode::Repeated, "a\nb\na\n", ""),
    (Mode::Single, "a\na\nb\nc\nc\n", "b\n"),
    (Mode::Single, "a\nab\na", "a\nab\na\n"),
    (Mode::All, "a\na \nA\n", "a\na \nA\n"),
];

#[test]
fn runs_are_written_by_the_mode(rt: HostRuntime) -> Result<(), Fail> {
    for (mode, text, wanted) in &RUNS {
        let out = write_runs(rt.alloc(), *mode, text.as_bytes())?;
        assert_eq!(rt; out.as_slice(), wanted.as_bytes(), "{mode:?} of {text:?}");
    }
    Ok(())
}

fn merged(alloc: Global, left_out: &str, one: &str, two: &str) -> Result<Vec<u8>, AllocError> {
    let columns = Columns {
        first: !left_out.contains('1'),
        second: !left_out.contains('2'),
        both: !left_out.contains('3'),
    };
    merge(alloc, columns, one.as_bytes(), two.as_bytes())
}

/// The columns that are left out, two texts, and what comes of them.
const MERGES: [(&str, &str, &str, &str); 12] = [
    ("", "a\nb\n", "b\nc\n", "a\n\t\tb\n\tc\n"),
    ("1", "a\nb\n", "b\nc\n", "\tb\nc\n"),
    ("2", "a\nb\n", "b\nc\n", "a\n\tb\n"),
    ("3", "a\nb\n", "b\nc\n", "a\n\tc\n"),
    ("12", "a\nb\n", "b\nc\n", "b\n"),
    ("13", "a\nb\n", "b\nc\n", "c\n"),
    ("123", "a\nb\n", "b\nc\n", ""),
    ("", "", "x", "\tx\n"),
    ("", "x", "", "x\n"),
    ("", "a\na\n", "a\n", "\t\ta\na\n"),
    ("", "b\na\n", "a\nb\n", "\ta\n\t\tb\na\n"),
    ("", "\nab", "a\nab\n", "\n\ta\n\t\tab\n"),
];

#[test]
fn lines_stand_in_their_columns(rt: HostRuntime) -> Result<(), Fail> {
    for (left_out, one, two, wanted) in &MERGES {
        let out = merged(rt.alloc(), left_out, one, two)?;
        assert_eq!(rt;
            out.as_slice(),
            wanted.as_bytes(),
            "-{left_out} of {one:?} and {two:?}"
        );
    }
    Ok(())
}

fn sorted(alloc: Global, options: &str, one: &str, two: &str) -> Result<Vec<u8>, AllocError> {
    let sorting = Sorting {
        numeric: options.contains('n'),
        reverse: options.contains('r'),
        unique: options.contains('u'),
    };
    let mut texts = TextList::new(alloc);
    texts.push(Text::from_slice(alloc, one.as_bytes())?)?;
    texts.push(Text::from_slice(alloc, two.as_bytes())?)?;
    sort_texts(alloc, sorting, texts.as_slice())
}

/// Options, two texts, and their lines sorted.
const SORTS: [(&str, &str, &str, &str); 18] = [
    ("", "b\na\n", "", "a\nb\n"),
    ("", "b\na", "ab\nB\n", "B\na\nab\nb\n"),
    ("", "10\n9\n09\n", "", "09\n10\n9\n"),
    ("r", "a\nc\nb\n", "", "c\nb\na\n"),
    ("u", "b\na\nb\n", "a\n", "a\nb\n"),
    ("ru", "b\na\nb\n", "c\n", "c\nb\na\n"),
    ("n", "10\n9\n09\n", "", "09\n9\n10\n"),
    ("nu", "10\n9\n09\n", "", "9\n10\n"),
    ("nru", "10\n9\n09\n", "", "10\n9\n"),
    ("nr", "10\n9\n09\n", "", "10\n9\n09\n"),
    ("n", "-1\n-10\n0\n", "-2x\n", "-10\n-2x\n-1\n0\n"),
    ("n", "1.5\n1.25\n1\n", ".5\n", ".5\n1\n1.25\n1.5\n"),
    ("nu", "1.50\n1.5\n", "01.5\n", "1.50\n"),
    ("nu", "x\n0\n-0\n\n-.0\n", "", "x\n"),
    ("n", " \t2\n1\n", "+3\n", "+3\n1\n \t2\n"),
    (
        "n",
        "100000000000000000000000\n99999999999999999999999\n",
        "",
        "99999999999999999999999\n100000000000000000000000\n",
    ),
    ("n", "- 1\n1 2\n", "1 1\n", "- 1\n1 1\n1 2\n"),
    ("n", "2.\n2.0\n", "-0.1\n-0.09\n", "-0.1\n-0.09\n2.\n2.0\n"),
];

#[test]
fn lines_are_sorted(rt: HostRuntime) -> Result<(), Fail> {
    for (options, one, two, wanted) in &SORTS {
        let out = sorted(rt.alloc(), options, one, two)?;
        assert_eq!(rt;
            out.as_slice(),
            wanted.as_bytes(),
            "-{options} of {one:?} and {two:?}"
        );
    }
    Ok(())
}

/// The options, the patterns, a text, what is written of it, and whether a line of it is selected.
const LINES: [(&str, &str, &str, &str, bool); 17] = [
    ("", "b", "abc\nd\n", "abc\n", true),
    ("", "x", "abc\n", "", false),
    ("", "b\nd", "abc\nd\ne", "abc\nd\n", true),
    ("", "", "a\n\n", "a\n\n", true),
    ("", "a\n\nb", "c\n", "c\n", true),
    ("", "a\n", "b\na", "a\n", true),
    ("", "aab", "xaaab\naxab\n", "xaaab\n", true),
    ("", "a.c", "abc\na.c", "a.c\n", true),
    ("x", "ab", "abc\nab\n", "ab\n", true),
    ("x", "", "a\n\n", "\n", true),
    ("v", "b", "abc\nd\n", "d\n", true),
    ("i", "aB", "xAbx\nba\n", "xAbx\n", true),
    ("n", "a", "b\na\nca\n", "2:a\n3:ca\n", true),
    ("c", "a", "a\nb\naa", "2\n", true),
    ("cv", "a", "a\n", "0\n", false),
    ("q", "a", "b\na\n", "", true),
    ("qv", "a", "a\n", "", false),
];

fn searched(
    alloc: Global,
    options: &str,
    operand: &str,
    prefix: &[u8],
    text: &str,
) -> Result<(Vec<u8>, bool), AllocError> {
    let flags = Flags {
        folds: options.contains('i'),
        inverts: options.contains('v'),
        whole: options.contains('x'),
        counts: options.contains('c'),
        numbers: options.contains('n'),
        quiet: options.contains('q'),
    };
    let operand = Text::from_slice(alloc, operand.as_bytes())?;
    let patterns = folded(alloc, flags.folds, &operand)?;
    let search = Search { flags, patterns };
    let mut out = Vec::new(alloc);
    let selected = write_report(alloc, &mut out, &search, prefix, text.as_bytes())?;
    Ok((out, selected))
}

#[test]
fn lines_with_fixed_strings_are_selected(rt: HostRuntime) -> Result<(), Fail> {
    for (options, operand, text, wanted, any) in &LINES {
        let (out, selected) = searched(rt.alloc(), options, operand, b"", text)?;
        assert_eq!(rt;
            out.as_slice(),
            wanted.as_bytes(),
            "{operand:?} in {text:?}"
        );
        assert_eq!(rt; selected, *any, "{operand:?} in {text:?}");
    }
    Ok(())
}

#[test]
fn names_stand_before_lines_and_counts(rt: HostRuntime) -> Result<(), Fail> {
    let (lines, _) = searched(rt.alloc(), "n", "a", b"f:", "b\na\n")?;
    assert_eq!(rt; lines.as_slice(), b"f:2:a\n".as_slice());
    let (count, _) = searched(rt.alloc(), "c", "a", b"f:", "b\na\n")?;
    assert_eq!(rt; count.as_slice(), b"f:1\n".as_slice());
    Ok(())
}
