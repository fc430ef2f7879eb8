use crate::column::Column;
use crate::counting::sum;
use crate::ends::tail;
use crate::escapes::read_delimiters;
use crate::folding::fold;
use crate::joining::{paste, paste_serial};
use crate::unread::Unread;
use crate::{
    Chosen, Counts, TextErr, count, cut_bytes, cut_fields, first_lines, last_lines, read_count,
    read_ends, read_list, write_counts,
};
use hs_text::Text;
use std::alloc::{AllocError, Global};
use std::test::Fail;

/// A text, a count, and the first lines.
const HEADS: [(&str, usize, &str); 10] = [
    ("", 3, ""),
    ("a\nb\nc\n", 0, ""),
    ("a\nb\nc\n", 1, "a\n"),
    ("a\nb\nc\n", 2, "a\nb\n"),
    ("a\nb\nc\n", 3, "a\nb\nc\n"),
    ("a\nb\nc\n", 10, "a\nb\nc\n"),
    ("a\nb", 1, "a\n"),
    ("a\nb", 2, "a\nb"),
    ("\n\na\n", 2, "\n\n"),
    ("a", 1, "a"),
];

#[test]
fn head_copies_the_first_lines(rt: HostRuntime) -> Result<(), Fail> {
    for (text, n, wanted) in &HEADS {
        assert_eq!(rt;
            first_lines(text.as_bytes(), *n),
            wanted.as_bytes(),
            "{n} of {text:?}"
        );
    }
    Ok(())
}

/// The value of `-n`, a text, and the lines.
const TAILS: [(&str, &str, &str); 14] = [
    ("2", "a\nb\nc\n", "b\nc\n"),
    ("-2", "a\nb\nc\n", "b\nc\n"),
    ("0", "a\nb\n", ""),
    ("1", "a\nb", "b"),
    ("2", "a\nb", "a\nb"),
    ("1", "a\n\n", "\n"),
    ("9", "a\nb\n", "a\nb\n"),
    ("3", "", ""),
    ("+2", "a\nb\nc\n", "b\nc\n"),
    ("+1", "a\nb", "a\nb"),
    ("+0", "a\nb", "a\nb"),
    ("+2", "a\nb", "b"),
    ("+4", "a\nb\nc\n", ""),
    ("+00000000000000000000000000000000002", "a\nb\n", "b\n"),
];

#[test]
fn tail_copies_the_last_lines(rt: HostRuntime) -> Result<(), Fail> {
    for (word, text, wanted) in &TAILS {
        let ends = read_ends(word.as_bytes())?;
        assert_eq!(rt;
            tail(text.as_bytes(), ends),
            wanted.as_bytes(),
            "{word} of {text:?}"
        );
    }
    let text = b"a\nb\n";
    assert_eq!(rt; last_lines(text, usize::MAX), text.as_slice());
    Ok(())
}

/// A word, and the count that it is read as.
const COUNTS: [(&str, Option<usize>); 10] = [
    ("0", Some(0)),
    ("007", Some(7)),
    ("18446744073709551615", Some(usize::MAX)),
    ("18446744073709551616", Some(usize::MAX)),
    ("99999999999999999999999999", Some(usize::MAX)),
    ("", None),
    ("-1", None),
    ("+1", None),
    ("1 ", None),
    ("0x1", None),
];

#[test]
fn counts_are_decimal_digits(rt: HostRuntime) -> Result<(), Fail> {
    for (word, wanted) in &COUNTS {
        assert_eq!(rt; read_count(word.as_bytes()).ok(), *wanted, "{word:?}");
    }
    Ok(())
}

/// A text, and its newlines, words and bytes.
const TEXTS: [(&str, u128, u128, u128); 10] = [
    ("", 0, 0, 0),
    ("\n", 1, 0, 1),
    ("a", 0, 1, 1),
    ("a b\n", 1, 2, 4),
    ("a b", 0, 2, 3),
    ("  a\t\tbc  \n\n", 2, 2, 11),
    ("a\u{b}b\u{c}c\rd", 0, 4, 7),
    ("a\0b\u{1}c", 0, 1, 5),
    ("é à\n", 1, 2, 6),
    ("a\nb\nc", 2, 3, 5),
];

#[test]
fn newlines_words_and_bytes_are_counted(rt: HostRuntime) -> Result<(), Fail> {
    for (text, lines, words, bytes) in &TEXTS {
        let counts = count(text.as_bytes());
        assert_eq!(rt; counts.lines, *lines, "lines of {text:?}");
        assert_eq!(rt; counts.words, *words, "words of {text:?}");
        assert_eq!(rt; counts.bytes, *bytes, "bytes of {text:?}");
    }
    Ok(())
}

fn folded(alloc: Global, text: &str, width: usize) -> Result<Vec<u8>, AllocError> {
    let mut out = Vec::new(alloc);
    if width > 0 {
        fold(&mut out, text.as_bytes(), width)?;
    }
    Ok(out)
}

/// A width, a text, and the text that comes of it.
const FOLDS: [(usize, &str, &str); 10] = [
    (4, "abcdef\n", "abcd\nef\n"),
    (4, "abcd\n", "abcd\n"),
    (4, "abcdefgh\n", "abcd\nefgh\n"),
    (4, "abcdefghi", "abcd\nefgh\ni\n"),
    (1, "abc\n", "a\nb\nc\n"),
    (80, "abc", "abc\n"),
    (2, "", ""),
    (2, "\n\n", "\n\n"),
    (2, "abc\nd\n", "ab\nc\nd\n"),
    (3, "a\tbc\n", "a\tb\nc\n"),
];

#[test]
fn lines_are_cut_after_the_width(rt: HostRuntime) -> Result<(), Fail> {
    for (width, text, wanted) in &FOLDS {
        let out = folded(rt.alloc(), text, *width)?;
        assert_eq!(rt; out.as_slice(), wanted.as_bytes(), "{width} of {text:?}");
    }
    Ok(())
}

/// Which counts are chosen, a name, and the line of 12 newlines, 0 words and 345 bytes.
const LINES: [(bool, bool, bool, Option<&str>, &str); 8] = [
    (false, false, false, None, "12 0 345\n"),
    (true, true, true, None, "12 0 345\n"),
    (true, false, false, None, "12\n"),
    (false, true, false, None, "0\n"),
    (false, false, true, Some("f"), "345 f\n"),
    (true, false, true, Some("a b"), "12 345 a b\n"),
    (false, true, true, Some(""), "0 345 \n"),
    (true, true, false, Some("-"), "12 0 -\n"),
];

#[test]
fn chosen_counts_make_a_line(rt: HostRuntime) -> Result<(), Fail> {
    for (lines, words, bytes, name, wanted) in &LINES {
        let chosen = Chosen {
            lines: *lines,
            words: *words,
            bytes: *bytes,
        };
        let counts = Counts {
            lines: 12,
            words: 0,
            bytes: 345,
        };
        let mut out = Vec::new(rt.alloc());
        write_counts(&mut out, &chosen, &counts, name.map(|name| name.as_bytes()))?;
        assert_eq!(rt; out.as_slice(), wanted.as_bytes(), "{wanted:?}");
    }
    Ok(())
}

/// A list, a text, and the bytes that it selects.
const BYTES: [(&str, &str, &str); 12] = [
    ("1", "abc\n", "a\n"),
    ("2-", "abc\nd\n", "bc\n\n"),
    ("-2", "abc\n", "ab\n"),
    ("3,1", "abc\n", "ac\n"),
    ("2-3 1", "abcd", "abc\n"),
    ("1-3,2-4", "abcdef\n", "abcd\n"),
    ("2-9,3", "abcd\n", "bcd\n"),
    ("5", "ab\n", "\n"),
    ("1,1,1", "ab\n", "a\n"),
    ("002-0003", "abcd\n", "bc\n"),
    ("2-99999999999999999999999\t1", "abc\n", "abc\n"),
    (
        "99999999999999999999998-99999999999999999999999",
        "ab\n",
        "\n",
    ),
];

#[test]
fn lists_select_bytes(rt: HostRuntime) -> Result<(), Fail> {
    for (list, text, wanted) in &BYTES {
        let selection = read_list(rt.alloc(), list.as_bytes())?;
        let mut out = Vec::new(rt.alloc());
        cut_bytes(&mut out, text.as_bytes(), &selection)?;
        assert_eq!(rt; out.as_slice(), wanted.as_bytes(), "{list} of {text:?}");
    }
    Ok(())
}

const BAD_LISTS: [&str; 14] = [
    "",
    "0",
    "-",
    "a",
    "1,",
    ",1",
    "1,,2",
    "1, 2",
    "3-2",
    "0-3",
    "-0",
    "1-2-3",
    "+1",
    "18446744073709551617-18446744073709551616",
];

#[test]
fn bad_lists_are_refused(rt: HostRuntime) -> Result<(), Fail> {
    for list in &BAD_LISTS {
        let bad = matches!(
            read_list(rt.alloc(), list.as_bytes()),
            Err(TextErr::BadList)
        );
        assert!(rt; bad, "{list:?}");
    }
    Ok(())
}

/// Two counts, and their sum.
const SUMS: [(u128, u128, u128); 4] = [
    (0, 0, 0),
    (1, 2, 3),
    (18_446_744_073_709_551_615, 1, 18_446_744_073_709_551_616),
    (u128::MAX, 1, u128::MAX),
];

fn counts_of(n: u128) -> Counts {
    Counts {
        lines: n,
        words: n,
        bytes: n,
    }
}

#[test]
fn counts_are_summed(rt: HostRuntime) -> Result<(), Fail> {
    for (a, b, wanted) in &SUMS {
        let both = sum(&counts_of(*a), &counts_of(*b));
        assert_eq!(rt; both, counts_of(*wanted), "{a} and {b}");
    }
    Ok(())
}

/// A list, whether only lines with the delimiter `:` are wanted, a text, and the fields that it selects.
const FIELDS: [(&str, bool, &str, &str); 8] = [
    ("2", false, "a:b:c\n", "b\n"),
    ("3,1", false, "a:b:c\n", "a:c\n"),
    ("2-", false, "a:b:c", "b:c\n"),
    ("-2,4", false, "a::c\n", "a:\n"),
    ("5", false, "a:b\n", "\n"),
    ("2", false, "ab\nc:d\n", "ab\nd\n"),
    ("2", true, "ab\nc:d\n\n", "d\n"),
    ("1,3", false, ":::\n:\n", ":\n\n"),
];

#[test]
fn lists_select_fields(rt: HostRuntime) -> Result<(), Fail> {
    for (list, only, text, wanted) in &FIELDS {
        let selection = read_list(rt.alloc(), list.as_bytes())?;
        let mut out = Vec::new(rt.alloc());
        cut_fields(&mut out, text.as_bytes(), &selection, b':', *only)?;
        assert_eq!(rt; out.as_slice(), wanted.as_bytes(), "{list} of {text:?}");
    }
    Ok(())
}

/// A list of delimiters, columns, where none is standard input, its text, and the rows.
const PASTES: [(&str, &[Option<&str>], &str, &str); 10] = [
    (":", &[Some("1\n2\n"), Some("x\n")], "", "1:x\n2:\n"),
    (
        ":;",
        &[Some("a\nb"), Some("c"), Some("d\ne\n")],
        "",
        "a:c;d\nb:;e\n",
    ),
    (
        ":;",
        &[Some("1"), Some("2"), Some("3"), Some("4")],
        "",
        "1:2;3:4\n",
    ),
    (
        "\\t\\n",
        &[Some("a"), Some("b"), Some("c")],
        "",
        "a\tb\nc\n",
    ),
    ("\\0\\\\", &[Some("a"), Some("b"), Some("c")], "", "ab\\c\n"),
    (":", &[None, None], "1\n2\n3\n", "1:2\n3:\n"),
    (
        ":",
        &[None, Some("x\ny\nz\n"), None],
        "1\n2\n3",
        "1:x:2\n3:y:\n:z:\n",
    ),
    (":", &[Some("x\n")], "1\n2\n", "x\n"),
    (":", &[Some(""), Some("")], "", ""),
    (":", &[Some("a"), Some("\n\n")], "", "a:\n:\n"),
];

fn column(alloc: Global, text: Option<&str>) -> Result<Column, AllocError> {
    match text {
        Some(text) => Ok(Column::File(Unread::new(Text::from_slice(alloc, text.as_bytes())?))),
        None => Ok(Column::Input),
    }
}

fn columns(alloc: Global, texts: &[Option<&str>]) -> Result<Vec<Column>, AllocError> {
    let mut columns = Vec::new(alloc);
    for text in texts {
        columns.push(column(alloc, *text)?)?;
    }
    Ok(columns)
}

#[test]
fn lines_are_joined_side_by_side(rt: HostRuntime) -> Result<(), Fail> {
    let alloc = rt.alloc();
    for (list, texts, input, wanted) in &PASTES {
        let delimiters = read_delimiters(alloc, list.as_bytes())?;
        let mut columns = columns(alloc, texts)?;
        let mut input = Unread::new(Text::from_slice(alloc, input.as_bytes())?);
        let mut out = Vec::new(alloc);
        paste(&mut out, columns.as_mut_slice(), &mut input, &delimiters)?;
        assert_eq!(rt; out.as_slice(), wanted.as_bytes(), "{wanted:?}");
    }
    Ok(())
}

/// A list of delimiters, a text, and its lines joined.
const SERIALS: [(&str, &str, &str); 4] = [
    (":", "a\nb\nc\n", "a:b:c\n"),
    (":;", "a\nb\n\nd", "a:b;:d\n"),
    ("\\0", "a\nb\n", "ab\n"),
    (":", "", "\n"),
];

#[test]
fn lines_are_joined_to_one(rt: HostRuntime) -> Result<(), Fail> {
    for (list, text, wanted) in &SERIALS {
        let delimiters = read_delimiters(rt.alloc(), list.as_bytes())?;
        let mut out = Vec::new(rt.alloc());
        paste_serial(&mut out, text.as_bytes(), &delimiters)?;
        assert_eq!(rt; out.as_slice(), wanted.as_bytes(), "{text:?}");
    }
    Ok(())
}

const BAD_DELIMITERS: [&str; 4] = ["", "\\", "\\a", "a\\"];

#[test]
fn bad_delimiters_are_refused(rt: HostRuntime) -> Result<(), Fail> {
    for list in &BAD_DELIMITERS {
        let bad = matches!(
            read_delimiters(rt.alloc(), list.as_bytes()),
            Err(TextErr::BadList)
        );
        assert!(rt; bad, "{list:?}");
    }
    Ok(())
}
