//! Field splitting, quotes and what is left of them (POSIX.1-2017, XCU 2.2, 2.6.5 and 2.6.7).

use crate::tests::{Becomes, Has, Row, first_wrong};
use sh_param::Context;
use std::test::Fail;

const WHITE: [Row<'static>; 9] = [
    (
        "$x",
        &[Has::Var("x", " a  b\tc\n\n")],
        Becomes::Fields(&["a", "b", "c"]),
    ),
    (
        "$x$y x$x",
        &[Has::Var("x", "a "), Has::Var("y", " b")],
        Becomes::Fields(&["a", "b", "xa"]),
    ),
    ("$x", &[Has::Var("x", " \t\n ")], Becomes::Fields(&[])),
    (
        "$x",
        &[Has::Var("x", " a\t "), Has::Var("IFS", " ")],
        Becomes::Fields(&["a\t"]),
    ),
    (
        "$x",
        &[Has::Var("x", "a b\nc"), Has::Var("IFS", "\n")],
        Becomes::Fields(&["a b", "c"]),
    ),
    (
        "\"$x\" a\"$x\"b",
        &[Has::Var("x", " a  b ")],
        Becomes::Fields(&[" a  b ", "a a  b b"]),
    ),
    (
        "a$x\"b\"$x",
        &[Has::Var("x", " ")],
        Becomes::Fields(&["a", "b"]),
    ),
    (
        "$x''\\'\\'$x\"\" \"\"$x\"\"",
        &[Has::Var("x", " ")],
        Becomes::Fields(&["''", "", "", ""]),
    ),
    (
        "${x#a}b a${x%c}",
        &[Has::Var("x", "a b c")],
        Becomes::Fields(&["b", "cb", "aa", "b"]),
    ),
];

#[test]
fn white_space_parts_fields(rt: HostRuntime) -> Result<(), Fail> {
    assert_eq!(rt; first_wrong(rt.alloc(), Context::Command, &WHITE)?, "");
    Ok(())
}

const OTHERS: [Row<'static>; 10] = [
    (
        "$x",
        &[Has::Var("x", "a::b:"), Has::Var("IFS", ":")],
        Becomes::Fields(&["a", "", "b"]),
    ),
    (
        "$x",
        &[Has::Var("x", ":a"), Has::Var("IFS", ":")],
        Becomes::Fields(&["", "a"]),
    ),
    (
        "$x a$x",
        &[Has::Var("x", ":"), Has::Var("IFS", ":")],
        Becomes::Fields(&["", "a"]),
    ),
    (
        "$x$y",
        &[
            Has::Var("x", "a:"),
            Has::Var("y", ":b"),
            Has::Var("IFS", ":"),
        ],
        Becomes::Fields(&["a", "", "b"]),
    ),
    (
        "$x",
        &[Has::Var("x", "a:b c"), Has::Var("IFS", ":")],
        Becomes::Fields(&["a", "b c"]),
    ),
    (
        "$x",
        &[Has::Var("x", "abc"), Has::Var("IFS", "b")],
        Becomes::Fields(&["a", "c"]),
    ),
    (
        "a:b$x\"d:e\"",
        &[Has::Var("x", ":c:"), Has::Var("IFS", ":")],
        Becomes::Fields(&["a:b", "c", "d:e"]),
    ),
    (
        "$((101)) $((-1)) \"$((101))\"",
        &[Has::Var("IFS", "0-")],
        Becomes::Fields(&["1", "1", "", "1", "101"]),
    ),
    (
        "$x$x",
        &[Has::Var("x", "a"), Has::Var("IFS", "a")],
        Becomes::Fields(&["", ""]),
    ),
    (
        "${u-a:b} ${u-\"a:b\"} ${u-a\\:b} ${u-a':'b}",
        &[Has::Var("IFS", ":")],
        Becomes::Fields(&["a", "b", "a:b", "a:b", "a:b"]),
    ),
];

#[test]
fn other_bytes_end_fields(rt: HostRuntime) -> Result<(), Fail> {
    assert_eq!(rt; first_wrong(rt.alloc(), Context::Command, &OTHERS)?, "");
    Ok(())
}

const MIXED: [Row<'static>; 8] = [
    (
        "$x",
        &[Has::Var("x", " a : b :: c "), Has::Var("IFS", " :")],
        Becomes::Fields(&["a", "b", "", "c"]),
    ),
    (
        "$x",
        &[Has::Var("x", "a : : b"), Has::Var("IFS", ": ")],
        Becomes::Fields(&["a", "", "b"]),
    ),
    (
        "$x",
        &[Has::Var("x", " : a"), Has::Var("IFS", ": ")],
        Becomes::Fields(&["", "a"]),
    ),
    (
        "$x",
        &[Has::Var("x", "a b:c  :d"), Has::Var("IFS", " :")],
        Becomes::Fields(&["a", "b", "c", "d"]),
    ),
    (
        "$x",
        &[Has::Var("x", "a\t:\tb"), Has::Var("IFS", ":")],
        Becomes::Fields(&["a\t", "\tb"]),
    ),
    (
        "$x",
        &[Has::Var("x", "a \n, b,\t"), Has::Var("IFS", ", ")],
        Becomes::Fields(&["a", "\n", "b", "\t"]),
    ),
    (
        "$x$y",
        &[
            Has::Var("x", "a "),
            Has::Var("y", ": b"),
            Has::Var("IFS", ": "),
        ],
        Becomes::Fields(&["a", "b"]),
    ),
    (
        "$x\"\"$y",
        &[
            Has::Var("x", "a:"),
            Has::Var("y", ":b"),
            Has::Var("IFS", ":"),
        ],
        Becomes::Fields(&["a", "", "b"]),
    ),
];

#[test]
fn delimiters_take_white_space(rt: HostRuntime) -> Result<(), Fail> {
    assert_eq!(rt; first_wrong(rt.alloc(), Context::Command, &MIXED)?, "");
    Ok(())
}

const CHANGED: [Row<'static>; 5] = [
    (
        "$x \"$x\"",
        &[Has::Var("x", " a b "), Has::Var("IFS", "")],
        Becomes::Fields(&[" a b ", " a b "]),
    ),
    (
        "$x$e",
        &[Has::Var("x", ""), Has::Var("e", ""), Has::Var("IFS", "")],
        Becomes::Fields(&[]),
    ),
    (
        "$x ${IFS:=:}",
        &[Has::Var("x", "a:b"), Has::Var("IFS", "")],
        Becomes::Fields(&["a", "b", ""]),
    ),
    (
        "${u-a b} ${u-\"a b\"}",
        &[Has::Var("IFS", "")],
        Becomes::Fields(&["a b", "a b"]),
    ),
    (
        "$x",
        &[Has::Var("x", "a  b"), Has::Var("IFS", "b")],
        Becomes::Fields(&["a  "]),
    ),
];

#[test]
fn what_ifs_is_counts(rt: HostRuntime) -> Result<(), Fail> {
    assert_eq!(rt; first_wrong(rt.alloc(), Context::Command, &CHANGED)?, "");
    Ok(())
}

const QUOTES: [Row<'static>; 8] = [
    (
        "'a b' \"c d\" e\\ f",
        &[],
        Becomes::Fields(&["a b", "c d", "e f"]),
    ),
    (
        "\\'\"a\"b'c'\"'\" '\"' ",
        &[],
        Becomes::Fields(&["'abc'", "\""]),
    ),
    (
        "\"\\$x\\\"\\\\\\a\\`\"",
        &[],
        Becomes::Fields(&["$x\"\\\\a`"]),
    ),
    (
        "'\\' \\\\ \\'a \\a\\\"b'\\\\'",
        &[],
        Becomes::Fields(&["\\", "\\", "'a", "a\"b\\\\"]),
    ),
    (
        "$ \"$\" $% \"$%\" a$",
        &[],
        Becomes::Fields(&["$", "$", "$%", "$%", "a$"]),
    ),
    (
        "a\\\nb \"c\\\nd\" 'e\\\nf'",
        &[],
        Becomes::Fields(&["ab", "cd", "e\\\nf"]),
    ),
    (
        "$x $y \"$x\"",
        &[Has::Var("x", "a\\b\\\\"), Has::Var("y", "\"a b\" $x '")],
        Becomes::Fields(&["a\\b\\\\", "\"a", "b\"", "$x", "'", "a\\b\\\\"]),
    ),
    (
        "\"$x\"'$x'\\$x\"'$x'\"",
        &[Has::Var("x", "a b")],
        Becomes::Fields(&["a b$x$x'a b'"]),
    ),
];

#[test]
fn quotes_go(rt: HostRuntime) -> Result<(), Fail> {
    assert_eq!(rt; first_wrong(rt.alloc(), Context::Command, &QUOTES)?, "");
    Ok(())
}

const EMPTY: [Row<'static>; 6] = [
    (
        "$u $e \"$u\" \"$e\"",
        &[Has::Var("e", "")],
        Becomes::Fields(&["", ""]),
    ),
    (
        "'' \"\" ''\"\" $u'' ''$u",
        &[],
        Becomes::Fields(&["", "", "", "", ""]),
    ),
    (
        "\"\"$x\"\" $x\"\"",
        &[Has::Var("x", " a ")],
        Becomes::Fields(&["", "a", "", "a", ""]),
    ),
    ("\"$u$u\" $u$u $u\"$u\"", &[], Becomes::Fields(&["", ""])),
    (
        "${u-\"\"} ${u-} ${u:+\"\"} \"${u:+}\"",
        &[],
        Becomes::Fields(&["", ""]),
    ),
    ("\"\" $u \"a\"", &[], Becomes::Fields(&["", "a"])),
];

#[test]
fn nothing_is_a_field_where_it_is_quoted(rt: HostRuntime) -> Result<(), Fail> {
    assert_eq!(rt; first_wrong(rt.alloc(), Context::Command, &EMPTY)?, "");
    Ok(())
}
