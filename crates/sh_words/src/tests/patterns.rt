//! Pathname expansion (POSIX.1-2017, XCU 2.6.6 and 2.13.3).

use crate::tests::{Becomes, Has, Row, first_wrong};
use sh_param::Context;
use std::test::Fail;

/// Files at the root, in `d` and in `.e`; and some patterns.
const TREE: &[Has<'static>] = &[
    Has::File("b.c"),
    Has::File("a.c"),
    Has::File(".d.c"),
    Has::Dir("d"),
    Has::File("d/y.c"),
    Has::File("d/x"),
    Has::File("d/.z"),
    Has::Dir(".e"),
    Has::File(".e/w"),
    Has::Var("p", "*.c"),
    Has::Var("q", "\\*.c"),
    Has::Var("HOME", "/d"),
];

/// Files whose names are read with care.
const NAMES: &[Has<'static>] = &[
    Has::File("a-c"),
    Has::File("B1"),
    Has::File("[x"),
    Has::File("]x"),
    Has::File("*x"),
    Has::File("ax"),
    Has::File("b"),
    Has::Var("s", "\\*"),
    Has::Var("t", "\\**"),
    Has::Var("m", "a"),
    Has::Var("r", "[!a]"),
];

const PATTERNS: [Row<'static>; 11] = [
    ("*.c", TREE, Becomes::Fields(&["a.c", "b.c"])),
    ("* ?", TREE, Becomes::Fields(&["a.c", "b.c", "d", "d"])),
    (".*", TREE, Becomes::Fields(&[".d.c", ".e"])),
    (
        "?d.c [.]d.c *d.c .?.c",
        TREE,
        Becomes::Fields(&["?d.c", "[.]d.c", "*d.c", ".d.c"]),
    ),
    (
        "[ab].c [!a].c [a-b].[[:lower:]]",
        TREE,
        Becomes::Fields(&["a.c", "b.c", "b.c", "a.c", "b.c"]),
    ),
    (
        "\"*\".c \\*.c '*'.c \"*.c\" [a\"]\".c",
        TREE,
        Becomes::Fields(&["*.c", "*.c", "*.c", "*.c", "[a].c"]),
    ),
    (
        "\"a\".* a.c \\a.? \"?\".c",
        TREE,
        Becomes::Fields(&["a.c", "a.c", "a.c", "?.c"]),
    ),
    (
        "q* q*\"*\" \"q\"* q\\**",
        TREE,
        Becomes::Fields(&["q*", "q**", "q*", "q**"]),
    ),
    (
        "$p \"$p\" $p\"\" x$p",
        TREE,
        Becomes::Fields(&["a.c", "b.c", "*.c", "a.c", "b.c", "x*.c"]),
    ),
    (
        "${u-*.c} \"${u-*.c}\" ${u-\"*\".c} ${p}",
        TREE,
        Becomes::Fields(&["a.c", "b.c", "*.c", "*.c", "a.c", "b.c"]),
    ),
    (
        "$q \"$q\" $q*",
        TREE,
        Becomes::Fields(&["\\*.c", "\\*.c", "\\*.c*"]),
    ),
];

#[test]
fn patterns_become_paths(rt: HostRuntime) -> Result<(), Fail> {
    assert_eq!(rt; first_wrong(rt.alloc(), Context::Command, &PATTERNS)?, "");
    Ok(())
}

const SLASHES: [Row<'static>; 10] = [
    (
        "*/ */x d/* d/.*",
        TREE,
        Becomes::Fields(&["d/", "d/x", "d/x", "d/y.c", "d/.z"]),
    ),
    (
        "d//* ./*.c d/./x* /d/[x]",
        TREE,
        Becomes::Fields(&["d//x", "d//y.c", "./a.c", "./b.c", "d/./x", "/d/x"]),
    ),
    (
        "d/../*.c */.. */. */../a.c",
        TREE,
        Becomes::Fields(&["d/../a.c", "d/../b.c", "d/..", "d/.", "d/../a.c"]),
    ),
    (
        "*.c/ d*// *//x a.c/*",
        TREE,
        Becomes::Fields(&["*.c/", "d//", "d//x", "a.c/*"]),
    ),
    (
        ".*/ .?/* */w",
        TREE,
        Becomes::Fields(&[".e/", ".e/w", "*/w"]),
    ),
    (
        "*\"/\"x *\\/x \"d\"/[x\"]\"",
        TREE,
        Becomes::Fields(&["d/x", "d/x", "d/[x]"]),
    ),
    (
        "d/q* q/* */*/ /*",
        TREE,
        Becomes::Fields(&["d/q*", "q/*", "*/*/", "/a.c", "/b.c", "/d"]),
    ),
    (
        "~/* \"~\"/* ~/\"*\"",
        TREE,
        Becomes::Fields(&["/d/x", "/d/y.c", "~/*", "/d/*"]),
    ),
    (
        "* ../*.c /d/x* ../d/?",
        &[
            Has::Dir("d"),
            Has::File("a.c"),
            Has::File("d/y"),
            Has::File("d/x"),
            Has::In("d"),
        ],
        Becomes::Fields(&["x", "y", "../a.c", "/d/x", "../d/x", "../d/y"]),
    ),
    (
        "d[/]x d/x? *",
        &[Has::Dir("d"), Has::File("d/x")],
        Becomes::Fields(&["d[/]x", "d/x?", "d"]),
    ),
];

#[test]
fn slashes_part_patterns(rt: HostRuntime) -> Result<(), Fail> {
    assert_eq!(rt; first_wrong(rt.alloc(), Context::Command, &SLASHES)?, "");
    Ok(())
}

const BYTES: [Row<'static>; 7] = [
    (
        "*",
        NAMES,
        Becomes::Fields(&["*x", "B1", "[x", "]x", "a-c", "ax", "b"]),
    ),
    (
        "[a-b] [[:upper:]]* ?[0-9]",
        NAMES,
        Becomes::Fields(&["b", "B1", "B1"]),
    ),
    (
        "a[a\"-\"z]c a[a-z] [*]x \\*?",
        NAMES,
        Becomes::Fields(&["a-c", "ax", "*x", "*x"]),
    ),
    (
        "[[]x []]x [!]a]x",
        NAMES,
        Becomes::Fields(&["[x", "]x", "*x", "[x"]),
    ),
    (
        "$s $t \"$t\" [$m]x",
        NAMES,
        Becomes::Fields(&["\\*", "*x", "\\**", "ax"]),
    ),
    (
        "${r}x [!a$m]x [\"!\"a]x",
        NAMES,
        Becomes::Fields(&["*x", "[x", "]x", "*x", "[x", "]x", "ax"]),
    ),
    (
        "[x [z [b-a]* [!b-a]",
        NAMES,
        Becomes::Fields(&["[x", "[z", "[b-a]*", "b"]),
    ),
];

#[test]
fn bytes_are_matched_and_sorted(rt: HostRuntime) -> Result<(), Fail> {
    assert_eq!(rt; first_wrong(rt.alloc(), Context::Command, &BYTES)?, "");
    Ok(())
}

const SPLIT: [Row<'static>; 8] = [
    (
        "$x",
        &[Has::File("a"), Has::File("b c"), Has::Var("x", "? q* b*")],
        Becomes::Fields(&["a", "q*", "b c"]),
    ),
    (
        "$@ \"$@\"",
        &[Has::File("a"), Has::File("b"), Has::Params(&["*", "?c"])],
        Becomes::Fields(&["a", "b", "?c", "*", "?c"]),
    ),
    (
        "$x*$x",
        &[Has::File("a"), Has::File("b"), Has::Var("x", "")],
        Becomes::Fields(&["a", "b"]),
    ),
    (
        "\"$*\" $*",
        &[
            Has::File("a:b"),
            Has::Params(&["a", "*"]),
            Has::Var("IFS", ":"),
        ],
        Becomes::Fields(&["a:*", "a", "a:b"]),
    ),
    (
        "${u:=*} \"$u\"",
        &[Has::File("a"), Has::File("b")],
        Becomes::Fields(&["a", "b", "*"]),
    ),
    (
        "* \"*\" $x",
        &[Has::File("a"), Has::Var("x", "*"), Has::NoGlob],
        Becomes::Fields(&["*", "*", "*"]),
    ),
    ("* .* */", &[], Becomes::Fields(&["*", ".*", "*/"])),
    (
        "${x%\"*\"} ${x%\\*}* $x",
        &[Has::File("ab"), Has::Var("x", "a*")],
        Becomes::Fields(&["a", "ab", "ab"]),
    ),
];

#[test]
fn fields_that_are_split_are_patterns(rt: HostRuntime) -> Result<(), Fail> {
    assert_eq!(rt; first_wrong(rt.alloc(), Context::Command, &SPLIT)?, "");
    Ok(())
}
