//! Parameter expansions with an operator (POSIX.1-2017, XCU 2.6.2).

use crate::tests::{Becomes, Has, Row, first_wrong};
use sh_param::Context;
use std::test::Fail;

/// `x` has a value, `e` is null, and `u` is not set.
const STATE: &[Has<'static>] = &[Has::Var("x", "1"), Has::Var("e", "")];

const DOTS: &[Has<'static>] = &[
    Has::Var("x", "a.b.c"),
    Has::Var("p", "*"),
    Has::Var("y", "[x]"),
    Has::Var("s", "a*"),
    Has::Var("HOME", "a"),
];

const VALUES: [Row<'static>; 12] = [
    ("${x-w} ${e-w} ${u-w}", STATE, Becomes::Fields(&["1", "w"])),
    (
        "${x:-w} ${e:-w} ${u:-w}",
        STATE,
        Becomes::Fields(&["1", "w", "w"]),
    ),
    (
        "${x=w} ${e=w} ${u=w} $u",
        STATE,
        Becomes::Fields(&["1", "w", "w"]),
    ),
    (
        "${x:=w} ${e:=w} ${u:=w} $e$u",
        STATE,
        Becomes::Fields(&["1", "w", "w", "ww"]),
    ),
    (
        "${x?w} ${x:?w} \"${e?w}\"",
        STATE,
        Becomes::Fields(&["1", "1", ""]),
    ),
    ("${x+w} ${e+w} ${u+w}", STATE, Becomes::Fields(&["w", "w"])),
    ("${x:+w} ${e:+w} ${u:+w}", STATE, Becomes::Fields(&["w"])),
    (
        "\"${x:+w}\" \"${e:+w}\" \"${u+w}\"",
        STATE,
        Becomes::Fields(&["w", "", ""]),
    ),
    (
        "${u-} \"${u-}\" \"${u:-}\" $u",
        STATE,
        Becomes::Fields(&["", ""]),
    ),
    ("${u-${x:-w}}${u:-${e:-v}}", STATE, Becomes::Fields(&["1v"])),
    (
        "${a:-${b:-\"c d\"}} ${a:-${b:-c d}}",
        &[],
        Becomes::Fields(&["c d", "c", "d"]),
    ),
    (
        "${x+${u-${e:+w}}}${x:+${x}}",
        STATE,
        Becomes::Fields(&["1"]),
    ),
];

#[test]
fn words_stand_for_values(rt: HostRuntime) -> Result<(), Fail> {
    assert_eq!(rt; first_wrong(rt.alloc(), Context::Command, &VALUES)?, "");
    Ok(())
}

const QUOTING: [Row<'static>; 12] = [
    ("${u:=a b} \"$u\"", &[], Becomes::Fields(&["a", "b", "a b"])),
    (
        "${u:=\"a b\"} \"${v:=a  b}\"",
        &[],
        Becomes::Fields(&["a", "b", "a  b"]),
    ),
    (
        "${u:-\"a b\"}c ${u:-a b}c",
        &[],
        Becomes::Fields(&["a bc", "a", "bc"]),
    ),
    (
        "${u:-'a b'} ${u:-a\\ b}",
        &[],
        Becomes::Fields(&["a b", "a b"]),
    ),
    (
        "\"${u:-a  b}\" x\"${u:-}\"y",
        &[],
        Becomes::Fields(&["a  b", "xy"]),
    ),
    (
        "\"${u:-'a b'}\" ${u-'}'} ${u-\"}\"}",
        &[],
        Becomes::Fields(&["'a b'", "}", "}"]),
    ),
    (
        "\"${u-\"a b\"}\" \"${u-\\}}\" ${u-\\}}",
        &[],
        Becomes::Fields(&["a b", "}", "}"]),
    ),
    (
        "\"${u-a\\b}\" ${u-a\\b} \"${u-\\\"}\"",
        &[],
        Becomes::Fields(&["a\\b", "ab", "\""]),
    ),
    (
        "${u-\"\"} ${u-} \"${u-}\" ${u+\"\"}",
        &[],
        Becomes::Fields(&["", ""]),
    ),
    (
        "${u-$x$x}$u ${u-\"$x\"b}",
        &[Has::Var("x", "a b")],
        Becomes::Fields(&["a", "ba", "b", "a bb"]),
    ),
    (
        "\"${u-$@}\" ${1+\"$@\"}",
        &[Has::Params(&["a b", ""])],
        Becomes::Fields(&["a b", "", "a b", ""]),
    ),
    (
        "${u-\"$*\"} ${u-$*} ${1+\"$@\"}x",
        &[Has::Params(&["a b", "c"])],
        Becomes::Fields(&["a b c", "a", "b", "c", "a b", "cx"]),
    ),
];

#[test]
fn words_are_quoted_or_not(rt: HostRuntime) -> Result<(), Fail> {
    assert_eq!(rt; first_wrong(rt.alloc(), Context::Command, &QUOTING)?, "");
    Ok(())
}

const TRIMS: [Row<'static>; 12] = [
    (
        "${x%.*} ${x%%.*} ${x#*.} ${x##*.}",
        DOTS,
        Becomes::Fields(&["a.b", "a", "b.c", "c"]),
    ),
    (
        "${x%.} ${x#b} ${x%} ${x##}",
        DOTS,
        Becomes::Fields(&["a.b.c", "a.b.c", "a.b.c", "a.b.c"]),
    ),
    (
        "${x#?} ${x#[ab].} ${x#[!b].} ${x%%[.]*}",
        DOTS,
        Becomes::Fields(&[".b.c", "b.c", "b.c", "a"]),
    ),
    (
        "${s%\"*\"} ${s%\\*} ${s%'*'}b",
        DOTS,
        Becomes::Fields(&["a", "a", "ab"]),
    ),
    (
        "\"${x%'.c'}\" \"${x%\".c\"}\" \"${x%\\.c}\"",
        DOTS,
        Becomes::Fields(&["a.b", "a.b", "a.b"]),
    ),
    (
        "${x%%$p} \"${x%%$p}\" ${x%%\"$p\"} ${s%\"$p\"}",
        DOTS,
        Becomes::Fields(&["", "a.b.c", "a"]),
    ),
    (
        "${y#[} ${y#\"[\"} ${y%]} ${y#[[]}",
        DOTS,
        Becomes::Fields(&["x]", "x]", "[x", "x]"]),
    ),
    (
        "${x#~} ${x#\"~\"} ${x#${x%c}}",
        DOTS,
        Becomes::Fields(&[".b.c", "a.b.c", "c"]),
    ),
    (
        "\"${u%x}\" ${u%%x} ${1##*/} ${1%/*}",
        &[Has::Params(&["/usr/lib"])],
        Becomes::Fields(&["", "lib", "/usr"]),
    ),
    (
        "\"${u%${u:=ab}}\" $u ${u%${v:=b}}$v",
        &[],
        Becomes::Fields(&["", "ab", "ab"]),
    ),
    (
        "${@%b} \"${@#a}\"",
        &[Has::Params(&["ab", "bb"])],
        Becomes::Fields(&["a", "b", "b", "bb"]),
    ),
    (
        "\"${*#a}\" \"${*%%?}\"",
        &[Has::Params(&["ab", "ac"]), Has::Var("IFS", ":")],
        Becomes::Fields(&["b:c", "a:a"]),
    ),
];

#[test]
fn prefixes_and_suffixes_are_removed(rt: HostRuntime) -> Result<(), Fail> {
    assert_eq!(rt; first_wrong(rt.alloc(), Context::Command, &TRIMS)?, "");
    Ok(())
}

const LENGTHS: [Row<'static>; 4] = [
    (
        "${#x} ${#e} ${#u} \"${#x}\"",
        &[Has::Var("x", "a b\n"), Has::Var("e", "")],
        Becomes::Fields(&["4", "0", "0", "4"]),
    ),
    (
        "${#1} ${#2} ${#3} \"${#4}\"",
        &[Has::Params(&["a b", ""])],
        Becomes::Fields(&["3", "0", "0", "0"]),
    ),
    (
        "${#10} ${#} ${##} ${#-} ${#?}",
        &[Has::Params(&["1", "2", "3", "4", "5", "6", "7", "8", "9", "abc"])],
        Becomes::Fields(&["3", "10", "10", "10", "10"]),
    ),
    ("a${#x}b", &[Has::Var("x", "é")], Becomes::Fields(&["a2b"])),
];

#[test]
fn lengths_are_bytes(rt: HostRuntime) -> Result<(), Fail> {
    assert_eq!(rt; first_wrong(rt.alloc(), Context::Command, &LENGTHS)?, "");
    Ok(())
}

const MESSAGES: [Row<'static>; 10] = [
    ("a ${u?w}", &[], Becomes::Message("hs: u: w\n")),
    (
        "${x:?no  \"$u\" here}",
        &[Has::Var("x", ""), Has::Var("u", "a  b")],
        Becomes::Message("hs: x: no  a  b here\n"),
    ),
    (
        "${u?} ${v?w}",
        &[],
        Becomes::Message("hs: u: parameter not set\n"),
    ),
    (
        "\"${1:?}\"",
        &[Has::Params(&[""])],
        Becomes::Message("hs: 1: parameter not set\n"),
    ),
    (
        "\"${u?a $@ b}\"",
        &[Has::Params(&["1", "2"])],
        Becomes::Message("hs: u: a 1 2 b\n"),
    ),
    ("${1=w}", &[], Becomes::Message("hs: 1: cannot assign\n")),
    (
        "${1=w}",
        &[Has::Params(&["a"])],
        Becomes::Message("hs: 1: cannot assign\n"),
    ),
    (
        "${u:=w}${@:=w}",
        &[],
        Becomes::Message("hs: @: cannot assign\n"),
    ),
    (
        "${x:=w}",
        &[Has::ReadOnly("x", "")],
        Becomes::Message("hs: x: is read only\n"),
    ),
    (
        "${u-$((1/0))}",
        &[],
        Becomes::Message("hs: division by zero\n"),
    ),
];

#[test]
fn messages_say_why_there_is_no_value(rt: HostRuntime) -> Result<(), Fail> {
    assert_eq!(rt; first_wrong(rt.alloc(), Context::Command, &MESSAGES)?, "");
    Ok(())
}
