//! Positional and special parameters (POSIX.1-2017, XCU 2.5.1 and 2.5.2).

use crate::tests::{Becomes, Has, Row, first_wrong};
use sh_param::Context;
use std::test::Fail;

const THREE: &[Has<'static>] = &[Has::Params(&["a b", "", "c"])];

const EACH: [Row<'static>; 11] = [
    ("\"$@\"", THREE, Becomes::Fields(&["a b", "", "c"])),
    (
        "$@ ${@}",
        THREE,
        Becomes::Fields(&["a", "b", "c", "a", "b", "c"]),
    ),
    (
        "$* ${*}",
        THREE,
        Becomes::Fields(&["a", "b", "c", "a", "b", "c"]),
    ),
    ("x\"$@\"y", THREE, Becomes::Fields(&["xa b", "", "cy"])),
    ("\"x$@y\"", THREE, Becomes::Fields(&["xa b", "", "cy"])),
    (
        "x$@y x$*y",
        &[Has::Params(&["", "a", ""])],
        Becomes::Fields(&["x", "a", "y", "x", "a", "y"]),
    ),
    (
        "\"$@$@\" \"$@\"\"$@\"",
        &[Has::Params(&["a", "b"])],
        Becomes::Fields(&["a", "ba", "b", "a", "ba", "b"]),
    ),
    (
        "\"$@\" x\"$@\"y $@",
        &[Has::Params(&["a  b"])],
        Becomes::Fields(&["a  b", "xa  by", "a", "b"]),
    ),
    (
        "$@ x$*y",
        &[Has::Params(&["a:b", "c d"]), Has::Var("IFS", ":")],
        Becomes::Fields(&["a", "b", "c d", "xa", "b", "c dy"]),
    ),
    (
        "$@ $* x$@y",
        &[Has::Params(&["a b", "", "c"]), Has::Var("IFS", "")],
        Becomes::Fields(&["a b", "c", "a b", "c", "xa b", "cy"]),
    ),
    (
        "\"$@\"$x",
        &[Has::Params(&["a", "b "]), Has::Var("x", " c")],
        Becomes::Fields(&["a", "b ", "c"]),
    ),
];

#[test]
fn each_parameter_is_a_field(rt: HostRuntime) -> Result<(), Fail> {
    assert_eq!(rt; first_wrong(rt.alloc(), Context::Command, &EACH)?, "");
    Ok(())
}

const ABSENT: [Row<'static>; 10] = [
    ("\"$@\" $@ $*", &[], Becomes::Fields(&[])),
    (
        "x\"$@\" \"$@\"y \"x$@\"",
        &[],
        Becomes::Fields(&["x", "y", "x"]),
    ),
    (
        "\"$@\"'' \"$@\"\"\" \"\"$@",
        &[],
        Becomes::Fields(&["", "", ""]),
    ),
    ("\"$*\" \"$*$*\"", &[], Becomes::Fields(&["", ""])),
    (
        "\"$@$u\" \"$@$@\" \"${@}\"",
        &[],
        Becomes::Fields(&["", ""]),
    ),
    ("$@$u $u\"$@\"", &[], Becomes::Fields(&[])),
    ("\"$@\"", &[Has::Params(&[""])], Becomes::Fields(&[""])),
    (
        "$@ \"$*\" $1",
        &[Has::Params(&["", ""])],
        Becomes::Fields(&[" "]),
    ),
    (
        "${1+\"$@\"} ${@-w} ${@:-w} ${*:-v}",
        &[],
        Becomes::Fields(&["w", "v"]),
    ),
    (
        "${@:-w} ${@:+w} ${@+v}",
        &[Has::Params(&["", ""])],
        Becomes::Fields(&["w", "v"]),
    ),
];

#[test]
fn no_parameter_is_no_field(rt: HostRuntime) -> Result<(), Fail> {
    assert_eq!(rt; first_wrong(rt.alloc(), Context::Command, &ABSENT)?, "");
    Ok(())
}

const JOINED: [Row<'static>; 9] = [
    (
        "\"$*\" \"x$*y\"",
        THREE,
        Becomes::Fields(&["a b  c", "xa b  cy"]),
    ),
    (
        "\"$*\"",
        &[Has::Params(&["a", "", "c"]), Has::Var("IFS", ":,")],
        Becomes::Fields(&["a::c"]),
    ),
    (
        "\"$*\" \"$@\"",
        &[Has::Params(&["a b", "c"]), Has::Var("IFS", "")],
        Becomes::Fields(&["a bc", "a b", "c"]),
    ),
    (
        "\"$*\" $*",
        &[Has::Params(&["a:b", "c"]), Has::Var("IFS", ": ")],
        Becomes::Fields(&["a:b:c", "a", "b", "c"]),
    ),
    (
        "\"$*\" \"${*}\"",
        &[Has::Params(&["a"]), Has::Var("IFS", ":")],
        Becomes::Fields(&["a", "a"]),
    ),
    (
        "\"${u-$*}\" ${u-\"$*\"}",
        &[Has::Params(&["a", "b"]), Has::Var("IFS", "-")],
        Becomes::Fields(&["a-b", "a-b"]),
    ),
    (
        "${u=$*} \"$u\"",
        &[Has::Params(&["a", "b"]), Has::Var("IFS", "-")],
        Becomes::Fields(&["a", "b", "a-b"]),
    ),
    (
        "${u=\"$@\"} \"$u\"",
        &[Has::Params(&["a b", "c"])],
        Becomes::Fields(&["a", "b", "c", "a b c"]),
    ),
    (
        "\"$*\" ${IFS:=:} \"$*\"",
        &[Has::Params(&["a", "b"]), Has::Var("IFS", "")],
        Becomes::Fields(&["ab", "", "a:b"]),
    ),
];

#[test]
fn parameters_are_joined_by_ifs(rt: HostRuntime) -> Result<(), Fail> {
    assert_eq!(rt; first_wrong(rt.alloc(), Context::Command, &JOINED)?, "");
    Ok(())
}

const NUMBERED: [Row<'static>; 10] = [
    (
        "$1-$2-$3 ${3}${4} \"${4}\"",
        THREE,
        Becomes::Fields(&["a", "b--c", "c", ""]),
    ),
    (
        "$10 ${10} ${11-w} \"${9}\"",
        &[Has::Params(&["a", "b", "c", "d", "e", "f", "g", "h", "", "j"])],
        Becomes::Fields(&["a0", "j", "w", ""]),
    ),
    ("$# ${#} \"$#\"", THREE, Becomes::Fields(&["3", "3", "3"])),
    ("$# x$#y", &[], Becomes::Fields(&["0", "x0y"])),
    (
        "$? \"$?\" ${?}${?+w}",
        &[Has::Status(7)],
        Becomes::Fields(&["7", "7", "7w"]),
    ),
    ("$?", &[], Becomes::Fields(&["0"])),
    (
        "$0 \"${0}\" ${0%h}",
        &[Has::Params(&["a"])],
        Becomes::Fields(&["sh", "sh", "s"]),
    ),
    (
        "${3-w} ${4-w} ${2-w}${2:-w}",
        THREE,
        Becomes::Fields(&["c", "w", "w"]),
    ),
    (
        "$1$2$3",
        &[Has::Params(&["*", "$x", "'"])],
        Becomes::Fields(&["*$x'"]),
    ),
    (
        "$#",
        &[
            Has::Params(&["1", "2", "3", "4", "5", "6", "7", "8", "9", "0"]),
            Has::Var("IFS", "0"),
        ],
        Becomes::Fields(&["1"]),
    ),
];

#[test]
fn numbers_name_parameters(rt: HostRuntime) -> Result<(), Fail> {
    assert_eq!(rt; first_wrong(rt.alloc(), Context::Command, &NUMBERED)?, "");
    Ok(())
}
