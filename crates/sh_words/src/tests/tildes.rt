//! Tildes (POSIX.1-2017, XCU 2.6.1).

use crate::tests::{Becomes, Has, Row, first_wrong};
use sh_param::Context;
use std::test::Fail;

const HOME: &[Has<'static>] = &[Has::Var("HOME", "/h")];

const TILDES: [Row<'static>; 13] = [
    ("~ ~/a ~/", HOME, Becomes::Fields(&["/h", "/h/a", "/h/"])),
    (
        "a~ \"~\" \\~ ~a ~+",
        HOME,
        Becomes::Fields(&["a~", "~", "~", "~a", "~+"]),
    ),
    (
        "~\"/a\" '~'/a ~\"\" ~\\/a",
        HOME,
        Becomes::Fields(&["~/a", "~/a", "~", "~/a"]),
    ),
    (
        "~/~ ~~ ~:~ a=~ :~",
        HOME,
        Becomes::Fields(&["/h/~", "~~", "~:~", "a=~", ":~"]),
    ),
    (
        "~$s ~${u} \"$@\"~",
        &[Has::Var("HOME", "/h"), Has::Var("s", "/a")],
        Becomes::Fields(&["~/a", "~", "~"]),
    ),
    ("~ ~/a", &[], Becomes::Fields(&["~", "~/a"])),
    (
        "~ ~/a",
        &[Has::Var("HOME", "")],
        Becomes::Fields(&["", "/a"]),
    ),
    (
        "~ ~/c",
        &[Has::Var("HOME", "a  *"), Has::File("a  b")],
        Becomes::Fields(&["a  *", "a  */c"]),
    ),
    (
        "${u-~} ${u:-~/a} x${u-~}",
        HOME,
        Becomes::Fields(&["/h", "/h/a", "x/h"]),
    ),
    (
        "\"${u-~}\" ${u-\"~\"} ${u-\\~} ${u-a~}",
        HOME,
        Becomes::Fields(&["~", "~", "~", "a~"]),
    ),
    (
        "${u=~/a} $u ${u+~}${u:+x~}",
        HOME,
        Becomes::Fields(&["/h/a", "/h/a", "/hx~"]),
    ),
    (
        "${u-~}",
        &[Has::Var("HOME", "a b")],
        Becomes::Fields(&["a b"]),
    ),
    (
        "$x $((~0))",
        &[Has::Var("HOME", "/h"), Has::Var("x", "~")],
        Becomes::Fields(&["~", "-1"]),
    ),
];

#[test]
fn a_tilde_is_home(rt: HostRuntime) -> Result<(), Fail> {
    assert_eq!(rt; first_wrong(rt.alloc(), Context::Command, &TILDES)?, "");
    Ok(())
}
