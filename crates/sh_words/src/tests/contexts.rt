//! Words that are not split into fields: of assignments, redirections and here-documents (POSIX.1-2017, XCU 2.7 and 2.9.1).

use crate::tests::{Becomes, Has, Row, first_wrong};
use sh_param::Context;
use std::test::Fail;

const HOME: &[Has<'static>] = &[
    Has::Var("HOME", "/h"),
    Has::Var("y", "a"),
    Has::Var("c", ":"),
];

const FILES: &[Has<'static>] = &[
    Has::File("a"),
    Has::File("b"),
    Has::Params(&["a b", "", "*"]),
    Has::Var("y", " a  * "),
];

const TILDES: [Row<'static>; 11] = [
    ("~", HOME, Becomes::Fields(&["/h"])),
    ("~:~/a", HOME, Becomes::Fields(&["/h:/h/a"])),
    ("a:~:b:~/c~", HOME, Becomes::Fields(&["a:/h:b:/h/c~"])),
    (":~:", HOME, Becomes::Fields(&[":/h:"])),
    ("a~:b/~:~b", HOME, Becomes::Fields(&["a~:b/~:~b"])),
    ("\"a:\"~", HOME, Becomes::Fields(&["a:~"])),
    ("a\\:~:\\~", HOME, Becomes::Fields(&["a:~:~"])),
    ("$y:~$c~:\"~\"", HOME, Becomes::Fields(&["a:~:~:~"])),
    ("$y:~:$c~:~", HOME, Becomes::Fields(&["a:/h::~:/h"])),
    ("~:~/a:", &[], Becomes::Fields(&["~:~/a:"])),
    ("${u-~}:${u-a}~", HOME, Becomes::Fields(&["/h:a~"])),
];

#[test]
fn tildes_stand_behind_colons_in_assignments(rt: HostRuntime) -> Result<(), Fail> {
    assert_eq!(rt; first_wrong(rt.alloc(), Context::Assign, &TILDES)?, "");
    Ok(())
}

const ASSIGNED: [Row<'static>; 10] = [
    ("$y", FILES, Becomes::Fields(&[" a  * "])),
    ("*$1*", FILES, Becomes::Fields(&["*a b*"])),
    ("$@", FILES, Becomes::Fields(&["a b  *"])),
    ("\"$@\"x", FILES, Becomes::Fields(&["a b  *x"])),
    (
        "$*\"$*\"",
        &[Has::Params(&["a b", "", "c"]), Has::Var("IFS", ":")],
        Becomes::Fields(&["a b::ca b::c"]),
    ),
    (
        "$*\"$@\"",
        &[Has::Params(&["a", "b"]), Has::Var("IFS", "")],
        Becomes::Fields(&["aba b"]),
    ),
    ("", &[], Becomes::Fields(&[""])),
    ("$u\"\"", &[], Becomes::Fields(&[""])),
    ("'a '\"b \"\\ $((1+1))", &[], Becomes::Fields(&["a b  2"])),
    ("${u?a}", &[], Becomes::Message("hs: u: a\n")),
];

#[test]
fn an_assignment_takes_one_text(rt: HostRuntime) -> Result<(), Fail> {
    assert_eq!(rt; first_wrong(rt.alloc(), Context::Assign, &ASSIGNED)?, "");
    Ok(())
}

const REDIRECTED: [Row<'static>; 6] = [
    ("$y", FILES, Becomes::Fields(&[" a  * "])),
    ("*", FILES, Becomes::Fields(&["*"])),
    ("$@\"$@\"", FILES, Becomes::Fields(&["a b  *a b  *"])),
    ("~/a:~", HOME, Becomes::Fields(&["/h/a:~"])),
    ("${u:-a b}\"c\"", &[], Becomes::Fields(&["a bc"])),
    ("$u", &[], Becomes::Fields(&[""])),
];

#[test]
fn a_redirection_takes_one_text(rt: HostRuntime) -> Result<(), Fail> {
    assert_eq!(rt;
        first_wrong(rt.alloc(), Context::Redirect, &REDIRECTED)?,
        ""
    );
    Ok(())
}

const BODIES: [Row<'static>; 6] = [
    (
        "$y 'a' \"b\" ~ *",
        FILES,
        Becomes::Fields(&[" a  *  'a' \"b\" ~ *\n"]),
    ),
    (
        "\\$y \\a \\\\ \\\"",
        FILES,
        Becomes::Fields(&["$y \\a \\ \\\"\n"]),
    ),
    (
        "$@ $*",
        &[Has::Params(&["a b", "c"]), Has::Var("IFS", ":")],
        Becomes::Fields(&["a b c a b:c\n"]),
    ),
    (
        "${u-\"a\"}${u-~} $((1 + 1))",
        &[],
        Becomes::Fields(&["a~ 2\n"]),
    ),
    ("${y#\" \"}", FILES, Becomes::Fields(&["a  * \n"])),
    ("a\nb$u", &[], Becomes::Fields(&["a\nb\n"])),
];

#[test]
fn a_here_document_is_quoted(rt: HostRuntime) -> Result<(), Fail> {
    assert_eq!(rt; first_wrong(rt.alloc(), Context::Here, &BODIES)?, "");
    Ok(())
}
