//! Command substitutions (POSIX.1-2017, XCU 2.6.3): the list whose output is wanted first.

use crate::tests::{Becomes, Has, Row, first_wrong};
use sh_param::Context;
use std::test::Fail;

const LISTS: [Row<'static>; 11] = [
    ("$(a)", &[], Becomes::List(1)),
    ("x \"`a`\"$(b)", &[], Becomes::List(1)),
    ("${x-$(a)}$(b)", &[Has::Var("x", "1")], Becomes::List(2)),
    ("${u:=$(a)}$(b)", &[], Becomes::List(1)),
    ("${u?$(a)}", &[], Becomes::List(1)),
    ("${x+$(a $(b))}$(c)", &[], Becomes::List(3)),
    ("$((1 + $(a)))", &[], Becomes::List(1)),
    ("${x%$(a)}", &[Has::Var("x", "1")], Becomes::List(1)),
    ("${u?w}$(a)", &[], Becomes::Message("hs: u: w\n")),
    ("$(a)${u?w}", &[], Becomes::List(1)),
    (
        "'$(a)' \\`b\\` \"\\`c\\`\"",
        &[],
        Becomes::Fields(&["$(a)", "`b`", "`c`"]),
    ),
];

#[test]
fn lists_are_wanted_in_turn(rt: HostRuntime) -> Result<(), Fail> {
    assert_eq!(rt; first_wrong(rt.alloc(), Context::Command, &LISTS)?, "");
    Ok(())
}
