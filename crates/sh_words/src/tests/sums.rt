//! Arithmetic expansion (POSIX.1-2017, XCU 2.6.4).

use crate::tests::{Becomes, Has, Row, first_wrong};
use sh_param::Context;
use std::test::Fail;

const THREE: &[Has<'static>] = &[Has::Var("x", "3")];

const EXPRESSIONS: [Row<'static>; 9] = [
    (
        "$((1 + 2 * 3)) \"$((  (1+2)*3  ))\"",
        &[],
        Becomes::Fields(&["7", "9"]),
    ),
    (
        "$((-7 / 2)) $((-7 % 2)) $((7 - 2 - 1))",
        &[],
        Becomes::Fields(&["-3", "-1", "4"]),
    ),
    (
        "$((010 + 0x1F)) $((0)) $((-0))",
        &[],
        Becomes::Fields(&["39", "0", "0"]),
    ),
    (
        "$((1 | 6 & 3 ^ 1)) $((1 << 4 >> 1)) $((~5))",
        &[],
        Becomes::Fields(&["3", "8", "-6"]),
    ),
    (
        "$((1 < 2)) $((2 <= 1)) $((1 == 1 != 0)) $((!2))",
        &[],
        Becomes::Fields(&["1", "0", "1", "0"]),
    ),
    (
        "$((1 ? 2 : 3)) $((0 ? 1 : 0 ? 2 : 3))",
        &[],
        Becomes::Fields(&["2", "3"]),
    ),
    (
        "$((1 || 1/0)) $((0 && 1/0)) $((1 ? 1 : 1/0))",
        &[],
        Becomes::Fields(&["1", "0", "1"]),
    ),
    (
        "$((9223372036854775807 + 1))",
        &[],
        Becomes::Fields(&["-9223372036854775808"]),
    ),
    (
        "a$((1))$((2))b \"$((1))\"$((2))",
        &[],
        Becomes::Fields(&["a12b", "12"]),
    ),
];

#[test]
fn expressions_are_numbers(rt: HostRuntime) -> Result<(), Fail> {
    assert_eq!(rt;
        first_wrong(rt.alloc(), Context::Command, &EXPRESSIONS)?,
        ""
    );
    Ok(())
}

const NAMED: [Row<'static>; 10] = [
    (
        "$((x)) $(($x + 1)) $((u)) $((${u-4} << 1))",
        THREE,
        Becomes::Fields(&["3", "4", "0", "8"]),
    ),
    (
        "$(($1 * 2)) $(($#)) $((${#1})) $(($?))",
        &[Has::Params(&["1 + 1"]), Has::Status(7)],
        Becomes::Fields(&["3", "1", "5", "7"]),
    ),
    (
        "$((x + y)) $((z)) $((e))",
        &[
            Has::Var("x", " 12 "),
            Has::Var("y", "-010"),
            Has::Var("z", "0xf"),
            Has::Var("e", ""),
        ],
        Becomes::Fields(&["4", "15", "0"]),
    ),
    (
        "$((x = 4)) $x $((x + 1))",
        THREE,
        Becomes::Fields(&["4", "4", "5"]),
    ),
    ("$x$((x += 2))$x", THREE, Becomes::Fields(&["355"])),
    (
        "$((x *= x + 1)) $((x -= 2)) $((x /= 3)) $((x %= 2)) $x",
        THREE,
        Becomes::Fields(&["12", "10", "3", "1", "1"]),
    ),
    (
        "$((x <<= 2)) $((x >>= 1)) $((x |= 9)) $((x &= 7)) $((x ^= 1))",
        THREE,
        Becomes::Fields(&["12", "6", "15", "7", "6"]),
    ),
    (
        "$((y = (x = 2) + x)) $x$y",
        THREE,
        Becomes::Fields(&["4", "24"]),
    ),
    (
        "$((a = b = 5)) $a$b $((0 && (x = 1)))$x",
        THREE,
        Becomes::Fields(&["5", "55", "03"]),
    ),
    (
        "${x#$((x))}a ${u-$((x+1))} $((${x+1}${x}))",
        THREE,
        Becomes::Fields(&["a", "4", "13"]),
    ),
];

#[test]
fn names_and_parameters_have_values(rt: HostRuntime) -> Result<(), Fail> {
    assert_eq!(rt; first_wrong(rt.alloc(), Context::Command, &NAMED)?, "");
    Ok(())
}

const MESSAGES: [Row<'static>; 12] = [
    ("$((1 +))", &[], Becomes::Message("hs: bad arithmetic\n")),
    ("$(())", &[], Becomes::Message("hs: bad arithmetic\n")),
    ("$((x++))", THREE, Becomes::Message("hs: bad arithmetic\n")),
    ("$((1 = 2))", &[], Becomes::Message("hs: bad arithmetic\n")),
    ("$((09))", &[], Becomes::Message("hs: bad arithmetic\n")),
    (
        "$((x))",
        &[Has::Var("x", "1a")],
        Becomes::Message("hs: bad arithmetic\n"),
    ),
    (
        "$((x))",
        &[Has::Var("x", " ")],
        Becomes::Message("hs: bad arithmetic\n"),
    ),
    (
        "$((x = 1))",
        &[Has::ReadOnly("x", "3")],
        Becomes::Message("hs: bad arithmetic\n"),
    ),
    (
        "$((1 / 0)) $((1 % 0))",
        &[],
        Becomes::Message("hs: division by zero\n"),
    ),
    (
        "$((1 % (x - 3)))",
        THREE,
        Becomes::Message("hs: division by zero\n"),
    ),
    ("$((1 << 64))", &[], Becomes::Message("hs: bad shift\n")),
    ("$((1 >> -1))", &[], Becomes::Message("hs: bad shift\n")),
];

#[test]
fn messages_say_why_there_is_no_number(rt: HostRuntime) -> Result<(), Fail> {
    assert_eq!(rt; first_wrong(rt.alloc(), Context::Command, &MESSAGES)?, "");
    Ok(())
}
