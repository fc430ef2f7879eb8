use crate::{Sum, sum_in};
use hs_text::{Text, TextList};
use hs_view::{Fixed, Halt, View};
use hs_world::{Effect, Limits, Tree, Var, World};
use std::alloc::{AllocError, Global};
use std::test::Fail;

const LIMITS: Limits = Limits {
    bytes: 1024,
    turns: 1,
};

/// Variables: their values, and whether they are exported and read only.
const VARIABLES: [(&str, Option<&str>, bool, bool); 5] = [
    ("a", Some("5"), false, false),
    ("e", Some("1"), true, false),
    ("m", None, true, false),
    ("n", Some("12x"), false, false),
    ("r", Some("7"), false, true),
];

/// How many variables there are.
const COUNT: usize = VARIABLES.len();

/// An expression, what it comes to, and its assignments, with `!` behind a variable that is exported.
const CASES: [(&str, Sum, &str); 36] = [
    ("1+2*3", Sum::Number(7), ""),
    ("a", Sum::Number(5), ""),
    ("unset", Sum::Number(0), ""),
    ("m", Sum::Number(0), ""),
    ("r", Sum::Number(7), ""),
    ("n", Sum::Bad, ""),
    ("x=a+1", Sum::Number(6), "x=6"),
    ("x=y=3", Sum::Number(3), "y=3 x=3"),
    ("(x=3)+x", Sum::Number(6), "x=3"),
    ("x+(x=3)", Sum::Number(3), "x=3"),
    ("(x=3)+(x=4)", Sum::Number(7), "x=3 x=4"),
    ("(n=1)+n", Sum::Number(2), "n=1"),
    ("a+=1", Sum::Number(6), "a=6"),
    ("a+=a=2", Sum::Number(7), "a=2 a=7"),
    ("e=2", Sum::Number(2), "e!=2"),
    ("m=-2", Sum::Number(-2), "m!=-2"),
    ("0&&(x=1)", Sum::Number(0), ""),
    ("1&&(x=1)", Sum::Number(1), "x=1"),
    ("1||(x=1)", Sum::Number(1), ""),
    ("0||(x=0)", Sum::Number(0), "x=0"),
    ("0?(x=1):(y=2)", Sum::Number(2), "y=2"),
    ("1?(x=1):(y=2)", Sum::Number(1), "x=1"),
    ("1||(0&&(x=1))", Sum::Number(1), ""),
    ("0&&n", Sum::Number(0), ""),
    ("1||(r=1)", Sum::Number(1), ""),
    ("r=1", Sum::Bad, ""),
    ("(x=1)+(r=2)", Sum::Bad, "x=1"),
    ("(x=1)+n+(y=2)", Sum::Bad, "x=1"),
    ("1/0", Sum::DivisionByZero, ""),
    ("(x=1)%0", Sum::DivisionByZero, "x=1"),
    ("x/=0", Sum::DivisionByZero, ""),
    ("1<<64", Sum::BadShift, ""),
    ("", Sum::Bad, ""),
    ("(x=1)+", Sum::Bad, ""),
    ("x=1+n)", Sum::Bad, ""),
    (
        "x=-9223372036854775807-1",
        Sum::Number(i64::MIN),
        "x=-9223372036854775808",
    ),
];

fn set_variable(
    alloc: Global,
    view: &mut View<Fixed>,
    name: &str,
    value: Option<&str>,
    exported: bool,
    readonly: bool,
) -> Result<(), Halt> {
    let name = Text::from_slice(alloc, name.as_bytes())?;
    let value = match value {
        Some(value) => Some(Text::from_slice(alloc, value.as_bytes())?),
        None => None,
    };
    view.put(Effect::SetVar(
        name,
        Var {
            value,
            exported,
            readonly,
        },
    ))
}

fn set_variables(alloc: Global, view: &mut View<Fixed>) -> Result<(), Halt> {
    for (name, value, exported, readonly) in &VARIABLES {
        set_variable(alloc, view, name, *value, *exported, *readonly)?;
    }
    Ok(())
}

fn view_of(alloc: Global) -> Option<View<Fixed>> {
    let params = TextList::new(alloc);
    match World::new(
        alloc,
        Tree::new(alloc),
        Vec::new(alloc),
        Text::new(alloc),
        params,
        Text::new(alloc),
        LIMITS,
    ) {
        Ok(world) => Some(View::new(alloc, Fixed::new(world), 65536)),
        Err(_) => None,
    }
}

fn show_variable(out: &mut Vec<u8>, name: &Text, var: &Var) -> Result<(), AllocError> {
    if !out.is_empty() {
        out.push(b' ')?;
    }
    out.extend_from_slice(name.as_slice())?;
    if var.exported {
        out.push(b'!')?;
    }
    out.push(b'=')?;
    match &var.value {
        Some(value) => out.extend_from_slice(value.as_slice())?,
        None => {}
    }
    Ok(())
}

/// The assignments behind the first effects.
fn shown(alloc: Global, effects: &[Effect]) -> Result<Vec<u8>, AllocError> {
    let mut out = Vec::new(alloc);
    for effect in effects.iter().skip(COUNT) {
        match effect {
            Effect::SetVar(name, var) => show_variable(&mut out, name, var)?,
            _ => out.push(b'?')?,
        }
    }
    Ok(out)
}

/// What an expression comes to, how many variables were read of the base, and the assignments.
fn outcome(alloc: Global, text: &str) -> Option<(Sum, usize, Vec<u8>)> {
    let mut view = view_of(alloc)?;
    let set = set_variables(alloc, &mut view).is_ok();
    let sum = sum_in(alloc, text.as_bytes(), &mut view);
    let (base, trace) = view.into_trace();
    drop(base);
    let reads = trace.reads().as_slice().len();
    let out = shown(alloc, trace.effects().as_slice());
    drop(trace);
    match (set, sum, out) {
        (true, Ok(sum), Ok(out)) => Some((sum, reads, out)),
        _ => None,
    }
}

fn comes_to(alloc: Global, text: &str, wanted: Sum, assignments: &str) -> bool {
    match outcome(alloc, text) {
        Some((sum, _, out)) => sum == wanted && out.as_slice() == assignments.as_bytes(),
        None => false,
    }
}

#[test]
fn expressions_come_to_numbers_and_assignments(rt: HostRuntime) -> Result<(), Fail> {
    for (text, wanted, assignments) in &CASES {
        assert!(rt;
            comes_to(rt.alloc(), text, *wanted, assignments),
            "{text:?}"
        );
    }
    Ok(())
}

fn reads(alloc: Global, text: &str) -> Option<usize> {
    match outcome(alloc, text) {
        Some((_, reads, _)) => Some(reads),
        None => None,
    }
}

/// A variable that was assigned, or is not met, is not read of the base.
#[test]
fn only_variables_that_are_met_are_read(rt: HostRuntime) -> Result<(), Fail> {
    assert_eq!(rt; reads(rt.alloc(), "x+y+x"), Some(2));
    assert_eq!(rt; reads(rt.alloc(), "x&&y"), Some(1));
    assert_eq!(rt; reads(rt.alloc(), "1?x:y"), Some(1));
    assert_eq!(rt; reads(rt.alloc(), "x+"), Some(0));
    assert_eq!(rt; reads(rt.alloc(), "n+x"), Some(0));
    Ok(())
}
