use crate::{
    Context, Follow, Kind, Mode, ParamValue, Piece, Pieces, assign, kind_of, message, split_fields,
    substituted, trimmed, value_of, with_text, with_value,
};
use hs_text::{Field, Fields, Text, TextList};
use hs_view::{Fixed, View};
use hs_world::{Limits, Tree, Var, World};
use sh_arith::Assigned;
use sh_split::Mark;
use sh_syntax::ParamOp;
use std::alloc::{AllocError, Global};
use std::test::Fail;

const LIMITS: Limits = Limits {
    bytes: 1024,
    turns: 1,
};

fn text(alloc: Global, bytes: &str) -> Result<Text, AllocError> {
    Text::from_slice(alloc, bytes.as_bytes())
}

/// A pattern, with `'` before a quoted byte.
fn pattern(alloc: Global, bytes: &str) -> Result<Field, AllocError> {
    let mut field = Field::new(alloc);
    let mut quoted = false;
    for byte in bytes.as_bytes() {
        if *byte == b'\'' {
            quoted = true;
        } else {
            field.push(*byte, quoted)?;
            quoted = false;
        }
    }
    Ok(field)
}

/// An operator, a pattern, a value, and what is left of it.
const TRIMS: [(ParamOp, &str, &str, &str); 11] = [
    (ParamOp::SmallSuffix, ".*", "a.b.c", "a.b"),
    (ParamOp::LargeSuffix, ".*", "a.b.c", "a"),
    (ParamOp::SmallPrefix, "*/", "/usr/lib/x", "usr/lib/x"),
    (ParamOp::LargePrefix, "*/", "/usr/lib/x", "x"),
    (ParamOp::SmallSuffix, "q*", "a.b", "a.b"),
    (ParamOp::LargeSuffix, "*", "abc", ""),
    (ParamOp::SmallPrefix, "*", "abc", "abc"),
    (ParamOp::LargePrefix, "[ab]*[bc]", "abcd", "d"),
    (ParamOp::SmallSuffix, "'*", "a*", "a"),
    (ParamOp::SmallSuffix, "'*", "ab", "ab"),
    (ParamOp::SmallPrefix, "?", "", ""),
];

fn trim(alloc: Global, op: ParamOp, of: &str, value: &str, rest: &str) -> Result<bool, AllocError> {
    let value = ParamValue::One(text(alloc, value)?);
    match trimmed(alloc, op, &pattern(alloc, of)?, &value)? {
        ParamValue::One(left) => Ok(left.as_slice() == rest.as_bytes()),
        _ => Ok(false),
    }
}

#[test]
fn patterns_are_removed(rt: HostRuntime) -> Result<(), Fail> {
    for (op, of, value, rest) in TRIMS {
        let same = trim(rt.alloc(), op, of, value, rest)?;
        assert!(rt; same, "{of} of {value}");
    }
    Ok(())
}

#[test]
fn names_have_kinds(rt: HostRuntime) -> Result<(), Fail> {
    assert_eq!(rt; kind_of(b"@"), Kind::At);
    assert_eq!(rt; kind_of(b"#"), Kind::Count);
    assert_eq!(rt; kind_of(b"10"), Kind::Position);
    assert_eq!(rt; kind_of(b"x1"), Kind::Variable);
    Ok(())
}

#[test]
fn outputs_lose_newlines(rt: HostRuntime) -> Result<(), Fail> {
    let out = substituted(rt.alloc(), b"\na\n\0\n\0")?;
    assert_eq!(rt; out.as_slice(), b"\na".as_slice());
    Ok(())
}

#[test]
fn messages_name_the_parameter(rt: HostRuntime) -> Result<(), Fail> {
    let why = message(rt.alloc(), b"x", b"no")?;
    assert_eq!(rt; why.as_slice(), b"hs: x: no\n".as_slice());
    Ok(())
}

fn var(value: Text) -> Var {
    Var {
        value: Some(value),
        exported: false,
        readonly: false,
    }
}

/// A state with HOME `/h`, IFS `:`, `x` empty, and the parameters `a`, nothing and `b c`.
fn view_of(alloc: Global) -> Result<Option<View<Fixed>>, AllocError> {
    let mut vars = Vec::new(alloc);
    vars.push((text(alloc, "HOME")?, var(text(alloc, "/h")?)))?;
    vars.push((text(alloc, "IFS")?, var(text(alloc, ":")?)))?;
    vars.push((text(alloc, "x")?, var(text(alloc, "")?)))?;
    let mut params = TextList::new(alloc);
    params.push(text(alloc, "a")?)?;
    params.push(text(alloc, "")?)?;
    params.push(text(alloc, "b c")?)?;
    match World::new(
        alloc,
        Tree::new(alloc),
        vars,
        text(alloc, "sh")?,
        params,
        Text::new(alloc),
        LIMITS,
    ) {
        Ok(world) => Ok(Some(View::new(alloc, Fixed::new(world), 65536))),
        Err(_) => Ok(None),
    }
}

fn ended(view: View<Fixed>) {
    let (base, trace) = view.into_trace();
    drop(base);
    drop(trace);
}

/// The fields, with `'` before a quoted byte and `|` behind each field.
fn shown(alloc: Global, fields: &Fields) -> Result<Text, AllocError> {
    let mut all = Text::new(alloc);
    for field in fields.as_slice() {
        for (byte, quoted) in field.as_slice() {
            if *quoted {
                all.extend(b"'")?;
            }
            all.extend(&[*byte])?;
        }
        all.extend(b"|")?;
    }
    Ok(all)
}

/// A name, whether it stands in double quotes, and the fields that it gives.
const VALUES: [(&str, bool, &str); 12] = [
    ("@", true, "'a||'b' 'c|"),
    ("@", false, "a|b c|"),
    ("*", true, "'a':':'b' 'c|"),
    ("*", false, "a|b c|"),
    ("#", false, "3|"),
    ("?", false, "7|"),
    ("0", false, "sh|"),
    ("3", true, "'b' 'c|"),
    ("4", false, ""),
    ("18446744073709551617", false, ""),
    ("x", false, ""),
    ("HOME", false, "/h|"),
];

fn fields_of(alloc: Global, name: &str, quoted: bool, view: &mut View<Fixed>) -> Option<Text> {
    let mode = Mode::of(Context::Command, 7);
    let mode = if quoted { mode.quoted() } else { mode };
    let name = text(alloc, name).ok()?;
    let value = value_of(alloc, &name, 7, view).ok()?;
    let mut pieces = with_value(alloc, mode, &value, Pieces::new(alloc), view).ok()?;
    pieces.end().ok()?;
    let fields = split_fields(alloc, pieces.as_slice(), Some(b":")).ok()?;
    shown(alloc, &fields).ok()
}

#[test]
fn parameters_have_values(rt: HostRuntime) -> Result<(), Fail> {
    for (name, quoted, wanted) in VALUES {
        let mut view = view_of(rt.alloc())?.ok_or("no world")?;
        let fields = fields_of(rt.alloc(), name, quoted, &mut view);
        ended(view);
        let fields = fields.ok_or("no fields")?;
        assert_eq!(rt; fields.as_slice(), wanted.as_bytes(), "{name}");
    }
    Ok(())
}

/// A text, whether it is an assignment's, what follows it, and what it becomes.
const TILDES: [(&str, bool, Follow, &str); 8] = [
    ("~", false, Follow::End, "'/'h|"),
    ("~/x", false, Follow::End, "'/'h/x|"),
    ("~x", false, Follow::End, "~x|"),
    ("~", false, Follow::Other, "~|"),
    ("~", false, Follow::Byte(b'/'), "'/'h|"),
    ("a:~", false, Follow::End, "a:~|"),
    ("a:~:~/b", true, Follow::End, "a:'/'h:'/'h/b|"),
    ("x~", true, Follow::End, "x~|"),
];

fn tilde_of(
    alloc: Global,
    bytes: &str,
    assign: bool,
    follow: Follow,
    view: &mut View<Fixed>,
) -> Option<Text> {
    let context = if assign {
        Context::Assign
    } else {
        Context::Redirect
    };
    let mode = Mode::of(context, 0);
    let bytes = text(alloc, bytes).ok()?;
    let mut pieces = with_text(alloc, mode, true, follow, &bytes, Pieces::new(alloc), view).ok()?;
    pieces.push(Piece::Mark(Mark::Quotes)).ok()?;
    pieces.end().ok()?;
    let fields = crate::whole_fields(alloc, pieces.as_slice()).ok()?;
    shown(alloc, &fields).ok()
}

#[test]
fn tildes_are_homes(rt: HostRuntime) -> Result<(), Fail> {
    for (bytes, assign, follow, wanted) in TILDES {
        let mut view = view_of(rt.alloc())?.ok_or("no world")?;
        let fields = tilde_of(rt.alloc(), bytes, assign, follow, &mut view);
        ended(view);
        let fields = fields.ok_or("no fields")?;
        assert_eq!(rt; fields.as_slice(), wanted.as_bytes(), "{bytes}");
    }
    Ok(())
}

#[test]
fn variables_are_assigned(rt: HostRuntime) -> Result<(), Fail> {
    let name = text(rt.alloc(), "x")?;
    let value = text(rt.alloc(), "v")?;
    let mut view = view_of(rt.alloc())?.ok_or("no world")?;
    let made = assign(&name, &value, &mut view);
    let fields = fields_of(rt.alloc(), "x", false, &mut view);
    ended(view);
    assert!(rt; matches!(made, Ok(Assigned::Yes)));
    let fields = fields.ok_or("no fields")?;
    assert_eq!(rt; fields.as_slice(), b"v|".as_slice());
    Ok(())
}
