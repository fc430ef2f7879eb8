use crate::{Expanded, Expansion, expand};
use hs_text::{Fields, Text, TextList};
use hs_view::{Fixed, View};
use hs_world::{Limits, Tree, Var, World};
use sh_param::Context;
use sh_syntax::{ParamOp, Part, Word};
use sqlite_items::Items;
use std::alloc::{AllocError, Global};
use std::test::Fail;

const LIMITS: Limits = Limits {
    bytes: 1024,
    turns: 1,
};

fn text(alloc: Global, bytes: &str) -> Result<Text, AllocError> {
    Text::from_slice(alloc, bytes.as_bytes())
}

/// A view of a state in which `x` is `a b`, and IFS, HOME and the parameters are not set.
fn view_of(alloc: Global) -> Result<Option<View<Fixed>>, AllocError> {
    let mut vars = Vec::new(alloc);
    let value = Var {
        value: Some(text(alloc, "a b")?),
        exported: false,
        readonly: false,
    };
    vars.push((text(alloc, "x")?, value))?;
    match World::new(
        alloc,
        Tree::new(alloc),
        vars,
        text(alloc, "sh")?,
        TextList::new(alloc),
        Text::new(alloc),
        LIMITS,
    ) {
        Ok(world) => Ok(Some(View::new(alloc, Fixed::new(world), 65536))),
        Err(_) => Ok(None),
    }
}

fn word_of(alloc: Global, part: Part) -> Result<Word, AllocError> {
    let mut parts = Items::new(alloc);
    parts.push(part)?;
    Ok(Word { parts })
}

fn param(alloc: Global, name: &str, op: ParamOp, word: Option<Word>) -> Result<Part, AllocError> {
    Ok(Part::Param {
        name: text(alloc, name)?,
        op,
        colon: false,
        word,
    })
}

fn quoted(alloc: Global, part: Part) -> Result<Part, AllocError> {
    let mut parts = Items::new(alloc);
    parts.push(part)?;
    Ok(Part::Double(parts))
}

fn end(view: View<Fixed>) {
    let (base, trace) = view.into_trace();
    drop(base);
    drop(trace);
}

/// What a command's word of one part becomes.
fn expanded(alloc: Global, part: Part) -> Result<Option<Expanded>, AllocError> {
    let words = [word_of(alloc, part)?];
    let Some(mut view) = view_of(alloc)? else {
        return Ok(None);
    };
    let mut going = Expansion::new(words.as_slice(), Context::Command, Some(7));
    let answer = expand(alloc, &mut going, None, &mut view);
    drop(going);
    end(view);
    match answer {
        Ok(expanded) => Ok(Some(expanded)),
        Err(_) => Ok(None),
    }
}

/// The fields, with `'` before a quoted byte and `|` behind each field.
fn shown(alloc: Global, fields: &Fields) -> Result<Text, AllocError> {
    let mut all = Text::new(alloc);
    for field in fields.as_slice() {
        for (byte, quoted) in field.as_slice() {
            if *quoted {
                all.extend(b"'")?;
            }
            all.extend(&[*byte])?;
        }
        all.extend(b"|")?;
    }
    Ok(all)
}

fn fields_of(alloc: Global, part: Part) -> Result<Option<Text>, AllocError> {
    match expanded(alloc, part)? {
        Some(Expanded::Fields(fields)) => Ok(Some(shown(alloc, &fields)?)),
        _ => Ok(None),
    }
}

#[test]
fn a_value_is_split_where_it_is_not_quoted(rt: HostRuntime) -> Result<(), Fail> {
    let alloc = rt.alloc();
    let bare = fields_of(alloc, param(alloc, "x", ParamOp::Value, None)?)?.ok_or("none")?;
    assert_eq!(rt; bare.as_slice(), b"a|b|".as_slice());
    let part = quoted(alloc, param(alloc, "x", ParamOp::Value, None)?)?;
    let whole = fields_of(alloc, part)?.ok_or("none")?;
    assert_eq!(rt; whole.as_slice(), b"'a' 'b|".as_slice());
    Ok(())
}

#[test]
fn a_word_takes_the_place_of_no_value(rt: HostRuntime) -> Result<(), Fail> {
    let alloc = rt.alloc();
    let word = word_of(alloc, Part::Plain(text(alloc, "w")?))?;
    let part = param(alloc, "u", ParamOp::Assign, Some(word))?;
    let got = fields_of(alloc, part)?.ok_or("none")?;
    assert_eq!(rt; got.as_slice(), b"w|".as_slice());
    let sum = word_of(alloc, Part::Plain(text(alloc, "1 + 2")?))?;
    let got = fields_of(alloc, Part::Arith(sum))?.ok_or("none")?;
    assert_eq!(rt; got.as_slice(), b"3|".as_slice());
    Ok(())
}

#[test]
fn a_message_or_a_list_is_told(rt: HostRuntime) -> Result<(), Fail> {
    let alloc = rt.alloc();
    let word = word_of(alloc, Part::Plain(text(alloc, "no")?))?;
    let part = param(alloc, "u", ParamOp::Error, Some(word))?;
    match expanded(alloc, part)?.ok_or("none")? {
        Expanded::Error(why) => assert_eq!(rt; why.as_slice(), b"hs: u: no\n".as_slice()),
        _ => return Err("no message".into()),
    }
    match expanded(alloc, Part::Command(3))?.ok_or("none")? {
        Expanded::Wants(list) => assert_eq!(rt; list, 3),
        _ => return Err("no list".into()),
    }
    Ok(())
}
