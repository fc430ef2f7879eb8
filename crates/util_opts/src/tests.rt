use crate::{GivenList, OptErr, OptionTable, Options, read_options};
use hs_text::{Text, TextList};
use std::alloc::{AllocError, Global};
use std::process::Abort;
use std::test::Fail;

/// Of the options, `n` and `d` take a value.
const TABLE: [(u8, bool); 4] = [(b'a', false), (b'b', false), (b'n', true), (b'd', true)];

/// The words of a text: a space parts them.
fn words(alloc: Global, text: &str) -> Result<TextList, AllocError> {
    let mut list = TextList::new(alloc);
    for word in text.split(' ') {
        list.push(Text::from_slice(alloc, word.as_bytes())?)?;
    }
    Ok(list)
}

/// What is given and the operands, spelled: each option with its value in parentheses, each operand in brackets.
fn spelled(alloc: Global, options: &Options) -> Result<Vec<u8>, AllocError> {
    let mut text = Vec::new(alloc);
    for (byte, value) in options.given.as_slice() {
        text.push(*byte)?;
        if let Some(value) = value {
            text.push(b'(')?;
            text.extend_from_slice(value.as_slice())?;
            text.push(b')')?;
        }
    }
    for operand in options.operands.as_slice() {
        text.push(b'[')?;
        text.extend_from_slice(operand.as_slice())?;
        text.push(b']')?;
    }
    Ok(text)
}

fn read(alloc: Global, text: &str) -> Result<Result<Options, OptErr>, AllocError> {
    let table = OptionTable::from_slice(alloc, TABLE.as_slice())?.clone()?;
    let args = words(alloc, text)?;
    Ok(read_options(alloc, &table, &args))
}

/// Words, and what they give.
const GIVEN: [(&'static str, &'static str); 27] = [
    ("-n3 x", "n(3)[x]"),
    ("-n 3 x", "n(3)[x]"),
    ("x y", "[x][y]"),
    ("-a", "a"),
    ("-a x", "a[x]"),
    ("-ab x", "ab[x]"),
    ("-a -b x", "ab[x]"),
    ("-ba -a", "baa"),
    ("-abn3", "abn(3)"),
    ("-abn 3", "abn(3)"),
    ("-nab x", "n(ab)[x]"),
    ("-n3 -n 4", "n(3)n(4)"),
    ("-d, -n1", "d(,)n(1)"),
    ("--", ""),
    ("-- x", "[x]"),
    ("-a -- -b", "a[-b]"),
    ("-- --", "[--]"),
    ("-", "[-]"),
    ("-a - -b", "a[-][-b]"),
    ("x -a", "[x][-a]"),
    ("x --", "[x][--]"),
    ("-n -a x", "n(-a)[x]"),
    ("-n -- -a", "n(--)a"),
    ("-n-", "n(-)"),
    ("", "[]"),
    (" -a", "[][-a]"),
    ("-n  x", "n()[x]"),
];

#[test]
fn words_give_options_and_operands(rt: HostRuntime) -> Result<(), Fail> {
    for (text, wanted) in GIVEN {
        match read(rt.alloc(), text)? {
            Ok(options) => {
                let options = options.clone()?;
                let told = spelled(rt.alloc(), &options)?;
                assert!(rt; told.as_slice() == wanted.as_bytes(), "{text}");
            }
            Err(error) => assert!(rt; false, "{text}: {error}"),
        }
    }
    Ok(())
}

/// Words, and their first fault.
const FAULTS: [(&'static str, OptErr); 13] = [
    ("-q", OptErr::Unknown(b'q')),
    ("-n", OptErr::Missing(b'n')),
    ("-aq", OptErr::Unknown(b'q')),
    ("-a -q x", OptErr::Unknown(b'q')),
    ("-an", OptErr::Missing(b'n')),
    ("-n3 -d", OptErr::Missing(b'd')),
    ("-q -n", OptErr::Unknown(b'q')),
    ("-qn", OptErr::Unknown(b'q')),
    ("-qr", OptErr::Unknown(b'q')),
    ("-A", OptErr::Unknown(b'A')),
    ("-3", OptErr::Unknown(b'3')),
    ("--a", OptErr::Unknown(b'-')),
    ("-a-", OptErr::Unknown(b'-')),
];

#[test]
fn first_fault_counts(rt: HostRuntime) -> Result<(), Fail> {
    for (text, wanted) in FAULTS {
        match read(rt.alloc(), text)? {
            Ok(_) => assert!(rt; false, "{text}"),
            Err(error) => assert_eq!(rt; error, wanted, "{text}"),
        }
    }
    Ok(())
}

#[test]
fn no_words_give_nothing(rt: HostRuntime) -> Result<(), Fail> {
    let alloc = rt.alloc();
    let table = OptionTable::from_slice(alloc, &[])?;
    match read_options(alloc, &table, &TextList::new(alloc)) {
        Ok(options) => assert!(rt; spelled(alloc, &options)?.is_empty()),
        Err(error) => assert!(rt; false, "{error}"),
    }
    Ok(())
}

#[test]
fn options_are_put_at_the_end(rt: HostRuntime) -> Result<(), Fail> {
    let alloc = rt.alloc();
    let mut given = GivenList::new(alloc);
    given.push(b'a', None)?;
    given.push(b'n', Some(Text::from_slice(alloc, b"3")?))?;
    let options = Options {
        given: given.clone()?,
        operands: TextList::new(alloc),
    };
    assert!(rt; spelled(alloc, &options)?.as_slice() == b"an(3)".as_slice());
    Ok(())
}
