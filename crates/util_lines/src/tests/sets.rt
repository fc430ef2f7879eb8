//! Sets of bytes, and what becomes of texts.

use crate::translating::{Asked, tables_wanted};
use crate::transliterating::transliterate;
use hs_text::{Text, TextList};
use std::alloc::{AllocError, Global};
use std::test::Fail;

/// The options, the sets, a text, and what it becomes, where the sets are right.
const TEXTS: [(&str, &str, Option<&str>, &str, Option<&str>); 14] = [
    ("s", "a-b", Some("x-y"), "aabb\n", Some("xy\n")),
    ("", "abc", Some("xy"), "aabbcc-d", Some("xxyyyy-d")),
    ("", "aa", Some("xy"), "aba", Some("xbx")),
    (
        "",
        "[:lower:]",
        Some("[:upper:]"),
        "Hello, 1\n",
        Some("HELLO, 1\n"),
    ),
    ("d", "[:digit:]-", None, "a1-2b", Some("ab")),
    ("cd", "a-z\\n", None, "aB1b\n", Some("ab\n")),
    ("cs", "A-Za-z", Some("\\n"), "one, two", Some("one\ntwo")),
    ("ds", "b", Some("a"), "aabaab", Some("a")),
    ("s", "\\n\\t", None, "a\n\n\t\tb\n", Some("a\n\tb\n")),
    ("", "\\101\\-z", Some("xyz"), "A-zz", Some("xyzz")),
    ("", "z-a", Some("x"), "a", None),
    ("", "a", Some(""), "a", None),
    ("", "a", None, "a", None),
    ("d", "a", Some("b"), "a", None),
];

fn sets(alloc: Global, one: &str, two: Option<&str>) -> Result<TextList, AllocError> {
    let mut words = TextList::new(alloc);
    words.push(Text::from_slice(alloc, one.as_bytes())?)?;
    if let Some(two) = two {
        words.push(Text::from_slice(alloc, two.as_bytes())?)?;
    }
    Ok(words)
}

fn outcome(
    alloc: Global,
    options: &str,
    one: &str,
    two: Option<&str>,
    text: &str,
) -> Option<Vec<u8>> {
    let asked = Asked {
        complements: options.contains('c'),
        deletes: options.contains('d'),
        squeezes: options.contains('s'),
    };
    let words = sets(alloc, one, two).ok()?;
    let tables = tables_wanted(alloc, asked, words.as_slice()).ok()?;
    transliterate(alloc, &tables, text.as_bytes()).ok()
}

#[test]
fn bytes_are_deleted_translated_and_squeezed(rt: HostRuntime) -> Result<(), Fail> {
    for (options, one, two, text, wanted) in &TEXTS {
        let out = outcome(rt.alloc(), options, one, *two, text);
        let wanted = wanted.map(|text| text.as_bytes());
        assert_eq!(rt;
            out.as_ref().map(|text| text.as_slice()),
            wanted,
            "{one:?} of {text:?}"
        );
    }
    Ok(())
}
