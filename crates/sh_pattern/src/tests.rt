use crate::{
    Pattern, compile, largest_prefix, largest_suffix, matches, smallest_prefix, smallest_suffix,
};
use hs_text::Field;
use std::alloc::{AllocError, Global};
use std::process::Abort;
use std::test::Fail;

/// The field of a text in which a `^` quotes the next byte, and is left out.
fn field(alloc: Global, text: &[u8]) -> Result<Field, AllocError> {
    let mut field = Field::new(alloc);
    let mut quoted = false;
    for byte in text {
        if *byte == b'^' && !quoted {
            quoted = true;
        } else {
            field.push(*byte, quoted)?;
            quoted = false;
        }
    }
    Ok(field)
}

fn pattern(alloc: Global, text: &str) -> Result<Pattern, AllocError> {
    compile(alloc, &field(alloc, text.as_bytes())?)
}

/// A pattern, a text, and whether it matches.
type Row = (&'static str, &'static str, bool);

fn compare(rt: &impl Abort, alloc: Global, rows: &[Row]) -> Result<(), Fail> {
    for (text, bytes, wanted) in rows {
        let pattern = pattern(alloc, text)?;
        assert_eq!(rt;
            matches(&pattern, bytes.as_bytes()),
            *wanted,
            "{text} {bytes}"
        );
    }
    Ok(())
}

const WHOLES: [Row; 39] = [
    ("", "", true),
    ("", "a", false),
    ("abc", "abc", true),
    ("abc", "ab", false),
    ("abc", "abcd", false),
    ("a", "A", false),
    ("*", "", true),
    ("*", "a/b", true),
    ("*", "\n", true),
    ("a*", "a", true),
    ("a*", "abc", true),
    ("a*", "ba", false),
    ("*c", "abc", true),
    ("*c", "cb", false),
    ("a*c", "ac", true),
    ("a*c", "abbc", true),
    ("a*c", "abcb", false),
    ("a*c", "a", false),
    ("a*a", "a", false),
    ("a*a", "aa", true),
    ("*b*", "abc", true),
    ("*b*", "ac", false),
    ("**", "", true),
    ("a**b", "ab", true),
    ("*ab*ab*", "abab", true),
    ("*ab*ab*", "aab", false),
    ("*aab", "aaab", true),
    ("*aba*c", "ababac", true),
    ("?", "a", true),
    ("?", "/", true),
    ("?", "", false),
    ("?", "ab", false),
    ("?", "é", false),
    ("??", "é", true),
    ("a?c", "abc", true),
    ("a?c", "ac", false),
    ("??*", "a", false),
    ("??*", "ab", true),
    ("*?", "", false),
];

#[test]
fn texts_match_as_wholes(rt: HostRuntime) -> Result<(), Fail> {
    compare(&rt, rt.alloc(), &WHOLES)
}

const BRACKETS: [Row; 39] = [
    ("[abc]", "b", true),
    ("[abc]", "d", false),
    ("[abc]", "", false),
    ("[abc]", "ab", false),
    ("[!abc]", "d", true),
    ("[!abc]", "a", false),
    ("[!abc]", "", false),
    ("[!a]", "/", true),
    ("[a-c]", "a", true),
    ("[a-c]", "c", true),
    ("[a-c]", "d", false),
    ("[a-c]", "-", false),
    ("[!a-c]", "c", false),
    ("[c-a]", "b", false),
    ("[c-a]", "c", false),
    ("[!c-a]", "b", true),
    ("[a-]", "-", true),
    ("[a-]", "b", false),
    ("[-a]", "-", true),
    ("[!-a]", "-", false),
    ("[!-a]", "b", true),
    ("[]a]", "]", true),
    ("[]a]", "a", true),
    ("[]a]", "[", false),
    ("[!]a]", "]", false),
    ("[!]a]", "b", true),
    ("[]-a]", "_", true),
    ("[]-a]", "-", false),
    ("[--0]", "/", true),
    ("[--0]", "1", false),
    ("[[]", "[", true),
    ("[*]", "*", true),
    ("[*]", "a", false),
    ("[?]", "a", false),
    ("[a!]", "!", true),
    ("[a]b]", "ab]", true),
    ("[a-]]", "a]", true),
    ("x[ab]*y", "xbzzy", true),
    ("x[ab]*y", "xcy", false),
];

#[test]
fn bracket_expressions_match_one_byte(rt: HostRuntime) -> Result<(), Fail> {
    compare(&rt, rt.alloc(), &BRACKETS)
}

const CLASSES: [Row; 37] = [
    ("[[:alnum:]]", "0", true),
    ("[[:alnum:]]", "_", false),
    ("[[:alpha:]]", "z", true),
    ("[[:alpha:]]", "0", false),
    ("[[:blank:]]", "\t", true),
    ("[[:blank:]]", "\n", false),
    ("[[:cntrl:]]", "\x7f", true),
    ("[[:cntrl:]]", " ", false),
    ("[[:digit:]]", "7", true),
    ("[[:digit:]]", "a", false),
    ("[[:graph:]]", "!", true),
    ("[[:graph:]]", " ", false),
    ("[[:lower:]]", "a", true),
    ("[[:lower:]]", "A", false),
    ("[[:print:]]", " ", true),
    ("[[:print:]]", "\t", false),
    ("[[:punct:]]", "_", true),
    ("[[:punct:]]", "a", false),
    ("[[:space:]]", "\x0b", true),
    ("[[:space:]]", "a", false),
    ("[[:upper:]]", "Q", true),
    ("[[:upper:]]", "q", false),
    ("[[:xdigit:]]", "f", true),
    ("[[:xdigit:]]", "g", false),
    ("[![:digit:]]", "a", true),
    ("[![:digit:]]", "5", false),
    ("[[:digit:]a-c_]", "b", true),
    ("[[:digit:]a-c_]", "d", false),
    ("[[:digit:][:upper:]]", "A", true),
    ("[[:alpha:]-z]", "-", true),
    ("[[:alpha:]-z]", "{", false),
    ("[:alpha:]", ":", true),
    ("[:alpha:]", "b", false),
    ("[[:foo:]]", "f]", true),
    ("[[:foo:]]", "[]", true),
    ("[[:foo:]]", "f", false),
    ("[[:Alpha:]]", "z", false),
];

#[test]
fn classes_stand_in_brackets(rt: HostRuntime) -> Result<(), Fail> {
    compare(&rt, rt.alloc(), &CLASSES)
}

const UNCLOSED: [Row; 16] = [
    ("[", "[", true),
    ("[", "", false),
    ("[abc", "[abc", true),
    ("[abc", "a", false),
    ("[*", "[xyz", true),
    ("[*", "xyz", false),
    ("[]", "[]", true),
    ("[]", "]", false),
    ("[!", "[!", true),
    ("[!]", "[!]", true),
    ("[a-", "[a-", true),
    ("[[:alpha:]", "[a", true),
    ("[[:alpha:]", "[b", false),
    ("[[[a]", "[[a", false),
    ("[[[a]", "[", true),
    ("[[a^]", "[[a]", true),
];

#[test]
fn brackets_without_their_end_stand_for_themselves(rt: HostRuntime) -> Result<(), Fail> {
    compare(&rt, rt.alloc(), &UNCLOSED)
}

const QUOTED: [Row; 31] = [
    ("^*", "*", true),
    ("^*", "a", false),
    ("^?", "a", false),
    ("^[a]", "[a]", true),
    ("^[a]", "a", false),
    ("[^!a]", "!", true),
    ("[^!a]", "b", false),
    ("[a^-c]", "-", true),
    ("[a^-c]", "b", false),
    ("[a-^c]", "b", true),
    ("[a^]b]", "]", true),
    ("[a^]", "[a]", true),
    ("[^]]", "]", true),
    ("[[^:alpha:]]", "a]", true),
    ("[[^:alpha:]]", "b", false),
    ("^\\*", "\\x", true),
    ("^\\*", "x", false),
    ("\\*", "*", true),
    ("\\*", "a", false),
    ("\\^*", "*", true),
    ("\\^*", "\\a", false),
    ("\\a", "a", true),
    ("\\\\", "\\", true),
    ("\\\\", "\\\\", false),
    ("a\\", "a\\", true),
    ("a\\", "a", false),
    ("\\[a]", "[a]", true),
    ("[\\]]", "]", true),
    ("[\\]]", "\\", false),
    ("[a\\-c]", "b", false),
    ("[\\", "[\\", true),
];

#[test]
fn quoted_bytes_stand_for_themselves(rt: HostRuntime) -> Result<(), Fail> {
    compare(&rt, rt.alloc(), &QUOTED)
}

#[test]
fn parts_are_the_least_and_the_greatest(rt: HostRuntime) -> Result<(), Fail> {
    let alloc = rt.alloc();
    for (text, bytes, prefixes, suffixes) in [
        ("*/", "a/b/c", Some((2, 4)), None),
        (".*", "a.b.c", None, Some((2, 4))),
        ("*", "abc", Some((0, 3)), Some((0, 3))),
        ("", "abc", Some((0, 0)), Some((0, 0))),
        ("?", "abc", Some((1, 1)), Some((1, 1))),
        ("?", "", None, None),
        ("b", "abc", None, None),
        ("a*", "abca", Some((1, 4)), Some((1, 4))),
        ("*a", "abca", Some((1, 4)), Some((1, 4))),
        ("[!a]*", "abab", None, Some((1, 3))),
        ("a*b", "axbxb", Some((3, 5)), Some((5, 5))),
    ] {
        let pattern = pattern(alloc, text)?;
        let bytes = bytes.as_bytes();
        let least = prefixes.map(|(least, _)| least);
        let greatest = prefixes.map(|(_, greatest)| greatest);
        assert_eq!(rt; smallest_prefix(&pattern, bytes), least, "{text}");
        assert_eq!(rt; largest_prefix(&pattern, bytes), greatest, "{text}");
        let least = suffixes.map(|(least, _)| least);
        let greatest = suffixes.map(|(_, greatest)| greatest);
        assert_eq!(rt; smallest_suffix(&pattern, bytes), least, "{text}");
        assert_eq!(rt; largest_suffix(&pattern, bytes), greatest, "{text}");
    }
    Ok(())
}

#[test]
fn no_pattern_is_slow(rt: HostRuntime) -> Result<(), Fail> {
    let alloc = rt.alloc();
    let text = vec![in alloc; b'a'; 10_000]?;
    let stars = pattern(alloc, "*a*a*a*a*b")?;
    assert!(rt; !matches(&stars, text.as_slice()));
    let mut many = Field::new(alloc);
    for _ in 0..10_000 {
        for byte in b"[[:alpha:]" {
            many.push(*byte, false)?;
        }
    }
    assert!(rt; !matches(&compile(alloc, &many)?, text.as_slice()));
    let open = vec![in alloc; b'['; 100_000]?;
    let mut many = Field::new(alloc);
    for byte in open.as_slice() {
        many.push(*byte, false)?;
    }
    assert!(rt; matches(&compile(alloc, &many)?, open.as_slice()));
    Ok(())
}
