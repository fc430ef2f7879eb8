use crate::{ParseErr, parse};
use sh_syntax::{Fault, Opening};
use std::alloc::{AllocError, Global};
use std::test::Fail;

/// Whether the text spells a script.
fn is_script(alloc: Global, text: &str) -> bool {
    match parse(alloc, text.as_bytes()) {
        Ok(script) => {
            drop(script);
            true
        }
        Err(_) => false,
    }
}

/// Whether the first bad token of the text has this fault, on this line.
fn has_fault(alloc: Global, text: &str, line: u32, fault: Fault) -> bool {
    match parse(alloc, text.as_bytes()) {
        Ok(script) => {
            drop(script);
            false
        }
        Err(error) => error == ParseErr::Syntax { line, fault },
    }
}

/// So many subshells in one another.
fn nested(alloc: Global, count: usize) -> Result<String, AllocError> {
    let mut text = String::new(alloc);
    for _ in 0..count {
        text.push_str("( ")?;
    }
    text.push_str("a")?;
    for _ in 0..count {
        text.push_str(" )")?;
    }
    Ok(text)
}

#[test]
fn scripts_are_read(rt: HostRuntime) -> Result<(), Fail> {
    let alloc = rt.alloc();
    for text in [
        "",
        "# nothing",
        "echo a; echo 'b c'",
        "x=1 cmd <in >>out 2>&1 | b\n",
        "! a && b || c\nd",
        "if a; then b; elif c; then d; else e; fi >f",
        "while a; do b; done; until a; do b; done",
        "for x in a \"$@\"; do b; done; for x; do b; done; for x\ndo b; done",
        "case $x in (a|b) c;; d) esac",
        "f() { a; }; { b; } | (c; d)",
        "a $(b; `c`) ${x:-\"y\"} $((1 + (2)))",
        "cat <<E; cat <<-'F'\n${x}\nE\n\t$\n\tF\n",
        "f() { cat <<E\n$(cat <<F\nb\nF\n)\nE\n}",
        "a \\\n b",
    ]
    .as_slice()
    {
        assert!(rt; is_script(alloc, text));
    }
    let deep = nested(alloc, 100)?;
    assert!(rt; is_script(alloc, deep.as_str()));
    Ok(())
}

#[test]
fn faults_are_named(rt: HostRuntime) -> Result<(), Fail> {
    let alloc = rt.alloc();
    for (text, line, fault) in [
        ("cat <<E\nx", 1, Fault::Unclosed(Opening::Here)),
        ("cat <<E \"x", 1, Fault::Unclosed(Opening::Here)),
        ("cat <<E \"\n\" $(\n", 2, Fault::Unclosed(Opening::Command)),
        ("echo ${a$b}", 1, Fault::BadParameter),
        ("a & b", 1, Fault::Unexpected),
        ("echo a;; echo b", 1, Fault::Unexpected),
        ("echo a\n)", 2, Fault::Unexpected),
        ("a '\0'", 1, Fault::Nul),
        ("if a 'b", 1, Fault::Unclosed(Opening::Single)),
        ("if a\n", 2, Fault::Unexpected),
        ("x=\"$", 1, Fault::Unclosed(Opening::Double)),
        ("x=\"${a:-$", 1, Fault::Unclosed(Opening::Braces)),
        ("x=\n\"${a:-$(", 2, Fault::Unclosed(Opening::Command)),
        ("x=\"${a:-$((1)", 1, Fault::Unclosed(Opening::Arith)),
        ("a\n`b \"c", 2, Fault::Unclosed(Opening::Double)),
        ("a `b\n", 1, Fault::Unclosed(Opening::Backquote)),
        ("a `b\n\"c` d", 2, Fault::Unclosed(Opening::Double)),
        ("`if`", 1, Fault::Unexpected),
        ("break() { a; }", 1, Fault::Unexpected),
    ]
    .as_slice()
    {
        assert!(rt; has_fault(alloc, text, *line, *fault));
    }
    let deep = nested(alloc, 101)?;
    assert!(rt; has_fault(alloc, deep.as_str(), 1, Fault::TooDeep));
    Ok(())
}
