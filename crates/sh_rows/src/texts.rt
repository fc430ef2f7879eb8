//! Small texts, each with how many pipelines its script has, or its fault and the line of that.

use sh_script::{ParseErr, parse};
use sh_syntax::{Fault, Opening};
use std::alloc::{AllocError, Global};
use std::test::Fail;

/// Whether the text spells a script of so many pipelines.
fn has_pipelines(alloc: Global, text: &str, count: usize) -> bool {
    match parse(alloc, text.as_bytes()) {
        Ok(script) => {
            let equal = script.leaves.len() == count;
            drop(script);
            equal
        }
        Err(_) => false,
    }
}

/// Whether the first bad token of the text has this fault, on this line.
fn has_fault(alloc: Global, text: &str, line: u32, fault: Fault) -> bool {
    match parse(alloc, text.as_bytes()) {
        Ok(script) => {
            drop(script);
            false
        }
        Err(error) => error == ParseErr::Syntax { line, fault },
    }
}

/// So many subshells in one another.
fn nested(alloc: Global, count: usize) -> Result<String, AllocError> {
    let mut text = String::new(alloc);
    for _ in 0..count {
        text.push_str("( ")?;
    }
    text.push_str("a")?;
    for _ in 0..count {
        text.push_str(" )")?;
    }
    Ok(text)
}

#[test]
fn lists_are_read(rt: HostRuntime) -> Result<(), Fail> {
    let alloc = rt.alloc();
    for (text, pipelines) in [
        ("", 0),
        ("# nothing", 0),
        ("echo a; echo 'b c'", 2),
        ("\n\na\n\nb;\nc\n", 3),
        ("a #b\nc", 2),
        ("a # b \\\nc", 2),
        ("a#b", 1),
        ("! a && b || c\nd", 4),
        ("a &&\n\nb ||\nc |\nd", 3),
        ("! a | b", 1),
        ("! { a; }", 2),
        ("{ a\n}", 2),
        ("{ { a; } }", 3),
        ("{ (a) }", 3),
        ("((a))", 3),
        ("(a;) >f 2>&1", 2),
        ("a | (b; c) | { d; }", 4),
    ]
    .as_slice()
    {
        assert!(rt; has_pipelines(alloc, text, *pipelines));
    }
    let deep = nested(alloc, 100)?;
    assert!(rt; has_pipelines(alloc, deep.as_str(), 101));
    Ok(())
}

#[test]
fn compound_commands_are_read(rt: HostRuntime) -> Result<(), Fail> {
    let alloc = rt.alloc();
    for (text, pipelines) in [
        ("if a; then b; elif c; then d; else e; fi >f", 6),
        ("if (a) then b\nfi | c", 4),
        ("while a; do b; done; until a; do b; done", 6),
        ("while { a; }; do\nb; c; done <f", 5),
        (
            "for x in a \"$@\"; do b; done; for x; do b; done; for x\ndo b; done",
            6,
        ),
        ("for x do a; done", 2),
        ("for x in; do a; done", 2),
        ("for in\n\nin in;\ndo a; done", 2),
        ("case $x in (a|b) c;; d) esac", 2),
        ("case a\nin\nesac", 1),
        ("case a in b) c\nesac", 2),
        ("case a in b) ;; c|esac) d; e;; esac", 3),
        ("f() { a; }; { b; } | (c; d)", 6),
        ("f ( )\n\n(a) >g", 2),
        ("_x1() if a; then b; fi; _x1", 4),
        ("echo() { a; }", 2),
    ]
    .as_slice()
    {
        assert!(rt; has_pipelines(alloc, text, *pipelines));
    }
    Ok(())
}

#[test]
fn words_are_read(rt: HostRuntime) -> Result<(), Fail> {
    let alloc = rt.alloc();
    for (text, pipelines) in [
        ("a \\\n b", 1),
        ("ec\\\nho a\\", 1),
        ("a 'b\nc' \"d\ne\"", 1),
        ("\\if; 'then' fi", 2),
        ("a if then fi", 1),
        ("x=1 if", 1),
        (">f if", 1),
        ("if=1 y=2", 1),
        ("x=1 cmd <in >>out 2>&1 | b\n", 1),
        ("a 02>f 3 >|g <&-", 1),
        ("a 2\\\n>f", 1),
        ("a ${x} ${10} ${x-} ${x:=y} ${x?} ${x:+z}", 1),
        ("a ${x%y} ${x%%y} ${x#y} ${x##y}", 1),
        ("a ${#x} ${#1} ${#} ${##} ${#?} ${#-}", 1),
        ("a $1 $0 $@ $* $# $? $ $% \"$\"", 1),
        ("a \"${x-'}\" \"${x-\"y\"}\" ${x-'}'} \"${x%'}'}\"", 1),
        ("a $(b \"c\") `d` $() ``", 3),
        ("a \"$(b; `c`)\" ${x:-$(d)}", 5),
        ("a `b \\`c\\``", 3),
        ("a $((1 + (2))) $((x+$(b)))", 2),
    ]
    .as_slice()
    {
        assert!(rt; has_pipelines(alloc, text, *pipelines));
    }
    Ok(())
}

#[test]
fn here_documents_are_read(rt: HostRuntime) -> Result<(), Fail> {
    let alloc = rt.alloc();
    for (text, pipelines) in [
        ("cat <<E\nE", 1),
        ("cat <<E; cat <<-'F'\n${x}\nE\n\t$\n\tF\n", 2),
        ("cat <<A <<B | b\n1\nA\n2\nB\nc", 2),
        ("cat <<''\n\n", 1),
        ("cat <<\\E\n`\nE", 1),
        ("cat <<E\n$(a)\nE", 2),
        ("cat <<E\nx\\\nE\nE", 1),
        ("cat <<$x\n$x\n", 1),
        ("cat <<E\n${x-a\nb}\nE", 1),
        ("a $(cat <<E)\nx\nE", 2),
        ("f() { cat <<E\n$(cat <<F\nb\nF\n)\nE\n}", 3),
    ]
    .as_slice()
    {
        assert!(rt; has_pipelines(alloc, text, *pipelines));
    }
    Ok(())
}

#[test]
fn unexpected_tokens_are_found(rt: HostRuntime) -> Result<(), Fail> {
    let alloc = rt.alloc();
    for (text, line) in [
        ("a & b", 1),
        ("a <>f", 1),
        ("echo a;; echo b", 1),
        ("echo a\n)", 2),
        ("a; ; b", 1),
        ("a &&\n", 2),
        ("a | | b", 1),
        ("! ! a", 1),
        ("(a\n", 2),
        ("{ }", 1),
        ("{ a }", 1),
        ("{a; }", 1),
        ("in", 1),
        ("if a\n", 2),
        ("if a; then fi", 1),
        ("while a\ndo\ndone", 3),
        ("for 1 in a; do b; done", 1),
        ("for x in a do b; done", 1),
        ("for x; a; done", 1),
        ("case a b) c;; esac", 1),
        ("case a in b) c esac", 1),
        ("case a in (esac) b;; esac", 1),
    ]
    .as_slice()
    {
        assert!(rt; has_fault(alloc, text, *line, Fault::Unexpected));
    }
    Ok(())
}

#[test]
fn unexpected_words_are_found(rt: HostRuntime) -> Result<(), Fail> {
    let alloc = rt.alloc();
    for (text, line) in [
        ("f() a", 1),
        ("f()\n", 2),
        ("break() { a; }", 1),
        ("1f() { a; }", 1),
        ("(a) b", 1),
        ("`if`", 1),
        ("3>f", 1),
        ("a 2>&1>f", 1),
        ("a >\nb", 1),
        ("a <<\nb", 1),
    ]
    .as_slice()
    {
        assert!(rt; has_fault(alloc, text, *line, Fault::Unexpected));
    }
    Ok(())
}

#[test]
fn faults_are_named(rt: HostRuntime) -> Result<(), Fail> {
    let alloc = rt.alloc();
    for (text, line, fault) in [
        ("echo ${a$b}", 1, Fault::BadParameter),
        ("a $$", 1, Fault::BadParameter),
        ("a\nb ${}", 2, Fault::BadParameter),
        ("a ${01}", 1, Fault::BadParameter),
        ("a ${#@}", 1, Fault::BadParameter),
        ("a '\0'", 1, Fault::Nul),
        ("a\n# \0", 2, Fault::Nul),
        ("a \"b\n\0\"", 1, Fault::Nul),
        ("if a 'b", 1, Fault::Unclosed(Opening::Single)),
        ("x=\"$", 1, Fault::Unclosed(Opening::Double)),
        ("x=\"${a:-$", 1, Fault::Unclosed(Opening::Braces)),
        ("x=\n\"${a:-$(", 2, Fault::Unclosed(Opening::Command)),
        ("$(if", 1, Fault::Unclosed(Opening::Command)),
        ("x=\"${a:-$((1)", 1, Fault::Unclosed(Opening::Arith)),
        ("a\n`b \"c", 2, Fault::Unclosed(Opening::Double)),
        ("a `b\n", 1, Fault::Unclosed(Opening::Backquote)),
        ("a `b\n\"c` d", 2, Fault::Unclosed(Opening::Double)),
        ("cat <<E\nx", 1, Fault::Unclosed(Opening::Here)),
        ("cat <<''\n", 1, Fault::Unclosed(Opening::Here)),
        ("cat <<E \"x", 1, Fault::Unclosed(Opening::Here)),
        ("cat <<E \"\n\" $(\n", 2, Fault::Unclosed(Opening::Command)),
        ("cat <<E\n${x-\nE\n}", 2, Fault::Unclosed(Opening::Braces)),
    ]
    .as_slice()
    {
        assert!(rt; has_fault(alloc, text, *line, *fault));
    }
    let deep = nested(alloc, 101)?;
    assert!(rt; has_fault(alloc, deep.as_str(), 1, Fault::TooDeep));
    Ok(())
}
