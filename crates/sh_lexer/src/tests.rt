//! Texts with their tokens, by the standard.

use crate::{Bit, Here, LexError, Lexer, Mode, Opener, Token, mode_after};
use hs_text::Text;
use std::alloc::{AllocError, Global};
use std::test::Fail;

/// A mode by its letter. `E`, `e` and `x` are at the body of a here-document that ends with `E`; `e` drops tabs, and the body
/// of `x` is not expanded.
fn mode_of(alloc: Global, letter: u8) -> Result<Mode, AllocError> {
    match letter {
        b'c' => Ok(Mode::Command),
        b'p' => Ok(Mode::Prefix),
        b'm' => Ok(Mode::Pattern),
        b'w' => Ok(Mode::Word),
        b'q' => Ok(Mode::Quotes),
        b'b' => Ok(Mode::Braces(false)),
        b'B' => Ok(Mode::Braces(true)),
        b's' => Ok(Mode::Arith(0)),
        b'y' => Ok(Mode::Body),
        b'd' => Ok(Mode::Delimiter),
        b'E' | b'e' | b'x' => Ok(Mode::Cut(Here {
            delimiter: Text::from_slice(alloc, b"E")?,
            strip: letter == b'e',
            quoted: letter == b'x',
        })),
        _ => Ok(Mode::Arguments),
    }
}

fn show_bit(out: &mut Text, bit: &Bit) -> Result<(), AllocError> {
    match bit {
        Bit::Piece(text) => {
            out.extend(b"+")?;
            out.extend(text.as_slice())
        }
        Bit::Sum(text, count) => {
            out.extend(if *count == 0 { b"#" } else { b"#(" })?;
            out.extend(text.as_slice())
        }
        Bit::Escaped(b) => {
            out.extend(b"\\")?;
            out.extend(&[*b])
        }
        Bit::Single(text) => {
            out.extend(b"'")?;
            out.extend(text.as_slice())
        }
        Bit::Value(text) => {
            out.extend(b"$")?;
            out.extend(text.as_slice())
        }
    }
}

fn show_opener(alloc: Global, out: &mut Text, opener: &Opener) -> Result<(), AllocError> {
    match opener {
        Opener::Double => out.extend(b"\""),
        Opener::Command => out.extend(b"$("),
        Opener::Arith => out.extend(b"$(("),
        Opener::Backquote => out.extend(b"`"),
        Opener::Braces {
            name,
            op,
            colon,
            quoted,
        } => {
            out.extend(if *quoted { b"\"${" } else { b"${" })?;
            out.extend(name.as_slice())?;
            out.extend(if *colon { b":" } else { b"" })?;
            out.extend(format!(in alloc; "{op:?}")?.as_bytes())
        }
    }
}

fn show(alloc: Global, out: &mut Text, token: &Token) -> Result<(), AllocError> {
    match token {
        Token::Operator(op) => out.extend(format!(in alloc; "{op:?}")?.as_bytes()),
        Token::Part(bit) => show_bit(out, bit),
        Token::Param(name, length) => {
            out.extend(if *length { b"${#" } else { b"${" })?;
            out.extend(name.as_slice())?;
            out.extend(b"}")
        }
        Token::Open(opener, _) => show_opener(alloc, out, opener),
        Token::End(end, _) => out.extend(format!(in alloc; "/{end:?}")?.as_bytes()),
        Token::Assign(name) => {
            out.extend(name.as_slice())?;
            out.extend(b"=")
        }
        Token::Redirect(fd, op) => out.extend(format!(in alloc; "{fd}{op:?}")?.as_bytes()),
        Token::Here(fd, strip) => {
            out.extend(format!(in alloc; "{fd}<<")?.as_bytes())?;
            out.extend(if *strip { b"-" } else { b"" })
        }
        Token::Delimiter(text, quoted, _) => {
            out.extend(if *quoted { b"<'" } else { b"<" })?;
            out.extend(text.as_slice())
        }
        Token::Body => out.extend(b"body"),
        Token::Verbatim(text, _) => {
            out.extend(b"body'")?;
            out.extend(text.as_slice())
        }
        Token::Function(name) => {
            out.extend(name.as_slice())?;
            out.extend(b"()")
        }
    }
}

fn show_next(
    alloc: Global,
    out: &mut Text,
    lexer: &mut Lexer,
    mode: Mode,
) -> Result<(), AllocError> {
    let next = lexer.next(mode);
    let line = lexer.line(lexer.place());
    out.extend(format!(in alloc; "{line}:")?.as_bytes())?;
    match next {
        Ok(token) => show(alloc, out, &token),
        Err(LexError::End) => out.extend(b"end"),
        Err(LexError::Bad(fault)) => out.extend(format!(in alloc; "{fault:?}")?.as_bytes()),
        Err(LexError::Memory) => Err(AllocError),
    }
}

/// The tokens of a text that are read in these modes, each behind its line.
fn trace(alloc: Global, text: &str, modes: &str) -> Result<Text, AllocError> {
    let mut out = Text::new(alloc);
    let mut lexer = Lexer::new(alloc, Text::from_slice(alloc, text.as_bytes())?);
    for letter in modes.as_bytes() {
        if !out.is_empty() {
            out.extend(b" ")?;
        }
        show_next(alloc, &mut out, &mut lexer, mode_of(alloc, *letter)?)?;
    }
    Ok(out)
}

/// The first text of a table that has other tokens.
fn first_wrong<'a>(
    alloc: Global,
    table: &[(&'a str, &'a str, &'a str)],
) -> Result<Option<&'a str>, AllocError> {
    for (text, modes, expected) in table.iter() {
        if trace(alloc, text, modes)?.as_slice() != expected.as_bytes() {
            return Ok(Some(*text));
        }
    }
    Ok(None)
}

#[test]
fn operators_and_redirections(rt: HostRuntime) -> Result<(), Fail> {
    let table = [
        (
            "&& || ; ;; ( ) |\n",
            "aaaaaaaaa",
            "1:AndIf 1:OrIf 1:Semi 1:DoubleSemi 1:Open 1:Close 1:Pipe 1:/Newline 2:end",
        ),
        (
            "> >| >> >&",
            "aaaa",
            "1:1Write 1:1Clobber 1:1Append 1:1DupOut",
        ),
        ("< <& << <<-", "aaaa", "1:0Read 1:0DupIn 1:0<< 1:0<<-"),
        ("&\\\n& ;\\\n\\\n;", "aa", "1:AndIf 2:DoubleSemi"),
        ("((", "aa", "1:Open 1:Open"),
        ("&", "a", "1:Unexpected"),
        ("<>", "a", "1:Unexpected"),
        ("2>x", "aaw", "1:2Write 1:+x 1:/Word"),
        ("02>x", "a", "1:2Write"),
        ("2\\\n>x", "a", "1:2Write"),
        ("3>x", "a", "1:Unexpected"),
        ("12<x", "a", "1:Unexpected"),
        ("2 >x", "awa", "1:+2 1:/Word 1:1Write"),
        ("2>&1>f", "aaa", "1:2DupOut 1:1Write 1:+f"),
        ("2a>x", "awa", "1:+2a 1:/Word 1:1Write"),
    ];
    assert_eq!(rt; first_wrong(rt.alloc(), &table)?, None);
    Ok(())
}

#[test]
fn words_and_reserved_words(rt: HostRuntime) -> Result<(), Fail> {
    let table = [
        (
            "echo 'b c'",
            "cwawa",
            "1:+echo 1:/Word 1:'b c 1:/Word 1:end",
        ),
        ("a\\\nb\\ c", "cwww", "1:+ab 2:\\  2:+c 2:/Word"),
        ("if", "c", "1:If"),
        ("if", "a", "1:+if"),
        ("if", "p", "1:+if"),
        ("if", "m", "1:+if"),
        ("i\\\nf;", "ca", "1:If 2:Semi"),
        ("if'", "c", "1:+if"),
        ("ifx", "c", "1:+ifx"),
        ("'if'", "c", "1:'if"),
        ("esac", "m", "1:Esac"),
        ("{ }!", "ccw", "1:LeftBrace 1:+}! 1:/Word"),
        ("until while", "cc", "1:Until 1:While"),
        (
            "x=1 y=2 z=3",
            "cwwpwwaw",
            "1:x= 1:+1 1:/Word 1:y= 1:+2 1:/Word 1:+z=3 1:/Word",
        ),
        ("1x=2", "c", "1:+1x=2"),
        ("f ()", "ca", "1:f() 1:Open"),
        ("exit ()", "c", "1:+exit"),
        ("1f()", "c", "1:+1f"),
        ("f x", "c", "1:+f"),
        (
            " # c\\\n\n a#b",
            "ccca",
            "1:/Newline 2:/Newline 3:+a#b 3:end",
        ),
        ("a\0", "cw", "1:+a 1:Nul"),
        ("a\n#\0", "cwac", "1:+a 1:/Word 1:/Newline 2:Nul"),
        ("\\", "cw", "1:+\\ 1:/Word"),
        ("\\\0", "c", "1:Nul"),
    ];
    assert_eq!(rt; first_wrong(rt.alloc(), &table)?, None);
    Ok(())
}

#[test]
fn parameters(rt: HostRuntime) -> Result<(), Fail> {
    let table = [
        (
            "$x-$1$0$@$#$?",
            "wwwwwwww",
            "1:$x 1:+- 1:$1 1:$0 1:$@ 1:$# 1:$? 1:/Word",
        ),
        ("$12", "ww", "1:$1 1:+2"),
        (
            "${x}${10}${#x}${#}",
            "wwww",
            "1:${x} 1:${10} 1:${#x} 1:${#}",
        ),
        ("${x:-w}", "wbb", "1:${x:Default 1:+w 1:/Brace"),
        ("${x-", "q", "1:\"${xDefault"),
        ("${x%%y}", "wbb", "1:${xLargeSuffix 1:+y 1:/Brace"),
        ("${##}", "wb", "1:${#SmallPrefix 1:/Brace"),
        ("${#?}", "w", "1:${#Error"),
        ("${01}", "w", "1:BadParameter"),
        ("${#0}", "w", "1:BadParameter"),
        ("${#@}", "w", "1:BadParameter"),
        ("${x!}", "w", "1:BadParameter"),
        ("${x:}", "w", "1:BadParameter"),
        ("a\n$$", "cwac", "1:+a 1:/Word 1:/Newline 2:BadParameter"),
        ("$!", "w", "1:BadParameter"),
        ("$-", "q", "1:BadParameter"),
        ("$%", "ww", "1:+$ 1:+%"),
        ("${x", "w", "1:Unclosed(Braces)"),
        ("$(\\\n(", "w", "1:$(("),
        ("$(a", "wc", "1:$( 1:+a"),
    ];
    assert_eq!(rt; first_wrong(rt.alloc(), &table)?, None);
    Ok(())
}

#[test]
fn quotes_and_arithmetic(rt: HostRuntime) -> Result<(), Fail> {
    let table = [
        (
            "\"a\\$\\c'\"",
            "wqqqqq",
            "1:\" 1:+a 1:\\$ 1:+\\ 1:+c' 1:/Quote",
        ),
        ("'a", "c", "1:Unclosed(Single)"),
        ("'a\nb' c", "cwa", "1:'a\nb 2:/Word 2:+c"),
        ("\"a", "wqq", "1:\" 1:+a 1:end"),
        ("\"a\nb\0", "wq", "1:\" 1:Nul"),
        ("'}", "BB", "1:+' 1:/Brace"),
        ("'}'}", "bb", "1:'} 1:/Brace"),
        ("\\}", "B", "1:\\}"),
        ("\\}", "q", "1:+\\"),
        ("\"x", "B", "1:\""),
        ("1+(2)))", "ss", "1:#1+(2) 1:/Arith"),
        ("a)b)\\\n)", "ss", "1:#a)b 1:/Arith"),
        ("(\\$", "s", "1:#(("),
        ("\\$\\x", "ss", "1:\\$ 1:+\\"),
        ("1", "ss", "1:#1 1:end"),
    ];
    assert_eq!(rt; first_wrong(rt.alloc(), &table)?, None);
    Ok(())
}

#[test]
fn backquotes(rt: HostRuntime) -> Result<(), Fail> {
    let table = [
        (
            "`a\\\\b\\$c`d",
            "wcwwwaww",
            "1:` 1:+a 1:\\b 1:$c 1:/Word 1:/Text 1:+d 1:/Word",
        ),
        (
            "x\n`a\n\n$$`",
            "cwaccwacc",
            "1:+x 1:/Word 1:/Newline 2:` 2:+a 2:/Word 2:/Newline 3:/Newline 4:BadParameter",
        ),
        ("`\n\\`\n$$", "wccc", "1:` 1:/Newline 2:` 2:/Newline"),
        (
            "`\n\\`\n$$\\``",
            "wcccc",
            "1:` 1:/Newline 2:` 2:/Newline 3:BadParameter",
        ),
        ("`a", "wcwa", "1:` 1:+a 1:/Word 1:Unclosed(Backquote)"),
        ("``", "wc", "1:` 1:/Text"),
    ];
    assert_eq!(rt; first_wrong(rt.alloc(), &table)?, None);
    Ok(())
}

#[test]
fn here_documents(rt: HostRuntime) -> Result<(), Fail> {
    let table = [
        ("E'F'\"G\\\"\\h\"\\I x", "d", "1:<'EFG\"\\hI"),
        ("E\n", "da", "1:<E 1:/Newline"),
        ("$x`", "d", "1:<$x`"),
        ("'E", "d", "1:Unclosed(Single)"),
        ("\"E", "d", "1:Unclosed(Double)"),
        (" ;", "d", "1:Semi"),
        ("a\\\nb\nE\nx", "Eyyc", "1:body 1:+ab\n 3:/Text 4:+x"),
        ("a\\\n$$\nE\n", "Eyy", "1:body 1:+a 2:BadParameter"),
        (
            "a\\\\\\\n$$\nE\n",
            "Eyyy",
            "1:body 1:+a 1:\\\\ 2:BadParameter",
        ),
        ("a\\\nb\nE\nc", "xc", "1:body'a\\\nb\n 4:+c"),
        (
            "\ta\n\t\\\n\tb\n\tE\nx",
            "eyyc",
            "1:body 1:+a\nb\n 4:/Text 5:+x",
        ),
        (
            "\ta\n\t\\\n\t$$\n\tE\nx",
            "eyy",
            "1:body 1:+a\n 3:BadParameter",
        ),
        ("a\nb", "E", "1:Unclosed(Here)"),
        ("a\nE", "Eyyc", "1:body 1:+a\n 2:/Text 2:end"),
        (
            "`\n$$`\nE\n",
            "Eycc",
            "1:body 1:` 1:/Newline 2:BadParameter",
        ),
        (
            "`\\\n\n$$`\nE\n",
            "Eycc",
            "1:body 1:` 2:/Newline 3:BadParameter",
        ),
    ];
    assert_eq!(rt; first_wrong(rt.alloc(), &table)?, None);
    Ok(())
}

/// The tokens of a text from its beginning, each read in the mode after the one before it.
#[test]
fn modes_follow(rt: HostRuntime) -> Result<(), Fail> {
    let alloc = rt.alloc();
    let mut lexer = Lexer::new(alloc, Text::from_slice(alloc, b"if x=\"$y\"")?);
    let mut out = Text::new(alloc);
    let mut mode = Mode::Command;
    for _ in 0..4 {
        match lexer.next(mode.clone()?) {
            Ok(token) => {
                show(alloc, &mut out, &token)?;
                mode = mode_after(mode, &token)?;
            }
            Err(_) => return Err(Fail::from(AllocError)),
        }
    }
    assert!(rt; out.as_slice() == b"Ifx=\"$y".as_slice());
    Ok(())
}
