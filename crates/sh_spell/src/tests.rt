//! Tokens and scripts as texts.

use crate::{spell, spell_tokens};
use hs_text::Text;
use sh_lexer::{Bit, End, Mode, Opener, Token};
use sh_syntax::{AndOr, Command, List, Part, Pipeline, Redir, RedirOp, Script, Word};
use sqlite_items::Items;
use std::alloc::{AllocError, Global};
use std::test::Fail;

fn piece(alloc: Global, bytes: &[u8]) -> Result<Token, AllocError> {
    Ok(Token::Part(Bit::Piece(Text::from_slice(alloc, bytes)?)))
}

#[test]
fn a_quoted_word(rt: HostRuntime) -> Result<(), Fail> {
    let alloc = rt.alloc();
    let mut tokens = Items::new(alloc);
    tokens.push(piece(alloc, b"echo")?)?;
    tokens.push(Token::End(End::Word, Mode::Arguments))?;
    tokens.push(Token::Part(Bit::Single(Text::from_slice(alloc, b"b c")?)))?;
    tokens.push(Token::End(End::Word, Mode::Arguments))?;
    let text = spell_tokens(alloc, tokens.as_slice())?;
    assert_eq!(rt; text.as_slice(), b"echo 'b c'".as_slice());
    Ok(())
}

#[test]
fn a_backslash_in_backquotes(rt: HostRuntime) -> Result<(), Fail> {
    let alloc = rt.alloc();
    let mut tokens = Items::new(alloc);
    tokens.push(Token::Open(Opener::Backquote, Mode::Word))?;
    tokens.push(piece(alloc, b"a")?)?;
    tokens.push(Token::Part(Bit::Escaped(b'b')))?;
    tokens.push(Token::End(End::Word, Mode::Arguments))?;
    tokens.push(Token::End(End::Text, Mode::Word))?;
    tokens.push(Token::End(End::Word, Mode::Arguments))?;
    let text = spell_tokens(alloc, tokens.as_slice())?;
    assert_eq!(rt; text.as_slice(), b"`a\\\\b`".as_slice());
    Ok(())
}

fn plain(alloc: Global, bytes: &[u8]) -> Result<Part, AllocError> {
    Ok(Part::Plain(Text::from_slice(alloc, bytes)?))
}

fn word(alloc: Global, part: Part) -> Result<Word, AllocError> {
    let mut parts = Items::new(alloc);
    parts.push(part)?;
    Ok(Word { parts })
}

fn write_to(alloc: Global, part: Part) -> Result<Redir, AllocError> {
    Ok(Redir {
        fd: 1,
        op: RedirOp::Write,
        word: word(alloc, part)?,
    })
}

/// List 0 of these words and redirections, and list 1 and list 2 of one word each.
fn script(alloc: Global, words: Items<Word>, redirs: Items<Redir>) -> Result<Script, AllocError> {
    let mut leaves = Items::new(alloc);
    leaves.push(simple(alloc, words, redirs)?)?;
    let mut lists = Items::new(alloc);
    lists.push(list(alloc, 0)?)?;
    for (name, number) in [(b"x", 1), (b"y", 2)] {
        let mut words = Items::new(alloc);
        words.push(word(alloc, plain(alloc, name.as_slice())?)?)?;
        leaves.push(simple(alloc, words, Items::new(alloc))?)?;
        lists.push(list(alloc, number)?)?;
    }
    Ok(Script {
        lists,
        bodies: Items::new(alloc),
        leaves,
    })
}

fn simple(alloc: Global, words: Items<Word>, redirs: Items<Redir>) -> Result<Pipeline, AllocError> {
    let mut stages = Items::new(alloc);
    stages.push(Command::Simple {
        assigns: Items::new(alloc),
        words,
        redirs,
    })?;
    Ok(Pipeline {
        bang: false,
        stages,
    })
}

fn list(alloc: Global, leaf: u32) -> Result<List, AllocError> {
    let mut items = Items::new(alloc);
    items.push(AndOr {
        first: leaf,
        rest: Items::new(alloc),
    })?;
    Ok(List { items })
}

#[test]
fn a_substitution_in_a_redirection(rt: HostRuntime) -> Result<(), Fail> {
    let alloc = rt.alloc();
    let rows: [(u32, u32, &[u8]); 2] = [
        (1, 2, b"> f a $( x ) > $( y ) b"),
        (2, 1, b"> f > $( x ) a $( y ) b"),
    ];
    for (in_word, in_redir, expected) in rows {
        let mut words = Items::new(alloc);
        words.push(word(alloc, plain(alloc, b"a")?)?)?;
        words.push(word(alloc, Part::Command(in_word))?)?;
        words.push(word(alloc, plain(alloc, b"b")?)?)?;
        let mut redirs = Items::new(alloc);
        redirs.push(write_to(alloc, plain(alloc, b"f")?)?)?;
        redirs.push(write_to(alloc, Part::Command(in_redir))?)?;
        let text = spell(alloc, &script(alloc, words, redirs)?)?;
        assert_eq!(rt; text.as_slice(), expected);
    }
    Ok(())
}

#[test]
fn a_redirection_that_ends_in_a_backslash(rt: HostRuntime) -> Result<(), Fail> {
    let alloc = rt.alloc();
    let mut words = Items::new(alloc);
    words.push(word(alloc, plain(alloc, b"a")?)?)?;
    let mut redirs = Items::new(alloc);
    redirs.push(write_to(alloc, plain(alloc, b"f")?)?)?;
    redirs.push(write_to(alloc, plain(alloc, b"\\")?)?)?;
    let text = spell(alloc, &script(alloc, words, redirs)?)?;
    assert_eq!(rt; text.as_slice(), b"> f a > \\".as_slice());
    Ok(())
}
