//! The text that is being written, and those round it where it stands in backquotes.

ghost use Rattle.std.specs.Prelude.{◌≡◌, ◌==◌, ◌||◌, [], ◌∷◌, ◌++◌, IfOk, OnOk, reverse};
ghost use Rattle.sh_lexer.specs.Lexes.{source};
ghost use Rattle.sh_spell.specs.Layout as spec;

use crate::back::Back;
use crate::tokens::write_token;
use crate::turn::{Turn, token_turn};
use hs_text::Text;
use sh_grammar::Stack;
use sh_lexer::Token;
use std::alloc::{AllocError, Global};
use std::marker::Model;
use std::mem;

#[derive(Drop)]
pub struct Sheet {
    text: Back,
    outer: Stack<Back>,
}

impl Model for Sheet {
    ghost use Rattle.std.specs.Prelude.{map, Some};
    ghost use Rattle.sh_lexer.specs.Lexes.{Source, source};

    ghost Value = { Source };

    ghost view = { λ s. source s.text (map Some s.outer) };
}

impl Sheet {
    pub fn new(alloc: Global) -> Sheet
        ensures { result ≡ source [] [] }
    {
        Sheet {
            text: Back::new(alloc),
            outer: Stack::new(alloc),
        }
    }

    /// Puts a token in front.
    pub fn put(&mut self, alloc: Global, token: &Token) -> Result<(), AllocError>
        ensures { OnOk result (self.new ≡ spec.before token.now self.old) }
    {
        match token_turn(token) {
            Turn::Stands => write_token(&mut self.text, token),
            Turn::Ends => self.end_text(alloc),
            Turn::Begins => self.begin_text(alloc),
        }
    }

    /// The text ends in front of a closing backquote.
    fn end_text(&mut self, alloc: Global) -> Result<(), AllocError>
        ensures { OnOk result (self.new ≡ spec.end_of self.old) }
    {
        let around = mem::replace(&mut self.text, Back::new(alloc));
        self.outer.push(around)
    }

    /// An opening backquote stands in front of the text.
    fn begin_text(&mut self, alloc: Global) -> Result<(), AllocError>
        ensures { OnOk result (self.new ≡ spec.in_backquotes self.old.text self.old.outer) }
    {
        let mut around = match self.outer.pop() {
            None => Back::new(alloc),
            Some(around) => around,
        };
        around.put(b'`')?;
        put_guarded(&mut around, self.text.bytes())?;
        around.put(b'`')?;
        self.text = around;
        Ok(())
    }

    pub fn into_text(self) -> Result<Text, AllocError>
        ensures { IfOk result (λ text. text ≡ self.text) }
    {
        let Sheet { text, outer } = self;
        let _ = outer;
        text.into_text()
    }
}

/// Writes bytes, which are given from the last one on, with backslashes before backquotes and backslashes.
fn put_guarded(out: &mut Back, bytes: &[u8]) -> Result<(), AllocError>
    ensures { OnOk result (out.new ≡ spec.guarded (reverse bytes.now) ++ out.old) }
{
    let mut left = bytes;
    'bytes: while let Some((byte, rest)) = left.split_first() {
        put_guarded_byte(out, *byte)?;
        left = rest;
    }
    Ok(())
}

fn needs_guard(byte: u8) -> bool
    ensures { result ≡ (byte == 92 || byte == 96) }
{
    byte == b'\\' || byte == b'`'
}

fn put_guarded_byte(out: &mut Back, byte: u8) -> Result<(), AllocError>
    ensures { OnOk result (out.new ≡ spec.guard_text byte ++ out.old) }
{
    out.put(byte)?;
    if needs_guard(byte) {
        out.put(b'\\')
    } else {
        Ok(())
    }
}
