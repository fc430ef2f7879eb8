//! Bodies of here-documents (POSIX.1-2017, XCU 2.7.4). Each byte is copied once, and looked at twice at most.

ghost use Rattle.std.specs.Prelude.{◌≡◌, ◌≤◌, ◌&&◌, ◌==◌, not, false, [], ◌∷◌, ◌++◌, take, drop, IfOk, OnOk, OnErr, Err, vec_len};
ghost use Rattle.std.specs.Str.{bytes_eq};
ghost use Rattle.sh_lexer.specs.declared.read.LexError.TheVariants.{Memory};
ghost use Rattle.sh_lexer.specs.Cut as spec;
ghost use Rattle.sh_lexer.specs.Bodies.{EndsBody, IsBody, IsFront, Passes};

use crate::bytes::{first, push};
use crate::read::LexError;
use crate::token::Here;
use hs_text::Text;
use std::alloc::{AllocError, Global};

/// What stands at the front of what is left of a body.
enum Front<'a> {
    /// The text ends here.
    Finish,
    Newline(&'a [u8]),
    /// Bytes that are dropped: a tab, or joined lines.
    Skip(&'a [u8]),
    /// A backslash and the byte behind it, which it keeps from joining lines.
    Pair(u8, &'a [u8]),
    Byte(u8, &'a [u8]),
}

/// The bytes of a body so far. A part of a line stands last in them.
#[derive(Drop)]
struct Lines {
    bytes: Vec<u8>,
    /// Where that line begins.
    start: usize,
    ghost within: { start ≤ vec_len bytes },
}

impl Lines {
    fn new(alloc: Global) -> Lines
        ensures body { take result.start result.bytes.items ≡ [] }
        ensures line { drop result.start result.bytes.items ≡ [] }
    {
        Lines {
            bytes: Vec::new(alloc),
            start: 0,
        }
    }

    /// The line that is not complete.
    fn line(&self) -> &[u8]
        ensures { result.now ≡ drop self.now.start self.now.bytes.items }
    {
        &self.bytes[self.start..]
    }

    fn push(&mut self, b: u8) -> Result<(), LexError>
        ensures body { OnOk result (take self.new.start self.new.bytes.items ≡ take self.old.start self.old.bytes.items) }
        ensures line { OnOk result (drop self.new.start self.new.bytes.items ≡ drop self.old.start self.old.bytes.items ++ b ∷ []) }
        ensures err { OnErr result (result ≡ Err Memory) }
    {
        push(&mut self.bytes, b)
    }

    /// The line is complete.
    fn end_line(&mut self) -> Result<(), LexError>
        ensures body { OnOk result (take self.new.start self.new.bytes.items ≡ take self.old.start self.old.bytes.items ++ drop self.old.start self.old.bytes.items ++ 10 ∷ []) }
        ensures line { OnOk result (drop self.new.start self.new.bytes.items ≡ []) }
        ensures err { OnErr result (result ≡ Err Memory) }
    {
        push(&mut self.bytes, b'\n')?;
        self.start = self.bytes.len();
        Ok(())
    }

    /// The complete lines.
    fn into_body(self, alloc: Global) -> Result<Text, AllocError>
        ensures { IfOk result (λ body. body ≡ take self.start self.bytes.items) }
    {
        let mut bytes = self.bytes;
        bytes.truncate(self.start);
        Text::from_vec(alloc, bytes)
    }
}

/// A tab that is dropped.
fn stripped(here: &Here, line: &[u8], b: u8) -> bool
    ensures { result ≡ spec.stripped here.now line.now b }
{
    match line {
        [] => here.strip && b == b'\t',
        [_, ..] => false,
    }
}

/// A backslash that quotes.
fn quotes(here: &Here, b: u8) -> bool
    ensures { result ≡ (b == 92 && not here.now.quoted) }
{
    b == b'\\' && !here.quoted
}

/// After a backslash, in a body that is expanded.
#[tactic(auto, using(crate::proofs::Bodies::bodies))]
fn escape_front<'a>(here: &Here, line: &[u8], text: &'a [u8]) -> Front<'a>
    requires quoting { here.now.quoted ≡ false }
    requires kept { spec.stripped here.now line.now 92 ≡ false }
    ensures reads { IsFront result here.now line.now (92 ∷ text.now) }
    ensures shorter { Passes result (92 ∷ text.now) }
{
    let Some((c, rest)) = first(text) else {
        return Front::Byte(b'\\', text);
    };
    if c == b'\n' {
        return Front::Skip(rest);
    }
    Front::Pair(c, rest)
}

#[tactic(auto, using(crate::proofs::Bodies::bodies))]
fn byte_front<'a>(here: &Here, line: &[u8], b: u8, rest: &'a [u8]) -> Front<'a>
    ensures reads { IsFront result here.now line.now (b ∷ rest.now) }
    ensures shorter { Passes result (b ∷ rest.now) }
{
    if b == b'\n' {
        return Front::Newline(rest);
    }
    if stripped(here, line, b) {
        return Front::Skip(rest);
    }
    if quotes(here, b) {
        return escape_front(here, line, rest);
    }
    Front::Byte(b, rest)
}

#[tactic(auto, using(crate::proofs::Bodies::bodies))]
fn front_of<'a>(here: &Here, line: &[u8], text: &'a [u8]) -> Front<'a>
    ensures reads { IsFront result here.now line.now text.now }
    ensures shorter { Passes result text.now }
{
    match first(text) {
        None => Front::Finish,
        Some((b, rest)) => byte_front(here, line, b, rest),
    }
}

fn is_delimiter(here: &Here, line: &[u8]) -> bool
    ensures { result ≡ bytes_eq line.now here.now.delimiter }
{
    line == here.delimiter.as_slice()
}

/// Whether the line before the end of the text is the delimiter. An empty delimiter needs its newline.
#[tactic(auto, unfolding(crate::specs::Cut::body_of))]
fn is_last(here: &Here, line: &[u8]) -> bool
    ensures { EndsBody result here.now line.now }
{
    match line {
        [] => false,
        [_, ..] => is_delimiter(here, line),
    }
}

/// The body of a here-document, and the text after the line that ends it. None: there is no such line.
pub fn read_body<'a>(
    alloc: Global,
    here: &Here,
    text: &'a [u8],
) -> Result<Option<(Text, &'a [u8])>, LexError>
    ensures { IsBody result (spec.body_of here.now [] [] text.now) }
{
    let mut lines = Lines::new(alloc);
    let mut left = text;
    loop {
        match front_of(here, lines.line(), left) {
            Front::Finish => {
                if is_last(here, lines.line()) {
                    return Ok(Some((lines.into_body(alloc)?, left)));
                }
                return Ok(None);
            }
            Front::Newline(rest) => {
                if is_delimiter(here, lines.line()) {
                    return Ok(Some((lines.into_body(alloc)?, rest)));
                }
                lines.end_line()?;
                left = rest;
            }
            Front::Skip(rest) => left = rest,
            Front::Pair(b, rest) => {
                lines.push(b'\\')?;
                lines.push(b)?;
                left = rest;
            }
            Front::Byte(b, rest) => {
                lines.push(b)?;
                left = rest;
            }
        }
    }
}
