//! A cursor over a text (POSIX.1-2017, XCU 2.3). Over all tokens each byte is looked at a bounded number of times, and the
//! texts in it that are read by themselves are copied once.

ghost use Rattle.std.specs.Prelude.{◌≡◌, ◌-◌, ◌++◌, [], ◌∷◌, MatchOption, drop, length, reverse};
ghost use Rattle.sh_lexer.specs.Trail.{Moves, Reads, Shrinks};
ghost use Rattle.sh_lexer.specs.Lex.{lex};
ghost use Rattle.sh_lexer.specs.Seen.{Closes, Ends, IsCutFrom, IsSeen, Opens};
ghost use Rattle.sh_lexer.specs.Trail as spec;

use crate::next::{read_token, token_start};
use crate::place::{Cutting, How, Outer, Place, bytes_before, bytes_from, newlines, outer_offset};
use crate::read::{LexError, Read};
use crate::token::{End, Mode, Token};
use hs_text::Text;
use sh_syntax::{Fault, Opening};
use std::alloc::Global;
use std::marker::Model;

/// What comes next, by offsets.
enum Seen {
    /// A token, and where what comes after it begins.
    Token(Token, usize),
    /// A token, the text that is cut out behind it, and where what comes after that begins. None: its end is missing.
    Cut(Token, Text, Option<usize>),
}

/// How a text is cut out by a token that is read in this mode.
fn how_of(mode: &Mode) -> How
    ensures { result ≡ spec.how_of mode.now }
{
    match mode {
        Mode::Cut(here) => How::Body(here.strip),
        Mode::Command | Mode::Prefix | Mode::Arguments | Mode::Pattern => How::Backquotes,
        Mode::Word | Mode::Quotes | Mode::Braces(_) | Mode::Arith(_) => How::Backquotes,
        Mode::Body | Mode::Delimiter => How::Backquotes,
    }
}

/// The offset of what comes after the rest of the text is left.
fn offset_of(text: &[u8], rest: &[u8]) -> usize
    ensures { result ≡ length text.now - length rest.now }
{
    text.len().saturating_sub(rest.len())
}

/// The token at an offset.
fn look(alloc: Global, mode: Mode, text: &[u8], at: usize) -> Result<Seen, LexError>
    ensures { IsSeen result (lex mode (drop at text.now)) text.now }
{
    match read_token(alloc, mode, bytes_from(text, at))? {
        Read::Token(token, rest) => Ok(Seen::Token(token, offset_of(text, rest))),
        Read::Cut(token, inside, after) => match after {
            Some(rest) => Ok(Seen::Cut(token, inside, Some(offset_of(text, rest)))),
            None => Ok(Seen::Cut(token, inside, None)),
        },
    }
}

/// Where the text begins that is cut out by the token at an offset, which is read in this mode.
fn cut_at(mode: &Mode, text: &[u8], rest: &[u8]) -> usize
    ensures { result ≡ spec.cut_at mode.now (length text.now - length rest.now) }
{
    let offset = text.len().saturating_sub(rest.len());
    match mode {
        Mode::Cut(_) => offset,
        Mode::Command | Mode::Prefix | Mode::Arguments | Mode::Pattern => offset + 1,
        Mode::Word | Mode::Quotes | Mode::Braces(_) | Mode::Arith(_) => offset + 1,
        Mode::Body | Mode::Delimiter => offset + 1,
    }
}

/// A text out of which one was cut, by a token that is read in a mode.
fn cut_from(text: Text, after: Option<usize>, cutting: Cutting) -> Outer
    ensures { IsCutFrom result text after cutting }
{
    match after {
        Some(at) => Outer {
            text,
            at,
            ends: true,
            cutting,
        },
        None => {
            let at = text.len();
            Outer {
                text,
                at,
                ends: false,
                cutting,
            }
        }
    }
}

/// The nearest of the texts that one was cut out of, and the others.
fn nearest(outer: &[Outer]) -> Option<(&Outer, &[Outer])>
    ensures { MatchOption result (outer.now ≡ []) (λ p. outer.now ≡ p.1.now ++ p.0.now ∷ []) }
{
    outer.split_last()
}

/// The line of a place in a text, from 1 on. Then come the texts that it was cut out of, the nearest one last.
#[tactic(auto, using(crate::proofs::Trails::reverse_push))]
fn line_in(text: &[u8], offset: usize, outer: &[Outer]) -> usize
    ensures { result ≡ spec.line_in text.now offset (reverse outer.now) }
{
    let mut text = text;
    let mut offset = offset;
    let mut left = outer;
    while let Some((outer, rest)) = nearest(left) {
        text = outer.text.as_slice();
        offset = outer_offset(outer.cutting, text, offset);
        left = rest;
    }
    newlines(bytes_before(text, offset)) + 1
}

/// A text, read token by token. The texts that are cut out of it, which stand in backquotes or are bodies of here-documents,
/// are read where they stand.
#[derive(Drop)]
pub struct Lexer {
    alloc: Global,
    /// The text that is being read.
    text: Text,
    /// How many of its bytes were read.
    at: usize,
    /// The texts that it was cut out of, the nearest one last.
    outer: Vec<Outer>,
    /// Where the token begins that was asked for last.
    last: Place,
    /// How a text that ended there was cut out of this one.
    closed: Option<Cutting>,
}

impl Model for Lexer {
    ghost use Rattle.std.specs.Prelude.{reverse};
    ghost use Rattle.sh_lexer.specs.Trail.{Trail};

    ghost Value = { Trail };

    ghost view = { λ a. record { whole = a.text; at = a.at; outer = reverse a.outer.items; last = a.last; closed = a.closed } };
}

impl Lexer {
    /// At the beginning of a text.
    pub fn new(alloc: Global, text: Text) -> Lexer
        ensures { result ≡ spec.beginning text }
    {
        Lexer {
            alloc,
            text,
            at: 0,
            outer: Vec::new(alloc),
            last: Place::beginning(),
            closed: None,
        }
    }

    /// Where the token begins that was asked for last.
    pub fn place(&self) -> Place
        ensures { result ≡ self.now.last }
    {
        self.last
    }

    /// The line of a place that stands round the text that is read.
    #[tactic(auto, using(crate::proofs::Trails::line_step))]
    fn line_from(&self, place: Place) -> usize
        ensures { result ≡ spec.line_from self.now.whole self.now.outer (length self.now.outer - place.depth) place.offset }
    {
        let mut text = self.text.as_slice();
        let mut left = self.outer.as_slice();
        loop {
            if left.len() <= place.depth() {
                return line_in(text, place.offset(), left);
            }
            match nearest(left) {
                None => return line_in(text, place.offset(), left),
                Some((outer, rest)) => {
                    text = outer.text.as_slice();
                    left = rest;
                }
            }
        }
    }

    /// The line of a place in the text that ended last.
    fn line_ended(&self, offset: usize) -> usize
        ensures { result ≡ spec.line_ended self.now.closed self.now.whole offset self.now.outer }
    {
        let text = self.text.as_slice();
        match self.closed {
            None => line_in(text, offset, self.outer.as_slice()),
            Some(cutting) => line_in(
                text,
                outer_offset(cutting, text, offset),
                self.outer.as_slice(),
            ),
        }
    }

    /// The line of a place, from 1 on. The place stands in the text that is read, in one round it, or in one that ended with
    /// the last token. It takes as many steps as the texts round the place have bytes.
    pub fn line(&self, place: Place) -> usize
        ensures { result ≡ spec.line_of self.now place }
    {
        if self.outer.len() < place.depth() {
            return self.line_ended(place.offset());
        }
        self.line_from(place)
    }

    /// Where the token begins that comes next, if it is read in this mode, and how it cuts out a text if it does.
    fn next_place(&self, mode: &Mode) -> (Place, Cutting)
        ensures place { result.0 ≡ spec.begins mode.now self.now }
        ensures cutting { result.1 ≡ spec.cutting mode.now (spec.begins mode.now self.now).offset }
    {
        let text = self.text.as_slice();
        let rest = token_start(mode, bytes_from(text, self.at));
        let place = Place::new(self.outer.len(), offset_of(text, rest));
        let cutting = Cutting {
            how: how_of(mode),
            start: cut_at(mode, text, rest),
        };
        (place, cutting)
    }

    /// A text is cut out of the one that is read, and is read next. `after` is where the one round it goes on.
    #[tactic(auto, using(crate::proofs::Trails::reverse_push))]
    fn open(&mut self, inside: Text, after: Option<usize>, cutting: Cutting) -> Result<(), LexError>
        ensures { Opens result self.old self.new inside after cutting }
    {
        let outer = cut_from(self.text.clone()?, after, cutting);
        match self.outer.push(outer) {
            Ok(()) => {
                self.text = inside;
                self.at = 0;
                Ok(())
            }
            Err(_) => Err(LexError::Memory),
        }
    }

    /// The text that is read ends. The one round it goes on, if its end was found.
    #[tactic(auto, using(crate::proofs::Trails::reverse_push))]
    fn close(&mut self) -> Result<Token, LexError>
        ensures answer { Closes result self.old.outer }
        ensures trail { Ends result self.old self.new }
    {
        match self.outer.last() {
            None => return Err(LexError::End),
            Some(outer) => {
                if !outer.ends {
                    return Err(LexError::Bad(Fault::Unclosed(Opening::Backquote)));
                }
            }
        }
        match self.outer.pop() {
            None => Err(LexError::End),
            Some(outer) => {
                self.text = outer.text;
                self.at = outer.at;
                self.closed = Some(outer.cutting);
                Ok(Token::End(End::Text, Mode::Command))
            }
        }
    }

    /// The next token. A text that is cut out behind it is read next, and at its end the one round it goes on. After an error
    /// nothing was read.
    pub fn next(&mut self, mode: Mode) -> Result<Token, LexError>
        ensures reads { Reads result mode self.old self.new }
        ensures moves { Moves result mode self.old self.new }
        ensures shrinks { Shrinks result self.old self.new }
    {
        let (place, cutting) = self.next_place(&mode);
        self.last = place;
        self.closed = None;
        match look(self.alloc, mode, self.text.as_slice(), self.at) {
            Ok(Seen::Token(token, at)) => {
                self.at = at;
                Ok(token)
            }
            Ok(Seen::Cut(token, inside, after)) => {
                self.open(inside, after, cutting)?;
                Ok(token)
            }
            Err(LexError::End) => self.close(),
            Err(error) => Err(error),
        }
    }
}
