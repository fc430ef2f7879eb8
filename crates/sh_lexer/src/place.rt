//! Places in a text that is being read, and the lines that they are on. A line is looked for only where it is asked for; that
//! takes as many steps as the texts round the place have bytes.

ghost use Rattle.std.specs.Prelude.{◌≡◌, ◌∷◌, ◌==◌, ◌&&◌, not, true, false, drop, take};
ghost use Rattle.sh_lexer.specs.Bytes.{joins};
ghost use Rattle.sh_lexer.specs.Cut.{unquoted_in_backquotes};
ghost use Rattle.sh_lexer.specs.Places.{IsSpot, Passes, PassesOne};
ghost use Rattle.sh_lexer.specs.Trail as spec;

use crate::bytes::first;
use hs_text::Text;

/// A place in a text, or in one that was cut out of it.
#[derive(Clone, Copy, Debug, PartialEq, Eq, Drop)]
pub struct Place {
    /// How many texts there are round the one that it stands in.
    depth: usize,
    /// How many bytes of that text stand before it.
    offset: usize,
}

impl Place {
    /// The beginning of a whole text.
    pub fn beginning() -> Place
        ensures { result ≡ spec.at_beginning }
    {
        Place {
            depth: 0,
            offset: 0,
        }
    }

    pub fn new(depth: usize, offset: usize) -> Place
        ensures depth { result.depth ≡ depth }
        ensures offset { result.offset ≡ offset }
    {
        Place { depth, offset }
    }

    pub fn depth(self) -> usize
        ensures { result ≡ self.depth }
    {
        self.depth
    }

    pub fn offset(self) -> usize
        ensures { result ≡ self.offset }
    {
        self.offset
    }
}

/// How a text was cut out.
#[derive(Clone, Copy, Debug, PartialEq, Eq, Drop)]
pub enum How {
    Backquotes,
    /// The body of a here-document; true: tabs at the front of its lines were dropped.
    Body(bool),
}

/// How and where a text was cut out of another one.
#[derive(Clone, Copy, Debug, PartialEq, Eq, Drop)]
pub struct Cutting {
    pub how: How,
    /// Where it begins in the other one.
    pub start: usize,
}

/// A text out of which another one was cut.
#[derive(Drop)]
pub struct Outer {
    pub text: Text,
    /// Where it goes on after that.
    pub at: usize,
    /// Whether the end of the text that was cut out was found.
    pub ends: bool,
    pub cutting: Cutting,
}

/// The bytes from a place on.
pub fn bytes_from(text: &[u8], at: usize) -> &[u8]
    ensures { result.now ≡ drop at text.now }
{
    match text.get(at..) {
        Some(rest) => rest,
        None => &[],
    }
}

/// The bytes before a place.
pub fn bytes_before(text: &[u8], at: usize) -> &[u8]
    ensures { result.now ≡ take at text.now }
{
    match text.get(..at) {
        Some(front) => front,
        None => text,
    }
}

/// A backslash that goes, before a byte between backquotes.
fn is_dropped(b: u8, c: u8) -> bool
    ensures { result ≡ (b == 92 && unquoted_in_backquotes c) }
{
    b == b'\\' && matches!(c, b'$' | b'\\' | b'`')
}

/// The text after what one byte between backquotes was made of.
#[tactic(auto, using(crate::proofs::Spots::between_backquotes))]
fn pass_quoted(text: &[u8]) -> &[u8]
    ensures { PassesOne result.now text.now }
{
    let Some((b, rest)) = first(text) else {
        return text;
    };
    let Some((c, after)) = first(rest) else {
        return rest;
    };
    if is_dropped(b, c) {
        return after;
    }
    rest
}

/// From the byte on that byte number `count` of a text between backquotes was made of.
fn from_backquotes(count: usize, text: &[u8]) -> &[u8]
    ensures { result.now ≡ spec.in_backquotes count text.now }
{
    let mut left = text;
    let mut count = count;
    while count > 0 {
        left = pass_quoted(left);
        count -= 1;
    }
    left
}

/// What stands at the front of what is left of a body.
enum Spot<'a> {
    Finish,
    /// Bytes that were dropped: a tab, or joined lines.
    Skip(&'a [u8]),
    Byte(u8, &'a [u8]),
}

/// A tab that was dropped.
fn is_tab(strip: bool, front: bool, b: u8) -> bool
    ensures { result ≡ (strip && (front && b == 9)) }
{
    strip && front && b == b'\t'
}

/// Joined lines.
fn is_join(quoted: bool, b: u8, c: u8) -> bool
    ensures { result ≡ (not quoted && joins b c) }
{
    !quoted && b == b'\\' && c == b'\n'
}

#[tactic(auto, using(crate::proofs::Spots::spots))]
fn byte_spot(strip: bool, front: bool, quoted: bool, b: u8, rest: &[u8]) -> Spot<'_>
    ensures spot { IsSpot result strip front quoted (b ∷ rest.now) }
    ensures shorter { Passes result (b ∷ rest.now) }
{
    if is_tab(strip, front, b) {
        return Spot::Skip(rest);
    }
    let Some((c, after)) = first(rest) else {
        return Spot::Byte(b, rest);
    };
    if is_join(quoted, b, c) {
        return Spot::Skip(after);
    }
    Spot::Byte(b, rest)
}

fn spot_of(strip: bool, front: bool, quoted: bool, text: &[u8]) -> Spot<'_>
    ensures spot { IsSpot result strip front quoted text.now }
    ensures shorter { Passes result text.now }
{
    match first(text) {
        None => Spot::Finish,
        Some((b, rest)) => byte_spot(strip, front, quoted, b, rest),
    }
}

/// From the byte on that byte number `count` of a body was made of.
#[tactic(auto, unfolding(crate::specs::Trail::in_body))]
fn from_body(strip: bool, count: usize, text: &[u8]) -> &[u8]
    ensures { result.now ≡ spec.in_body strip true false count text.now }
{
    let mut left = text;
    let mut front = true;
    let mut quoted = false;
    let mut count = count;
    loop {
        match spot_of(strip, front, quoted, left) {
            Spot::Finish => return left,
            Spot::Skip(rest) => left = rest,
            Spot::Byte(b, rest) => {
                if count == 0 {
                    return left;
                }
                count -= 1;
                front = b == b'\n';
                quoted = !quoted && b == b'\\';
                left = rest;
            }
        }
    }
}

fn origin(how: How, count: usize, text: &[u8]) -> &[u8]
    ensures { result.now ≡ spec.origin how count text.now }
{
    match how {
        How::Backquotes => from_backquotes(count, text),
        How::Body(strip) => from_body(strip, count, text),
    }
}

/// Where in the text round it a byte of a text comes from.
pub fn outer_offset(cutting: Cutting, text: &[u8], offset: usize) -> usize
    ensures { result ≡ spec.outer_offset cutting text.now offset }
{
    let rest = origin(cutting.how, offset, bytes_from(text, cutting.start));
    text.len().saturating_sub(rest.len())
}

pub fn newlines(text: &[u8]) -> usize
    ensures { result ≡ spec.newlines text.now }
{
    text.iter().filter(|b| **b == b'\n').count()
}
