//! Bracket expressions (POSIX.1-2017, XCU 2.13.1 and XBD 9.3.5).

ghost use Rattle.std.specs.Prelude.{◌≡◌, ◌+◌, ◌≤◌, ◌++◌, length, drop, Some, None, IfOk, OnOk, IfSome, MatchOption};
ghost use Rattle.sh_pattern.specs.Items as spec;

use crate::class::{Class, Symbol};
use crate::item::{ByteRange, Set};
use std::alloc::{AllocError, Global};

/// Whether it is this byte, not quoted.
pub fn plain(byte: u8, symbol: Symbol) -> bool
    ensures { result ≡ spec.plain byte symbol }
{
    symbol.0 == byte && !symbol.1
}

/// The end of a range, where `-` comes and a byte that is no closing bracket.
fn range_end(text: &[Symbol]) -> Option<u8>
    ensures { result ≡ spec.range_end text.now }
{
    match text {
        [dash, high, ..] if plain(b'-', *dash) && !plain(b']', *high) => Some(high.0),
        _ => None,
    }
}

/// An element of a bracket expression.
#[derive(Clone, Copy, Drop)]
pub enum Element {
    Class(Class),
    Range(ByteRange),
    Byte(u8),
}

impl Element {
    /// The element that begins with this byte, before these.
    fn at(first: Symbol, rest: &[Symbol]) -> Element
        ensures element { result ≡ spec.element first rest.now }
        ensures within { spec.more result ≤ length rest.now }
    {
        if plain(b'[', first)
            && let Some(class) = Class::at(rest)
        {
            return Element::Class(class);
        }
        match range_end(rest) {
            Some(high) => Element::Range(ByteRange { low: first.0, high }),
            None => Element::Byte(first.0),
        }
    }

    /// How many bytes it has behind its first.
    fn more(self) -> usize
        ensures { result ≡ spec.more self }
    {
        match self {
            Element::Class(class) => class.written().len(),
            Element::Range(_) => 2,
            Element::Byte(_) => 0,
        }
    }

    /// Puts the bytes that it lists behind those before.
    fn put(self, ranges: &mut Vec<ByteRange>) -> Result<(), AllocError>
        ensures { OnOk result (ranges.new.items ≡ ranges.old.items ++ spec.ranges_of self) }
    {
        match self {
            Element::Class(class) => ranges.extend_from_slice(class.ranges())?,
            Element::Range(range) => ranges.push(range)?,
            Element::Byte(byte) => ranges.push(ByteRange {
                low: byte,
                high: byte,
            })?,
        }
        Ok(())
    }
}

/// Whether the closing bracket comes for the elements of the text, where the table says so for what is behind its first byte.
fn closes(text: &[Symbol], closed: &[bool]) -> bool
    requires { spec.IsClosings closed.now (drop 1 text.now) }
    ensures { result ≡ spec.closes text.now }
{
    match text.split_first() {
        Some((first, rest)) => plain(b']', *first) || closed[Element::at(*first, rest).more()],
        None => false,
    }
}

/// For each place, whether the closing bracket comes for elements that begin there. So no bracket expression is begun in vain,
/// and the time of all is linear in the text.
pub fn closings(alloc: Global, text: &[Symbol]) -> Result<Vec<bool>, AllocError>
    ensures { IfOk result (λ table. spec.IsClosings table.items text.now) }
{
    let mut closed = vec![in alloc; false; text.len() + 1]?;
    let mut at = text.len();
    'places: while at > 0 {
        at -= 1;
        let here = closes(text.split_at(at).1, closed.as_slice().split_at(at + 1).1);
        closed[at] = here;
    }
    Ok(closed)
}

/// The elements up to the closing bracket, if it comes, and how many bytes come up to it and with it.
fn elements(
    alloc: Global,
    text: &[Symbol],
    closed: &[bool],
) -> Result<Option<(Vec<ByteRange>, usize)>, AllocError>
    requires { spec.IsClosings closed.now text.now }
    ensures found { IfOk result (λ found. MatchOption found (spec.elements_first text.now ≡ None) (λ p. spec.elements_first text.now ≡ Some (p.0.items, p.1))) }
    ensures within { IfOk result (λ found. IfSome found (λ p. p.1 ≤ length text.now)) }
{
    let Some((first, after)) = text.split_first() else {
        return Ok(None);
    };
    let element = Element::at(*first, after);
    if !closed[1 + element.more()] {
        return Ok(None);
    }
    let mut ranges = Vec::new(alloc);
    element.put(&mut ranges)?;
    let mut rest = after.split_at(element.more()).1;
    'elements: loop {
        let Some((first, after)) = rest.split_first() else {
            return Ok(None);
        };
        if plain(b']', *first) {
            return Ok(Some((ranges, text.len() - after.len())));
        }
        let element = Element::at(*first, after);
        element.put(&mut ranges)?;
        rest = after.split_at(element.more()).1;
    }
}

/// The bracket expression that comes, behind its opening bracket, and how many bytes it has there.
pub fn bracket(
    alloc: Global,
    text: &[Symbol],
    closed: &[bool],
) -> Result<Option<(Set, usize)>, AllocError>
    requires { spec.IsClosings closed.now text.now }
    ensures found { IfOk result (λ found. found ≡ spec.bracket text.now) }
    ensures within { IfOk result (λ found. IfSome found (λ p. p.1 ≤ length text.now)) }
{
    let negated = matches!(text, [first, ..] if plain(b'!', *first));
    let sign = if negated { 1 } else { 0 };
    match elements(alloc, text.split_at(sign).1, closed.split_at(sign).1)? {
        Some((ranges, len)) => Ok(Some((Set::new(negated, ranges), len + sign))),
        None => Ok(None),
    }
}
