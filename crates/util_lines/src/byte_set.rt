//! Sets of bytes, as the words of `tr` write them (POSIX.1-2017, XCU, `tr`).

ghost use Rattle.std.specs.Prelude.{◌≡◌, ◌≤◌, ◌+◌, ◌-◌, ◌++◌, ℕ, List, length, Some, IfOk, IfErr, OnOk, IfSome};
ghost use Rattle.std.specs.List.{range_with_len};
ghost use Rattle.util_lines.specs.ByteClass.{has_byte};
ghost use Rattle.util_lines.specs.ByteSet as spec;

use crate::byte_class::Class;
use crate::byte_table::{is_member, member_table};
use std::alloc::{AllocError, Global};
use thiserror::Error;

/// A byte, and how many bytes it is written with behind the first.
#[derive(Clone, Copy, Debug, PartialEq, Eq)]
pub struct Place {
    pub byte: u8,
    pub more: usize,
}

/// The value of an octal digit that comes.
fn digit_at(text: &[u8]) -> Option<u8>
    ensures digit { result ≡ spec.digit_at text.now }
    ensures small { IfSome result (λ digit. digit ≤ 7) }
    ensures some { IfSome result (λ digit. 1 ≤ length text.now) }
{
    match text {
        [digit, ..] if b'0' <= *digit && *digit <= b'7' => Some(*digit - b'0'),
        _ => None,
    }
}

fn three_digits(first: u8, second: u8, rest: &[u8]) -> Place
    requires first { first ≤ 7 }
    requires second { second ≤ 7 }
    ensures place { result ≡ spec.three_digits first second (spec.digit_at rest.now) }
    ensures within { result.more ≤ length rest.now + 2 }
{
    match digit_at(rest) {
        Some(third) => {
            let number = usize::from(first) * 64 + usize::from(second) * 8 + usize::from(third);
            Place {
                byte: (number % 256) as u8,
                more: 3,
            }
        }
        None => Place {
            byte: first * 8 + second,
            more: 2,
        },
    }
}

fn two_digits(first: u8, rest: &[u8]) -> Place
    requires { first ≤ 7 }
    ensures place { result ≡ spec.two_digits first (spec.digit_at rest.now) rest.now }
    ensures within { result.more ≤ length rest.now + 1 }
{
    match digit_at(rest) {
        Some(second) => three_digits(first, second, rest.split_at(1).1),
        None => Place {
            byte: first,
            more: 1,
        },
    }
}

/// The byte that a backslash before this one stands for, where no octal digit comes.
fn named(byte: u8) -> u8
    ensures { result ≡ spec.named byte }
{
    match byte {
        b'n' => b'\n',
        b't' => b'\t',
        _ => byte,
    }
}

/// The byte that a backslash before these stands for.
fn escaped(text: &[u8]) -> Place
    ensures place { result ≡ spec.escaped text.now }
    ensures within { result.more ≤ length text.now }
{
    let Some((byte, rest)) = text.split_first() else {
        return Place {
            byte: b'\\',
            more: 0,
        };
    };
    match digit_at(text) {
        Some(digit) => two_digits(digit, rest),
        None => Place {
            byte: named(*byte),
            more: 1,
        },
    }
}

impl Place {
    /// The byte that is written by this one before these.
    fn at(first: u8, rest: &[u8]) -> Place
        ensures place { result ≡ spec.place_at first rest.now }
        ensures within { result.more ≤ length rest.now }
    {
        if first == b'\\' {
            return escaped(rest);
        }
        Place {
            byte: first,
            more: 0,
        }
    }
}

/// An element of a set: a class, or the bytes from one to another, which can be one byte.
#[derive(Clone, Copy, Debug, PartialEq, Eq)]
pub enum Element {
    Class(Class),
    Range(u8, u8),
}

/// The end of a range, where `-` comes and a byte.
fn range_end(text: &[u8]) -> Option<Place>
    ensures place { result ≡ spec.range_end text.now }
    ensures within { IfSome result (λ high. high.more + 2 ≤ length text.now) }
{
    let (dash, rest) = text.split_first()?;
    let (first, behind) = rest.split_first()?;
    if *dash != b'-' {
        return None;
    }
    Some(Place::at(*first, behind))
}

/// The range that begins with this byte, or the byte alone.
fn range_at(low: Place, rest: &[u8]) -> (Element, usize)
    requires { low.more ≤ length rest.now }
    ensures element { result ≡ spec.range_at low rest.now }
    ensures within { result.1 ≤ length rest.now }
{
    match range_end(rest.split_at(low.more).1) {
        Some(high) => (
            Element::Range(low.byte, high.byte),
            low.more + 2 + high.more,
        ),
        None => (Element::Range(low.byte, low.byte), low.more),
    }
}

impl Element {
    /// The element that is written by this byte before these, and how many of these belong to it.
    fn at(first: u8, rest: &[u8]) -> (Element, usize)
        ensures element { result ≡ spec.element_at first rest.now }
        ensures within { result.1 ≤ length rest.now }
    {
        if first == b'['
            && let Some(class) = Class::at(rest)
        {
            return (Element::Class(class), class.written().len());
        }
        range_at(Place::at(first, rest), rest)
    }
}

/// Why a word writes no set.
#[derive(Clone, Copy, Debug, PartialEq, Eq, Error)]
pub enum SetErr {
    #[error("bad set")]
    BadSet,
    #[error("out of memory")]
    NoMemory,
}

impl From<AllocError> for SetErr {
    ghost use Rattle.std.specs.Prelude.{◌≡◌};
    ghost use Rattle.util_lines.specs.declared.byte_set.SetErr.TheVariants.{NoMemory};

    ghost from_gives = { λ _ e. e ≡ NoMemory };

    fn from(_: AllocError) -> SetErr {
        SetErr::NoMemory
    }
}

/// Puts a byte at the end, where it is wanted.
fn push_where(out: &mut Vec<u8>, wanted: bool, byte: u8) -> Result<(), AllocError>
    ensures { OnOk result (out.new.items ≡ out.old.items ++ spec.one_where wanted byte) }
{
    if wanted {
        out.push(byte)?;
    }
    Ok(())
}

/// Puts the bytes of a class at the end, ascending.
fn push_class(out: &mut Vec<u8>, class: Class) -> Result<(), AllocError>
    ensures { OnOk result (out.new.items ≡ out.old.items ++ spec.bytes_where (has_byte class)) }
{
    for at in 0..256usize {
        let byte = at as u8;
        push_where(out, class.has(byte), byte)?;
    }
    Ok(())
}

/// Puts the bytes from one to another at the end.
fn push_range(out: &mut Vec<u8>, low: u8, high: u8) -> Result<(), AllocError>
    requires { low ≤ high }
    ensures { OnOk result (out.new.items ≡ out.old.items ++ range_with_len low (high + 1 - low)) }
{
    for at in usize::from(low)..usize::from(high) + 1 {
        out.push(at as u8)?;
    }
    Ok(())
}

/// Puts the bytes of an element at the end. A range that falls is refused.
fn push_element(out: &mut Vec<u8>, element: Element) -> Result<(), SetErr>
    ensures ok { OnOk result ((bytes : List ℕ) × (spec.element_bytes element ≡ Some bytes) × (out.new.items ≡ out.old.items ++ bytes)) }
    ensures fault { IfErr result (λ e. spec.Refuses e (spec.element_bytes element)) }
{
    match element {
        Element::Class(class) => push_class(out, class)?,
        Element::Range(low, high) => {
            if high < low {
                return Err(SetErr::BadSet);
            }
            push_range(out, low, high)?;
        }
    }
    Ok(())
}

/// The bytes of the set that a word writes, in order. Its time is linear in their number.
pub fn read_set(alloc: Global, word: &[u8]) -> Result<Vec<u8>, SetErr>
    ensures ok { IfOk result (λ set. spec.set_of word.now ≡ Some set.items) }
    ensures fault { IfErr result (λ e. spec.Refuses e (spec.set_of word.now)) }
{
    let mut set = Vec::new(alloc);
    let mut rest = word;
    'elements: while let Some((first, after)) = rest.split_first() {
        let (element, more) = Element::at(*first, after);
        push_element(&mut set, element)?;
        rest = after.split_at(more).1;
    }
    Ok(set)
}

/// All other bytes, ascending.
pub fn complement(alloc: Global, set: &[u8]) -> Result<Vec<u8>, AllocError>
    ensures { IfOk result (λ others. others.items ≡ spec.complement set.now) }
{
    let members = member_table(set);
    let mut others = Vec::new(alloc);
    for at in 0..256usize {
        let byte = at as u8;
        push_where(&mut others, !is_member(&members, byte), byte)?;
    }
    Ok(others)
}
