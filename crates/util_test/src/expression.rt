//! Expressions of `test` (POSIX.1-2017, XCU, `test`), by the number of their words.

ghost use Rattle.std.specs.Prelude.{◌≡◌, IfOk};
ghost use Rattle.util_test.specs.Expressions as spec;

use crate::operator::{compared, is, read_operator};
use hs_text::Text;
use std::alloc::AllocError;

/// A kind of entries.
#[derive(Clone, Copy)]
pub enum Sort {
    Any,
    File,
    Folder,
}

/// What a path can have.
#[derive(Clone, Copy)]
pub enum Property {
    /// An entry of this kind.
    Is(Sort),
    /// A file that is not empty.
    HasBytes,
}

/// What an expression asks.
#[derive(Drop)]
pub enum Asked {
    /// The words alone tell.
    Known(bool),
    /// Whether the path that a word names has the property.
    Has(Property, Text),
    /// Whether it has it not.
    Lacks(Property, Text),
}

/// The opposite of what is asked.
fn negated(asked: Asked) -> Asked
    ensures { result ≡ spec.negated asked }
{
    match asked {
        Asked::Known(answer) => Asked::Known(!answer),
        Asked::Has(property, word) => Asked::Lacks(property, word),
        Asked::Lacks(property, word) => Asked::Has(property, word),
    }
}

/// The property that a word asks for.
fn read_property(word: &[u8]) -> Option<Property>
    ensures { result ≡ spec.property word.now }
{
    if is(word, b"-e") {
        Some(Property::Is(Sort::Any))
    } else if is(word, b"-f") {
        Some(Property::Is(Sort::File))
    } else if is(word, b"-d") {
        Some(Property::Is(Sort::Folder))
    } else if is(word, b"-s") {
        Some(Property::HasBytes)
    } else {
        None
    }
}

/// What one word asks: whether it is not empty.
fn one_word(word: &Text) -> Asked
    ensures { result ≡ spec.one_word word.now }
{
    Asked::Known(!word.is_empty())
}

/// What a property of a path asks.
fn of_path(primary: &Text, word: &Text) -> Result<Option<Asked>, AllocError>
    ensures { IfOk result (λ asked. asked ≡ spec.of_path primary.now word.now) }
{
    match read_property(primary.as_slice()) {
        Some(property) => Ok(Some(Asked::Has(property, word.clone()?))),
        None => Ok(None),
    }
}

fn two_words(a: &Text, b: &Text) -> Result<Option<Asked>, AllocError>
    ensures { IfOk result (λ asked. asked ≡ spec.two_words a.now b.now) }
{
    if is(a.as_slice(), b"!") {
        Ok(Some(negated(one_word(b))))
    } else if is(a.as_slice(), b"-n") {
        Ok(Some(one_word(b)))
    } else if is(a.as_slice(), b"-z") {
        Ok(Some(negated(one_word(b))))
    } else {
        of_path(a, b)
    }
}

fn three_words(a: &Text, b: &Text, c: &Text) -> Result<Option<Asked>, AllocError>
    ensures { IfOk result (λ asked. asked ≡ spec.three_words a.now b.now c.now) }
{
    if let Some(operator) = read_operator(b.as_slice()) {
        return Ok(compared(operator, a.as_slice(), c.as_slice()).map(Asked::Known));
    }
    if is(a.as_slice(), b"!") {
        return Ok(two_words(b, c)?.map(negated));
    }
    Ok(None)
}

fn four_words(a: &Text, b: &Text, c: &Text, d: &Text) -> Result<Option<Asked>, AllocError>
    ensures { IfOk result (λ asked. asked ≡ spec.four_words a.now b.now c.now d.now) }
{
    if is(a.as_slice(), b"!") {
        return Ok(three_words(b, c, d)?.map(negated));
    }
    Ok(None)
}

/// What the words of an expression ask. None comes where they are no expression.
pub fn read_expression(words: &[Text]) -> Result<Option<Asked>, AllocError>
    ensures { IfOk result (λ asked. asked ≡ spec.asked words.now) }
{
    match words {
        [] => Ok(Some(Asked::Known(false))),
        [a] => Ok(Some(one_word(a))),
        [a, b] => two_words(a, b),
        [a, b, c] => three_words(a, b, c),
        [a, b, c, d] => four_words(a, b, c, d),
        _ => Ok(None),
    }
}
