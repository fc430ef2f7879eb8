//! The components of a field.

ghost use Rattle.std.specs.Prelude.{◌≡◌, ℕ, Bool, not, ◌&&◌, List, ◌∷◌, ◌++◌, map, IfOk, OnOk};
ghost use Rattle.sh_pattern.specs.Items.{plain};
ghost use Rattle.sh_glob.specs.Parts as spec;

use hs_text::{Field, Text};
use sh_pattern::{Item, Pattern, compile, matches};
use std::alloc::{AllocError, Global};

/// A byte, and whether it is quoted.
pub type Symbol = (u8, bool);

/// A component of a field: bytes that stand for themselves, or a pattern.
#[derive(Drop)]
pub enum Part {
    Literal(Text),
    Glob(Pattern),
}

/// Whether it is this byte, not quoted.
fn plain(byte: u8, symbol: Symbol) -> bool
    ensures { result ≡ plain byte symbol }
{
    symbol.0 == byte && !symbol.1
}

fn is_special(symbol: Symbol) -> bool
    ensures { result ≡ spec.is_special symbol }
{
    plain(b'*', symbol) || plain(b'?', symbol) || plain(b'[', symbol)
}

/// Whether a byte that follows an unquoted backslash, or none, is special.
fn is_special_here(escaped: bool, symbol: Symbol) -> bool
    ensures { result ≡ (not escaped && spec.is_special symbol) }
{
    !escaped && is_special(symbol)
}

/// Whether it quotes the next byte.
fn escapes(escaped: bool, symbol: Symbol) -> bool
    ensures { result ≡ (not escaped && plain 92 symbol) }
{
    !escaped && plain(b'\\', symbol)
}

/// Whether an unquoted `*`, `?` or `[` stands in the text. An unquoted backslash quotes the next byte.
pub fn is_pattern(text: &[Symbol]) -> bool
    ensures { result ≡ spec.is_pattern text.now }
{
    let mut escaped = false;
    for symbol in text {
        if is_special_here(escaped, *symbol) {
            return true;
        }
        escaped = escapes(escaped, *symbol);
    }
    false
}

/// The bytes without their quotes.
pub fn unquoted(alloc: Global, text: &[Symbol]) -> Result<Text, AllocError>
    ensures { IfOk result (λ bytes. bytes ≡ spec.bytes_of text.now) }
{
    let bytes: Vec<u8> = text.iter().map(|symbol| symbol.0).collect(alloc)?;
    Text::from_vec(alloc, bytes)
}

/// A component that is no pattern is taken as bytes.
fn read_part(alloc: Global, component: &Field) -> Result<Part, AllocError>
    ensures { IfOk result (λ part. part ≡ spec.part_of component.now) }
{
    if is_pattern(component.as_slice()) {
        let pattern = compile(alloc, component)?;
        return Ok(Part::Glob(pattern));
    }
    let bytes = unquoted(alloc, component.as_slice())?;
    Ok(Part::Literal(bytes))
}

/// Takes one byte more: a slash ends the component.
fn take_symbol(
    alloc: Global,
    symbol: Symbol,
    component: &mut Field,
    parts: &mut Vec<Part>,
) -> Result<(), AllocError>
    ensures { OnOk result ((rest : List (ℕ × Bool)) → parts.new.items ++ map spec.part_of (spec.behind component.new (spec.split rest)) ≡ parts.old.items ++ map spec.part_of (spec.behind component.old (spec.split (symbol ∷ rest)))) }
{
    if symbol.0 == b'/' {
        let part = read_part(alloc, component)?;
        parts.push(part)?;
        *component = Field::new(alloc);
        return Ok(());
    }
    component.push(symbol.0, symbol.1)
}

/// The components of a field, which its slashes part. Its time is linear in the field.
pub fn read_parts(alloc: Global, field: &[Symbol]) -> Result<Vec<Part>, AllocError>
    ensures { IfOk result (λ parts. parts.items ≡ spec.parts_of field.now) }
{
    let mut parts = Vec::new(alloc);
    let mut component = Field::new(alloc);
    for symbol in field {
        take_symbol(alloc, *symbol, &mut component, &mut parts)?;
    }
    let part = read_part(alloc, &component)?;
    parts.push(part)?;
    Ok(parts)
}

fn begins_with_dot(name: &[u8]) -> bool
    ensures { result ≡ spec.begins_with_dot name.now }
{
    match name.first() {
        Some(byte) => *byte == b'.',
        None => false,
    }
}

/// Whether the pattern begins with a `.` that stands for itself.
fn shows_dot(items: &[Item]) -> bool
    ensures { result ≡ spec.shows_dot items.now }
{
    match items.first() {
        Some(Item::Byte(byte)) => *byte == b'.',
        _ => false,
    }
}

/// Whether a name of a folder matches. A `.` at its beginning is matched only by itself.
pub fn takes(pattern: &Pattern, name: &[u8]) -> bool
    ensures { result ≡ spec.takes pattern.now name.now }
{
    (shows_dot(pattern.items()) || !begins_with_dot(name)) && matches(pattern, name)
}
