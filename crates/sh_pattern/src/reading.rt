//! Patterns from fields (POSIX.1-2017, XCU 2.13.1).

ghost use Rattle.std.specs.Prelude.{◌≡◌, ◌≤◌, false, length, IfOk};
ghost use Rattle.sh_pattern.specs.Items as spec;

use crate::bracket::{bracket, closings, plain};
use crate::class::Symbol;
use crate::item::Item;
use crate::pattern::Pattern;
use hs_text::Field;
use std::alloc::{AllocError, Global};

/// The field with its backslashes read: an unquoted one quotes the next byte, and stands for itself at the end.
fn unescaped(alloc: Global, field: &[Symbol]) -> Result<Vec<Symbol>, AllocError>
    ensures { IfOk result (λ text. text.items ≡ spec.unescaped false field.now) }
{
    let mut text = Vec::new(alloc);
    let mut escaped = false;
    for symbol in field {
        if escaped {
            text.push((symbol.0, true))?;
            escaped = false;
        } else if plain(b'\\', *symbol) {
            escaped = true;
        } else {
            text.push(*symbol)?;
        }
    }
    if escaped {
        text.push((b'\\', false))?;
    }
    Ok(text)
}

/// The item that begins with this byte, before these, and how many of these it has.
fn item_at(
    alloc: Global,
    first: Symbol,
    rest: &[Symbol],
    closed: &[bool],
) -> Result<(Item, usize), AllocError>
    requires { spec.IsClosings closed.now rest.now }
    ensures found { IfOk result (λ found. found ≡ spec.item_at first rest.now) }
    ensures within { IfOk result (λ found. found.1 ≤ length rest.now) }
{
    if plain(b'*', first) {
        return Ok((Item::Star, 0));
    }
    if plain(b'?', first) {
        return Ok((Item::Any, 0));
    }
    if plain(b'[', first)
        && let Some((set, len)) = bracket(alloc, rest, closed)?
    {
        return Ok((Item::OneOf(set), len));
    }
    Ok((Item::Byte(first.0), 0))
}

/// The pattern of a field: every field is one. Its time is linear in the field, and so is its memory.
pub fn compile(alloc: Global, field: &Field) -> Result<Pattern, AllocError>
    ensures { IfOk result (λ pattern. pattern ≡ spec.items_of field.now) }
{
    let text = unescaped(alloc, field.as_slice())?;
    let closed = closings(alloc, text.as_slice())?;
    let mut items = Vec::new(alloc);
    let mut rest = text.as_slice();
    let mut closed_rest = closed.as_slice();
    'items: while let Some((first, after)) = rest.split_first() {
        let closed_after = closed_rest.split_at(1).1;
        let (item, more) = item_at(alloc, *first, after, closed_after)?;
        items.push(item)?;
        rest = after.split_at(more).1;
        closed_rest = closed_after.split_at(more).1;
    }
    Ok(Pattern::new(items))
}
