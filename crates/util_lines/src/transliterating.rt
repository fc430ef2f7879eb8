//! What `tr` makes of a text (POSIX.1-2017, XCU, `tr`), in one pass.

ghost use Rattle.std.specs.Prelude.{◌≡◌, ◌++◌, ◌<◌, ℕ, None, map, IfOk, OnOk, option_to_list, slice_index_or, unwrap_or};
ghost use Rattle.std.specs.List.{list_any};
ghost use Rattle.util_lines.specs.Transliterate as spec;

use crate::byte_table::{Images, Members, image_in, is_member};
use std::alloc::{AllocError, Global};

/// For each byte, whether it is deleted, what it becomes, and whether runs of it are squeezed, in this order.
#[derive(Clone, Copy)]
pub struct Tables {
    pub deletes: Members,
    pub images: Images,
    pub squeezes: Members,
}

/// Whether a byte comes behind itself.
fn repeats(last: Option<u8>, byte: u8) -> bool
    ensures { result ≡ spec.repeats last byte }
{
    match last {
        Some(last) => last == byte,
        None => false,
    }
}

/// What is written for a byte, behind the last one that was written.
fn put_for(tables: &Tables, last: Option<u8>, byte: u8) -> Option<u8>
    ensures { (job : spec.Job) → spec.StandFor tables.now job → result ≡ spec.put_for job last byte }
{
    if is_member(&tables.deletes, byte) {
        return None;
    }
    let image = image_in(&tables.images, byte);
    if repeats(last, image) && is_member(&tables.squeezes, image) {
        return None;
    }
    Some(image)
}

/// Puts a byte at the end, if there is one.
fn push_some(out: &mut Vec<u8>, byte: Option<u8>) -> Result<(), AllocError>
    ensures { OnOk result (out.new.items ≡ out.old.items ++ option_to_list byte) }
{
    if let Some(byte) = byte {
        out.push(byte)?;
    }
    Ok(())
}

/// Whether a set has a byte.
fn has_members(table: &Members) -> bool
    ensures { result ≡ list_any (λ m. m) table.now }
{
    table.iter().any(|member| *member)
}

/// The text with each byte translated.
fn translate(alloc: Global, images: &Images, text: &[u8]) -> Result<Vec<u8>, AllocError>
    ensures images { IfOk result (λ out. out.items ≡ map (λ b. unwrap_or (slice_index_or images.now b None) b) text.now) }
    ensures bytes { IfOk result (λ out. (i : ℕ) → slice_index_or out.items i 0 < 256) }
{
    let mut out = Vec::with_capacity(alloc, text.len())?;
    'bytes: for byte in text {
        out.push(image_in(images, *byte))?;
    }
    Ok(out)
}

/// The text with what is deleted left out, the others translated, and then runs squeezed.
fn edit(alloc: Global, tables: &Tables, text: &[u8]) -> Result<Vec<u8>, AllocError>
    ensures { IfOk result (λ out. (job : spec.Job) → spec.StandFor tables.now job → out.items ≡ spec.transliterated job text.now) }
{
    let mut out = Vec::with_capacity(alloc, text.len())?;
    let mut last = None;
    'bytes: for byte in text {
        let image = put_for(tables, last, *byte);
        push_some(&mut out, image)?;
        last = image.or(last);
    }
    Ok(out)
}

/// The text with what is deleted left out, the others translated, and then runs squeezed.
pub fn transliterate(alloc: Global, tables: &Tables, text: &[u8]) -> Result<Vec<u8>, AllocError>
    ensures { IfOk result (λ out. (job : spec.Job) → spec.StandFor tables.now job → out.items ≡ spec.transliterated job text.now) }
{
    if has_members(&tables.deletes) || has_members(&tables.squeezes) {
        return edit(alloc, tables, text);
    }
    translate(alloc, &tables.images, text)
}
