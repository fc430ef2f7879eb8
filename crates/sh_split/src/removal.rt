//! Quote removal.

ghost use Rattle.std.specs.Prelude.{◌≡◌, map, IfOk};
ghost use Rattle.sh_split.specs.Removal as spec;

use hs_text::{Field, Fields, Text, TextList};
use std::alloc::{AllocError, Global};

/// The bytes of a field.
fn unquoted(alloc: Global, field: &Field) -> Result<Text, AllocError>
    ensures { IfOk result (λ text. text ≡ spec.bytes_of field.now) }
{
    let bytes: Vec<u8> = field
        .as_slice()
        .iter()
        .map(|symbol| symbol.0)
        .collect(alloc)?;
    Text::from_vec(alloc, bytes)
}

/// Quote removal (POSIX.1-2017, XCU 2.6.7): the bytes of each field, in time linear in them.
pub fn unquote(alloc: Global, fields: &Fields) -> Result<TextList, AllocError>
    ensures { IfOk result (λ texts. texts ≡ spec.unquoted fields.now) }
{
    let mut texts = TextList::new(alloc);
    for field in fields.as_slice() {
        let text = unquoted(alloc, field)?;
        texts.push(text)?;
    }
    Ok(texts)
}
