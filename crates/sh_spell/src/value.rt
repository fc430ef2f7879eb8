//! Parameters with braces or without (POSIX.1-2017, XCU 2.6.2).

ghost use Rattle.std.specs.Prelude.{◌≡◌, OnOk};
ghost use Rattle.sh_lexer.specs.Bytes as bytes;
ghost use Rattle.sh_spell.specs.Scripts as spec;

use crate::back::Back;
use crate::tokens::write_param;
use hs_text::Text;
use std::alloc::AllocError;

fn begins_name(byte: u8) -> bool
    ensures { result ≡ bytes.begins_name byte }
{
    byte.is_ascii_alphabetic() || byte == b'_'
}

fn in_name(byte: u8) -> bool
    ensures { result ≡ bytes.in_name byte }
{
    begins_name(byte) || byte.is_ascii_digit()
}

/// Whether the text goes on with a byte of a name.
fn begins_in_name(text: &Back) -> bool
    ensures { result ≡ spec.begins_in_name text.now }
{
    match text.first() {
        None => false,
        Some(byte) => in_name(byte),
    }
}

/// Whether the name would not be read as a parameter's in front of the text.
fn needs_braces(name: &[u8], text: &Back) -> bool
    ensures { result ≡ spec.needs_braces name.now text.now }
{
    match name {
        [] => true,
        [first, rest @ ..] => {
            if begins_name(*first) {
                begins_in_name(text)
            } else {
                !rest.is_empty()
            }
        }
    }
}

pub fn write_value(out: &mut Back, name: &Text) -> Result<(), AllocError>
    ensures { OnOk result (out.new ≡ spec.value_text name.now out.old) }
{
    if needs_braces(name.as_slice(), out) {
        return write_param(out, name, false);
    }
    out.put_all(name.as_slice())?;
    out.put(b'$')
}
