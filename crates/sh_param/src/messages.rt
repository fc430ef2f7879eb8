//! Messages of expansions that fail.

ghost use Rattle.std.specs.Prelude.{◌≡◌, IfOk};
ghost use Rattle.sh_param.specs.Messages as spec;

use hs_text::Text;
use std::alloc::{AllocError, Global};

/// The line that says why there is no value.
pub fn bare_message(alloc: Global, why: &[u8]) -> Result<Text, AllocError>
    ensures { IfOk result (λ text. text ≡ spec.bare_message why.now) }
{
    let mut text = Text::from_slice(alloc, b"hs: ")?;
    text.extend(why)?;
    text.extend(b"\n")?;
    Ok(text)
}

/// The line that names a parameter, and says why it has no value.
pub fn message(alloc: Global, name: &[u8], why: &[u8]) -> Result<Text, AllocError>
    ensures { IfOk result (λ text. text ≡ spec.message name.now why.now) }
{
    let mut text = Text::from_slice(alloc, b"hs: ")?;
    text.extend(name)?;
    text.extend(b": ")?;
    text.extend(why)?;
    text.extend(b"\n")?;
    Ok(text)
}
