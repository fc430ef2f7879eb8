//! Texts that are cut out of a text, to be read by themselves. Each byte is looked at twice at most, and copied once.

ghost use Rattle.sh_lexer.specs.Cut as spec;
ghost use Rattle.sh_lexer.specs.Gives.{IsCut};

use hs_text::Text;
use std::alloc::{AllocError, Global};

/// What stands in backquotes, after the opening one, and the text after the closing one. None: there is none.
#[tactic(auto, unfolding(crate::specs::Cut::backquoted))]
pub fn backquoted(alloc: Global, text: &[u8]) -> Result<(Text, Option<&[u8]>), AllocError>
    ensures { IsCut result (spec.backquoted text.now) }
{
    let mut bytes = Vec::new(alloc);
    let mut left = text;
    loop {
        match left {
            [] => return Ok((Text::from_vec(alloc, bytes)?, None)),
            [b'`', rest @ ..] => return Ok((Text::from_vec(alloc, bytes)?, Some(rest))),
            [b'\\', c, rest @ ..] => {
                if !matches!(*c, b'$' | b'\\' | b'`') {
                    bytes.push(b'\\')?;
                }
                bytes.push(*c)?;
                left = rest;
            }
            [b, rest @ ..] => {
                bytes.push(*b)?;
                left = rest;
            }
        }
    }
}
