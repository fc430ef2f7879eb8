//! Instructions from the bytes of an expression.

ghost use Rattle.std.specs.Prelude.{◌≡◌};
ghost use Rattle.sh_arith.specs.Compiled.{Reads};

use crate::instr::{Instr, Now, Rest};
use crate::lex::{skip, token_at};
use crate::stack::Stack;
use crate::step::{accept, step};
use crate::token::LexError;
use sqlite_items::Items;
use std::alloc::{AllocError, Global};

/// How many brackets may be open at once.
const MOST_OPEN: usize = 100;

/// Why a text gives no instructions.
#[derive(Clone, Copy, Debug, PartialEq, Eq)]
pub enum ReadErr {
    /// The text is no expression. Its first bad token begins at this place.
    Bad(usize),
    Memory,
}

impl From<AllocError> for ReadErr {
    ghost use Rattle.std.specs.Prelude.{◌≡◌};
    ghost use Rattle.sh_arith.specs.declared.reading.ReadErr.TheVariants.{Memory};

    ghost from_gives = { λ _ e. e ≡ Memory };

    fn from(_: AllocError) -> ReadErr {
        ReadErr::Memory
    }
}

/// The instructions of the one expression of the text. Its time is linear in the text.
pub fn read(alloc: Global, text: &[u8]) -> Result<Items<Instr>, ReadErr>
    ensures { Reads result text.now }
{
    let mut rest = Rest {
        stack: Stack::new(alloc),
        code: Items::new(alloc),
        room: MOST_OPEN,
    };
    let mut now = Now::Want;
    let mut left = text;
    'tokens: loop {
        let here = skip(left);
        let place = text.len() - here.len();
        let (token, after) = match token_at(alloc, place, here) {
            Ok(found) => found,
            Err(LexError::Memory) => return Err(ReadErr::Memory),
            Err(LexError::Bad) => return Err(ReadErr::Bad(place)),
            Err(LexError::End) => {
                return match accept(rest, now)? {
                    Some(code) => Ok(code),
                    None => Err(ReadErr::Bad(text.len())),
                };
            }
        };
        match step(&mut rest, now, token)? {
            Some(then) => {
                now = then;
                left = after;
            }
            None => return Err(ReadErr::Bad(place)),
        }
    }
}
