//! What comes of reading a token.

use crate::token::Token;
use hs_text::Text;
use sh_syntax::Fault;
use std::alloc::AllocError;

pub enum Read<'a> {
    /// A token, and the text after it.
    Token(Token, &'a [u8]),
    /// A token, the text that is cut out behind it and read next, and what follows that text. None: its end is missing.
    Cut(Token, Text, Option<&'a [u8]>),
}

/// Why there is no next token.
#[derive(Clone, Copy, Debug, PartialEq, Eq)]
pub enum LexError {
    Memory,
    /// The text ends here.
    End,
    /// No token can be formed here.
    Bad(Fault),
}

impl From<AllocError> for LexError {
    ghost use Rattle.std.specs.Prelude.{◌≡◌};
    ghost use Rattle.sh_lexer.specs.declared.read.LexError.TheVariants.{Memory};

    ghost from_gives = { λ _ e. e ≡ Memory };

    fn from(_: AllocError) -> LexError {
        LexError::Memory
    }
}
