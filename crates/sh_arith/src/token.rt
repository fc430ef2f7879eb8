//! The tokens of an arithmetic expression (POSIX.1-2017, XCU 2.6.4; the operators are those of ISO C, 6.5).

use hs_text::Text;
use std::alloc::AllocError;

/// An operator between two numbers that both are needed.
#[derive(Clone, Copy, Debug, PartialEq, Eq)]
pub enum Math {
    Times,
    Over,
    Modulo,
    Plus,
    Minus,
    Left,
    Right,
    Less,
    AtMost,
    Greater,
    AtLeast,
    Equal,
    Unequal,
    And,
    Xor,
    Or,
}

/// `&&` and `||`.
#[derive(Clone, Copy, Debug, PartialEq, Eq)]
pub enum Logic {
    Both,
    Either,
}

/// An operator before its one operand.
#[derive(Clone, Copy, Debug, PartialEq, Eq)]
pub enum Sign {
    Plus,
    Minus,
    Not,
    Complement,
}

/// A token that is no operand.
#[derive(Clone, Copy, Debug, PartialEq, Eq)]
pub enum Op {
    /// Between two operands. `+` and `-` may stand before one operand too.
    Math(Math),
    Logic(Logic),
    /// `!`
    Not,
    /// `~`
    Complement,
    /// `=`, or the operator that is joined to it, as in `+=`.
    Assign(Option<Math>),
    /// `(`
    Open,
    /// `)`
    Close,
    /// `?`
    Question,
    /// `:`
    Colon,
}

#[derive(Drop)]
pub enum Token {
    Number(i64),
    /// A name, and the place of its first byte.
    Name(usize, Text),
    Operator(Op),
}

/// Why there is no next token.
#[derive(Clone, Copy, Debug, PartialEq, Eq)]
pub enum LexError {
    Memory,
    /// The text ends here.
    End,
    /// No token can be formed here.
    Bad,
}

impl From<AllocError> for LexError {
    ghost use Rattle.std.specs.Prelude.{◌≡◌};
    ghost use Rattle.sh_arith.specs.declared.token.LexError.TheVariants.{Memory};

    ghost from_gives = { λ _ e. e ≡ Memory };

    fn from(_: AllocError) -> LexError {
        LexError::Memory
    }
}
