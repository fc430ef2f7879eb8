//! Why a text gives no script.

use sh_syntax::Fault;
use std::alloc::AllocError;
use thiserror::Error;

/// Why a text gives no script.
#[derive(Clone, Copy, Debug, PartialEq, Eq, Error)]
pub enum ParseErr {
    /// The text spells no script, or is longer than 1,048,576 bytes: the fault of its first bad token, and the line.
    #[error("line {line}: syntax error")]
    Syntax { line: u32, fault: Fault },
    #[error("out of memory")]
    NoMemory,
}

impl From<AllocError> for ParseErr {
    ghost use Rattle.std.specs.Prelude.{◌≡◌};
    ghost use Rattle.sh_script.specs.declared.error.ParseErr.TheVariants.{NoMemory};

    ghost from_gives = { λ _ e. e ≡ NoMemory };

    fn from(_: AllocError) -> ParseErr {
        ParseErr::NoMemory
    }
}
