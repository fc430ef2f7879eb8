//! Why the words of a utility of this crate are refused.

use std::alloc::AllocError;
use thiserror::Error;

#[derive(Clone, Copy, Debug, PartialEq, Eq, Error)]
pub enum TextErr {
    #[error("bad number")]
    BadNumber,
    #[error("bad list")]
    BadList,
    #[error("out of memory")]
    NoMemory,
}

impl From<AllocError> for TextErr {
    ghost use Rattle.std.specs.Prelude.{◌≡◌};
    ghost use Rattle.util_text.specs.declared.fault.TextErr.TheVariants.{NoMemory};

    ghost from_gives = { λ _ e. e ≡ NoMemory };

    fn from(_: AllocError) -> TextErr {
        TextErr::NoMemory
    }
}
