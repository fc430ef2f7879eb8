//! What is read off the words of a command.

ghost use Rattle.std.specs.Prelude.{◌≡◌, [], ◌∷◌, ◌++◌, OnOk, OnErr};

use hs_text::{Text, TextList};
use std::alloc::{AllocError, Global};
use std::marker::Model;
use thiserror::Error;

/// Options in the order in which they are given, each with its value where it takes one. Adding at the end is amortised O(1).
#[derive(Clone, Drop)]
pub struct GivenList {
    items: Vec<(u8, Option<Text>)>,
}

impl Model for GivenList {
    ghost use Rattle.std.specs.Prelude.{List, ℕ, Option};

    ghost Value = { List (ℕ × Option (List ℕ)) };

    ghost view = { λ g. g.items.items };
}

impl GivenList {
    pub fn new(alloc: Global) -> GivenList
        ensures { result ≡ [] }
    {
        GivenList {
            items: Vec::new(alloc),
        }
    }

    pub fn as_slice(&self) -> &[(u8, Option<Text>)]
        ensures { result.now ≡ self.now }
    {
        self.items.as_slice()
    }

    /// Puts an option at the end. Where there is no memory, the list stays.
    pub fn push(&mut self, byte: u8, value: Option<Text>) -> Result<(), AllocError>
        ensures ok { OnOk result (self.new ≡ self.old ++ (byte, value) ∷ []) }
        ensures err { OnErr result (self.new ≡ self.old) }
    {
        self.items.push((byte, value))?;
        Ok(())
    }
}

/// The options that are given, and the operands.
#[derive(Clone, Drop)]
pub struct Options {
    pub given: GivenList,
    pub operands: TextList,
}

/// Why the words give no options: the first fault in order.
#[derive(Clone, Copy, Debug, PartialEq, Eq, Error)]
pub enum OptErr {
    /// The table does not list this option.
    #[error("unknown option")]
    Unknown(u8),
    /// This option takes a value, and the words end before it.
    #[error("missing value")]
    Missing(u8),
    #[error("out of memory")]
    NoMemory,
}

impl From<AllocError> for OptErr {
    ghost use Rattle.std.specs.Prelude.{◌≡◌};
    ghost use Rattle.util_opts.specs.declared.options.OptErr.TheVariants.{NoMemory};

    ghost from_gives = { λ _ e. e ≡ NoMemory };

    fn from(_: AllocError) -> OptErr {
        OptErr::NoMemory
    }
}
