//! Why a command comes to a halt.

use std::alloc::AllocError;

/// What a run can use up.
#[derive(Clone, Copy, Debug, PartialEq, Eq)]
pub enum SpentKind {
    /// The turns: one is taken where a simple command begins.
    Turns,
    /// The bytes of one value, or the effects of one state.
    Bytes,
    /// The frames of compound commands, calls and nested runs.
    Frames,
    /// The bytes or the entries of the tree.
    Tree,
}

/// Why a command came to a halt.
#[derive(Clone, Copy, Debug, PartialEq, Eq)]
pub enum Halt {
    NoMemory,
    /// What the base stands on failed.
    Fault,
    /// An outside program was to be run, and the base runs none.
    Outside,
    /// What was read and done passes the limit of a trace.
    Trace,
    Spent(SpentKind),
}

impl From<AllocError> for Halt {
    ghost use Rattle.std.specs.Prelude.{◌≡◌};
    ghost use Rattle.hs_view.specs.declared.halt.Halt.TheVariants.{NoMemory};

    ghost from_gives = { λ _ h. h ≡ NoMemory };

    fn from(_: AllocError) -> Halt {
        Halt::NoMemory
    }
}
