//! Why a run stops in the middle.

ghost use Rattle.std.specs.Prelude.{◌≡◌};
ghost use Rattle.hs_view.specs.Seen.{spent_of};

use hs_view::SpentKind;
use hs_world::Limit;

/// Why a run stopped in the middle.
#[derive(Clone, Copy, Debug, PartialEq, Eq)]
pub enum Stop {
    /// An effect passes a limit.
    Spent(SpentKind),
    OutFault,
    NoMemory,
}

/// What is used up where a limit is passed.
pub fn kind_of(limit: Limit) -> SpentKind
    ensures { result ≡ spent_of limit }
{
    match limit {
        Limit::Bytes => SpentKind::Bytes,
        Limit::Tree => SpentKind::Tree,
    }
}
