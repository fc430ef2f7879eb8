//! The options of the shell (POSIX.1-2017, XCU 2.14, set).

ghost use Rattle.std.specs.Prelude.{⊤, ◌≡◌, [], ◌∷◌, codes};
ghost use Rattle.hs_world.specs.World.{no_options};

use bitflags::{Flag, Flags, bitflag_items};

/// Which options are set: no pathname expansion (`-f`), a command that fails ends the shell (`-e`), an expansion of a
/// parameter that is not set is an error (`-u`); and whether `-e` is ignored at this place, as in the condition of an `if`.
#[derive(Clone, Copy, Debug, PartialEq, Eq)]
pub struct Opts(u8);

bitflag_items! {
    impl Opts: u8 {
        const NOGLOB = 1;
        const ERREXIT = 2;
        const NOUNSET = 4;
        const IGNORED = 8;
    }
}

impl Flags for Opts {
    type Bits = u8;

    ghost exact = { ⊤ };

    ghost table = { (codes "NOGLOB", 1) ∷ (codes "ERREXIT", 2) ∷ (codes "NOUNSET", 4) ∷ (codes "IGNORED", 8) ∷ [] };

    ghost set_of = { λ o. o.0 };

    fn flags<'a>() -> &'a [Flag<Opts>] {
        Opts::FLAGS
    }

    fn bits(&self) -> u8 {
        self.0
    }

    fn from_bits_retain(bits: u8) -> Opts {
        Opts(bits)
    }
}

impl Opts {
    /// No option is set.
    pub fn none() -> Opts
        ensures { result ≡ no_options }
    {
        Opts(0)
    }
}
