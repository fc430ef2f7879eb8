//! What is kept of a command that was run ahead.

ghost use Rattle.std.specs.Prelude.{◌≡◌};
ghost use Rattle.hs_view.specs.Kept.{KeptData};

use hs_world::Reads;

/// A result that stands for a command, with what it read. It is spent, and never dropped otherwise.
pub trait Kept {
    /// What contracts see: the command's number and the reads.
    ghost kept: { Self → KeptData };

    /// The number that the command has in the script.
    fn number(&self) -> u32
        ensures { result ≡ (kept self.now).number };

    /// What the command read.
    fn reads(&self) -> &Reads
        ensures { result.now ≡ (kept self.now).reads };

    /// Spends the result.
    fn drop_it(self);
}
