//! Widths of lines.

ghost use Rattle.std.specs.Prelude.{◌<◌};

/// A number of bytes, one at least.
#[derive(Clone, Copy)]
pub struct Width {
    pub bytes: usize,
    ghost positive: { 0 < bytes },
}
