//! What is open while the parts of a word are expanded.

use hs_text::Text;
use sh_param::{Mode, ParamValue, Pieces};
use sh_syntax::{ParamOp, Part};

/// Parts that come later.
#[derive(Clone, Copy)]
pub struct Place<'a> {
    pub mode: Mode,
    pub parts: &'a [Part],
}

/// What comes where parts have ended, before the parts at the place. Where a word is expanded by itself, the pieces
/// before it are set aside.
#[derive(Drop)]
pub enum Open<'a> {
    /// The parts themselves.
    Within(Place<'a>),
    /// The variable of this name gets the word.
    Assign(&'a Text, Place<'a>, Pieces),
    /// The word is the message on this parameter.
    Error(&'a Text),
    /// The word is the pattern of what is removed from the value.
    Trim(ParamOp, ParamValue, Place<'a>, Pieces),
    /// The word is an arithmetic expression.
    Sum(Place<'a>, Pieces),
}
