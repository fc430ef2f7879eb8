//! The fields of pieces.

ghost use Rattle.std.specs.Prelude.{◌≡◌, [], ◌∷◌, ◌++◌, IfOk, OnOk, option_copied};
ghost use Rattle.sh_param.specs.Pieces as spec;
ghost use Rattle.sh_split.specs.Fields.{fields_of};

use crate::piece::Piece;
use hs_text::{Field, Fields};
use sh_split::{Mark, Marked, split_marked};
use std::alloc::{AllocError, Global};

/// The byte, with whether it is quoted.
pub fn symbol_of(mark: Mark) -> Option<(u8, bool)>
    ensures { result ≡ spec.symbol_of mark }
{
    match mark {
        Mark::Expanded(byte) => Some((byte, false)),
        Mark::Written(byte) => Some((byte, false)),
        Mark::Quoted(byte) => Some((byte, true)),
        Mark::Quotes => None,
    }
}

/// Puts fields behind fields.
fn append(fields: &mut Fields, more: &[Field]) -> Result<(), AllocError>
    ensures { OnOk result (fields.new ≡ fields.old ++ more.now) }
{
    for field in more {
        fields.push(field.clone()?)?;
    }
    Ok(())
}

/// Puts the fields of a word behind fields.
fn split_onto(
    alloc: Global,
    fields: &mut Fields,
    marks: &Marked,
    ifs: Option<&[u8]>,
) -> Result<(), AllocError>
    ensures { OnOk result (fields.new ≡ fields.old ++ fields_of (option_copied ifs.entry) marks.now) }
{
    let more = split_marked(alloc, marks, ifs)?;
    append(fields, more.as_slice())
}

/// Puts a word as one field behind fields.
fn whole_onto(alloc: Global, fields: &mut Fields, marks: &[Mark]) -> Result<(), AllocError>
    ensures { OnOk result (fields.new ≡ fields.old ++ spec.symbols_of marks.now ∷ []) }
{
    let mut field = Field::new(alloc);
    for mark in marks {
        if let Some((byte, quoted)) = symbol_of(*mark) {
            field.push(byte, quoted)?;
        }
    }
    fields.push(field)
}

/// The fields of what ends in these pieces, each split by IFS (POSIX.1-2017, XCU 2.6.5). `ifs` is None where IFS is unset. Its
/// time is linear in the pieces, and in IFS for each of their ends.
pub fn split_fields(
    alloc: Global,
    pieces: &[Piece],
    ifs: Option<&[u8]>,
) -> Result<Fields, AllocError>
    ensures { IfOk result (λ fields. fields ≡ spec.split_fields (option_copied ifs.entry) pieces.now) }
{
    let mut fields = Fields::new(alloc);
    let mut marks = Marked::new(alloc);
    for piece in pieces {
        match piece {
            Piece::Mark(mark) => marks.push(*mark)?,
            Piece::End => {
                split_onto(alloc, &mut fields, &marks, ifs)?;
                marks = Marked::new(alloc);
            }
        }
    }
    Ok(fields)
}

/// What ends in these pieces, each as one field.
pub fn whole_fields(alloc: Global, pieces: &[Piece]) -> Result<Fields, AllocError>
    ensures { IfOk result (λ fields. fields ≡ spec.whole_fields pieces.now) }
{
    let mut fields = Fields::new(alloc);
    let mut marks = Marked::new(alloc);
    for piece in pieces {
        match piece {
            Piece::Mark(mark) => marks.push(*mark)?,
            Piece::End => {
                whole_onto(alloc, &mut fields, marks.as_slice())?;
                marks = Marked::new(alloc);
            }
        }
    }
    Ok(fields)
}
