//! What the expansions make of words, before field splitting and quote removal.

ghost use Rattle.std.specs.Prelude.{◌≡◌, [], ◌∷◌, ◌++◌, map, OnOk, IfOk};
ghost use Rattle.sh_param.specs.Pieces as spec;

use crate::fields::symbol_of;
use crate::mode::Mode;
use hs_text::{Field, Text};
use sh_split::Mark;
use std::alloc::{AllocError, Global};
use std::marker::Model;

/// A byte or quotes, or the end of a word or of one of the fields that `$@` gives.
#[derive(Clone, Copy, Debug, PartialEq, Eq)]
pub enum Piece {
    Mark(Mark),
    End,
}

/// A list of pieces. Adding at the end is amortised O(1).
#[derive(Drop)]
pub struct Pieces {
    items: Vec<Piece>,
}

impl Model for Pieces {
    ghost use Rattle.std.specs.Prelude.{List};
    ghost use Rattle.sh_param.specs.declared.piece.Piece.{Piece};

    ghost Value = { List Piece };

    ghost view = { λ a. a.items.items };
}

impl Pieces {
    pub fn new(alloc: Global) -> Pieces
        ensures { result ≡ [] }
    {
        Pieces {
            items: Vec::new(alloc),
        }
    }

    pub fn as_slice(&self) -> &[Piece]
        ensures { result.now ≡ self.now }
    {
        self.items.as_slice()
    }

    /// Puts a piece at the end. The error is want of memory.
    pub fn push(&mut self, piece: Piece) -> Result<(), AllocError>
        ensures { OnOk result (self.new ≡ self.old ++ piece ∷ []) }
    {
        self.items.push(piece)?;
        Ok(())
    }

    /// Ends a field.
    pub fn end(&mut self) -> Result<(), AllocError>
        ensures { OnOk result (self.new ≡ self.old ++ Piece.End ∷ []) }
    {
        self.push(Piece::End)
    }

    /// Quotes begin.
    pub fn quotes(&mut self) -> Result<(), AllocError>
        ensures { OnOk result (self.new ≡ self.old ++ Piece.Mark Mark.Quotes ∷ []) }
    {
        self.push(Piece::Mark(Mark::Quotes))
    }

    /// Puts bytes at the end that an expansion gave.
    pub fn expand(&mut self, mode: Mode, bytes: &[u8]) -> Result<(), AllocError>
        ensures { OnOk result (self.new ≡ self.old ++ spec.expanded_all mode bytes.now) }
    {
        for byte in bytes {
            self.push(Piece::Mark(mode.expanded(*byte)))?;
        }
        Ok(())
    }

    /// Puts quoted bytes at the end.
    pub fn quote(&mut self, bytes: &[u8]) -> Result<(), AllocError>
        ensures { OnOk result (self.new ≡ self.old ++ spec.quoted_all bytes.now) }
    {
        for byte in bytes {
            self.push(Piece::Mark(Mark::Quoted(*byte)))?;
        }
        Ok(())
    }

    /// The bytes, without quotes and ends.
    pub fn text(&self, alloc: Global) -> Result<Text, AllocError>
        ensures { IfOk result (λ text. text ≡ spec.bytes_of self.now) }
    {
        let mut bytes = Vec::new(alloc);
        for piece in self.as_slice() {
            if let Some((byte, _)) = piece.byte() {
                bytes.push(byte)?;
            }
        }
        Text::from_vec(alloc, bytes)
    }

    /// The bytes, each with whether it is quoted.
    pub fn field(&self, alloc: Global) -> Result<Field, AllocError>
        ensures { IfOk result (λ field. field ≡ spec.field_of self.now) }
    {
        let mut field = Field::new(alloc);
        for piece in self.as_slice() {
            if let Some((byte, quoted)) = piece.byte() {
                field.push(byte, quoted)?;
            }
        }
        Ok(field)
    }
}

impl Piece {
    /// The byte, with whether it is quoted.
    pub fn byte(&self) -> Option<(u8, bool)>
        ensures { result ≡ spec.byte_of self.now }
    {
        match self {
            Piece::Mark(mark) => symbol_of(*mark),
            Piece::End => None,
        }
    }
}
