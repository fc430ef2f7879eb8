//! An expansion that goes from part to part.

ghost use Rattle.std.specs.Prelude.{◌≡◌, ◌+◌, ◌++◌, [], false, OnOk};
ghost use Rattle.sh_expand.specs.Moves.{Moved};
ghost use Rattle.sh_expand.specs.Rest.{means, next_of, rest_of};
ghost use Rattle.sh_expand.specs.Weights.{parts_weight, weight};
ghost use Rattle.sh_param.specs.Parts as spec;
ghost use Rattle.sh_param.specs.Pieces.{expanded_all};

use crate::open::{Open, Place};
use hs_view::{Base, Halt, View};
use sh_arith::Stack;
use sh_param::{Context, Mode, ParamValue, Pieces, with_value};
use sh_syntax::{Part, Word};
use std::alloc::{AllocError, Global};
use std::mem;

/// The parts that come next, the pieces before them, what is open around them, and the words behind.
#[derive(Drop)]
pub struct Machine<'a> {
    pub alloc: Global,
    pub mode: Mode,
    /// Whether a tilde may stand at the beginning of the next part.
    pub start: bool,
    pub parts: &'a [Part],
    pub pieces: Pieces,
    pub open: Stack<Open<'a>>,
    pub words: &'a [Word],
    pub base: Mode,
    pub context: Context,
}

impl<'a> Machine<'a> {
    /// The place of the parts that come next.
    pub fn place(&self) -> Place<'a>
        ensures mode { result.mode ≡ self.now.mode }
        ensures parts { result.parts.now ≡ self.now.parts.now }
    {
        Place {
            mode: self.mode,
            parts: self.parts,
        }
    }

    /// Takes the pieces out.
    pub fn take_pieces(&mut self) -> Pieces
        ensures pieces { result ≡ self.old.pieces }
        ensures rest { self.new ≡ record self.old { pieces = [] } }
    {
        mem::replace(&mut self.pieces, Pieces::new(self.alloc))
    }

    /// Puts bytes behind the pieces that an expansion gave.
    pub fn put_bytes(&mut self, bytes: &[u8]) -> Result<(), AllocError>
        ensures rest { OnOk result (rest_of self.new ≡ next_of self.old (self.old.pieces ++ expanded_all self.old.mode bytes.now)) }
        ensures weighs { OnOk result (weight self.new ≡ weight self.old) }
    {
        self.pieces.expand(self.mode, bytes)
    }

    /// Puts a value behind the pieces.
    pub fn put<B: Base>(&mut self, value: &ParamValue, view: &mut View<B>) -> Result<(), Halt>
        ensures moves { Moved B.seen (spec.put_value self.old.mode value.now self.old.pieces (next_of self.old)) (rest_of self.new) view.old view.new result }
        ensures weighs { OnOk result (weight self.new ≡ weight self.old) }
    {
        let pieces = self.take_pieces();
        self.pieces = with_value(self.alloc, self.mode, value, pieces, view)?;
        Ok(())
    }

    /// Goes into parts, behind which come those that are next now.
    pub fn enter(&mut self, mode: Mode, start: bool, parts: &'a [Part]) -> Result<(), AllocError>
        requires { self.old.start ≡ false }
        ensures rest { OnOk result (rest_of self.new ≡ spec.parts_mean mode start (means parts.now) self.old.pieces (next_of self.old)) }
        ensures weighs { OnOk result (weight self.new ≡ parts_weight parts.now + 1 + weight self.old) }
    {
        let place = self.place();
        self.open.push(Open::Within(place))?;
        self.mode = mode;
        self.start = start;
        self.parts = parts;
        Ok(())
    }
}
