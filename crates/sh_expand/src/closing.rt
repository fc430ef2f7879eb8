//! Where the parts of a word end.

ghost use Rattle.std.specs.Prelude.{◌≡◌, ◌≤◌, ◌<◌, ◌+◌, IfOk, OnOk};
ghost use Rattle.sh_expand.specs.Moves.{Moved, Tried};
ghost use Rattle.sh_param.specs.Parts as spec;
ghost use Rattle.sh_expand.specs.Rest.{behind_parts, next_of, open_means, place_means, rest_of};
ghost use Rattle.sh_param.specs.Messages as messages;
ghost use Rattle.sh_param.specs.Pieces.{bytes_of, field_of};
ghost use Rattle.sh_param.specs.Plans.{after};
ghost use Rattle.sh_param.specs.Trims as trims;
ghost use Rattle.sh_expand.specs.Sums.{sums};
ghost use Rattle.sh_expand.specs.Weights.{open_weight, parts_weight, weight};

use crate::machine::Machine;
use crate::open::{Open, Place};
use crate::summing::summed;
use hs_text::Text;
use hs_view::{Base, Halt, View};
use sh_arith::Assigned;
use sh_param::{ParamValue, Pieces, assign, message, trimmed};
use sh_syntax::ParamOp;
use std::alloc::AllocError;

impl<'a> Machine<'a> {
    /// Goes on with the parts at a place, behind these pieces.
    fn resume(&mut self, place: Place<'a>, pieces: Pieces)
        ensures mode { self.new.mode ≡ place.entry.mode }
        ensures pieces { self.new.pieces ≡ pieces }
        ensures next { next_of self.new ≡ place_means place.entry (behind_parts self.old) }
        ensures weighs { weight self.new + parts_weight self.old.parts.now ≡ parts_weight place.entry.parts.now + weight self.old }
    {
        self.mode = place.mode;
        self.start = false;
        self.parts = place.parts;
        self.pieces = pieces;
    }

    /// Goes on behind a value.
    fn resume_behind<B: Base>(
        &mut self,
        value: &ParamValue,
        place: Place<'a>,
        pieces: Pieces,
        view: &mut View<B>,
    ) -> Result<(), Halt>
        ensures moves { Moved B.seen (spec.put_value place.entry.mode value.now pieces (place_means place.entry (behind_parts self.old))) (rest_of self.new) view.old view.new result }
        ensures weighs { OnOk result (weight self.new + parts_weight self.old.parts.now ≤ parts_weight place.entry.parts.now + weight self.old) }
    {
        self.resume(place, pieces);
        self.put(value, view)
    }

    /// The word is the pattern of what is removed from the value.
    fn end_trim<B: Base>(
        &mut self,
        op: ParamOp,
        value: &ParamValue,
        place: Place<'a>,
        pieces: Pieces,
        view: &mut View<B>,
    ) -> Result<(), Halt>
        ensures moves { Moved B.seen (spec.put_value place.entry.mode (trims.trimmed op (field_of self.old.pieces) value.now) pieces (place_means place.entry (behind_parts self.old))) (rest_of self.new) view.old view.new result }
        ensures weighs { OnOk result (weight self.new + parts_weight self.old.parts.now ≤ parts_weight place.entry.parts.now + weight self.old) }
    {
        let field = self.pieces.field(self.alloc)?;
        let value = trimmed(self.alloc, op, &field, value)?;
        self.resume_behind(&value, place, pieces, view)
    }

    /// The variable gets the word, which takes its place. The answer is the message on one that is read only.
    fn end_assignment<B: Base>(
        &mut self,
        name: &Text,
        place: Place<'a>,
        pieces: Pieces,
        view: &mut View<B>,
    ) -> Result<Option<Text>, Halt>
        ensures moves { Tried B.seen (spec.assign_means place.entry.mode name.now (bytes_of self.old.pieces) pieces (place_means place.entry (behind_parts self.old))) (rest_of self.new) view.old view.new result }
        ensures weighs { OnOk result (weight self.new + parts_weight self.old.parts.now ≤ parts_weight place.entry.parts.now + weight self.old) }
    {
        let bytes = self.pieces.text(self.alloc)?;
        self.resume(place, pieces);
        match assign(name, &bytes, view)? {
            Assigned::Yes => {
                self.put_bytes(bytes.as_slice())?;
                Ok(None)
            }
            Assigned::ReadOnly => {
                let why = message(self.alloc, name.as_slice(), b"is read only")?;
                Ok(Some(why))
            }
        }
    }
}

impl<'a> Machine<'a> {
    /// The number of an expression takes its place. The answer is the message on what has no number.
    fn end_sum<B: Base>(
        &mut self,
        place: Place<'a>,
        pieces: Pieces,
        view: &mut View<B>,
    ) -> Result<Option<Text>, Halt>
        ensures moves { Tried B.seen (after (sums (bytes_of self.old.pieces)) (spec.after_sum place.entry.mode pieces (place_means place.entry (behind_parts self.old)))) (rest_of self.new) view.old view.new result }
        ensures weighs { OnOk result (weight self.new + parts_weight self.old.parts.now ≤ parts_weight place.entry.parts.now + weight self.old) }
    {
        let bytes = self.pieces.text(self.alloc)?;
        self.resume(place, pieces);
        match summed(self.alloc, bytes.as_slice(), view)? {
            Ok(number) => {
                self.put_bytes(number.as_slice())?;
                Ok(None)
            }
            Err(why) => Ok(Some(why)),
        }
    }

    /// The word is a message.
    fn error_message(&self, name: &Text) -> Result<Text, AllocError>
        ensures { IfOk result (λ why. why ≡ messages.message name.now (bytes_of self.now.pieces)) }
    {
        let bytes = self.pieces.text(self.alloc)?;
        message(self.alloc, name.as_slice(), bytes.as_slice())
    }

    /// Ends what was open.
    pub fn close<B: Base>(
        &mut self,
        open: Open<'a>,
        view: &mut View<B>,
    ) -> Result<Option<Text>, Halt>
        ensures moves { Tried B.seen (open_means open.entry (behind_parts self.old) self.old.pieces) (rest_of self.new) view.old view.new result }
        ensures weighs { OnOk result (weight self.new < open_weight open.entry + weight self.old) }
    {
        match open {
            Open::Within(place) => {
                let pieces = self.take_pieces();
                self.resume(place, pieces);
                Ok(None)
            }
            Open::Assign(name, place, pieces) => self.end_assignment(name, place, pieces, view),
            Open::Error(name) => {
                let why = self.error_message(name)?;
                Ok(Some(why))
            }
            Open::Trim(op, value, place, pieces) => {
                self.end_trim(op, &value, place, pieces, view)?;
                Ok(None)
            }
            Open::Sum(place, pieces) => self.end_sum(place, pieces, view),
        }
    }
}
