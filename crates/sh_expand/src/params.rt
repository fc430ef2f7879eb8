//! Parameter expansion (POSIX.1-2017, XCU 2.6.2).

ghost use Rattle.std.specs.Prelude.{◌≡◌, ◌≤◌, ◌+◌, false, [], OnOk};
ghost use Rattle.sh_expand.specs.Moves.{IsErrorWord, Moved, Tried};
ghost use Rattle.sh_param.specs.Kinds as kinds;
ghost use Rattle.sh_param.specs.Parts as spec;
ghost use Rattle.sh_expand.specs.Rest.{behind_parts, means, next_of, open_means, rest_of};
ghost use Rattle.sh_expand.specs.Sums.{sums};
ghost use Rattle.sh_expand.specs.Weights.{open_weight, parts_weight, weight};

use crate::machine::Machine;
use crate::open::Open;
use hs_text::Text;
use hs_view::{Base, Halt, View};
use sh_param::{Kind, Mode, Pieces, kind_of, message, value_of};
use sh_syntax::{ParamOp, Part};
use std::alloc::AllocError;

/// Whether the parameter is a variable.
fn is_variable(name: &[u8]) -> bool
    ensures { result ≡ spec.is_variable (kinds.kind_of name.now) }
{
    matches!(kind_of(name), Kind::Variable)
}

impl<'a> Machine<'a> {
    /// The value.
    pub fn value<B: Base>(&mut self, name: &Text, view: &mut View<B>) -> Result<(), Halt>
        ensures moves { Moved B.seen (spec.value_means self.old.mode name.now self.old.pieces (next_of self.old)) (rest_of self.new) view.old view.new result }
        ensures weighs { OnOk result (weight self.new ≡ weight self.old) }
    {
        let value = value_of(self.alloc, name, self.mode.status, view)?;
        self.put(&value, view)
    }

    /// How many bytes the value has.
    pub fn size<B: Base>(&mut self, name: &Text, view: &mut View<B>) -> Result<(), Halt>
        ensures moves { Moved B.seen (spec.size_means self.old.mode name.now self.old.pieces (next_of self.old)) (rest_of self.new) view.old view.new result }
        ensures weighs { OnOk result (weight self.new ≡ weight self.old) }
    {
        let value = value_of(self.alloc, name, self.mode.status, view)?;
        let size = value.size(self.alloc)?;
        self.put_bytes(size.as_slice())?;
        Ok(())
    }

    /// Goes into the word of a parameter expansion, in whose place it comes.
    fn enter_word(&mut self, mode: Mode, word: &'a [Part]) -> Result<(), AllocError>
        requires { self.old.start ≡ false }
        ensures rest { OnOk result (rest_of self.new ≡ spec.word_means mode (means word.now) self.old.pieces (next_of self.old)) }
        ensures weighs { OnOk result (weight self.new ≤ parts_weight word.now + 1 + weight self.old) }
    {
        self.enter(mode, !mode.quoted, word)
    }

    /// The value, or the word where that is absent.
    pub fn default<B: Base>(
        &mut self,
        name: &Text,
        colon: bool,
        word: &'a [Part],
        view: &mut View<B>,
    ) -> Result<(), Halt>
        requires { self.old.start ≡ false }
        ensures moves { Moved B.seen (spec.default_means self.old.mode name.now colon (means word.now) self.old.pieces (next_of self.old)) (rest_of self.new) view.old view.new result }
        ensures weighs { OnOk result (weight self.new ≤ parts_weight word.now + 1 + weight self.old) }
    {
        let value = value_of(self.alloc, name, self.mode.status, view)?;
        if value.is_absent(colon) {
            let mode = self.mode.operand();
            self.enter_word(mode, word)?;
            return Ok(());
        }
        self.put(&value, view)
    }

    /// The word, unless the value is absent.
    pub fn alternative<B: Base>(
        &mut self,
        name: &Text,
        colon: bool,
        word: &'a [Part],
        view: &mut View<B>,
    ) -> Result<(), Halt>
        requires { self.old.start ≡ false }
        ensures moves { Moved B.seen (spec.alternative_means self.old.mode name.now colon (means word.now) self.old.pieces (next_of self.old)) (rest_of self.new) view.old view.new result }
        ensures weighs { OnOk result (weight self.new ≤ parts_weight word.now + 1 + weight self.old) }
    {
        let value = value_of(self.alloc, name, self.mode.status, view)?;
        if value.is_absent(colon) {
            return Ok(());
        }
        let mode = self.mode.operand();
        self.enter_word(mode, word)?;
        Ok(())
    }
}

impl<'a> Machine<'a> {
    /// Goes into a word that is expanded by itself.
    fn enter_aside(
        &mut self,
        opened: Open<'a>,
        mode: Mode,
        word: &'a [Part],
    ) -> Result<(), AllocError>
        ensures rest { OnOk result (rest_of self.new ≡ spec.word_means mode (means word.now) [] (open_means opened.entry (behind_parts self.old))) }
        ensures weighs { OnOk result (weight self.new + parts_weight self.old.parts.now ≡ parts_weight word.now + open_weight opened.entry + weight self.old) }
    {
        self.open.push(opened)?;
        self.pieces = Pieces::new(self.alloc);
        self.mode = mode;
        self.start = !mode.quoted;
        self.parts = word;
        Ok(())
    }

    /// The word goes to the variable, where the value is absent.
    fn assign_word(&mut self, name: &'a Text, word: &'a [Part]) -> Result<(), AllocError>
        requires { self.old.start ≡ false }
        ensures rest { OnOk result (rest_of self.new ≡ spec.assigned_word self.old.mode name.now (means word.now) self.old.pieces (next_of self.old)) }
        ensures weighs { OnOk result (weight self.new ≤ parts_weight word.now + 1 + weight self.old) }
    {
        let mode = self.mode.text();
        let pieces = self.take_pieces();
        let place = self.place();
        self.enter_aside(Open::Assign(name, place, pieces), mode, word)
    }

    fn assign_variable<B: Base>(
        &mut self,
        name: &'a Text,
        colon: bool,
        word: &'a [Part],
        view: &mut View<B>,
    ) -> Result<(), Halt>
        requires { self.old.start ≡ false }
        ensures moves { Moved B.seen (spec.variable_means self.old.mode name.now colon (means word.now) self.old.pieces (next_of self.old)) (rest_of self.new) view.old view.new result }
        ensures weighs { OnOk result (weight self.new ≤ parts_weight word.now + 1 + weight self.old) }
    {
        let value = value_of(self.alloc, name, self.mode.status, view)?;
        if value.is_absent(colon) {
            self.assign_word(name, word)?;
            return Ok(());
        }
        self.put(&value, view)
    }

    /// The value, or the word where that is absent, which the variable gets. The answer is the message on a parameter that
    /// is no variable.
    pub fn assign<B: Base>(
        &mut self,
        name: &'a Text,
        colon: bool,
        word: &'a [Part],
        view: &mut View<B>,
    ) -> Result<Option<Text>, Halt>
        requires { self.old.start ≡ false }
        ensures moves { Tried B.seen (spec.assignment_means self.old.mode name.now colon (means word.now) self.old.pieces (next_of self.old)) (rest_of self.new) view.old view.new result }
        ensures weighs { OnOk result (weight self.new ≤ parts_weight word.now + 1 + weight self.old) }
    {
        if is_variable(name.as_slice()) {
            self.assign_variable(name, colon, word, view)?;
            return Ok(None);
        }
        let why = message(self.alloc, name.as_slice(), b"cannot assign")?;
        Ok(Some(why))
    }

    /// The word as a message, or that the parameter is not set.
    fn error_word(&mut self, name: &'a Text, word: &'a [Part]) -> Result<Option<Text>, AllocError>
        ensures word { IsErrorWord (spec.error_word self.old.mode name.now (means word.now)) (rest_of self.new) result }
        ensures weighs { OnOk result (weight self.new ≤ parts_weight word.now + 1 + weight self.old) }
    {
        if word.is_empty() {
            let why = message(self.alloc, name.as_slice(), b"parameter not set")?;
            return Ok(Some(why));
        }
        let mode = self.mode.text();
        self.enter_aside(Open::Error(name), mode, word)?;
        Ok(None)
    }

    /// The value, or a message where that is absent.
    pub fn error<B: Base>(
        &mut self,
        name: &'a Text,
        colon: bool,
        word: &'a [Part],
        view: &mut View<B>,
    ) -> Result<Option<Text>, Halt>
        ensures moves { Tried B.seen (spec.error_means self.old.mode name.now colon (means word.now) self.old.pieces (next_of self.old)) (rest_of self.new) view.old view.new result }
        ensures weighs { OnOk result (weight self.new ≤ parts_weight word.now + 1 + weight self.old) }
    {
        let value = value_of(self.alloc, name, self.mode.status, view)?;
        if value.is_absent(colon) {
            let why = self.error_word(name, word)?;
            return Ok(why);
        }
        self.put(&value, view)?;
        Ok(None)
    }

    /// The value without what the word matches.
    pub fn trim<B: Base>(
        &mut self,
        op: ParamOp,
        name: &Text,
        word: &'a [Part],
        view: &mut View<B>,
    ) -> Result<(), Halt>
        requires { self.old.start ≡ false }
        ensures moves { Moved B.seen (spec.trim_means op self.old.mode name.now (means word.now) self.old.pieces (next_of self.old)) (rest_of self.new) view.old view.new result }
        ensures weighs { OnOk result (weight self.new ≤ parts_weight word.now + 1 + weight self.old) }
    {
        let value = value_of(self.alloc, name, self.mode.status, view)?;
        let mode = self.mode.pattern();
        let pieces = self.take_pieces();
        let place = self.place();
        self.enter_aside(Open::Trim(op, value, place, pieces), mode, word)?;
        Ok(())
    }

    /// The number of an arithmetic expression.
    pub fn sum(&mut self, word: &'a [Part]) -> Result<(), AllocError>
        requires { self.old.start ≡ false }
        ensures rest { OnOk result (rest_of self.new ≡ spec.sum_means sums self.old.mode (means word.now) self.old.pieces (next_of self.old)) }
        ensures weighs { OnOk result (weight self.new ≤ parts_weight word.now + 1 + weight self.old) }
    {
        let mode = self.mode.sum();
        let pieces = self.take_pieces();
        let place = self.place();
        self.enter_aside(Open::Sum(place, pieces), mode, word)
    }
}
