//! Fields, as the marks of a word come.

ghost use Rattle.std.specs.Prelude.{◌≡◌, ◌<◌, ℕ, Bool, List, [], ◌∷◌, ◌++◌, OnOk, IfOk, false, slice_index_or};
ghost use Rattle.sh_split.specs.Fields as spec;
ghost use Rattle.sh_split.specs.Splitter.{IsIdle, so_far};

use crate::mark::Mark;
use crate::place::{Place, ends, next};
use crate::separators::{Separators, delimits, is_white};
use hs_text::{Field, Fields};
use std::alloc::{AllocError, Global};
use std::mem;

/// The fields that have ended, and the bytes of the one that goes on.
#[derive(Drop)]
pub struct Splitter {
    alloc: Global,
    pub fields: Fields,
    pub field: Field,
    pub place: Place,
}

impl Splitter {
    pub fn new(alloc: Global) -> Splitter
        ensures fields { result.fields ≡ [] }
        ensures field { result.field ≡ [] }
        ensures place { result.place ≡ Place.Between }
    {
        Splitter {
            alloc,
            fields: Fields::new(alloc),
            field: Field::new(alloc),
            place: Place::Between,
        }
    }

    /// Adds a byte to the field, which begins here if none has.
    fn add(&mut self, byte: u8, quoted: bool) -> Result<(), AllocError>
        ensures added { OnOk result ((fs : List (List (ℕ × Bool))) → so_far self.new.fields self.new.field fs ≡ so_far self.old.fields self.old.field (spec.put_first (byte, quoted) fs)) }
        ensures place { OnOk result (self.new.place ≡ Place.Within) }
    {
        self.field.push(byte, quoted)?;
        self.place = Place::Within;
        Ok(())
    }

    /// Ends the field.
    fn end(&mut self) -> Result<(), AllocError>
        ensures ended { OnOk result ((fs : List (List (ℕ × Bool))) → so_far self.new.fields self.new.field fs ≡ so_far self.old.fields self.old.field ([] ∷ fs)) }
        ensures field { OnOk result (self.new.field ≡ []) }
        ensures place { self.new.place ≡ self.old.place }
    {
        let field = mem::replace(&mut self.field, Field::new(self.alloc));
        self.fields.push(field)
    }

    /// Takes a delimiter.
    fn part(&mut self, white: bool) -> Result<(), AllocError>
        requires idle { IsIdle self.old.place self.old.field }
        ensures parted { OnOk result ((fs : List (List (ℕ × Bool))) → so_far self.new.fields self.new.field fs ≡ so_far self.old.fields self.old.field (spec.end_if (spec.ends self.old.place white) fs)) }
        ensures place { OnOk result (self.new.place ≡ spec.next self.old.place white) }
        ensures field { OnOk result (self.new.field ≡ []) }
    {
        if ends(self.place, white) {
            self.end()?;
        }
        self.place = next(self.place, white);
        Ok(())
    }

    /// Takes a byte that an expansion gave.
    fn take_expanded(&mut self, table: &Separators, byte: u8) -> Result<(), AllocError>
        requires idle { IsIdle self.old.place self.old.field }
        ensures taken { OnOk result ((rest : List Mark) (ifs : List ℕ) → spec.delimits ifs byte ≡ slice_index_or table.now byte false → so_far self.new.fields self.new.field (spec.fields_from ifs self.new.place rest) ≡ so_far self.old.fields self.old.field (spec.fields_from ifs self.old.place (Mark.Expanded byte ∷ rest))) }
        ensures idle { OnOk result (IsIdle self.new.place self.new.field) }
    {
        if delimits(table, byte) {
            return self.part(is_white(byte));
        }
        self.add(byte, false)
    }

    /// Takes a mark.
    pub fn take(&mut self, table: &Separators, mark: Mark) -> Result<(), AllocError>
        requires idle { IsIdle self.old.place self.old.field }
        ensures taken { OnOk result ((rest : List Mark) (ifs : List ℕ) → ((b : ℕ) → b < 256 → slice_index_or table.now b false ≡ spec.delimits ifs b) → so_far self.new.fields self.new.field (spec.fields_from ifs self.new.place rest) ≡ so_far self.old.fields self.old.field (spec.fields_from ifs self.old.place (mark ∷ rest))) }
        ensures idle { OnOk result (IsIdle self.new.place self.new.field) }
    {
        match mark {
            Mark::Expanded(byte) => self.take_expanded(table, byte),
            Mark::Written(byte) => self.add(byte, false),
            Mark::Quoted(byte) => self.add(byte, true),
            Mark::Quotes => {
                self.place = Place::Within;
                Ok(())
            }
        }
    }

    /// All fields, where the marks end.
    pub fn finish(mut self) -> Result<Fields, AllocError>
        requires idle { IsIdle self.place self.field }
        ensures { IfOk result (λ fields. fields ≡ so_far self.fields self.field (spec.last_of self.place)) }
    {
        match self.place {
            Place::Within => self.end()?,
            Place::Between => {}
            Place::Behind => {}
        }
        let Splitter {
            alloc: _,
            fields,
            field: _,
            place: _,
        } = self;
        Ok(fields)
    }
}
