//! Results of leaves that were run ahead.

ghost use Rattle.std.specs.Arc.{arc_value};
ghost use Rattle.std.specs.Prelude.{◌≡◌};
ghost use Rattle.sh_leaf.specs.Record.{Holds};

use crate::outcome::Outcome;
use hs_view::Kept;
use hs_world::{Effects, Reads};
use sh_syntax::Script;
use std::marker::Model;
use std::sync::Arc;

/// What a leaf read and did, and what it came to. In every state that has the values that were read, and with at least its
/// turns, the leaf has exactly these effects, this outcome and these turns. It must be spent.
pub struct Record {
    pub(crate) script: Arc<Script>,
    pub(crate) number: u32,
    pub(crate) reads: Reads,
    pub(crate) effects: Effects,
    pub(crate) outcome: Outcome,
    pub(crate) turns: u32,
}

impl Model for Record {
    ghost use Rattle.std.specs.Arc.{arc_value};
    ghost use Rattle.sh_leaf.specs.Record.{Holds, RecordData};
    ghost use Rattle.hs_world.specs.Files.{files_code};
    ghost use Rattle.std.specs.Coded.{codes};

    ghost Value = { RecordData };

    ghost use Rattle.sh_syntax.specs.contracts.tree.Part as part;

    ghost coded = { Prim.hlevel (codes, files_code, part.the_row.coded) };

    ghost view = { λ r. record { script = arc_value r.script; number = r.number; reads = r.reads; effects = r.effects; outcome = r.outcome; turns = r.turns } };

    ghost invariant = { λ r. Holds (record { script = arc_value r.script; number = r.number; reads = r.reads; effects = r.effects; outcome = r.outcome; turns = r.turns }) };
}

impl Record {
    pub fn script(&self) -> &Arc<Script>
        ensures { arc_value result.now ≡ self.now.script }
    {
        &self.script
    }

    /// The leaf's number in the script.
    pub fn number(&self) -> u32
        ensures { result ≡ self.now.number }
    {
        self.number
    }

    pub fn reads(&self) -> &Reads
        ensures { result.now ≡ self.now.reads }
    {
        &self.reads
    }

    pub fn effects(&self) -> &Effects
        ensures { result.now ≡ self.now.effects }
    {
        &self.effects
    }

    pub fn outcome(&self) -> Outcome
        ensures { result ≡ self.now.outcome }
    {
        self.outcome
    }

    /// The turns that the leaf took.
    pub fn turns(&self) -> u32
        ensures { result ≡ self.now.turns }
    {
        self.turns
    }

    /// What each record keeps.
    pub fn promise(&self)
        ensures { Holds self.now }
    {
        let _ = &self.number;
    }
}

impl Kept for Record {
    ghost kept = { λ r. record { number = r.number; reads = r.reads } };

    fn number(&self) -> u32 {
        self.number
    }

    fn reads(&self) -> &Reads {
        &self.reads
    }

    fn drop_it(self) {
        let Record {
            script: _,
            number: _,
            reads: _,
            effects: _,
            outcome: _,
            turns: _,
        } = self;
    }
}
