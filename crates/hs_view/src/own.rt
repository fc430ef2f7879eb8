//! A view's own effects.

ghost use Rattle.std.specs.Prelude.{◌≡◌, ◌-◌, ◌^◌, length, min, [], ◌∷◌, ◌++◌, true, Some, OnOk, OnErr};
ghost use Rattle.hs_view.specs.Pushes.{has_push, standing};
ghost use Rattle.hs_view.specs.Puts.{Written};
ghost use Rattle.hs_world.specs.World.{WorldData, is_valid};

use crate::base::Base;
use crate::halt::Halt;
use crate::pushes::{Mark, Pushes};
use hs_world::{Depth, Effect, Effects};
use std::alloc::{AllocError, Global};
use std::marker::Model;

/// Effects in order, with counts of the pushes among them that stand.
#[derive(Drop)]
pub struct OwnEffects {
    effects: Effects,
    pushes: Pushes,
}

impl Model for OwnEffects {
    ghost use Rattle.std.specs.Prelude.{◌≡◌, List};
    ghost use Rattle.hs_world.specs.declared.effect.Effect.{Effect};
    ghost use Rattle.hs_world.specs.Files.{files_code};
    ghost use Rattle.hs_view.specs.Pushes.{counted, standing};
    ghost use Rattle.std.specs.Coded.{codes};

    ghost Value = { List Effect };

    ghost coded = { Prim.hlevel (codes, files_code) };

    ghost view = { λ a. a.effects };

    ghost invariant = { λ a. counted a.pushes ≡ standing a.effects };
}

impl OwnEffects {
    pub fn new(alloc: Global) -> OwnEffects
        ensures { result ≡ [] }
    {
        OwnEffects {
            effects: Effects::new(alloc),
            pushes: Pushes::new(alloc),
        }
    }

    pub fn as_slice(&self) -> &[Effect]
        ensures { result.now ≡ self.now }
    {
        self.effects.as_slice()
    }

    pub fn effects(&self) -> &Effects
        ensures { result.now ≡ self.now }
    {
        &self.effects
    }

    pub fn into_effects(self) -> Effects
        ensures { result ≡ self }
    {
        self.effects
    }

    /// How many pushes stand. It takes no memory.
    pub fn pushed(&self) -> Depth
        ensures shells { result.shells ≡ min (length (standing self.now).shells) (2 ^ 32 - 1) }
        ensures inputs { result.inputs ≡ min (standing self.now).inputs (2 ^ 32 - 1) }
        ensures routes { result.routes ≡ min (standing self.now).routes (2 ^ 32 - 1) }
    {
        self.pushes.depth()
    }

    /// Whether a pop undoes one of the pushes that stand.
    pub fn has_push(&self, effect: &Effect) -> bool
        ensures { result ≡ has_push effect.now self.now }
    {
        self.pushes.has(effect)
    }

    /// Puts an effect at the end. Where there is no memory, the list stays.
    pub fn push(&mut self, effect: Effect) -> Result<(), AllocError>
        ensures ok { OnOk result (self.new ≡ self.old ++ effect ∷ []) }
        ensures err { OnErr result (self.new ≡ self.old) }
    {
        let mark = Mark::of(&effect);
        if self.pushes.make_room(mark).is_err() {
            drop(effect);
            return Err(AllocError);
        }
        self.effects.push(effect)?;
        let _count = self.effects.as_slice().len();
        self.pushes.step(mark);
        Ok(())
    }

    /// Puts an effect at the end, and does it in a base that writes. After a refusal it is taken off.
    pub fn push_to<B: Base>(&mut self, base: &mut B, effect: Effect) -> Result<(), Halt>
        requires writes { (B.seen.tells base.old).writes ≡ true }
        requires valid { (u : WorldData) → (B.seen.tells base.old).world ≡ Some u → is_valid effect u ≡ true }
        ensures ok { OnOk result (self.new ≡ self.old ++ effect ∷ []) }
        ensures err { OnErr result (self.new ≡ self.old) }
        ensures written { Written B.seen effect base.old base.new result }
    {
        let mark = Mark::of(&effect);
        if self.pushes.make_room(mark).is_err() {
            drop(effect);
            return Err(Halt::NoMemory);
        }
        push_both(&mut self.effects, base, effect)?;
        let _count = self.effects.as_slice().len();
        self.pushes.step(mark);
        Ok(())
    }
}

fn push_both<B: Base>(effects: &mut Effects, base: &mut B, effect: Effect) -> Result<(), Halt>
    requires writes { (B.seen.tells base.old).writes ≡ true }
    requires valid { (u : WorldData) → (B.seen.tells base.old).world ≡ Some u → is_valid effect u ≡ true }
    ensures ok { OnOk result (effects.new ≡ effects.old ++ effect ∷ []) }
    ensures err { OnErr result (effects.new ≡ effects.old) }
    ensures written { Written B.seen effect base.old base.new result }
{
    effects.push(effect)?;
    let last = effects.as_slice().len() - 1;
    let pushed = base.push(&effects.as_slice()[last]);
    if pushed.is_err() {
        effects.pop();
    }
    pushed
}
