//! What is done on a view.

ghost use Rattle.std.specs.Prelude.{◌≡◌, ◌≢◌, ◌≤◌, ◌<◌, ◌↔◌, ◌-◌, ◌^◌, length, min, true, false, if◌then◌else◌, IfSome, OnErr, Ok, Err, Some};
ghost use Rattle.hs_overlay.specs.Overlay.{over_step};
ghost use Rattle.hs_overlay.specs.Sizes.{over_passes};
ghost use Rattle.hs_view.specs.Causes.{Rose};
ghost use Rattle.hs_view.specs.Known.{tables_of};
ghost use Rattle.hs_view.specs.Pushes.{has_push, is_own_pop, standing};
ghost use Rattle.hs_view.specs.Puts.{HaltsWhere, Puts, done_by};
ghost use Rattle.hs_view.specs.Seen.{IsLeft, Still, spent_of};
ghost use Rattle.hs_view.specs.Size.{capped, effect_size, trace_size};
ghost use Rattle.hs_view.specs.View.{Keeps, Showed};
ghost use Rattle.hs_world.specs.World.{WorldData, is_valid, passed};
ghost use Rattle.hs_world.specs.declared.world.Limit.{Limit};

use super::View;
use crate::base::Base;
use crate::halt::{Halt, SpentKind};
use crate::size::effect_size;
use crate::trace::Trace;
use hs_overlay::Overlay;
use hs_world::{Depth, Effect};

impl<B: Base> View<B> {
    /// A view that goes on with what `into_trace` gave, which is within `trace` bytes where the base does not write. It takes
    /// no memory.
    pub fn resume(base: B, so_far: Trace, trace: u64) -> View<B>
        requires written { so_far.written ≡ (B.seen.tells base).writes }
        requires within { so_far.written ≡ false → trace_size so_far.reads so_far.effects ≤ trace }
        ensures base { result.base ≡ base }
        ensures reads { result.reads ≡ so_far.reads }
        ensures effects { result.effects ≡ so_far.effects }
        ensures trace { result.trace ≡ trace }
    {
        let Trace {
            alloc,
            reads,
            effects,
            overlay,
            size,
            written: _,
        } = so_far;
        View {
            alloc,
            base,
            reads,
            effects,
            overlay,
            trace,
            size,
        }
    }

    /// How many of the view's own pushes stand. It takes no memory.
    pub fn pushed(&self) -> Depth
        ensures shells { result.shells ≡ min (length (standing self.now.effects).shells) (2 ^ 32 - 1) }
        ensures inputs { result.inputs ≡ min (standing self.now.effects).inputs (2 ^ 32 - 1) }
        ensures routes { result.routes ≡ min (standing self.now.effects).routes (2 ^ 32 - 1) }
    {
        self.effects.pushed()
    }

    /// Whether the effect is no pop, or undoes a push of the view's own that stands. It takes no memory.
    pub fn has_push(&self, effect: &Effect) -> bool
        ensures { result ≡ has_push effect.now self.now.effects }
    {
        self.effects.has_push(effect)
    }

    /// Does a valid effect. Over a base that writes it is done there at once; it is recorded first, and taken off after a
    /// refusal. Over another, a pop needs its push in this view, and no more. There Spent(Bytes) comes where a text of the effect, or a
    /// capture or a file that this view is known to have made whole, would be longer than 268,435,456 bytes, and before Trace.
    /// Nothing is read: what goes to a descriptor of the base whose end was not read is measured by itself, whatever file
    /// that end is. Trace comes where the limit is passed: then the effect stands last, and the view is only taken apart.
    pub fn put(&mut self, effect: Effect) -> Result<(), Halt>
        requires valid { is_own_pop effect (B.seen.tells self.old.base).writes ≡ false → (u : WorldData) → Showed B.seen self.old self.old u → is_valid effect u ≡ true }
        requires pushed { (B.seen.tells self.old.base).writes ≡ false → has_push effect self.old.effects ≡ true }
        ensures reads { self.new.reads ≡ self.old.reads }
        ensures effects { self.new.effects ≡ done_by result self.old.effects effect }
        ensures keeps { Keeps B.seen self.old self.new result }
        ensures left { (B.seen.tells self.old.base).writes ≡ true → OnErr result (IsLeft B.seen effect self.old.base self.new.base) }
        ensures full { (k : SpentKind) → result ≡ Err (Halt.Spent k) → Still B.seen self.old.base self.new.base }
        ensures fault { result ≡ Err Halt.Fault → Rose (B.seen.tells self.old.base).faults (B.seen.tells self.new.base).faults }
        ensures trace { (B.seen.tells self.old.base).writes ≡ false → trace_size self.old.reads self.old.effects ≤ self.old.trace → (result ≡ Err Halt.Trace ↔ self.new.trace < trace_size self.new.reads self.new.effects) }
        ensures through { (B.seen.tells self.old.base).writes ≡ true → result ≢ Err Halt.Trace }
        ensures spent { (B.seen.tells self.old.base).writes ≡ true → (l : Limit) → IfSome (B.seen.tells self.old.base).world (λ w. HaltsWhere (Halt.Spent (spent_of l)) (passed effect w ≡ Some l) result) }
        ensures long { (B.seen.tells self.old.base).writes ≡ false → HaltsWhere (Halt.Spent SpentKind.Bytes) (over_passes effect (tables_of B.seen self.old) ≡ true) result }
        ensures tree { (B.seen.tells self.old.base).writes ≡ false → result ≢ Err (Halt.Spent SpentKind.Tree) }
        ensures turns { result ≢ Err (Halt.Spent SpentKind.Turns) }
        ensures frames { result ≢ Err (Halt.Spent SpentKind.Frames) }
        ensures outside { result ≢ Err Halt.Outside }
    {
        if self.base.writes() {
            return self.put_now(effect);
        }
        self.put_later(effect)
    }

    /// Does an effect in the state of a base that writes.
    fn put_now(&mut self, effect: Effect) -> Result<(), Halt>
        requires writes { (B.seen.tells self.old.base).writes ≡ true }
        requires valid { (u : WorldData) → Showed B.seen self.old self.old u → is_valid effect u ≡ true }
        ensures { Puts B.seen self.old self.new effect result }
    {
        self.effects.push_to(&mut self.base, effect)
    }

    /// Records an effect that the base does not have.
    fn put_later(&mut self, effect: Effect) -> Result<(), Halt>
        requires writes { (B.seen.tells self.old.base).writes ≡ false }
        requires valid { is_own_pop effect (B.seen.tells self.old.base).writes ≡ false → (u : WorldData) → Showed B.seen self.old self.old u → is_valid effect u ≡ true }
        requires pushed { has_push effect self.old.effects ≡ true }
        ensures { Puts B.seen self.old self.new effect result }
    {
        match self.tables() {
            Err(halt) => {
                drop(effect);
                Err(halt)
            }
            Ok(overlay) => self.put_over(overlay, effect),
        }
    }

    /// Records an effect over the tables of those before it.
    fn put_over(&mut self, overlay: Overlay, effect: Effect) -> Result<(), Halt>
        requires writes { (B.seen.tells self.old.base).writes ≡ false }
        requires valid { (u : WorldData) → Showed B.seen self.old self.old u → is_valid effect u ≡ true }
        requires pushed { has_push effect self.old.effects ≡ true }
        requires tables { overlay ≡ tables_of B.seen self.old }
        ensures { Puts B.seen self.old self.new effect result }
    {
        if overlay.passes(&effect) {
            drop(effect);
            self.keep(overlay);
            return Err(Halt::Spent(SpentKind::Bytes));
        }
        self.put_short(overlay, effect)
    }

    /// Records an effect that is not too long.
    fn put_short(&mut self, overlay: Overlay, effect: Effect) -> Result<(), Halt>
        requires writes { (B.seen.tells self.old.base).writes ≡ false }
        requires valid { (u : WorldData) → Showed B.seen self.old self.old u → is_valid effect u ≡ true }
        requires pushed { has_push effect self.old.effects ≡ true }
        requires tables { overlay ≡ tables_of B.seen self.old }
        requires short { over_passes effect overlay ≡ false }
        ensures { Puts B.seen self.old self.new effect result }
    {
        let mut overlay = overlay;
        if overlay.step(&effect).is_err() {
            drop((overlay, effect));
            return Err(Halt::NoMemory);
        }
        self.record(overlay, effect)
    }

    /// Records an effect, with the tables after it.
    fn record(&mut self, overlay: Overlay, effect: Effect) -> Result<(), Halt>
        requires writes { (B.seen.tells self.old.base).writes ≡ false }
        requires valid { (u : WorldData) → Showed B.seen self.old self.old u → is_valid effect u ≡ true }
        requires pushed { has_push effect self.old.effects ≡ true }
        requires tables { overlay ≡ over_step effect (tables_of B.seen self.old) }
        requires short { over_passes effect (tables_of B.seen self.old) ≡ false }
        ensures { Puts B.seen self.old self.new effect result }
    {
        let size = 64u128.saturating_add(effect_size(&effect));
        if self.effects.push(effect).is_err() {
            drop(overlay);
            return Err(Halt::NoMemory);
        }
        drop(self.overlay.replace(overlay));
        self.size = self.size.saturating_add(size);
        unless_past(self.size > u128::from(self.trace))
    }
}

fn unless_past(past: bool) -> Result<(), Halt>
    ensures { result ≡ (if past then Err Halt.Trace else Ok tt) }
{
    if past {
        return Err(Halt::Trace);
    }
    Ok(())
}
