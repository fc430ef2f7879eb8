//! What a view stands on.

ghost use Rattle.std.specs.Prelude.{◌≡◌, ◌≢◌, ◌≤◌, ◌↔◌, ◌∷◌, [], true, false, IfOk, OnOk, OnErr, IfSome, Err, Some};
ghost use Rattle.hs_view.specs.Causes.{Rose};
ghost use Rattle.hs_view.specs.Seen.{Gained, IsLeft, Shows, Still, is_of, pushed, spent_of};
ghost use Rattle.hs_world.specs.World.{At, WorldData, is_valid, passed};
ghost use Rattle.hs_world.specs.declared.world.Limit.{Limit};

use crate::halt::{Halt, SpentKind};
use hs_text::TextList;
use hs_world::{Effect, Loc, Reply, Value};

/// A state that can be asked, or what answers for one.
pub trait Base {
    /// What contracts see: the state and the runs of programs, where the base tells them, whether it writes and runs
    /// programs, and how many faults there were.
    ghost seen: { Shows Self };

    /// Whether effects go into the state at once. It never changes.
    fn writes(&self) -> bool
        ensures { result ≡ (seen.tells self.now).writes };

    /// The value at a location, which is of the location's kind.
    fn get(&mut self, loc: &Loc) -> Result<Value, Halt>
        ensures answer { IfOk result (λ value. IfSome (seen.tells self.old).world (λ w. At w loc.now ≡ value)) }
        ensures shape { IfOk result (λ value. is_of loc.now value ≡ true) }
        ensures world { (seen.tells self.new).world ≡ (seen.tells self.old).world }
        ensures made { seen.made [] self.old self.new }
        ensures asked { (seen.tells self.new).asked ≡ (seen.tells self.old).asked }
        ensures writes { (seen.tells self.new).writes ≡ (seen.tells self.old).writes }
        ensures runs { (seen.tells self.new).runs ≡ (seen.tells self.old).runs }
        ensures later { (seen.tells self.old).faults ≤ (seen.tells self.new).faults }
        ensures fault { result ≡ Err Halt.Fault → Rose (seen.tells self.old).faults (seen.tells self.new).faults }
        ensures spent { (k : SpentKind) → result ≢ Err (Halt.Spent k) }
        ensures trace { result ≢ Err Halt.Trace }
        ensures outside { result ≢ Err Halt.Outside };

    /// Does a valid effect in the state of a base that writes; another base does nothing. Refused, a told state is as it was
    /// or has this one effect; where a limit would be passed, it is as it was.
    fn push(&mut self, effect: &Effect) -> Result<(), Halt>
        requires { (seen.tells self.old).writes ≡ true → (u : WorldData) → (seen.tells self.old).world ≡ Some u → is_valid effect.now u ≡ true }
        ensures ok { OnOk result ((seen.tells self.new).world ≡ pushed (seen.tells self.old).writes effect.now (seen.tells self.old).world) }
        ensures made { (seen.tells self.old).writes ≡ true → OnOk result (seen.made (effect.now ∷ []) self.old self.new) }
        ensures err { OnErr result (IsLeft seen effect.now self.old self.new) }
        ensures full { (k : SpentKind) → result ≡ Err (Halt.Spent k) → Still seen self.old self.new }
        ensures asked { (seen.tells self.new).asked ≡ (seen.tells self.old).asked }
        ensures writes { (seen.tells self.new).writes ≡ (seen.tells self.old).writes }
        ensures runs { (seen.tells self.new).runs ≡ (seen.tells self.old).runs }
        ensures later { (seen.tells self.old).faults ≤ (seen.tells self.new).faults }
        ensures fault { result ≡ Err Halt.Fault → Rose (seen.tells self.old).faults (seen.tells self.new).faults }
        ensures spent { (l : Limit) → IfSome (seen.tells self.old).world (λ w. (result ≡ Err (Halt.Spent (spent_of l))) ↔ ((seen.tells self.old).writes ≡ true) × (passed effect.now w ≡ Some l)) }
        ensures turns { result ≢ Err (Halt.Spent SpentKind.Turns) }
        ensures frames { result ≢ Err (Halt.Spent SpentKind.Frames) }
        ensures trace { result ≢ Err Halt.Trace }
        ensures outside { result ≢ Err Halt.Outside };

    /// Runs an outside program with the exported variables, the current folder and all of standard input. Files past the
    /// limit of a tree are Spent(Tree).
    fn ask(&mut self, argv: &TextList) -> Result<Reply, Halt>
        ensures world { (seen.tells self.new).world ≡ (seen.tells self.old).world }
        ensures made { seen.made [] self.old self.new }
        ensures asked { Gained (seen.tells self.old) (seen.tells self.new) argv.now result }
        ensures writes { (seen.tells self.new).writes ≡ (seen.tells self.old).writes }
        ensures runs { (seen.tells self.new).runs ≡ (seen.tells self.old).runs }
        ensures later { (seen.tells self.old).faults ≤ (seen.tells self.new).faults }
        ensures fault { result ≡ Err Halt.Fault → Rose (seen.tells self.old).faults (seen.tells self.new).faults }
        ensures outside { (result ≡ Err Halt.Outside) ↔ ((seen.tells self.old).runs ≡ false) }
        ensures turns { result ≢ Err (Halt.Spent SpentKind.Turns) }
        ensures bytes { result ≢ Err (Halt.Spent SpentKind.Bytes) }
        ensures frames { result ≢ Err (Halt.Spent SpentKind.Frames) }
        ensures trace { result ≢ Err Halt.Trace };
}
