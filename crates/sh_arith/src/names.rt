//! What an expression asks of the shell's variables.

ghost use Rattle.std.specs.Prelude.{◌≡◌, ℕ, ℤ, List, IfOk, ◌⊎◌};
ghost use Rattle.std.specs.Result.{IfErr};
ghost use Rattle.sh_arith.specs.Names.{Table, Sets};

use hs_text::Text;

/// What became of an assignment.
#[derive(Clone, Copy, Debug, PartialEq, Eq)]
pub enum Assigned {
    Yes,
    /// The name is read only and keeps its value.
    ReadOnly,
}

/// Names with values.
pub trait Names {
    /// Why a call may give no answer.
    type Halt;

    /// Which tables of names agree with these.
    ghost agrees: { Self → Table → Type 0 };

    /// Which halts may come between an earlier and a later state in a `get`.
    ghost get_halts: { Self → Self → Self.Halt → Type 0 };

    /// Which may come in a `set` of a name and a number that is left unmade.
    ghost unmade_halts: { Self → Self → List ℕ → ℤ → Self.Halt → Type 0 };

    /// Which may come in a `set` of a name and a number that is made.
    ghost made_halts: { Self → Self → List ℕ → ℤ → Self.Halt → Type 0 };

    /// The value of a name, if it has one.
    fn get(&mut self, name: &[u8]) -> Result<Option<Text>, Self::Halt>
        ensures agrees { (w : Table) → agrees self.new w → agrees self.old w }
        ensures value { (w : Table) → agrees self.new w → IfOk result (λ value. value ≡ w.value name.now) }
        ensures cause { IfErr result (λ h. get_halts self.old self.new h) }
        ensures gets_later { (later : Self) (h : Self.Halt) → get_halts self.new later h → get_halts self.old later h }
        ensures unmade_later { (later : Self) (x : List ℕ) (v : ℤ) (h : Self.Halt) → unmade_halts self.new later x v h → unmade_halts self.old later x v h }
        ensures made_later { (later : Self) (x : List ℕ) (v : ℤ) (h : Self.Halt) → made_halts self.new later x v h → made_halts self.old later x v h };

    /// Gives a name a number, in decimal.
    fn set(&mut self, name: &[u8], value: i64) -> Result<Assigned, Self::Halt>
        ensures sets { (w : Table) → agrees self.new w → (before : Table) × agrees self.old before × Sets (unmade_halts self.old self.new name.now value) (made_halts self.old self.new name.now value) result name.now value before w }
        ensures cause { IfErr result (λ h. unmade_halts self.old self.new name.now value h ⊎ made_halts self.old self.new name.now value h) }
        ensures gets_later { (later : Self) (h : Self.Halt) → get_halts self.new later h → get_halts self.old later h }
        ensures unmade_later { (later : Self) (x : List ℕ) (v : ℤ) (h : Self.Halt) → unmade_halts self.new later x v h → unmade_halts self.old later x v h }
        ensures made_later { (later : Self) (x : List ℕ) (v : ℤ) (h : Self.Halt) → made_halts self.new later x v h → made_halts self.old later x v h };
}

/// Why an expression has no number.
#[derive(Clone, Copy, Debug, PartialEq, Eq)]
pub enum ArithErr<H> {
    /// The text is no expression: the place of the first byte of the first token that can't go on, or the length of a text
    /// that ends too early. Or the value of a name is no number, or a name that is assigned is read only: its place.
    Bad { place: usize },
    DivideByZero,
    /// A shift by a number outside of 0 to 63.
    BadShift,
    NoMemory,
    /// A call of the names gave no answer.
    Halt(H),
}
