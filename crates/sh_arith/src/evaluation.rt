//! The value of an expression.

ghost use Rattle.std.specs.Prelude.{◌≡◌, ◌<◌, ◌≤◌, ◌+◌, ◌-◌, ◌^◌, ◌⊎◌, ℕ, ℤ, List, [], Err, IfOk, IfSome};
ghost use Rattle.sh_arith.specs.Answers.{Answers, Caused, MayCome, Says, seen_by};
ghost use Rattle.sh_arith.specs.Does.{Tells};
ghost use Rattle.sh_arith.specs.Exec as spec;
ghost use Rattle.sh_arith.specs.Moves.{MoveSays, Passes, ReadSays, StoreSays};
ghost use Rattle.sh_arith.specs.Names.{Table};
ghost use Rattle.sh_arith.specs.Number as number;
ghost use Rattle.sh_arith.specs.Value as value;

use crate::calc::NoNumber;
use crate::exec::{NotDone, operand, plain, skip_one, take};
use crate::instr::Instr;
use crate::names::{ArithErr, Assigned, Names};
use crate::number::value_of;
use crate::reading::{ReadErr, read};
use crate::stack::Stack;
use crate::token::Math;
use hs_text::Text;
use std::alloc::Global;

/// The number of a name.
fn read_name<N: Names>(names: &mut N, place: usize, name: &Text) -> Result<i64, ArithErr<N::Halt>>
    ensures reads { (w : Table) → N.agrees names.new w → N.agrees names.old w × ReadSays (seen_by N.agrees N.get_halts N.unmade_halts N.made_halts) result (value.number_at place (number.value_of (w.value name.now)) w) names.old names.new w }
    ensures halts { (h : N.Halt) → result ≡ Err (ArithErr.Halt h) → N.get_halts names.old names.new h }
    ensures passes { Passes (seen_by N.agrees N.get_halts N.unmade_halts N.made_halts) names.old names.new }
{
    match names.get(name.as_slice()) {
        Ok(found) => match value_of(&found) {
            Some(number) => Ok(number),
            None => Err(ArithErr::Bad { place }),
        },
        Err(halt) => Err(ArithErr::Halt(halt)),
    }
}

/// Gives the name a number.
fn store_name<N: Names>(
    names: &mut N,
    place: usize,
    name: &Text,
    number: i64,
) -> Result<i64, ArithErr<N::Halt>>
    ensures stores { (w' : Table) → N.agrees names.new w' → (w : Table) × N.agrees names.old w × StoreSays (seen_by N.agrees N.get_halts N.unmade_halts N.made_halts) result name.now number (value.store place name.now number w) names.old names.new w w' }
    ensures number { IfOk result (λ r. r ≡ number) }
    ensures halts { (h : N.Halt) → result ≡ Err (ArithErr.Halt h) → N.unmade_halts names.old names.new name.now number h ⊎ N.made_halts names.old names.new name.now number h }
    ensures passes { Passes (seen_by N.agrees N.get_halts N.unmade_halts N.made_halts) names.old names.new }
{
    match names.set(name.as_slice(), number) {
        Ok(Assigned::Yes) => Ok(number),
        Ok(Assigned::ReadOnly) => Err(ArithErr::Bad { place }),
        Err(halt) => Err(ArithErr::Halt(halt)),
    }
}

fn do_read<N: Names>(
    names: &mut N,
    place: usize,
    name: &Text,
    values: &mut Stack<i64>,
) -> Result<Option<usize>, ArithErr<N::Halt>>
    ensures moves { (w : Table) → N.agrees names.new w → N.agrees names.old w × MoveSays (seen_by N.agrees N.get_halts N.unmade_halts N.made_halts) result values.new (spec.do_read place name.now values.old w) names.old names.new w w }
    ensures fresh { IfOk result (λ o. spec.depth_of o ≡ 0) }
    ensures halts { (h : N.Halt) → result ≡ Err (ArithErr.Halt h) → MayCome (seen_by N.agrees N.get_halts N.unmade_halts N.made_halts) names.old names.new h }
    ensures passes { Passes (seen_by N.agrees N.get_halts N.unmade_halts N.made_halts) names.old names.new }
{
    match read_name(names, place, name) {
        Ok(number) => match values.push(number) {
            Ok(()) => Ok(None),
            Err(_) => Err(ArithErr::NoMemory),
        },
        Err(why) => Err(why),
    }
}

fn do_store<N: Names>(
    names: &mut N,
    op: Option<Math>,
    place: usize,
    name: &Text,
    values: &mut Stack<i64>,
) -> Result<Option<usize>, ArithErr<N::Halt>>
    ensures moves { (w' : Table) → N.agrees names.new w' → (w : Table) × N.agrees names.old w × MoveSays (seen_by N.agrees N.get_halts N.unmade_halts N.made_halts) result values.new (spec.do_store op place name.now values.old w) names.old names.new w w' }
    ensures fresh { IfOk result (λ o. spec.depth_of o ≡ 0) }
    ensures halts { (h : N.Halt) → result ≡ Err (ArithErr.Halt h) → MayCome (seen_by N.agrees N.get_halts N.unmade_halts N.made_halts) names.old names.new h }
    ensures passes { Passes (seen_by N.agrees N.get_halts N.unmade_halts N.made_halts) names.old names.new }
{
    match operand(op, values) {
        Ok(number) => match store_name(names, place, name, number) {
            Ok(stored) => match values.push(stored) {
                Ok(()) => Ok(None),
                Err(_) => Err(ArithErr::NoMemory),
            },
            Err(why) => Err(why),
        },
        Err(NoNumber::ByZero) => Err(ArithErr::DivideByZero),
        Err(NoNumber::BadShift) => Err(ArithErr::BadShift),
    }
}

/// An instruction that meets no name.
fn without_names<H>(instr: &Instr, values: &mut Stack<i64>) -> Result<Option<usize>, ArithErr<H>>
    ensures tells { Tells result values.new (spec.plain instr.now values.old) }
    ensures fresh { IfOk result (λ o. spec.depth_of o ≡ 0) }
{
    match plain(instr, values) {
        Ok(skipped) => Ok(skipped),
        Err(NotDone::NoNumber(NoNumber::ByZero)) => Err(ArithErr::DivideByZero),
        Err(NotDone::NoNumber(NoNumber::BadShift)) => Err(ArithErr::BadShift),
        Err(NotDone::Memory) => Err(ArithErr::NoMemory),
    }
}

/// Does an instruction, and says how instructions are skipped after it.
fn one<N: Names>(
    instr: &Instr,
    values: &mut Stack<i64>,
    names: &mut N,
) -> Result<Option<usize>, ArithErr<N::Halt>>
    ensures moves { (w' : Table) → N.agrees names.new w' → (w : Table) × N.agrees names.old w × MoveSays (seen_by N.agrees N.get_halts N.unmade_halts N.made_halts) result values.new (spec.do_one instr.now values.old w) names.old names.new w w' }
    ensures fresh { IfOk result (λ o. spec.depth_of o ≡ 0) }
    ensures halts { (h : N.Halt) → result ≡ Err (ArithErr.Halt h) → MayCome (seen_by N.agrees N.get_halts N.unmade_halts N.made_halts) names.old names.new h }
    ensures passes { Passes (seen_by N.agrees N.get_halts N.unmade_halts N.made_halts) names.old names.new }
{
    match instr {
        Instr::Read(place, name) => do_read(names, *place, name, values),
        Instr::Store(op, place, name) => do_store(names, *op, *place, name, values),
        Instr::Number(_) => without_names(instr, values),
        Instr::Sign(_) => without_names(instr, values),
        Instr::Math(_) => without_names(instr, values),
        Instr::Begin(_) => without_names(instr, values),
        Instr::Otherwise => without_names(instr, values),
        Instr::End(_) => without_names(instr, values),
    }
}

/// Does an instruction or skips it, and says how instructions are skipped after it.
fn turn<N: Names>(
    instr: &Instr,
    skipped: Option<usize>,
    values: &mut Stack<i64>,
    names: &mut N,
) -> Result<Option<usize>, ArithErr<N::Halt>>
    requires { spec.depth_of skipped < 2 ^ 64 - 1 }
    ensures moves { (w' : Table) → N.agrees names.new w' → (w : Table) × N.agrees names.old w × MoveSays (seen_by N.agrees N.get_halts N.unmade_halts N.made_halts) result values.new (spec.move_in skipped instr.now values.old w) names.old names.new w w' }
    ensures depth { IfOk result (λ o. spec.depth_of o ≤ spec.depth_of skipped + 1) }
    ensures halts { (h : N.Halt) → result ≡ Err (ArithErr.Halt h) → MayCome (seen_by N.agrees N.get_halts N.unmade_halts N.made_halts) names.old names.new h }
    ensures passes { Passes (seen_by N.agrees N.get_halts N.unmade_halts N.made_halts) names.old names.new }
{
    match skipped {
        Some(depth) => Ok(skip_one(instr, depth)),
        None => one(instr, values, names),
    }
}

/// Does all instructions, each of which is met once.
fn run_all<N: Names>(alloc: Global, code: &[Instr], names: &mut N) -> Result<i64, ArithErr<N::Halt>>
    ensures says { (w' : Table) → N.agrees names.new w' → (w : Table) × N.agrees names.old w × Says (seen_by N.agrees N.get_halts N.unmade_halts N.made_halts) result (spec.exec code.now (spec.going []) w) names.old names.new w w' }
    ensures caused { Caused (seen_by N.agrees N.get_halts N.unmade_halts N.made_halts) result names.old names.new }
{
    let mut values = Stack::new(alloc);
    let mut skipped = None;
    'code: for instr in code {
        match turn(instr, skipped, &mut values, names) {
            Ok(then) => skipped = then,
            Err(why) => return Err(why),
        }
    }
    Ok(take(&mut values))
}

/// The value of an expression. The text is read as a whole first, in time linear in its bytes; then each instruction is met
/// once. What is assigned before an error stays assigned.
pub fn evaluate<N: Names>(
    alloc: Global,
    text: &[u8],
    names: &mut N,
) -> Result<i64, ArithErr<N::Halt>>
    ensures { Answers (seen_by N.agrees N.get_halts N.unmade_halts N.made_halts) text.now names.old names.new result }
{
    match read(alloc, text) {
        Ok(code) => run_all(alloc, code.as_slice(), names),
        Err(ReadErr::Bad(place)) => Err(ArithErr::Bad { place }),
        Err(ReadErr::Memory) => Err(ArithErr::NoMemory),
    }
}
