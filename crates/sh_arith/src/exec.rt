//! Instructions, done one after another over a stack of numbers.

ghost use Rattle.std.specs.Prelude.{◌≡◌, ◌+◌, ◌-◌, ◌^◌, ◌<◌, ◌≤◌, ◌∷◌, [], Ok, Err, None, Some, true, false, if◌then◌else◌, OnOk, IfSome, IfOk};
ghost use Rattle.sh_arith.specs.Value as value;
ghost use Rattle.sh_arith.specs.Exec as spec;
ghost use Rattle.sh_arith.specs.Calc.{Gives};
ghost use Rattle.sh_arith.specs.Does.{Begins, Does};

use crate::calc::{NoNumber, calculate, is_zero, truth, with_sign};
use crate::instr::{Instr, Part};
use crate::stack::Stack;
use crate::token::{Logic, Math};
use std::alloc::AllocError;

/// Why an instruction that meets no name is not done.
#[derive(Clone, Copy, Debug, PartialEq, Eq)]
pub enum NotDone {
    NoNumber(NoNumber),
    Memory,
}

impl From<AllocError> for NotDone {
    ghost use Rattle.std.specs.Prelude.{◌≡◌};
    ghost use Rattle.sh_arith.specs.declared.exec.NotDone.TheVariants.{Memory};

    ghost from_gives = { λ _ e. e ≡ Memory };

    fn from(_: AllocError) -> NotDone {
        NotDone::Memory
    }
}

/// Takes the number on top. There is one wherever an expression's instructions ask for it.
pub fn take(values: &mut Stack<i64>) -> i64
    ensures top { result ≡ spec.first values.old }
    ensures others { values.new ≡ spec.below values.old }
{
    match values.pop() {
        Some(value) => value,
        None => 0,
    }
}

/// How instructions are skipped after this one, where `depth` more parts have begun. None: they are done again.
pub fn skip_one(instr: &Instr, depth: usize) -> Option<usize>
    requires { depth < 2 ^ 64 - 1 }
    ensures skips { result ≡ spec.skip_one instr.now depth }
    ensures depth { spec.depth_of result ≤ depth + 1 }
{
    match instr {
        Instr::Begin(_) => Some(depth + 1),
        Instr::Otherwise if depth == 0 => None,
        Instr::End(_) if depth == 0 => None,
        Instr::End(_) => Some(depth - 1),
        Instr::Otherwise => Some(depth),
        Instr::Number(_) => Some(depth),
        Instr::Read(..) => Some(depth),
        Instr::Sign(_) => Some(depth),
        Instr::Math(_) => Some(depth),
        Instr::Store(..) => Some(depth),
    }
}

/// Whether the left side of `&&` or `||` decides.
fn decides(logic: Logic, left: i64) -> bool
    ensures { result ≡ value.decides logic left true false }
{
    match logic {
        Logic::Both => is_zero(left),
        Logic::Either => !is_zero(left),
    }
}

fn decided(logic: Logic) -> i64
    ensures { result ≡ value.decided logic }
{
    match logic {
        Logic::Both => 0,
        Logic::Either => 1,
    }
}

#[tactic(auto, using(crate::proofs::Forks::decides_true, crate::proofs::Forks::decides_false))]
fn begin_logic(logic: Logic, values: &mut Stack<i64>) -> Result<Option<usize>, AllocError>
    ensures fresh { IfOk result (λ o. spec.depth_of o ≡ 0) }
    ensures begins { Begins result values.new (value.decides logic (spec.first values.old) (spec.skipping 0 (value.decided logic ∷ spec.below values.old)) (spec.going (spec.below values.old))) }
{
    let left = take(values);
    if !decides(logic, left) {
        return Ok(None);
    }
    values.push(decided(logic))?;
    Ok(Some(0))
}

fn begin_choice(values: &mut Stack<i64>) -> Option<usize>
    ensures fresh { spec.depth_of result ≡ 0 }
    ensures begins { Begins (Ok result) values.new (value.by_zero_or (spec.first values.old) (spec.skipping 0 (spec.below values.old)) (spec.going (spec.below values.old))) }
{
    let condition = take(values);
    if is_zero(condition) { Some(0) } else { None }
}

/// A part begins, or is skipped.
fn begin(part: Part, values: &mut Stack<i64>) -> Result<Option<usize>, AllocError>
    ensures begins { Begins result values.new (spec.begin part (spec.first values.old) (spec.below values.old)) }
    ensures fresh { IfOk result (λ o. spec.depth_of o ≡ 0) }
{
    match part {
        Part::Logic(logic) => begin_logic(logic, values),
        Part::Choice => Ok(begin_choice(values)),
    }
}

fn finish(part: Part, values: &mut Stack<i64>) -> Result<(), AllocError>
    ensures { OnOk result (values.new ≡ spec.finished part values.old) }
{
    match part {
        Part::Logic(_) => {
            let value = take(values);
            values.push(truth(!is_zero(value)))
        }
        Part::Choice => Ok(()),
    }
}

fn do_math(math: Math, values: &mut Stack<i64>) -> Result<Option<usize>, NotDone>
    ensures does { Does result values.new (spec.do_math math values.old) }
    ensures fresh { IfOk result (λ o. spec.depth_of o ≡ 0) }
{
    let right = take(values);
    let left = take(values);
    match calculate(math, left, right) {
        Ok(number) => {
            values.push(number)?;
            Ok(None)
        }
        Err(why) => Err(NotDone::NoNumber(why)),
    }
}

/// Does an instruction that meets no name, and says how instructions are skipped after it.
pub fn plain(instr: &Instr, values: &mut Stack<i64>) -> Result<Option<usize>, NotDone>
    ensures does { Does result values.new (spec.plain instr.now values.old) }
    ensures fresh { IfOk result (λ o. spec.depth_of o ≡ 0) }
{
    match instr {
        Instr::Number(number) => {
            values.push(*number)?;
            Ok(None)
        }
        Instr::Sign(sign) => {
            let number = take(values);
            values.push(with_sign(*sign, number))?;
            Ok(None)
        }
        Instr::Math(math) => do_math(*math, values),
        Instr::Begin(part) => match begin(*part, values) {
            Ok(skipped) => Ok(skipped),
            Err(_) => Err(NotDone::Memory),
        },
        Instr::Otherwise => Ok(Some(0)),
        Instr::End(part) => {
            finish(*part, values)?;
            Ok(None)
        }
        Instr::Read(..) => Ok(None),
        Instr::Store(..) => Ok(None),
    }
}

/// Takes the number that is stored.
pub fn operand(op: Option<Math>, values: &mut Stack<i64>) -> Result<i64, NoNumber>
    ensures number { Gives result (spec.operand op values.old) }
    ensures below { values.new ≡ spec.below_operand op values.old }
{
    match op {
        None => Ok(take(values)),
        Some(math) => {
            let right = take(values);
            let left = take(values);
            calculate(math, left, right)
        }
    }
}
