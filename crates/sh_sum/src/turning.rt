//! Instructions of an expression, done one by one on a view.

ghost use Rattle.std.specs.Prelude.{◌≡◌, ◌<◌, ◌≤◌, ◌+◌, ◌-◌, ◌^◌, [], ◌∷◌, None, IfOk};
ghost use Rattle.hs_view.specs.Acts.{Acts, only};
ghost use Rattle.hs_view.specs.Steps.{nothing};
ghost use Rattle.sh_arith.specs.Exec as exec;
ghost use Rattle.sh_sum.specs.Sums.{assigned_var};
ghost use Rattle.sh_sum.specs.Turns as spec;

use crate::sum::Sum;
use crate::turn::Turn;
use crate::variable::{assigned, is_readonly, number_of};
use hs_text::Text;
use hs_view::{Base, Halt, View};
use hs_world::{Effect, Var};
use sh_arith::{Instr, Math, NoNumber, NotDone, Stack, operand, plain, skip_one};
use std::alloc::{AllocError, Global};

/// Puts a number on the others.
fn push(mut values: Stack<i64>, number: i64) -> Result<Turn, AllocError>
    ensures { IfOk result (λ turn. turn ≡ Turn.On None (number ∷ values)) }
{
    values.push(number)?;
    Ok(Turn::On(None, values))
}

/// Reads a variable.
fn do_read<B: Base>(name: &Text, values: Stack<i64>, view: &mut View<B>) -> Result<Turn, Halt>
    ensures acts { Acts B.seen (spec.read_done name.now values) view.old view.new result }
    ensures depth { IfOk result (λ turn. spec.turn_depth turn ≡ 0) }
{
    let var = view.var(name)?;
    match number_of(var) {
        Some(number) => {
            let turn = push(values, number)?;
            Ok(turn)
        }
        None => Ok(Turn::Ended(Sum::Bad)),
    }
}

/// What is set, and what comes of it.
fn prepare(
    alloc: Global,
    name: &Text,
    var: &Option<Var>,
    number: i64,
    values: Stack<i64>,
) -> Result<(Text, Var, Turn), AllocError>
    ensures name { IfOk result (λ set. set.0 ≡ name.now) }
    ensures var { IfOk result (λ set. set.1 ≡ assigned_var var.now number) }
    ensures turn { IfOk result (λ set. set.2 ≡ Turn.On None (number ∷ values)) }
{
    let name = name.clone()?;
    let var = assigned(alloc, var, number)?;
    let turn = push(values, number)?;
    Ok((name, var, turn))
}

fn set<B: Base>(name: Text, var: Var, turn: Turn, view: &mut View<B>) -> Result<Turn, Halt>
    ensures acts { Acts B.seen (only (Effect.SetVar name var) turn) view.old view.new result }
    ensures turn { IfOk result (λ same. same ≡ turn) }
{
    view.put(Effect::SetVar(name, var))?;
    Ok(turn)
}

/// Gives a variable a number. One that is read only stays, and ends the expression.
fn store<B: Base>(
    alloc: Global,
    name: &Text,
    number: i64,
    values: Stack<i64>,
    view: &mut View<B>,
) -> Result<Turn, Halt>
    ensures acts { Acts B.seen (spec.stored name.now number values) view.old view.new result }
    ensures depth { IfOk result (λ turn. spec.turn_depth turn ≡ 0) }
{
    let var = view.var(name)?;
    if is_readonly(&var) {
        return Ok(Turn::Ended(Sum::Bad));
    }
    let (name, var, turn) = prepare(alloc, name, &var, number, values)?;
    set(name, var, turn, view)
}

/// Why an operator gives no number.
fn fault(why: NoNumber) -> Sum
    ensures { result ≡ spec.fault_of why }
{
    match why {
        NoNumber::ByZero => Sum::DivisionByZero,
        NoNumber::BadShift => Sum::BadShift,
    }
}

fn do_store<B: Base>(
    alloc: Global,
    op: Option<Math>,
    name: &Text,
    mut values: Stack<i64>,
    view: &mut View<B>,
) -> Result<Turn, Halt>
    ensures acts { Acts B.seen (spec.store_done op name.now values) view.old view.new result }
    ensures depth { IfOk result (λ turn. spec.turn_depth turn ≡ 0) }
{
    match operand(op, &mut values) {
        Ok(number) => store(alloc, name, number, values, view),
        Err(why) => Ok(Turn::Ended(fault(why))),
    }
}

/// What an instruction that is not done comes to.
fn stop(why: NotDone) -> Result<Turn, Halt>
    ensures stops { result ≡ spec.stopped why }
    ensures depth { IfOk result (λ turn. spec.turn_depth turn ≡ 0) }
{
    match why {
        NotDone::NoNumber(why) => Ok(Turn::Ended(fault(why))),
        NotDone::Memory => Err(Halt::NoMemory),
    }
}

/// An instruction that meets no name, and so nothing of the view.
fn do_plain<B: Base>(
    instr: &Instr,
    mut values: Stack<i64>,
    view: &mut View<B>,
) -> Result<Turn, Halt>
    ensures acts { Acts B.seen (λ w. nothing (spec.did (exec.plain instr.now values)) w) view.old view.new result }
    ensures depth { IfOk result (λ turn. spec.turn_depth turn ≡ 0) }
{
    match plain(instr, &mut values) {
        Ok(skipped) => Ok(Turn::On(skipped, values)),
        Err(why) => stop(why),
    }
}

/// Does an instruction.
fn one<B: Base>(
    alloc: Global,
    instr: &Instr,
    values: Stack<i64>,
    view: &mut View<B>,
) -> Result<Turn, Halt>
    ensures acts { Acts B.seen (spec.one_done instr.now values) view.old view.new result }
    ensures depth { IfOk result (λ turn. spec.turn_depth turn ≡ 0) }
{
    match instr {
        Instr::Read(_, name) => do_read(name, values, view),
        Instr::Store(op, _, name) => do_store(alloc, *op, name, values, view),
        Instr::Number(_) => do_plain(instr, values, view),
        Instr::Sign(_) => do_plain(instr, values, view),
        Instr::Math(_) => do_plain(instr, values, view),
        Instr::Begin(_) => do_plain(instr, values, view),
        Instr::Otherwise => do_plain(instr, values, view),
        Instr::End(_) => do_plain(instr, values, view),
    }
}

/// Does an instruction or skips it.
pub fn turn<B: Base>(
    alloc: Global,
    instr: &Instr,
    skipped: Option<usize>,
    values: Stack<i64>,
    view: &mut View<B>,
) -> Result<Turn, Halt>
    requires { exec.depth_of skipped < 2 ^ 64 - 1 }
    ensures acts { Acts B.seen (spec.turn_done instr.now skipped values) view.old view.new result }
    ensures depth { IfOk result (λ turn. spec.turn_depth turn ≤ exec.depth_of skipped + 1) }
{
    match skipped {
        Some(depth) => Ok(Turn::On(skip_one(instr, depth), values)),
        None => one(alloc, instr, values, view),
    }
}
