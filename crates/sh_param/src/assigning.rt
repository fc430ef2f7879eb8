//! The assignment of `${x=w}` (POSIX.1-2017, XCU 2.6.2).

ghost use Rattle.std.specs.Prelude.{◌≡◌, true, IfOk};
ghost use Rattle.hs_view.specs.Acts.{Acts, only};
ghost use Rattle.hs_world.specs.declared.effect.Effect.TheVariants.{SetVar};
ghost use Rattle.sh_arith.specs.declared.names.Assigned.TheVariants.{Yes};
ghost use Rattle.sh_param.specs.Assigns as spec;

use hs_text::Text;
use hs_view::{Base, Halt, View};
use hs_world::{Effect, Var};
use sh_arith::Assigned;
use std::alloc::AllocError;

fn is_readonly(var: &Option<Var>) -> bool
    ensures { result ≡ spec.is_readonly var.now }
{
    match var {
        Some(var) => var.readonly,
        None => false,
    }
}

fn is_exported(var: &Option<Var>) -> bool
    ensures { result ≡ spec.is_exported var.now }
{
    match var {
        Some(var) => var.exported,
        None => false,
    }
}

/// The effect that gives a variable a value.
fn setting(name: &Text, text: &Text, before: &Option<Var>) -> Result<Effect, AllocError>
    ensures { IfOk result (λ effect. effect ≡ SetVar name.now (spec.var_with before.now text.now)) }
{
    let name = name.clone()?;
    let value = text.clone()?;
    let var = Var {
        value: Some(value),
        exported: is_exported(before),
        readonly: false,
    };
    Ok(Effect::SetVar(name, var))
}

fn set<B: Base>(
    name: &Text,
    text: &Text,
    before: &Option<Var>,
    view: &mut View<B>,
) -> Result<Assigned, Halt>
    ensures { Acts B.seen (only (SetVar name.now (spec.var_with before.now text.now)) Yes) view.old view.new result }
{
    let effect = setting(name, text, before)?;
    view.put(effect)?;
    Ok(Assigned::Yes)
}

fn set_over<B: Base>(
    name: &Text,
    text: &Text,
    before: &Option<Var>,
    view: &mut View<B>,
) -> Result<Assigned, Halt>
    ensures { Acts B.seen (spec.assigned_over before.now name.now text.now) view.old view.new result }
{
    if is_readonly(before) {
        return Ok(Assigned::ReadOnly);
    }
    set(name, text, before, view)
}

/// Gives a variable a value. It stays exported where it is; one that is read only keeps its value.
pub fn assign<B: Base>(name: &Text, text: &Text, view: &mut View<B>) -> Result<Assigned, Halt>
    ensures { Acts B.seen (spec.assigned name.now text.now) view.old view.new result }
{
    let before = view.var(name)?;
    set_over(name, text, &before, view)
}
