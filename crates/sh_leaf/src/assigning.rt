//! Assignments of a simple command (POSIX.1-2017, XCU 2.9.1).

ghost use Rattle.std.specs.Prelude.{◌≡◌, [], ◌∷◌, codes, IfOk, OnOk, Ok, Err};
ghost use Rattle.hs_view.specs.Acts.{Acts, only};
ghost use Rattle.hs_view.specs.Steps.{nothing};
ghost use Rattle.hs_world.specs.declared.effect.Effect.TheVariants.{SetVar};
ghost use Rattle.sh_param.specs.Assigns.{is_exported, is_readonly};
ghost use Rattle.sh_param.specs.Messages.{message};
ghost use Rattle.sh_leaf.specs.Assigning as spec;
ghost use Rattle.sh_leaf.specs.Command.{gives_back};

use crate::words::fields_of;
use hs_text::{Fields, Text};
use hs_view::{Base, Halt, View};
use hs_world::{Effect, Var};
use sh_arith::Stack;
use sh_param::{Context, message};
use sh_split::unquote;
use sh_syntax::Word;
use std::alloc::{AllocError, Global};
use std::slice;

/// Which variables were assigned, the last one on top, each with what it was before.
pub type Befores = Stack<(Text, Option<Var>)>;

// ---- one assignment

/// The bytes of the first field.
fn first_text(alloc: Global, fields: &Fields) -> Result<Text, AllocError>
    ensures { IfOk result (λ text. text ≡ spec.first_text fields.now) }
{
    let texts = unquote(alloc, fields)?;
    match texts.as_slice().first() {
        Some(text) => text.clone(),
        None => Ok(Text::new(alloc)),
    }
}

fn value_told<B: Base>(
    alloc: Global,
    fields: &Fields,
    view: &mut View<B>,
) -> Result<Result<Text, Text>, Halt>
    ensures { Acts B.seen (spec.value_told fields.now) view.old view.new result }
{
    let _ = &view;
    let text = first_text(alloc, fields)?;
    Ok(Ok(text))
}

/// The value of an assignment, or the message that says why there is none.
fn value_of<B: Base>(
    alloc: Global,
    status: u8,
    word: &Word,
    view: &mut View<B>,
) -> Result<Result<Text, Text>, Halt>
    ensures { Acts B.seen (spec.value_of status word.now) view.old view.new result }
{
    let came = fields_of(alloc, slice::from_ref(word), Context::Assign, status, view)?;
    match came {
        Ok(fields) => value_told(alloc, &fields, view),
        Err(why) => Ok(Err(why)),
    }
}

// ---- a variable

fn is_readonly(var: &Option<Var>) -> bool
    ensures { result ≡ is_readonly var.now }
{
    match var {
        Some(var) => var.readonly,
        None => false,
    }
}

fn is_exported(var: &Option<Var>) -> bool
    ensures { result ≡ is_exported var.now }
{
    match var {
        Some(var) => var.exported,
        None => false,
    }
}

/// The effect that gives a variable a text.
fn setting(
    exports: bool,
    name: &Text,
    before: &Option<Var>,
    text: Text,
) -> Result<Effect, AllocError>
    ensures { IfOk result (λ effect. effect ≡ SetVar name.now (spec.var_made exports before.now text)) }
{
    let name = name.clone()?;
    let var = Var {
        value: Some(text),
        exported: exports || is_exported(before),
        readonly: false,
    };
    Ok(Effect::SetVar(name, var))
}

fn set<B: Base>(
    exports: bool,
    name: &Text,
    before: Option<Var>,
    text: Text,
    view: &mut View<B>,
) -> Result<Result<Option<Var>, Text>, Halt>
    ensures { Acts B.seen (only (SetVar name.now (spec.var_made exports before text)) (Ok before)) view.old view.new result }
{
    let effect = setting(exports, name, &before, text)?;
    view.put(effect)?;
    Ok(Ok(before))
}

fn refuse<B: Base>(
    alloc: Global,
    name: &Text,
    view: &mut View<B>,
) -> Result<Result<Option<Var>, Text>, Halt>
    ensures { Acts B.seen (λ w. nothing (Err (message name.now (codes "is read only"))) w) view.old view.new result }
{
    let _ = &view;
    let why = message(alloc, name.as_slice(), b"is read only")?;
    Ok(Err(why))
}

fn set_over<B: Base>(
    alloc: Global,
    exports: bool,
    name: &Text,
    before: Option<Var>,
    text: Text,
    view: &mut View<B>,
) -> Result<Result<Option<Var>, Text>, Halt>
    ensures { Acts B.seen (spec.set_over exports before name.now text) view.old view.new result }
{
    if is_readonly(&before) {
        return refuse(alloc, name, view);
    }
    set(exports, name, before, text, view)
}

/// Gives a variable a text, unless it is read only, and answers what stood before.
fn set_var<B: Base>(
    alloc: Global,
    exports: bool,
    name: &Text,
    text: Text,
    view: &mut View<B>,
) -> Result<Result<Option<Var>, Text>, Halt>
    ensures { Acts B.seen (spec.set_var exports name.now text) view.old view.new result }
{
    let before = view.var(name)?;
    set_over(alloc, exports, name, before, text, view)
}

// ---- all of them

fn assign<B: Base>(
    alloc: Global,
    exports: bool,
    status: u8,
    assign: &(Text, Word),
    view: &mut View<B>,
) -> Result<Result<Option<Var>, Text>, Halt>
    ensures { Acts B.seen (spec.assigned exports status assign.now) view.old view.new result }
{
    let came = value_of(alloc, status, &assign.1, view)?;
    match came {
        Ok(text) => set_var(alloc, exports, &assign.0, text, view),
        Err(why) => Ok(Err(why)),
    }
}

fn push_before(befores: &mut Befores, name: &Text, before: Option<Var>) -> Result<(), AllocError>
    ensures { OnOk result (befores.new ≡ (name.now, before) ∷ befores.old) }
{
    befores.push((name.clone()?, before))
}

/// Makes assignments from left to right, up to one that has a message. `exports` is whether what is assigned is exported.
pub fn assign_all<B: Base>(
    alloc: Global,
    exports: bool,
    status: u8,
    assigns: &[(Text, Word)],
    view: &mut View<B>,
) -> Result<Result<Befores, Text>, Halt>
    ensures { Acts B.seen (spec.all_assigned exports status assigns.now []) view.old view.new result }
{
    let mut befores = Stack::new(alloc);
    for item in assigns {
        let came = assign(alloc, exports, status, item, view)?;
        match came {
            Ok(before) => push_before(&mut befores, &item.0, before)?,
            Err(why) => return Ok(Err(why)),
        }
    }
    Ok(Ok(befores))
}

// ---- and back

fn set_back(name: Text, before: Option<Var>) -> Effect
    ensures { result ≡ spec.set_back (name, before) }
{
    match before {
        Some(var) => Effect::SetVar(name, var),
        None => Effect::UnsetVar(name),
    }
}

/// Makes each variable what it was before, and answers the status.
pub fn give_back<B: Base>(status: u8, befores: Befores, view: &mut View<B>) -> Result<u8, Halt>
    ensures { Acts B.seen (gives_back befores status) view.old view.new result }
{
    let mut left = befores;
    'befores: while let Some((name, before)) = left.pop() {
        view.put(set_back(name, before))?;
    }
    Ok(status)
}
