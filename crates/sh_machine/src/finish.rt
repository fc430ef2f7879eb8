//! The script, where the tokens end.

ghost use Rattle.std.specs.Prelude.{◌≡◌, ◌<◌, [], ◌∷◌, ◌++◌, IfOk, length};
ghost use Rattle.sh_grammar.specs.Draft as spec;
ghost use Rattle.sh_grammar.specs.Machine as machine;
ghost use Rattle.sh_machine.specs.Numbers.{AllBegun};

use crate::command::{simple, this_and_or, with_item, with_stage};
use crate::draft::{end_body, end_leaf, end_list};
use crate::fill::filled;
use crate::rest::Rest;
use sh_grammar::{Below, Draft, Gap, Now, Pipe, Stack};
use sh_syntax::{AndOr, Command, Script};
use sqlite_items::Items;
use std::alloc::{AllocError, Global};

/// The whole script's list has these items, if nothing else is open.
fn end_with(
    alloc: Global,
    items: Items<AndOr>,
    below: &Stack<Below>,
    draft: Draft,
) -> Result<Option<Script>, AllocError>
    requires { 0 < length draft.script.lists }
    ensures { IfOk result (λ s. s ≡ machine.end_with items below.now draft) }
{
    let mut draft = draft;
    if below.get(0).is_some() || !draft.due.is_empty() {
        return Ok(None);
    }
    end_list(0, items, &mut draft);
    Ok(Some(filled(alloc, draft)?))
}

/// The last pipeline is complete.
fn end_last(alloc: Global, pipe: Pipe, rest: Rest) -> Result<Option<Script>, AllocError>
    requires leaf { pipe.leaf < length rest.script.script.leaves }
    requires whole { 0 < length rest.script.script.lists }
    ensures { IfOk result (λ s. s ≡ machine.end_with (pipe.items ++ machine.this_and_or pipe.before pipe.leaf ∷ []) rest.below
        (spec.end_leaf pipe.leaf pipe.bang pipe.stages rest.script)) }
{
    let Pipe {
        items,
        before,
        leaf,
        bang,
        stages,
    } = pipe;
    let Rest {
        below,
        room: _,
        mut script,
    } = rest;
    let items = with_item(items, this_and_or(alloc, before, leaf)?)?;
    end_leaf(leaf, bang, stages, &mut script);
    end_with(alloc, items, &below, script)
}

/// The last command is complete.
fn end_command(alloc: Global, command: Command, rest: Rest) -> Result<Option<Script>, AllocError>
    requires whole { 0 < length rest.script.script.lists }
    requires begun { AllBegun rest.below rest.script }
    ensures { IfOk result (λ s. s ≡ machine.end_command command rest.below rest.script) }
{
    let mut command = command;
    let mut rest = rest;
    'owners: while let Some(owner) = rest.below.pop() {
        match owner {
            Below::Function(name, body) => {
                end_body(body, command, &mut rest.script);
                command = Command::Function { name, body };
            }
            Below::Pipe(pipe) => return end_last(alloc, with_stage(command, pipe)?, rest),
            _ => return Ok(None),
        }
    }
    Ok(None)
}

/// The list may end here.
fn end_gap(alloc: Global, gap: Gap, rest: Rest) -> Result<Option<Script>, AllocError>
    requires { 0 < length rest.script.script.lists }
    ensures { IfOk result (λ s. s ≡ machine.end_gap gap rest.below rest.script) }
{
    let Rest {
        below,
        room: _,
        script,
    } = rest;
    match gap {
        Gap::Begin(items) => end_with(alloc, items, &below, script),
        _ => Ok(None),
    }
}

/// The script, if the tokens may end here.
pub fn finish(alloc: Global, now: Now, rest: Rest) -> Result<Option<Script>, AllocError>
    requires whole { 0 < length rest.script.script.lists }
    requires begun { AllBegun rest.below rest.script }
    ensures { IfOk result (λ s. s ≡ machine.accept_now now rest.below rest.script) }
{
    match now {
        Now::Gap(gap) => end_gap(alloc, gap, rest),
        Now::Elements(command) => end_command(alloc, simple(command), rest),
        Now::Redirs(body, redirs) => end_command(alloc, Command::Compound { body, redirs }, rest),
        _ => Ok(None),
    }
}
