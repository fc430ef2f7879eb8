//! The steps of pipelines and lists (POSIX.1-2017, XCU 2.9.2, 2.9.3).

ghost use Rattle.std.specs.Prelude.{◌≡◌, ◌++◌, OnOk};
ghost use Rattle.sh_grammar.specs.Grammar.{join_op};
ghost use Rattle.sh_spell.specs.Steps as spec;

use crate::commands::push_command;
use crate::step::Steps;
use sh_lexer::Op;
use sh_syntax::{AndOr, Command, Join, Pipeline, Script};
use std::alloc::AllocError;

fn push_piped<'a>(
    steps: &mut Steps<'a>,
    script: &'a Script,
    stages: &'a [Command],
) -> Result<(), AllocError>
    ensures { OnOk result (steps.new ≡ steps.old ++ spec.all_steps (spec.piped_steps script.now) stages.now) }
{
    for stage in stages {
        steps.push_op(Op::Pipe)?;
        push_command(steps, script, stage)?;
    }
    Ok(())
}

fn push_stages<'a>(
    steps: &mut Steps<'a>,
    script: &'a Script,
    stages: &'a [Command],
) -> Result<(), AllocError>
    ensures { OnOk result (steps.new ≡ steps.old ++ spec.stages_steps script.now stages.now) }
{
    match stages {
        [] => Ok(()),
        [first, rest @ ..] => {
            push_command(steps, script, first)?;
            push_piped(steps, script, rest)
        }
    }
}

fn push_bang(steps: &mut Steps, bang: bool) -> Result<(), AllocError>
    ensures { OnOk result (steps.new ≡ steps.old ++ spec.bang_steps bang) }
{
    if bang {
        steps.push_op(Op::Bang)
    } else {
        Ok(())
    }
}

fn push_pipeline<'a>(
    steps: &mut Steps<'a>,
    script: &'a Script,
    pipeline: &'a Pipeline,
) -> Result<(), AllocError>
    ensures { OnOk result (steps.new ≡ steps.old ++ spec.leaf_steps script.now pipeline.now) }
{
    push_bang(steps, pipeline.bang)?;
    push_stages(steps, script, pipeline.stages.as_slice())
}

/// The pipeline of a number.
fn push_leaf<'a>(steps: &mut Steps<'a>, script: &'a Script, number: u32) -> Result<(), AllocError>
    ensures { OnOk result (steps.new ≡ steps.old ++ spec.leaf_steps_of script.now number) }
{
    match script.leaves.get(number as usize) {
        None => Ok(()),
        Some(pipeline) => push_pipeline(steps, script, pipeline),
    }
}

fn join_op(join: Join) -> Op
    ensures { result ≡ join_op join }
{
    match join {
        Join::And => Op::AndIf,
        Join::Or => Op::OrIf,
    }
}

fn push_joined<'a>(
    steps: &mut Steps<'a>,
    script: &'a Script,
    rest: &'a [(Join, u32)],
) -> Result<(), AllocError>
    ensures { OnOk result (steps.new ≡ steps.old ++ spec.all_steps (spec.join_steps script.now) rest.now) }
{
    for (join, leaf) in rest {
        steps.push_op(join_op(*join))?;
        push_leaf(steps, script, *leaf)?;
    }
    Ok(())
}

fn push_and_or<'a>(
    steps: &mut Steps<'a>,
    script: &'a Script,
    and_or: &'a AndOr,
) -> Result<(), AllocError>
    ensures { OnOk result (steps.new ≡ steps.old ++ spec.and_or_steps script.now and_or.now) }
{
    push_leaf(steps, script, and_or.first)?;
    push_joined(steps, script, and_or.rest.as_slice())
}

fn push_more_items<'a>(
    steps: &mut Steps<'a>,
    script: &'a Script,
    items: &'a [AndOr],
) -> Result<(), AllocError>
    ensures { OnOk result (steps.new ≡ steps.old ++ spec.all_steps (spec.next_item_steps script.now) items.now) }
{
    for item in items {
        steps.push_op(Op::Semi)?;
        push_and_or(steps, script, item)?;
    }
    Ok(())
}

fn push_items<'a>(
    steps: &mut Steps<'a>,
    script: &'a Script,
    items: &'a [AndOr],
) -> Result<(), AllocError>
    ensures { OnOk result (steps.new ≡ steps.old ++ spec.items_steps script.now items.now) }
{
    match items {
        [] => Ok(()),
        [first, rest @ ..] => {
            push_and_or(steps, script, first)?;
            push_more_items(steps, script, rest)
        }
    }
}

/// The list of a number.
pub fn push_list<'a>(
    steps: &mut Steps<'a>,
    script: &'a Script,
    number: u32,
) -> Result<(), AllocError>
    ensures { OnOk result (steps.new ≡ steps.old ++ spec.list_steps script.now number) }
{
    match script.lists.get(number as usize) {
        None => Ok(()),
        Some(list) => push_items(steps, script, list.items.as_slice()),
    }
}
