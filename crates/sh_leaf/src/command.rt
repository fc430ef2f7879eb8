//! A simple command over a view (POSIX.1-2017, XCU 2.9.1).

ghost use Rattle.std.specs.Prelude.{◌≡◌, true, false, [], slice_get, Err, IfOk};
ghost use Rattle.hs_view.specs.Acts.{Acts, then_by};
ghost use Rattle.sh_leaf.specs.Assigning.{all_assigned};
ghost use Rattle.sh_leaf.specs.Command as spec;
ghost use Rattle.sh_leaf.specs.Expanding.{came_then};

use crate::assigning::{Befores, assign_all, give_back};
use crate::measuring::measure;
use crate::outcome::Outcome;
use crate::utility::named;
use crate::words::texts_of;
use hs_text::{Text, TextList};
use hs_view::{Base, Halt, View};
use hs_world::{Effect, Fd};
use sh_syntax::{Command, Script, Word};
use std::alloc::{AllocError, Global};

// ---- with a name

/// Runs the utility of this name.
fn run_utility<B: Base>(
    alloc: Global,
    name: &Text,
    args: &TextList,
    view: &mut View<B>,
) -> Result<u8, Halt>
    ensures { Acts B.seen (spec.utility name.now args.now) view.old view.new result }
{
    match named(name.as_slice()) {
        Some(utility) => utility.run(alloc, args, view),
        None => Ok(127),
    }
}

/// Sets the status, which is what the command comes to.
fn set_status<B: Base>(status: u8, view: &mut View<B>) -> Result<Outcome, Halt>
    ensures { Acts B.seen (spec.set_status status) view.old view.new result }
{
    view.put(Effect::SetStatus(status))?;
    Ok(Outcome::Status(status))
}

/// Runs the utility of this name, behind assignments that last for it alone.
fn lend<B: Base>(
    alloc: Global,
    name: &Text,
    args: &TextList,
    befores: Befores,
    view: &mut View<B>,
) -> Result<u8, Halt>
    ensures { Acts B.seen (spec.lent name.now args.now befores) view.old view.new result }
{
    let status = run_utility(alloc, name, args, view)?;
    give_back(status, befores, view)
}

fn call<B: Base>(
    alloc: Global,
    name: &Text,
    args: &TextList,
    befores: Befores,
    view: &mut View<B>,
) -> Result<Result<Outcome, Text>, Halt>
    ensures { Acts B.seen (spec.call name.now args.now befores) view.old view.new result }
{
    let status = lend(alloc, name, args, befores, view)?;
    let outcome = set_status(status, view)?;
    Ok(Ok(outcome))
}

fn run_named<B: Base>(
    alloc: Global,
    assigns: &[(Text, Word)],
    status: u8,
    name: &Text,
    args: &TextList,
    view: &mut View<B>,
) -> Result<Result<Outcome, Text>, Halt>
    ensures { Acts B.seen (λ w. came_then (all_assigned true status assigns.now [] w) (spec.call name.now args.now) w) view.old view.new result }
{
    let came = assign_all(alloc, true, status, assigns, view)?;
    match came {
        Ok(befores) => call(alloc, name, args, befores, view),
        Err(why) => Ok(Err(why)),
    }
}

/// The texts as a list of its own. Each of them shares its bytes.
fn listed(alloc: Global, texts: &[Text]) -> Result<TextList, AllocError>
    ensures { IfOk result (λ list. list ≡ texts.now) }
{
    let mut list = TextList::new(alloc);
    for text in texts {
        list.push(text.clone()?)?;
    }
    Ok(list)
}

fn run_with_args<B: Base>(
    alloc: Global,
    assigns: &[(Text, Word)],
    status: u8,
    name: &Text,
    args: &[Text],
    view: &mut View<B>,
) -> Result<Result<Outcome, Text>, Halt>
    ensures { Acts B.seen (λ w. came_then (all_assigned true status assigns.now [] w) (spec.call name.now args.now) w) view.old view.new result }
{
    let args = listed(alloc, args)?;
    run_named(alloc, assigns, status, name, &args, view)
}

// ---- without one

fn keep<B: Base>(befores: Befores, view: &mut View<B>) -> Result<Result<Outcome, Text>, Halt>
    ensures { Acts B.seen (spec.kept befores) view.old view.new result }
{
    drop(befores);
    let outcome = set_status(0, view)?;
    Ok(Ok(outcome))
}

/// Makes assignments that stay.
fn keep_all<B: Base>(
    alloc: Global,
    assigns: &[(Text, Word)],
    status: u8,
    view: &mut View<B>,
) -> Result<Result<Outcome, Text>, Halt>
    ensures { Acts B.seen (λ w. came_then (all_assigned false status assigns.now [] w) spec.kept w) view.old view.new result }
{
    let came = assign_all(alloc, false, status, assigns, view)?;
    match came {
        Ok(befores) => keep(befores, view),
        Err(why) => Ok(Err(why)),
    }
}

// ---- the whole

fn run_texts<B: Base>(
    alloc: Global,
    assigns: &[(Text, Word)],
    status: u8,
    texts: &[Text],
    view: &mut View<B>,
) -> Result<Result<Outcome, Text>, Halt>
    ensures { Acts B.seen (spec.texts_run assigns.now status texts.now) view.old view.new result }
{
    match texts.split_first() {
        Some((name, args)) => run_with_args(alloc, assigns, status, name, args, view),
        None => keep_all(alloc, assigns, status, view),
    }
}

fn run_measured<B: Base>(
    alloc: Global,
    assigns: &[(Text, Word)],
    status: u8,
    texts: &TextList,
    view: &mut View<B>,
) -> Result<Result<Outcome, Text>, Halt>
    ensures { Acts B.seen (spec.measured_run assigns.now status texts.now) view.old view.new result }
{
    measure(alloc, texts, view)?;
    run_texts(alloc, assigns, status, texts.as_slice(), view)
}

/// Runs a command, or answers the message of an expansion or an assignment.
fn run_words<B: Base>(
    alloc: Global,
    assigns: &[(Text, Word)],
    words: &[Word],
    status: u8,
    view: &mut View<B>,
) -> Result<Result<Outcome, Text>, Halt>
    ensures { Acts B.seen (spec.command_came assigns.now words.now status) view.old view.new result }
{
    let came = texts_of(alloc, words, status, view)?;
    match came {
        Ok(texts) => run_measured(alloc, assigns, status, &texts, view),
        Err(why) => Ok(Err(why)),
    }
}

/// Ends the shell with a message.
fn fail<B: Base>(why: Text, view: &mut View<B>) -> Result<Outcome, Halt>
    ensures { Acts B.seen (spec.told (Err why)) view.old view.new result }
{
    view.put(Effect::Emit(Fd::Two, why))?;
    view.put(Effect::SetStatus(2))?;
    Ok(Outcome::Exit(2))
}

fn tell<B: Base>(came: Result<Outcome, Text>, view: &mut View<B>) -> Result<Outcome, Halt>
    ensures { Acts B.seen (spec.told came) view.old view.new result }
{
    match came {
        Ok(outcome) => Ok(outcome),
        Err(why) => fail(why, view),
    }
}

fn run_with_status<B: Base>(
    alloc: Global,
    assigns: &[(Text, Word)],
    words: &[Word],
    status: u8,
    view: &mut View<B>,
) -> Result<Outcome, Halt>
    ensures { Acts B.seen (λ w. then_by (spec.command_came assigns.now words.now status w) spec.told w) view.old view.new result }
{
    let came = run_words(alloc, assigns, words, status, view)?;
    tell(came, view)
}

/// Runs the command of these assignments and words.
fn run_simple<B: Base>(
    alloc: Global,
    assigns: &[(Text, Word)],
    words: &[Word],
    view: &mut View<B>,
) -> Result<Outcome, Halt>
    ensures { Acts B.seen (spec.command assigns.now words.now) view.old view.new result }
{
    let status = view.status()?;
    run_with_status(alloc, assigns, words, status, view)
}

// ---- leaves

fn stage_assigns(stages: &[Command]) -> &[(Text, Word)]
    ensures { result.now ≡ spec.stage_assigns stages.now }
{
    match stages {
        [Command::Simple { assigns, .. }, ..] => assigns.as_slice(),
        _ => &[],
    }
}

fn stage_words(stages: &[Command]) -> &[Word]
    ensures { result.now ≡ spec.stage_words stages.now }
{
    match stages {
        [Command::Simple { words, .. }, ..] => words.as_slice(),
        _ => &[],
    }
}

/// The commands of a leaf; none where the script does not have it.
fn leaf_stages(script: &Script, number: u32) -> &[Command]
    ensures { result.now ≡ spec.leaf_stages (slice_get script.now.leaves number) }
{
    match script.leaves.get(number as usize) {
        Some(pipeline) => pipeline.stages.as_slice(),
        None => &[],
    }
}

/// Runs a leaf of a script; one that the script does not have sets status 0 alone.
pub fn run_command<B: Base>(
    alloc: Global,
    script: &Script,
    number: u32,
    view: &mut View<B>,
) -> Result<Outcome, Halt>
    ensures { Acts B.seen (spec.leaf_done (slice_get script.now.leaves number)) view.old view.new result }
{
    let stages = leaf_stages(script, number);
    run_simple(alloc, stage_assigns(stages), stage_words(stages), view)
}
