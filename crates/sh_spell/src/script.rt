//! Scripts as texts.

ghost use Rattle.std.specs.Prelude.{◌≡◌, ℕ, false, List, [], ◌∷◌, ◌++◌, IfOk, OnOk};
ghost use Rattle.sh_lexer.specs.declared.token.Token.{Token};
ghost use Rattle.sh_lexer.specs.declared.token.Mode.TheVariants as mode;
ghost use Rattle.sh_lexer.specs.Lexes.{Lexes, source};
ghost use Rattle.sh_grammar.specs.Grammar.{Parses};
ghost use Rattle.sh_grammar.specs.Spells.{Spells};
ghost use Rattle.sh_spell.specs.Plain.{ArePlain};
ghost use Rattle.sh_spell.specs.Scripts as spec;
ghost use Rattle.sh_spell.specs.Seen.{seen};
ghost use Rattle.sh_spell.specs.Steps.{step_text};

use crate::back::Back;
use crate::lists::push_list;
use crate::step::{Step, Steps};
use crate::tokens::write_token;
use crate::value::write_value;
use crate::words::push_part;
use hs_text::Text;
use sh_syntax::{Part, Script};
use std::alloc::{AllocError, Global};

/// How many levels parts and lists have in one another, where at most 100 things are open at once.
const DEEPEST: u32 = 303;

/// The script as a text. Where any text without here-documents and backquotes spells the script, this text spells it too. Its time
/// is linear in the text, and its calls are no more than 303 levels deep, but for the words in one another of a redirection whose
/// place is looked for. A list that several parts name, which no script that is read has, is written for each of them. The error
/// is want of memory.
pub fn spell(alloc: Global, script: &Script) -> Result<Text, AllocError>
    ensures written { IfOk result (λ text. text ≡ spec.script_text script.now) }
    ensures spells { IfOk result (λ text. (tokens : List Token) (other : List ℕ) → Lexes mode.Command (source other []) tokens → Parses script.now tokens → ArePlain tokens → Spells script.now text) }
{
    let mut out = Back::new(alloc);
    write_list(alloc, script, DEEPEST, 0, &mut out)?;
    out.into_text()
}

/// Writes a list, where so many levels may lie in it.
#[cycle(steps)]
fn write_list(
    alloc: Global,
    script: &Script,
    levels: u32,
    number: u32,
    out: &mut Back,
) -> Result<(), AllocError>
    ensures { OnOk result (out.new ≡ spec.list_text script.now levels number out.old) }
{
    if levels == 0 {
        return Ok(());
    }
    let mut steps = Steps::new(alloc);
    push_list(&mut steps, script, number)?;
    write_steps(alloc, script, levels - 1, steps, out)
}

#[cycle(steps)]
fn write_part(
    alloc: Global,
    script: &Script,
    levels: u32,
    part: &Part,
    out: &mut Back,
) -> Result<(), AllocError>
    ensures { OnOk result (out.new ≡ spec.part_text script.now levels part.now out.old) }
{
    if levels == 0 {
        return Ok(());
    }
    let mut steps = Steps::new(alloc);
    push_part(&mut steps, part)?;
    write_steps(alloc, script, levels - 1, steps, out)
}

#[cycle(steps)]
fn write_step(
    alloc: Global,
    script: &Script,
    levels: u32,
    step: Step,
    out: &mut Back,
) -> Result<(), AllocError>
    ensures { OnOk result (out.new ≡ step_text script.now levels (seen step.entry) out.old) }
{
    match step {
        Step::Token(token) => write_token(out, &token),
        Step::Value(name) => write_value(out, name),
        Step::Part(part) => write_part(alloc, script, levels, part, out),
        Step::List(number) => write_list(alloc, script, levels, number, out),
    }
}

/// Writes steps, the last one first.
#[cycle(steps)]
fn write_steps(
    alloc: Global,
    script: &Script,
    levels: u32,
    steps: Steps,
    out: &mut Back,
) -> Result<(), AllocError>
    ensures { OnOk result (out.new ≡ spec.each (step_text script.now levels) steps.entry out.old) }
{
    let mut left = steps;
    'steps: while let Some(step) = left.pop() {
        write_step(alloc, script, levels, step, out)?;
    }
    Ok(())
}
