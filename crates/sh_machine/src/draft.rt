//! The script so far, changed in place. Each call is amortised O(1).

ghost use Rattle.std.specs.Prelude.{◌≡◌, ◌<◌, ◌^◌, OnOk, length};
ghost use Rattle.sh_grammar.specs.Draft as spec;
ghost use Rattle.sh_machine.specs.Numbered.{KeepsBegun};

use hs_text::Text;
use sh_grammar::{Draft, Due};
use sh_lexer::Here;
use sh_syntax::{AndOr, Command, List, Part, Pipeline, Word};
use sqlite_items::Items;
use std::alloc::{AllocError, Global};

/// The number of the next list.
pub fn next_list(draft: &Draft) -> u32
    requires { length draft.now.script.lists < 2 ^ 32 }
    ensures { result ≡ spec.next_list draft.now }
{
    draft.script.lists.len() as u32
}

pub fn begin_list(alloc: Global, draft: &mut Draft) -> Result<(), AllocError>
    ensures { OnOk result (draft.new ≡ spec.begin_list draft.old) }
{
    draft.script.lists.push(List {
        items: Items::new(alloc),
    })
}

pub fn end_list(number: u32, items: Items<AndOr>, draft: &mut Draft)
    requires { number < length draft.old.script.lists }
    ensures { draft.new ≡ spec.end_list number items draft.old }
{
    draft.script.lists.set(number as usize, List { items });
}

/// The number of the next pipeline.
pub fn next_leaf(draft: &Draft) -> u32
    requires { length draft.now.script.leaves < 2 ^ 32 }
    ensures { result ≡ spec.next_leaf draft.now }
{
    draft.script.leaves.len() as u32
}

pub fn begin_leaf(alloc: Global, bang: bool, draft: &mut Draft) -> Result<(), AllocError>
    ensures script { OnOk result (draft.new ≡ spec.begin_leaf bang draft.old) }
    ensures keeps { OnOk result (KeepsBegun draft.old draft.new) }
{
    draft.script.leaves.push(Pipeline {
        bang,
        stages: Items::new(alloc),
    })?;
    Ok(())
}

pub fn end_leaf(number: u32, bang: bool, stages: Items<Command>, draft: &mut Draft)
    requires { number < length draft.old.script.leaves }
    ensures script { draft.new ≡ spec.end_leaf number bang stages draft.old }
    ensures keeps { KeepsBegun draft.old draft.new }
{
    draft
        .script
        .leaves
        .set(number as usize, Pipeline { bang, stages });
}

/// The number of the next function's body.
pub fn next_body(draft: &Draft) -> u32
    requires { length draft.now.script.bodies < 2 ^ 32 }
    ensures { result ≡ spec.next_body draft.now }
{
    draft.script.bodies.len() as u32
}

pub fn begin_body(alloc: Global, draft: &mut Draft) -> Result<(), AllocError>
    ensures { OnOk result (draft.new ≡ spec.begin_body draft.old) }
{
    draft.script.bodies.push(Command::Simple {
        assigns: Items::new(alloc),
        words: Items::new(alloc),
        redirs: Items::new(alloc),
    })
}

pub fn end_body(number: u32, command: Command, draft: &mut Draft)
    requires { number < length draft.old.script.bodies }
    ensures script { draft.new ≡ spec.end_body number command draft.old }
    ensures keeps { KeepsBegun draft.old draft.new }
{
    draft.script.bodies.set(number as usize, command);
}

/// The number of the next here-document.
pub fn next_here(draft: &Draft) -> u32
    requires { length draft.now.heres < 2 ^ 32 }
    ensures { result ≡ spec.next_here draft.now }
{
    draft.heres.len() as u32
}

/// A here-document begins whose body comes after the next newline.
pub fn begin_here(
    alloc: Global,
    delimiter: Text,
    strip: bool,
    quoted: bool,
    draft: &mut Draft,
) -> Result<(), AllocError>
    requires { length draft.old.heres < 2 ^ 32 }
    ensures { OnOk result (draft.new ≡ spec.begin_here delimiter strip quoted draft.old) }
{
    let number = next_here(draft);
    draft.heres.push(Word {
        parts: Items::new(alloc),
    })?;
    draft.due.push(Due {
        number,
        here: Here {
            delimiter,
            strip,
            quoted,
        },
    })
}

pub fn end_here(alloc: Global, number: u32, body: Part, draft: &mut Draft) -> Result<(), AllocError>
    requires { number < length draft.old.heres }
    ensures { OnOk result (draft.new ≡ spec.end_here number body draft.old) }
{
    let mut parts = Items::new(alloc);
    parts.push(body)?;
    draft.heres.set(number as usize, Word { parts });
    Ok(())
}
