//! A whole script, with the bodies of here-documents in their places (POSIX.1-2017, XCU 2.7.4). It takes time linear in the
//! script; a body is copied with its texts shared.

ghost use Rattle.std.specs.Prelude.{◌≡◌, List, IfOk, map, slice_get};
ghost use Rattle.sh_grammar.specs.Draft as spec;
ghost use Rattle.sh_syntax.specs.declared.tree.Word.{Word as WordTree};

use sh_grammar::{Draft, Stack};
use sh_syntax::{Command, Part, Pipeline, Redir, RedirOp, Script, Word};
use sqlite_items::Items;
use std::alloc::{AllocError, Global};

/// The number that stands in place of a body.
fn number_in(parts: &Items<Part>) -> u32
    ensures { result ≡ spec.number_in parts.now }
{
    match parts.as_slice() {
        [Part::Command(number), ..] => *number,
        _ => 0,
    }
}

/// The body of this number.
fn body(alloc: Global, bodies: &Items<Word>, number: u32) -> Result<Word, AllocError>
    ensures { IfOk result (λ word. word ≡ spec.or_empty (slice_get bodies.now number)) }
{
    match bodies.get(number as usize) {
        None => Ok(Word {
            parts: Items::new(alloc),
        }),
        Some(word) => word.copy(alloc),
    }
}

/// What bodies are put into.
trait Fill: Drop {
    ghost filled: { List WordTree → Self → Self };

    fn fill(self, alloc: Global, bodies: &Items<Word>) -> Result<Self, AllocError>
        ensures { IfOk result (λ done. done ≡ filled bodies.now self) };
}

fn fill_items<T: Fill>(
    alloc: Global,
    items: Items<T>,
    bodies: &Items<Word>,
) -> Result<Items<T>, AllocError>
    ensures { IfOk result (λ done. done ≡ map (T.filled bodies.now) items) }
{
    let mut left = Stack::from_items(alloc, items)?;
    let mut done = Items::new(alloc);
    while let Some(item) = left.pop() {
        done.push(item.fill(alloc, bodies)?)?;
    }
    Ok(done)
}

impl Fill for Redir {
    ghost filled = { λ bodies r. spec.with_body bodies r r.op };

    fn fill(self, alloc: Global, bodies: &Items<Word>) -> Result<Redir, AllocError> {
        match self.op {
            RedirOp::Here => Ok(Redir {
                fd: self.fd,
                op: RedirOp::Here,
                word: body(alloc, bodies, number_in(&self.word.parts))?,
            }),
            _ => Ok(self),
        }
    }
}

impl Fill for Command {
    ghost filled = { spec.filled_command };

    fn fill(self, alloc: Global, bodies: &Items<Word>) -> Result<Command, AllocError> {
        match self {
            Command::Simple {
                assigns,
                words,
                redirs,
            } => Ok(Command::Simple {
                assigns,
                words,
                redirs: fill_items(alloc, redirs, bodies)?,
            }),
            Command::Compound { body, redirs } => Ok(Command::Compound {
                body,
                redirs: fill_items(alloc, redirs, bodies)?,
            }),
            Command::Function { name, body } => Ok(Command::Function { name, body }),
        }
    }
}

impl Fill for Pipeline {
    ghost filled = { spec.filled_leaf };

    fn fill(self, alloc: Global, bodies: &Items<Word>) -> Result<Pipeline, AllocError> {
        Ok(Pipeline {
            bang: self.bang,
            stages: fill_items(alloc, self.stages, bodies)?,
        })
    }
}

/// The script of a draft. The error is want of memory.
pub fn filled(alloc: Global, draft: Draft) -> Result<Script, AllocError>
    ensures { IfOk result (λ script. script ≡ spec.filled draft) }
{
    let Draft {
        script,
        heres,
        due: _,
    } = draft;
    let Script {
        lists,
        bodies,
        leaves,
    } = script;
    Ok(Script {
        lists,
        bodies: fill_items(alloc, bodies, &heres)?,
        leaves: fill_items(alloc, leaves, &heres)?,
    })
}
