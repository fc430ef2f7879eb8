//! Subshell environments (POSIX.1-2017, XCU 2.12).

ghost use Rattle.std.specs.Prelude.{◌≡◌, ◌-◌, nat_eq, reverse, length, drop};
ghost use Rattle.hs_world.specs.Shells.{deep, held, lowered, noted};

use crate::opts::Opts;
use crate::path::PathName;
use crate::route::Routes;
use crate::table::{KeptTexts, Table};
use crate::var::Var;
use hs_text::{Text, TextList};
use std::alloc::AllocError;

/// What a subshell environment gives back when it ends.
#[derive(Drop)]
pub struct Shell {
    pub vars: Table<Var>,
    pub funcs: Table<u32>,
    pub params: TextList,
    pub cwd: PathName,
    pub opts: Opts,
    pub kept: KeptTexts,
    /// The innermost table of routes.
    pub routes: Routes,
    /// How many tables stood below it.
    pub tables: usize,
    /// Whether fewer have stood since.
    pub lower: bool,
    /// How many texts of standard input stood below the innermost one.
    pub inputs: usize,
    /// The text of standard input from before the first that was set to the end of the environment.
    pub input: Option<Text>,
}

/// How many subshell environments, texts of standard input and tables of routes stand.
#[derive(Clone, Copy, Debug, PartialEq, Eq)]
pub struct Depth {
    pub shells: u32,
    pub inputs: u32,
    pub routes: u32,
}

impl Shell {
    /// Holds a text of standard input that is replaced to the end of the environment, the first time at its depth.
    fn note(&mut self, inputs: usize, old: Text)
        ensures { self.new ≡ record self.old { input = held self.old.input (nat_eq self.old.inputs inputs) old } }
    {
        if self.input.is_none() && self.inputs == inputs {
            self.input = Some(old);
        }
    }
}

/// The innermost environment, the last one, holds a text that is replaced.
pub fn note(shells: &mut [Shell], inputs: usize, old: Text)
    ensures { reverse shells.new ≡ noted (reverse shells.old) inputs old }
{
    match shells.split_last_mut() {
        None => {}
        Some((shell, _below)) => shell.note(inputs, old),
    }
}

/// So many tables of routes stand now below the innermost one.
pub fn lower(shells: &mut [Shell], tables: usize)
    ensures { reverse shells.new ≡ lowered (reverse shells.old) tables }
{
    match shells.split_last_mut() {
        None => {}
        Some((shell, below)) => {
            shell.lower = shell.lower || tables < shell.tables;
            lower(below, tables);
        }
    }
}

/// Takes texts of standard input away until no more than so many stand below the innermost one.
pub fn drop_inputs(input: &mut Text, below: &mut Vec<Text>, inputs: usize)
    ensures input { input.new ≡ deep (length below.old.items - inputs) input.old (reverse below.old.items) }
    ensures below { reverse below.new.items ≡ drop (length below.old.items - inputs) (reverse below.old.items) }
{
    while below.len() > inputs {
        if let Some(text) = below.pop() {
            *input = text;
        }
    }
}

impl Clone for Shell {
    ghost is_clone = { λ x y. y ≡ x };

    fn clone(&self) -> Result<Shell, AllocError> {
        Ok(Shell {
            vars: self.vars.clone()?,
            funcs: self.funcs.clone()?,
            params: self.params.clone()?,
            cwd: self.cwd.clone()?,
            opts: self.opts,
            kept: self.kept.clone()?,
            routes: self.routes.clone()?,
            tables: self.tables,
            lower: self.lower,
            inputs: self.inputs,
            input: self.input.clone()?,
        })
    }
}
