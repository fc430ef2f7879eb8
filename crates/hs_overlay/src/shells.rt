//! Subshell environments that effects began.

ghost use Rattle.std.specs.Prelude.{◌≡◌, nat_eq, reverse, length};
ghost use Rattle.hs_overlay.specs.Shells.{goes_back, held_over, lowered_over, noted_over};

use crate::scope::Scope;
use hs_text::Text;
use hs_world::Routes;

/// What a subshell environment gives back when it ends.
#[derive(Drop)]
pub struct Saved {
    pub scope: Scope,
    /// The routes of the innermost table. None is the base's own.
    pub routes: Option<Routes>,
    /// How many tables the effects had pushed.
    pub tables: usize,
    /// Whether fewer have stood since.
    pub lower: bool,
    /// How many texts of standard input the effects had pushed.
    pub inputs: usize,
    /// The text of standard input from before the first that was set to the end of the environment. Some None is the
    /// base's own.
    pub input: Option<Option<Text>>,
}

impl Saved {
    /// Whether the routes of the innermost table go back, where the effects have pushed so many.
    pub fn goes_back(&self, tables: usize) -> bool
        ensures { result ≡ goes_back self.now tables }
    {
        self.tables == tables && !self.lower
    }

    /// Holds a text of standard input that is replaced to the end of the environment, the first time at its depth.
    fn note(&mut self, inputs: usize, old: Option<Text>)
        ensures { self.new ≡ record self.old { input = held_over self.old.input (nat_eq self.old.inputs inputs) old } }
    {
        if self.input.is_none() && self.inputs == inputs {
            self.input = Some(old);
        }
    }
}

/// The innermost environment, the last one, holds a text that is replaced.
pub fn note(shells: &mut [Saved], inputs: usize, old: Option<Text>)
    ensures { reverse shells.new ≡ noted_over (reverse shells.old) inputs old }
{
    match shells.split_last_mut() {
        None => {}
        Some((shell, _below)) => shell.note(inputs, old),
    }
}

/// So many tables of routes are pushed now.
pub fn lower(shells: &mut [Saved], tables: usize)
    ensures { reverse shells.new ≡ lowered_over (reverse shells.old) tables }
{
    match shells.split_last_mut() {
        None => {}
        Some((shell, below)) => {
            shell.lower = shell.lower || tables < shell.tables;
            lower(below, tables);
        }
    }
}
