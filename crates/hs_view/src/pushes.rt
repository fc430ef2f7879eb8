//! Counts of pushes that stand. Each effect costs a constant.

ghost use Rattle.std.specs.Prelude.{◌≡◌, ◌<◌, ◌-◌, ◌^◌, length, min, vec_len, vec_capacity, OnOk};
ghost use Rattle.hs_view.specs.Pushes.{counted, is_standing, mark_of, marked_step, none_standing};

use hs_world::{Depth, Effect};
use std::alloc::{AllocError, Global};

/// What an effect does to the pushes that stand.
#[derive(Clone, Copy)]
pub enum Mark {
    PushShell,
    PopShell,
    PushInput,
    PopInput,
    PushRoutes,
    PopRoutes,
    Other,
}

impl Mark {
    pub fn of(effect: &Effect) -> Mark
        ensures { result ≡ mark_of effect.now }
    {
        match effect {
            Effect::PushShell => Mark::PushShell,
            Effect::PopShell => Mark::PopShell,
            Effect::PushInput(_) => Mark::PushInput,
            Effect::PopInput => Mark::PopInput,
            Effect::PushRoutes(_) => Mark::PushRoutes,
            Effect::PopRoutes => Mark::PopRoutes,
            _ => Mark::Other,
        }
    }
}

/// The pushes that stand.
#[derive(Drop)]
pub struct Pushes {
    /// How many texts of standard input stood where each subshell environment began, the innermost last.
    shells: Vec<usize>,
    inputs: usize,
    routes: usize,
}

impl Pushes {
    pub fn new(alloc: Global) -> Pushes
        ensures { counted result ≡ none_standing }
    {
        Pushes {
            shells: Vec::new(alloc),
            inputs: 0,
            routes: 0,
        }
    }

    pub fn depth(&self) -> Depth
        ensures shells { result.shells ≡ min (length (counted self.now).shells) (2 ^ 32 - 1) }
        ensures inputs { result.inputs ≡ min (counted self.now).inputs (2 ^ 32 - 1) }
        ensures routes { result.routes ≡ min (counted self.now).routes (2 ^ 32 - 1) }
    {
        Depth {
            shells: capped(self.shells.len()),
            inputs: capped(self.inputs),
            routes: capped(self.routes),
        }
    }

    /// Whether a pop undoes one of these.
    pub fn has(&self, effect: &Effect) -> bool
        ensures { result ≡ is_standing effect.now (counted self.now) }
    {
        match effect {
            Effect::PopShell => !self.shells.is_empty(),
            Effect::PopInput => self.inputs > 0,
            Effect::PopRoutes => self.routes > 0,
            _ => true,
        }
    }

    /// Makes room for one more environment, where one begins.
    pub fn make_room(&mut self, mark: Mark) -> Result<(), AllocError>
        ensures same { counted self.new ≡ counted self.old }
        ensures room { OnOk result (mark ≡ Mark.PushShell → vec_len self.new.shells < vec_capacity self.new.shells) }
    {
        match mark {
            Mark::PushShell => self.shells.reserve(1),
            _ => Ok(()),
        }
    }

    /// Counts an effect, for which there is room.
    pub fn step(&mut self, mark: Mark)
        requires room { mark ≡ Mark.PushShell → vec_len self.old.shells < vec_capacity self.old.shells }
        requires inputs { (counted self.old).inputs < 2 ^ 64 - 1 }
        requires routes { (counted self.old).routes < 2 ^ 64 - 1 }
        ensures { counted self.new ≡ marked_step mark (counted self.old) }
    {
        match mark {
            Mark::PushShell => self.shells.push_reserved(self.inputs),
            Mark::PopShell => self.pop_shell(),
            Mark::PushInput => self.inputs += 1,
            Mark::PopInput => self.inputs = self.inputs.saturating_sub(1),
            Mark::PushRoutes => self.routes += 1,
            Mark::PopRoutes => self.routes = self.routes.saturating_sub(1),
            Mark::Other => {}
        }
    }

    fn pop_shell(&mut self)
        ensures { counted self.new ≡ marked_step Mark.PopShell (counted self.old) }
    {
        if let Some(inputs) = self.shells.pop() {
            self.inputs = self.inputs.min(inputs);
        }
    }
}

fn capped(count: usize) -> u32
    ensures { result ≡ min count (2 ^ 32 - 1) }
{
    if count > u32::MAX as usize {
        return u32::MAX;
    }
    count as u32
}
