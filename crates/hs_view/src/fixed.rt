//! A base over one state.

ghost use Rattle.std.specs.Prelude.{◌≡◌};
ghost use Rattle.hs_view.specs.Fixed.{seen_fixed, world_of};

use crate::base::Base;
use crate::halt::Halt;
use hs_text::TextList;
use hs_world::{Effect, Loc, Reply, Value, World};

/// One state, told, that does not change. It neither writes nor runs programs.
#[derive(Drop)]
pub struct Fixed {
    world: World,
}

impl Fixed {
    pub fn new(world: World) -> Fixed
        ensures { world_of result ≡ world }
    {
        Fixed { world }
    }

    pub fn into_world(self) -> World
        ensures { result ≡ world_of self }
    {
        self.world
    }
}

impl Base for Fixed {
    ghost seen = { seen_fixed };

    fn writes(&self) -> bool {
        false
    }

    fn get(&mut self, loc: &Loc) -> Result<Value, Halt> {
        Ok(self.world.at(loc)?)
    }

    fn push(&mut self, _effect: &Effect) -> Result<(), Halt> {
        Ok(())
    }

    fn ask(&mut self, _argv: &TextList) -> Result<Reply, Halt> {
        Err(Halt::Outside)
    }
}
