//! What effects make of the parts of a state that a subshell environment gives back (POSIX.1-2017, XCU 2.12).

ghost use Rattle.std.specs.Prelude.{◌≡◌};
ghost use Rattle.hs_overlay.specs.Scope.{no_scope};

use crate::marks::{KeptMarks, Marks};
use hs_text::TextList;
use hs_world::{Opts, PathName, Var};
use std::alloc::{AllocError, Global};

/// What the effects have set. None stands for what they left; in a table, None stands for what they unset.
#[derive(Drop)]
pub struct Scope {
    pub vars: Marks<Option<Var>>,
    pub funcs: Marks<Option<u32>>,
    pub params: Option<TextList>,
    pub cwd: Option<PathName>,
    pub opts: Option<Opts>,
    pub kept: KeptMarks,
}

impl Scope {
    pub fn new(alloc: Global) -> Scope
        ensures { result ≡ no_scope }
    {
        Scope {
            vars: Marks::new(alloc),
            funcs: Marks::new(alloc),
            params: None,
            cwd: None,
            opts: None,
            kept: KeptMarks::new(alloc),
        }
    }
}

impl Clone for Scope {
    ghost is_clone = { λ x y. y ≡ x };

    fn clone(&self) -> Result<Scope, AllocError> {
        Ok(Scope {
            vars: self.vars.clone()?,
            funcs: self.funcs.clone()?,
            params: self.params.clone()?,
            cwd: self.cwd.clone()?,
            opts: self.opts,
            kept: self.kept.clone()?,
        })
    }
}
