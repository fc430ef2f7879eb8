//! Outside programs: what they are asked, and what they reply.

ghost use Rattle.std.specs.Prelude.{◌≡◌, List, ℕ, [], ◌∷◌, ◌++◌, OnOk, OnErr};

use crate::path::PathName;
use crate::tree::Tree;
use hs_text::{Text, TextList};
use std::alloc::{AllocError, Global};
use std::marker::Model;

/// Names with their texts, in order.
#[derive(Clone, Drop)]
pub struct Environment {
    items: Vec<(Text, Text)>,
}

impl Model for Environment {
    ghost Value = { List (List ℕ × List ℕ) };

    ghost view = { λ a. a.items.items };
}

impl Environment {
    pub fn new(alloc: Global) -> Environment
        ensures { result ≡ [] }
    {
        Environment {
            items: Vec::new(alloc),
        }
    }

    pub fn as_slice(&self) -> &[(Text, Text)]
        ensures { result.now ≡ self.now }
    {
        self.items.as_slice()
    }

    /// Puts a name with its text at the end. Where there is no memory, the list stays.
    pub fn push(&mut self, name: Text, text: Text) -> Result<(), AllocError>
        ensures ok { OnOk result (self.new ≡ self.old ++ (name, text) ∷ []) }
        ensures err { OnErr result (self.new ≡ self.old) }
    {
        self.items.push((name, text))?;
        Ok(())
    }
}

/// What an outside program is run with.
#[derive(Clone, Drop)]
pub struct Request {
    pub argv: TextList,
    pub env: Environment,
    pub cwd: PathName,
    pub input: Text,
}

/// Whether the program of a name was run.
#[derive(Clone, Copy, Debug, PartialEq, Eq)]
pub enum Found {
    Found,
    NotFound,
    NotExecutable,
}

/// What came of it.
#[derive(Clone, Drop)]
pub struct Reply {
    pub out: Text,
    pub err: Text,
    pub status: u8,
    /// The files that the program left.
    pub tree: Tree,
    pub found: Found,
}
