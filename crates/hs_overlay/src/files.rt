//! What effects make of the tree of files.

ghost use Rattle.std.specs.Prelude.{◌≡◌, OnOk, IfOk};
ghost use Rattle.hs_overlay.specs.Files.{left_files, no_files, with_entry, with_more, without_entry};

use crate::folders::Folders;
use crate::paths::{PathOver, Paths};
use hs_text::Text;
use hs_world::{Entry, PathName, Tree};
use std::alloc::{AllocError, Global};

/// What was made of the tree.
#[derive(Drop)]
pub struct Files {
    /// The tree that a program left, in place of the base's.
    pub left: Option<Tree>,
    pub paths: Paths,
    pub folders: Folders,
}

impl Files {
    pub fn new(alloc: Global) -> Files
        ensures { result ≡ no_files }
    {
        Files {
            left: None,
            paths: Paths::new(alloc),
            folders: Folders::new(alloc),
        }
    }

    /// An entry comes.
    pub fn put(&mut self, path: &PathName, entry: Entry) -> Result<(), AllocError>
        ensures { OnOk result (self.new ≡ with_entry path.now entry self.old) }
    {
        self.folders.mark(path, true)?;
        let path = path.clone()?;
        self.paths.set(path, PathOver::Whole(Some(entry)))
    }

    /// An entry goes.
    pub fn remove(&mut self, path: &PathName) -> Result<(), AllocError>
        ensures { OnOk result (self.new ≡ without_entry path.now self.old) }
    {
        self.folders.mark(path, false)?;
        let path = path.clone()?;
        self.paths.set(path, PathOver::Whole(None))
    }

    /// A file grows.
    pub fn extend(&mut self, path: &PathName, more: &Text) -> Result<(), AllocError>
        ensures { OnOk result (self.new ≡ with_more path.now more.now self.old) }
    {
        self.paths.extend(path, more)
    }

    /// The files that a program left.
    pub fn leave(alloc: Global, tree: &Tree) -> Result<Files, AllocError>
        ensures { IfOk result (λ files. files ≡ left_files tree.now) }
    {
        Ok(Files {
            left: Some(tree.clone()?),
            paths: Paths::new(alloc),
            folders: Folders::new(alloc),
        })
    }
}
