//! The names of the entries of each folder, kept in order beside the tree. A look-up and a change take O(log n)
//! comparisons.

ghost use Rattle.std.specs.Prelude.{◌≡◌, Some, OnOk, OnErr, option_copied};
ghost use Rattle.std.specs.FinMap as map;
ghost use Rattle.hs_world.specs.Folders.{added, dropped, taken};

use crate::path::PathName;
use crate::table::Table;
use hs_text::Text;
use std::alloc::{AllocError, Global};
use std::collections::BTreeMap;
use std::marker::Model;

/// Folders with the names of what is right in them.
#[derive(Drop)]
pub struct Folders {
    alloc: Global,
    tables: BTreeMap<PathName, Table<()>>,
}

impl Model for Folders {
    ghost use Rattle.hs_world.specs.Names.{path_cmp};
    ghost use Rattle.hs_world.specs.Folders.{FolderMap, folders_code};
    ghost use Rattle.std.specs.FinMap as map;

    ghost Value = { FolderMap };

    ghost coded = { folders_code };

    ghost view = { λ a. map.from_entries {R = path_cmp} a.tables.entries };
}

impl Folders {
    pub fn new(alloc: Global) -> Folders
        ensures { result ≡ map.empty }
    {
        Folders {
            alloc,
            tables: BTreeMap::new(alloc),
        }
    }

    /// The names in a folder.
    pub fn names(&self, folder: &[Text]) -> Option<&Table<()>>
        ensures { option_copied result ≡ map.get self.now folder.now }
    {
        self.tables.get(folder)
    }

    /// An entry comes. Where there is no memory, the names stay.
    pub fn add(&mut self, path: &PathName) -> Result<(), AllocError>
        ensures ok { OnOk result (self.new ≡ added self.old path.now) }
        ensures err { OnErr result (self.new ≡ self.old) }
    {
        let Some((name, _)) = path.names().split_last() else {
            return Ok(());
        };
        let name = name.clone()?;
        match self.tables.get_mut(path.parent()) {
            Some(table) => return table.insert(name, ()),
            None => {}
        }
        let mut table = Table::new(self.alloc);
        table.insert(name, ())?;
        let mut folder = path.clone()?;
        folder.pop();
        self.tables.insert(folder, table)?;
        Ok(())
    }

    /// An entry goes.
    pub fn take(&mut self, path: &PathName)
        ensures { self.new ≡ taken self.old path.now }
    {
        let Some((name, _)) = path.names().split_last() else {
            return;
        };
        match self.tables.get_mut(path.parent()) {
            Some(table) => table.remove(name),
            None => {}
        }
    }

    /// Forgets a folder without entries.
    pub fn drop_empty(&mut self, folder: &PathName)
        ensures { self.new ≡ dropped self.old folder.now }
    {
        if let Some(table) = self.names(folder.names()) {
            if table.is_empty() {
                let _ = self.tables.remove(folder);
            }
        }
    }
}

impl Clone for Folders {
    ghost is_clone = { λ x y. y ≡ x };

    fn clone(&self) -> Result<Folders, AllocError> {
        Ok(Folders {
            alloc: self.alloc,
            tables: self.tables.clone()?,
        })
    }
}
