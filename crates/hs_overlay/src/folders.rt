//! The names that effects made come and go, by folder. A change takes O(log m) comparisons.

ghost use Rattle.std.specs.Prelude.{◌≡◌, OnOk, IfOk, option_copied};
ghost use Rattle.std.specs.FinMap as map;
ghost use Rattle.hs_overlay.specs.Names.{known_over, marked, names_after, with_changes, with_names};

use crate::marks::Marks;
use hs_text::{Text, TextList};
use hs_world::PathName;
use std::alloc::{AllocError, Global};
use std::collections::BTreeMap;
use std::marker::Model;

/// Folders with the names that came (true) and went.
#[derive(Drop)]
pub struct Folders {
    alloc: Global,
    tables: BTreeMap<PathName, Marks<bool>>,
}

impl Model for Folders {
    ghost use Rattle.hs_world.specs.Names.{path_cmp};
    ghost use Rattle.hs_overlay.specs.Names.{FoldersOver, folders_over_code};
    ghost use Rattle.std.specs.FinMap as map;

    ghost Value = { FoldersOver };

    ghost coded = { folders_over_code };

    ghost view = { λ a. map.from_entries {R = path_cmp} a.tables.entries };
}

impl Folders {
    pub fn new(alloc: Global) -> Folders
        ensures { result ≡ map.empty }
    {
        Folders {
            alloc,
            tables: BTreeMap::new(alloc),
        }
    }

    /// What came and went in a folder.
    pub fn get(&self, folder: &[Text]) -> Option<&Marks<bool>>
        ensures { option_copied result ≡ map.get self.now folder.now }
    {
        self.tables.get(folder)
    }

    /// A path comes or goes; the root does neither.
    pub fn mark(&mut self, path: &PathName, came: bool) -> Result<(), AllocError>
        ensures { OnOk result (self.new ≡ marked came self.old path.now) }
    {
        let Some((name, _)) = path.names().split_last() else {
            return Ok(());
        };
        let name = name.clone()?;
        match self.tables.get_mut(path.parent()) {
            Some(table) => return table.insert(name, came),
            None => {}
        }
        let mut table = Marks::new(self.alloc);
        table.insert(name, came)?;
        let mut folder = path.clone()?;
        folder.pop();
        self.tables.insert(folder, table)?;
        Ok(())
    }
}

/// These names, with those that came and without those that went, in order. It takes O(n log n) comparisons.
pub fn names_after(
    alloc: Global,
    changes: Option<&Marks<bool>>,
    names: &[Text],
) -> Result<TextList, AllocError>
    ensures { IfOk result (λ after. after ≡ names_after (known_over (option_copied changes.entry)) names.now) }
{
    let set = changed(set_of(alloc, names)?, changes)?;
    set.names(alloc)
}

fn changed(set: Marks<()>, changes: Option<&Marks<bool>>) -> Result<Marks<()>, AllocError>
    ensures { IfOk result (λ after. after ≡ with_changes (map.entries (known_over (option_copied changes.entry))) set) }
{
    let mut set = set;
    match changes {
        Some(changes) => changes.apply(&mut set)?,
        None => return Ok(set),
    }
    Ok(set)
}

fn set_of(alloc: Global, names: &[Text]) -> Result<Marks<()>, AllocError>
    ensures { IfOk result (λ set. set ≡ with_names names.now map.empty) }
{
    let mut set = Marks::new(alloc);
    for name in names {
        set.insert(name.clone()?, ())?;
    }
    Ok(set)
}
