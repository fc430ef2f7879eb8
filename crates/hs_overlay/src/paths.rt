//! What effects make of paths. A look-up and a change take O(log m) comparisons of paths beside what they move; bytes at
//! the end of a file are amortised, as `Text::extend` is.

ghost use Rattle.std.specs.Prelude.{◌≡◌, Some, OnOk, option_copied};
ghost use Rattle.std.specs.FinMap as map;
ghost use Rattle.hs_overlay.specs.Paths.{extended_by, longer, put_path};

use hs_text::Text;
use hs_world::{Entry, PathName};
use std::alloc::{AllocError, Global};
use std::collections::BTreeMap;
use std::marker::Model;

/// What was made of a path.
#[derive(Drop)]
pub enum PathOver {
    /// All that it has.
    Whole(Option<Entry>),
    /// More bytes at the end of what a file had.
    Longer(Text),
}

/// Paths with what was made of them.
#[derive(Drop)]
pub struct Paths {
    entries: BTreeMap<PathName, PathOver>,
}

impl Model for Paths {
    ghost use Rattle.hs_world.specs.Names.{path_cmp};
    ghost use Rattle.hs_overlay.specs.Paths.{PathsOver, paths_over_code};
    ghost use Rattle.std.specs.FinMap as map;

    ghost Value = { PathsOver };

    ghost coded = { paths_over_code };

    ghost view = { λ a. map.from_entries {R = path_cmp} a.entries.entries };
}

impl Paths {
    pub fn new(alloc: Global) -> Paths
        ensures { result ≡ map.empty }
    {
        Paths {
            entries: BTreeMap::new(alloc),
        }
    }

    pub fn get(&self, path: &[Text]) -> Option<&PathOver>
        ensures { option_copied result ≡ map.get self.now path.now }
    {
        self.entries.get(path)
    }

    /// Sets what was made of a path. The root stays as it is.
    pub fn set(&mut self, path: PathName, over: PathOver) -> Result<(), AllocError>
        ensures { OnOk result (self.new ≡ put_path path over self.old) }
    {
        if path.names().is_empty() {
            return Ok(());
        }
        self.entries.insert(path, over)?;
        Ok(())
    }

    /// Puts bytes at the end of what a path has, in place where no other text shares them.
    pub fn extend(&mut self, path: &PathName, more: &Text) -> Result<(), AllocError>
        ensures { OnOk result (self.new ≡ put_path path.now (longer (map.get self.old path.now) more.now) self.old) }
    {
        if path.names().is_empty() {
            return Ok(());
        }
        match self.entries.get_mut(path) {
            Some(over) => return extend_over(over, more),
            None => {}
        }
        let path = path.clone()?;
        let over = PathOver::Longer(more.clone()?);
        self.entries.insert(path, over)?;
        Ok(())
    }
}

/// Puts bytes at the end of what a path has, where that is a file.
fn extend_over(over: &mut PathOver, more: &Text) -> Result<(), AllocError>
    ensures { OnOk result (over.new ≡ longer (Some over.old) more.now) }
{
    match over {
        PathOver::Whole(entry) => extend_entry(entry, more),
        PathOver::Longer(text) => text.extend(more.as_slice()),
    }
}

fn extend_entry(entry: &mut Option<Entry>, more: &Text) -> Result<(), AllocError>
    ensures { OnOk result (entry.new ≡ extended_by entry.old more.now) }
{
    match entry {
        Some(Entry::File(text)) => text.extend(more.as_slice()),
        _ => Ok(()),
    }
}
