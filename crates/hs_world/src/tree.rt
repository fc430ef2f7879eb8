//! The tree of files. A look-up and a change take O(log n) comparisons of paths beside what they move. The sum of the
//! files' bytes is kept, and the names of each folder: they take as long as they are many.

ghost use Rattle.std.specs.Prelude.{◌≡◌, ◌↔◌, ◌^◌, ◌+◌, ◌-◌, ◌≤◌, ◌<◌, ℕ, min, ltb, not, ◌&&◌, ◌||◌, cond, is_some, true, false, OnOk, OnErr, IfOk, IsTrue, Err, Some, None, option_copied};
ghost use Rattle.std.specs.FinMap as map;
ghost use Rattle.hs_world.specs.Files.{IsTree, appended, bytes_of, entry_at, entry_size, extended, extended_at, is_absent, is_dir, is_empty_list, is_other, is_over, is_over_with, is_removable, kind_of, most_bytes, most_entries, names_in, size_in, sum_of, tree_bytes};
ghost use Rattle.hs_world.specs.Names.{path_cmp};
ghost use Rattle.hs_world.specs.Paths.{parent};
ghost use Rattle.hs_world.specs.Sizes.{capped, entries_size, kept_size, path_bytes, path_size};
ghost use Rattle.hs_world.specs.declared.entry.Entry as entry;
ghost use Rattle.std.specs.Map.{keys_of};
ghost use Rattle.std.specs.List.Sorted.{IsStrictlySortedBy};

use crate::entry::{Entry, Kind};
use crate::index::Folders;
use crate::path::PathName;
use hs_text::{Text, TextList};
use std::alloc::{AllocError, Global};
use std::collections::BTreeMap;
use std::marker::Model;

/// Why an entry was not put into a tree.
#[derive(Clone, Copy, Debug, PartialEq, Eq)]
pub enum TreeErr {
    NoMemory,
    /// The parent is no folder.
    NoParent,
    /// The path has an entry.
    Taken,
}

/// The most bytes of the files of a tree.
const MOST_BYTES: u64 = 268_435_456;

/// The most entries of a tree, without the root.
const MOST_ENTRIES: usize = 262_144;

/// Paths with their entries. Each entry is in a folder: what is no folder has no names. The root is a folder.
#[derive(Drop)]
pub struct Tree {
    alloc: Global,
    entries: BTreeMap<PathName, Entry>,
    folders: Folders,
    bytes: u64,
}

impl Model for Tree {
    ghost use Rattle.std.specs.Prelude.{◌≡◌, ◌^◌, ◌-◌, min};
    ghost use Rattle.hs_world.specs.Names.{path_cmp};
    ghost use Rattle.hs_world.specs.Files.{Files, IsTree, files_code, tree_bytes};
    ghost use Rattle.hs_world.specs.Folders.{IsIndex};
    ghost use Rattle.std.specs.FinMap as map;

    ghost Value = { Files };

    ghost coded = { files_code };

    ghost view = { λ a. map.from_entries {R = path_cmp} a.entries.entries };

    ghost invariant = { λ a. (a.bytes ≡ min (tree_bytes (map.from_entries {R = path_cmp} a.entries.entries)) (2 ^ 64 - 1)) × IsIndex a.folders (map.from_entries a.entries.entries) × IsTree (map.from_entries a.entries.entries) };
}

impl Tree {
    /// A tree of the root alone.
    pub fn new(alloc: Global) -> Tree
        ensures { result ≡ map.empty }
    {
        Tree {
            alloc,
            entries: BTreeMap::new(alloc),
            folders: Folders::new(alloc),
            bytes: 0,
        }
    }

    /// Each entry is in a folder: what is no folder has no names.
    pub fn promise(&self)
        ensures { IsTree self.now }
    {
        let _ = &self.bytes;
    }

    /// The bytes of the files together, or 2^64 - 1 where they are more.
    pub fn bytes(&self) -> u64
        ensures { result ≡ min (tree_bytes self.now) (2 ^ 64 - 1) }
    {
        self.bytes
    }

    /// The number of entries without the root.
    pub fn len(&self) -> usize
        ensures len { result ≡ map.len self.now }
        ensures small { result < 2 ^ 63 }
    {
        self.entries.len()
    }

    /// How much the entries take where they are kept: 16 for each path and each text, and their bytes. It takes O(n) steps.
    pub fn kept_size(&self) -> u128
        ensures { result ≡ capped (entries_size (map.entries self.now)) }
    {
        kept_total(&self.entries)
    }

    fn found(&self, path: &[Text]) -> Option<&Entry>
        ensures { option_copied result ≡ map.get self.now path.now }
    {
        self.entries.get(path)
    }

    /// The kind of what the path has.
    pub fn kind(&self, path: &[Text]) -> Kind
        ensures { result ≡ kind_of (entry_at self.now path.now) }
    {
        if path.is_empty() {
            return Kind::Dir;
        }
        match self.found(path) {
            Some(Entry::File(_)) => Kind::File,
            Some(Entry::Dir) => Kind::Dir,
            Some(Entry::Other) => Kind::Other,
            None => Kind::Absent,
        }
    }

    /// The bytes of a file.
    pub fn file(&self, path: &[Text]) -> Option<&Text>
        ensures { option_copied result ≡ bytes_of (entry_at self.now path.now) }
    {
        if path.is_empty() {
            return None;
        }
        match self.found(path) {
            Some(Entry::File(text)) => Some(text),
            _ => None,
        }
    }

    /// The names of what is right in a folder, in order.
    pub fn names(&self, folder: &[Text]) -> Result<TextList, AllocError>
        ensures { IfOk result (λ names. names ≡ names_in folder.now (map.keys self.now)) }
    {
        match self.folders.names(folder) {
            Some(names) => names.names(self.alloc),
            None => Ok(TextList::new(self.alloc)),
        }
    }

    /// Whether these are the names of what is right in a folder, in order. It takes no memory.
    pub fn has_names(&self, folder: &[Text], names: &[Text]) -> bool
        ensures { IsTrue result ↔ (names_in folder.now (map.keys self.now) ≡ names.now) }
    {
        match self.folders.names(folder) {
            Some(known) => known.has_names(names),
            None => names.is_empty(),
        }
    }

    fn size_at(&self, path: &[Text]) -> u64
        ensures { result ≡ size_in (map.get self.now path.now) }
    {
        match self.found(path) {
            Some(entry) => size_of(entry),
            None => 0,
        }
    }

    /// Whether the tree passes its limit: 268,435,456 bytes and 262,144 entries.
    pub fn is_over(&self) -> bool
        ensures { result ≡ is_over self.now }
    {
        is_past(self.bytes, self.len())
    }

    fn len_with(&self, path: &[Text]) -> usize
        ensures { result ≡ cond (is_some (map.get self.now path.now)) (map.len self.now) (map.len self.now + 1) }
    {
        match self.found(path) {
            Some(_) => self.len(),
            None => self.len() + 1,
        }
    }

    fn bytes_with(&self, path: &[Text], size: usize) -> u64
        requires { is_over self.now ≡ false }
        ensures { result ≡ min ((tree_bytes self.now - size_in (map.get self.now path.now)) + size) (2 ^ 64 - 1) }
    {
        let old = self.size_at(path);
        (self.bytes() - old).saturating_add(size as u64)
    }

    /// Whether a tree within its limit passes it where an entry of so many bytes is put at a path.
    pub fn passes_with(&self, path: &[Text], size: usize) -> bool
        requires { is_over self.now ≡ false }
        ensures { (e : entry.Entry) → entry_size e ≡ size → result ≡ is_over (map.insert self.now path.now e) }
    {
        is_past(self.bytes_with(path, size), self.len_with(path))
    }

    /// Whether a tree within its limit passes it with bytes at the end of a file.
    pub fn append_passes(&self, path: &[Text], more: &Text) -> bool
        requires { is_over self.now ≡ false }
        ensures { result ≡ is_over_with (entry_at self.now path.now) self.now path.now more.now }
    {
        match self.file(path) {
            None => false,
            Some(old) => {
                let bytes = self.bytes_with(path, old.len());
                is_past(bytes.saturating_add(more.len() as u64), self.len_with(path))
            }
        }
    }

    /// Whether the path has a folder.
    pub fn is_dir(&self, path: &[Text]) -> bool
        ensures { result ≡ is_dir (entry_at self.now path.now) }
    {
        match self.kind(path) {
            Kind::Dir => true,
            _ => false,
        }
    }

    /// Whether a file may be put at a path: a folder is around it, and a file or nothing is there.
    pub fn can_put(&self, path: &PathName) -> bool
        ensures { result ≡ (is_dir (entry_at self.now (parent path.now)) && not (is_dir (entry_at self.now path.now)) && not (is_other (entry_at self.now path.now))) }
    {
        if !self.is_dir(path.parent()) {
            return false;
        }
        match self.kind(path.names()) {
            Kind::File => true,
            Kind::Absent => true,
            Kind::Dir => false,
            Kind::Other => false,
        }
    }

    /// Whether a folder may be made at a path: a folder is around it, and nothing is there.
    pub fn can_make_dir(&self, path: &PathName) -> bool
        ensures { result ≡ (is_dir (entry_at self.now (parent path.now)) && is_absent (entry_at self.now path.now)) }
    {
        if !self.is_dir(path.parent()) {
            return false;
        }
        match self.kind(path.names()) {
            Kind::Absent => true,
            _ => false,
        }
    }

    fn has_none(&self, folder: &[Text]) -> bool
        ensures { result ≡ is_empty_list (names_in folder.now (map.keys self.now)) }
    {
        match self.folders.names(folder) {
            Some(known) => known.is_empty(),
            None => true,
        }
    }

    /// Whether what is at a path may be removed: a file, or a folder without entries that is not the root.
    pub fn can_remove(&self, path: &PathName) -> bool
        ensures { result ≡ is_removable (entry_at self.now path.now) self.now path.now }
    {
        let names = path.names();
        match self.kind(names) {
            Kind::File => true,
            Kind::Dir => !names.is_empty() && self.has_none(names),
            _ => false,
        }
    }

    /// Puts an entry at a path in a folder, in place of what is there, which is no folder. Where there is no memory, the
    /// tree stays.
    pub(crate) fn set(&mut self, path: PathName, entry: Entry) -> Result<(), AllocError>
        requires parent { is_dir (entry_at self.old (parent path)) ≡ true }
        requires place { is_dir (entry_at self.old path) ≡ false }
        ensures ok { OnOk result (self.new ≡ map.insert self.old path entry) }
        ensures err { OnErr result (self.new ≡ self.old) }
    {
        let old = self.size_at(path.names());
        let new = size_of(&entry);
        self.folders.add(&path)?;
        match self.entries.insert(path, entry) {
            Ok(_) => {}
            Err(failed) => {
                self.folders.take(&failed.value.0);
                return Err(AllocError);
            }
        }
        self.bytes = settled(&self.entries, self.bytes, old, new);
        Ok(())
    }

    /// Takes away what is at a path: a file, or a folder without entries that is not the root.
    pub(crate) fn remove(&mut self, path: &PathName)
        requires { is_removable (entry_at self.old path.now) self.old path.now ≡ true }
        ensures { self.new ≡ map.remove self.old path.now }
    {
        let old = self.size_at(path.names());
        let _ = self.entries.remove(path);
        self.folders.take(path);
        self.folders.drop_empty(path);
        self.bytes = settled(&self.entries, self.bytes, old, 0);
    }

    /// Puts bytes at the end of a file, in place where no other text shares them; where the path has no file, nothing
    /// changes. Where there is no memory, the tree stays.
    pub fn append(&mut self, path: &PathName, more: &Text) -> Result<(), AllocError>
        ensures ok { OnOk result (self.new ≡ appended self.old path.now more.now) }
        ensures err { OnErr result (self.new ≡ self.old) }
    {
        let Some(_) = self.file(path.names()) else {
            return Ok(());
        };
        extend_at(&mut self.entries, path, more)?;
        self.bytes = settled(&self.entries, self.bytes, 0, more.len() as u64);
        Ok(())
    }

    /// Puts an entry at a path that has none, in a folder.
    pub fn insert(&mut self, path: PathName, entry: Entry) -> Result<(), TreeErr>
        ensures ok { OnOk result (self.new ≡ map.insert self.old path entry) }
        ensures err { OnErr result (self.new ≡ self.old) }
        ensures no_parent { (result ≡ Err TreeErr.NoParent) ↔ (is_dir (entry_at self.old (parent path)) ≡ false) }
        ensures taken { (result ≡ Err TreeErr.Taken) ↔ (is_dir (entry_at self.old (parent path)) ≡ true) × (is_absent (entry_at self.old path) ≡ false) }
    {
        if self.kind(path.parent()) != Kind::Dir {
            return Err(TreeErr::NoParent);
        }
        if self.kind(path.names()) != Kind::Absent {
            return Err(TreeErr::Taken);
        }
        match self.set(path, entry) {
            Ok(()) => Ok(()),
            Err(_) => Err(TreeErr::NoMemory),
        }
    }
}

fn is_past(bytes: u64, entries: usize) -> bool
    ensures { result ≡ (ltb most_bytes bytes || ltb most_entries entries) }
{
    bytes > MOST_BYTES || entries > MOST_ENTRIES
}

/// The bytes of the files, or 2^64 - 1 where they are more.
fn total(entries: &BTreeMap<PathName, Entry>) -> u64
    ensures bytes { result ≡ min (sum_of entries.now.entries) (2 ^ 64 - 1) }
    ensures ordered { IsStrictlySortedBy path_cmp (keys_of entries.now.entries) }
{
    let mut sum = 0u64;
    for (_, entry) in entries {
        sum = sum.saturating_add(size_of(entry));
    }
    sum
}

/// How much entries take where they are kept, or 2^128 - 1 where that is more.
fn kept_total(entries: &BTreeMap<PathName, Entry>) -> u128
    ensures size { result ≡ capped (entries_size entries.now.entries) }
    ensures ordered { IsStrictlySortedBy path_cmp (keys_of entries.now.entries) }
{
    let mut sum = 0u128;
    for (path, entry) in entries {
        sum = sum.saturating_add(kept_size(path, entry));
    }
    sum
}

fn kept_size(path: &PathName, entry: &Entry) -> u128
    ensures { result ≡ capped (path_size path.now + kept_size entry.now) }
{
    let names = 16u128.saturating_add(path_bytes(path.names()));
    match entry {
        Entry::File(text) => names.saturating_add(16u128.saturating_add(text.len() as u128)),
        _ => names,
    }
}

fn path_bytes(names: &[Text]) -> u128
    ensures { result ≡ capped (path_bytes names.now) }
{
    let mut size: u128 = 0;
    for name in names {
        size = size.saturating_add(name.len() as u128);
    }
    size
}

/// The bytes of the files after a change, from those before it, where an entry of `old` bytes went and one of `new` came.
fn settled(entries: &BTreeMap<PathName, Entry>, bytes: u64, old: u64, new: u64) -> u64
    ensures sum { (before : ℕ) → bytes ≡ min before (2 ^ 64 - 1) → sum_of entries.now.entries + old ≡ before + new → old ≤ before → result ≡ min (sum_of entries.now.entries) (2 ^ 64 - 1) }
    ensures ordered { IsStrictlySortedBy path_cmp (keys_of entries.now.entries) }
{
    if bytes == u64::MAX {
        return total(entries);
    }
    let _ = entries.len();
    bytes.saturating_sub(old).saturating_add(new)
}

/// Puts bytes at the end of the file at a path. Where there is no memory, the entries stay.
fn extend_at(
    entries: &mut BTreeMap<PathName, Entry>,
    path: &PathName,
    more: &Text,
) -> Result<(), AllocError>
    ensures ok { OnOk result (map.from_entries {R = path_cmp} entries.new.entries ≡ extended_at (map.get (map.from_entries {R = path_cmp} entries.old.entries) path.now) (map.from_entries entries.old.entries) path.now more.now) }
    ensures err { OnErr result (entries.new.entries ≡ entries.old.entries) }
{
    match entries.get_mut(path) {
        Some(entry) => return extend_entry(entry, more),
        None => {}
    }
    Ok(())
}

/// Puts bytes at the end of a file. Where there is no memory, it stays.
fn extend_entry(entry: &mut Entry, more: &Text) -> Result<(), AllocError>
    ensures ok { OnOk result (entry.new ≡ extended entry.old more.now) }
    ensures err { OnErr result (entry.new ≡ entry.old) }
{
    match entry {
        Entry::File(text) => text.extend(more.as_slice()),
        _ => Ok(()),
    }
}

/// The bytes of an entry.
fn size_of(entry: &Entry) -> u64
    ensures { result ≡ entry_size entry.now }
{
    match entry {
        Entry::File(text) => text.len() as u64,
        Entry::Dir => 0,
        Entry::Other => 0,
    }
}

impl Clone for Tree {
    ghost is_clone = { λ x y. y ≡ x };

    fn clone(&self) -> Result<Tree, AllocError> {
        Ok(Tree {
            alloc: self.alloc,
            entries: self.entries.clone()?,
            folders: self.folders.clone()?,
            bytes: self.bytes,
        })
    }
}
