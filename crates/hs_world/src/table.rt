//! Tables that contracts see as finite maps. A look-up and a change take O(log n) comparisons.

ghost use Rattle.std.specs.Prelude.{◌≡◌, ◌↔◌, OnOk, OnErr, IfOk, IsTrue, option_copied};
ghost use Rattle.std.specs.FinMap as map;
ghost use Rattle.std.specs.Map.{keys_of};
ghost use Rattle.std.specs.List.Sorted.{IsStrictlySortedBy};
ghost use Rattle.hs_world.specs.Files.{is_empty_list};
ghost use Rattle.hs_world.specs.Names.{name_cmp};

use crate::var::Var;
use hs_text::{Text, TextList};
use std::alloc::{AllocError, Global};
use std::collections::BTreeMap;
use std::marker::Model;

/// Names with their values.
#[derive(Drop)]
pub struct Table<V> {
    entries: BTreeMap<Text, V>,
}

impl<V> Model for Table<V> {
    ghost use Rattle.hs_world.specs.Names.{name_cmp, text_code};
    ghost use Rattle.std.specs.FinMap as map;

    ghost Value = { map.FinMap name_cmp V };

    ghost coded = { map.code text_code V.code };

    ghost view = { λ a. map.from_entries {R = name_cmp} a.entries.entries };
}

impl<V: Drop> Table<V> {
    pub fn new(alloc: Global) -> Table<V>
        ensures { result ≡ map.empty }
    {
        Table {
            entries: BTreeMap::new(alloc),
        }
    }

    pub fn get(&self, name: &Text) -> Option<&V>
        ensures { option_copied result ≡ map.get self.now name.now }
    {
        self.entries.get(name)
    }

    /// Sets the value of a name. Where there is no memory, the table stays.
    pub fn insert(&mut self, name: Text, value: V) -> Result<(), AllocError>
        ensures ok { OnOk result (self.new ≡ map.insert self.old name value) }
        ensures err { OnErr result (self.new ≡ self.old) }
    {
        self.entries.insert(name, value)?;
        Ok(())
    }

    pub fn remove(&mut self, name: &Text)
        ensures { self.new ≡ map.remove self.old name.now }
    {
        let _ = self.entries.remove(name);
    }
}

impl Clone for Table<Var> {
    ghost is_clone = { λ x y. y ≡ x };

    fn clone(&self) -> Result<Table<Var>, AllocError> {
        let entries = self.entries.clone()?;
        Ok(Table { entries })
    }
}

impl Clone for Table<u32> {
    ghost is_clone = { λ x y. y ≡ x };

    fn clone(&self) -> Result<Table<u32>, AllocError> {
        let entries = self.entries.clone()?;
        Ok(Table { entries })
    }
}

impl Table<()> {
    /// The names, in order.
    pub fn names(&self, alloc: Global) -> Result<TextList, AllocError>
        ensures { IfOk result (λ names. names ≡ map.keys self.now) }
    {
        names_of(alloc, &self.entries)
    }

    /// Whether these are the names, in order. It takes no memory.
    pub fn has_names(&self, names: &[Text]) -> bool
        ensures { IsTrue result ↔ (map.keys self.now ≡ names.now) }
    {
        are_names(names, &self.entries)
    }

    pub fn is_empty(&self) -> bool
        ensures { result ≡ is_empty_list (map.keys self.now) }
    {
        self.entries.len() == 0
    }
}

fn names_of(alloc: Global, entries: &BTreeMap<Text, ()>) -> Result<TextList, AllocError>
    ensures names { IfOk result (λ names. names ≡ keys_of entries.now.entries) }
    ensures ordered { IsStrictlySortedBy name_cmp (keys_of entries.now.entries) }
{
    let mut names = TextList::new(alloc);
    for (name, _) in entries {
        names.push(name.clone()?)?;
    }
    Ok(names)
}

fn are_names(names: &[Text], entries: &BTreeMap<Text, ()>) -> bool
    ensures names { IsTrue result ↔ (keys_of entries.now.entries ≡ names.now) }
    ensures ordered { IsStrictlySortedBy name_cmp (keys_of entries.now.entries) }
{
    let mut k = 0;
    for (known, _) in entries {
        if k == names.len() {
            return false;
        }
        if !known.same(&names[k]) {
            return false;
        }
        k += 1;
    }
    k == names.len()
}

impl Clone for Table<()> {
    ghost is_clone = { λ x y. y ≡ x };

    fn clone(&self) -> Result<Table<()>, AllocError> {
        let entries = self.entries.clone()?;
        Ok(Table { entries })
    }
}

/// Descriptors with the texts that they read.
#[derive(Drop)]
pub struct KeptTexts {
    entries: BTreeMap<u8, Text>,
}

impl Model for KeptTexts {
    ghost use Rattle.hs_world.specs.Names.{text_code};
    ghost use Rattle.std.specs.Ordering.{nat_cmp};
    ghost use Rattle.std.specs.Prelude.{List, ℕ};
    ghost use Rattle.std.specs.Coded.{coded_ℕ};
    ghost use Rattle.std.specs.FinMap as map;

    ghost Value = { map.FinMap nat_cmp (List ℕ) };

    ghost coded = { map.code coded_ℕ text_code };

    ghost view = { λ a. map.from_entries {R = nat_cmp} a.entries.entries };
}

impl KeptTexts {
    pub fn new(alloc: Global) -> KeptTexts
        ensures { result ≡ map.empty }
    {
        KeptTexts {
            entries: BTreeMap::new(alloc),
        }
    }

    pub fn get(&self, descriptor: u8) -> Option<&Text>
        ensures { option_copied result ≡ map.get self.now descriptor }
    {
        self.entries.get(&descriptor)
    }

    /// Sets the value of a descriptor. Where there is no memory, the table stays.
    pub fn insert(&mut self, descriptor: u8, value: Text) -> Result<(), AllocError>
        ensures ok { OnOk result (self.new ≡ map.insert self.old descriptor value) }
        ensures err { OnErr result (self.new ≡ self.old) }
    {
        self.entries.insert(descriptor, value)?;
        Ok(())
    }

    pub fn remove(&mut self, descriptor: u8)
        ensures { self.new ≡ map.remove self.old descriptor }
    {
        let _ = self.entries.remove(&descriptor);
    }
}

impl Clone for KeptTexts {
    ghost is_clone = { λ x y. y ≡ x };

    fn clone(&self) -> Result<KeptTexts, AllocError> {
        let entries = self.entries.clone()?;
        Ok(KeptTexts { entries })
    }
}
