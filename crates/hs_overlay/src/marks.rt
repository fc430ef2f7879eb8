//! Names and descriptors with what effects made of them. A look-up and a change take O(log m) comparisons.

ghost use Rattle.std.specs.Prelude.{◌≡◌, OnOk, OnErr, IfOk, option_copied};
ghost use Rattle.std.specs.FinMap as map;
ghost use Rattle.std.specs.List.Sorted.{IsStrictlySortedBy};
ghost use Rattle.std.specs.Map.{keys_of};
ghost use Rattle.hs_world.specs.Names.{name_cmp};
ghost use Rattle.hs_overlay.specs.Names.{with_change, with_changes};

use hs_text::{Text, TextList};
use hs_world::Var;
use std::alloc::{AllocError, Global};
use std::collections::BTreeMap;
use std::marker::Model;

/// Names with what was made of them.
#[derive(Drop)]
pub struct Marks<V> {
    entries: BTreeMap<Text, V>,
}

impl<V> Model for Marks<V> {
    ghost use Rattle.hs_world.specs.Names.{name_cmp, text_code};
    ghost use Rattle.std.specs.FinMap as map;

    ghost Value = { map.FinMap name_cmp V };

    ghost coded = { map.code text_code V.code };

    ghost view = { λ a. map.from_entries {R = name_cmp} a.entries.entries };
}

impl<V: Drop> Marks<V> {
    pub fn new(alloc: Global) -> Marks<V>
        ensures { result ≡ map.empty }
    {
        Marks {
            entries: BTreeMap::new(alloc),
        }
    }

    pub fn get(&self, name: &Text) -> Option<&V>
        ensures { option_copied result ≡ map.get self.now name.now }
    {
        self.entries.get(name)
    }

    /// Sets what was made of a name. Where there is no memory, the table stays.
    pub fn insert(&mut self, name: Text, value: V) -> Result<(), AllocError>
        ensures ok { OnOk result (self.new ≡ map.insert self.old name value) }
        ensures err { OnErr result (self.new ≡ self.old) }
    {
        self.entries.insert(name, value)?;
        Ok(())
    }

    pub fn remove(&mut self, name: &Text)
        ensures { self.new ≡ map.remove self.old name.now }
    {
        let _ = self.entries.remove(name);
    }
}

impl Clone for Marks<Option<Var>> {
    ghost is_clone = { λ x y. y ≡ x };

    fn clone(&self) -> Result<Marks<Option<Var>>, AllocError> {
        let entries = self.entries.clone()?;
        Ok(Marks { entries })
    }
}

impl Clone for Marks<Option<u32>> {
    ghost is_clone = { λ x y. y ≡ x };

    fn clone(&self) -> Result<Marks<Option<u32>>, AllocError> {
        let entries = self.entries.clone()?;
        Ok(Marks { entries })
    }
}

/// Descriptors with the texts that effects gave them. None is a closed one.
#[derive(Drop)]
pub struct KeptMarks {
    entries: BTreeMap<u8, Option<Text>>,
}

impl Model for KeptMarks {
    ghost use Rattle.std.specs.FinMap as map;
    ghost use Rattle.std.specs.Ordering.{nat_cmp};
    ghost use Rattle.hs_overlay.specs.Marks.{KeptOver, kept_over_code};

    ghost Value = { KeptOver };

    ghost coded = { kept_over_code };

    ghost view = { λ a. map.from_entries {R = nat_cmp} a.entries.entries };
}

impl KeptMarks {
    pub fn new(alloc: Global) -> KeptMarks
        ensures { result ≡ map.empty }
    {
        KeptMarks {
            entries: BTreeMap::new(alloc),
        }
    }

    pub fn get(&self, descriptor: u8) -> Option<&Option<Text>>
        ensures { option_copied result ≡ map.get self.now descriptor }
    {
        self.entries.get(&descriptor)
    }

    /// Sets the text of a descriptor. Where there is no memory, the table stays.
    pub fn insert(&mut self, descriptor: u8, value: Option<Text>) -> Result<(), AllocError>
        ensures ok { OnOk result (self.new ≡ map.insert self.old descriptor value) }
        ensures err { OnErr result (self.new ≡ self.old) }
    {
        self.entries.insert(descriptor, value)?;
        Ok(())
    }
}

impl Clone for KeptMarks {
    ghost is_clone = { λ x y. y ≡ x };

    fn clone(&self) -> Result<KeptMarks, AllocError> {
        let entries = self.entries.clone()?;
        Ok(KeptMarks { entries })
    }
}

impl Marks<()> {
    /// The names, in order.
    pub fn names(&self, alloc: Global) -> Result<TextList, AllocError>
        ensures { IfOk result (λ names. names ≡ map.keys self.now) }
    {
        names_of(alloc, &self.entries)
    }
}

fn names_of(alloc: Global, entries: &BTreeMap<Text, ()>) -> Result<TextList, AllocError>
    ensures names { IfOk result (λ names. names ≡ keys_of entries.now.entries) }
    ensures ordered { IsStrictlySortedBy name_cmp (keys_of entries.now.entries) }
{
    let mut names = TextList::new(alloc);
    for (name, _) in entries {
        names.push(name.clone()?)?;
    }
    Ok(names)
}

impl Marks<bool> {
    /// Adds the names that came to a set, and takes away those that went.
    pub fn apply(&self, set: &mut Marks<()>) -> Result<(), AllocError>
        ensures { OnOk result (set.new ≡ with_changes (map.entries self.now) set.old) }
    {
        apply_all(&self.entries, set)
    }
}

fn apply_all(changes: &BTreeMap<Text, bool>, set: &mut Marks<()>) -> Result<(), AllocError>
    ensures changes { OnOk result (set.new ≡ with_changes changes.now.entries set.old) }
    ensures ordered { IsStrictlySortedBy name_cmp (keys_of changes.now.entries) }
{
    for (name, came) in changes {
        apply_one(name, *came, set)?;
    }
    Ok(())
}

fn apply_one(name: &Text, came: bool, set: &mut Marks<()>) -> Result<(), AllocError>
    ensures { OnOk result (set.new ≡ with_change name.now came set.old) }
{
    if came {
        return set.insert(name.clone()?, ());
    }
    set.remove(name);
    Ok(())
}
