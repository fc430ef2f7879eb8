//! What a command reads, and what it does, in order. Adding at the end is amortised O(1).

ghost use Rattle.std.specs.Prelude.{◌≡◌, ◌-◌, length, take, List, ℕ, [], ◌∷◌, ◌++◌, OnOk, OnErr, MatchOption};
ghost use Rattle.std.specs.FinMap as map;
ghost use Rattle.hs_world.specs.Reads.{Fresh, IsNew, IsRead};
ghost use Rattle.hs_world.specs.declared.effect.Effect.{Effect};

use crate::effect::Effect;
use crate::loc::{Loc, Value};
use std::alloc::{AllocError, Global};
use std::collections::BTreeMap;
use std::marker::Model;

/// Effects in order.
#[derive(Clone, Drop)]
pub struct Effects {
    items: Vec<Effect>,
}

impl Model for Effects {
    ghost use Rattle.std.specs.Prelude.{List};
    ghost use Rattle.hs_world.specs.declared.effect.Effect.{Effect};
    ghost use Rattle.hs_world.specs.Files.{files_code};
    ghost use Rattle.std.specs.Coded.{codes};

    ghost Value = { List Effect };

    ghost coded = { Prim.hlevel (codes, files_code) };

    ghost view = { λ a. a.items.items };
}

impl Effects {
    pub fn new(alloc: Global) -> Effects
        ensures { result ≡ [] }
    {
        Effects {
            items: Vec::new(alloc),
        }
    }

    pub fn as_slice(&self) -> &[Effect]
        ensures { result.now ≡ self.now }
    {
        self.items.as_slice()
    }

    /// Takes the last effect away, if there is one.
    pub fn pop(&mut self)
        ensures { self.new ≡ take (length self.old - 1) self.old }
    {
        self.items.truncate(self.items.len().saturating_sub(1));
    }

    /// Puts an effect at the end. Where there is no memory, the list stays.
    pub fn push(&mut self, effect: Effect) -> Result<(), AllocError>
        ensures ok { OnOk result (self.new ≡ self.old ++ effect ∷ []) }
        ensures err { OnErr result (self.new ≡ self.old) }
    {
        self.items.push(effect)?;
        Ok(())
    }
}

/// The places of locations in a list. A look-up and an addition take O(log n) comparisons.
#[derive(Drop)]
struct Places {
    entries: BTreeMap<Loc, usize>,
}

impl Model for Places {
    ghost use Rattle.std.specs.Prelude.{ℕ};
    ghost use Rattle.std.specs.FinMap as map;
    ghost use Rattle.std.specs.Coded.{coded_ℕ};
    ghost use Rattle.hs_world.specs.Locs.{loc_cmp, loc_code};

    ghost Value = { map.FinMap loc_cmp ℕ };

    ghost coded = { map.code loc_code coded_ℕ };

    ghost view = { λ a. map.from_entries {R = loc_cmp} a.entries.entries };
}

impl Places {
    fn new(alloc: Global) -> Places
        ensures { result ≡ map.empty }
    {
        Places {
            entries: BTreeMap::new(alloc),
        }
    }

    fn get(&self, loc: &Loc) -> Option<usize>
        ensures { result ≡ map.get self.now loc.now }
    {
        match self.entries.get(loc) {
            Some(place) => Some(*place),
            None => None,
        }
    }

    fn insert(&mut self, loc: Loc, place: usize) -> Result<(), AllocError>
        ensures ok { OnOk result (self.new ≡ map.insert self.old loc place) }
        ensures err { OnErr result (self.new ≡ self.old) }
    {
        self.entries.insert(loc, place)?;
        Ok(())
    }
}

impl Clone for Places {
    ghost is_clone = { λ x y. y ≡ x };

    fn clone(&self) -> Result<Places, AllocError> {
        Ok(Places {
            entries: self.entries.clone()?,
        })
    }
}

/// Locations with the values that were read there, in order. No location stands twice.
#[derive(Drop)]
pub struct Reads {
    items: Vec<(Loc, Value)>,
    places: Places,
}

impl Model for Reads {
    ghost use Rattle.std.specs.Prelude.{List};
    ghost use Rattle.hs_world.specs.declared.loc.Loc.{Loc};
    ghost use Rattle.hs_world.specs.declared.loc.Value as value;
    ghost use Rattle.hs_world.specs.Reads.{ArePlaces};

    ghost Value = { List (Loc × value.Value) };

    ghost view = { λ a. a.items.items };

    ghost invariant = { λ a. ArePlaces a.items.items a.places };
}

impl Clone for Reads {
    ghost is_clone = { λ x y. y ≡ x };

    fn clone(&self) -> Result<Reads, AllocError> {
        Ok(Reads {
            items: self.items.clone()?,
            places: self.places.clone()?,
        })
    }
}

impl Reads {
    pub fn new(alloc: Global) -> Reads
        ensures { result ≡ [] }
    {
        Reads {
            items: Vec::new(alloc),
            places: Places::new(alloc),
        }
    }

    pub fn as_slice(&self) -> &[(Loc, Value)]
        ensures items { result.now ≡ self.now }
        ensures fresh { Fresh self.now }
    {
        let _places = &self.places;
        self.items.as_slice()
    }

    /// The value that was read at a location, if it was read. It takes O(log n) comparisons of locations.
    pub fn find(&self, loc: &Loc) -> Option<&Value>
        ensures { MatchOption result (IsNew loc.now self.now) (λ value. IsRead self.now loc.now value.now) }
    {
        match self.places.get(loc) {
            None => None,
            Some(place) => {
                let read = &self.items[place];
                Some(&read.1)
            }
        }
    }

    /// Puts a read at the end. Where there is no memory, the list stays.
    pub fn record(&mut self, loc: Loc, value: Value) -> Result<(), AllocError>
        requires new { IsNew loc self.old }
        ensures ok { OnOk result (self.new ≡ self.old ++ (loc, value) ∷ []) }
        ensures err { OnErr result (self.new ≡ self.old) }
    {
        let key = loc.clone()?;
        let place = self.items.len();
        self.items.push((loc, value))?;
        if let Err(failed) = self.places.insert(key, place) {
            self.items.truncate(place);
            return Err(failed);
        }
        Ok(())
    }
}
