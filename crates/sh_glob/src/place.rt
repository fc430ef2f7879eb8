//! Places that components of a field reach.

ghost use Rattle.std.specs.Prelude.{◌≡◌, [], ◌∷◌, ◌++◌, IfOk, OnOk, OnErr};
ghost use Rattle.sh_glob.specs.Texts.{in_order, texts};

use hs_text::{Text, TextList};
use hs_world::PathName;
use std::alloc::{AllocError, Global};
use std::collections::BTreeSet;
use std::marker::Model;

/// A place in the tree: the text so far, as the field writes it, and the path that it names.
#[derive(Drop)]
pub struct Place {
    pub text: Text,
    pub at: PathName,
}

/// A list of places.
#[derive(Drop)]
pub struct Places {
    items: Vec<Place>,
}

impl Model for Places {
    ghost use Rattle.std.specs.Prelude.{List};
    ghost use Rattle.sh_glob.specs.declared.place.Place.{Place};

    ghost Value = { List Place };

    ghost view = { λ p. p.items.items };
}

impl Places {
    pub fn new(alloc: Global) -> Places
        ensures { result ≡ [] }
    {
        Places {
            items: Vec::new(alloc),
        }
    }

    pub fn as_slice(&self) -> &[Place]
        ensures { result.now ≡ self.now }
    {
        self.items.as_slice()
    }

    /// Puts a place at the end. Where there is no memory, the list stays.
    pub fn push(&mut self, place: Place) -> Result<(), AllocError>
        ensures ok { OnOk result (self.new ≡ self.old ++ place ∷ []) }
        ensures err { OnErr result (self.new ≡ self.old) }
    {
        self.items.push(place)?;
        Ok(())
    }

    /// The texts of the places, sorted by bytes, each once.
    pub fn into_texts(self, alloc: Global) -> Result<TextList, AllocError>
        ensures { IfOk result (λ list. list ≡ in_order (texts self)) }
    {
        let mut sorted = BTreeSet::new(alloc);
        for place in self.items {
            let Place { text, at: _ } = place;
            sorted.insert(text)?;
        }
        list_of(alloc, sorted)
    }
}

fn list_of(alloc: Global, texts: BTreeSet<Text>) -> Result<TextList, AllocError>
    ensures { IfOk result (λ list. list ≡ texts.keys) }
{
    let mut list = TextList::new(alloc);
    for text in texts {
        list.push(text)?;
    }
    Ok(list)
}
