//! A pattern, which contracts see as the list of its items.

ghost use Rattle.std.specs.Prelude.{◌≡◌};

use crate::item::Item;
use std::marker::Model;

/// A pattern.
#[derive(Drop)]
pub struct Pattern {
    items: Vec<Item>,
}

impl Model for Pattern {
    ghost use Rattle.std.specs.Prelude.{List};
    ghost use Rattle.sh_pattern.specs.declared.item.Item.{Item};

    ghost Value = { List Item };

    ghost view = { λ p. p.items.items };
}

impl Pattern {
    pub fn new(items: Vec<Item>) -> Pattern
        ensures { result ≡ items.items }
    {
        Pattern { items }
    }

    pub fn items(&self) -> &[Item]
        ensures { result.now ≡ self.now }
    {
        self.items.as_slice()
    }
}
