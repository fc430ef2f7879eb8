//! A list of texts that contracts see as one. Adding at the end is amortised O(1).

ghost use Rattle.std.specs.Prelude.{◌≡◌, ◌↔◌, List, ℕ, [], ◌∷◌, ◌++◌, OnOk, OnErr, length, take, ◌-◌, IsTrue, Some, nat_eq, refl};
ghost use Rattle.std.specs.Cmp.{partial_equiv_from_equiv};
ghost use Rattle.std.specs.Cmp.Lexicographic.{pointwise, slice_cmp, lists_equiv, lists_total, lists_ties, nat_list_eq_equiv, nat_list_cmp_total, texts_ties};
ghost use Rattle.hs_text.specs.Order.{name_cmp, path_cmp, paths_po};

use crate::text::Text;
use std::alloc::{AllocError, Global};
use std::cmp::Ordering;
use std::marker::Model;

/// A list of texts.
#[derive(Drop)]
pub struct TextList {
    items: Vec<Text>,
}

impl Model for TextList {
    ghost use Rattle.std.specs.Prelude.{List, ℕ};

    ghost Value = { List (List ℕ) };

    ghost view = { λ a. a.items.items };
}

impl TextList {
    pub fn new(alloc: Global) -> TextList
        ensures { result ≡ [] }
    {
        TextList {
            items: Vec::new(alloc),
        }
    }

    pub fn as_slice(&self) -> &[Text]
        ensures { result.now ≡ self.now }
    {
        self.items.as_slice()
    }

    /// Takes the last text away, if there is one.
    pub fn pop(&mut self)
        ensures { self.new ≡ take (length self.old - 1) self.old }
    {
        self.items.truncate(self.items.len().saturating_sub(1));
    }

    /// Whether the two are equal.
    pub fn same(&self, other: &TextList) -> bool
        ensures { IsTrue result ↔ (self.now ≡ other.now) }
    {
        self.as_slice() == other.as_slice()
    }

    /// Puts a text at the end. Where there is no memory, the list stays.
    pub fn push(&mut self, text: Text) -> Result<(), AllocError>
        ensures ok { OnOk result (self.new ≡ self.old ++ text ∷ []) }
        ensures err { OnErr result (self.new ≡ self.old) }
    {
        self.items.push(text)?;
        Ok(())
    }
}

impl Clone for TextList {
    ghost is_clone = { λ x y. y ≡ x };

    fn clone(&self) -> Result<TextList, AllocError> {
        Ok(TextList {
            items: self.items.clone()?,
        })
    }
}

impl PartialEq for TextList {
    ghost eq = { pointwise (pointwise nat_eq) };

    ghost laws = { partial_equiv_from_equiv (lists_equiv nat_list_eq_equiv) };

    fn eq(&self, other: &TextList) -> bool {
        self.as_slice() == other.as_slice()
    }
}

impl Eq for TextList {
    ghost laws = { lists_equiv nat_list_eq_equiv };
}

impl PartialOrd for TextList {
    ghost partial_cmp = { λ x y. Some (path_cmp x y) };

    ghost laws = { paths_po };

    fn partial_cmp(&self, other: &TextList) -> Option<Ordering> {
        Some(self.cmp(other))
    }
}

impl Ord for TextList {
    ghost cmp = { path_cmp };

    ghost total = { lists_total nat_list_cmp_total };

    ghost matches_partial_cmp = { λ x y. refl };

    ghost matches_eq = { lists_ties name_cmp texts_ties };

    fn cmp(&self, other: &TextList) -> Ordering {
        self.as_slice().cmp(other.as_slice())
    }
}
