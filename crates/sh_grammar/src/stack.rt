//! A stack that contracts see as the list of its items, the top one first. Each call is amortised O(1), but for
//! `from_items`, which is linear.

ghost use Rattle.std.specs.Prelude.{◌≡◌, [], ◌∷◌, IfOk, MatchOption, OnErr, OnOk, length, slice_get};
ghost use Rattle.std.specs.Option.{option_copied};

use sqlite_items::Items;
use std::alloc::{AllocError, Global};
use std::marker::Model;

#[derive(Drop)]
pub struct Stack<T> {
    items: Items<T>,
}

impl<T> Model for Stack<T> {
    ghost use Rattle.std.specs.Prelude.{List, reverse};
    ghost use Rattle.std.specs.Coded.{coded_list};

    ghost Value = { List T };

    ghost coded = { coded_list T.code };

    ghost view = { λ s. reverse s.items };
}

impl<T> Stack<T> {
    pub fn new(alloc: Global) -> Stack<T>
        ensures { result ≡ [] }
    {
        Stack {
            items: Items::new(alloc),
        }
    }

    /// Takes the top one away.
    pub fn pop(&mut self) -> Option<T>
        ensures { MatchOption result ((self.old ≡ []) × (self.new ≡ [])) (λ x. self.old ≡ x ∷ self.new) }
    {
        self.items.pop()
    }

    pub fn len(&self) -> usize
        ensures { result ≡ length self.now }
    {
        self.items.len()
    }

    /// The one that has so many others on top of it.
    pub fn get(&self, depth: usize) -> Option<&T>
        ensures { option_copied result ≡ slice_get self.now depth }
    {
        let items = self.items.as_slice();
        if depth < items.len() {
            Some(&items[items.len() - 1 - depth])
        } else {
            None
        }
    }
}

impl<T: Drop> Stack<T> {
    /// Puts one on top. Where there is no memory, the stack stays.
    pub fn push(&mut self, x: T) -> Result<(), AllocError>
        ensures ok { OnOk result (self.new ≡ x ∷ self.old) }
        ensures err { OnErr result (self.new ≡ self.old) }
    {
        self.items.push(x)
    }

    /// The items, the first one on top.
    pub fn from_items(alloc: Global, items: Items<T>) -> Result<Stack<T>, AllocError>
        ensures { IfOk result (λ stack. stack ≡ items) }
    {
        let mut left = items;
        let mut stack = Stack::new(alloc);
        while let Some(last) = left.pop() {
            stack.push(last)?;
        }
        Ok(stack)
    }
}
