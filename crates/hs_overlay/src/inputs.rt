//! What effects make of the texts of standard input.

ghost use Rattle.std.specs.Prelude.{◌≡◌, ◌∷◌, ◌-◌, Some, length, drop, reverse, option_copied, OnOk};
ghost use Rattle.hs_overlay.specs.Inputs.{inputs_returned, input_of, no_inputs, with_held, with_input};
ghost use Rattle.hs_overlay.specs.Stacks.{pushed_set};

use hs_text::Text;
use std::alloc::{AllocError, Global};
use std::marker::Model;

/// The texts that the effects pushed, the innermost last, and the one in place of the base's innermost.
#[derive(Drop)]
pub struct Inputs {
    pushed: Vec<Text>,
    base: Option<Text>,
}

impl Model for Inputs {
    ghost use Rattle.std.specs.Prelude.{reverse};
    ghost use Rattle.hs_overlay.specs.Inputs.{InputsData};

    ghost Value = { InputsData };

    ghost view = { λ a. record { pushed = reverse a.pushed.items; base = a.base } };
}

impl Inputs {
    pub fn new(alloc: Global) -> Inputs
        ensures { result ≡ no_inputs }
    {
        Inputs {
            pushed: Vec::new(alloc),
            base: None,
        }
    }

    /// The innermost text, where it is not the base's own.
    pub fn top(&self) -> Option<&Text>
        ensures { option_copied result ≡ input_of self.now }
    {
        match self.pushed.last() {
            Some(text) => Some(text),
            None => self.base.as_ref(),
        }
    }

    /// How many texts the effects pushed.
    pub fn depth(&self) -> usize
        ensures { result ≡ length self.now.pushed }
    {
        self.pushed.len()
    }

    /// Replaces the innermost text.
    pub fn set(&mut self, text: Text)
        ensures { self.new ≡ with_input text self.old }
    {
        if self.pushed.is_empty() {
            self.base = Some(text);
            return;
        }
        set_last(self.pushed.as_mut_slice(), text);
    }

    pub fn push(&mut self, text: Text) -> Result<(), AllocError>
        ensures { OnOk result (self.new ≡ record self.old { pushed = text ∷ self.old.pushed }) }
    {
        self.pushed.push(text)?;
        Ok(())
    }

    pub fn pop(&mut self)
        ensures { self.new ≡ record self.old { pushed = drop 1 self.old.pushed } }
    {
        if let Some(text) = self.pushed.pop() {
            let _ = text;
        }
    }

    /// The innermost text goes back, or the base's own where none was pushed.
    fn restore(&mut self, old: Option<Text>)
        ensures { self.new ≡ with_held old self.old }
    {
        match old {
            Some(text) => self.set(text),
            None => {
                if self.pushed.is_empty() {
                    self.base = None;
                }
            }
        }
    }

    /// Takes texts away down to a depth, and gives the one that is held back where the stack has that depth.
    pub fn give_back(&mut self, inputs: usize, held: Option<Option<Text>>)
        ensures { self.new ≡ inputs_returned inputs held self.old }
    {
        let stands = inputs <= self.pushed.len();
        self.keep(inputs);
        if stands {
            if let Some(old) = held {
                self.restore(old);
            }
        }
    }

    /// Takes texts away until no more than so many stand.
    fn keep(&mut self, inputs: usize)
        ensures { self.new ≡ record self.old { pushed = drop (length self.old.pushed - inputs) self.old.pushed } }
    {
        self.pushed.truncate(inputs);
    }
}

/// Replaces the innermost text, the last one.
fn set_last(pushed: &mut [Text], text: Text)
    ensures { reverse pushed.new ≡ pushed_set text (reverse pushed.old) }
{
    match pushed.split_last_mut() {
        None => {}
        Some((last, _below)) => put(last, text),
    }
}

fn put(text: &mut Text, by: Text)
    ensures { text.new ≡ by }
{
    *text = by;
}
