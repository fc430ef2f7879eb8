//! What the expansions leave of a word, before field splitting (POSIX.1-2017, XCU 2.6).

ghost use Rattle.std.specs.Prelude.{◌≡◌, [], ◌∷◌, ◌++◌, OnOk, OnErr};

use std::alloc::{AllocError, Global};
use std::marker::Model;

/// A byte and what it came from, or a pair of quotes.
#[derive(Clone, Copy, Debug, PartialEq, Eq)]
pub enum Mark {
    /// An unquoted byte that a parameter, command or arithmetic expansion gave. It delimits fields, where it is in IFS.
    Expanded(u8),
    /// An unquoted byte that was written in the word. It delimits nothing, and may be a pattern's.
    Written(u8),
    /// A quoted byte, or one of a tilde's value.
    Quoted(u8),
    /// Quotes, or a tilde: there is a field also where nothing stands in them.
    Quotes,
}

/// A list of marks. Adding at the end is amortised O(1).
#[derive(Drop)]
pub struct Marked {
    items: Vec<Mark>,
}

impl Model for Marked {
    ghost use Rattle.std.specs.Prelude.{List};
    ghost use Rattle.sh_split.specs.declared.mark.Mark.{Mark};

    ghost Value = { List Mark };

    ghost view = { λ a. a.items.items };
}

impl Marked {
    pub fn new(alloc: Global) -> Marked
        ensures { result ≡ [] }
    {
        Marked {
            items: Vec::new(alloc),
        }
    }

    pub fn as_slice(&self) -> &[Mark]
        ensures { result.now ≡ self.now }
    {
        self.items.as_slice()
    }

    /// Puts a mark at the end. Where there is no memory, the list stays.
    pub fn push(&mut self, mark: Mark) -> Result<(), AllocError>
        ensures ok { OnOk result (self.new ≡ self.old ++ mark ∷ []) }
        ensures err { OnErr result (self.new ≡ self.old) }
    {
        self.items.push(mark)?;
        Ok(())
    }
}

impl Clone for Marked {
    ghost is_clone = { λ x y. y ≡ x };

    fn clone(&self) -> Result<Marked, AllocError> {
        Ok(Marked {
            items: self.items.clone()?,
        })
    }
}
