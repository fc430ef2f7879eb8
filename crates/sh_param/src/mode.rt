//! Where a part of a word stands, and what that makes of its bytes.

ghost use Rattle.std.specs.Prelude.{◌≡◌};
ghost use Rattle.sh_param.specs.Modes as spec;

use sh_split::Mark;

/// What words are expanded for.
#[derive(Clone, Copy, Debug, PartialEq, Eq)]
pub enum Context {
    /// The words of a command, which are split into fields.
    Command,
    /// The value of an assignment.
    Assign,
    /// The word of a redirection.
    Redirect,
    /// A pattern.
    Pattern,
    /// A here-document.
    Here,
}

/// Where a part of a word stands.
#[derive(Clone, Copy, Debug, PartialEq, Eq)]
pub struct Mode {
    /// Within double quotes, or in a text that is expanded as if it were.
    pub quoted: bool,
    /// Not in the word of a parameter expansion, where unquoted bytes count as expanded.
    pub written: bool,
    /// A tilde may stand behind a colon too.
    pub colons: bool,
    /// The result is split into fields.
    pub splits: bool,
    /// What `$?` gives.
    pub status: u8,
}

impl Mode {
    /// The mode of a whole word.
    pub fn of(context: Context, status: u8) -> Mode
        ensures { result ≡ spec.mode_of context status }
    {
        Mode {
            quoted: false,
            written: true,
            colons: context == Context::Assign,
            splits: context == Context::Command,
            status,
        }
    }

    /// Within double quotes.
    pub fn quoted(self) -> Mode
        ensures { result ≡ spec.quoted self }
    {
        Mode {
            quoted: true,
            written: self.written,
            colons: false,
            splits: self.splits,
            status: self.status,
        }
    }

    /// In the word of a parameter expansion that takes the place of a value.
    pub fn operand(self) -> Mode
        ensures { result ≡ spec.operand self }
    {
        Mode {
            quoted: self.quoted,
            written: false,
            colons: self.colons,
            splits: self.splits,
            status: self.status,
        }
    }

    /// In a word that becomes one text.
    pub fn text(self) -> Mode
        ensures { result ≡ spec.text self }
    {
        Mode {
            quoted: self.quoted,
            written: false,
            colons: self.colons,
            splits: false,
            status: self.status,
        }
    }

    /// In a pattern that is removed from a value.
    pub fn pattern(self) -> Mode
        ensures { result ≡ spec.pattern self }
    {
        Mode {
            quoted: false,
            written: false,
            colons: false,
            splits: false,
            status: self.status,
        }
    }

    /// In an arithmetic expression.
    pub fn sum(self) -> Mode
        ensures { result ≡ spec.sum self }
    {
        Mode {
            quoted: true,
            written: false,
            colons: false,
            splits: false,
            status: self.status,
        }
    }

    /// A byte that an expansion gave.
    pub fn expanded(self, byte: u8) -> Mark
        ensures { result ≡ spec.expanded self byte }
    {
        if self.quoted {
            Mark::Quoted(byte)
        } else {
            Mark::Expanded(byte)
        }
    }

    /// A byte that stands for itself.
    pub fn literal(self, byte: u8) -> Mark
        ensures { result ≡ spec.literal self byte }
    {
        if self.quoted {
            Mark::Quoted(byte)
        } else if self.written {
            Mark::Written(byte)
        } else {
            Mark::Expanded(byte)
        }
    }
}
