//! Character classes in bracket expressions (POSIX.1-2017, XBD 9.3.5), in their meaning for ASCII.

ghost use Rattle.std.specs.Prelude.{◌≡◌};
ghost use Rattle.sh_pattern.specs.Classes as spec;

use crate::item::ByteRange;

/// A byte, and whether it is quoted.
pub type Symbol = (u8, bool);

/// A class of bytes.
#[derive(Clone, Copy, Drop)]
pub enum Class {
    Alnum,
    Alpha,
    Blank,
    Cntrl,
    Digit,
    Graph,
    Lower,
    Print,
    Punct,
    Space,
    Upper,
    Xdigit,
}

const ALL: [Class; 12] = [
    Class::Alnum,
    Class::Alpha,
    Class::Blank,
    Class::Cntrl,
    Class::Digit,
    Class::Graph,
    Class::Lower,
    Class::Print,
    Class::Punct,
    Class::Space,
    Class::Upper,
    Class::Xdigit,
];

const CONTROL: ByteRange = ByteRange { low: 0, high: 31 };

const DELETE: ByteRange = ByteRange {
    low: 127,
    high: 127,
};

const TAB: ByteRange = ByteRange {
    low: b'\t',
    high: b'\t',
};

const SPACES: ByteRange = ByteRange {
    low: b'\t',
    high: b'\r',
};

const SPACE: ByteRange = ByteRange {
    low: b' ',
    high: b' ',
};

const PRINTED: ByteRange = ByteRange {
    low: b' ',
    high: b'~',
};

const GRAPHIC: ByteRange = ByteRange {
    low: b'!',
    high: b'~',
};

const BEFORE_DIGITS: ByteRange = ByteRange {
    low: b'!',
    high: b'/',
};

const DIGIT: ByteRange = ByteRange {
    low: b'0',
    high: b'9',
};

const BEFORE_UPPER: ByteRange = ByteRange {
    low: b':',
    high: b'@',
};

const UPPER: ByteRange = ByteRange {
    low: b'A',
    high: b'Z',
};

const HEX_UPPER: ByteRange = ByteRange {
    low: b'A',
    high: b'F',
};

const BEFORE_LOWER: ByteRange = ByteRange {
    low: b'[',
    high: b'`',
};

const LOWER: ByteRange = ByteRange {
    low: b'a',
    high: b'z',
};

const HEX_LOWER: ByteRange = ByteRange {
    low: b'a',
    high: b'f',
};

const BEHIND_LOWER: ByteRange = ByteRange {
    low: b'{',
    high: b'~',
};

impl Class {
    /// How the class is written, behind the opening bracket.
    pub fn written(self) -> &'static [u8]
        ensures { result.now ≡ spec.written self }
    {
        match self {
            Class::Alnum => b":alnum:]",
            Class::Alpha => b":alpha:]",
            Class::Blank => b":blank:]",
            Class::Cntrl => b":cntrl:]",
            Class::Digit => b":digit:]",
            Class::Graph => b":graph:]",
            Class::Lower => b":lower:]",
            Class::Print => b":print:]",
            Class::Punct => b":punct:]",
            Class::Space => b":space:]",
            Class::Upper => b":upper:]",
            Class::Xdigit => b":xdigit:]",
        }
    }

    /// The bytes of the class.
    pub fn ranges(self) -> &'static [ByteRange]
        ensures { result.now ≡ spec.class_ranges self }
    {
        match self {
            Class::Alnum => &[DIGIT, UPPER, LOWER],
            Class::Alpha => &[UPPER, LOWER],
            Class::Blank => &[TAB, SPACE],
            Class::Cntrl => &[CONTROL, DELETE],
            Class::Digit => &[DIGIT],
            Class::Graph => &[GRAPHIC],
            Class::Lower => &[LOWER],
            Class::Print => &[PRINTED],
            Class::Punct => &[BEFORE_DIGITS, BEFORE_UPPER, BEFORE_LOWER, BEHIND_LOWER],
            Class::Space => &[SPACES, SPACE],
            Class::Upper => &[UPPER],
            Class::Xdigit => &[DIGIT, HEX_UPPER, HEX_LOWER],
        }
    }

    /// The class that comes behind an opening bracket. It takes at most a step for each byte of the classes' names.
    #[tactic(auto, unfolding(crate::specs::Classes::class_at))]
    pub fn at(text: &[Symbol]) -> Option<Class>
        ensures { result ≡ spec.class_at text.now }
    {
        ALL.iter()
            .copied()
            .find(|class| begins(class.written(), text))
    }
}

/// Whether these bytes come first, none of them quoted.
fn begins(wanted: &[u8], text: &[Symbol]) -> bool
    ensures { result ≡ spec.begins wanted.now text.now }
{
    let mut left = wanted;
    let mut rest = text;
    'bytes: loop {
        let Some((byte, bytes)) = left.split_first() else {
            return true;
        };
        match rest.split_first() {
            Some((symbol, symbols)) if symbol.0 == *byte && !symbol.1 => {
                left = bytes;
                rest = symbols;
            }
            _ => return false,
        }
    }
}
