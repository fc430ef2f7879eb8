//! Character classes (POSIX.1-2017, XBD 7.3.1), in the POSIX locale.

ghost use Rattle.std.specs.Prelude.{◌≡◌, ◌≤◌, length, IfSome};
ghost use Rattle.util_lines.specs.ByteClass as spec;

/// A class of bytes.
#[derive(Clone, Copy, Debug, PartialEq, Eq)]
pub enum Class {
    Alnum,
    Alpha,
    Blank,
    Cntrl,
    Digit,
    Graph,
    Lower,
    Print,
    Punct,
    Space,
    Upper,
    Xdigit,
}

const ALL: [Class; 12] = [
    Class::Alnum,
    Class::Alpha,
    Class::Blank,
    Class::Cntrl,
    Class::Digit,
    Class::Graph,
    Class::Lower,
    Class::Print,
    Class::Punct,
    Class::Space,
    Class::Upper,
    Class::Xdigit,
];

impl Class {
    /// How the class is written, behind an opening bracket.
    pub fn written(self) -> &'static [u8]
        ensures { result.now ≡ spec.written self }
    {
        match self {
            Class::Alnum => b":alnum:]",
            Class::Alpha => b":alpha:]",
            Class::Blank => b":blank:]",
            Class::Cntrl => b":cntrl:]",
            Class::Digit => b":digit:]",
            Class::Graph => b":graph:]",
            Class::Lower => b":lower:]",
            Class::Print => b":print:]",
            Class::Punct => b":punct:]",
            Class::Space => b":space:]",
            Class::Upper => b":upper:]",
            Class::Xdigit => b":xdigit:]",
        }
    }

    /// Whether the class has the byte.
    pub fn has(self, byte: u8) -> bool
        ensures { result ≡ spec.has_byte self byte }
    {
        match self {
            Class::Alnum => byte.is_ascii_alphanumeric(),
            Class::Alpha => byte.is_ascii_alphabetic(),
            Class::Blank => byte == b'\t' || byte == b' ',
            Class::Cntrl => byte.is_ascii_control(),
            Class::Digit => byte.is_ascii_digit(),
            Class::Graph => byte.is_ascii_graphic(),
            Class::Lower => byte.is_ascii_lowercase(),
            Class::Print => byte.is_ascii_graphic() || byte == b' ',
            Class::Punct => byte.is_ascii_punctuation(),
            Class::Space => byte.is_ascii_whitespace() || byte == 11,
            Class::Upper => byte.is_ascii_uppercase(),
            Class::Xdigit => byte.is_ascii_hexdigit(),
        }
    }

    /// The class that comes behind an opening bracket. It takes at most a step for each byte of the classes' names.
    #[tactic(auto, unfolding(crate::specs::ByteClass::class_at))]
    pub fn at(text: &[u8]) -> Option<Class>
        ensures class { result ≡ spec.class_at text.now }
    {
        ALL.iter()
            .copied()
            .find(|class| text.starts_with(class.written()))
    }
}
