//! Values of parameters (POSIX.1-2017, XCU 2.5 and 2.6.2).

ghost use Rattle.std.specs.Prelude.{◌≡◌, ◌++◌, IfOk, OnOk, option_copied};
ghost use Rattle.sh_param.specs.Values as spec;

use crate::mode::Mode;
use crate::piece::Pieces;
use hs_text::{Text, TextList};
use itoa::Buffer;
use std::alloc::{AllocError, Global};

/// The value of a parameter.
#[derive(Drop)]
pub enum ParamValue {
    Unset,
    One(Text),
    /// The positional parameters, as `@` or as `*`.
    Each { star: bool, texts: TextList },
}

fn all_empty(texts: &[Text]) -> bool
    ensures { result ≡ spec.all_empty texts.now }
{
    for text in texts {
        if !text.as_slice().is_empty() {
            return false;
        }
    }
    true
}

/// A number in decimal digits.
pub fn digits(alloc: Global, number: u64) -> Result<Text, AllocError>
    ensures { IfOk result (λ text. text ≡ spec.digits number) }
{
    let mut buffer = Buffer::new();
    Text::from_slice(alloc, buffer.format(number).as_bytes())
}

/// What stands between the positional parameters where they are joined: a space for `@`, and for `*` the first byte of
/// IFS, nothing where it is null, and a space where it is unset.
pub fn separator(star: bool, ifs: Option<&[u8]>) -> &[u8]
    ensures { result.now ≡ spec.separator star (option_copied ifs.entry) }
{
    match ifs {
        Some(bytes) if star => { if bytes.is_empty() { bytes } else { &bytes[..1] } }
        _ => b" ",
    }
}

/// The texts with a separator between two.
pub fn joined(alloc: Global, separator: &[u8], texts: &[Text]) -> Result<Text, AllocError>
    ensures { IfOk result (λ text. text ≡ spec.joined separator.now texts.now) }
{
    let mut all = Text::new(alloc);
    let mut first = true;
    for text in texts {
        if !first {
            all.extend(separator)?;
        }
        first = false;
        all.extend(text.as_slice())?;
    }
    Ok(all)
}

impl ParamValue {
    /// Whether it counts as unset, or with a colon as null.
    pub fn is_absent(&self, colon: bool) -> bool
        ensures { result ≡ spec.is_absent colon self.now }
    {
        match self {
            ParamValue::Unset => true,
            ParamValue::One(text) => colon && text.as_slice().is_empty(),
            ParamValue::Each { star: _, texts } => colon && all_empty(texts.as_slice()),
        }
    }

    /// How many bytes it has.
    pub fn size(&self, alloc: Global) -> Result<Text, AllocError>
        ensures { IfOk result (λ text. text ≡ spec.size_text self.now) }
    {
        match self {
            ParamValue::Unset => digits(alloc, 0),
            ParamValue::One(text) => digits(alloc, text.len() as u64),
            ParamValue::Each { star: _, texts } => digits(alloc, texts.as_slice().len() as u64),
        }
    }

    /// Whether IFS tells how it is joined.
    pub fn needs_ifs(&self, mode: Mode) -> bool
        ensures { result ≡ spec.needs_ifs mode self.now }
    {
        match self {
            ParamValue::Unset => false,
            ParamValue::One(_) => false,
            ParamValue::Each { star, texts: _ } => *star && (mode.quoted || !mode.splits),
        }
    }
}

impl Pieces {
    /// Puts the field of a positional parameter at the end: within quotes there is one also where it is empty.
    fn field_of(&mut self, mode: Mode, text: &[u8]) -> Result<(), AllocError>
        ensures { OnOk result (self.new ≡ self.old ++ spec.field_pieces mode text.now) }
    {
        if mode.quoted {
            self.quotes()?;
        }
        self.expand(mode, text)
    }

    /// Puts a field for each positional parameter at the end.
    fn each(&mut self, mode: Mode, texts: &[Text]) -> Result<(), AllocError>
        ensures { OnOk result (self.new ≡ self.old ++ spec.each_pieces mode texts.now) }
    {
        let mut first = true;
        for text in texts {
            if !first {
                self.end()?;
            }
            first = false;
            self.field_of(mode, text.as_slice())?;
        }
        Ok(())
    }

    /// Puts the positional parameters at the end as one text.
    fn joined(
        &mut self,
        alloc: Global,
        mode: Mode,
        separator: &[u8],
        texts: &[Text],
    ) -> Result<(), AllocError>
        ensures { OnOk result (self.new ≡ self.old ++ spec.joined_pieces mode separator.now texts.now) }
    {
        let text = joined(alloc, separator, texts)?;
        self.expand(mode, text.as_slice())
    }

    /// Puts a value at the end.
    pub fn value(
        &mut self,
        alloc: Global,
        mode: Mode,
        ifs: Option<&[u8]>,
        value: &ParamValue,
    ) -> Result<(), AllocError>
        ensures { OnOk result (self.new ≡ self.old ++ spec.pieces_of mode (option_copied ifs.entry) value.now) }
    {
        match value {
            ParamValue::Unset => Ok(()),
            ParamValue::One(text) => self.expand(mode, text.as_slice()),
            ParamValue::Each { star, texts } => {
                if mode.splits && !(*star && mode.quoted) {
                    self.each(mode, texts.as_slice())
                } else {
                    self.joined(alloc, mode, separator(*star, ifs), texts.as_slice())
                }
            }
        }
    }
}
