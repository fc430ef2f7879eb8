//! Messages of utilities.

ghost use Rattle.std.specs.Prelude.{◌≡◌, ◌++◌, IfOk, OnOk};
ghost use Rattle.util_common.specs.Messages as spec;

use hs_text::Text;
use std::alloc::{AllocError, Global};

/// Why a utility refuses its words, or one of its operands.
#[derive(Clone, Copy, Debug, PartialEq, Eq)]
pub enum Why {
    NoSuchFile,
    IsFolder,
    OtherKind,
    BadName,
    NoSuchFolder,
    BadNumber,
    BadList,
    BadSet,
    BadFormat,
    BadExpression,
    UnknownOption(u8),
    NeedsValue(u8),
    /// Two options that may not stand together.
    Excluding,
    MissingOperand,
    ExtraOperand,
    /// Patterns that are not fixed strings.
    OnlyFixed,
}

/// Puts the cause at the end of a message.
fn push_why(text: &mut Text, why: Why) -> Result<(), AllocError>
    ensures { OnOk result (text.new ≡ text.old ++ spec.why_text why) }
{
    match why {
        Why::NoSuchFile => text.extend(b"no such file"),
        Why::IsFolder => text.extend(b"is a folder"),
        Why::OtherKind => text.extend(b"other kind"),
        Why::BadName => text.extend(b"bad name"),
        Why::NoSuchFolder => text.extend(b"no such folder"),
        Why::BadNumber => text.extend(b"bad number"),
        Why::BadList => text.extend(b"bad list"),
        Why::BadSet => text.extend(b"bad set"),
        Why::BadFormat => text.extend(b"bad format"),
        Why::BadExpression => text.extend(b"bad expression"),
        Why::UnknownOption(byte) => {
            text.extend(b"unknown option -")?;
            text.extend(&[byte])
        }
        Why::NeedsValue(byte) => {
            text.extend(b"option -")?;
            text.extend(&[byte])?;
            text.extend(b" needs a value")
        }
        Why::Excluding => text.extend(b"options exclude each other"),
        Why::MissingOperand => text.extend(b"missing operand"),
        Why::ExtraOperand => text.extend(b"extra operand"),
        Why::OnlyFixed => text.extend(b"only -F"),
    }
}

/// The line that names who is at fault, and why.
pub fn message(alloc: Global, who: &[u8], why: Why) -> Result<Text, AllocError>
    ensures { IfOk result (λ text. text ≡ spec.message who.now why) }
{
    let mut text = Text::from_slice(alloc, b"hs: ")?;
    text.extend(who)?;
    text.extend(b": ")?;
    push_why(&mut text, why)?;
    text.extend(b"\n")?;
    Ok(text)
}

/// The line that names a utility and one of its operands, and why that is refused.
pub fn message_on(
    alloc: Global,
    utility: &[u8],
    operand: &Text,
    why: Why,
) -> Result<Text, AllocError>
    ensures { IfOk result (λ text. text ≡ spec.message_on utility.now operand.now why) }
{
    let mut who = Text::from_slice(alloc, utility)?;
    who.extend(b": ")?;
    who.extend(operand.as_slice())?;
    message(alloc, who.as_slice(), why)
}
