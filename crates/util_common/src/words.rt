//! The words of a utility.

ghost use Rattle.std.specs.Prelude.{◌≡◌, ℕ, IfOk};
ghost use Rattle.hs_view.specs.Acts.{Acts};
ghost use Rattle.hs_view.specs.Steps.{Done};
ghost use Rattle.hs_world.specs.World.{WorldData};
ghost use Rattle.util_common.specs.Operands.{or_input};
ghost use Rattle.util_common.specs.Words as spec;

use crate::emitting::refuse;
use crate::messages::Why;
use hs_text::{Text, TextList, copied};
use hs_view::{Base, Halt, View};
use std::alloc::{AllocError, Global};
use util_opts::{GivenList, OptErr, OptionTable, Options, read_options};

/// Why the words of a utility come to nothing.
#[derive(Clone, Copy, Debug, PartialEq, Eq)]
pub enum WordErr {
    Refused(Why),
    NoMemory,
}

impl From<AllocError> for WordErr {
    ghost use Rattle.std.specs.Prelude.{◌≡◌};
    ghost use Rattle.util_common.specs.declared.words.WordErr.TheVariants.{NoMemory};

    ghost from_gives = { λ _ e. e ≡ NoMemory };

    fn from(_: AllocError) -> WordErr {
        WordErr::NoMemory
    }
}

/// The options and operands, by a table of option bytes, each with whether it takes a value.
pub fn read_words(
    alloc: Global,
    entries: &[(u8, bool)],
    args: &TextList,
) -> Result<Options, WordErr>
    ensures { spec.Answers result (spec.words_of entries.now args.now) }
{
    let table = OptionTable::from_slice(alloc, entries)?;
    match read_options(alloc, &table, args) {
        Ok(options) => Ok(options),
        Err(OptErr::Unknown(byte)) => Err(WordErr::Refused(Why::UnknownOption(byte))),
        Err(OptErr::Missing(byte)) => Err(WordErr::Refused(Why::NeedsValue(byte))),
        Err(OptErr::NoMemory) => Err(WordErr::NoMemory),
    }
}

/// The operands, or `-` where there is none.
pub fn operands_or_input(alloc: Global, operands: TextList) -> Result<TextList, AllocError>
    ensures { IfOk result (λ words. words ≡ or_input operands) }
{
    if !operands.as_slice().is_empty() {
        return Ok(operands);
    }
    let mut words = operands;
    words.push(Text::from_slice(alloc, b"-")?)?;
    Ok(words)
}

/// The value of the last option with this byte.
pub fn value_of(given: &GivenList, byte: u8) -> Result<Option<Text>, AllocError>
    ensures { IfOk result (λ value. value ≡ spec.last_value byte given.now) }
{
    let mut found = None;
    for option in given.as_slice() {
        if option.0 == byte {
            found = copied(option.1.as_ref())?;
        }
    }
    Ok(found)
}

/// Whether an option with this byte was given.
pub fn is_given(given: &GivenList, byte: u8) -> bool
    ensures { result ≡ spec.is_given byte given.now }
{
    given.as_slice().iter().any(|option| option.0 == byte)
}

/// Writes why the words of a utility are refused, and answers 2.
pub fn refuse_words<B: Base>(
    alloc: Global,
    utility: &[u8],
    err: WordErr,
    view: &mut View<B>,
) -> Result<u8, Halt>
    ensures { (meaning : WorldData → Done ℕ) → spec.Blames err utility.now meaning → Acts B.seen meaning view.old view.new result }
{
    match err {
        WordErr::Refused(why) => refuse(alloc, utility, why, view),
        WordErr::NoMemory => Err(Halt::NoMemory),
    }
}
