//! Field splitting.

ghost use Rattle.std.specs.Prelude.{◌≡◌, IfOk, option_copied};
ghost use Rattle.sh_split.specs.Fields as spec;

use crate::mark::{Mark, Marked};
use crate::separators::separators;
use crate::splitter::Splitter;
use hs_text::{Field, Fields};
use std::alloc::{AllocError, Global};

/// A byte of a field as a mark.
fn mark_of(symbol: (u8, bool)) -> Mark
    ensures { result ≡ spec.mark_of symbol }
{
    if symbol.1 {
        Mark::Quoted(symbol.0)
    } else {
        Mark::Expanded(symbol.0)
    }
}

fn fields_of_marks(alloc: Global, marks: &[Mark], ifs: Option<&[u8]>) -> Result<Fields, AllocError>
    ensures { IfOk result (λ fields. fields ≡ spec.fields_of (option_copied ifs.entry) marks.now) }
{
    let table = separators(ifs);
    let mut splitter = Splitter::new(alloc);
    for mark in marks {
        splitter.take(&table, *mark)?;
    }
    splitter.finish()
}

fn fields_of_symbols(
    alloc: Global,
    symbols: &[(u8, bool)],
    ifs: Option<&[u8]>,
) -> Result<Fields, AllocError>
    ensures { IfOk result (λ fields. fields ≡ spec.split (option_copied ifs.entry) symbols.now) }
{
    let table = separators(ifs);
    let mut splitter = Splitter::new(alloc);
    for symbol in symbols {
        splitter.take(&table, mark_of(*symbol))?;
    }
    splitter.finish()
}

/// Splits what the expansions left of a word into fields (POSIX.1-2017, XCU 2.6.5). `ifs` is the value of IFS, and None where
/// it is unset.
///
/// White space of IFS is dropped at both ends, and a run of it delimits. Each other byte of IFS delimits with the white space
/// beside it; at the end it ends the field before it and begins none. A null IFS splits nothing. Only bytes that an expansion
/// gave delimit. Nothing at all is no field, but quotes are, also round nothing.
///
/// It takes time linear in the marks and in IFS.
pub fn split_marked(
    alloc: Global,
    marked: &Marked,
    ifs: Option<&[u8]>,
) -> Result<Fields, AllocError>
    ensures { IfOk result (λ fields. fields ≡ spec.fields_of (option_copied ifs.entry) marked.now) }
{
    fields_of_marks(alloc, marked.as_slice(), ifs)
}

/// The same of a field each of whose unquoted bytes an expansion gave. Quotes round nothing cannot be told of a field, so an
/// empty one gives no field.
pub fn split(alloc: Global, field: &Field, ifs: Option<&[u8]>) -> Result<Fields, AllocError>
    ensures { IfOk result (λ fields. fields ≡ spec.split (option_copied ifs.entry) field.now) }
{
    fields_of_symbols(alloc, field.as_slice(), ifs)
}
