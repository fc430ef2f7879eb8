//! Newlines, and the bodies of here-documents that come after them (POSIX.1-2017, XCU 2.7.4).

ghost use Rattle.std.specs.Prelude.{◌≡◌, ◌<◌, length};
ghost use Rattle.sh_grammar.specs.Draft.{cut_mode};
ghost use Rattle.sh_grammar.specs.Machine as machine;
ghost use Rattle.sh_grammar.specs.Tests as tests;
ghost use Rattle.sh_machine.specs.Steps.{Steps};
ghost use Rattle.sh_lexer.specs.declared.token.Mode.TheVariants.{Cut};

use crate::compare::{same_here, same_mode};
use crate::draft::end_here;
use crate::modes::gap_mode;
use crate::rest::Rest;
use sh_grammar::{Below, Due, Gap, Now, Stack};
use sh_lexer::{Mode, Token};
use sh_syntax::Part;
use sqlite_items::Items;
use std::alloc::{AllocError, Global};
use std::mem;

/// Whether the text of this here-document is read in the mode.
fn cuts(due: &Due, mode: &Mode) -> bool
    ensures { result ≡ tests.same_mode (Cut due.now.here) mode.now }
{
    match mode {
        Mode::Cut(here) => same_here(&due.here, here),
        _ => false,
    }
}

/// Whether the next token is read in the mode, where the bodies that are due come before what stands in the gap.
pub fn reads_due(due: &Stack<Due>, gap: &Gap, mode: &Mode) -> bool
    ensures { result ≡ tests.same_mode (cut_mode (machine.gap_mode gap.now) due.now) mode.now }
{
    match due.get(0) {
        None => same_mode(&gap_mode(gap), mode),
        Some(first) => cuts(first, mode),
    }
}

/// What comes next, before the rest of the gap.
pub fn next_due(mut due: Stack<Due>, gap: Gap) -> Now
    ensures { result ≡ machine.next_due due gap }
{
    match due.pop() {
        None => Now::Gap(gap),
        Some(first) => Now::Due(first, due, gap),
    }
}

/// A newline, after which the next token is read in the mode.
pub fn newline(
    alloc: Global,
    gap: Gap,
    rest: &mut Rest,
    mode: &Mode,
) -> Result<Option<Now>, AllocError>
    ensures { Steps result rest.new (machine.newline gap rest.old.below rest.old.room rest.old.script mode.now) }
{
    let due = Stack::from_items(alloc, mem::replace(&mut rest.script.due, Items::new(alloc)))?;
    if !reads_due(&due, &gap, mode) {
        return Ok(None);
    }
    Ok(Some(next_due(due, gap)))
}

/// A token where a body comes next.
pub fn due(
    alloc: Global,
    first: Due,
    due: Stack<Due>,
    gap: Gap,
    rest: &mut Rest,
    token: Token,
) -> Result<Option<Now>, AllocError>
    requires { first.number < length rest.old.script.heres }
    ensures { Steps result rest.new (machine.due first due gap rest.old.below rest.old.room rest.old.script token) }
{
    match token {
        Token::Verbatim(text, mode) => {
            if !reads_due(&due, &gap, &mode) {
                return Ok(None);
            }
            end_here(alloc, first.number, Part::Single(text), &mut rest.script)?;
            Ok(Some(next_due(due, gap)))
        }
        Token::Body => {
            rest.below.push(Below::Body(first.number, due, gap))?;
            Ok(Some(Now::Parts(Items::new(alloc))))
        }
        _ => Ok(None),
    }
}
