//! The fault of a text that spells no script, and its line. A line is found by reading the text once more; that is done three
//! times at most.

ghost use Rattle.std.specs.Prelude.{◌≡◌, ◌≤◌, ◌+◌, IfOk, length};
ghost use Rattle.sh_script.specs.Longest.{longest};
ghost use Rattle.sh_script.specs.Openings as spec;
ghost use Rattle.sh_script.specs.Readings.{IsFault, Refuses};
ghost use Rattle.sh_script.specs.Turns.{line_again};

use crate::error::ParseErr;
use crate::openings::{Openings, Stop, inner};
use crate::reading::look_at;
use hs_text::Text;
use sh_syntax::{Fault, Opening};
use std::alloc::{AllocError, Global};

/// The line of a token of a text.
fn line_of(alloc: Global, text: &Text, number: usize) -> Result<u32, AllocError>
    requires { length text.now ≤ longest }
    ensures { IfOk result (λ line. line ≡ line_again text.now number) }
{
    let (line, _) = look_at(alloc, text.clone()?, false, number)?;
    Ok(line as u32)
}

/// Of an opening and a here-document without its end the last one.
fn last_opened(
    alloc: Global,
    text: &Text,
    here: Option<usize>,
    top: Option<(Opening, usize)>,
) -> Result<Option<(Opening, usize)>, AllocError>
    requires { length text.now ≤ longest }
    ensures { IfOk result (λ last. last ≡ spec.last_opened (line_again text.now) here top) }
{
    let Some(operator) = here else {
        return Ok(top);
    };
    let Some((opening, number)) = top else {
        return Ok(Some((Opening::Here, operator)));
    };
    let here_line = line_of(alloc, text, operator)?;
    let line = line_of(alloc, text, number)?;
    if here_line < line {
        Ok(Some((opening, number)))
    } else {
        Ok(Some((Opening::Here, operator)))
    }
}

fn blamed_on(count: usize, last: Option<(Opening, usize)>) -> (Fault, usize)
    ensures { result ≡ spec.blamed_on count last }
{
    match last {
        None => (Fault::Unexpected, count),
        Some((opening, number)) => (Fault::Unclosed(opening), number),
    }
}

/// Where a text ends before what was opened is closed.
fn blamed_last(
    alloc: Global,
    text: &Text,
    openings: Openings,
    top: Option<(Opening, usize)>,
) -> Result<(Fault, usize), AllocError>
    requires { length text.now ≤ longest }
    ensures { IfOk result (λ fault. fault ≡ spec.blamed_on openings.count (spec.last_opened (line_again text.now) (spec.last_here openings) top)) }
{
    let count = openings.count();
    let here = openings.last_here()?;
    let last = last_opened(alloc, text, here, top)?;
    Ok(blamed_on(count, last))
}

/// What is blamed where an opening stays open that is a token by itself.
fn unclosed(openings: &Openings, opening: Opening) -> Option<(Opening, usize)>
    ensures { result ≡ spec.unclosed openings.now opening }
{
    match opening {
        Opening::Backquote | Opening::Here => openings.top(),
        Opening::Single | Opening::Double | Opening::Braces | Opening::Command | Opening::Arith => {
            Some((opening, openings.count()))
        }
    }
}

/// What is blamed for bytes that are no token.
fn bad_fault(
    alloc: Global,
    text: &Text,
    openings: Openings,
    fault: Fault,
) -> Result<(Fault, usize), AllocError>
    requires { length text.now ≤ longest }
    ensures { IfOk result (λ named. named ≡ spec.bad_fault (line_again text.now) openings fault) }
{
    match fault {
        Fault::Unclosed(opening) => {
            let top = unclosed(&openings, opening);
            blamed_last(alloc, text, openings, top)
        }
        Fault::Nul | Fault::TooDeep | Fault::Unexpected | Fault::BadParameter | Fault::TooLong => {
            Ok((fault, openings.count()))
        }
    }
}

/// What is blamed at the end of a text that was cut out.
fn in_text(alloc: Global, text: &Text, openings: Openings) -> Result<(Fault, usize), AllocError>
    requires { length text.now ≤ longest }
    ensures { IfOk result (λ named. named ≡ spec.in_text (line_again text.now) openings (spec.inner (spec.top openings.marks))) }
{
    match inner(openings.top()) {
        None => Ok((Fault::Unexpected, openings.count())),
        Some(open) => blamed_last(alloc, text, openings, Some(open)),
    }
}

/// The fault, and the number of the token on whose line it is.
fn blamed(
    alloc: Global,
    text: &Text,
    openings: Openings,
    stop: Stop,
) -> Result<(Fault, usize), AllocError>
    requires { length text.now ≤ longest }
    ensures { IfOk result (λ named. named ≡ spec.blamed (line_again text.now) openings stop) }
{
    match stop {
        Stop::Refused => Ok((Fault::Unexpected, openings.count())),
        Stop::EndOfText => in_text(alloc, text, openings),
        Stop::Bad(fault) => bad_fault(alloc, text, openings, fault),
        Stop::End => {
            let top = openings.top();
            blamed_last(alloc, text, openings, top)
        }
    }
}

/// The fault with its line.
pub fn named(
    alloc: Global,
    text: &Text,
    openings: Openings,
    stop: Stop,
) -> Result<ParseErr, AllocError>
    requires { length text.now ≤ longest }
    ensures { IfOk result (λ error. IsFault error text.now openings stop) }
{
    let (fault, number) = blamed(alloc, text, openings, stop)?;
    let line = line_of(alloc, text, number)?;
    Ok(ParseErr::Syntax { line, fault })
}

/// The fault where no token is taken. One that is taken with room for one more opening is too deep.
pub fn refused(
    alloc: Global,
    text: &Text,
    openings: Openings,
    stop: Stop,
) -> Result<ParseErr, AllocError>
    requires { length text.now ≤ longest }
    ensures { IfOk result (λ error. Refuses error text.now openings stop) }
{
    let (line, taken) = look_at(alloc, text.clone()?, true, openings.count())?;
    if taken {
        return Ok(ParseErr::Syntax {
            line: line as u32,
            fault: Fault::TooDeep,
        });
    }
    named(alloc, text, openings, stop)
}
