//! How tokens are read.

ghost use Rattle.std.specs.Prelude.{◌≡◌, IfOk};
ghost use Rattle.sh_grammar.specs.Grammar as grammar;
ghost use Rattle.sh_grammar.specs.Machine as machine;

use sh_grammar::{Gap, Host};
use sh_lexer::{Here, Mode};
use sh_syntax::Word;
use sqlite_items::Items;
use std::alloc::AllocError;

pub fn copy_here(here: &Here) -> Result<Here, AllocError>
    ensures { IfOk result (λ copy. copy ≡ here.now) }
{
    Ok(Here {
        delimiter: here.delimiter.clone()?,
        strip: here.strip,
        quoted: here.quoted,
    })
}

pub fn copy_mode(mode: &Mode) -> Result<Mode, AllocError>
    ensures { IfOk result (λ copy. copy ≡ mode.now) }
{
    Ok(match mode {
        Mode::Command => Mode::Command,
        Mode::Prefix => Mode::Prefix,
        Mode::Arguments => Mode::Arguments,
        Mode::Pattern => Mode::Pattern,
        Mode::Word => Mode::Word,
        Mode::Quotes => Mode::Quotes,
        Mode::Braces(quoted) => Mode::Braces(*quoted),
        Mode::Arith(open) => Mode::Arith(*open),
        Mode::Body => Mode::Body,
        Mode::Delimiter => Mode::Delimiter,
        Mode::Cut(here) => Mode::Cut(copy_here(here)?),
    })
}

/// Assignments are recognised before the first word.
pub fn mode_before(words: &Items<Word>) -> Mode
    ensures { result ≡ grammar.mode_before words.now }
{
    if words.is_empty() {
        Mode::Prefix
    } else {
        Mode::Arguments
    }
}

/// After a redirection of this.
pub fn host_mode(host: &Host) -> Mode
    ensures { result ≡ machine.host_mode host.now }
{
    match host {
        Host::Simple(command) => mode_before(&command.words),
        Host::Compound(..) => Mode::Arguments,
    }
}

/// Where newlines may stand.
pub fn gap_mode(gap: &Gap) -> Mode
    ensures { result ≡ machine.gap_mode gap.now }
{
    match gap {
        Gap::Arms(_) => Mode::Pattern,
        _ => Mode::Command,
    }
}
