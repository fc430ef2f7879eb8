//! Lines in which fixed strings occur (POSIX.1-2017, XCU, `grep`, `-F`).

ghost use Rattle.std.specs.Prelude.{◌≡◌, ◌++◌, IfOk, OnOk};
ghost use Rattle.std.specs.List.{list_any};
ghost use Rattle.util_lines.specs.FixedLines as spec;
ghost use Rattle.util_lines.specs.Splitting.{lines};

use crate::splitting::{split_line, write_line};
use hs_text::Text;
use itoa::Buffer;
use memchr::memmem;
use std::alloc::{AllocError, Global};

/// Which lines are selected, and what is written of them.
#[derive(Clone, Copy, Debug, PartialEq, Eq)]
pub struct Flags {
    /// The case of letters does not count.
    pub folds: bool,
    /// The lines that no pattern fits.
    pub inverts: bool,
    /// A pattern is the whole line.
    pub whole: bool,
    /// The count of lines, and not the lines.
    pub counts: bool,
    /// The numbers of lines too.
    pub numbers: bool,
    /// Nothing.
    pub quiet: bool,
}

/// Patterns, the lines of a text, and what is done with them. Where the case of letters does not count, they have small ones.
#[derive(Drop)]
pub struct Search {
    pub flags: Flags,
    pub patterns: Text,
}

/// Whether a fixed string occurs in a line.
fn occurs(pattern: &[u8], line: &[u8]) -> bool
    ensures { result ≡ spec.occurs pattern.now line.now }
{
    memmem::find(line, pattern).is_some()
}

fn fits(whole: bool, line: &[u8], pattern: &[u8]) -> bool
    ensures { result ≡ spec.fits whole line.now pattern.now }
{
    if whole {
        line == pattern
    } else {
        occurs(pattern, line)
    }
}

/// Whether one of the lines of a text fits.
fn line_fits(whole: bool, patterns: &[u8], line: &[u8]) -> bool
    ensures { result ≡ list_any (λ pattern. spec.fits whole line.now pattern) (lines patterns.now) }
{
    let mut rest = patterns;
    'patterns: while let Some((pattern, more)) = split_line(rest) {
        if fits(whole, line, pattern) {
            return true;
        }
        rest = more;
    }
    false
}

/// Whether one of the patterns fits.
fn one_fits(whole: bool, patterns: &[u8], line: &[u8]) -> bool
    ensures { result ≡ spec.one_fits whole patterns.now line.now }
{
    if patterns.is_empty() {
        return fits(whole, line, b"");
    }
    line_fits(whole, patterns, line)
}

/// The patterns that an operand has, folded where the case of letters does not count.
pub fn folded(alloc: Global, folds: bool, operand: &Text) -> Result<Text, AllocError>
    ensures { IfOk result (λ patterns. patterns ≡ spec.folded folds operand.now) }
{
    if !folds {
        return operand.clone();
    }
    let bytes = operand.as_slice().to_ascii_lowercase(alloc)?;
    Text::from_vec(alloc, bytes)
}

impl Search {
    fn finds(&self, alloc: Global, line: &[u8]) -> Result<bool, AllocError>
        ensures { IfOk result (λ found. found ≡ spec.one_fits self.now.flags.whole self.now.patterns (spec.folded self.now.flags.folds line.now)) }
    {
        let patterns = self.patterns.as_slice();
        if !self.flags.folds {
            return Ok(one_fits(self.flags.whole, patterns, line));
        }
        let folded = line.to_ascii_lowercase(alloc)?;
        Ok(one_fits(self.flags.whole, patterns, folded.as_slice()))
    }

    /// Whether a line is selected.
    fn selects(&self, alloc: Global, line: &[u8]) -> Result<bool, AllocError>
        ensures { IfOk result (λ selected. selected ≡ spec.selects self.now.flags self.now.patterns line.now) }
    {
        let found = self.finds(alloc, line)?;
        if self.flags.inverts {
            return Ok(!found);
        }
        Ok(found)
    }
}

/// Puts the number of a line at the end, where it is written.
fn write_number(out: &mut Vec<u8>, numbers: bool, number: usize) -> Result<(), AllocError>
    ensures { OnOk result (out.new.items ≡ out.old.items ++ spec.number_part numbers number) }
{
    if numbers {
        let mut buffer = Buffer::new();
        out.extend_from_slice(buffer.format(number).as_bytes())?;
        out.push(b':')?;
    }
    Ok(())
}

/// Puts a line at the end, behind what stands before each line.
fn write_selected(
    out: &mut Vec<u8>,
    flags: Flags,
    prefix: &[u8],
    number: usize,
    line: &[u8],
) -> Result<(), AllocError>
    ensures { OnOk result (out.new.items ≡ out.old.items ++ spec.line_written flags prefix.now number line.now) }
{
    out.extend_from_slice(prefix)?;
    write_number(out, flags.numbers, number)?;
    write_line(out, line)
}

/// Puts a line at the end where it is selected, and says whether it is.
fn write_where(
    alloc: Global,
    out: &mut Vec<u8>,
    search: &Search,
    prefix: &[u8],
    number: usize,
    line: &[u8],
) -> Result<bool, AllocError>
    ensures line { OnOk result (out.new.items ≡ out.old.items ++ spec.line_where (spec.selects search.now.flags search.now.patterns line.now) (spec.line_written search.now.flags prefix.now number line.now)) }
    ensures selected { IfOk result (λ selected. selected ≡ spec.selects search.now.flags search.now.patterns line.now) }
{
    let selected = search.selects(alloc, line)?;
    if selected {
        write_selected(out, search.flags, prefix, number, line)?;
    }
    Ok(selected)
}

/// Puts the selected lines at the end, and says whether there is one.
fn write_lines(
    alloc: Global,
    out: &mut Vec<u8>,
    search: &Search,
    prefix: &[u8],
    content: &[u8],
) -> Result<bool, AllocError>
    ensures lines { OnOk result (out.new.items ≡ out.old.items ++ spec.lines_from search.now.flags search.now.patterns prefix.now 1 (lines content.now)) }
    ensures any { IfOk result (λ any. any ≡ spec.has_selected search.now.flags search.now.patterns content.now) }
{
    let mut any = false;
    let mut number: usize = 0;
    let mut rest = content;
    'lines: while let Some((line, more)) = split_line(rest) {
        number += 1;
        let selected = write_where(alloc, out, search, prefix, number, line)?;
        any |= selected;
        rest = more;
    }
    Ok(any)
}

/// How many lines are selected.
fn count(alloc: Global, search: &Search, content: &[u8]) -> Result<usize, AllocError>
    ensures { IfOk result (λ count. count ≡ spec.count_of search.now.flags search.now.patterns content.now) }
{
    let mut count: usize = 0;
    let mut rest = content;
    'lines: while let Some((line, more)) = split_line(rest) {
        let selected = search.selects(alloc, line)?;
        count += usize::from(selected);
        rest = more;
    }
    Ok(count)
}

/// Puts a count at the end, behind what stands before it.
fn write_count(out: &mut Vec<u8>, prefix: &[u8], count: usize) -> Result<(), AllocError>
    ensures { OnOk result (out.new.items ≡ out.old.items ++ spec.count_written prefix.now count) }
{
    let mut buffer = Buffer::new();
    out.extend_from_slice(prefix)?;
    write_line(out, buffer.format(count).as_bytes())
}

/// Puts what is written of a content at the end, and says whether a line of it is selected.
pub fn write_report(
    alloc: Global,
    out: &mut Vec<u8>,
    search: &Search,
    prefix: &[u8],
    content: &[u8],
) -> Result<bool, AllocError>
    ensures report { OnOk result (out.new.items ≡ out.old.items ++ spec.report search.now.flags search.now.patterns prefix.now content.now) }
    ensures any { IfOk result (λ any. any ≡ spec.has_selected search.now.flags search.now.patterns content.now) }
{
    if search.flags.quiet {
        let count = count(alloc, search, content)?;
        return Ok(count > 0);
    }
    if search.flags.counts {
        let count = count(alloc, search, content)?;
        write_count(out, prefix, count)?;
        return Ok(count > 0);
    }
    write_lines(alloc, out, search, prefix, content)
}
