//! Runs of equal lines (POSIX.1-2017, XCU, `uniq`).

ghost use Rattle.std.specs.Prelude.{◌≡◌, ◌≤◌, ◌+◌, ◌∷◌, ◌++◌, decimal, length, IfOk, OnOk};
ghost use Rattle.util_lines.specs.Runs as spec;
ghost use Rattle.util_lines.specs.Splitting.{lines};

use crate::splitting::{split_line, write_line};
use itoa::Buffer;
use std::alloc::{AllocError, Global};

/// What is written for a run of equal lines.
#[derive(Clone, Copy, Debug, PartialEq, Eq)]
pub enum Mode {
    /// Its line.
    All,
    /// How many lines it has, and its line.
    Counted,
    /// Its line, where it has several.
    Repeated,
    /// Its line, where it has but one.
    Single,
}

fn is_same(a: &[u8], b: &[u8]) -> bool
    ensures { result ≡ spec.is_same a.now b.now }
{
    a == b
}

/// How many lines of the text come first and are this line, which stands before them and counts too, and the text behind them.
fn split_run<'a>(line: &[u8], text: &'a [u8]) -> (usize, &'a [u8])
    ensures run { spec.behind line.now (spec.runs (lines text.now)) ≡ spec.run_of result.0 line.now ∷ spec.runs (lines result.1.now) }
    ensures within { length result.1.now ≤ length text.now }
{
    let mut count: usize = 1;
    let mut rest = text;
    'lines: while let Some((next, more)) = split_line(rest) {
        if !is_same(line, next) {
            break;
        }
        count += 1;
        rest = more;
    }
    (count, rest)
}

/// Puts a count, a space and a line at the end.
fn write_counted(out: &mut Vec<u8>, count: usize, line: &[u8]) -> Result<(), AllocError>
    ensures { OnOk result (out.new.items ≡ out.old.items ++ spec.shown Mode.Counted (spec.run_of count line.now)) }
{
    let mut buffer = Buffer::new();
    out.extend_from_slice(buffer.format(count).as_bytes())?;
    out.push(b' ')?;
    write_line(out, line)
}

/// Puts what is written for a run at the end.
fn write_run(out: &mut Vec<u8>, mode: Mode, count: usize, line: &[u8]) -> Result<(), AllocError>
    ensures { OnOk result (out.new.items ≡ out.old.items ++ spec.shown mode (spec.run_of count line.now)) }
{
    match mode {
        Mode::All => write_line(out, line),
        Mode::Counted => write_counted(out, count, line),
        Mode::Repeated if 1 < count => write_line(out, line),
        Mode::Single if count == 1 => write_line(out, line),
        _ => Ok(()),
    }
}

/// The runs of a text, as they are written, in one pass.
pub fn write_runs(alloc: Global, mode: Mode, text: &[u8]) -> Result<Vec<u8>, AllocError>
    ensures { IfOk result (λ out. out.items ≡ spec.uniq mode text.now) }
{
    let mut out = Vec::new(alloc);
    let mut rest = text;
    'runs: while let Some((line, more)) = split_line(rest) {
        let (count, behind) = split_run(line, more);
        write_run(&mut out, mode, count, line)?;
        rest = behind;
    }
    Ok(out)
}
