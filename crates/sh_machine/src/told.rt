//! Which of the tokens that a seen one may be is taken in a state. It changes nothing, and takes time and memory only for
//! what it answers: at most a pipeline and a function stand between two lists.

ghost use Rattle.std.specs.Prelude.{◌≡◌, IfOk, Some};
ghost use Rattle.std.specs.Option.{option_copied};
ghost use Rattle.sh_grammar.specs.Draft as draft;
ghost use Rattle.sh_grammar.specs.Machine as machine;
ghost use Rattle.sh_grammar.specs.Told as spec;
ghost use Rattle.sh_lexer.specs.declared.token.End.TheVariants as end_of;
ghost use Rattle.sh_machine.specs.Enclosing as enclosing;

use crate::modes::{copy_here, copy_mode, gap_mode, host_mode};
use sh_grammar::{Below, Due, Gap, Now, Stack};
use sh_lexer::{End, Mode, Op, Token};
use sqlite_items::Items;
use std::alloc::AllocError;

/// How what comes next is read, where the bodies come first.
fn cut_mode(mode: Mode, due: &Items<Due>) -> Result<Mode, AllocError>
    ensures { IfOk result (λ m. m ≡ draft.cut_mode mode due.now) }
{
    match due.get(0) {
        None => Ok(mode),
        Some(first) => Ok(Mode::Cut(copy_here(&first.here)?)),
    }
}

/// The same before the rest of the gap.
fn due_mode(due: &Stack<Due>, gap: &Gap) -> Result<Mode, AllocError>
    ensures { IfOk result (λ m. m ≡ draft.cut_mode (machine.gap_mode gap.now) due.now) }
{
    match due.get(0) {
        None => Ok(gap_mode(gap)),
        Some(first) => Ok(Mode::Cut(copy_here(&first.here)?)),
    }
}

/// Whether this stands in the list that is being read.
fn in_list(frame: &Below) -> bool
    ensures { result ≡ enclosing.in_list frame.now }
{
    matches!(frame, Below::Pipe(_) | Below::Function(..))
}

/// What the innermost list was opened for.
fn list_frame(below: &Stack<Below>) -> Option<&Below>
    ensures { option_copied result ≡ enclosing.list_frame below.now }
{
    for depth in 0..below.len() {
        match below.get(depth) {
            Some(frame) => {
                if !in_list(frame) {
                    return Some(frame);
                }
            }
            None => return None,
        }
    }
    None
}

fn mode_in(frame: &Below) -> Result<Mode, AllocError>
    ensures { IfOk result (λ m. m ≡ enclosing.mode_in (Some frame.now)) }
{
    match frame {
        Below::Command(_, mode, _) => copy_mode(mode),
        Below::Backquote(_, mode, _) => copy_mode(mode),
        _ => Ok(Mode::Command),
    }
}

/// How a word goes on after the list that is being read.
#[tactic(auto, using(crate::proofs::Enclosed::mode_frame))]
fn list_mode(below: &Stack<Below>) -> Result<Mode, AllocError>
    ensures { IfOk result (λ m. m ≡ spec.list_mode below.now) }
{
    match list_frame(below) {
        None => Ok(Mode::Command),
        Some(frame) => mode_in(frame),
    }
}

/// How the next token is read after the parts that are being read.
fn parts_mode(frame: &Below) -> Result<Mode, AllocError>
    ensures { IfOk result (λ m. m ≡ spec.parts_mode frame.now) }
{
    match frame {
        Below::Argument(_) => Ok(Mode::Arguments),
        Below::Assign(..) => Ok(Mode::Prefix),
        Below::Redirect(_, _, host) => Ok(host_mode(host)),
        Below::ForWord(..) => Ok(Mode::Arguments),
        Below::Pattern(..) => Ok(Mode::Arguments),
        Below::Double(_, mode) => copy_mode(mode),
        Below::Braces(_, _, _, _, mode) => copy_mode(mode),
        Below::Arith(_, mode) => copy_mode(mode),
        Below::Body(_, due, gap) => due_mode(due, gap),
        _ => Ok(Mode::Command),
    }
}

fn top_mode(below: &Stack<Below>) -> Result<Mode, AllocError>
    ensures { IfOk result (λ m. m ≡ spec.top_mode below.now) }
{
    match below.get(0) {
        None => Ok(Mode::Command),
        Some(frame) => parts_mode(frame),
    }
}

/// The mode of a newline, before bodies.
fn newline_mode(now: &Now) -> Mode
    ensures { result ≡ spec.newline_mode now.now }
{
    match now {
        Now::Gap(gap) => gap_mode(gap),
        _ => Mode::Command,
    }
}

fn other_end_mode(now: &Now, below: &Stack<Below>) -> Result<Mode, AllocError>
    ensures { IfOk result (λ m. m ≡ spec.other_end_mode now.now below.now) }
{
    match now {
        Now::Parts(_) => top_mode(below),
        _ => list_mode(below),
    }
}

fn word_end_mode(now: &Now, below: &Stack<Below>, due: &Items<Due>) -> Result<Mode, AllocError>
    ensures { IfOk result (λ m. m ≡ spec.end_mode now.now below.now due.now end_of.Word) }
{
    match now {
        Now::ForName(_) => Ok(Mode::Command),
        _ => other_end_mode(now, below),
    }
}

/// The mode after an end.
fn end_mode(now: &Now, below: &Stack<Below>, due: &Items<Due>, end: End) -> Result<Mode, AllocError>
    ensures { IfOk result (λ m. m ≡ spec.end_mode now.now below.now due.now end) }
{
    match end {
        End::Newline => cut_mode(newline_mode(now), due),
        End::Word => word_end_mode(now, below, due),
        _ => other_end_mode(now, below),
    }
}

fn body_mode(now: &Now) -> Result<Mode, AllocError>
    ensures { IfOk result (λ m. m ≡ spec.due_mode now.now) }
{
    match now {
        Now::Due(_, due, gap) => due_mode(due, gap),
        _ => Ok(Mode::Command),
    }
}

fn delimiter_mode(now: &Now) -> Mode
    ensures { result ≡ spec.delimiter_mode now.now }
{
    match now {
        Now::Delimiter(_, _, host) => host_mode(host),
        _ => Mode::Command,
    }
}

fn close_in(frame: &Below) -> Result<Token, AllocError>
    ensures { IfOk result (λ t. t ≡ enclosing.close_in (Some frame.now)) }
{
    match frame {
        Below::Command(_, mode, _) => Ok(Token::End(End::List, copy_mode(mode)?)),
        _ => Ok(Token::Operator(Op::Close)),
    }
}

/// What a `)` ends.
#[tactic(auto, using(crate::proofs::Enclosed::close_frame))]
fn list_close(below: &Stack<Below>) -> Result<Token, AllocError>
    ensures { IfOk result (λ t. t ≡ spec.list_close below.now) }
{
    match list_frame(below) {
        None => Ok(Token::Operator(Op::Close)),
        Some(frame) => close_in(frame),
    }
}

fn close(now: &Now, below: &Stack<Below>) -> Result<Token, AllocError>
    ensures { IfOk result (λ t. t ≡ spec.close now.now below.now) }
{
    match now {
        Now::Named(_) => Ok(Token::Operator(Op::Close)),
        Now::Patterns(..) => Ok(Token::Operator(Op::Close)),
        _ => list_close(below),
    }
}

fn open_op(now: &Now) -> Op
    ensures { result ≡ spec.open_op now.now }
{
    match now {
        Now::Gap(Gap::Arms(_)) => Op::OpenPattern,
        _ => Op::Open,
    }
}

fn pipe_op(now: &Now) -> Op
    ensures { result ≡ spec.pipe_op now.now }
{
    match now {
        Now::Patterns(..) => Op::PipePattern,
        _ => Op::Pipe,
    }
}

fn in_op(now: &Now) -> Op
    ensures { result ≡ spec.in_op now.now }
{
    match now {
        Now::Gap(Gap::In(_)) => Op::CaseIn,
        _ => Op::In,
    }
}

fn told_op(now: &Now, below: &Stack<Below>, op: Op) -> Result<Token, AllocError>
    ensures { IfOk result (λ t. t ≡ spec.told_op now.now below.now op) }
{
    match op {
        Op::Close => close(now, below),
        Op::Open => Ok(Token::Operator(open_op(now))),
        Op::Pipe => Ok(Token::Operator(pipe_op(now))),
        Op::In => Ok(Token::Operator(in_op(now))),
        _ => Ok(Token::Operator(op)),
    }
}

/// The token as it is taken after `now`.
pub fn told(
    now: &Now,
    below: &Stack<Below>,
    due: &Items<Due>,
    token: Token,
) -> Result<Token, AllocError>
    ensures { IfOk result (λ t. t ≡ spec.told now.now below.now due.now token) }
{
    match token {
        Token::Operator(op) => told_op(now, below, op),
        Token::End(end, _) => Ok(Token::End(end, end_mode(now, below, due, end)?)),
        Token::Delimiter(text, quoted, _) => {
            Ok(Token::Delimiter(text, quoted, delimiter_mode(now)))
        }
        Token::Verbatim(text, _) => Ok(Token::Verbatim(text, body_mode(now)?)),
        _ => Ok(token),
    }
}
