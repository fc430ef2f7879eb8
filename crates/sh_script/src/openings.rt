//! What is open in the tokens of a script, and which opening a text blames that ends too early. Tokens are numbered from 0 on.

ghost use Rattle.std.specs.Prelude.{◌≡◌, ◌<◌, ◌^◌, ◌++◌, [], None, IfOk, OnOk};
ghost use Rattle.sh_script.specs.Openings as spec;

use sh_grammar::Stack;
use sh_lexer::{End, Opener, Token};
use sh_syntax::{Fault, Opening};
use sqlite_items::Items;
use std::alloc::{AllocError, Global};

/// What was opened and is not closed.
#[derive(Clone, Copy, Drop)]
pub enum Mark {
    /// An opening of a word, and the number of its token.
    Opened(Opening, usize),
    /// The body of a here-document.
    Body,
}

/// What a token changes.
#[derive(Clone, Copy, Drop)]
pub enum Change {
    Opens(Opening),
    Closes,
    /// A text that was cut out ends.
    EndsText,
    Newline,
    /// `<<` or `<<-`.
    Operator,
    Delimiter,
    Body,
    Verbatim,
    Nothing,
}

/// How a text stops to be one that begins a script.
#[derive(Clone, Copy, Drop)]
pub enum Stop {
    /// By a token that is not taken.
    Refused,
    /// By the end of a text that was cut out.
    EndOfText,
    /// By bytes that are no token.
    Bad(Fault),
    /// By its end.
    End,
}

/// What is open after some tokens.
#[derive(Drop)]
pub struct Openings {
    /// How many tokens there are.
    count: usize,
    /// What was opened in words and is not closed, the last one on top.
    marks: Stack<Mark>,
    /// The number of the last `<<` or `<<-`.
    operator: usize,
    /// The operators of here-documents whose bodies come after the next newline.
    due: Items<usize>,
    /// Those whose bodies come next, the first one on top.
    coming: Stack<usize>,
}

fn opening_of(opener: &Opener) -> Opening
    ensures { result ≡ spec.opening_of opener.now }
{
    match opener {
        Opener::Double => Opening::Double,
        Opener::Braces { .. } => Opening::Braces,
        Opener::Command => Opening::Command,
        Opener::Arith => Opening::Arith,
        Opener::Backquote => Opening::Backquote,
    }
}

fn end_change(end: End) -> Change
    ensures { result ≡ spec.end_change end }
{
    match end {
        End::Word => Change::Nothing,
        End::Newline => Change::Newline,
        End::Text => Change::EndsText,
        End::Quote | End::Brace | End::Arith | End::List => Change::Closes,
    }
}

/// What a token changes.
pub fn change_of(token: &Token) -> Change
    ensures { result ≡ spec.change_of token.now }
{
    match token {
        Token::Open(opener, _) => Change::Opens(opening_of(opener)),
        Token::End(end, _) => end_change(*end),
        Token::Here(..) => Change::Operator,
        Token::Delimiter(..) => Change::Delimiter,
        Token::Body => Change::Body,
        Token::Verbatim(..) => Change::Verbatim,
        Token::Operator(_) | Token::Part(_) | Token::Param(..) => Change::Nothing,
        Token::Assign(_) | Token::Redirect(..) | Token::Function(_) => Change::Nothing,
    }
}

/// The greater number.
fn later(found: Option<usize>, number: usize) -> usize
    ensures { result ≡ spec.later found number }
{
    match found {
        Some(other) => { if other < number { number } else { other } }
        None => number,
    }
}

/// The greatest number.
fn latest(numbers: Stack<usize>) -> Option<usize>
    ensures { result ≡ spec.latest None numbers }
{
    let mut left = numbers;
    let mut found = None;
    'numbers: while let Some(number) = left.pop() {
        found = Some(later(found, number));
    }
    found
}

/// Moves the numbers onto the stack, the first one on top.
fn move_onto(numbers: &mut Items<usize>, stack: &mut Stack<usize>) -> Result<(), AllocError>
    ensures numbers { OnOk result (numbers.new ≡ []) }
    ensures stack { OnOk result (stack.new ≡ numbers.old ++ stack.old) }
{
    'numbers: while let Some(number) = numbers.pop() {
        stack.push(number)?;
    }
    Ok(())
}

/// What was opened in a text that was cut out, where it ends.
pub fn inner(top: Option<(Opening, usize)>) -> Option<(Opening, usize)>
    ensures { result ≡ spec.inner top }
{
    match top {
        None => None,
        Some((opening, number)) => match opening {
            Opening::Backquote => None,
            _ => Some((opening, number)),
        },
    }
}

/// Takes the first one away, where there is one.
fn drop_first<T: Drop>(stack: &mut Stack<T>)
    ensures { stack.new ≡ spec.rest_of stack.old }
{
    match stack.pop() {
        Some(_) => {}
        None => {}
    }
}

impl Openings {
    pub fn new(alloc: Global) -> Openings
        ensures { result ≡ spec.none_open }
    {
        Openings {
            count: 0,
            marks: Stack::new(alloc),
            operator: 0,
            due: Items::new(alloc),
            coming: Stack::new(alloc),
        }
    }

    /// How many tokens there are.
    pub fn count(&self) -> usize
        ensures { result ≡ self.now.count }
    {
        self.count
    }

    fn changed(&mut self, change: Change) -> Result<(), AllocError>
        ensures { OnOk result (self.new ≡ spec.changed change self.old) }
    {
        match change {
            Change::Opens(opening) => {
                let number = self.count;
                self.marks.push(Mark::Opened(opening, number))
            }
            Change::Closes | Change::EndsText => {
                drop_first(&mut self.marks);
                Ok(())
            }
            Change::Newline => move_onto(&mut self.due, &mut self.coming),
            Change::Operator => {
                self.operator = self.count;
                Ok(())
            }
            Change::Delimiter => {
                let number = self.operator;
                self.due.push(number)
            }
            Change::Body => {
                drop_first(&mut self.coming);
                self.marks.push(Mark::Body)
            }
            Change::Verbatim => {
                drop_first(&mut self.coming);
                Ok(())
            }
            Change::Nothing => Ok(()),
        }
    }

    /// After one more token.
    pub fn after(mut self, change: Change) -> Result<Openings, AllocError>
        requires { self.count < 2 ^ 32 }
        ensures { IfOk result (λ after. after ≡ spec.counted (spec.changed change self)) }
    {
        self.changed(change)?;
        self.count += 1;
        Ok(self)
    }

    /// What was opened last in a word and is not closed.
    pub fn top(&self) -> Option<(Opening, usize)>
        ensures { result ≡ spec.top self.now.marks }
    {
        match self.marks.get(0) {
            Some(Mark::Opened(opening, number)) => Some((*opening, *number)),
            Some(Mark::Body) => None,
            None => None,
        }
    }

    /// The last operator of a here-document whose body has not come.
    pub fn last_here(self) -> Result<Option<usize>, AllocError>
        ensures { IfOk result (λ number. number ≡ spec.last_here self) }
    {
        let Openings {
            mut due,
            mut coming,
            ..
        } = self;
        move_onto(&mut due, &mut coming)?;
        Ok(latest(coming))
    }
}
