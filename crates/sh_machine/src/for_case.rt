//! The rest of `for` and `case` (POSIX.1-2017, XCU 2.9.4.2 and 2.9.4.3).

ghost use Rattle.std.specs.Prelude.{◌≡◌, ◌<◌, ◌^◌, Ok, length};
ghost use Rattle.sh_grammar.specs.Machine as machine;
ghost use Rattle.sh_machine.specs.Steps.{Steps, CanGoOn};

use crate::draft::next_list;
use crate::gap::after_for;
use crate::lists::open_list;
use crate::names::is_name;
use crate::newline::newline;
use crate::parts::parts;
use crate::rest::Rest;
use hs_text::Text;
use sh_grammar::{Below, Case, Gap, Now};
use sh_lexer::{Bit, End, Mode, Op, Token};
use sh_syntax::Word;
use sqlite_items::Items;
use std::alloc::{AllocError, Global};

fn for_bit(rest: &Rest, bit: Bit) -> Option<Now>
    ensures { Steps (Ok result) rest.now (machine.for_bit rest.now.below rest.now.room rest.now.script bit) }
{
    match bit {
        Bit::Piece(name) => {
            if !is_name(name.as_slice()) {
                return None;
            }
            Some(Now::ForName(name))
        }
        _ => None,
    }
}

/// After `for`.
pub fn for_name(rest: &Rest, token: Token) -> Option<Now>
    ensures { Steps (Ok result) rest.now (machine.for_name rest.now.below rest.now.room rest.now.script token) }
{
    match token {
        Token::Part(bit) => for_bit(rest, bit),
        _ => None,
    }
}

fn named_op(alloc: Global, name: Text, rest: &mut Rest, op: Op) -> Result<Option<Now>, AllocError>
    requires { length rest.old.script.script.lists < 2 ^ 32 }
    ensures { Steps result rest.new (machine.named_op name rest.old.below rest.old.room rest.old.script op) }
{
    match op {
        Op::Semi => Ok(Some(Now::Gap(Gap::Do(name, None)))),
        _ => after_for(alloc, name, rest, op),
    }
}

fn named_end(
    alloc: Global,
    name: Text,
    rest: &mut Rest,
    mode: Mode,
    end: End,
) -> Result<Option<Now>, AllocError>
    ensures { Steps result rest.new (machine.named_end name rest.old.below rest.old.room rest.old.script mode end) }
{
    match end {
        End::Newline => newline(alloc, Gap::For(name), rest, &mode),
        _ => Ok(None),
    }
}

/// After the name of a `for`.
pub fn for_named(
    alloc: Global,
    name: Text,
    rest: &mut Rest,
    token: Token,
) -> Result<Option<Now>, AllocError>
    requires { length rest.old.script.script.lists < 2 ^ 32 }
    ensures { Steps result rest.new (machine.for_named name rest.old.below rest.old.room rest.old.script token) }
{
    match token {
        Token::Operator(op) => named_op(alloc, name, rest, op),
        Token::End(end, mode) => named_end(alloc, name, rest, mode, end),
        _ => Ok(None),
    }
}

fn for_op(name: Text, words: Items<Word>, rest: &Rest, op: Op) -> Option<Now>
    ensures { Steps (Ok result) rest.now (machine.for_op name words rest.now.below rest.now.room rest.now.script op) }
{
    match op {
        Op::Semi => Some(Now::Gap(Gap::Do(name, Some(words)))),
        _ => None,
    }
}

fn for_end(
    alloc: Global,
    name: Text,
    words: Items<Word>,
    rest: &mut Rest,
    mode: Mode,
    end: End,
) -> Result<Option<Now>, AllocError>
    ensures { Steps result rest.new (machine.for_end name words rest.old.below rest.old.room rest.old.script mode end) }
{
    match end {
        End::Newline => newline(alloc, Gap::Do(name, Some(words)), rest, &mode),
        _ => Ok(None),
    }
}

/// After the `in` of a `for`, between words.
pub fn for_words(
    alloc: Global,
    name: Text,
    words: Items<Word>,
    rest: &mut Rest,
    token: Token,
) -> Result<Option<Now>, AllocError>
    requires { CanGoOn rest.old }
    ensures { Steps result rest.new (machine.for_words name words rest.old.below rest.old.room rest.old.script token) }
{
    match token {
        Token::Operator(op) => Ok(for_op(name, words, rest, op)),
        Token::End(end, mode) => for_end(alloc, name, words, rest, mode, end),
        _ => {
            rest.below.push(Below::ForWord(name, words))?;
            parts(alloc, Items::new(alloc), rest, token)
        }
    }
}

/// After a pattern.
pub fn patterns_op(
    alloc: Global,
    case: Case,
    words: Items<Word>,
    rest: &mut Rest,
    op: Op,
) -> Result<Option<Now>, AllocError>
    requires { length rest.old.script.script.lists < 2 ^ 32 }
    ensures { Steps result rest.new (machine.patterns_op case words rest.old.below rest.old.room rest.old.script op) }
{
    match op {
        Op::PipePattern => {
            rest.below.push(Below::Pattern(case, words))?;
            Ok(Some(Now::Parts(Items::new(alloc))))
        }
        Op::Close => {
            let list = next_list(&rest.script);
            Ok(Some(open_list(alloc, Below::Arm(case, words, list), rest)?))
        }
        _ => Ok(None),
    }
}
