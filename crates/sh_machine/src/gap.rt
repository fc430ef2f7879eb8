//! Places where newlines may stand, and where commands begin (POSIX.1-2017, XCU 2.9.2 to 2.9.5 and 2.10).

ghost use Rattle.std.specs.Prelude.{◌≡◌, ◌<◌, ◌^◌, Ok, OnOk, [], ◌∷◌, length};
ghost use Rattle.sh_grammar.specs.Draft as draft;
ghost use Rattle.sh_grammar.specs.Grammar as grammar;
ghost use Rattle.sh_grammar.specs.Machine as machine;
ghost use Rattle.sh_grammar.specs.declared.state.Below.TheVariants as below;
ghost use Rattle.sh_grammar.specs.declared.state.Gap.TheVariants as gap_of;
ghost use Rattle.sh_grammar.specs.declared.state.Now.TheVariants as now;
ghost use Rattle.sh_lexer.specs.declared.token.Op.TheVariants as op_of;
ghost use Rattle.sh_lexer.specs.declared.token.Token.TheVariants as token_of;
ghost use Rattle.sh_machine.specs.Steps.{Steps, CanGoOn, IsReady};

use crate::command::element;
use crate::compare::{ends_list, is_op};
use crate::draft::{begin_body, begin_leaf, next_body, next_leaf, next_list};
use crate::lists::{case_command, list_ended, open_list};
use crate::newline::newline;
use crate::parts::parts;
use crate::rest::Rest;
use hs_text::Text;
use sh_grammar::{Below, Case, Gap, Now, Pipe, Simple};
use sh_lexer::{End, Op, Token};
use sh_syntax::{AndOr, Join, Word};
use sqlite_items::Items;
use std::alloc::{AllocError, Global};

fn no_simple(alloc: Global) -> Simple
    ensures { result ≡ grammar.no_simple }
{
    Simple {
        assigns: Items::new(alloc),
        words: Items::new(alloc),
        redirs: Items::new(alloc),
    }
}

/// Something is opened whose first list begins at once.
fn open_first(alloc: Global, frame: Below, rest: &mut Rest) -> Result<Option<Now>, AllocError>
    ensures { Steps result rest.new (machine.opened rest.old.room (λ room. machine.at (now.Gap (gap_of.Begin [])) (frame ∷ rest.old.below) room (draft.begin_list rest.old.script))) }
{
    if rest.room == 0 {
        return Ok(None);
    }
    rest.room -= 1;
    Ok(Some(open_list(alloc, frame, rest)?))
}

fn open_for(rest: &mut Rest) -> Option<Now>
    ensures { Steps (Ok result) rest.new (machine.open_compound rest.old.below rest.old.room rest.old.script op_of.For) }
{
    if rest.room == 0 {
        return None;
    }
    rest.room -= 1;
    Some(Now::For)
}

fn open_case(alloc: Global, rest: &mut Rest) -> Result<Option<Now>, AllocError>
    ensures { Steps result rest.new (machine.open_compound rest.old.below rest.old.room rest.old.script op_of.Case) }
{
    if rest.room == 0 {
        return Ok(None);
    }
    rest.room -= 1;
    rest.below.push(Below::CaseWord)?;
    Ok(Some(Now::Parts(Items::new(alloc))))
}

/// A compound command begins.
fn open_compound(alloc: Global, rest: &mut Rest, op: Op) -> Result<Option<Now>, AllocError>
    requires { length rest.old.script.script.lists < 2 ^ 32 }
    ensures { Steps result rest.new (machine.open_compound rest.old.below rest.old.room rest.old.script op) }
{
    let list = next_list(&rest.script);
    match op {
        Op::LeftBrace => open_first(alloc, Below::Group(list), rest),
        Op::Open => open_first(alloc, Below::Subshell(list), rest),
        Op::If => open_first(alloc, Below::Test(Items::new(alloc), list), rest),
        Op::While => open_first(alloc, Below::While(false, list), rest),
        Op::Until => open_first(alloc, Below::While(true, list), rest),
        Op::For => Ok(open_for(rest)),
        Op::Case => open_case(alloc, rest),
        _ => Ok(None),
    }
}

/// The name of a function, whose body opens something: there has to be room for it.
fn function_name(name: Text, rest: &Rest) -> Option<Now>
    ensures { Steps (Ok result) rest.now (machine.one_command rest.now.below rest.now.room rest.now.script (token_of.Function name)) }
{
    if rest.room == 0 {
        return None;
    }
    Some(Now::Name(name))
}

/// A command has to begin.
pub fn one_command(alloc: Global, rest: &mut Rest, token: Token) -> Result<Option<Now>, AllocError>
    requires { CanGoOn rest.old }
    ensures { Steps result rest.new (machine.one_command rest.old.below rest.old.room rest.old.script token) }
{
    match token {
        Token::Operator(op) => open_compound(alloc, rest, op),
        Token::Function(name) => Ok(function_name(name, rest)),
        _ => element(alloc, no_simple(alloc), rest, token),
    }
}

/// A pipeline begins.
fn begin_pipeline(
    alloc: Global,
    items: Items<AndOr>,
    before: Option<(AndOr, Join)>,
    bang: bool,
    rest: &mut Rest,
) -> Result<(), AllocError>
    requires { IsReady rest.old }
    ensures rest { OnOk result (rest.new ≡ record rest.old {
      below = below.Pipe (machine.pipe items before bang rest.old.script) ∷ rest.old.below;
      script = draft.begin_leaf bang rest.old.script;
    }) }
    ensures ready { OnOk result (CanGoOn rest.new) }
{
    let leaf = next_leaf(&rest.script);
    begin_leaf(alloc, bang, &mut rest.script)?;
    rest.below.push(Below::Pipe(Pipe {
        items,
        before,
        leaf,
        bang,
        stages: Items::new(alloc),
    }))?;
    Ok(())
}

fn plain_pipeline(
    alloc: Global,
    items: Items<AndOr>,
    before: Option<(AndOr, Join)>,
    rest: &mut Rest,
    token: Token,
) -> Result<Option<Now>, AllocError>
    requires { IsReady rest.old }
    ensures { Steps result rest.new (machine.plain_pipeline items before rest.old.below rest.old.room rest.old.script token) }
{
    begin_pipeline(alloc, items, before, false, rest)?;
    one_command(alloc, rest, token)
}

fn pipeline_op(
    alloc: Global,
    items: Items<AndOr>,
    before: Option<(AndOr, Join)>,
    rest: &mut Rest,
    op: Op,
) -> Result<Option<Now>, AllocError>
    requires { IsReady rest.old }
    ensures { Steps result rest.new (machine.pipeline_op items before rest.old.below rest.old.room rest.old.script op) }
{
    match op {
        Op::Bang => {
            begin_pipeline(alloc, items, before, true, rest)?;
            Ok(Some(Now::Bang))
        }
        _ => plain_pipeline(alloc, items, before, rest, Token::Operator(op)),
    }
}

/// A pipeline has to begin.
fn pipeline(
    alloc: Global,
    items: Items<AndOr>,
    before: Option<(AndOr, Join)>,
    rest: &mut Rest,
    token: Token,
) -> Result<Option<Now>, AllocError>
    requires { IsReady rest.old }
    ensures { Steps result rest.new (machine.pipeline items before rest.old.below rest.old.room rest.old.script token) }
{
    match token {
        Token::Operator(op) => pipeline_op(alloc, items, before, rest, op),
        _ => plain_pipeline(alloc, items, before, rest, token),
    }
}

/// At the start of a list, or after a separator.
fn begin(
    alloc: Global,
    items: Items<AndOr>,
    rest: &mut Rest,
    token: Token,
) -> Result<Option<Now>, AllocError>
    requires { IsReady rest.old }
    ensures { Steps result rest.new (machine.begin items rest.old.below rest.old.room rest.old.script token) }
{
    match token {
        Token::Operator(op) => {
            if ends_list(op) {
                list_ended(alloc, items, rest, &Token::Operator(op))
            } else {
                pipeline(alloc, items, None, rest, Token::Operator(op))
            }
        }
        Token::End(end, mode) => list_ended(alloc, items, rest, &Token::End(end, mode)),
        _ => pipeline(alloc, items, None, rest, token),
    }
}

fn arms_op(alloc: Global, case: Case, rest: &mut Rest, op: Op) -> Result<Option<Now>, AllocError>
    requires { rest.old.room < 2 ^ 32 }
    ensures { Steps result rest.new (machine.arms_op case rest.old.below rest.old.room rest.old.script op) }
{
    match op {
        Op::OpenPattern => {
            rest.below.push(Below::Pattern(case, Items::new(alloc)))?;
            Ok(Some(Now::Parts(Items::new(alloc))))
        }
        Op::Esac => {
            rest.room += 1;
            Ok(Some(Now::Redirs(case_command(case), Items::new(alloc))))
        }
        _ => Ok(None),
    }
}

/// Before an arm of a `case`.
fn arms(alloc: Global, case: Case, rest: &mut Rest, token: Token) -> Result<Option<Now>, AllocError>
    requires { CanGoOn rest.old }
    ensures { Steps result rest.new (machine.arms case rest.old.below rest.old.room rest.old.script token) }
{
    match token {
        Token::Operator(op) => arms_op(alloc, case, rest, op),
        _ => {
            rest.below.push(Below::Pattern(case, Items::new(alloc)))?;
            parts(alloc, Items::new(alloc), rest, token)
        }
    }
}

/// After the name of a `for`, where its list may begin.
pub fn after_for(
    alloc: Global,
    name: Text,
    rest: &mut Rest,
    op: Op,
) -> Result<Option<Now>, AllocError>
    requires { length rest.old.script.script.lists < 2 ^ 32 }
    ensures { Steps result rest.new (machine.after_for name rest.old.below rest.old.room rest.old.script op) }
{
    match op {
        Op::In => Ok(Some(Now::ForWords(name, Items::new(alloc)))),
        Op::Do => {
            let list = next_list(&rest.script);
            Ok(Some(open_list(alloc, Below::ForDo(name, None, list), rest)?))
        }
        _ => Ok(None),
    }
}

/// After `name()`, where the body has to begin.
fn function_body(
    alloc: Global,
    name: Text,
    rest: &mut Rest,
    token: &Token,
) -> Result<Option<Now>, AllocError>
    requires bodies { length rest.old.script.script.bodies < 2 ^ 32 }
    requires lists { length rest.old.script.script.lists < 2 ^ 32 }
    ensures { Steps result rest.new (machine.at_gap (gap_of.Function name) rest.old.below rest.old.room rest.old.script token.now) }
{
    let Token::Operator(op) = *token else {
        return Ok(None);
    };
    let body = next_body(&rest.script);
    rest.below.push(Below::Function(name, body))?;
    begin_body(alloc, &mut rest.script)?;
    open_compound(alloc, rest, op)
}

/// Before the `do` of a `for`.
fn for_do(
    alloc: Global,
    name: Text,
    words: Option<Items<Word>>,
    rest: &mut Rest,
    token: &Token,
) -> Result<Option<Now>, AllocError>
    requires { length rest.old.script.script.lists < 2 ^ 32 }
    ensures { Steps result rest.new (machine.at_gap (gap_of.Do name words) rest.old.below rest.old.room rest.old.script token.now) }
{
    if !is_op(Op::Do, token) {
        return Ok(None);
    }
    let list = next_list(&rest.script);
    Ok(Some(open_list(alloc, Below::ForDo(name, words, list), rest)?))
}

/// After the word of a `case`.
fn case_in(alloc: Global, word: Word, rest: &Rest, token: &Token) -> Option<Now>
    ensures { Steps (Ok result) rest.now (machine.at_gap (gap_of.In word) rest.now.below rest.now.room rest.now.script token.now) }
{
    if !is_op(Op::CaseIn, token) {
        return None;
    }
    Some(Now::Gap(Gap::Arms(Case {
        word,
        arms: Items::new(alloc),
    })))
}

/// After the name of a `for` and newlines.
fn for_gap(
    alloc: Global,
    name: Text,
    rest: &mut Rest,
    token: &Token,
) -> Result<Option<Now>, AllocError>
    requires { length rest.old.script.script.lists < 2 ^ 32 }
    ensures { Steps result rest.new (machine.at_gap (gap_of.For name) rest.old.below rest.old.room rest.old.script token.now) }
{
    match token {
        Token::Operator(op) => after_for(alloc, name, rest, *op),
        _ => Ok(None),
    }
}

/// A token in a gap that is no newline.
fn at_gap(alloc: Global, gap: Gap, rest: &mut Rest, token: Token) -> Result<Option<Now>, AllocError>
    requires { IsReady rest.old }
    ensures { Steps result rest.new (machine.at_gap gap rest.old.below rest.old.room rest.old.script token) }
{
    match gap {
        Gap::Begin(items) => begin(alloc, items, rest, token),
        Gap::Join(items, and_or, join) => {
            pipeline(alloc, items, Some((and_or, join)), rest, token)
        }
        Gap::Stage => one_command(alloc, rest, token),
        Gap::Function(name) => function_body(alloc, name, rest, &token),
        Gap::In(word) => Ok(case_in(alloc, word, rest, &token)),
        Gap::Arms(case) => arms(alloc, case, rest, token),
        Gap::For(name) => for_gap(alloc, name, rest, &token),
        Gap::Do(name, words) => for_do(alloc, name, words, rest, &token),
    }
}

/// A token where newlines may stand.
pub fn in_gap(
    alloc: Global,
    gap: Gap,
    rest: &mut Rest,
    token: Token,
) -> Result<Option<Now>, AllocError>
    requires { IsReady rest.old }
    ensures { Steps result rest.new (machine.in_gap gap rest.old.below rest.old.room rest.old.script token) }
{
    match token {
        Token::End(End::Newline, mode) => newline(alloc, gap, rest, &mode),
        _ => at_gap(alloc, gap, rest, token),
    }
}
