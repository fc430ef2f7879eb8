//! What one token changes. What waits for its right operand stands on a stack; a token takes off all that binds at least as
//! tight as it does. Each is put there once and taken off once, so the time is linear in the tokens.

ghost use Rattle.std.specs.Prelude.{◌≡◌, ◌≤◌, ◌<◌, ◌^◌, [], ◌∷◌, OnOk, IfOk};
ghost use Rattle.sh_arith.specs.Grammar.{tier, logic_tier};
ghost use Rattle.sh_arith.specs.Machine as machine;
ghost use Rattle.sh_arith.specs.Steps.{Steps, Accepts};

use crate::instr::{Frame, Instr, Now, Part, Rest};
use crate::stack::Stack;
use crate::token::{Logic, Math, Op, Sign, Token};
use hs_text::Text;
use sqlite_items::Items;
use std::alloc::AllocError;

/// What ends an expression, or a part of one, takes off all but brackets.
const CLOSER: u8 = 13;

fn tier(math: Math) -> u8
    ensures { result ≡ tier math }
{
    match math {
        Math::Times | Math::Over | Math::Modulo => 0,
        Math::Plus | Math::Minus => 1,
        Math::Left | Math::Right => 2,
        Math::Less | Math::AtMost | Math::Greater | Math::AtLeast => 3,
        Math::Equal | Math::Unequal => 4,
        Math::And => 5,
        Math::Xor => 6,
        Math::Or => 7,
    }
}

fn logic_tier(logic: Logic) -> u8
    ensures { result ≡ logic_tier logic }
{
    match logic {
        Logic::Both => 8,
        Logic::Either => 9,
    }
}

#[tactic(auto, using(crate::proofs::Levels::tier_small, crate::proofs::Levels::logic_small))]
fn strength(frame: &Frame) -> u8
    ensures { result ≡ machine.strength frame.now }
{
    match frame {
        Frame::Sign(_) => 1,
        Frame::Math(math) => tier(*math) + 1,
        Frame::Logic(logic) => logic_tier(*logic) + 1,
        Frame::Otherwise => 12,
        Frame::Assign(..) => 13,
        Frame::Open => 14,
        Frame::Then => 14,
    }
}

fn add(rest: &mut Rest, instr: Instr) -> Result<(), AllocError>
    ensures { OnOk result (rest.new ≡ machine.then_code (instr ∷ []) rest.old) }
{
    rest.code.push(instr)
}

/// What is done when the right operand is there.
fn finish(rest: &mut Rest, frame: Frame) -> Result<(), AllocError>
    ensures { OnOk result (rest.new ≡ machine.then_code (machine.finish frame) rest.old) }
{
    match frame {
        Frame::Sign(sign) => add(rest, Instr::Sign(sign)),
        Frame::Math(math) => add(rest, Instr::Math(math)),
        Frame::Logic(logic) => add(rest, Instr::End(Part::Logic(logic))),
        Frame::Otherwise => add(rest, Instr::End(Part::Choice)),
        Frame::Assign(op, place, name) => add(rest, Instr::Store(op, place, name)),
        Frame::Open => Ok(()),
        Frame::Then => Ok(()),
    }
}

/// Whether what is on top is stronger.
fn holds(stack: &Stack<Frame>, power: u8) -> bool
    ensures { result ≡ machine.holds power stack.now }
{
    match stack.top() {
        Some(frame) => strength(frame) > power,
        None => true,
    }
}

/// Takes off all that a token of this power takes off.
fn settle(rest: &mut Rest, power: u8) -> Result<(), AllocError>
    ensures { OnOk result (rest.new ≡ machine.settled power rest.old) }
{
    'frames: while !holds(&rest.stack, power) {
        match rest.stack.pop() {
            Some(frame) => finish(rest, frame)?,
            None => return Ok(()),
        }
    }
    Ok(())
}

/// An operand is wanted for this.
fn want(rest: &mut Rest, frame: Frame) -> Result<Option<Now>, AllocError>
    ensures { Steps result rest.new (machine.want frame rest.old) }
{
    rest.stack.push(frame)?;
    Ok(Some(Now::Want))
}

fn open(rest: &mut Rest) -> Result<Option<Now>, AllocError>
    ensures { Steps result rest.new (machine.open_in rest.old.room rest.old.stack rest.old.code) }
{
    if rest.room == 0 {
        return Ok(None);
    }
    rest.room -= 1;
    rest.stack.push(Frame::Open)?;
    Ok(Some(Now::Want))
}

fn want_op(rest: &mut Rest, op: Op) -> Result<Option<Now>, AllocError>
    ensures { Steps result rest.new (machine.want_op op rest.old) }
{
    match op {
        Op::Math(Math::Plus) => want(rest, Frame::Sign(Sign::Plus)),
        Op::Math(Math::Minus) => want(rest, Frame::Sign(Sign::Minus)),
        Op::Not => want(rest, Frame::Sign(Sign::Not)),
        Op::Complement => want(rest, Frame::Sign(Sign::Complement)),
        Op::Open => open(rest),
        _ => Ok(None),
    }
}

/// Before an operand.
fn want_token(rest: &mut Rest, token: Token) -> Result<Option<Now>, AllocError>
    ensures { Steps result rest.new (machine.want_token token rest.old) }
{
    match token {
        Token::Number(number) => {
            add(rest, Instr::Number(number))?;
            Ok(Some(Now::Have))
        }
        Token::Name(place, name) => Ok(Some(Now::Named(place, name))),
        Token::Operator(op) => want_op(rest, op),
    }
}

/// A `:` goes on with the `?` on top.
fn colon(rest: &mut Rest) -> Result<Option<Now>, AllocError>
    ensures { Steps result rest.new (machine.colon rest.old) }
{
    match rest.stack.pop() {
        Some(Frame::Then) => {
            add(rest, Instr::Otherwise)?;
            want(rest, Frame::Otherwise)
        }
        _ => Ok(None),
    }
}

/// A `)` closes the bracket on top.
fn close(rest: &mut Rest) -> Option<Now>
    requires { rest.old.room < 2 ^ 63 }
    ensures { Steps (Ok result) rest.new (machine.close rest.old) }
{
    match rest.stack.pop() {
        Some(Frame::Open) => {
            rest.room += 1;
            Some(Now::Have)
        }
        _ => None,
    }
}

#[tactic(auto, using(crate::proofs::Levels::tier_small, crate::proofs::Levels::logic_small, crate::proofs::Rooms::same_room))]
fn have_op(rest: &mut Rest, op: Op) -> Result<Option<Now>, AllocError>
    requires { rest.old.room < 2 ^ 63 }
    ensures { Steps result rest.new (machine.have_op op rest.old) }
{
    match op {
        Op::Math(math) => {
            settle(rest, tier(math) + 1)?;
            want(rest, Frame::Math(math))
        }
        Op::Logic(logic) => {
            settle(rest, logic_tier(logic) + 1)?;
            add(rest, Instr::Begin(Part::Logic(logic)))?;
            want(rest, Frame::Logic(logic))
        }
        Op::Question => {
            settle(rest, 10)?;
            add(rest, Instr::Begin(Part::Choice))?;
            want(rest, Frame::Then)
        }
        Op::Colon => {
            settle(rest, CLOSER)?;
            colon(rest)
        }
        Op::Close => {
            settle(rest, CLOSER)?;
            Ok(close(rest))
        }
        Op::Not | Op::Complement | Op::Assign(_) | Op::Open => Ok(None),
    }
}

/// Behind an operand.
fn have_token(rest: &mut Rest, token: Token) -> Result<Option<Now>, AllocError>
    requires { rest.old.room < 2 ^ 63 }
    ensures { Steps result rest.new (machine.have_token token rest.old) }
{
    match token {
        Token::Operator(op) => have_op(rest, op),
        Token::Number(_) => Ok(None),
        Token::Name(..) => Ok(None),
    }
}

fn assign(
    rest: &mut Rest,
    op: Option<Math>,
    place: usize,
    name: Text,
) -> Result<Option<Now>, AllocError>
    ensures { Steps result rest.new (machine.named_op place name (Op.Assign op) rest.old) }
{
    if !holds(&rest.stack, 12) {
        return Ok(None);
    }
    match op {
        Some(_) => add(rest, Instr::Read(place, name.clone()?))?,
        None => {}
    }
    want(rest, Frame::Assign(op, place, name))
}

fn named_op(rest: &mut Rest, place: usize, name: Text, op: Op) -> Result<Option<Now>, AllocError>
    requires { rest.old.room < 2 ^ 63 }
    ensures { Steps result rest.new (machine.named_op place name op rest.old) }
{
    match op {
        Op::Assign(math) => assign(rest, math, place, name),
        _ => {
            add(rest, Instr::Read(place, name))?;
            have_op(rest, op)
        }
    }
}

/// Behind a name.
fn named_token(
    rest: &mut Rest,
    place: usize,
    name: Text,
    token: Token,
) -> Result<Option<Now>, AllocError>
    requires { rest.old.room < 2 ^ 63 }
    ensures { Steps result rest.new (machine.named_token place name token rest.old) }
{
    match token {
        Token::Operator(op) => named_op(rest, place, name, op),
        Token::Number(_) => Ok(None),
        Token::Name(..) => Ok(None),
    }
}

/// Reads one token. None: no expression goes on so.
pub fn step(rest: &mut Rest, now: Now, token: Token) -> Result<Option<Now>, AllocError>
    requires { rest.old.room < 2 ^ 63 }
    ensures { Steps result rest.new (machine.step_now now rest.old token) }
{
    match now {
        Now::Want => want_token(rest, token),
        Now::Named(place, name) => named_token(rest, place, name, token),
        Now::Have => have_token(rest, token),
    }
}

/// All instructions, where nothing waits.
fn whole(rest: Rest) -> Option<Items<Instr>>
    ensures { result ≡ machine.whole rest }
{
    let Rest {
        mut stack,
        code,
        ..
    } = rest;
    match stack.pop() {
        None => Some(code),
        Some(_) => None,
    }
}

/// The instructions, where the tokens end. None: there is no expression.
pub fn accept(mut rest: Rest, now: Now) -> Result<Option<Items<Instr>>, AllocError>
    ensures { Accepts result (machine.accept_now now rest) }
{
    match now {
        Now::Want => return Ok(None),
        Now::Named(place, name) => add(&mut rest, Instr::Read(place, name))?,
        Now::Have => {}
    }
    settle(&mut rest, CLOSER)?;
    Ok(whole(rest))
}
