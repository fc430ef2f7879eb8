//! An expansion, from one command substitution to the next.

ghost use Rattle.std.specs.Prelude.{◌≡◌, true, [], ◌∷◌, ◌+◌, map, Some, None, IfOk};
ghost use Rattle.hs_view.specs.Acts.{Acts};
ghost use Rattle.hs_view.specs.Steps.{nothing};
ghost use Rattle.sh_param.specs.Modes.{mode_of};
ghost use Rattle.sh_param.specs.Parts.{parts_mean};
ghost use Rattle.sh_param.specs.Pieces as pieces_spec;
ghost use Rattle.sh_param.specs.Words.{ended, plan_of, plan_with, word_parts, words_mean};
ghost use Rattle.sh_expand.specs.Calls.{AreTogether, Begins, Ends, Expands, Lessens, going_of, left_by, state_going, status_in};
ghost use Rattle.sh_expand.specs.Going.{IsReady, fresh, plan_at};
ghost use Rattle.sh_expand.specs.Moves.{Called, Stepped};
ghost use Rattle.sh_expand.specs.Rest.{after_word, behind_parts, means, rest_of, waiting_of};
ghost use Rattle.sh_expand.specs.Shells.{AreWordsInTurn};
ghost use Rattle.sh_expand.specs.Sums.{sums};
ghost use Rattle.sh_expand.specs.Weights.{parts_weight, weight, words_weight};

use crate::machine::Machine;
use crate::parts::told;
use hs_text::{Fields, Text};
use hs_view::{Base, Halt, View};
use sh_arith::Stack;
use sh_param::{Context, Expanded, Mode, Pieces, ifs_of, split_fields, substituted, whole_fields};
use sh_syntax::Word;
use std::alloc::{AllocError, Global};
use std::mem;

/// Where an expansion stands.
#[derive(Drop)]
enum State<'a> {
    /// Before its beginning.
    Fresh(&'a [Word], Context, Option<u8>),
    /// Behind a command substitution.
    Waiting(Machine<'a>),
    Ended,
}

/// The expansion of words, which goes from one command substitution to the next.
#[derive(Drop)]
pub struct Expansion<'a> {
    state: State<'a>,
}

impl<'a> Expansion<'a> {
    /// The expansion of words. `$?` gives `status` where there is one, else the status at the beginning. It takes no memory.
    pub fn new(words: &'a [Word], context: Context, status: Option<u8>) -> Expansion<'a>
        ensures { going_of result ≡ fresh (plan_of sums words.now context status) }
    {
        Expansion {
            state: State::Fresh(words, context, status),
        }
    }
}

fn split_by(alloc: Global, pieces: &Pieces, ifs: &Option<Text>) -> Result<Fields, AllocError>
    ensures { IfOk result (λ fields. fields ≡ pieces_spec.split_fields ifs.now pieces.now) }
{
    match ifs {
        Some(bytes) => split_fields(alloc, pieces.as_slice(), Some(bytes.as_slice())),
        None => split_fields(alloc, pieces.as_slice(), None),
    }
}

/// The fields of a command's words, which are split by the IFS that there is behind all expansions.
fn finish_split<B: Base>(alloc: Global, pieces: &Pieces, view: &mut View<B>) -> Result<Fields, Halt>
    ensures { Ends B.seen (ended Context.Command pieces.now) view.old view.new result }
{
    let ifs = ifs_of(alloc, view)?;
    let fields = split_by(alloc, pieces, &ifs)?;
    Ok(fields)
}

/// The fields of all words.
fn finish<B: Base>(
    alloc: Global,
    context: Context,
    pieces: &Pieces,
    view: &mut View<B>,
) -> Result<Fields, Halt>
    ensures { Ends B.seen (ended context pieces.now) view.old view.new result }
{
    match context {
        Context::Command => finish_split(alloc, pieces, view),
        _ => {
            let fields = whole_fields(alloc, pieces.as_slice())?;
            Ok(fields)
        }
    }
}

impl<'a> Machine<'a> {
    /// Begins a word.
    fn begin_word(&mut self, word: &'a Word)
        ensures rest { rest_of self.new ≡ parts_mean self.old.base true (means word.now.parts) self.old.pieces (behind_parts self.old) }
        ensures weighs { weight self.new + parts_weight self.old.parts.now ≡ parts_weight word.now.parts + weight self.old }
    {
        self.mode = self.base;
        self.start = true;
        self.parts = word.parts.as_slice();
    }

    /// Ends a word, around which nothing is open. The answer is the fields where it was the last one.
    fn next_word<B: Base>(&mut self, view: &mut View<B>) -> Result<Option<Expanded>, Halt>
        requires { self.old.open ≡ [] }
        ensures moves { Stepped B.seen (after_word self.old.base self.old.words.now self.old.context self.old.pieces) (rest_of self.new) (waiting_of self.new) view.old view.new result }
        ensures weighs { Lessens self.new (parts_weight self.old.parts.now + words_weight self.old.words.now) result }
    {
        self.pieces.end()?;
        match self.words.split_first() {
            Some((word, words)) => {
                self.words = words;
                self.begin_word(word);
                Ok(None)
            }
            None => {
                let fields = finish(self.alloc, self.context, &self.pieces, view)?;
                Ok(Some(Expanded::Fields(fields)))
            }
        }
    }

    /// Ends what was open innermost, or the word.
    fn end_parts<B: Base>(&mut self, view: &mut View<B>) -> Result<Option<Expanded>, Halt>
        ensures moves { Stepped B.seen (behind_parts self.old self.old.pieces) (rest_of self.new) (waiting_of self.new) view.old view.new result }
        ensures weighs { Lessens self.new (weight self.old) result }
    {
        match self.open.pop() {
            Some(open) => {
                let why = self.close(open, view)?;
                Ok(told(why))
            }
            None => self.next_word(view),
        }
    }

    /// Goes into the next part, or ends what has no more.
    fn step<B: Base>(&mut self, view: &mut View<B>) -> Result<Option<Expanded>, Halt>
        ensures moves { Stepped B.seen (rest_of self.old) (rest_of self.new) (waiting_of self.new) view.old view.new result }
        ensures weighs { Lessens self.new (weight self.old) result }
    {
        match self.parts.split_first() {
            Some((part, rest)) => {
                self.parts = rest;
                self.part(part, view)
            }
            None => self.end_parts(view),
        }
    }

    /// Goes on to the next command substitution or to the end. Each step ends a part, or begins one in it.
    fn go<B: Base>(&mut self, view: &mut View<B>) -> Result<Expanded, Halt>
        ensures { Called B.seen (rest_of self.old) (waiting_of self.new) view.old view.new result }
    {
        'steps: loop {
            let stepped = self.step(view)?;
            match stepped {
                Some(expanded) => return Ok(expanded),
                None => {}
            }
        }
    }

    /// Before the first of these words.
    fn new(
        alloc: Global,
        word: &'a Word,
        words: &'a [Word],
        context: Context,
        status: u8,
    ) -> Machine<'a>
        ensures { rest_of result ≡ words_mean (mode_of context status) (map (word_parts sums) (word.now ∷ words.now)) [] (ended context) }
    {
        let base = Mode::of(context, status);
        Machine {
            alloc,
            mode: base,
            start: true,
            parts: word.parts.as_slice(),
            pieces: Pieces::new(alloc),
            open: Stack::new(alloc),
            words,
            base,
            context,
        }
    }
}

/// What is left where an expansion gave this answer.
fn left<'a>(expanded: &Expanded, machine: Machine<'a>) -> State<'a>
    ensures { state_going result ≡ left_by expanded.now (waiting_of machine.entry) }
{
    match expanded {
        Expanded::Wants(_) => State::Waiting(machine),
        Expanded::Fields(_) => State::Ended,
        Expanded::Error(_) => State::Ended,
    }
}

/// Goes on to the next command substitution or to the end.
fn go_on<'a, B: Base>(
    machine: Machine<'a>,
    view: &mut View<B>,
) -> Result<(Expanded, State<'a>), Halt>
    ensures { Begins B.seen (rest_of machine.entry) view.old view.new result }
{
    let mut machine = machine;
    let expanded = machine.go(view)?;
    let state = left(&expanded, machine);
    Ok((expanded, state))
}

/// Goes on behind a command substitution whose list gave this output.
fn go_behind<'a, B: Base>(
    alloc: Global,
    machine: Machine<'a>,
    out: &Text,
    view: &mut View<B>,
) -> Result<(Expanded, State<'a>), Halt>
    ensures { Begins B.seen (waiting_of machine.entry out.now) view.old view.new result }
{
    let mut machine = machine;
    let bytes = substituted(alloc, out.as_slice())?;
    machine.put_bytes(bytes.as_slice())?;
    go_on(machine, view)
}

/// Begins with the words. Without a word there is nothing to go through.
fn begin<'a, B: Base>(
    alloc: Global,
    words: &'a [Word],
    context: Context,
    status: u8,
    view: &mut View<B>,
) -> Result<(Expanded, State<'a>), Halt>
    ensures { Begins B.seen (plan_with (map (word_parts sums) words.now) context status) view.old view.new result }
{
    match words.split_first() {
        Some((word, rest)) => go_on(Machine::new(alloc, word, rest, context, status), view),
        None => {
            let pieces = Pieces::new(alloc);
            let fields = finish(alloc, context, &pieces, view)?;
            Ok((Expanded::Fields(fields), State::Ended))
        }
    }
}

/// The status that is given, or else that of the state.
fn status_of<B: Base>(given: Option<u8>, view: &mut View<B>) -> Result<u8, Halt>
    ensures { Acts B.seen (λ w. nothing (status_in given w) w) view.old view.new result }
{
    match given {
        Some(status) => Ok(status),
        None => view.status(),
    }
}

fn begin_fresh<'a, B: Base>(
    alloc: Global,
    words: &'a [Word],
    context: Context,
    given: Option<u8>,
    view: &mut View<B>,
) -> Result<(Expanded, State<'a>), Halt>
    ensures { Begins B.seen (plan_of sums words.now context given) view.old view.new result }
{
    let status = status_of(given, view)?;
    begin(alloc, words, context, status, view)
}

/// Goes on from where an expansion stands.
fn go_from<'a, B: Base>(
    alloc: Global,
    state: State<'a>,
    out: &Option<Text>,
    view: &mut View<B>,
) -> Result<(Expanded, State<'a>), Halt>
    requires { IsReady (state_going state) out.now }
    ensures { Begins B.seen (plan_at (state_going state.entry) out.now) view.old view.new result }
{
    match state {
        State::Fresh(words, context, status) => begin_fresh(alloc, words, context, status, view),
        State::Waiting(machine) => match out {
            Some(out) => go_behind(alloc, machine, out, view),
            None => unreachable!(),
        },
        State::Ended => unreachable!(),
    }
}

/// Goes on to the next command substitution, or to the end. `out` is the output of the list that was wanted, where one was.
///
/// Each byte of the words and of what takes their place is met once, and a removed prefix or suffix costs as much as
/// matching it. It comes to a halt where a read or an effect of the view does, or for want of memory.
pub fn expand<'a, B: Base>(
    alloc: Global,
    going: &mut Expansion<'a>,
    out: Option<Text>,
    view: &mut View<B>,
) -> Result<Expanded, Halt>
    requires { IsReady (going_of going.old) out }
    ensures acts { Expands B.seen (plan_at (going_of going.old) out) (going_of going.new) view.old view.new result }
    ensures law { AreTogether B.seen }
    ensures between { AreWordsInTurn }
{
    let state = mem::replace(&mut going.state, State::Ended);
    let (expanded, state) = go_from(alloc, state, &out, view)?;
    going.state = state;
    Ok(expanded)
}
