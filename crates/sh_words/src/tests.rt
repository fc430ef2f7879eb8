//! Words from their text to their fields. A row is plain data, so that one more of them is no more to prove.

mod contexts;
mod operators;
mod parameters;
mod patterns;
mod splitting;
mod substitutions;
mod sums;
mod tildes;

use hs_text::{Fields, Text, TextList};
use hs_view::{Fixed, View};
use hs_world::{Effect, Limits, Opts, PathName, Tree, Var, World};
use sh_expand::{Expanded, Expansion, expand};
use sh_glob::paths;
use sh_param::Context;
use sh_script::parse;
use sh_split::unquote;
use sh_syntax::{Command, Script, Word};
use std::alloc::{AllocError, Global};
use std::slice::from_ref;

/// What a state has besides that in which a script begins.
#[derive(Clone, Copy)]
pub enum Has<'a> {
    Var(&'a str, &'a str),
    ReadOnly(&'a str, &'a str),
    Params(&'a [&'a str]),
    Status(u8),
    File(&'a str),
    Dir(&'a str),
    /// The current folder.
    In(&'a str),
    /// Option f.
    NoGlob,
}

/// What words become.
#[derive(Clone, Copy)]
pub enum Becomes<'a> {
    Fields(&'a [&'a str]),
    Message(&'a str),
    /// The output of this list is wanted first.
    List(u32),
}

/// Words as they are written, what the state has in which they are expanded, and what they become.
pub type Row<'a> = (&'a str, &'a [Has<'a>], Becomes<'a>);

/// What words became.
#[derive(Drop)]
enum Answer {
    Fields(TextList),
    Message(Text),
    List(u32),
}

fn text(alloc: Global, bytes: &str) -> Result<Text, AllocError> {
    Text::from_slice(alloc, bytes.as_bytes())
}

fn list(alloc: Global, words: &[&str]) -> Result<TextList, AllocError> {
    let mut list = TextList::new(alloc);
    for word in words {
        list.push(text(alloc, word)?)?;
    }
    Ok(list)
}

fn path(alloc: Global, bytes: &str) -> Result<PathName, AllocError> {
    let root = PathName::root(alloc);
    match PathName::resolve(alloc, &root, bytes.as_bytes())? {
        Some(path) => Ok(path),
        None => Ok(root),
    }
}

fn var(alloc: Global, value: &str, readonly: bool) -> Result<Var, AllocError> {
    Ok(Var {
        value: Some(text(alloc, value)?),
        exported: false,
        readonly,
    })
}

/// The effect that gives a state what it has.
fn effect(alloc: Global, has: Has<'_>) -> Result<Effect, AllocError> {
    match has {
        Has::Var(name, value) => Ok(Effect::SetVar(text(alloc, name)?, var(alloc, value, false)?)),
        Has::ReadOnly(name, value) => {
            Ok(Effect::SetVar(text(alloc, name)?, var(alloc, value, true)?))
        }
        Has::Params(params) => Ok(Effect::SetParams(list(alloc, params)?)),
        Has::Status(status) => Ok(Effect::SetStatus(status)),
        Has::File(file) => Ok(Effect::Put(path(alloc, file)?, Text::new(alloc))),
        Has::Dir(folder) => Ok(Effect::MakeDir(path(alloc, folder)?)),
        Has::In(folder) => Ok(Effect::SetCwd(path(alloc, folder)?)),
        Has::NoGlob => Ok(Effect::SetOpts(Opts::NOGLOB)),
    }
}

/// Does an effect, and says whether it may come and was done.
fn does(world: &mut World, effect: &Effect) -> bool {
    world.valid(effect) && world.apply(effect).is_ok()
}

fn gets(alloc: Global, world: &mut World, has: Has<'_>) -> bool {
    match effect(alloc, has) {
        Ok(effect) => does(world, &effect),
        Err(_) => false,
    }
}

fn gets_all(alloc: Global, world: &mut World, state: &[Has<'_>]) -> bool {
    for has in state {
        if !gets(alloc, world, *has) {
            return false;
        }
    }
    true
}

/// The state in which a script begins, over an empty tree, with `sh` as its name.
fn begin(alloc: Global) -> Option<World> {
    let limits = Limits {
        bytes: 1024,
        turns: 1,
    };
    let zero = text(alloc, "sh").ok()?;
    let (tree, vars) = (Tree::new(alloc), Vec::new(alloc));
    let (params, input) = (TextList::new(alloc), Text::new(alloc));
    World::new(alloc, tree, vars, zero, params, input, limits).ok()
}

fn view_of(alloc: Global, state: &[Has<'_>]) -> Option<View<Fixed>> {
    let mut world = begin(alloc)?;
    if gets_all(alloc, &mut world, state) {
        return Some(View::new(alloc, Fixed::new(world), 65536));
    }
    None
}

fn end(view: View<Fixed>) {
    let (base, trace) = view.into_trace();
    drop(base);
    drop(trace);
}

fn first_command(script: &Script) -> Option<&Command> {
    let pipeline = script.leaves.as_slice().first()?;
    pipeline.stages.as_slice().first()
}

fn behind_first(words: &[Word]) -> &[Word] {
    match words.split_first() {
        Some((_, rest)) => rest,
        None => &[],
    }
}

/// The words behind the name of a command.
fn arguments(command: &Command) -> &[Word] {
    match command {
        Command::Simple {
            assigns: _,
            words,
            redirs: _,
        } => behind_first(words.as_slice()),
        _ => &[],
    }
}

/// The value of a command's first assignment.
fn assigned(command: &Command) -> &[Word] {
    let Command::Simple {
        assigns,
        words: _,
        redirs: _,
    } = command
    else {
        return &[];
    };
    match assigns.as_slice().first() {
        Some((_, word)) => from_ref(word),
        None => &[],
    }
}

/// The word of a command's first redirection.
fn redirected(command: &Command) -> &[Word] {
    let Command::Simple {
        assigns: _,
        words: _,
        redirs,
    } = command
    else {
        return &[];
    };
    match redirs.as_slice().first() {
        Some(redir) => from_ref(&redir.word),
        None => &[],
    }
}

/// The words of a script that are expanded for this.
fn words_for(context: Context, script: &Script) -> &[Word] {
    let Some(command) = first_command(script) else {
        return &[];
    };
    match context {
        Context::Command => arguments(command),
        Context::Assign => assigned(command),
        _ => redirected(command),
    }
}

/// A command in which words stand that are expanded for this.
fn command(alloc: Global, context: Context, words: &str) -> Result<String, AllocError> {
    match context {
        Context::Command => format!(in alloc; "echo {words}"),
        Context::Assign => format!(in alloc; "x={words}"),
        Context::Here => format!(in alloc; "cat <<E\n{words}\nE\n"),
        _ => format!(in alloc; ">{words}"),
    }
}

/// The texts of fields: of a command's words after pathname expansion, else without their quotes alone.
fn texts(
    alloc: Global,
    context: Context,
    fields: &Fields,
    view: &mut View<Fixed>,
) -> Option<TextList> {
    match context {
        Context::Command => paths(alloc, fields, view).ok(),
        _ => unquote(alloc, fields).ok(),
    }
}

fn finished(
    alloc: Global,
    context: Context,
    expanded: Expanded,
    view: &mut View<Fixed>,
) -> Option<Answer> {
    match expanded {
        Expanded::Fields(fields) => {
            let list = texts(alloc, context, &fields, view)?;
            Some(Answer::Fields(list))
        }
        Expanded::Error(message) => Some(Answer::Message(message)),
        Expanded::Wants(list) => Some(Answer::List(list)),
    }
}

/// What words become that are expanded for this.
fn became(alloc: Global, context: Context, words: &[Word], view: View<Fixed>) -> Option<Answer> {
    let mut view = view;
    let mut going = Expansion::new(words, context, None);
    let answer = match expand(alloc, &mut going, None, &mut view) {
        Ok(expanded) => finished(alloc, context, expanded, &mut view),
        Err(_) => None,
    };
    drop(going);
    end(view);
    answer
}

fn are(list: &[Text], wanted: &[&str]) -> bool {
    for (text, word) in list.iter().zip(wanted) {
        if text.as_slice() != word.as_bytes() {
            return false;
        }
    }
    list.len() == wanted.len()
}

fn is(became: &Answer, wanted: Becomes<'_>) -> bool {
    match (became, wanted) {
        (Answer::Fields(list), Becomes::Fields(fields)) => are(list.as_slice(), fields),
        (Answer::Message(text), Becomes::Message(message)) => text.as_slice() == message.as_bytes(),
        (Answer::List(list), Becomes::List(number)) => *list == number,
        _ => false,
    }
}

fn becomes_so(alloc: Global, context: Context, script: &Script, row: &Row<'_>) -> bool {
    let Some(view) = view_of(alloc, row.1) else {
        return false;
    };
    match became(alloc, context, words_for(context, script), view) {
        Some(became) => is(&became, row.2),
        None => false,
    }
}

/// Whether a row is true of its words as they stand in a command.
fn holds(alloc: Global, context: Context, row: &Row<'_>) -> Result<bool, AllocError> {
    let command = command(alloc, context, row.0)?;
    match parse(alloc, command.as_bytes()) {
        Ok(script) => {
            let holds = becomes_so(alloc, context, &script, row);
            drop(script);
            Ok(holds)
        }
        Err(_) => Ok(false),
    }
}

/// The words of the first row that is not true where they are expanded for this, or nothing.
pub fn first_wrong<'a>(
    alloc: Global,
    context: Context,
    rows: &[Row<'a>],
) -> Result<&'a str, AllocError> {
    for row in rows {
        if !holds(alloc, context, row)? {
            return Ok(row.0);
        }
    }
    Ok("")
}
