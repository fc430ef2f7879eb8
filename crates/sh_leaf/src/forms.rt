//! Which scripts are built. Each part of the tree is looked at once, and no memory is taken.

ghost use Rattle.std.specs.Prelude.{◌≡◌};
ghost use Rattle.std.specs.List.{list_all};
ghost use Rattle.sh_leaf.specs.Built.{are_built_words, is_alone, is_built, is_built_assign, is_built_command, is_built_operand, is_built_part, is_built_pipeline, is_built_simple, is_built_word, is_known_name, is_known_part, is_sequence, is_unjoined};

use crate::utility::named;
use hs_text::Text;
use sh_syntax::{AndOr, Command, List, Part, Pipeline, Redir, Script, Word};

/// Whether no part has a command substitution, at any depth. Calls go as deep as parts lie in one another.
#[cycle(parts)]
fn are_built_parts(parts: &[Part]) -> bool
    ensures { result ≡ list_all is_built_part parts.now }
{
    for i in 0..parts.len() {
        if !is_built_part(&parts[i]) {
            return false;
        }
    }
    true
}

#[cycle(parts)]
fn is_built_part(part: &Part) -> bool
    ensures { result ≡ is_built_part part.now }
{
    match part {
        Part::Plain(_) => true,
        Part::Single(_) => true,
        Part::Escaped(_) => true,
        Part::Double(parts) => are_built_parts(parts.as_slice()),
        Part::Param { word, .. } => is_built_operand(word),
        Part::Command(_) => false,
        Part::Arith(word) => is_built_word(word),
    }
}

#[cycle(parts)]
fn is_built_operand(word: &Option<Word>) -> bool
    ensures { result ≡ is_built_operand word.now }
{
    match word {
        None => true,
        Some(word) => is_built_word(word),
    }
}

#[cycle(parts)]
fn is_built_word(word: &Word) -> bool
    ensures { result ≡ is_built_word word.now }
{
    are_built_parts(word.parts.as_slice())
}

fn are_built_args(args: &[Word]) -> bool
    ensures { result ≡ list_all is_built_word args.now }
{
    args.iter().all(|word| is_built_word(word))
}

/// Whether this part is the plain name of a utility that is built.
fn is_known_part(part: &Part) -> bool
    ensures { result ≡ is_known_part part.now }
{
    match part {
        Part::Plain(name) => named(name.as_slice()).is_some(),
        _ => false,
    }
}

fn is_known_name(parts: &[Part]) -> bool
    ensures { result ≡ is_known_name parts.now }
{
    match parts {
        [part] => is_known_part(part),
        _ => false,
    }
}

/// Whether the first word, if there is one, is the plain name of a utility that is built.
fn are_built_words(words: &[Word]) -> bool
    ensures { result ≡ are_built_words words.now }
{
    match words {
        [name, args @ ..] => is_known_name(name.parts.as_slice()) && are_built_args(args),
        [] => true,
    }
}

fn is_built_assign(assign: &(Text, Word)) -> bool
    ensures { result ≡ is_built_assign assign.now }
{
    is_built_word(&assign.1)
}

fn are_built_assigns(assigns: &[(Text, Word)]) -> bool
    ensures { result ≡ list_all is_built_assign assigns.now }
{
    assigns.iter().all(|assign| is_built_assign(assign))
}

/// Whether a simple command has no redirection.
fn is_built_simple(assigns: &[(Text, Word)], words: &[Word], redirs: &[Redir]) -> bool
    ensures { result ≡ is_built_simple assigns.now words.now redirs.now }
{
    are_built_assigns(assigns) && are_built_words(words) && redirs.is_empty()
}

fn is_built_command(command: &Command) -> bool
    ensures { result ≡ is_built_command command.now }
{
    match command {
        Command::Simple {
            assigns,
            words,
            redirs,
        } => is_built_simple(assigns.as_slice(), words.as_slice(), redirs.as_slice()),
        _ => false,
    }
}

fn is_alone(stages: &[Command]) -> bool
    ensures { result ≡ is_alone stages.now }
{
    match stages {
        [command] => is_built_command(command),
        _ => false,
    }
}

fn is_built_pipeline(pipeline: &Pipeline) -> bool
    ensures { result ≡ is_built_pipeline pipeline.now }
{
    !pipeline.bang && is_alone(pipeline.stages.as_slice())
}

fn is_unjoined(list: &AndOr) -> bool
    ensures { result ≡ is_unjoined list.now }
{
    list.rest.is_empty()
}

fn is_sequence(list: &List) -> bool
    ensures { result ≡ is_sequence list.now }
{
    list.items.as_slice().iter().all(|item| is_unjoined(item))
}

fn are_sequences(lists: &[List]) -> bool
    ensures { result ≡ list_all is_sequence lists.now }
{
    lists.iter().all(|list| is_sequence(list))
}

fn are_built_pipelines(leaves: &[Pipeline]) -> bool
    ensures { result ≡ list_all is_built_pipeline leaves.now }
{
    leaves.iter().all(|pipeline| is_built_pipeline(pipeline))
}

/// Whether the whole script is of the forms that run: simple commands one after another, without redirections and command
/// substitutions, each with the plain name of a utility that is built as its first word, if it has words.
pub fn built(script: &Script) -> bool
    ensures { result ≡ is_built script.now }
{
    are_sequences(script.lists.as_slice())
        && script.bodies.is_empty()
        && are_built_pipelines(script.leaves.as_slice())
}
