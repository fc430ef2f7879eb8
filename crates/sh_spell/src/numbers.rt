//! Which list begins first in words. Lists are numbered in the order in which they begin.

ghost use Rattle.std.specs.Prelude.{◌≡◌};
ghost use Rattle.sh_spell.specs.Scripts as spec;

use hs_text::Text;
use sh_syntax::{Part, Word};

#[cycle(lists)]
fn part_list(part: &Part) -> Option<u32>
    ensures { result ≡ spec.part_list part.now }
{
    match part {
        Part::Plain(_) => None,
        Part::Single(_) => None,
        Part::Escaped(_) => None,
        Part::Double(parts) => parts_list(parts.as_slice()),
        Part::Param { word, .. } => operand_list(word),
        Part::Command(list) => Some(*list),
        Part::Arith(word) => word_list(word),
    }
}

#[cycle(lists)]
fn parts_list(parts: &[Part]) -> Option<u32>
    ensures { result ≡ spec.parts_list parts.now }
{
    for part in parts {
        if let Some(list) = part_list(part) {
            return Some(list);
        }
    }
    None
}

#[cycle(lists)]
fn operand_list(word: &Option<Word>) -> Option<u32>
    ensures { result ≡ spec.operand_list word.now }
{
    match word {
        None => None,
        Some(word) => word_list(word),
    }
}

#[cycle(lists)]
pub fn word_list(word: &Word) -> Option<u32>
    ensures { result ≡ spec.word_list word.now }
{
    parts_list(word.parts.as_slice())
}

pub fn words_list(words: &[Word]) -> Option<u32>
    ensures { result ≡ spec.words_list words.now }
{
    let mut left = words;
    'words: while let Some((word, rest)) = left.split_first() {
        if let Some(list) = word_list(word) {
            return Some(list);
        }
        left = rest;
    }
    None
}

/// In assignments and the words behind them.
pub fn assigns_list(assigns: &[(Text, Word)], words: &[Word]) -> Option<u32>
    ensures { result ≡ spec.assigns_list assigns.now words.now }
{
    let mut left = assigns;
    'assigns: while let Some((assign, rest)) = left.split_first() {
        if let Some(list) = word_list(&assign.1) {
            return Some(list);
        }
        left = rest;
    }
    words_list(words)
}

/// The first list behind a word, where the first one from the word on is given. It is looked for only where it is another one.
pub fn list_behind(word: &Word, rest: &[Word], first: Option<u32>) -> Option<u32>
    requires { first ≡ spec.or_first (spec.word_list word.now) (spec.words_list rest.now) }
    ensures { result ≡ spec.words_list rest.now }
{
    match word_list(word) {
        None => first,
        Some(_) => words_list(rest),
    }
}

/// The first list behind an assignment.
pub fn list_behind_assign(
    assign: &(Text, Word),
    rest: &[(Text, Word)],
    words: &[Word],
    first: Option<u32>,
) -> Option<u32>
    requires { first ≡ spec.or_first (spec.word_list assign.now.1) (spec.assigns_list rest.now words.now) }
    ensures { result ≡ spec.assigns_list rest.now words.now }
{
    match word_list(&assign.1) {
        None => first,
        Some(_) => assigns_list(rest, words),
    }
}
