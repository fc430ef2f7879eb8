//! Whether a pattern matches a text. No call takes memory.

ghost use Rattle.std.specs.Prelude.{◌≡◌, ◌∷◌, false};
ghost use Rattle.std.specs.List.{list_any};
ghost use Rattle.sh_pattern.specs.Match.{matched, is_star};
ghost use Rattle.sh_pattern.specs.Greedy.{answer, IsShorter, IsSettled};
ghost use Rattle.sh_pattern.specs.declared.item.Item.TheVariants.{Star};

use crate::item::Item;
use crate::pattern::Pattern;

/// How far items go that take bytes one by one.
#[derive(Clone, Copy)]
pub enum Found<'a> {
    /// An item does not take its byte, or the items and the bytes do not end together.
    Nothing,
    /// The items and the bytes end together.
    End,
    /// A star comes, before these items and these bytes.
    Star(&'a [Item], &'a [u8]),
}

/// Lets the items up to a star take bytes one by one. It takes at most a step for each of these items.
fn front<'a>(items: &'a [Item], bytes: &'a [u8]) -> Found<'a>
    ensures here { answer result ≡ matched items.now bytes.now }
    ensures settled { IsSettled result items.now bytes.now }
    ensures shorter { IsShorter result items.now }
{
    let mut left = items;
    let mut rest = bytes;
    'items: loop {
        let Some((item, items)) = left.split_first() else {
            return if rest.is_empty() {
                Found::End
            } else {
                Found::Nothing
            };
        };
        if item.is_star() {
            return Found::Star(items, rest);
        }
        match rest.split_first() {
            Some((byte, bytes)) if item.takes(*byte) => {
                left = items;
                rest = bytes;
            }
            _ => return Found::Nothing,
        }
    }
}

/// Lets the items behind a star go from the first place from which they go up to the next star. Where they go so far,
/// no later place has to be tried: what the next star takes can be longer. It takes at most a step for each of
/// these items and each place.
fn leftmost<'a>(items: &'a [Item], bytes: &'a [u8]) -> Found<'a>
    ensures here { answer result ≡ matched (Star ∷ items.now) bytes.now }
    ensures shorter { IsShorter result items.now }
{
    let mut rest = bytes;
    'places: loop {
        match front(items, rest) {
            Found::Nothing => match rest.split_first() {
                Some((_, bytes)) => rest = bytes,
                None => return Found::Nothing,
            },
            Found::End => return Found::End,
            Found::Star(items, bytes) => return Found::Star(items, bytes),
        }
    }
}

fn has_star(items: &[Item]) -> bool
    ensures { result ≡ list_any is_star items.now }
{
    items.iter().any(|item| item.is_star())
}

/// Lets the items behind the last star go: they can only take the end of the text. It takes at most a step for each of them.
fn at_end<'a>(items: &'a [Item], bytes: &'a [u8]) -> Found<'a>
    requires { list_any is_star items.now ≡ false }
    ensures here { answer result ≡ matched (Star ∷ items.now) bytes.now }
    ensures shorter { IsShorter result items.now }
{
    if bytes.len() < items.len() {
        return Found::Nothing;
    }
    front(items, bytes.split_at(bytes.len() - items.len()).1)
}

/// Lets the items behind a star go.
fn behind_star<'a>(items: &'a [Item], bytes: &'a [u8]) -> Found<'a>
    ensures here { answer result ≡ matched (Star ∷ items.now) bytes.now }
    ensures shorter { IsShorter result items.now }
{
    if has_star(items) {
        leftmost(items, bytes)
    } else {
        at_end(items, bytes)
    }
}

/// Whether the pattern matches the whole text. Each item is tried at most once at each place of the text.
pub fn matches(pattern: &Pattern, bytes: &[u8]) -> bool
    ensures { result ≡ matched pattern.now bytes.now }
{
    let mut found = front(pattern.items(), bytes);
    'stars: while let Found::Star(items, rest) = found {
        found = behind_star(items, rest);
    }
    matches!(found, Found::End)
}
