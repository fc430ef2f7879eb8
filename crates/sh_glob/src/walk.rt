//! The walk from place to place, by the components of a field.

ghost use Rattle.std.specs.Prelude.{◌≡◌, ◌++◌, ◌∷◌, [], not, IfOk, OnOk};
ghost use Rattle.std.specs.List.{flat_map};
ghost use Rattle.hs_view.specs.Acts.{Acts};
ghost use Rattle.hs_view.specs.Steps.{nothing};
ghost use Rattle.hs_world.specs.Files.{entry_at, is_absent, is_dir, names_of};
ghost use Rattle.hs_world.specs.Names.{same_name};
ghost use Rattle.hs_world.specs.Paths.{is_step};
ghost use Rattle.sh_glob.specs.Places as spec;

use crate::part::{Part, takes};
use crate::place::{Place, Places};
use hs_text::{Text, TextList};
use hs_view::{Base, Halt, View};
use hs_world::{Kind, PathName};
use sh_pattern::Pattern;
use std::alloc::{AllocError, Global};
use std::cmp::Ordering;

fn is_folder_kind(kind: Kind) -> bool
    ensures { result ≡ spec.is_folder_kind kind }
{
    matches!(kind, Kind::Dir)
}

fn is_absent_kind(kind: Kind) -> bool
    ensures { result ≡ spec.is_absent_kind kind }
{
    matches!(kind, Kind::Absent)
}

/// Whether a path has a folder. The root always has one, so it is not read.
fn is_folder<B: Base>(at: &PathName, view: &mut View<B>) -> Result<bool, Halt>
    ensures { Acts B.seen (λ w. nothing (is_dir (entry_at w.tree at.now)) w) view.old view.new result }
{
    if at.names().is_empty() {
        return Ok(true);
    }
    let kind = view.kind(at)?;
    Ok(is_folder_kind(kind))
}

fn has_entry<B: Base>(path: &PathName, view: &mut View<B>) -> Result<bool, Halt>
    ensures { Acts B.seen (λ w. nothing (not (is_absent (entry_at w.tree path.now))) w) view.old view.new result }
{
    let kind = view.kind(path)?;
    Ok(!is_absent_kind(kind))
}

fn is_entry<B: Base>(path: Option<PathName>, view: &mut View<B>) -> Result<bool, Halt>
    ensures { Acts B.seen (λ w. nothing (spec.is_entry w.tree path) w) view.old view.new result }
{
    match path {
        Some(path) => has_entry(&path, view),
        None => Ok(false),
    }
}

fn is_text(bytes: &[u8], other: &[u8]) -> bool
    ensures { result ≡ same_name bytes.now other.now }
{
    bytes.cmp(other) == Ordering::Equal
}

/// Whether a component says where to go, and names nothing.
fn is_step(component: &[u8]) -> bool
    ensures { result ≡ is_step component.now }
{
    is_text(component, b"") || is_text(component, b".") || is_text(component, b"..")
}

/// Whether a component exists in a folder. At most one kind is read.
fn is_there<B: Base>(
    alloc: Global,
    at: &PathName,
    component: &Text,
    view: &mut View<B>,
) -> Result<bool, Halt>
    ensures { Acts B.seen (λ w. nothing (spec.is_there w.tree at.now component.now) w) view.old view.new result }
{
    let bytes = component.as_slice();
    if is_step(bytes) {
        return is_folder(at, view);
    }
    let path = PathName::resolve(alloc, at, bytes)?;
    is_entry(path, view)
}

fn one_if(alloc: Global, is_there: bool, bytes: &Text) -> Result<TextList, AllocError>
    ensures { IfOk result (λ choices. choices ≡ spec.one_if is_there bytes.now) }
{
    let mut choices = TextList::new(alloc);
    if is_there {
        let bytes = bytes.clone()?;
        choices.push(bytes)?;
    }
    Ok(choices)
}

/// A component that stands for itself.
fn itself<B: Base>(
    alloc: Global,
    at: &PathName,
    bytes: &Text,
    view: &mut View<B>,
) -> Result<TextList, Halt>
    ensures { Acts B.seen (λ w. nothing (spec.one_if (spec.is_there w.tree at.now bytes.now) bytes.now) w) view.old view.new result }
{
    let exists = is_there(alloc, at, bytes, view)?;
    let choices = one_if(alloc, exists, bytes)?;
    Ok(choices)
}

fn taken_of(alloc: Global, pattern: &Pattern, names: &[Text]) -> Result<TextList, AllocError>
    ensures { IfOk result (λ choices. choices ≡ spec.taken_of pattern.now names.now) }
{
    let mut choices = TextList::new(alloc);
    for name in names {
        if takes(pattern, name.as_slice()) {
            let name = name.clone()?;
            choices.push(name)?;
        }
    }
    Ok(choices)
}

fn taken(alloc: Global, pattern: &Pattern, names: Option<TextList>) -> Result<TextList, AllocError>
    ensures { IfOk result (λ choices. choices ≡ spec.taken pattern.now names) }
{
    match names {
        Some(names) => taken_of(alloc, pattern, names.as_slice()),
        None => Ok(TextList::new(alloc)),
    }
}

/// The matching names of a folder. It alone is read.
fn matching_names<B: Base>(
    alloc: Global,
    at: &PathName,
    pattern: &Pattern,
    view: &mut View<B>,
) -> Result<TextList, Halt>
    ensures { Acts B.seen (λ w. nothing (spec.taken pattern.now (names_of w.tree at.now)) w) view.old view.new result }
{
    let names = view.names(at)?;
    let choices = taken(alloc, pattern, names)?;
    Ok(choices)
}

/// What may stand in place of a component.
fn choices<B: Base>(
    alloc: Global,
    at: &PathName,
    part: &Part,
    view: &mut View<B>,
) -> Result<TextList, Halt>
    ensures { Acts B.seen (λ w. nothing (spec.choices w.tree at.now part.now) w) view.old view.new result }
{
    match part {
        Part::Literal(bytes) => itself(alloc, at, bytes, view),
        Part::Glob(pattern) => matching_names(alloc, at, pattern, view),
    }
}

/// Where a component leads from a folder.
fn led(alloc: Global, at: &PathName, component: &[u8]) -> Result<Option<PathName>, AllocError>
    ensures { IfOk result (λ path. path ≡ spec.led at.now component.now) }
{
    if component.is_empty() {
        let at = at.clone()?;
        return Ok(Some(at));
    }
    PathName::resolve(alloc, at, component)
}

/// Puts where a component leads behind the places.
fn go_on(
    alloc: Global,
    before: &[u8],
    from: &Place,
    component: &[u8],
    places: &mut Places,
) -> Result<(), AllocError>
    ensures { OnOk result (places.new ≡ places.old ++ spec.on_by before.now from.now component.now) }
{
    match led(alloc, &from.at, component)? {
        Some(at) => {
            let mut text = from.text.clone()?;
            text.extend(before)?;
            text.extend(component)?;
            places.push(Place { text, at })
        }
        None => Ok(()),
    }
}

fn go_on_by(
    alloc: Global,
    before: &[u8],
    from: &Place,
    choices: &[Text],
    places: Places,
) -> Result<Places, AllocError>
    ensures { IfOk result (λ all. all ≡ places ++ flat_map (spec.on_by before.now from.now) choices.now) }
{
    let mut all = places;
    for choice in choices {
        go_on(alloc, before, from, choice.as_slice(), &mut all)?;
    }
    Ok(all)
}

/// Puts what a component reaches from a place behind the places.
fn step<B: Base>(
    alloc: Global,
    before: &[u8],
    part: &Part,
    from: &Place,
    places: Places,
    view: &mut View<B>,
) -> Result<Places, Halt>
    ensures { Acts B.seen (λ w. nothing (places ++ spec.on_from w.tree before.now part.now from.now) w) view.old view.new result }
{
    let found = choices(alloc, &from.at, part, view)?;
    let all = go_on_by(alloc, before, from, found.as_slice(), places)?;
    Ok(all)
}

/// What a component reaches from all of these places, behind a slash.
fn step_all<B: Base>(
    alloc: Global,
    part: &Part,
    places: &[Place],
    view: &mut View<B>,
) -> Result<Places, Halt>
    ensures { Acts B.seen (λ w. nothing (spec.on_from_all w.tree spec.slashed part.now places.now) w) view.old view.new result }
{
    let mut all = Places::new(alloc);
    for from in places {
        all = step(alloc, b"/", part, from, all, view)?;
    }
    Ok(all)
}

fn reach<B: Base>(
    alloc: Global,
    parts: &[Part],
    places: Places,
    view: &mut View<B>,
) -> Result<Places, Halt>
    ensures { Acts B.seen (λ w. nothing (spec.reached w.tree parts.now places) w) view.old view.new result }
{
    let mut all = places;
    for part in parts {
        all = step_all(alloc, part, all.as_slice(), view)?;
    }
    Ok(all)
}

fn start(alloc: Global, at: PathName) -> Place
    ensures { result ≡ spec.place [] at }
{
    Place {
        text: Text::new(alloc),
        at,
    }
}

/// What the first component reaches.
fn first_step<B: Base>(
    alloc: Global,
    at: PathName,
    part: &Part,
    view: &mut View<B>,
) -> Result<Places, Halt>
    ensures { Acts B.seen (λ w. nothing (spec.on_from w.tree [] part.now (spec.place [] at)) w) view.old view.new result }
{
    let from = start(alloc, at);
    let places = Places::new(alloc);
    step(alloc, b"", part, &from, places, view)
}

/// All that these components reach from a folder. For each place that is reached, one name or one folder is read.
pub fn reach_from<B: Base>(
    alloc: Global,
    at: PathName,
    parts: &[Part],
    view: &mut View<B>,
) -> Result<Places, Halt>
    ensures { Acts B.seen (λ w. nothing (spec.reached_from w.tree at parts.now) w) view.old view.new result }
{
    match parts.split_first() {
        Some((first, rest)) => {
            let places = first_step(alloc, at, first, view)?;
            reach(alloc, rest, places, view)
        }
        None => Ok(Places::new(alloc)),
    }
}
