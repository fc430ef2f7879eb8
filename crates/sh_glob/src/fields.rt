//! The paths of fields.

ghost use Rattle.std.specs.Prelude.{◌≡◌, ◌++◌, IfOk};
ghost use Rattle.hs_view.specs.Acts.{Acts};
ghost use Rattle.hs_view.specs.Steps.{nothing};
ghost use Rattle.hs_world.specs.Paths.{begins_at};
ghost use Rattle.sh_glob.specs.Matches.{IsFilter};
ghost use Rattle.sh_glob.specs.Parts.{begins_with_slash, bytes_of};
ghost use Rattle.sh_glob.specs.Paths as spec;
ghost use Rattle.sh_glob.specs.Places.{reached_from};

use crate::part::{Part, is_pattern, read_parts, unquoted};
use crate::place::Places;
use crate::walk::reach_from;
use bitflags::Flags;
use hs_text::{Field, Fields, Text, TextList};
use hs_view::{Base, Halt, View};
use hs_world::{Opts, PathName};
use std::alloc::{AllocError, Global};

fn begins_with_slash(field: &Field) -> bool
    ensures { result ≡ begins_with_slash field.now }
{
    match field.as_slice().first() {
        Some(symbol) => symbol.0 == b'/',
        None => false,
    }
}

/// The folder from which a field names paths.
fn beginning<B: Base>(alloc: Global, field: &Field, view: &mut View<B>) -> Result<PathName, Halt>
    ensures { Acts B.seen (λ w. nothing (begins_at w.cwd (bytes_of field.now)) w) view.old view.new result }
{
    if begins_with_slash(field) {
        return Ok(PathName::root(alloc));
    }
    let cwd = view.cwd()?;
    Ok(cwd)
}

fn reach_parts<B: Base>(
    alloc: Global,
    field: &Field,
    parts: &[Part],
    view: &mut View<B>,
) -> Result<Places, Halt>
    ensures { Acts B.seen (λ w. nothing (reached_from w.tree (begins_at w.cwd (bytes_of field.now)) parts.now) w) view.old view.new result }
{
    let at = beginning(alloc, field, view)?;
    reach_from(alloc, at, parts, view)
}

/// The paths that match a field.
fn matching<B: Base>(alloc: Global, field: &Field, view: &mut View<B>) -> Result<TextList, Halt>
    ensures { Acts B.seen (λ w. nothing (spec.matching w.tree w.cwd field.now) w) view.old view.new result }
{
    let parts = read_parts(alloc, field.as_slice())?;
    let places = reach_parts(alloc, field, parts.as_slice(), view)?;
    let list = places.into_texts(alloc)?;
    Ok(list)
}

/// A field without its quotes.
fn itself(alloc: Global, field: &Field) -> Result<TextList, AllocError>
    ensures { IfOk result (λ list. list ≡ spec.itself field.now) }
{
    let bytes = unquoted(alloc, field.as_slice())?;
    let mut list = TextList::new(alloc);
    list.push(bytes)?;
    Ok(list)
}

/// The paths, or where there is none the field without its quotes.
fn or_itself(alloc: Global, paths: TextList, field: &Field) -> Result<TextList, AllocError>
    ensures { IfOk result (λ list. list ≡ spec.or_itself paths field.now) }
{
    if paths.as_slice().is_empty() {
        return itself(alloc, field);
    }
    Ok(paths)
}

fn matching_or_itself<B: Base>(
    alloc: Global,
    field: &Field,
    view: &mut View<B>,
) -> Result<TextList, Halt>
    ensures { Acts B.seen (λ w. nothing (spec.or_itself (spec.matching w.tree w.cwd field.now) field.now) w) view.old view.new result }
{
    let paths = matching(alloc, field, view)?;
    let list = or_itself(alloc, paths, field)?;
    Ok(list)
}

fn is_noglob(opts: Opts) -> bool
    ensures { result ≡ spec.is_noglob opts }
{
    opts.contains(Opts::NOGLOB)
}

fn pattern_paths<B: Base>(
    alloc: Global,
    field: &Field,
    view: &mut View<B>,
) -> Result<TextList, Halt>
    ensures { Acts B.seen (λ w. nothing (spec.pattern_paths w field.now) w) view.old view.new result }
{
    let opts = view.opts()?;
    if is_noglob(opts) {
        let list = itself(alloc, field)?;
        return Ok(list);
    }
    matching_or_itself(alloc, field, view)
}

fn field_paths<B: Base>(alloc: Global, field: &Field, view: &mut View<B>) -> Result<TextList, Halt>
    ensures { Acts B.seen (λ w. nothing (spec.field_paths w field.now) w) view.old view.new result }
{
    if is_pattern(field.as_slice()) {
        return pattern_paths(alloc, field, view);
    }
    let list = itself(alloc, field)?;
    Ok(list)
}

fn append(list: TextList, more: &[Text]) -> Result<TextList, AllocError>
    ensures { IfOk result (λ all. all ≡ list ++ more.now) }
{
    let mut all = list;
    for text in more {
        let text = text.clone()?;
        all.push(text)?;
    }
    Ok(all)
}

/// Puts the paths of a field behind the list.
fn add_paths<B: Base>(
    alloc: Global,
    field: &Field,
    list: TextList,
    view: &mut View<B>,
) -> Result<TextList, Halt>
    ensures { Acts B.seen (λ w. nothing (list ++ spec.field_paths w field.now) w) view.old view.new result }
{
    let paths = field_paths(alloc, field, view)?;
    let all = append(list, paths.as_slice())?;
    Ok(all)
}

fn all_paths<B: Base>(alloc: Global, fields: &[Field], view: &mut View<B>) -> Result<TextList, Halt>
    ensures { Acts B.seen (spec.paths_done fields.now) view.old view.new result }
{
    let mut all = TextList::new(alloc);
    for field in fields {
        all = add_paths(alloc, field, all, view)?;
    }
    Ok(all)
}

/// Pathname expansion, and quote removal (POSIX.1-2017, XCU 2.6.6 and 2.6.7). For each field that is a pattern, the paths
/// that match it, sorted by bytes and written as the field writes them; for the others, where no path matches, and under
/// option f, the field without its quotes.
///
/// In a tree of files the paths that match are a filter of the whole tree: the texts that lead to an entry and match the
/// field component by component. Only the folders that must be are read: a component that is a pattern reads the names of
/// each folder that it is reached with, and another component the kind of what it names there. A field that is no pattern
/// reads nothing.
///
/// A name is matched in at most as many steps as the pattern has items for each of its bytes, and n paths are sorted by
/// O(n log n) comparisons. It comes to a halt where a read of the view does, or for want of memory.
pub fn paths<B: Base>(alloc: Global, fields: &Fields, view: &mut View<B>) -> Result<TextList, Halt>
    ensures acts { Acts B.seen (spec.paths_done fields.now) view.old view.new result }
    ensures filter { IsFilter }
{
    all_paths(alloc, fields.as_slice(), view)
}
