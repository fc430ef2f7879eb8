//! Tables of routes above one another, the innermost last. Each call follows a descriptor through at most all of them.

ghost use Rattle.std.specs.Prelude.{◌≡◌, ◌≢◌, ◌↔◌, ◌<◌, ◌≤◌, ◌-◌, ℕ, List, [], ◌∷◌, length, reverse, true, false, OnOk, OnErr, IfOk, IsTrue, Some, None, MatchOption, option_copied, unwrap_or, slice_set, slice_index_or};
ghost use Rattle.hs_world.specs.Seen.{seen_as};
ghost use Rattle.hs_world.specs.Tables.{captured_in, emitted_below, emitted_in, end_in, ends_from, ends_of, route_at, seen_in, take_up, taker_in};
ghost use Rattle.hs_world.specs.declared.route.Route.TheVariants as route;

use crate::route::{Route, RouteTable, Routes};
use hs_text::Text;
use std::alloc::{AllocError, Global};

/// Where a descriptor leads in the end. None is a closed one.
pub fn end_below<'a>(descriptor: u8, tables: &'a [RouteTable]) -> Option<&'a Route>
    ensures { unwrap_or (option_copied result) route.Closed ≡ end_in descriptor (reverse tables.entry.now) }
{
    match tables.split_last() {
        None => None,
        Some((table, below)) => match table.routes.get(descriptor) {
            Some(Route::Same(other)) => end_below(*other, below),
            end => end,
        },
    }
}

/// The end of a descriptor, as it is seen: a capture that is not the innermost one is seen as nowhere.
#[derive(Clone, Copy)]
pub enum Seen<'a> {
    At(&'a Route),
    Nowhere,
    Closed,
}

impl<'a> Seen<'a> {
    pub fn to_route(self) -> Result<Route, AllocError>
        ensures { IfOk result (λ route. route ≡ seen_as self.entry) }
    {
        match self {
            Seen::At(route) => route.clone(),
            Seen::Nowhere => Ok(Route::Null),
            Seen::Closed => Ok(Route::Closed),
        }
    }

    pub fn is(self, other: &Route) -> bool
        ensures { IsTrue result ↔ (seen_as self.entry ≡ other.now) }
    {
        match (self, other) {
            (Seen::At(route), other) => route.same(other),
            (Seen::Nowhere, Route::Null) => true,
            (Seen::Closed, Route::Closed) => true,
            _ => false,
        }
    }
}

/// The end of a descriptor as it is seen from above these tables. `hidden` says that a capture stands above them.
pub fn seen_below<'a>(hidden: bool, descriptor: u8, tables: &'a [RouteTable]) -> Seen<'a>
    ensures { seen_as result ≡ seen_in hidden descriptor (reverse tables.entry.now) }
{
    match tables.split_last() {
        None => Seen::Closed,
        Some((table, below)) => match table.routes.get(descriptor) {
            None => Seen::Closed,
            Some(Route::Same(other)) => {
                seen_below(hidden || table.capture.is_some(), *other, below)
            }
            Some(Route::Capture) if hidden || table.capture.is_none() => Seen::Nowhere,
            Some(route) => Seen::At(route),
        },
    }
}

/// The end of a descriptor as it is seen.
pub fn seen_end<'a>(descriptor: u8, table: &'a RouteTable, below: &'a [RouteTable]) -> Seen<'a>
    ensures { seen_as result ≡ seen_in false descriptor (table.entry.now ∷ reverse below.entry.now) }
{
    match table.routes.get(descriptor) {
        None => Seen::Closed,
        Some(Route::Same(other)) => seen_below(table.capture.is_some(), *other, below),
        Some(Route::Capture) if table.capture.is_none() => Seen::Nowhere,
        Some(route) => Seen::At(route),
    }
}

/// The ends of the descriptors 1 to 9.
pub fn ends(alloc: Global, table: &RouteTable, below: &[RouteTable]) -> Result<Routes, AllocError>
    ensures { IfOk result (λ routes. routes ≡ ends_of (table.now ∷ reverse below.now)) }
{
    let mut items = Vec::with_capacity(alloc, 9)?;
    let mut descriptor = 1u8;
    while descriptor < 10 {
        items.push(seen_end(descriptor, table, below).to_route()?)?;
        descriptor += 1;
    }
    Ok(Routes::from_vec(items))
}

/// Whether these are the ends of the descriptors from one up to 9.
pub fn are_ends(descriptor: u8, routes: &[Route], table: &RouteTable, below: &[RouteTable]) -> bool
    requires low { 1 ≤ descriptor }
    requires small { descriptor ≤ 10 }
    ensures { IsTrue result ↔ (ends_from (10 - descriptor) descriptor (table.now ∷ reverse below.now) ≡ routes.now) }
{
    if descriptor == 10 {
        return routes.is_empty();
    }
    match routes.split_first() {
        None => false,
        Some((route, rest)) => {
            if !seen_end(descriptor, table, below).is(route) {
                return false;
            }
            are_ends(descriptor + 1, rest, table, below)
        }
    }
}

/// The capture that takes up what goes to a descriptor.
pub fn taker_below<'a>(descriptor: u8, tables: &'a [RouteTable]) -> Option<&'a Text>
    ensures { option_copied result ≡ taker_in descriptor (reverse tables.entry.now) }
{
    match tables.split_last() {
        None => None,
        Some((table, below)) => match table.routes.get(descriptor) {
            Some(Route::Same(other)) => taker_below(*other, below),
            Some(Route::Capture) => table.capture.as_ref(),
            _ => None,
        },
    }
}

/// What the innermost capture has taken up.
pub fn captured_below<'a>(tables: &'a [RouteTable]) -> Option<&'a Text>
    ensures { unwrap_or (option_copied result) [] ≡ captured_in (reverse tables.entry.now) }
{
    match tables.split_last() {
        None => None,
        Some((table, below)) => match &table.capture {
            Some(text) => Some(text),
            None => captured_below(below),
        },
    }
}

/// Puts a text behind what a table took up, where its route says so. Where there is no memory, it stays.
pub fn take_up(table: &mut RouteTable, descriptor: u8, text: &Text) -> Result<(), AllocError>
    ensures ok { OnOk result (table.new ≡ take_up (route_at descriptor table.old.routes) text.now table.old) }
    ensures err { OnErr result (table.new ≡ table.old) }
{
    match table.routes.get(descriptor) {
        Some(Route::Capture) => match &mut table.capture {
            Some(old) => old.extend(text.as_slice()),
            None => Ok(()),
        },
        _ => Ok(()),
    }
}

/// Puts a text behind what the table took up that a descriptor leads to, if it leads to one. Where there is no memory,
/// all stay.
pub fn emit_below(descriptor: u8, text: &Text, tables: &mut [RouteTable]) -> Result<(), AllocError>
    ensures ok { OnOk result (reverse tables.new ≡ emitted_in descriptor text.now (reverse tables.old)) }
    ensures err { OnErr result (tables.new ≡ tables.old) }
{
    match tables.split_last_mut() {
        None => Ok(()),
        Some((table, below)) => match table.routes.get(descriptor) {
            Some(Route::Same(other)) => emit_below(*other, text, below),
            _ => take_up(table, descriptor, text),
        },
    }
}

/// Puts a text behind what is taken up where a descriptor leads, by the innermost table and those below it. Where there
/// is no memory, all stay.
pub fn emit(
    descriptor: u8,
    text: &Text,
    table: &mut RouteTable,
    below: &mut [RouteTable],
) -> Result<(), AllocError>
    ensures table { OnOk result (table.new ≡ take_up (route_at descriptor table.old.routes) text.now table.old) }
    ensures below { OnOk result (reverse below.new ≡ emitted_below (route_at descriptor table.old.routes) text.now (reverse below.old)) }
    ensures err { OnErr result (table.new ≡ table.old) }
    ensures err_below { OnErr result (below.new ≡ below.old) }
{
    match table.routes.get(descriptor) {
        Some(Route::Same(other)) => emit_below(*other, text, below),
        _ => take_up(table, descriptor, text),
    }
}
