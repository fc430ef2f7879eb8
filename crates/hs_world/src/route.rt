//! Where what is written to a descriptor goes (POSIX.1-2017, XCU 2.7).

ghost use Rattle.std.specs.Prelude.{◌≡◌, ◌↔◌, List, length, unwrap_or, option_copied, IsTrue, IfOk};
ghost use Rattle.hs_world.specs.Tables.{are_routes, first_routes, has_capture, has_same, is_route, is_same, is_table, may_all_stand, may_stand, route_at};
ghost use Rattle.hs_world.specs.declared.route.Route.TheVariants as route;
ghost use Rattle.hs_world.specs.declared.route.Route.{Route};

use crate::effect::Fd;
use crate::path::PathName;
use hs_text::Text;
use std::alloc::{AllocError, Global};
use std::marker::Model;

/// Where a descriptor leads.
#[derive(Clone, Drop)]
pub enum Route {
    /// To a stream of the program.
    Stream(Fd),
    /// Where this descriptor leads in the table below.
    Same(u8),
    /// To the end of a file.
    File(PathName),
    /// Nowhere, as `/dev/null`.
    Null,
    /// Nowhere: the descriptor is closed.
    Closed,
    /// To the text that this table takes up, as for a command substitution.
    Capture,
}

impl Route {
    /// Whether the two are equal.
    pub fn same(&self, other: &Route) -> bool
        ensures { IsTrue result ↔ (self.now ≡ other.now) }
    {
        match (self, other) {
            (Route::Stream(a), Route::Stream(b)) => *a == *b,
            (Route::Same(a), Route::Same(b)) => *a == *b,
            (Route::File(a), Route::File(b)) => a.same(b),
            (Route::Null, Route::Null) => true,
            (Route::Closed, Route::Closed) => true,
            (Route::Capture, Route::Capture) => true,
            _ => false,
        }
    }
}

fn are_same(a: &[Route], b: &[Route]) -> bool
    ensures { IsTrue result ↔ (a.now ≡ b.now) }
{
    match (a.split_first(), b.split_first()) {
        (None, None) => true,
        (Some((x, xs)), Some((y, ys))) => {
            if !x.same(y) {
                return false;
            }
            are_same(xs, ys)
        }
        _ => false,
    }
}

fn are_routes(routes: &[Route]) -> bool
    ensures { result ≡ are_routes routes.now }
{
    match routes.split_first() {
        None => true,
        Some((route, rest)) => is_route(route) && are_routes(rest),
    }
}

fn is_route(route: &Route) -> bool
    ensures { result ≡ is_route route.now }
{
    match route {
        Route::Same(descriptor) => 1 <= *descriptor && *descriptor <= 9,
        _ => true,
    }
}

fn has_same(descriptor: u8, routes: &[Route]) -> bool
    ensures { result ≡ has_same descriptor routes.now }
{
    match routes.split_first() {
        None => false,
        Some((route, rest)) => is_same(descriptor, route) || has_same(descriptor, rest),
    }
}

fn is_same(descriptor: u8, route: &Route) -> bool
    ensures { result ≡ is_same descriptor route.now }
{
    match route {
        Route::Same(other) => descriptor == *other,
        _ => false,
    }
}

fn has_capture(routes: &[Route]) -> bool
    ensures { result ≡ has_capture routes.now }
{
    match routes.split_first() {
        None => false,
        Some((Route::Capture, _)) => true,
        Some((_, rest)) => has_capture(rest),
    }
}

fn may_stand(table: &RouteTable, route: &Route) -> bool
    ensures { result ≡ may_stand table.now route.now }
{
    match route {
        Route::Capture => table.capture.is_some(),
        Route::Same(descriptor) => has_same(*descriptor, table.routes.as_slice()),
        _ => true,
    }
}

/// Whether these routes may stand in place of a table's.
pub fn may_all_stand(table: &RouteTable, routes: &[Route]) -> bool
    ensures { result ≡ may_all_stand table.now routes.now }
{
    match routes.split_first() {
        None => true,
        Some((route, rest)) => may_stand(table, route) && may_all_stand(table, rest),
    }
}

/// Where the descriptors 1 to 9 lead.
#[derive(Drop)]
pub struct Routes {
    items: Vec<Route>,
}

impl Model for Routes {
    ghost use Rattle.std.specs.Prelude.{◌≡◌, List, length};
    ghost use Rattle.hs_world.specs.declared.route.Route.{Route};

    ghost Value = { List Route };

    ghost view = { λ a. a.items.items };

    ghost invariant = { λ a. length a.items.items ≡ 9 };
}

/// A table of routes, with what it has taken up where it opened a capture.
#[derive(Drop)]
pub struct RouteTable {
    pub routes: Routes,
    pub capture: Option<Text>,
}

impl Clone for RouteTable {
    ghost is_clone = { λ x y. y ≡ x };

    fn clone(&self) -> Result<RouteTable, AllocError> {
        Ok(RouteTable {
            routes: self.routes.clone()?,
            capture: self.capture.clone()?,
        })
    }
}

impl Clone for Routes {
    ghost is_clone = { λ x y. y ≡ x };

    fn clone(&self) -> Result<Routes, AllocError> {
        let items = self.items.clone()?;
        Ok(Routes { items })
    }
}

impl Routes {
    /// Nine routes.
    pub fn from_vec(items: Vec<Route>) -> Routes
        requires { length items.items ≡ 9 }
        ensures { result ≡ items.items }
    {
        Routes { items }
    }

    /// How many routes: nine.
    pub fn len(&self) -> usize
        ensures len { result ≡ length self.now }
        ensures nine { length self.now ≡ 9 }
    {
        self.items.len()
    }

    /// Whether each `Same` names a descriptor from 1 to 9.
    pub fn is_table(&self) -> bool
        ensures { result ≡ is_table self.now }
    {
        self.items.len() == 9 && are_routes(self.items.as_slice())
    }

    /// Whether one is `Capture`.
    pub fn has_capture(&self) -> bool
        ensures { result ≡ has_capture self.now }
    {
        has_capture(self.items.as_slice())
    }

    /// Whether the two are equal.
    pub fn same(&self, other: &Routes) -> bool
        ensures { IsTrue result ↔ (self.now ≡ other.now) }
    {
        are_same(self.as_slice(), other.as_slice())
    }

    /// The routes with which a script begins: 1 and 2 lead to the two streams, and the others nowhere.
    pub fn first(alloc: Global) -> Result<Routes, AllocError>
        ensures { IfOk result (λ routes. routes ≡ first_routes) }
    {
        let mut items = Vec::with_capacity(alloc, 9)?;
        items.push(Route::Stream(Fd::One))?;
        items.push(Route::Stream(Fd::Two))?;
        items.push(Route::Closed)?;
        items.push(Route::Closed)?;
        items.push(Route::Closed)?;
        items.push(Route::Closed)?;
        items.push(Route::Closed)?;
        items.push(Route::Closed)?;
        items.push(Route::Closed)?;
        Ok(Routes { items })
    }

    /// The route of a descriptor, from 1 to 9.
    pub fn get(&self, descriptor: u8) -> Option<&Route>
        ensures { unwrap_or (option_copied result) route.Closed ≡ route_at descriptor self.now }
    {
        if descriptor == 0 {
            return None;
        }
        self.items.get(descriptor as usize - 1)
    }

    /// The routes from descriptor 1 on.
    pub fn as_slice(&self) -> &[Route]
        ensures { result.now ≡ self.now }
    {
        self.items.as_slice()
    }
}
