//! What effects make of the tables of routes, and where what goes to a descriptor goes. Each call follows a descriptor
//! through at most all tables that the effects pushed.

ghost use Rattle.std.specs.Prelude.{◌≡◌, ◌∷◌, ◌-◌, ◌++◌, ◌≤◌, Some, None, length, drop, reverse, option_copied, option_map, is_some, OnOk, IfOk};
ghost use Rattle.hs_world.specs.Tables.{emitted_in, end_in, is_same, route_at, taker_in};
ghost use Rattle.hs_world.specs.declared.route.Route.TheVariants as route;
ghost use Rattle.hs_world.specs.World.{file_in};
ghost use Rattle.hs_overlay.specs.Ends.{end_as};
ghost use Rattle.hs_overlay.specs.Routing.{arrived, base_end, base_file, captured_over, emitted_over, end_beside, ends_over, file_at, file_over, hide, lead, new_table, no_routing, passed_on, replaced_by, replaced_end, routes_over, routes_returned, seen_over, top_with, with_routes, with_saved};

use hs_text::Text;
use hs_world::{PathName, Route, RouteTable, Routes, emit_below, end_below};
use std::alloc::{AllocError, Global};
use std::marker::Model;

/// What is known of the base's tables.
#[derive(Drop)]
pub struct BaseRoutes {
    /// What stands in place of the routes of the innermost table.
    pub replaced: Option<Routes>,
    /// Where the descriptors lead.
    pub ends: Option<Routes>,
    /// The routes that the innermost table had.
    pub routes: Option<Routes>,
}

/// The tables that the effects pushed, the innermost last, above the base's.
#[derive(Drop)]
pub struct Routing {
    alloc: Global,
    pushed: Vec<RouteTable>,
    base: BaseRoutes,
    given: Text,
    loose: bool,
}

impl Model for Routing {
    ghost use Rattle.std.specs.Prelude.{reverse};
    ghost use Rattle.hs_overlay.specs.Routing.{RoutingData};

    ghost Value = { RoutingData };

    ghost view = { λ a. record { pushed = reverse a.pushed.items; base = a.base; given = a.given; loose = a.loose } };
}

/// Where a descriptor leads.
#[derive(Clone, Copy)]
pub enum End<'a> {
    At(&'a Route),
    Nowhere,
    Closed,
    Unknown,
}

impl<'a> End<'a> {
    /// The same, as it is seen from above: a capture that another one stands above is seen as nowhere.
    fn hidden(self, hidden: bool) -> End<'a>
        ensures { end_as result ≡ option_map (hide hidden) (end_as self.entry) }
    {
        match self {
            End::At(Route::Capture) if hidden => End::Nowhere,
            end => end,
        }
    }

    /// The route, where it is known.
    fn to_route(self) -> Result<Option<Route>, AllocError>
        ensures { IfOk result (λ route. route ≡ end_as self.entry) }
    {
        match self {
            End::At(route) => Ok(Some(route.clone()?)),
            End::Nowhere => Ok(Some(Route::Null)),
            End::Closed => Ok(Some(Route::Closed)),
            End::Unknown => Ok(None),
        }
    }
}

/// The end at the place of a table where this `Same` stands.
fn end_beside<'a>(descriptor: u8, routes: &'a [Route], ends: &'a [Route]) -> End<'a>
    ensures { end_as result ≡ end_beside descriptor routes.entry.now ends.entry.now }
{
    match (routes.split_first(), ends.split_first()) {
        (Some((route, routes)), Some((end, ends))) => {
            if is_same(descriptor, route) {
                return End::At(end);
            }
            end_beside(descriptor, routes, ends)
        }
        _ => End::Unknown,
    }
}

fn is_same(descriptor: u8, route: &Route) -> bool
    ensures { result ≡ is_same descriptor route.now }
{
    match route {
        Route::Same(other) => descriptor == *other,
        _ => false,
    }
}

/// Where one of the base's descriptors leads.
fn base_end<'a>(base: &'a BaseRoutes, descriptor: u8) -> End<'a>
    ensures { end_as result ≡ base_end base.entry.now descriptor }
{
    match &base.replaced {
        None => known_end(&base.ends, descriptor),
        Some(table) => match table.get(descriptor) {
            None => End::Closed,
            Some(Route::Same(other)) => followed(base, *other),
            Some(route) => End::At(route),
        },
    }
}

fn known_end<'a>(ends: &'a Option<Routes>, descriptor: u8) -> End<'a>
    ensures { end_as result ≡ option_map (route_at descriptor) ends.entry.now }
{
    match ends {
        None => End::Unknown,
        Some(ends) => match ends.get(descriptor) {
            Some(route) => End::At(route),
            None => End::Closed,
        },
    }
}

/// Where a `Same` of the base's innermost table led.
fn followed<'a>(base: &'a BaseRoutes, descriptor: u8) -> End<'a>
    ensures { end_as result ≡ replaced_end base.entry.now.ends base.entry.now.routes (route.Same descriptor) }
{
    match (&base.ends, &base.routes) {
        (Some(ends), Some(routes)) => { end_beside(descriptor, routes.as_slice(), ends.as_slice()) }
        _ => End::Unknown,
    }
}

/// The descriptor by which one leads below these tables, if it does.
fn lead(descriptor: u8, tables: &[RouteTable]) -> Option<u8>
    ensures { result ≡ lead descriptor (reverse tables.now) }
{
    match tables.split_last() {
        None => Some(descriptor),
        Some((table, below)) => match table.routes.get(descriptor) {
            Some(Route::Same(other)) => lead(*other, below),
            _ => None,
        },
    }
}

/// Where a descriptor leads, as it is seen from above these tables. `hidden` says that a capture stands above them.
fn seen_over<'a>(
    hidden: bool,
    descriptor: u8,
    tables: &'a [RouteTable],
    base: &'a BaseRoutes,
) -> End<'a>
    ensures { end_as result ≡ seen_over hidden descriptor (reverse tables.entry.now) base.entry.now }
{
    match tables.split_last() {
        None => base_end(base, descriptor).hidden(hidden),
        Some((table, below)) => match table.routes.get(descriptor) {
            None => End::Closed,
            Some(Route::Same(other)) => {
                seen_over(hidden || table.capture.is_some(), *other, below, base)
            }
            Some(Route::Capture) if hidden || table.capture.is_none() => End::Nowhere,
            Some(route) => End::At(route),
        },
    }
}

/// What the innermost capture of these tables has taken up.
fn captured<'a>(tables: &'a [RouteTable]) -> Option<&'a Text>
    ensures { option_copied result ≡ captured_over (reverse tables.entry.now) }
{
    match tables.split_last() {
        None => None,
        Some((table, below)) => match &table.capture {
            Some(text) => Some(text),
            None => captured(below),
        },
    }
}

/// The capture of these tables that takes up what goes to a descriptor.
fn taker<'a>(descriptor: u8, tables: &'a [RouteTable]) -> Option<&'a Text>
    ensures { option_copied result ≡ taker_in descriptor (reverse tables.entry.now) }
{
    match tables.split_last() {
        None => None,
        Some((table, below)) => match table.routes.get(descriptor) {
            Some(Route::Same(other)) => taker(*other, below),
            Some(Route::Capture) => table.capture.as_ref(),
            _ => None,
        },
    }
}

/// A table of these routes, which opens a capture where one of them is `Capture`.
fn new_table(alloc: Global, routes: &Routes) -> Result<RouteTable, AllocError>
    ensures { IfOk result (λ table. table ≡ new_table routes.now) }
{
    let routes = routes.clone()?;
    if routes.has_capture() {
        return Ok(RouteTable {
            routes,
            capture: Some(Text::new(alloc)),
        });
    }
    Ok(RouteTable {
        routes,
        capture: None,
    })
}

fn put(table: &mut RouteTable, routes: Routes)
    ensures { table.new ≡ record table.old { routes = routes } }
{
    table.routes = routes;
}

/// Replaces the routes of the innermost table, the last one.
fn set_last(tables: &mut [RouteTable], routes: Routes)
    ensures { reverse tables.new ≡ top_with routes (reverse tables.old) }
{
    match tables.split_last_mut() {
        None => {}
        Some((table, _below)) => put(table, routes),
    }
}

impl Routing {
    /// No table is pushed, over a base of which this is known.
    pub fn new(alloc: Global, ends: Option<Routes>, routes: Option<Routes>) -> Routing
        ensures { result ≡ no_routing ends routes }
    {
        Routing {
            alloc,
            pushed: Vec::new(alloc),
            base: BaseRoutes {
                replaced: None,
                ends,
                routes,
            },
            given: Text::new(alloc),
            loose: false,
        }
    }

    /// How many tables the effects pushed.
    pub fn depth(&self) -> usize
        ensures { result ≡ length self.now.pushed }
    {
        self.pushed.len()
    }

    /// The routes of the innermost table, where they are not the base's own.
    pub fn routes(&self) -> Option<&Routes>
        ensures { option_copied result ≡ routes_over self.now }
    {
        match self.pushed.last() {
            Some(table) => Some(&table.routes),
            None => self.base.replaced.as_ref(),
        }
    }

    /// Whether bytes went by one of the base's descriptors while nobody knew where it leads.
    pub fn is_loose(&self) -> bool
        ensures { result ≡ self.now.loose }
    {
        self.loose
    }

    /// What the base's innermost capture has taken up.
    pub fn given(&self) -> &Text
        ensures { result.now ≡ self.now.given }
    {
        &self.given
    }

    /// What the innermost capture that the effects opened has taken up.
    pub fn captured(&self) -> Option<&Text>
        ensures { option_copied result ≡ captured_over self.now.pushed }
    {
        captured(self.pushed.as_slice())
    }

    /// The capture that the effects opened which takes up what goes to a descriptor.
    pub fn taker(&self, descriptor: u8) -> Option<&Text>
        ensures { option_copied result ≡ taker_in descriptor self.now.pushed }
    {
        taker(descriptor, self.pushed.as_slice())
    }

    /// Where the descriptors 1 to 9 lead. None is what is not known.
    pub fn ends(&self) -> Result<Option<Routes>, AllocError>
        ensures { IfOk result (λ ends. ends ≡ ends_over 9 1 self.now) }
    {
        let mut items = Vec::with_capacity(self.alloc, 9)?;
        let mut descriptor = 1u8;
        while descriptor < 10 {
            let end = seen_over(false, descriptor, self.pushed.as_slice(), &self.base);
            match end.to_route()? {
                Some(route) => items.push(route)?,
                None => return Ok(None),
            }
            descriptor += 1;
        }
        Ok(Some(Routes::from_vec(items)))
    }

    /// The file that a descriptor leads to, as far as that is known.
    pub fn file(&self, descriptor: u8) -> Option<&PathName>
        ensures { option_copied result ≡ file_over descriptor self.now }
    {
        match end_below(descriptor, self.pushed.as_slice()) {
            Some(Route::File(path)) => Some(path),
            _ => self.base_file(descriptor),
        }
    }

    fn base_file(&self, descriptor: u8) -> Option<&PathName>
        ensures { option_copied result ≡ base_file self.now (lead descriptor self.now.pushed) }
    {
        match lead(descriptor, self.pushed.as_slice()) {
            None => None,
            Some(other) => match base_end(&self.base, other) {
                End::At(Route::File(path)) => Some(path),
                _ => None,
            },
        }
    }

    /// A text goes to a descriptor.
    pub fn emit(&mut self, descriptor: u8, text: &Text) -> Result<(), AllocError>
        ensures { OnOk result (self.new ≡ emitted_over descriptor text.now self.old) }
    {
        let lead = lead(descriptor, self.pushed.as_slice());
        emit_below(descriptor, text, self.pushed.as_mut_slice())?;
        match lead {
            None => Ok(()),
            Some(other) => self.pass_on(other, text),
        }
    }

    /// A text goes to one of the base's descriptors.
    fn pass_on(&mut self, descriptor: u8, text: &Text) -> Result<(), AllocError>
        ensures { OnOk result (self.new ≡ passed_on (Some descriptor) text.now self.old) }
    {
        match base_end(&self.base, descriptor) {
            End::At(Route::Capture) => self.given.extend(text.as_slice()),
            End::Unknown => {
                self.loose = true;
                Ok(())
            }
            _ => Ok(()),
        }
    }

    /// Puts a table above the others.
    pub fn push(&mut self, routes: &Routes) -> Result<(), AllocError>
        ensures { OnOk result (self.new ≡ record self.old { pushed = new_table routes.now ∷ self.old.pushed }) }
    {
        let table = new_table(self.alloc, routes)?;
        self.pushed.push(table)?;
        Ok(())
    }

    /// Takes the innermost table away.
    pub fn pop(&mut self)
        ensures { self.new ≡ record self.old { pushed = drop 1 self.old.pushed } }
    {
        if let Some(table) = self.pushed.pop() {
            let _ = table;
        }
    }

    /// Replaces the routes of the innermost table.
    pub fn set(&mut self, routes: Routes)
        ensures { self.new ≡ with_routes routes self.old }
    {
        if self.pushed.is_empty() {
            self.base.replaced = Some(routes);
            return;
        }
        set_last(self.pushed.as_mut_slice(), routes);
    }

    /// The innermost table gets these routes back where they go back, or the base's own where none was pushed.
    pub fn give_back(&mut self, back: bool, routes: Option<Routes>)
        ensures { self.new ≡ routes_returned back routes self.old }
    {
        if back {
            self.restore(routes);
        }
    }

    fn restore(&mut self, routes: Option<Routes>)
        ensures { self.new ≡ with_saved routes self.old }
    {
        match routes {
            Some(routes) => self.set(routes),
            None => {
                if self.pushed.is_empty() {
                    self.base.replaced = None;
                }
            }
        }
    }
}
