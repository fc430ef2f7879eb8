//! What a view's effects make of its base's state, by what was read of the base's tables of routes.

ghost use Rattle.std.specs.Prelude.{◌≡◌, None, IfOk};
ghost use Rattle.hs_overlay.specs.Overlay.{no_overlay, over_all};
ghost use Rattle.hs_world.specs.declared.loc.Loc.TheVariants as loc;
ghost use Rattle.hs_view.specs.Known.{ends_in, ends_or, is_of_tables, routes_in, routes_or};

use hs_overlay::Overlay;
use hs_world::{Effect, Loc, Reads, Routes, Value};
use std::alloc::{AllocError, Global};

/// The tables of these effects, over a base of which this was read. It takes one pass over the effects.
pub fn overlay_of(alloc: Global, reads: &Reads, effects: &[Effect]) -> Result<Overlay, AllocError>
    ensures { IfOk result (λ overlay. overlay ≡ over_all effects.now (no_overlay (ends_in reads.now) (routes_in reads.now))) }
{
    let ends = known_ends(reads)?;
    let routes = known_routes(reads)?;
    done(alloc, ends, routes, effects)
}

fn done(
    alloc: Global,
    ends: Option<Routes>,
    routes: Option<Routes>,
    effects: &[Effect],
) -> Result<Overlay, AllocError>
    ensures { IfOk result (λ overlay. overlay ≡ over_all effects.now (no_overlay ends routes)) }
{
    let mut overlay = Overlay::new(alloc, ends, routes);
    for effect in effects {
        overlay.step(effect)?;
    }
    Ok(overlay)
}

fn known_ends(reads: &Reads) -> Result<Option<Routes>, AllocError>
    ensures { IfOk result (λ ends. ends ≡ ends_in reads.now) }
{
    let _fresh = reads.as_slice();
    match reads.find(&Loc::Ends) {
        None => Ok(None),
        Some(value) => ends_of(value),
    }
}

fn ends_of(value: &Value) -> Result<Option<Routes>, AllocError>
    ensures { IfOk result (λ ends. ends ≡ ends_or loc.Ends value.now None) }
{
    match value {
        Value::Ends(routes) => Ok(Some(routes.clone()?)),
        _ => Ok(None),
    }
}

fn known_routes(reads: &Reads) -> Result<Option<Routes>, AllocError>
    ensures { IfOk result (λ routes. routes ≡ routes_in reads.now) }
{
    let _fresh = reads.as_slice();
    match reads.find(&Loc::Routes) {
        None => Ok(None),
        Some(value) => routes_of(value),
    }
}

fn routes_of(value: &Value) -> Result<Option<Routes>, AllocError>
    ensures { IfOk result (λ routes. routes ≡ routes_or loc.Routes value.now None) }
{
    match value {
        Value::Routes(routes) => Ok(Some(routes.clone()?)),
        _ => Ok(None),
    }
}

/// Whether a read tells of the base's tables of routes.
pub fn is_of_tables(loc: &Loc) -> bool
    ensures { result ≡ is_of_tables loc.now }
{
    match loc {
        Loc::Ends => true,
        Loc::Routes => true,
        _ => false,
    }
}
