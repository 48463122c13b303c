//! The valid routes of a list, found prefix by prefix from those that are valid without another route.

ghost use Rattle.std.specs.Prelude.{◌≡◌, List, IfOk};
ghost use Rattle.net_types.specs.declared.config.Route.{Route};
ghost use Rattle.net_types.specs.Routes.{leads_into};
ghost use Rattle.rib_build.specs.Interfaces.{stands_by};
ghost use Rattle.rib_build.specs.Prefixes.{AreOf};
ghost use Rattle.rib_build.specs.Valid.{valid_by};

use crate::interfaces::Interfaces;
use crate::prefixes::Prefixes;
use crate::waiting::{add_held, anchored_prefixes, waiting_by_next};
use net_types::{NoMemory, Route, RouteExit};
use std::alloc::Global;

/// The routes of the list that are valid, in the same order.
pub fn valid_routes(
    alloc: Global,
    interfaces: &Interfaces,
    routes: Vec<Route>,
) -> Result<Vec<Route>, NoMemory>
    ensures { IfOk result (λ kept. kept.items ≡ valid_by interfaces.now routes.items) }
{
    let mut kept = routes;
    let prefixes = valid_prefixes(alloc, interfaces, kept.as_slice())?;
    kept.retain(|route| stands(interfaces, &prefixes, route));
    Ok(kept)
}

/// The prefixes of the valid routes of the list.
///
/// Each prefix is worked through once: the routes whose next hop it holds are valid too, and their prefixes are added
/// to those that are still pending.
fn valid_prefixes(
    alloc: Global,
    interfaces: &Interfaces,
    routes: &[Route],
) -> Result<Prefixes, NoMemory>
    ensures { IfOk result (λ prefixes. AreOf prefixes (valid_by interfaces.now routes.now)) }
{
    let waiting = waiting_by_next(alloc, interfaces, routes)?;
    let mut pending = anchored_prefixes(alloc, interfaces, routes)?;
    let mut found = Prefixes::none(alloc, routes.len())?;
    for _turn in 0..u64::MAX {
        let Some(prefix) = pending.pop() else {
            return Ok(found);
        };
        if found.has(&prefix) {
            continue;
        }
        found.add(&prefix)?;
        add_held(waiting.as_slice(), &prefix, &mut pending)?;
    }
    // A route's prefix is added for at most 33 prefixes that hold its next hop, so this is never reached.
    Err(NoMemory)
}

fn stands(interfaces: &Interfaces, before: &Prefixes, route: &Route) -> bool
    ensures { (rs : List Route) → AreOf before.now rs → result ≡ stands_by interfaces.now rs route.now }
{
    interfaces.is_usable(route)
        && (interfaces.is_anchored(&route.exit) || leads_into(before, &route.exit))
}

fn leads_into(before: &Prefixes, exit: &RouteExit) -> bool
    ensures { (rs : List Route) → AreOf before.now rs → result ≡ leads_into rs exit.now }
{
    match exit {
        RouteExit::Null => false,
        RouteExit::Port { name: _ } => false,
        RouteExit::Both { name: _, next: _ } => false,
        RouteExit::Next { next } => before.any_holds(*next),
    }
}
