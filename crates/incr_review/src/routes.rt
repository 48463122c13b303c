//! The static routes of a device after an edit of one of them.

ghost use Rattle.std.specs.Prelude.{◌≡◌, [], ◌∷◌, ◌++◌, position, IfErr, OnOk};
ghost use Rattle.incr_review.specs.declared.edits.EditFail.TheVariants as fail;
ghost use Rattle.incr_review.specs.declared.edits.EditKind.TheVariants as kind;
ghost use Rattle.incr_review.specs.Edited.{IsFailOf, drop_first};
ghost use Rattle.incr_review.specs.Same.{same_route};

use crate::edits::{EditFail, EditKind};
use crate::lists::remove_at;
use crate::same::same_route;
use net_types::{Duplicate, List, Route};
use std::alloc::Global;

/// Puts the route behind the others.
pub(crate) fn add_route(
    alloc: Global,
    routes: &mut List<Route>,
    route: &Route,
) -> Result<(), EditFail>
    ensures ok { OnOk result (routes.new ≡ routes.old ++ route.now ∷ []) }
    ensures fail { IfErr result (λ e. e ≡ fail.NoMemory) }
{
    let copy = route.copy(alloc)?;
    routes.push(copy)?;
    Ok(())
}

/// Takes the first route out that is equal to this one.
pub(crate) fn drop_route(
    alloc: Global,
    routes: &mut List<Route>,
    route: &Route,
) -> Result<(), EditFail>
    ensures ok { OnOk result (drop_first (same_route route.now) kind.NoSuchRoute routes.old ≡ Ok routes.new) }
    ensures fail { IfErr result (IsFailOf (drop_first (same_route route.now) kind.NoSuchRoute routes.old)) }
{
    let Some(position) = route_position(routes.as_slice(), route) else {
        return Err(EditFail::Refused {
            kind: EditKind::NoSuchRoute,
        });
    };
    remove_at(alloc, routes, position);
    Ok(())
}

fn route_position(routes: &[Route], route: &Route) -> Option<usize>
    ensures { result ≡ position (same_route route.now) routes.now }
{
    routes.iter().position(|other| same_route(route, other))
}
