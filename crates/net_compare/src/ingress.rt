//! The pairs of labels of an ingress, by walks of sets of headers in both networks.

ghost use Rattle.std.specs.Prelude.{◌<◌, IfOk};
ghost use Rattle.cube_diagram.specs.Functions.{Keeps, count_of};
ghost use Rattle.net_types.specs.Report.{affected};
ghost use Rattle.net_view.specs.Borrowed.{world_of};
ghost use Rattle.pair_rows.specs.Functions.{IsFunctionOf};
ghost use Rattle.set_walk.specs.Nets.{IsNet};
ghost use Rattle.set_walk.specs.Sets.{IsWithin};
ghost use Rattle.net_compare.specs.Rows.{AreAlikeOutside};
ghost use Rattle.net_compare.specs.Walkable.{AreWalkable};

use crate::compared::Compared;
use crate::pairs::{no_pairs, pairs_given};
use cube_diagram::Diagrams;
use net_types::{NoMemory, Place};
use pair_rows::PairFunction;
use set_walk::label_numbers;
use std::alloc::Global;

/// The function that gives a header that enters at the place its two labels, where they differ. Walks add to the table, but none
/// that was there is changed.
pub(crate) fn pairs_at(
    alloc: Global,
    table: &mut Diagrams,
    compared: &Compared,
    place: Place,
) -> Result<PairFunction, NoMemory>
    requires { AreWalkable table.old compared.now }
    ensures given { IfOk result (IsFunctionOf (affected (world_of compared.now.old.now.world) (world_of compared.now.new.now.world) compared.now.ttl place)) }
    ensures kept { Keeps table.old table.new }
{
    let domain = compared.reach.headers_at(table, place)?;
    let given = pairs_on(alloc, table, compared, place, domain)?;
    Ok(given)
}

// By the headers whose labels differ, all of which the domain has, a set of headers of the networks' scopes.
fn pairs_on(
    alloc: Global,
    table: &mut Diagrams,
    compared: &Compared,
    place: Place,
    domain: u32,
) -> Result<PairFunction, NoMemory>
    requires old { IsNet table.old compared.now.old.now }
    requires new { IsNet table.old compared.now.new.now }
    requires domain { domain < count_of table.old }
    requires old_within { IsWithin table.old domain compared.now.old.now.scope }
    requires new_within { IsWithin table.old domain compared.now.new.now.scope }
    requires alike { AreAlikeOutside (world_of compared.now.old.now.world) (world_of compared.now.new.now.world) compared.now.ttl place table.old domain }
    ensures given { IfOk result (IsFunctionOf (affected (world_of compared.now.old.now.world) (world_of compared.now.new.now.world) compared.now.ttl place)) }
    ensures kept { Keeps table.old table.new }
{
    if table.is_nothing(domain) {
        let none = no_pairs(alloc)?;
        return Ok(none);
    }
    let ttl = compared.ttl;
    let before = label_numbers(alloc, table, compared.old, place, domain, ttl)?;
    let after = label_numbers(alloc, table, compared.new, place, domain, ttl)?;
    let given = pairs_given(alloc, table, compared.classes, &before, &after)?;
    Ok(given)
}
