//! What becomes of all headers that enter a network at a place.

use crate::sets::same_sets;
use cube_diagram::Diagrams;
use live_network::{LiveNetwork, net_of};
use net_types::{NoMemory, Place};
use set_walk::{WalkedSets, labels_and_visitors};
use std::alloc::Global;

/// More moves than there are places, so that what goes round comes back.
const TTL: u8 = 24;

/// The labels and the visitors, sets of this table.
#[derive(Drop)]
pub(crate) struct Walked {
    table: Diagrams,
    sets: WalkedSets,
}

/// What becomes of all headers that enter there.
pub(crate) fn walk_all(
    alloc: Global,
    live: &LiveNetwork,
    place: Place,
) -> Result<Walked, NoMemory> {
    let ways = live.ways();
    let net = net_of(ways, live.world());
    let mut table = ways.tables.diagrams.twin()?;
    let sets = labels_and_visitors(alloc, &mut table, &net, place, ways.scope, TTL)?;
    Ok(Walked { table, sets })
}

/// Whether the same headers have each outcome.
pub(crate) fn same_labels(
    alloc: Global,
    one: &mut Walked,
    other: &Walked,
) -> Result<bool, NoMemory> {
    let Walked { table, sets } = one;
    if sets.ends.len() != other.sets.ends.len() {
        return Ok(false);
    }
    for end in &sets.ends {
        let same = other.sets.ends.iter().find(|o| o.outcome == end.outcome);
        let Some(same) = same else {
            return Ok(false);
        };
        if !same_sets(alloc, table, end.headers, &other.table, same.headers)? {
            return Ok(false);
        }
    }
    Ok(true)
}

/// Whether the same headers visit each device.
pub(crate) fn same_visits(
    alloc: Global,
    one: &mut Walked,
    other: &Walked,
) -> Result<bool, NoMemory> {
    let Walked { table, sets } = one;
    if sets.visitors.len() != other.sets.visitors.len() {
        return Ok(false);
    }
    for visitor in &sets.visitors {
        let same = other
            .sets
            .visitors
            .iter()
            .find(|v| v.device == visitor.device);
        let Some(same) = same else {
            return Ok(false);
        };
        if !same_sets(alloc, table, visitor.headers, &other.table, same.headers)? {
            return Ok(false);
        }
    }
    Ok(true)
}
