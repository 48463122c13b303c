//! A variant, compared with the network by what is kept of that.

ghost use Rattle.std.specs.Prelude.{◌≡◌, ◌≤◌, IfOk};
ghost use Rattle.indexmap.specs.IndexMap.{get};
ghost use Rattle.live_network.specs.Live.{IsLive, IsRenewed};
ghost use Rattle.net_types.specs.declared.network.Place.{Place};
ghost use Rattle.net_types.specs.Report.{IsReport};
ghost use Rattle.net_types.specs.World.{same_place};
ghost use Rattle.net_view.specs.Borrowed.{world_of};
ghost use Rattle.place_ways.specs.Places.{ArePlaceWays};
ghost use Rattle.net_variants.specs.Kept.{IsKept, back};
ghost use Rattle.net_variants.specs.Variants.{IsVariantReport};

use crate::kept::{Kept, put_back, replace_all};
use indexmap::IndexMap;
use live_network::LiveWays;
use net_compare::{NetPair, compare_known};
use net_forms::Networks;
use net_types::{NetDevice, NoMemory, Place, Section};
use net_view::WorldRef;
use set_walk::Net;
use std::alloc::Global;
use std::sync::Wait;
use std::thread::Threads;
use steal_pool::{Gate, Workers};

/// The devices of a variant, and the TTL with which packets enter.
#[derive(Clone, Copy)]
pub(crate) struct Asked<'a> {
    pub changes: &'a [NetDevice],
    pub ttl: u8,
}

/// The report on the network and a variant of it. The network is as before afterwards, with what is kept of it, also where there was no
/// memory.
pub(crate) fn compare_kept<G: Gate + Sync, R: Threads + Wait + Sync>(
    by: &Workers<R, G>,
    alloc: Global,
    world: WorldRef,
    kept: &mut Kept,
    asked: Asked,
) -> Result<Vec<Section>, NoMemory>
    requires kept { IsKept (world_of world) kept.old }
    requires ttl { 1 ≤ asked.ttl }
    ensures report { IfOk result (λ sections. IsVariantReport (world_of world.entry) asked.entry.changes.now asked.entry.ttl sections.items) }
    ensures kept { IsKept (world_of world.entry) kept.new }
{
    let before = copied(&kept.live.ways.positions)?;
    let sections = compare_from(by, alloc, world, kept, &before, asked);
    put_back(alloc, kept);
    kept.live.ways.positions = before;
    sections
}

// The same positions once more.
fn copied(positions: &IndexMap<Place, usize>) -> Result<IndexMap<Place, usize>, NoMemory>
    ensures { IfOk result (λ r. (p : Place) → get same_place r p ≡ get same_place positions.now p) }
{
    let copy = positions.clone()?;
    Ok(copy)
}

// The same, where the places of the network have these positions. What is kept becomes what is kept of the variant.
fn compare_from<G: Gate + Sync, R: Threads + Wait + Sync>(
    by: &Workers<R, G>,
    alloc: Global,
    world: WorldRef,
    kept: &mut Kept,
    before: &IndexMap<Place, usize>,
    asked: Asked,
) -> Result<Vec<Section>, NoMemory>
    requires kept { IsKept (world_of world) kept.old }
    requires before { (p : Place) → get same_place before.now p ≡ get same_place kept.old.live.ways.positions p }
    requires ttl { 1 ≤ asked.ttl }
    ensures report { IfOk result (λ sections. IsVariantReport (world_of world.entry) asked.entry.changes.now asked.entry.ttl sections.items) }
    ensures back { back kept.new.network kept.new.replaced.items ≡ back kept.old.network kept.old.replaced.items }
    ensures renewed { IsRenewed kept.old.live kept.new.live }
{
    replace_all(alloc, world.links, kept, asked.changes)?;
    let networks = Networks {
        old: world,
        new: WorldRef {
            network: &kept.network,
            links: world.links,
        },
    };
    sections_between(by, alloc, networks, &mut kept.live, before, asked.ttl)
}

// The report on the two networks, where this is kept of the second one, and the places of the first one have these positions.
fn sections_between<G: Gate + Sync, R: Threads + Wait + Sync>(
    by: &Workers<R, G>,
    alloc: Global,
    networks: Networks,
    live: &mut LiveWays,
    before: &IndexMap<Place, usize>,
    ttl: u8,
) -> Result<Vec<Section>, NoMemory>
    requires live { IsLive (world_of networks.new) live.old }
    requires before { ArePlaceWays (world_of networks.old) live.old.tables.diagrams live.old.scope live.old.ways.lists.items (get same_place before.now) }
    requires ttl { 1 ≤ ttl }
    ensures report { IfOk result (λ sections. IsReport (world_of networks.entry.old).links.ingress (world_of networks.entry.old) (world_of networks.entry.new) ttl sections.items) }
    ensures renewed { IsRenewed live.old live.new }
{
    let ingress = networks.old.links.ingress.as_slice();
    // A slot has a number of 32 bits.
    if ingress.len() > u32::MAX as usize {
        return Err(NoMemory);
    }
    let ways = &live.ways;
    let old = Net {
        world: networks.old,
        places: before,
        lists: &ways.lists,
        scope: live.scope,
    };
    let new = Net {
        world: networks.new,
        places: &ways.positions,
        lists: &ways.lists,
        scope: live.scope,
    };
    let nets = NetPair {
        old: &old,
        new: &new,
    };
    let table = &mut live.tables.diagrams;
    compare_known(by, alloc, table, nets, ingress, ttl)
}
