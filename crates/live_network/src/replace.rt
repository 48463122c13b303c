//! A device that is replaced by another configuration of its name.

ghost use Rattle.std.specs.Prelude.{◌≡◌, ◌==◌, ◌<◌, Contains, IfOk, OnErr, OnOk, Some, find, length, slice_get};
ghost use Rattle.hdr_bits.specs.declared.header.Header.{Header};
ghost use Rattle.indexmap.specs.IndexMap.{get};
ghost use Rattle.cube_diagram.specs.Functions.{count_of};
ghost use Rattle.link_sends.specs.Sending.{SendAlike};
ghost use Rattle.net_types.specs.declared.network.NetDevice.{NetDevice};
ghost use Rattle.net_types.specs.declared.network.Place.{Place};
ghost use Rattle.net_types.specs.World.{World, same_place};
ghost use Rattle.net_view.specs.Borrowed.{world_of};
ghost use Rattle.set_walk.specs.Sets.{InSet};
ghost use Rattle.live_network.specs.Live.{IsLive, IsRenewed};
ghost use Rattle.live_network.specs.Near.{SendFor};
ghost use Rattle.live_network.specs.Putting.{PutsFound, PutsNamed};
ghost use Rattle.live_network.specs.Replaced.{IsReplaced};

use crate::clear::clear_places;
use crate::live::{LiveWays, put_compiled};
use crate::near::near_links;
use crate::touched::touched_names;
use indexmap::IndexMap;
use link_sends::Wiring;
use net_types::{NetDevice, NoMemory, Place};
use net_view::{WorldRef, device_named};
use std::alloc::Global;

/// A device that was replaced in a network.
#[derive(Clone, Copy)]
pub struct Replacement<'a> {
    /// The network after it.
    pub world: WorldRef<'a>,
    /// The device as it was.
    pub before: &'a NetDevice,
    /// The device of its name that stands in its place.
    pub after: &'a NetDevice,
}

/// Makes of what is kept of a network what is to be kept of it once the device is replaced, and answers the positions that the ways
/// of places had before. Any configuration may come in the place of another. The device is compiled, and with it those
/// that have an end on a lan where it answers otherwise now; all other devices keep their ways.
///
/// # Errors
///
/// There was no memory. Then each place has its position still, and what is kept is that of the network before.
pub fn replace_device(
    alloc: Global,
    live: &mut LiveWays,
    at: Replacement,
) -> Result<IndexMap<Place, usize>, NoMemory>
    requires scope { live.old.scope < count_of live.old.tables.diagrams }
    requires all { (h : Header) → InSet live.old.tables.diagrams live.old.scope h }
    ensures live { OnOk result ((v : World) → IsReplaced v (world_of at.entry.world) at.entry.before.now at.entry.after.now → IsLive v live.old → IsLive (world_of at.entry.world) live.new) }
    ensures before { IfOk result (λ r. (p : Place) → get same_place r p ≡ get same_place live.old.ways.positions p) }
    ensures as_before { OnErr result ((p : Place) → get same_place live.new.ways.positions p ≡ get same_place live.old.ways.positions p) }
    ensures renewed { IsRenewed live.old live.new }
{
    let segments = at.world.links.segments.as_slice();
    let names = touched_names(alloc, segments, at.before, at.after)?;
    let before = copied_positions(&live.ways.positions)?;
    let numbers = at.before.numbers.as_slice();
    clear_places(&mut live.ways.positions, at.before.name, numbers);
    match put_names(alloc, live, at.world, &names) {
        Ok(()) => Ok(before),
        Err(_) => {
            live.ways.positions = before;
            Err(NoMemory)
        }
    }
}

/// The same where the device stands at this position of the network's devices.
///
/// # Errors
///
/// There was no memory. Then each place has its position still, and what is kept is that of the network before.
pub fn replace_at(
    alloc: Global,
    live: &mut LiveWays,
    world: WorldRef,
    before: &NetDevice,
    position: usize,
) -> Result<IndexMap<Place, usize>, NoMemory>
    requires scope { live.old.scope < count_of live.old.tables.diagrams }
    requires all { (h : Header) → InSet live.old.tables.diagrams live.old.scope h }
    requires position { position < length world.network.now.devices }
    ensures live { OnOk result ((v : World) (y : NetDevice) → slice_get world.entry.network.now.devices position ≡ Some y → IsReplaced v (world_of world.entry) before.now y → IsLive v live.old → IsLive (world_of world.entry) live.new) }
    ensures before { IfOk result (λ r. (p : Place) → get same_place r p ≡ get same_place live.old.ways.positions p) }
    ensures as_before { OnErr result ((p : Place) → get same_place live.new.ways.positions p ≡ get same_place live.old.ways.positions p) }
    ensures renewed { IsRenewed live.old live.new }
{
    let devices = world.network.devices.as_slice();
    let after = &devices[position];
    let at = Replacement {
        world,
        before,
        after,
    };
    let positions = replace_device(alloc, live, at)?;
    Ok(positions)
}

/// The same positions once more.
pub(crate) fn copied_positions(
    positions: &IndexMap<Place, usize>,
) -> Result<IndexMap<Place, usize>, NoMemory>
    ensures { IfOk result (λ r. (p : Place) → get same_place r p ≡ get same_place positions.now p) }
{
    let copy = positions.clone()?;
    Ok(copy)
}

// Puts the ways of the devices of these names.
fn put_names(
    alloc: Global,
    live: &mut LiveWays,
    world: WorldRef,
    names: &[u32],
) -> Result<(), NoMemory>
    requires scope { live.old.scope < count_of live.old.tables.diagrams }
    requires all { (h : Header) → InSet live.old.tables.diagrams live.old.scope h }
    ensures put { OnOk result (PutsNamed (world_of world.entry) live.new.tables.diagrams live.old.scope live.new.ways.lists.items names.now (get same_place live.old.ways.positions) (get same_place live.new.ways.positions)) }
    ensures renewed { IsRenewed live.old live.new }
{
    let segments = world.links.segments.as_slice();
    let near = near_links(alloc, segments, names)?;
    let near_world = WorldRef {
        network: world.network,
        links: &near,
    };
    let wiring = Wiring::of(alloc, near_world)?;
    put_each(alloc, live, world, &wiring, names)
}

// The same, where over the wiring they send as in the network.
fn put_each(
    alloc: Global,
    live: &mut LiveWays,
    world: WorldRef,
    wiring: &Wiring,
    names: &[u32],
) -> Result<(), NoMemory>
    requires scope { live.old.scope < count_of live.old.tables.diagrams }
    requires all { (h : Header) → InSet live.old.tables.diagrams live.old.scope h }
    requires sends { SendFor wiring.now (world_of world) names.now }
    ensures put { OnOk result (PutsNamed (world_of world.entry) live.new.tables.diagrams live.old.scope live.new.ways.lists.items names.now (get same_place live.old.ways.positions) (get same_place live.new.ways.positions)) }
    ensures renewed { IsRenewed live.old live.new }
{
    for name in names {
        put_named(alloc, live, world, wiring, *name)?;
    }
    Ok(())
}

// Puts the ways of the device of this name, if there is one.
fn put_named(
    alloc: Global,
    live: &mut LiveWays,
    world: WorldRef,
    wiring: &Wiring,
    name: u32,
) -> Result<(), NoMemory>
    requires scope { live.old.scope < count_of live.old.tables.diagrams }
    requires all { (h : Header) → InSet live.old.tables.diagrams live.old.scope h }
    ensures put { OnOk result (PutsFound wiring.now live.new.tables.diagrams live.old.scope live.new.ways.lists.items (find (λ d. d.name == name) (world_of world.entry).network.devices) (get same_place live.old.ways.positions) (get same_place live.new.ways.positions)) }
    ensures renewed { IsRenewed live.old live.new }
{
    let Some(device) = device_named(world.network, name) else {
        return Ok(());
    };
    put_compiled(alloc, live, wiring, device)
}
