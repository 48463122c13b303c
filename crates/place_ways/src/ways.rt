//! The ways of the places of networks.

ghost use Rattle.std.specs.Prelude.{◌≡◌, None, IfOk, OnOk};
ghost use Rattle.hdr_bits.specs.Lists.{Extends};
ghost use Rattle.indexmap.specs.IndexMap.{get};
ghost use Rattle.cube_diagram.specs.Functions.{Keeps};
ghost use Rattle.net_forms.specs.Networks.{IsNetworkForm};
ghost use Rattle.net_forms.specs.Pairs.{AreBothForms};
ghost use Rattle.net_types.specs.World.{same_place};
ghost use Rattle.net_view.specs.Borrowed.{world_of};
ghost use Rattle.set_walk.specs.Scopes.{IsScope};
ghost use Rattle.place_ways.specs.Places.{AreBasesOf, AreDone, ArePlaceWays, ArePositions, AreRight, AreTaken, DropsAll, IsNumbered, IsPlaceIn, IsPosition, IsPut, IsScopeOf, IsScopedNetwork, LosesNone, TakesPositions};

use crate::base::{Bases, seat_position};
use crate::seat::{ScopedNetwork, seat_at};
use cube_diagram::Diagrams;
use device_fates::Fates;
use indexmap::{IndexMap, IndexSet};
use like_devices::has_name;
use net_forms::{BothForms, NetworkForm};
use net_types::{NetDevice, NoMemory, Place};
use set_walk::PlaceWays;
use std::alloc::Global;

/// The ways of the places of a network, in a list in which places share them.
#[derive(Drop)]
pub struct NetworkWays {
    /// Ways of one place or of several.
    pub lists: Vec<PlaceWays>,
    /// The position of the ways of a place.
    pub positions: IndexMap<Place, usize>,
}

/// The ways of the places of two networks, in one list that both share.
#[derive(Drop)]
pub struct BothWays {
    /// Ways of one place or of several.
    pub lists: Vec<PlaceWays>,
    /// The position of the ways of a place of the old network.
    pub old: IndexMap<Place, usize>,
    /// The position of the ways of a place of the new network.
    pub new: IndexMap<Place, usize>,
}

/// The positions that places of devices with these names have already.
#[derive(Clone, Copy)]
struct Taken<'a> {
    names: &'a IndexSet<u32>,
    positions: &'a IndexMap<Place, usize>,
}

/// The ways of all places of two networks for the headers of a scope: such a header makes a move at a place exactly where the
/// move is that of a way that has the header, and a place without a position drops everything. The places of devices that are
/// alike in both networks share their ways. The table is the one in which the networks are compiled, or a copy of it that
/// may have grown since: the sets are added to it, and no function that is there is changed.
///
/// # Errors
///
/// There was no memory.
pub fn ways_of_both<'a>(
    alloc: Global,
    forms: BothForms<'a>,
    scope: u32,
    table: &mut Diagrams,
) -> Result<BothWays, NoMemory>
    requires forms { AreBothForms table.old forms }
    requires scope { IsScope (world_of forms.old.now.world) (world_of forms.new.now.world) table.old scope }
    ensures old { IfOk result (λ r. ArePlaceWays (world_of forms.entry.old.now.world) table.new scope r.lists.items (get same_place r.old)) }
    ensures new { IfOk result (λ r. ArePlaceWays (world_of forms.entry.new.now.world) table.new scope r.lists.items (get same_place r.new)) }
    ensures kept { Keeps table.old table.new }
{
    let old = ScopedNetwork {
        fates: forms.fates,
        form: forms.old,
        scope,
    };
    let before = ways_alone(alloc, old, table)?;
    let NetworkWays { lists, positions } = before;
    let taken = Taken {
        names: forms.like,
        positions: &positions,
    };
    let new = ScopedNetwork {
        fates: forms.fates,
        form: forms.new,
        scope,
    };
    let after = ways_beside(alloc, new, taken, lists, table)?;
    Ok(BothWays {
        lists: after.lists,
        old: positions,
        new: after.positions,
    })
}

/// The same of one network.
///
/// # Errors
///
/// There was no memory.
pub fn ways_of_one<'a>(
    alloc: Global,
    fates: &'a Fates,
    form: &'a NetworkForm<'a>,
    scope: u32,
    table: &mut Diagrams,
) -> Result<NetworkWays, NoMemory>
    requires form { IsNetworkForm table.old fates.now form.now }
    requires scope { IsScopeOf (world_of form.now.world) table.old scope }
    ensures ways { IfOk result (λ r. ArePlaceWays (world_of form.now.world) table.new scope r.lists.items (get same_place r.positions)) }
    ensures positions { IfOk result (λ r. ArePositions (world_of form.now.world) table.new scope r.lists.items (get same_place r.positions)) }
    ensures kept { Keeps table.old table.new }
{
    let network = ScopedNetwork { fates, form, scope };
    let ways = ways_alone(alloc, network, table)?;
    Ok(ways)
}

// The ways of the places of a network that shares them with no other.
fn ways_alone<'a>(
    alloc: Global,
    network: ScopedNetwork<'a>,
    table: &mut Diagrams,
) -> Result<NetworkWays, NoMemory>
    requires { IsScopedNetwork table.old network }
    ensures positions { IfOk result (λ r. ArePositions (world_of network.entry.form.now.world) table.new network.entry.scope r.lists.items (get same_place r.positions)) }
    ensures kept { Keeps table.old table.new }
{
    let names = IndexSet::new(alloc);
    let positions = IndexMap::new(alloc);
    let taken = Taken {
        names: &names,
        positions: &positions,
    };
    ways_beside(alloc, network, taken, Vec::new(alloc), table)
}

// The ways of the places of a network, behind these lists.
fn ways_beside<'a>(
    alloc: Global,
    network: ScopedNetwork<'a>,
    taken: Taken,
    lists: Vec<PlaceWays>,
    table: &mut Diagrams,
) -> Result<NetworkWays, NoMemory>
    requires network { IsScopedNetwork table.old network }
    requires taken { AreTaken (world_of network.form.now.world) table.old network.scope lists.items taken.names.now.keys (get same_place taken.positions.now) }
    ensures positions { IfOk result (λ r. ArePositions (world_of network.entry.form.now.world) table.new network.entry.scope r.lists.items (get same_place r.positions)) }
    ensures lists { IfOk result (λ r. Extends lists.items r.lists.items) }
    ensures kept { Keeps table.old table.new }
{
    let mut ways = NetworkWays {
        lists,
        positions: IndexMap::new(alloc),
    };
    let form = network.form;
    let devices = form.world.network.devices.as_slice();
    add_devices(alloc, network, taken, devices, table, &mut ways)?;
    Ok(ways)
}

// Adds the ways of the places of these devices of the network.
fn add_devices<'a>(
    alloc: Global,
    network: ScopedNetwork<'a>,
    taken: Taken,
    devices: &[NetDevice],
    table: &mut Diagrams,
    ways: &mut NetworkWays,
) -> Result<(), NoMemory>
    requires network { IsScopedNetwork table.old network }
    requires taken { AreTaken (world_of network.form.now.world) table.old network.scope ways.old.lists.items taken.names.now.keys (get same_place taken.positions.now) }
    requires right { AreRight (world_of network.form.now.world) table.old network.scope ways.old.lists.items (get same_place ways.old.positions) }
    ensures right { OnOk result (AreRight (world_of network.entry.form.now.world) table.new network.entry.scope ways.new.lists.items (get same_place ways.new.positions)) }
    ensures done { OnOk result (AreDone (world_of network.entry.form.now.world) (get same_place ways.new.positions) (IsPlaceIn devices.now)) }
    ensures lists { OnOk result (Extends ways.old.lists.items ways.new.lists.items) }
    ensures kept { Keeps table.old table.new }
{
    for device in devices {
        add_device(alloc, network, taken, device, table, ways)?;
    }
    Ok(())
}

// Of the places of this device.
fn add_device<'a>(
    alloc: Global,
    network: ScopedNetwork<'a>,
    taken: Taken,
    device: &NetDevice,
    table: &mut Diagrams,
    ways: &mut NetworkWays,
) -> Result<(), NoMemory>
    requires network { IsScopedNetwork table.old network }
    requires taken { AreTaken (world_of network.form.now.world) table.old network.scope ways.old.lists.items taken.names.now.keys (get same_place taken.positions.now) }
    requires right { AreRight (world_of network.form.now.world) table.old network.scope ways.old.lists.items (get same_place ways.old.positions) }
    ensures right { OnOk result (AreRight (world_of network.entry.form.now.world) table.new network.entry.scope ways.new.lists.items (get same_place ways.new.positions)) }
    ensures done { OnOk result (AreDone (world_of network.entry.form.now.world) (get same_place ways.new.positions) (IsNumbered device.now.name device.now.numbers)) }
    ensures losing { OnOk result (LosesNone (get same_place ways.old.positions) (get same_place ways.new.positions)) }
    ensures lists { OnOk result (Extends ways.old.lists.items ways.new.lists.items) }
    ensures kept { Keeps table.old table.new }
{
    let numbers = device.numbers.as_slice();
    if has_name(taken.names, device.name) {
        take_positions(taken.positions, device.name, numbers, &mut ways.positions)?;
        return Ok(());
    }
    add_places(alloc, network, device.name, numbers, table, ways)?;
    Ok(())
}

// As they are known.
fn take_positions(
    known: &IndexMap<Place, usize>,
    name: u32,
    numbers: &[u32],
    positions: &mut IndexMap<Place, usize>,
) -> Result<(), NoMemory>
    ensures { OnOk result (TakesPositions name numbers.now (get same_place known.now) (get same_place positions.old) (get same_place positions.new)) }
{
    for number in numbers {
        let place = Place {
            device: name,
            interface: *number,
        };
        put_position(positions, place, position_in(known, place))?;
    }
    Ok(())
}

fn position_in(positions: &IndexMap<Place, usize>, place: Place) -> Option<usize>
    ensures { result ≡ get same_place positions.now place }
{
    positions.get(&place).copied()
}

// With the ways that are found for them.
fn add_places<'a>(
    alloc: Global,
    network: ScopedNetwork<'a>,
    name: u32,
    numbers: &[u32],
    table: &mut Diagrams,
    ways: &mut NetworkWays,
) -> Result<(), NoMemory>
    requires network { IsScopedNetwork table.old network }
    requires right { AreRight (world_of network.form.now.world) table.old network.scope ways.old.lists.items (get same_place ways.old.positions) }
    ensures right { OnOk result (AreRight (world_of network.entry.form.now.world) table.new network.entry.scope ways.new.lists.items (get same_place ways.new.positions)) }
    ensures done { OnOk result (AreDone (world_of network.entry.form.now.world) (get same_place ways.new.positions) (IsNumbered name numbers.now)) }
    ensures losing { OnOk result (LosesNone (get same_place ways.old.positions) (get same_place ways.new.positions)) }
    ensures lists { OnOk result (Extends ways.old.lists.items ways.new.lists.items) }
    ensures kept { Keeps table.old table.new }
{
    let mut bases = Bases {
        inside: None,
        other: None,
    };
    for number in numbers {
        let place = Place {
            device: name,
            interface: *number,
        };
        add_place(alloc, network, place, table, &mut bases, ways)?;
    }
    Ok(())
}

fn add_place<'a>(
    alloc: Global,
    network: ScopedNetwork<'a>,
    place: Place,
    table: &mut Diagrams,
    bases: &mut Bases,
    ways: &mut NetworkWays,
) -> Result<(), NoMemory>
    requires network { IsScopedNetwork table.old network }
    requires bases { AreBasesOf (world_of network.form.now.world) table.old network.scope ways.old.lists.items place.device bases.old }
    requires right { AreRight (world_of network.form.now.world) table.old network.scope ways.old.lists.items (get same_place ways.old.positions) }
    ensures right { OnOk result (AreRight (world_of network.entry.form.now.world) table.new network.entry.scope ways.new.lists.items (get same_place ways.new.positions)) }
    ensures done { OnOk result (get same_place ways.new.positions place ≡ None → DropsAll (world_of network.entry.form.now.world) place) }
    ensures losing { OnOk result (LosesNone (get same_place ways.old.positions) (get same_place ways.new.positions)) }
    ensures bases { OnOk result (AreBasesOf (world_of network.entry.form.now.world) table.new network.entry.scope ways.new.lists.items place.device bases.new) }
    ensures lists { OnOk result (Extends ways.old.lists.items ways.new.lists.items) }
    ensures kept { Keeps table.old table.new }
{
    let position = position_at(alloc, network, place, table, bases, &mut ways.lists)?;
    put_position(&mut ways.positions, place, position)?;
    Ok(())
}

// The position of the ways of the place; none where the network has nothing there.
fn position_at<'a>(
    alloc: Global,
    network: ScopedNetwork<'a>,
    place: Place,
    table: &mut Diagrams,
    bases: &mut Bases,
    lists: &mut Vec<PlaceWays>,
) -> Result<Option<usize>, NoMemory>
    requires network { IsScopedNetwork table.old network }
    requires bases { AreBasesOf (world_of network.form.now.world) table.old network.scope lists.old.items place.device bases.old }
    ensures position { IfOk result (IsPosition (world_of network.entry.form.now.world) table.new network.entry.scope lists.new.items place) }
    ensures bases { OnOk result (AreBasesOf (world_of network.entry.form.now.world) table.new network.entry.scope lists.new.items place.device bases.new) }
    ensures lists { OnOk result (Extends lists.old.items lists.new.items) }
    ensures kept { Keeps table.old table.new }
{
    let Some(at) = seat_at(network, place) else {
        return Ok(None);
    };
    let position = seat_position(alloc, table, at, bases, lists)?;
    Ok(Some(position))
}

/// Gives the place this position, if it is one.
pub(crate) fn put_position(
    positions: &mut IndexMap<Place, usize>,
    place: Place,
    position: Option<usize>,
) -> Result<(), NoMemory>
    ensures { OnOk result (IsPut place position (get same_place positions.old) (get same_place positions.new)) }
{
    let Some(position) = position else {
        return Ok(());
    };
    positions.insert(place, position)?;
    Ok(())
}
