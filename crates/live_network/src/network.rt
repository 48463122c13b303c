//! A network with its links that changes device by device, together with the ways of its places.

ghost use Rattle.std.specs.Prelude.{◌≡◌, ◌==◌, ◌<◌, IfOk, OnErr, OnOk, Some, find, length, position, slice_get, slice_set};
ghost use Rattle.hdr_bits.specs.declared.header.Header.{Header};
ghost use Rattle.indexmap.specs.IndexMap.{get};
ghost use Rattle.cube_diagram.specs.Functions.{count_of};
ghost use Rattle.net_types.specs.declared.network.NetDevice.{NetDevice};
ghost use Rattle.net_types.specs.declared.network.Place.{Place};
ghost use Rattle.net_types.specs.World.{World, same_place};
ghost use Rattle.net_view.specs.Borrowed.{world_of};
ghost use Rattle.set_walk.specs.Sets.{InSet};
ghost use Rattle.live_network.specs.Live.{IsLive, IsRenewed};
ghost use Rattle.live_network.specs.Replaced.{IsReplaced, with_device};

use crate::anew::settle;
use crate::live::{LiveWays, open_ways};
use crate::replace::replace_at;
use net_types::{Links, List, NetDevice, Network, NoMemory};
use net_view::WorldRef;
use std::alloc::Global;
use std::marker::Model;
use std::mem;

/// A network whose devices may be replaced, with its links. The ways of its places are known at each moment.
pub struct LiveNetwork<'a> {
    network: Network,
    links: &'a Links,
    live: LiveWays,
}

impl<'a> Drop for LiveNetwork<'a> {
    fn drop(self) {
        let LiveNetwork {
            network: _,
            links: _,
            live: _,
        } = self;
    }
}

impl<'a> Model for LiveNetwork<'a> {
    ghost use Rattle.net_types.specs.World.{World};
    ghost use Rattle.live_network.specs.Live.{IsLive};

    // Contracts see the network as it is now, with its links.
    ghost Value = { World };

    ghost view = { λ n. record { network = n.network; links = n.links.now } };

    ghost invariant = { λ n. IsLive (record { network = n.network; links = n.links.now }) n.live };
}

impl<'a> LiveNetwork<'a> {
    ghost use Rattle.std.specs.Prelude.{◌≡◌, ◌==◌, IfOk, OnErr, OnOk, find};
    ghost use Rattle.net_view.specs.Borrowed.{world_of};
    ghost use Rattle.live_network.specs.Live.{IsLive};
    ghost use Rattle.live_network.specs.Replaced.{with_device};

    /// Opens the network.
    ///
    /// # Errors
    ///
    /// There was no memory.
    pub fn open(
        alloc: Global,
        network: Network,
        links: &'a Links,
    ) -> Result<LiveNetwork<'a>, NoMemory>
        ensures { IfOk result (λ r. r ≡ record { network = network; links = links.now }) }
    {
        let world = WorldRef {
            network: &network,
            links,
        };
        let live = open_ways(alloc, world)?;
        Ok(LiveNetwork {
            network,
            links,
            live,
        })
    }

    /// The network as it is now.
    pub fn world(&self) -> WorldRef<'_>
        ensures { world_of result ≡ self.now }
    {
        WorldRef {
            network: &self.network,
            links: self.links,
        }
    }

    /// The ways of its places.
    pub fn ways(&self) -> &LiveWays
        ensures { IsLive self.now result.now }
    {
        &self.live
    }

    /// Puts the device in the place of the first one of its name, and answers that one. Where there is none of the name nothing
    /// changes, and the device is let go.
    ///
    /// # Errors
    ///
    /// There was no memory. Then the network is as it was.
    pub fn replace(
        &mut self,
        alloc: Global,
        device: NetDevice,
    ) -> Result<Option<NetDevice>, NoMemory>
        ensures network { OnOk result (self.new ≡ record self.old { network = with_device device self.old.network }) }
        ensures before { IfOk result (λ r. r ≡ find (λ d. d.name == device.name) self.old.network.devices) }
        ensures as_before { OnErr result (self.new ≡ self.old) }
    {
        let before = replace_in(alloc, &mut self.network, self.links, &mut self.live, device)?;
        let world = WorldRef {
            network: &self.network,
            links: self.links,
        };
        settle(alloc, world, &mut self.live);
        Ok(before)
    }
}

// The same in a network with what is kept of it.
fn replace_in(
    alloc: Global,
    network: &mut Network,
    links: &Links,
    live: &mut LiveWays,
    device: NetDevice,
) -> Result<Option<NetDevice>, NoMemory>
    requires { IsLive (record { network = network.old; links = links.now }) live.old }
    ensures live { IsLive (record { network = network.new; links = links.now }) live.new }
    ensures network { OnOk result (network.new ≡ with_device device network.old) }
    ensures before { IfOk result (λ r. r ≡ find (λ d. d.name == device.name) network.old.devices) }
    ensures as_before { OnErr result (network.new ≡ network.old) }
{
    let devices = network.devices.as_slice();
    let Some(position) = first_named(devices, device.name) else {
        return Ok(None);
    };
    let before = replace_found(alloc, network, links, live, position, device)?;
    Ok(Some(before))
}

// The same where the first device of its name is at the position.
fn replace_found(
    alloc: Global,
    network: &mut Network,
    links: &Links,
    live: &mut LiveWays,
    index: usize,
    device: NetDevice,
) -> Result<NetDevice, NoMemory>
    requires live { IsLive (record { network = network.old; links = links.now }) live.old }
    requires first { position (λ d. d.name == device.name) network.old.devices ≡ Some index }
    requires within { index < length network.old.devices }
    ensures live { IsLive (record { network = network.new; links = links.now }) live.new }
    ensures network { OnOk result (network.new ≡ with_device device network.old) }
    ensures before { IfOk result (λ r. find (λ d. d.name == device.name) network.old.devices ≡ Some r) }
    ensures as_before { OnErr result (network.new ≡ network.old) }
{
    let before = swap_at(alloc, network, index, device);
    let world = WorldRef {
        network: &*network,
        links,
    };
    match put_at(alloc, live, world, &before, index) {
        Ok(()) => Ok(before),
        Err(_) => {
            swap_at(alloc, network, index, before);
            Err(NoMemory)
        }
    }
}

// What is kept of the network, in which another device stood at this position before.
fn put_at(
    alloc: Global,
    live: &mut LiveWays,
    world: WorldRef,
    before: &NetDevice,
    position: usize,
) -> Result<(), NoMemory>
    requires scope { live.old.scope < count_of live.old.tables.diagrams }
    requires all { (h : Header) → InSet live.old.tables.diagrams live.old.scope h }
    requires position { position < length world.network.now.devices }
    ensures live { OnOk result ((v : World) (y : NetDevice) → slice_get world.entry.network.now.devices position ≡ Some y → IsReplaced v (world_of world.entry) before.now y → IsLive v live.old → IsLive (world_of world.entry) live.new) }
    ensures as_before { OnErr result ((p : Place) → get same_place live.new.ways.positions p ≡ get same_place live.old.ways.positions p) }
    ensures renewed { IsRenewed live.old live.new }
{
    replace_at(alloc, live, world, before, position)?;
    Ok(())
}

fn first_named(devices: &[NetDevice], name: u32) -> Option<usize>
    ensures { result ≡ position (λ d. d.name == name) devices.now }
{
    devices.iter().position(|d| d.name == name)
}

// Puts the device at the position, and answers the one that was there.
fn swap_at(alloc: Global, network: &mut Network, position: usize, device: NetDevice) -> NetDevice
    requires { position < length network.old.devices }
    ensures network { network.new ≡ record { devices = slice_set network.old.devices position device } }
    ensures device { slice_get network.old.devices position ≡ Some result }
{
    let mut devices = mem::replace(&mut network.devices, List::empty(alloc)).into_vec();
    let before = mem::replace(&mut devices[position], device);
    network.devices = List::new(devices);
    before
}
