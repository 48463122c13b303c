//! A network whose devices are replaced, one after the other, and put back.

ghost use Rattle.std.specs.Prelude.{◌≡◌, ◌==◌, ◌<◌, [], OnOk, Some, length, position, slice_get, slice_set};
ghost use Rattle.live_network.specs.Live.{IsLive, IsRenewed};
ghost use Rattle.live_network.specs.Replaced.{with_device};
ghost use Rattle.net_variants.specs.Kept.{back};
ghost use Rattle.net_variants.specs.Variants.{variant};

use live_network::{LiveWays, replace_at};
use net_types::{Duplicate, Links, List, NetDevice, Network, NoMemory};
use net_view::WorldRef;
use std::alloc::Global;
use std::mem;

/// A device that was replaced, and where it stood.
#[derive(Drop)]
pub struct Replaced {
    pub position: usize,
    pub device: NetDevice,
}

/// A network, and what is kept of it.
pub struct Kept {
    pub network: Network,
    /// The devices that were replaced, in order.
    pub replaced: Vec<Replaced>,
    pub live: LiveWays,
}

impl Drop for Kept {
    fn drop(self) {
        let Kept {
            network: _,
            replaced: _,
            live: _,
        } = self;
    }
}

/// Puts the devices in the places of those of their names. What is kept of the network becomes what is kept of the variant.
pub(crate) fn replace_all(
    alloc: Global,
    links: &Links,
    kept: &mut Kept,
    changes: &[NetDevice],
) -> Result<(), NoMemory>
    requires { IsLive (record { network = kept.old.network; links = links.now }) kept.old.live }
    ensures network { OnOk result (kept.new.network ≡ variant kept.old.network changes.now) }
    ensures live { OnOk result (IsLive (record { network = variant kept.old.network changes.now; links = links.now }) kept.new.live) }
    ensures back { back kept.new.network kept.new.replaced.items ≡ back kept.old.network kept.old.replaced.items }
    ensures renewed { IsRenewed kept.old.live kept.new.live }
{
    for change in changes {
        replace(alloc, links, kept, change)?;
    }
    Ok(())
}

// Puts the device in the place of the first one of its name, if there is one.
fn replace(
    alloc: Global,
    links: &Links,
    kept: &mut Kept,
    change: &NetDevice,
) -> Result<(), NoMemory>
    requires { IsLive (record { network = kept.old.network; links = links.now }) kept.old.live }
    ensures network { OnOk result (kept.new.network ≡ with_device change.now kept.old.network) }
    ensures live { OnOk result (IsLive (record { network = with_device change.now kept.old.network; links = links.now }) kept.new.live) }
    ensures back { back kept.new.network kept.new.replaced.items ≡ back kept.old.network kept.old.replaced.items }
    ensures renewed { IsRenewed kept.old.live kept.new.live }
{
    let devices = kept.network.devices.as_slice();
    let Some(position) = first_named(devices, change.name) else {
        return Ok(());
    };
    replace_in(alloc, links, kept, position, change)
}

fn first_named(devices: &[NetDevice], name: u32) -> Option<usize>
    ensures { result ≡ position (λ d. d.name == name) devices.now }
{
    devices.iter().position(|d| d.name == name)
}

// The same where the first device of its name is at the position.
fn replace_in(
    alloc: Global,
    links: &Links,
    kept: &mut Kept,
    index: usize,
    change: &NetDevice,
) -> Result<(), NoMemory>
    requires live { IsLive (record { network = kept.old.network; links = links.now }) kept.old.live }
    requires first { position (λ d. d.name == change.now.name) kept.old.network.devices ≡ Some index }
    requires within { index < length kept.old.network.devices }
    ensures network { OnOk result (kept.new.network ≡ with_device change.now kept.old.network) }
    ensures live { OnOk result (IsLive (record { network = with_device change.now kept.old.network; links = links.now }) kept.new.live) }
    ensures back { back kept.new.network kept.new.replaced.items ≡ back kept.old.network kept.old.replaced.items }
    ensures renewed { IsRenewed kept.old.live kept.new.live }
{
    let device = change.copy(alloc)?;
    let own = kept.network.devices.as_slice()[index].copy(alloc)?;
    kept.replaced.push(Replaced {
        position: index,
        device: own,
    })?;
    let before = swap_at(alloc, &mut kept.network, index, device);
    let world = WorldRef {
        network: &kept.network,
        links,
    };
    replace_at(alloc, &mut kept.live, world, &before, index)?;
    Ok(())
}

// Puts the device at the position, and answers the one that was there.
fn swap_at(alloc: Global, network: &mut Network, position: usize, device: NetDevice) -> NetDevice
    requires { position < length network.old.devices }
    ensures network { network.new ≡ record { devices = slice_set network.old.devices position device } }
    ensures device { slice_get network.old.devices position ≡ Some result }
{
    let mut devices = mem::replace(&mut network.devices, List::empty(alloc)).into_vec();
    let before = mem::replace(&mut devices[position], device);
    network.devices = List::new(devices);
    before
}

/// Puts the devices back that were replaced.
pub(crate) fn put_back(alloc: Global, kept: &mut Kept)
    ensures network { kept.new.network ≡ back kept.old.network kept.old.replaced.items }
    ensures none { kept.new.replaced.items ≡ [] }
    ensures live { kept.new.live ≡ kept.old.live }
{
    while let Some(one) = kept.replaced.pop() {
        put(alloc, &mut kept.network, one);
    }
}

// Puts the device back in its position.
fn put(alloc: Global, network: &mut Network, one: Replaced)
    ensures { network.new ≡ record { devices = slice_set network.old.devices one.position one.device } }
{
    let mut devices = mem::replace(&mut network.devices, List::empty(alloc)).into_vec();
    if one.position < devices.len() {
        devices[one.position] = one.device;
    }
    network.devices = List::new(devices);
}
