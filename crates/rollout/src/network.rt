//! A step of a change window, and the network after it.

ghost use Rattle.std.specs.Prelude.{◌≡◌, IfOk, map};
ghost use Rattle.rollout.specs.Steps.{device_after, network_after};

use net_forms::Networks;
use net_types::{Duplicate, List, NetDevice, Network, NoMemory};
use std::alloc::Global;

/// A step: the networks before and after it, with the same links, and the device that comes in the place of the one of its name.
#[derive(Clone, Copy)]
pub struct Step<'a> {
    pub networks: Networks<'a>,
    pub change: &'a NetDevice,
}

/// The network with the device of that name replaced.
pub fn network_after(
    alloc: Global,
    network: &Network,
    change: &NetDevice,
) -> Result<Network, NoMemory>
    ensures { IfOk result (λ r. r ≡ network_after change.now network.now) }
{
    let before = network.devices.as_slice();
    let mut devices = Vec::with_capacity(alloc, before.len())?;
    for device in before {
        devices.push(device_after(alloc, change, device)?)?;
    }
    Ok(Network {
        devices: List::new(devices),
    })
}

// The device, or the change where it is the device of that name.
fn device_after(
    alloc: Global,
    change: &NetDevice,
    device: &NetDevice,
) -> Result<NetDevice, NoMemory>
    ensures { IfOk result (λ r. r ≡ device_after change.now device.now) }
{
    if device.name == change.name {
        change.copy(alloc)
    } else {
        device.copy(alloc)
    }
}
