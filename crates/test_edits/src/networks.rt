//! Small networks, from configurations and links. Routers have the numbers 0, 1, .., and so have the interfaces of each.

use crate::texts::{AT_EACH_OTHER, EQUAL_CHOICES};
use ios_config::read_config;
use net_types::{Config, Links, List, NetDevice, Network, NoMemory, Place, Segment};
use std::alloc::Global;

/// A network with its links. Packets enter at the first interface of the first router.
#[derive(Clone, Copy)]
pub(crate) enum Plan {
    /// Two routers, each with a default route by the other.
    Pair,
    /// Two equal routes of the first router, by the second one and by the third one.
    Fan,
}

/// A network with its links.
#[derive(Drop)]
pub(crate) struct Linked {
    pub(crate) network: Network,
    pub(crate) links: Links,
}

/// The network of the plan, where its configurations are read.
pub(crate) fn network_of(alloc: Global, plan: Plan) -> Option<Linked> {
    let network = match plan {
        Plan::Pair => network(alloc, &AT_EACH_OTHER)?,
        Plan::Fan => network(alloc, &EQUAL_CHOICES)?,
    };
    let links = links(alloc, plan).ok()?;
    Some(Linked { network, links })
}

fn network(alloc: Global, routers: &[&str]) -> Option<Network> {
    let mut devices = List::empty(alloc);
    add_devices(alloc, &mut devices, routers)?;
    Some(Network { devices })
}

fn add_devices(alloc: Global, devices: &mut List<NetDevice>, routers: &[&str]) -> Option<()> {
    for (name, text) in (0..).zip(routers) {
        let device = device(alloc, name, text)?;
        devices.push(device).ok()?;
    }
    Some(())
}

/// A router of this number, as its configuration says.
pub(crate) fn device(alloc: Global, name: u32, text: &str) -> Option<NetDevice> {
    let config = config(alloc, text)?;
    let numbers = numbers(alloc, config.interfaces.as_slice().len()).ok()?;
    if numbers.as_slice().len() != config.interfaces.as_slice().len() {
        return None;
    }
    Some(NetDevice {
        name,
        config,
        numbers,
    })
}

/// A router without interfaces.
pub(crate) fn bare(alloc: Global, name: u32) -> Option<NetDevice> {
    device(alloc, name, "hostname bare\n")
}

fn config(alloc: Global, text: &str) -> Option<Config> {
    let bytes = text.as_bytes();
    if bytes.len() > 16_777_216 {
        return None;
    }
    match read_config(alloc, bytes) {
        Ok(reading) => Some(reading.config),
        Err(_) => None,
    }
}

// The numbers 0, 1, .., as many as there are interfaces.
fn numbers(alloc: Global, count: usize) -> Result<List<u32>, NoMemory> {
    let mut numbers = List::empty(alloc);
    for number in 0..u32::try_from(count).unwrap_or(0) {
        numbers.push(number)?;
    }
    Ok(numbers)
}

fn links(alloc: Global, plan: Plan) -> Result<Links, NoMemory> {
    let mut ingress = List::empty(alloc);
    ingress.push(at(0, 0))?;
    let segments = segments(alloc, plan)?;
    Ok(Links { segments, ingress })
}

fn segments(alloc: Global, plan: Plan) -> Result<List<Segment>, NoMemory> {
    let count = match plan {
        Plan::Pair => 1,
        Plan::Fan => 2,
    };
    let cables = [(at(0, 1), at(1, 0)), (at(0, 2), at(2, 0))];
    let mut segments = List::empty(alloc);
    for (one, other) in cables.iter().take(count) {
        let segment = cable(alloc, *one, *other)?;
        segments.push(segment)?;
    }
    Ok(segments)
}

// A point-to-point link.
fn cable(alloc: Global, one: Place, other: Place) -> Result<Segment, NoMemory> {
    let mut ends = List::empty(alloc);
    ends.push(one)?;
    ends.push(other)?;
    Ok(Segment { lan: false, ends })
}

fn at(device: u32, interface: u32) -> Place {
    Place { device, interface }
}
