//! Routes that are drawn for the routers of a plan: they lead to and fro, several ways at once, and round in circles.

use net_types::{List, NetDevice, Network, NoMemory, Route, RouteExit, Subnet};
use std::alloc::Global;
use std::mem;

/// How many routes each router gets.
const ROUTES: u32 = 4;

/// A row of numbers in which each follows from the one before.
#[derive(Clone, Copy)]
struct Draws {
    state: u64,
}

impl Draws {
    // The next number.
    fn next(&mut self) -> u64 {
        let next = self.state.wrapping_mul(6364136223846793005);
        self.state = next.wrapping_add(1442695040888963407);
        self.state >> 33
    }
}

/// Gives each router some routes behind its own, by the number: each to one of its neighbours, or to another address of the network.
pub(crate) fn add_routes(
    alloc: Global,
    network: &mut Network,
    number: u64,
) -> Result<(), NoMemory> {
    let hops = addresses(alloc, network.devices.as_slice())?;
    let mut devices = mem::replace(&mut network.devices, List::empty(alloc)).into_vec();
    let added = add_to_all(&mut devices, &hops, number);
    network.devices = List::new(devices);
    added
}

fn add_to_all(devices: &mut [NetDevice], hops: &[u32], number: u64) -> Result<(), NoMemory> {
    let mut draws = Draws { state: number };
    for device in devices {
        add_to_one(&mut device.config.routes, &mut draws, hops)?;
    }
    Ok(())
}

fn add_to_one(routes: &mut List<Route>, draws: &mut Draws, hops: &[u32]) -> Result<(), NoMemory> {
    for _turn in 0..ROUTES {
        routes.push(drawn_route(draws, hops))?;
    }
    Ok(())
}

// The addresses of all interfaces.
fn addresses(alloc: Global, devices: &[NetDevice]) -> Result<Vec<u32>, NoMemory> {
    let mut addresses = Vec::new(alloc);
    for device in devices {
        for interface in device.config.interfaces.as_slice() {
            if let Some(subnet) = interface.primary {
                addresses.push(subnet.address)?;
            }
        }
    }
    Ok(addresses)
}

// A route to a prefix of 0 to 3 bits by one of these addresses. So each header has some routes, and of many the longest are equal.
fn drawn_route(draws: &mut Draws, hops: &[u32]) -> Route {
    let length = (draws.next() % 4) as u8;
    let address = prefix((draws.next() % 8) as u32, length);
    let next = match hops.get(draws.next() as usize % hops.len().max(1)) {
        Some(hop) => *hop,
        None => 0,
    };
    Route {
        prefix: Subnet {
            address,
            length: length.min(32),
        },
        exit: RouteExit::Next { next },
        distance: 1,
    }
}

// The address whose first bits are these three, as many of them as the length says, and none behind.
fn prefix(bits: u32, length: u8) -> u32 {
    let all = (bits & 7) << 29;
    match length {
        0 => 0,
        1 => all & 0x8000_0000,
        2 => all & 0xc000_0000,
        _ => all,
    }
}
