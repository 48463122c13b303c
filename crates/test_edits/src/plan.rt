//! The links of the networks: two lans, one of which has an end that is on the other too, and three cables.

use net_types::{Links, List, NoMemory, Place, Segment};
use std::alloc::Global;

/// How many devices there are, with the names 0, 1, ..
pub(crate) const DEVICES: u32 = 5;

/// The most interfaces of a device, with the numbers 0, 1, ..
pub(crate) const INTERFACES: u32 = 4;

/// The segments: whether each is a lan, and its ends, each a device and an interface.
const SEGMENTS: [(bool, &[(u32, u32)]); 6] = [
    (true, &[(0, 0), (1, 0), (2, 0), (3, 0), (4, 0)]),
    (true, &[(0, 1), (1, 1), (2, 1)]),
    (true, &[(2, 1), (3, 1), (4, 1)]),
    (false, &[(0, 2), (1, 2)]),
    (false, &[(2, 2), (3, 2)]),
    (false, &[(4, 2), (0, 3)]),
];

pub(crate) fn links(alloc: Global) -> Result<Links, NoMemory> {
    let mut links = Links {
        segments: List::empty(alloc),
        ingress: List::empty(alloc),
    };
    join(alloc, &mut links)?;
    Ok(links)
}

fn join(alloc: Global, links: &mut Links) -> Result<(), NoMemory> {
    for (lan, ends) in &SEGMENTS {
        links.segments.push(segment(alloc, *lan, ends)?)?;
    }
    links.ingress.push(at(1, 3))?;
    Ok(())
}

fn segment(alloc: Global, lan: bool, places: &[(u32, u32)]) -> Result<Segment, NoMemory> {
    let mut ends = List::empty(alloc);
    for (device, interface) in places {
        ends.push(at(*device, *interface))?;
    }
    Ok(Segment { lan, ends })
}

fn at(device: u32, interface: u32) -> Place {
    Place { device, interface }
}
