//! Devices with a few addresses.

use net_types::{Config, Interface, List, Loaded, NoMemory, Side, Subnet, Text};
use std::alloc::Global;

/// An interface with these addresses in 10.0.0.0, of which the first is the primary one.
fn interface(
    alloc: Global,
    name: &[u8],
    shut: bool,
    addresses: &[u8],
) -> Result<Interface, NoMemory> {
    let mut primary = None;
    let mut secondary = List::empty(alloc);
    for address in addresses {
        let subnet = Subnet {
            address: 0x0a00_0000 + u32::from(*address),
            length: 24,
        };
        if primary.is_none() {
            primary = Some(subnet);
        } else {
            secondary.push(subnet)?;
        }
    }
    Ok(Interface {
        name: Text::copy_of(alloc, name)?,
        primary,
        secondary,
        shut,
        input: None,
        output: None,
        side: Side::Neither,
    })
}

/// A device with an interface E0, and one more, E1.
pub(crate) fn device(
    alloc: Global,
    hostname: &[u8],
    shut: bool,
    first: &[u8],
    second: &[u8],
) -> Result<Loaded, NoMemory> {
    let mut interfaces = List::empty(alloc);
    interfaces.push(interface(alloc, b"E0", shut, first)?)?;
    interfaces.push(interface(alloc, b"E1", false, second)?)?;
    Ok(Loaded {
        file: Text::copy_of(alloc, hostname)?,
        config: Config {
            hostname: Text::copy_of(alloc, hostname)?,
            interfaces,
            routes: List::empty(alloc),
            lists: List::empty(alloc),
            nat: List::empty(alloc),
        },
        passed: 0,
    })
}
