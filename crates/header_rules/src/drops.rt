//! Destinations that a device drops at once.

ghost use Rattle.std.specs.Prelude.{◌≡◌};
ghost use Rattle.std.specs.List.{list_any};
ghost use Rattle.net_types.specs.Moves.{is_broadcast, has_broadcast, is_dropped};

use net_types::{Config, Interface, Subnet};

/// Whether the device drops what goes to the address: a multicast or reserved address, or the directed broadcast of a subnet
/// of an IP-enabled interface of its own (RFC 1112; RFC 1812, 5.3.5).
pub fn is_dropped(config: &Config, address: u32) -> bool
    ensures { result ≡ is_dropped config.now address }
{
    address >= 0xe000_0000 || any_has_broadcast(address, config.interfaces.as_slice())
}

fn any_has_broadcast(address: u32, interfaces: &[Interface]) -> bool
    ensures { result ≡ list_any (has_broadcast address) interfaces.now }
{
    interfaces.iter().any(|i| has_broadcast(address, i))
}

fn has_broadcast(address: u32, interface: &Interface) -> bool
    ensures { result ≡ has_broadcast address interface.now }
{
    if interface.shut {
        return false;
    }
    match &interface.primary {
        Some(s) => is_broadcast(address, s)
            || any_broadcast(address, interface.secondary.as_slice()),
        None => any_broadcast(address, interface.secondary.as_slice()),
    }
}

fn any_broadcast(address: u32, subnets: &[Subnet]) -> bool
    ensures { result ≡ list_any (is_broadcast address) subnets.now }
{
    subnets.iter().any(|s| is_broadcast(address, s))
}

fn is_broadcast(address: u32, subnet: &Subnet) -> bool
    ensures { result ≡ is_broadcast address subnet.now }
{
    let size = 1u64 << (32 - u32::from(subnet.length));
    let own = u64::from(subnet.address);
    subnet.length <= 30 && u64::from(address) + 1 == own - own % size + size
}
