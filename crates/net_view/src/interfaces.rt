//! Questions about interfaces: whether one is IP-enabled, has an address or is on a side of translation, and which has a name.

ghost use Rattle.std.specs.Prelude.{◌≡◌, ◌&&◌, ◌==◌, ◌<◌, find, length};
ghost use Rattle.std.specs.Option.{option_copied};
ghost use Rattle.std.specs.List.{list_any};
ghost use Rattle.net_types.specs.Moves.{is_inside, is_outside};
ghost use Rattle.net_types.specs.Routes.{is_enabled, has_address, is_own, holds, subnets};
ghost use Rattle.net_types.specs.Routes.{interface_named, live_subnets, same_text};

use net_types::{Config, Interface, Side, Subnet};

/// Whether the interface is IP-enabled: not shut down, with at least one address.
pub fn is_enabled(interface: &Interface) -> bool
    ensures { result ≡ is_enabled interface.now }
{
    !interface.shut && (interface.primary.is_some() || !interface.secondary.as_slice().is_empty())
}

/// Whether it is an address of an IP-enabled interface of the device.
pub fn is_own(config: &Config, address: u32) -> bool
    ensures { result ≡ is_own config.now address }
{
    config
        .interfaces
        .as_slice()
        .iter()
        .any(|i| has_live_address(i, address))
}

/// Whether the interface has the address, and isn't shut down.
pub fn has_live_address(interface: &Interface, address: u32) -> bool
    ensures { result ≡ has_address address (live_subnets interface.now) }
{
    if interface.shut {
        return false;
    }
    has_address(interface, address)
}

/// Whether the interface has the address.
pub fn has_address(interface: &Interface, address: u32) -> bool
    ensures { result ≡ has_address address (subnets interface.now) }
{
    match &interface.primary {
        Some(s) => s.address == address || any_has_address(interface.secondary.as_slice(), address),
        None => any_has_address(interface.secondary.as_slice(), address),
    }
}

fn any_has_address(subnets: &[Subnet], address: u32) -> bool
    ensures { result ≡ has_address address subnets.now }
{
    subnets.iter().any(|s| s.address == address)
}

/// Whether the subnet holds the address.
pub fn holds(subnet: &Subnet, address: u32) -> bool
    ensures { result ≡ holds subnet.now address }
{
    let shift = 32 - u32::from(subnet.length);
    u64::from(address) >> shift == u64::from(subnet.address) >> shift
}

/// The device's first interface of this name.
pub fn interface_named<'a>(config: &'a Config, name: &[u8]) -> Option<&'a Interface>
    ensures { option_copied result ≡ interface_named config.now name.now }
{
    config
        .interfaces
        .as_slice()
        .iter()
        .find(|i| same_text(i.name.as_bytes(), name))
}

/// Whether it is the inside of translation.
pub fn is_inside(side: Side) -> bool
    ensures { result ≡ is_inside side }
{
    side == Side::Inside
}

/// Whether it is the outside of translation.
pub fn is_outside(side: Side) -> bool
    ensures { result ≡ is_outside side }
{
    side == Side::Outside
}

/// Whether the names are one: they are compared byte for byte.
pub fn same_text(a: &[u8], b: &[u8]) -> bool
    ensures { result ≡ same_text a.now b.now }
{
    a == b
}
