//! Links on Ethernet that a table has as p2p.
ghost use Rattle.std.specs.Prelude.{◌≡◌, IfOk, OnOk, filter, map};
ghost use Rattle.std.specs.List.{list_any};
ghost use Rattle.std.specs.Option.{option_copied};
ghost use Rattle.net_types.specs.Routes.{live_subnets};
ghost use Rattle.place_checks.specs.Ethernet.{
  is_port,
  is_bundle,
  is_ethernet,
  has_spare,
  is_common,
  share_spare,
  are_joined,
  has_both,
  is_p2p,
  is_met,
  ethernet_links,
};
ghost use Rattle.place_checks.specs.Index.{place_in, AreNets};
ghost use Rattle.place_checks.specs.Sights.{pair_of};

use crate::Networks;
use crate::ends::has_subnet;
use crate::nets::Nets;
use crate::place::{PlaceRef, place_at};
use net_types::{Interface, NoMemory, Subnet, Text};
use std::alloc::Global;
use topo_links::{LinkKind, LinkLine};

/// Whether it is a port of Ethernet, by its name.
fn is_port(name: &[u8]) -> bool
    ensures { result ≡ is_port name.now }
{
    name.starts_with(b"Ethernet")
        || name.starts_with(b"FastEthernet")
        || name.starts_with(b"GigabitEthernet")
        || name.starts_with(b"TwoGig")
        || name.starts_with(b"FiveGig")
        || name.starts_with(b"TenGig")
        || name.starts_with(b"TwentyFiveGig")
        || name.starts_with(b"FortyGig")
        || name.starts_with(b"HundredGig")
}

/// Whether it stands for several ports of Ethernet, by its name.
fn is_bundle(name: &[u8]) -> bool
    ensures { result ≡ is_bundle name.now }
{
    name.starts_with(b"Vlan") || name.starts_with(b"Port-channel") || name.starts_with(b"BDI")
}

fn is_ethernet(name: &[u8]) -> bool
    ensures { result ≡ is_ethernet name.now }
{
    is_port(name) || is_bundle(name)
}

/// Whether the subnet has an address that is no end's, and the interface has the subnet.
fn is_common(interface: &Interface, subnet: &Subnet) -> bool
    ensures { result ≡ is_common interface.now subnet.now }
{
    subnet.length < 31 && has_subnet(interface, subnet)
}

fn any_common(interface: &Interface, subnets: &[Subnet]) -> bool
    ensures { result ≡ list_any (is_common interface.now) subnets.now }
{
    subnets.iter().any(|s| is_common(interface, s))
}

/// Whether one of the subnets of an interface is common to both.
fn has_common(interface: &Interface, other: &Interface) -> bool
    ensures { result ≡ list_any (is_common other.now) (live_subnets interface.now) }
{
    if interface.shut {
        return false;
    }
    match &interface.primary {
        Some(s) => is_common(other, s) || any_common(other, interface.secondary.as_slice()),
        None => any_common(other, interface.secondary.as_slice()),
    }
}

fn share_spare(interface: Option<&Interface>, other: Option<&Interface>) -> bool
    ensures { result ≡ share_spare (option_copied interface.entry) (option_copied other.entry) }
{
    let Some(interface) = interface else {
        return false;
    };
    match other {
        None => false,
        Some(other) => has_common(interface, other),
    }
}

/// Whether two places share such a subnet in one of the judged networks.
fn are_joined(nets: Nets, place: PlaceRef, other: PlaceRef) -> bool
    requires { AreNets nets }
    ensures { result ≡ are_joined (pair_of nets.entry) (place_in place.entry) (place_in other.entry) }
{
    let in_old = nets.judged != Networks::New
        && share_spare(
            nets.old.devices.interface(place),
            nets.old.devices.interface(other),
        );
    in_old
        || nets.judged != Networks::Old
            && share_spare(
                nets.new.devices.interface(place),
                nets.new.devices.interface(other),
            )
}

fn has_both(nets: Nets, ends: &[(Text, Text)]) -> bool
    requires { AreNets nets }
    ensures { result ≡ has_both (pair_of nets.entry) ends.now }
{
    match ends {
        [end, other] => {
            is_ethernet(end.1.as_bytes()) && are_joined(nets, place_at(end), place_at(other))
        }
        _ => false,
    }
}

fn is_p2p(kind: LinkKind) -> bool
    ensures { result ≡ is_p2p kind }
{
    kind == LinkKind::P2p
}

fn is_met(nets: Nets, line: &LinkLine) -> bool
    requires { AreNets nets }
    ensures { result ≡ is_met (pair_of nets.entry) line.now }
{
    is_p2p(line.kind) && has_both(nets, line.ends.as_slice())
}

/// The numbers of the lines that are p2p and on Ethernet, where an address of the subnet is no end's.
pub(crate) fn ethernet_links(
    alloc: Global,
    nets: Nets,
    lines: &[LinkLine],
) -> Result<Vec<u32>, NoMemory>
    requires { AreNets nets }
    ensures { IfOk result (λ found. found.items ≡ ethernet_links (pair_of nets.entry) lines.now) }
{
    let mut found = Vec::new(alloc);
    for line in lines {
        if is_met(nets, line) {
            found.push(line.line)?;
        }
    }
    Ok(found)
}
