//! The ends of the lines of a table, one by one.
ghost use Rattle.std.specs.Prelude.{◌≡◌, ◌++◌, IfOk, OnOk, flat_map};
ghost use Rattle.std.specs.List.{list_any};
ghost use Rattle.std.specs.Option.{option_copied};
ghost use Rattle.net_types.specs.Routes.{live_subnets};
ghost use Rattle.place_checks.specs.Findings.{
  sight_of,
  networks_in,
  nearest,
  missing_findings,
  is_shut,
  shut_findings,
  is_bare,
  bare_findings,
  same_subnet,
  has_subnet,
  has_common,
  is_apart,
  apart_findings,
  sight_findings,
  end_findings,
  line_findings,
};
ghost use Rattle.place_checks.specs.Index.{place_in, AreNets};
ghost use Rattle.place_checks.specs.Sights.{seen, pair_of};

use crate::finding::tell;
use crate::nearest::near_in;
use crate::nets::Nets;
use crate::place::{PlaceRef, copy_place, place_at};
use crate::{Networks, PlaceFinding};
use net_types::{Interface, NoMemory, Subnet, Text, first_bits};
use net_view::is_enabled;
use std::alloc::Global;
use topo_links::LinkLine;

/// What is there of a place that a line names: the interface of each network, if there is one.
#[derive(Clone, Copy)]
pub struct SeenPlace<'a> {
    pub line: u32,
    pub place: PlaceRef<'a>,
    pub old: Option<&'a Interface>,
    pub new: Option<&'a Interface>,
}

/// What is there of a place.
fn see<'a>(nets: Nets<'_, 'a>, line: u32, place: PlaceRef<'a>) -> SeenPlace<'a>
    requires { AreNets nets }
    ensures { seen result ≡ sight_of (pair_of nets.entry) line (place_in place.entry) }
{
    SeenPlace {
        line,
        place,
        old: nets.old.devices.interface(place),
        new: nets.new.devices.interface(place),
    }
}

/// Those of the judged networks in which it is so, if there are any.
fn networks_in(judged: Networks, in_old: bool, in_new: bool) -> Option<Networks>
    ensures { result ≡ networks_in judged in_old in_new }
{
    let old = judged != Networks::New && in_old;
    let new = judged != Networks::Old && in_new;
    match (old, new) {
        (true, true) => Some(Networks::Both),
        (true, false) => Some(Networks::Old),
        (false, true) => Some(Networks::New),
        (false, false) => None,
    }
}

/// The nearest place of the new network, else of the old one.
fn nearest(alloc: Global, nets: Nets, place: PlaceRef) -> Result<Option<(Text, Text)>, NoMemory>
    requires { AreNets nets }
    ensures { IfOk result (λ near. near ≡ nearest (pair_of nets.entry) (place_in place.entry)) }
{
    match near_in(alloc, nets.new, place)? {
        Some(near) => Ok(Some(near)),
        None => near_in(alloc, nets.old, place),
    }
}

/// Tells of a place that neither network has.
fn check_missing(
    alloc: Global,
    nets: Nets,
    place: SeenPlace,
    found: &mut Vec<PlaceFinding>,
) -> Result<(), NoMemory>
    requires { AreNets nets }
    ensures { OnOk result (found.new.items ≡ found.old.items ++ missing_findings (pair_of nets.entry) (seen place.entry)) }
{
    if place.old.is_some() || place.new.is_some() {
        return Ok(());
    }
    let near = nearest(alloc, nets, place.place)?;
    tell(
        found,
        PlaceFinding::Missing {
            line: place.line,
            place: copy_place(alloc, place.place)?,
            near,
        },
    )
}

/// Whether the interface is there and shut.
fn is_shut(interface: Option<&Interface>) -> bool
    ensures { result ≡ is_shut (option_copied interface.entry) }
{
    match interface {
        None => false,
        Some(interface) => interface.shut,
    }
}

/// Tells of an interface that is shut.
fn check_shut(
    alloc: Global,
    judged: Networks,
    place: SeenPlace,
    found: &mut Vec<PlaceFinding>,
) -> Result<(), NoMemory>
    ensures { OnOk result (found.new.items ≡ found.old.items ++ shut_findings judged (seen place.entry)) }
{
    let Some(networks) = networks_in(judged, is_shut(place.old), is_shut(place.new)) else {
        return Ok(());
    };
    tell(
        found,
        PlaceFinding::Shut {
            line: place.line,
            place: copy_place(alloc, place.place)?,
            networks,
        },
    )
}

/// Whether the interface is there, isn't shut, and has no address.
fn is_bare(interface: Option<&Interface>) -> bool
    ensures { result ≡ is_bare (option_copied interface.entry) }
{
    match interface {
        None => false,
        Some(interface) => !interface.shut && !is_enabled(interface),
    }
}

/// Tells of an interface without an address.
fn check_bare(
    alloc: Global,
    judged: Networks,
    place: SeenPlace,
    found: &mut Vec<PlaceFinding>,
) -> Result<(), NoMemory>
    ensures { OnOk result (found.new.items ≡ found.old.items ++ bare_findings judged (seen place.entry)) }
{
    let Some(networks) = networks_in(judged, is_bare(place.old), is_bare(place.new)) else {
        return Ok(());
    };
    tell(
        found,
        PlaceFinding::NoAddress {
            line: place.line,
            place: copy_place(alloc, place.place)?,
            networks,
        },
    )
}

/// Whether the subnets are one.
fn same_subnet(subnet: &Subnet, other: &Subnet) -> bool
    ensures { result ≡ same_subnet subnet.now other.now }
{
    subnet.length == other.length
        && first_bits(subnet.length, subnet.address) == first_bits(subnet.length, other.address)
}

/// Whether one of the subnets is this one.
fn any_same(subnets: &[Subnet], subnet: &Subnet) -> bool
    ensures { result ≡ has_subnet subnets.now subnet.now }
{
    subnets.iter().any(|s| same_subnet(subnet, s))
}

/// Whether an interface has the subnet, and isn't shut.
pub(crate) fn has_subnet(interface: &Interface, subnet: &Subnet) -> bool
    ensures { result ≡ has_subnet (live_subnets interface.now) subnet.now }
{
    if interface.shut {
        return false;
    }
    match &interface.primary {
        Some(s) => same_subnet(subnet, s) || any_same(interface.secondary.as_slice(), subnet),
        None => any_same(interface.secondary.as_slice(), subnet),
    }
}

/// Whether an interface has one of the subnets.
fn has_any(interface: &Interface, subnets: &[Subnet]) -> bool
    ensures { result ≡ list_any (has_subnet (live_subnets interface.now)) subnets.now }
{
    subnets.iter().any(|s| has_subnet(interface, s))
}

/// Whether two interfaces have a subnet in common.
fn has_common(interface: &Interface, other: &Interface) -> bool
    ensures { result ≡ has_common interface.now other.now }
{
    if interface.shut {
        return false;
    }
    match &interface.primary {
        Some(s) => has_subnet(other, s) || has_any(other, interface.secondary.as_slice()),
        None => has_any(other, interface.secondary.as_slice()),
    }
}

/// Whether both interfaces are IP-enabled, and have no subnet in common.
fn is_apart(interface: Option<&Interface>, other: Option<&Interface>) -> bool
    ensures { result ≡ is_apart (option_copied interface.entry) (option_copied other.entry) }
{
    let Some(interface) = interface else {
        return false;
    };
    match other {
        None => false,
        Some(other) => {
            is_enabled(interface) && is_enabled(other) && !has_common(interface, other)
        }
    }
}

/// Tells of an end without a subnet of the first one.
fn check_apart(
    alloc: Global,
    judged: Networks,
    first: SeenPlace,
    place: SeenPlace,
    found: &mut Vec<PlaceFinding>,
) -> Result<(), NoMemory>
    ensures { OnOk result (found.new.items ≡ found.old.items ++ apart_findings judged (seen first.entry) (seen place.entry)) }
{
    let in_old = is_apart(first.old, place.old);
    let in_new = is_apart(first.new, place.new);
    let Some(networks) = networks_in(judged, in_old, in_new) else {
        return Ok(());
    };
    tell(
        found,
        PlaceFinding::Apart {
            line: place.line,
            place: copy_place(alloc, place.place)?,
            first: copy_place(alloc, first.place)?,
            networks,
        },
    )
}

/// What is wrong with an end of a line, beside the first one.
fn check_end(
    alloc: Global,
    nets: Nets,
    first: SeenPlace,
    end: &(Text, Text),
    found: &mut Vec<PlaceFinding>,
) -> Result<(), NoMemory>
    requires { AreNets nets }
    ensures { OnOk result (found.new.items ≡ found.old.items ++ sight_findings (pair_of nets.entry) (seen first.entry) (sight_of (pair_of nets.entry) first.entry.line end.now)) }
{
    let place = see(nets, first.line, place_at(end));
    check_missing(alloc, nets, place, found)?;
    check_shut(alloc, nets.judged, place, found)?;
    check_bare(alloc, nets.judged, place, found)?;
    check_apart(alloc, nets.judged, first, place, found)
}

/// What is wrong with the ends of a line.
pub fn check_line(
    alloc: Global,
    nets: Nets,
    line: &LinkLine,
    found: &mut Vec<PlaceFinding>,
) -> Result<(), NoMemory>
    requires { AreNets nets }
    ensures { OnOk result (found.new.items ≡ found.old.items ++ line_findings (pair_of nets.entry) line.now) }
{
    let ends = line.ends.as_slice();
    let [first, ..] = ends else {
        return Ok(());
    };
    let first = see(nets, line.line, place_at(first));
    for end in ends {
        check_end(alloc, nets, first, end, found)?;
    }
    Ok(())
}
