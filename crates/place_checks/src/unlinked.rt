//! Interfaces of one subnet that no segment joins.
ghost use Rattle.std.specs.Prelude.{◌≡◌, ◌++◌, ◌∷◌, [], true, false, IfOk, OnOk, filter_map, flat_map, option_map};
ghost use Rattle.net_types.specs.Routes.{live_subnets};
ghost use Rattle.topo_links.specs.Table.{first};
ghost use Rattle.place_checks.specs.Findings.{
  other_if,
  unlinked_by,
  place_unlinked,
  device_unlinked,
};
ghost use Rattle.place_checks.specs.Homes.{is_strange, subnet_other, interface_other, other_in};
ghost use Rattle.place_checks.specs.Index.{place_in, IsNet, AreNets, AreSegments};
ghost use Rattle.place_checks.specs.Nearest.{place_of};
ghost use Rattle.place_checks.specs.Sights.{folder_of, pair_of};

use crate::finding::tell;
use crate::nets::{Net, Nets};
use crate::place::{PlaceRef, copy_place};
use crate::segments::Segments;
use crate::{Networks, PlaceFinding};
use net_types::{Interface, Loaded, NoMemory, Subnet};
use std::alloc::Global;

/// Whether a place is of another device, and no segment joins the two.
fn is_strange(
    alloc: Global,
    segments: &Segments,
    place: PlaceRef,
    other: PlaceRef,
) -> Result<bool, NoMemory>
    requires { AreSegments segments.now }
    ensures { IfOk result (λ strange. strange ≡ is_strange segments.now.table.now (place_in place.entry) (place_in other.entry)) }
{
    if place.device.same(other.device) {
        return Ok(false);
    }
    let joined = segments.joins(alloc, place, other)?;
    Ok(!joined)
}

/// The first place of a subnet, where it is of another device and no segment joins the two.
fn subnet_other<'a>(
    alloc: Global,
    net: &Net<'a>,
    segments: &Segments,
    place: PlaceRef,
    subnet: &Subnet,
) -> Result<Option<PlaceRef<'a>>, NoMemory>
    requires net { IsNet net.now }
    requires segments { AreSegments segments.now }
    ensures { IfOk result (λ other. option_map place_in other ≡ subnet_other segments.now.table.now (folder_of net.now) (place_in place.entry) subnet.now) }
{
    if subnet.length >= 32 {
        return Ok(None);
    }
    let Some(other) = net.subnets.first(subnet) else {
        return Ok(None);
    };
    if !is_strange(alloc, segments, place, other)? {
        return Ok(None);
    }
    Ok(Some(other))
}

/// The same by the first of several subnets for which there is one.
fn any_other<'a>(
    alloc: Global,
    net: &Net<'a>,
    segments: &Segments,
    place: PlaceRef,
    subnets: &[Subnet],
) -> Result<Option<PlaceRef<'a>>, NoMemory>
    requires net { IsNet net.now }
    requires segments { AreSegments segments.now }
    ensures { IfOk result (λ other. option_map place_in other ≡ first (filter_map (subnet_other segments.now.table.now (folder_of net.now) (place_in place.entry)) subnets.now)) }
{
    for subnet in subnets {
        let other = subnet_other(alloc, net, segments, place, subnet)?;
        if other.is_some() {
            return Ok(other);
        }
    }
    Ok(None)
}

/// The same by the subnets of an interface.
fn interface_other<'a>(
    alloc: Global,
    net: &Net<'a>,
    segments: &Segments,
    place: PlaceRef,
    interface: &Interface,
) -> Result<Option<PlaceRef<'a>>, NoMemory>
    requires net { IsNet net.now }
    requires segments { AreSegments segments.now }
    ensures { IfOk result (λ other. option_map place_in other ≡ interface_other segments.now.table.now (folder_of net.now) (place_in place.entry) interface.now) }
{
    if interface.shut {
        return Ok(None);
    }
    if let Some(subnet) = &interface.primary {
        let other = subnet_other(alloc, net, segments, place, subnet)?;
        if other.is_some() {
            return Ok(other);
        }
    }
    any_other(alloc, net, segments, place, interface.secondary.as_slice())
}

/// The other place of a subnet of a place in a network, where it is judged.
fn other_if<'a>(
    alloc: Global,
    judged: bool,
    net: &Net<'a>,
    segments: &Segments,
    place: PlaceRef,
) -> Result<Option<PlaceRef<'a>>, NoMemory>
    requires net { IsNet net.now }
    requires segments { AreSegments segments.now }
    ensures { IfOk result (λ other. option_map place_in other ≡ other_if judged (other_in segments.now.table.now (folder_of net.now) (place_in place.entry))) }
{
    if !judged {
        return Ok(None);
    }
    let Some(interface) = net.devices.interface(place) else {
        return Ok(None);
    };
    interface_other(alloc, net, segments, place, interface)
}

/// Tells of a place and the other one of its subnet.
fn tell_other(
    alloc: Global,
    place: PlaceRef,
    other: PlaceRef,
    networks: Networks,
    found: &mut Vec<PlaceFinding>,
) -> Result<(), NoMemory>
    ensures { OnOk result (found.new.items ≡ found.old.items ++ PlaceFinding.Unlinked (place_in place.entry) (place_in other.entry) networks ∷ []) }
{
    let place = copy_place(alloc, place)?;
    let other = copy_place(alloc, other)?;
    tell(
        found,
        PlaceFinding::Unlinked {
            place,
            other,
            networks,
        },
    )
}

/// Tells of a place and the other one of its subnet in each network, if there is one.
fn tell_others(
    alloc: Global,
    place: PlaceRef,
    old: Option<PlaceRef>,
    new: Option<PlaceRef>,
    found: &mut Vec<PlaceFinding>,
) -> Result<(), NoMemory>
    ensures { OnOk result (found.new.items ≡ found.old.items ++ unlinked_by (place_in place.entry) (option_map place_in old.entry) (option_map place_in new.entry)) }
{
    match (old, new) {
        (None, None) => Ok(()),
        (Some(other), None) => tell_other(alloc, place, other, Networks::Old, found),
        (None, Some(other)) => tell_other(alloc, place, other, Networks::New, found),
        (Some(_), Some(other)) => tell_other(alloc, place, other, Networks::Both, found),
    }
}

/// Tells of a place that isn't joined with the first one of its subnet; of one of the new network, where the old one doesn't have it.
fn check_place(
    alloc: Global,
    nets: Nets,
    segments: &Segments,
    added: bool,
    place: PlaceRef,
    found: &mut Vec<PlaceFinding>,
) -> Result<(), NoMemory>
    requires nets { AreNets nets }
    requires segments { AreSegments segments.now }
    ensures { OnOk result (found.new.items ≡ found.old.items ++ place_unlinked added (pair_of nets.entry) segments.now.table.now (place_in place.entry)) }
{
    if added && nets.old.devices.interface(place).is_some() {
        return Ok(());
    }
    let old = other_if(
        alloc,
        nets.judged != Networks::New,
        nets.old,
        segments,
        place,
    )?;
    let new = other_if(
        alloc,
        nets.judged != Networks::Old,
        nets.new,
        segments,
        place,
    )?;
    tell_others(alloc, place, old, new, found)
}

/// The place of an interface.
fn place_of<'a>(device: &'a Loaded, interface: &'a Interface) -> PlaceRef<'a>
    ensures { place_in result ≡ place_of device.now interface.now }
{
    PlaceRef {
        device: &device.config.hostname,
        interface: &interface.name,
    }
}

/// The interfaces of a device.
fn check_device(
    alloc: Global,
    nets: Nets,
    segments: &Segments,
    added: bool,
    device: &Loaded,
    found: &mut Vec<PlaceFinding>,
) -> Result<(), NoMemory>
    requires nets { AreNets nets }
    requires segments { AreSegments segments.now }
    ensures { OnOk result (found.new.items ≡ found.old.items ++ device_unlinked added (pair_of nets.entry) segments.now.table.now device.now) }
{
    for interface in device.config.interfaces.as_slice() {
        check_place(
            alloc,
            nets,
            segments,
            added,
            place_of(device, interface),
            found,
        )?;
    }
    Ok(())
}

/// The devices of a network.
fn check_folder(
    alloc: Global,
    nets: Nets,
    segments: &Segments,
    added: bool,
    folder: &[Loaded],
    found: &mut Vec<PlaceFinding>,
) -> Result<(), NoMemory>
    requires nets { AreNets nets }
    requires segments { AreSegments segments.now }
    ensures { OnOk result (found.new.items ≡ found.old.items ++ flat_map (device_unlinked added (pair_of nets.entry) segments.now.table.now) folder.now) }
{
    for device in folder {
        check_device(alloc, nets, segments, added, device, found)?;
    }
    Ok(())
}

/// The places of the old network, and those that the new one alone has.
pub fn check_nets(
    alloc: Global,
    nets: Nets,
    segments: &Segments,
    found: &mut Vec<PlaceFinding>,
) -> Result<(), NoMemory>
    requires nets { AreNets nets }
    requires segments { AreSegments segments.now }
    ensures { OnOk result (found.new.items ≡ found.old.items ++ flat_map (device_unlinked false (pair_of nets.entry) segments.now.table.now) (folder_of nets.entry.old.now) ++ flat_map (device_unlinked true (pair_of nets.entry) segments.now.table.now) (folder_of nets.entry.new.now)) }
{
    let old = nets.old;
    let new = nets.new;
    check_folder(alloc, nets, segments, false, old.devices.folder, found)?;
    check_folder(alloc, nets, segments, true, new.devices.folder, found)
}
