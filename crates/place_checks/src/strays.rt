//! Next hops on lans that no end has.
ghost use Rattle.std.specs.Prelude.{◌≡◌, ◌++◌, ◌∷◌, [], Some, IfOk, OnOk, filter, flat_map, map};
ghost use Rattle.std.specs.List.{list_any};
ghost use Rattle.std.specs.Option.{option_copied};
ghost use Rattle.net_types.specs.Routes.{live_subnets};
ghost use Rattle.topo_links.specs.Check.{has_value, device_named, interface_at};
ghost use Rattle.place_checks.specs.Findings.{judges_new};
ghost use Rattle.place_checks.specs.Index.{place_in, IsNet, AreNets};
ghost use Rattle.place_checks.specs.Sights.{folder_of, pair_of};
ghost use Rattle.place_checks.specs.Strays.{
  holds_address,
  next_over,
  once,
  nexts_over,
  has_own,
  end_has,
  is_stray,
  strays_of,
  strays,
  if_judged,
  stray,
  networks_with,
  stray_in_old,
  stray_in_new,
  is_added,
  strays_in,
  end_strays,
  is_lan,
  line_strays,
  stray_findings,
};

use crate::Networks;
use crate::nets::{Net, Nets};
use crate::place::{PlaceRef, copy_place, place_at};
use indexmap::IndexSet;
use net_types::{Interface, Loaded, NoMemory, Route, RouteExit, Subnet, Text};
use net_view::{has_address, holds, is_enabled, same_text};
use std::alloc::Global;
use topo_links::{LinkKind, LinkLine};

/// A next hop over an IP-enabled end of a lan that no end of the lan has, shut or not: what is sent there is delivered out
/// of the interface, as if it left the network.
pub struct StrayNext {
    /// The line of the lan in the link table, from 1.
    pub line: u32,
    /// The end whose device has the route, by the names of its device and its interface.
    pub place: (Text, Text),
    /// The next hop of a static route of the device: an address in a subnet of the interface, or one beside its name.
    pub next: u32,
    pub networks: Networks,
}

impl Drop for StrayNext {
    fn drop(self) {
        let StrayNext {
            line: _,
            place: _,
            next: _,
            networks: _,
        } = self;
    }
}

/// Whether one of the subnets holds the address.
fn any_holds(subnets: &[Subnet], address: u32) -> bool
    ensures { result ≡ list_any (holds_address address) subnets.now }
{
    subnets.iter().any(|s| holds(s, address))
}

/// Whether a subnet of the interface holds the address, where the interface isn't shut.
fn is_near(interface: &Interface, address: u32) -> bool
    ensures { result ≡ list_any (holds_address address) (live_subnets interface.now) }
{
    if interface.shut {
        return false;
    }
    match &interface.primary {
        Some(s) => holds(s, address) || any_holds(interface.secondary.as_slice(), address),
        None => any_holds(interface.secondary.as_slice(), address),
    }
}

/// The next hop of a route that leads out of the interface.
fn next_over(interface: &Interface, exit: &RouteExit) -> Option<u32>
    ensures { result ≡ next_over interface.now exit.now }
{
    match exit {
        RouteExit::Null => None,
        RouteExit::Port { name: _ } => None,
        RouteExit::Both { name, next } => {
            if same_text(name.as_bytes(), interface.name.as_bytes()) {
                Some(*next)
            } else {
                None
            }
        }
        RouteExit::Next { next } => {
            if is_near(interface, *next) {
                Some(*next)
            } else {
                None
            }
        }
    }
}

/// Adds a next hop, where it isn't there yet.
fn add_next(next: Option<u32>, nexts: &mut IndexSet<u32>) -> Result<(), NoMemory>
    ensures { OnOk result (nexts.new.keys ≡ once nexts.old.keys next) }
{
    let Some(next) = next else {
        return Ok(());
    };
    nexts.insert(next)?;
    Ok(())
}

/// The next hops over the interface, each once.
fn nexts_over(
    alloc: Global,
    interface: &Interface,
    routes: &[Route],
) -> Result<IndexSet<u32>, NoMemory>
    ensures { IfOk result (λ nexts. nexts.keys ≡ nexts_over interface.now routes.now) }
{
    let mut nexts = IndexSet::new(alloc);
    for route in routes {
        add_next(next_over(interface, &route.exit), &mut nexts)?;
    }
    Ok(nexts)
}

/// Whether the interface is there and has the address, shut or not.
fn has_own(address: u32, interface: Option<&Interface>) -> bool
    ensures { result ≡ has_own address (option_copied interface.entry) }
{
    match interface {
        None => false,
        Some(interface) => has_address(interface, address),
    }
}

/// Whether one of the ends has the address.
fn any_has(net: &Net, ends: &[(Text, Text)], address: u32) -> bool
    requires { IsNet net.now }
    ensures { result ≡ list_any (end_has (folder_of net.now) address) ends.now }
{
    for end in ends {
        if has_own(address, net.devices.interface(place_at(end))) {
            return true;
        }
    }
    false
}

/// Those of the next hops that no end has.
fn without_end(
    alloc: Global,
    net: &Net,
    ends: &[(Text, Text)],
    nexts: &[u32],
) -> Result<Vec<u32>, NoMemory>
    requires { IsNet net.now }
    ensures { IfOk result (λ strays. strays.items ≡ filter (is_stray (folder_of net.now) ends.now) nexts.now) }
{
    let mut strays = Vec::new(alloc);
    for next in nexts {
        if any_has(net, ends, *next) {
            continue;
        }
        strays.push(*next)?;
    }
    Ok(strays)
}

/// The next hops over an interface of a device that none of these ends has; over one that isn't IP-enabled nothing is sent.
fn strays_of(
    alloc: Global,
    net: &Net,
    ends: &[(Text, Text)],
    device: &Loaded,
    interface: &Interface,
) -> Result<Vec<u32>, NoMemory>
    requires { IsNet net.now }
    ensures { IfOk result (λ found. found.items ≡ strays_of (folder_of net.now) ends.now (Some device.now) (Some interface.now)) }
{
    if !is_enabled(interface) {
        return Ok(Vec::new(alloc));
    }
    let nexts = nexts_over(alloc, interface, device.config.routes.as_slice())?;
    without_end(alloc, net, ends, nexts.as_slice())
}

/// The next hops over an end of a lan that none of its ends has, where the network is judged.
fn strays(
    alloc: Global,
    judged: bool,
    net: &Net,
    ends: &[(Text, Text)],
    place: PlaceRef,
) -> Result<Vec<u32>, NoMemory>
    requires { IsNet net.now }
    ensures { IfOk result (λ found. found.items ≡ if_judged judged (strays (folder_of net.now) ends.now (place_in place.entry))) }
{
    if !judged {
        return Ok(Vec::new(alloc));
    }
    let Some(device) = net.devices.get(place.device) else {
        return Ok(Vec::new(alloc));
    };
    match net.devices.interface(place) {
        None => Ok(Vec::new(alloc)),
        Some(interface) => strays_of(alloc, net, ends, device, interface),
    }
}

/// Whether it is one of the addresses.
fn has_value(address: u32, addresses: &[u32]) -> bool
    ensures { result ≡ has_value address addresses.now }
{
    addresses.iter().any(|a| address == *a)
}

/// Tells of a next hop.
fn tell(
    alloc: Global,
    line: u32,
    place: PlaceRef,
    next: u32,
    networks: Networks,
    found: &mut Vec<StrayNext>,
) -> Result<(), NoMemory>
    ensures { OnOk result (found.new.items ≡ found.old.items ++ stray line (place_in place.entry) next networks ∷ []) }
{
    let place = copy_place(alloc, place)?;
    found.push(StrayNext {
        line,
        place,
        next,
        networks,
    })?;
    Ok(())
}

/// The networks that have a next hop of the old one.
fn networks_with(next: u32, new: &[u32]) -> Networks
    ensures { result ≡ networks_with new.now next }
{
    if has_value(next, new) {
        Networks::Both
    } else {
        Networks::Old
    }
}

/// Tells of those of the old network, and whether the new one has them too.
fn tell_old(
    alloc: Global,
    line: u32,
    place: PlaceRef,
    old: &[u32],
    new: &[u32],
    found: &mut Vec<StrayNext>,
) -> Result<(), NoMemory>
    ensures { OnOk result (found.new.items ≡ found.old.items ++ map (stray_in_old line (place_in place.entry) new.now) old.now) }
{
    for next in old {
        tell(alloc, line, place, *next, networks_with(*next, new), found)?;
    }
    Ok(())
}

/// Tells of those that the new network alone has.
fn tell_new(
    alloc: Global,
    line: u32,
    place: PlaceRef,
    old: &[u32],
    new: &[u32],
    found: &mut Vec<StrayNext>,
) -> Result<(), NoMemory>
    ensures { OnOk result (found.new.items ≡ found.old.items ++ map (stray_in_new line (place_in place.entry)) (filter (is_added old.now) new.now)) }
{
    for next in new {
        if has_value(*next, old) {
            continue;
        }
        tell(alloc, line, place, *next, Networks::New, found)?;
    }
    Ok(())
}

/// Tells of the next hops over an end, those of the old network first.
fn tell_both(
    alloc: Global,
    line: u32,
    place: PlaceRef,
    old: &[u32],
    new: &[u32],
    found: &mut Vec<StrayNext>,
) -> Result<(), NoMemory>
    ensures { OnOk result (found.new.items ≡ found.old.items ++ strays_in line (place_in place.entry) old.now new.now) }
{
    tell_old(alloc, line, place, old, new, found)?;
    tell_new(alloc, line, place, old, new, found)
}

/// The next hops over an end, beside those of the old network.
fn check_beside(
    alloc: Global,
    nets: Nets,
    line: &LinkLine,
    place: PlaceRef,
    old: &[u32],
    found: &mut Vec<StrayNext>,
) -> Result<(), NoMemory>
    requires { AreNets nets }
    ensures { OnOk result (found.new.items ≡ found.old.items ++ strays_in line.now.line (place_in place.entry) old.now (if_judged (judges_new nets.entry.judged) (strays (folder_of nets.entry.new.now) line.now.ends (place_in place.entry)))) }
{
    let judged = nets.judged != Networks::Old;
    let new = strays(alloc, judged, nets.new, line.ends.as_slice(), place)?;
    tell_both(alloc, line.line, place, old, &new, found)
}

/// The next hops over an end.
fn check_end(
    alloc: Global,
    nets: Nets,
    line: &LinkLine,
    place: PlaceRef,
    found: &mut Vec<StrayNext>,
) -> Result<(), NoMemory>
    requires { AreNets nets }
    ensures { OnOk result (found.new.items ≡ found.old.items ++ end_strays (pair_of nets.entry) line.now (place_in place.entry)) }
{
    let judged = nets.judged != Networks::New;
    let old = strays(alloc, judged, nets.old, line.ends.as_slice(), place)?;
    check_beside(alloc, nets, line, place, &old, found)
}

/// The ends of a lan.
fn check_ends(
    alloc: Global,
    nets: Nets,
    line: &LinkLine,
    found: &mut Vec<StrayNext>,
) -> Result<(), NoMemory>
    requires { AreNets nets }
    ensures { OnOk result (found.new.items ≡ found.old.items ++ flat_map (end_strays (pair_of nets.entry) line.now) line.now.ends) }
{
    for end in line.ends.as_slice() {
        check_end(alloc, nets, line, place_at(end), found)?;
    }
    Ok(())
}

/// Whether a line is a lan.
fn is_lan(kind: LinkKind) -> bool
    ensures { result ≡ is_lan kind }
{
    kind == LinkKind::Lan
}

/// A line, if it is a lan.
fn check_lan(
    alloc: Global,
    nets: Nets,
    line: &LinkLine,
    found: &mut Vec<StrayNext>,
) -> Result<(), NoMemory>
    requires { AreNets nets }
    ensures { OnOk result (found.new.items ≡ found.old.items ++ line_strays (pair_of nets.entry) line.now) }
{
    if !is_lan(line.kind) {
        return Ok(());
    }
    check_ends(alloc, nets, line, found)
}

/// The next hops on lans that no end has.
pub(crate) fn stray_findings(
    alloc: Global,
    nets: Nets,
    lines: &[LinkLine],
) -> Result<Vec<StrayNext>, NoMemory>
    requires { AreNets nets }
    ensures { IfOk result (λ found. found.items ≡ stray_findings (pair_of nets.entry) lines.now) }
{
    let mut found = Vec::new(alloc);
    for line in lines {
        check_lan(alloc, nets, line, &mut found)?;
    }
    Ok(found)
}
