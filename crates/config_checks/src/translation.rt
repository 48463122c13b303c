//! Address translation that is never used.
ghost use Rattle.std.specs.Prelude.{◌≡◌, ◌++◌, [], IfOk, OnOk, filter, fold, map};
ghost use Rattle.std.specs.List.{list_any};
ghost use Rattle.std.specs.Option.{option_copied};
ghost use Rattle.net_types.specs.Routes.{installed};
ghost use Rattle.config_checks.specs.Findings.{has_side, host_of, hosts, is_aside, is_at, is_on, is_on_if_any, is_out, is_same, is_turned, leads_out, once, side_findings, translation_findings, turned};
ghost use Rattle.config_checks.specs.Held.{AreOf};

use crate::ConfigFinding;
use crate::held::Held;
use crate::routes::has_subnet_of;
use indexmap::IndexSet;
use net_types::{Config, Interface, NatKind, NatRule, NoMemory, Route, RouteExit, Side};
use net_view::{interface_named, is_enabled, is_inside, is_outside};
use std::alloc::Global;

fn is_at(side: Side, other: Side) -> bool
    ensures { result ≡ is_at side other }
{
    match side {
        Side::Neither => false,
        Side::Inside => is_inside(other),
        Side::Outside => is_outside(other),
    }
}

/// Whether the interface is on the side, and IP-enabled.
fn is_on(side: Side, interface: &Interface) -> bool
    ensures { result ≡ is_on side interface.now }
{
    is_at(side, interface.side) && is_enabled(interface)
}

/// Whether an IP-enabled interface is on the side.
fn has_side(side: Side, config: &Config) -> bool
    ensures { result ≡ has_side side config.now }
{
    config.interfaces.as_slice().iter().any(|i| is_on(side, i))
}

fn is_on_if_any(side: Side, interface: Option<&Interface>) -> bool
    ensures { result ≡ is_on_if_any side (option_copied interface.entry) }
{
    match interface {
        None => false,
        Some(interface) => is_on(side, interface),
    }
}

/// Whether the interface isn't on the side, and a subnet of it holds the address.
fn is_aside(side: Side, address: u32, interface: &Interface) -> bool
    ensures { result ≡ is_aside side address interface.now }
{
    !is_on(side, interface) && has_subnet_of(interface, address)
}

fn any_aside(side: Side, address: u32, interfaces: &[Interface]) -> bool
    ensures { result ≡ list_any (is_aside side address) interfaces.now }
{
    interfaces.iter().any(|i| is_aside(side, address, i))
}

/// Whether a route leads out of an interface of the side.
fn leads_out(side: Side, config: &Config, exit: &RouteExit) -> bool
    ensures { result ≡ leads_out side config.now exit.now }
{
    match exit {
        RouteExit::Null => false,
        RouteExit::Port { name } => is_on_if_any(side, interface_named(config, name.as_bytes())),
        RouteExit::Both { name, next: _ } => {
            is_on_if_any(side, interface_named(config, name.as_bytes()))
        }
        RouteExit::Next { next } => !any_aside(side, *next, config.interfaces.as_slice()),
    }
}

fn is_out(side: Side, config: &Config, route: &Route) -> bool
    ensures { result ≡ is_out side config.now route.now }
{
    leads_out(side, config, &route.exit)
}

/// The prefixes of the routes that lead out of an interface of the side.
fn held_out(alloc: Global, side: Side, config: &Config, routes: &[Route]) -> Result<Held, NoMemory>
    ensures { IfOk result (λ held. AreOf held (filter (is_out side config.now) routes.now)) }
{
    let mut held = Held::none(alloc);
    for route in routes {
        if is_out(side, config, route) {
            held.add(route)?;
        }
    }
    Ok(held)
}

/// The address of the host that a rule is for.
fn host_of(side: Side, rule: &NatRule) -> Option<u32>
    ensures { result ≡ host_of side rule.now }
{
    match side {
        Side::Neither => None,
        Side::Inside => match rule.kind {
            NatKind::Plain => Some(rule.local),
            NatKind::Tcp => Some(rule.local),
            NatKind::Udp => Some(rule.local),
            NatKind::Outer => None,
        },
        Side::Outside => match rule.kind {
            NatKind::Outer => Some(rule.global),
            _ => None,
        },
    }
}

/// Adds an address, where it isn't there yet.
fn add_once(address: Option<u32>, addresses: &mut IndexSet<u32>) -> Result<(), NoMemory>
    ensures { OnOk result (addresses.new.keys ≡ once addresses.old.keys address) }
{
    let Some(address) = address else {
        return Ok(());
    };
    addresses.insert(address)?;
    Ok(())
}

/// The addresses of the hosts that the rules are for, each once.
fn hosts(alloc: Global, side: Side, config: &Config) -> Result<IndexSet<u32>, NoMemory>
    ensures { IfOk result (λ addresses. addresses.keys ≡ hosts side config.now) }
{
    let mut addresses = IndexSet::new(alloc);
    for rule in config.nat.as_slice() {
        add_once(host_of(side, rule), &mut addresses)?;
    }
    Ok(addresses)
}

/// The prefixes of a configuration's installed routes, and those of which a route leads out of an interface of a side.
#[derive(Drop)]
pub struct Facing<'a> {
    pub side: Side,
    pub config: &'a Config,
    pub all: Held,
    pub out: Held,
}

impl<'a> Facing<'a> {
    ghost use Rattle.config_checks.specs.Facing.{IsFacing};

    /// Those of the installed routes.
    fn of(
        alloc: Global,
        side: Side,
        config: &'a Config,
        routes: &[Route],
    ) -> Result<Facing<'a>, NoMemory>
        requires { routes.now ≡ installed config.now }
        ensures side { IfOk result (λ f. f.side ≡ side) }
        ensures config { IfOk result (λ f. f.config.now ≡ config.now) }
        ensures facing { IfOk result IsFacing }
    {
        Ok(Facing {
            side,
            config,
            all: Held::of(alloc, routes)?,
            out: held_out(alloc, side, config, routes)?,
        })
    }

    /// Whether no interface of the side faces the address.
    fn is_turned(&self, address: u32) -> bool
        requires { IsFacing self.now }
        ensures { result ≡ is_turned self.now.side self.now.config.now address }
    {
        !is_same(self.all.longest(address), self.out.longest(address))
    }

    /// Those of the addresses that no interface of the side faces.
    fn turned(&self, alloc: Global, addresses: &[u32]) -> Result<Vec<u32>, NoMemory>
        requires { IsFacing self.now }
        ensures { IfOk result (λ found. found.items ≡ filter (is_turned self.now.side self.now.config.now) addresses.now) }
    {
        let mut found = Vec::new(alloc);
        for address in addresses {
            if self.is_turned(*address) {
                found.push(*address)?;
            }
        }
        Ok(found)
    }
}

fn is_same(length: Option<u8>, other: Option<u8>) -> bool
    ensures { result ≡ is_same length other }
{
    let Some(length) = length else {
        return false;
    };
    match other {
        None => false,
        Some(other) => length == other,
    }
}

/// The hosts that no interface of their side faces, where there is one.
fn turned(
    alloc: Global,
    side: Side,
    config: &Config,
    routes: &[Route],
) -> Result<Vec<u32>, NoMemory>
    requires { routes.now ≡ installed config.now }
    ensures { IfOk result (λ found. found.items ≡ turned side config.now) }
{
    if !has_side(side, config) {
        return Ok(Vec::new(alloc));
    }
    let facing = Facing::of(alloc, side, config, routes)?;
    let hosts = hosts(alloc, side, config)?;
    facing.turned(alloc, hosts.as_slice())
}

/// Tells of rules of translation where no interface is on a side, or none there faces a host.
pub fn check_translation(
    alloc: Global,
    config: &Config,
    found: &mut Vec<ConfigFinding>,
) -> Result<(), NoMemory>
    ensures { OnOk result (found.new.items ≡ found.old.items ++ translation_findings config.now) }
{
    if config.nat.as_slice().is_empty() {
        return Ok(());
    }
    check_sides(alloc, config, found)
}

fn check_sides(
    alloc: Global,
    config: &Config,
    found: &mut Vec<ConfigFinding>,
) -> Result<(), NoMemory>
    ensures { OnOk result (found.new.items ≡ found.old.items ++ side_findings config.now) }
{
    if !has_side(Side::Inside, config) {
        found.push(ConfigFinding::NoInside)?;
    }
    if !has_side(Side::Outside, config) {
        found.push(ConfigFinding::NoOutside)?;
    }
    let rib = rib_build::build(alloc, config)?;
    let routes = rib.routes.as_slice();
    add_inside(&turned(alloc, Side::Inside, config, routes)?, found)?;
    add_outside(&turned(alloc, Side::Outside, config, routes)?, found)
}

fn add_inside(addresses: &[u32], found: &mut Vec<ConfigFinding>) -> Result<(), NoMemory>
    ensures { OnOk result (found.new.items ≡ found.old.items ++ map ConfigFinding.NotInside addresses.now) }
{
    for local in addresses {
        found.push(ConfigFinding::NotInside { local: *local })?;
    }
    Ok(())
}

fn add_outside(addresses: &[u32], found: &mut Vec<ConfigFinding>) -> Result<(), NoMemory>
    ensures { OnOk result (found.new.items ≡ found.old.items ++ map ConfigFinding.NotOutside addresses.now) }
{
    for global in addresses {
        found.push(ConfigFinding::NotOutside { global: *global })?;
    }
    Ok(())
}
