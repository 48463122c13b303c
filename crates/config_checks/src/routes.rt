//! Next hops of written routes: what they are looked up in.
ghost use Rattle.std.specs.Prelude.{◌≡◌, ◌++◌, List, OnOk, IfOk};
ghost use Rattle.std.specs.List.{list_any};
ghost use Rattle.std.specs.Option.{option_copied};
ghost use Rattle.net_types.specs.declared.config.Route.{Route};
ghost use Rattle.net_types.specs.declared.config.RouteExit.{RouteExit};
ghost use Rattle.net_types.specs.Routes.{holds, live_subnets, installed};
ghost use Rattle.config_checks.specs.Findings.{
  longest,
  is_other_way,
  holds_otherwise,
  never_floats,
  lookup_findings,
  is_beyond,
  has_many,
  is_over_many,
  exit_findings,
  route_findings,
};
ghost use Rattle.config_checks.specs.Held.{IsKnown};

use crate::ConfigFinding;
use crate::backups::Backups;
use crate::held::Held;
use header_rules::is_dropped;
use net_types::{Config, Duplicate, Interface, NoMemory, Route, RouteExit, Subnet, Text};
use net_view::{holds, interface_named, is_enabled, is_own};
use std::alloc::Global;

/// What is known of a configuration's routes.
#[derive(Drop)]
pub struct Lookups<'a> {
    pub config: &'a Config,
    /// The prefixes of the installed routes.
    pub held: Held,
    /// The distances of the written routes.
    pub backups: Backups,
}

impl<'a> Lookups<'a> {
    /// What is known of the routes of a configuration.
    pub fn of(alloc: Global, config: &'a Config) -> Result<Lookups<'a>, NoMemory>
        ensures config { IfOk result (λ known. known.config.now ≡ config.now) }
        ensures known { IfOk result IsKnown }
    {
        let rib = rib_build::build(alloc, config)?;
        Ok(Lookups {
            config,
            held: Held::of(alloc, rib.routes.as_slice())?,
            backups: Backups::of(alloc, config.routes.as_slice())?,
        })
    }

    /// Whether a route that has a backup stays valid where the subnet of its next hop is gone.
    fn never_floats(&self, route: &Route, next: u32) -> bool
        requires { IsKnown self.now }
        ensures { result ≡ never_floats self.now.config.now.routes route.now next }
    {
        self.backups.has(route) && holds_otherwise(self.config.routes.as_slice(), next)
    }

    /// What is odd in what the next hop of a route is looked up in.
    fn check_lookup(
        &self,
        route: &Route,
        next: u32,
        found: &mut Vec<ConfigFinding>,
    ) -> Result<(), NoMemory>
        requires { IsKnown self.now }
        ensures { OnOk result (found.new.items ≡ found.old.items ++ lookup_findings self.now.config.now.routes route.now next (longest (installed self.now.config.now) next)) }
    {
        let prefix = route.prefix;
        match self.held.longest(next) {
            None => found.push(ConfigFinding::NextNowhere { prefix, next })?,
            Some(length) => {
                if length == 0 {
                    found.push(ConfigFinding::NextByDefault { prefix, next })?;
                } else if prefix.length == length && holds(&prefix, next) {
                    found.push(ConfigFinding::NextByItself { prefix, next })?;
                } else if self.never_floats(route, next) {
                    found.push(ConfigFinding::NeverFloats {
                        prefix,
                        distance: route.distance,
                        next,
                    })?;
                }
            }
        }
        Ok(())
    }

    /// What is odd in the next hop of a route.
    pub fn check_route(
        &self,
        alloc: Global,
        route: &Route,
        found: &mut Vec<ConfigFinding>,
    ) -> Result<(), NoMemory>
        requires { IsKnown self.now }
        ensures { OnOk result (found.new.items ≡ found.old.items ++ route_findings self.now.config.now (installed self.now.config.now) route.now) }
    {
        match &route.exit {
            RouteExit::Null => Ok(()),
            RouteExit::Port { name } => self.check_port(alloc, route.prefix, name, found),
            RouteExit::Both { name, next } => self.check_both(
                alloc,
                route.prefix,
                name,
                *next,
                found,
            ),
            RouteExit::Next { next } => self.check_next(route, *next, found),
        }
    }

    /// An interface alone.
    fn check_port(
        &self,
        alloc: Global,
        prefix: Subnet,
        name: &Text,
        found: &mut Vec<ConfigFinding>,
    ) -> Result<(), NoMemory>
        ensures { (rs : List Route) (r : Route) → r.prefix ≡ prefix → OnOk result (found.new.items ≡ found.old.items ++ exit_findings self.now.config.now rs r (RouteExit.Port name.now)) }
    {
        if is_over_many(interface_named(self.config, name.as_bytes())) {
            found.push(ConfigFinding::PortAlone {
                prefix,
                interface: name.copy(alloc)?,
            })?;
        }
        Ok(())
    }

    /// A next hop alone.
    fn check_next(
        &self,
        route: &Route,
        next: u32,
        found: &mut Vec<ConfigFinding>,
    ) -> Result<(), NoMemory>
        requires { IsKnown self.now }
        ensures { OnOk result (found.new.items ≡ found.old.items ++ exit_findings self.now.config.now (installed self.now.config.now) route.now (RouteExit.Next next)) }
    {
        let prefix = route.prefix;
        if is_own(self.config, next) {
            found.push(ConfigFinding::NextIsOwn { prefix, next })?;
            return Ok(());
        }
        if is_dropped(self.config, next) {
            found.push(ConfigFinding::NextIsBroadcast { prefix, next })?;
            return Ok(());
        }
        self.check_lookup(route, next, found)
    }

    /// An interface and a next hop.
    fn check_both(
        &self,
        alloc: Global,
        prefix: Subnet,
        name: &Text,
        next: u32,
        found: &mut Vec<ConfigFinding>,
    ) -> Result<(), NoMemory>
        ensures { (rs : List Route) (r : Route) → r.prefix ≡ prefix → OnOk result (found.new.items ≡ found.old.items ++ exit_findings self.now.config.now rs r (RouteExit.Both name.now next)) }
    {
        if is_own(self.config, next) {
            found.push(ConfigFinding::NextIsOwn { prefix, next })?;
            return Ok(());
        }
        if is_dropped(self.config, next) {
            found.push(ConfigFinding::NextIsBroadcast { prefix, next })?;
            return Ok(());
        }
        if is_beyond(next, interface_named(self.config, name.as_bytes())) {
            found.push(ConfigFinding::NextElsewhere {
                prefix,
                interface: name.copy(alloc)?,
                next,
            })?;
        }
        Ok(())
    }
}

/// Whether the exit is by another way than this next hop.
fn is_other_way(next: u32, exit: &RouteExit) -> bool
    ensures { result ≡ is_other_way next exit.now }
{
    match exit {
        RouteExit::Null => true,
        RouteExit::Port { name: _ } => true,
        RouteExit::Both {
            name: _,
            next: other,
        } => *other != next,
        RouteExit::Next { next: other } => *other != next,
    }
}

/// Whether one of the routes holds the next hop, and is by another way.
fn holds_otherwise(routes: &[Route], next: u32) -> bool
    ensures { result ≡ list_any (holds_otherwise next) routes.now }
{
    routes
        .iter()
        .any(|r| holds(&r.prefix, next) && is_other_way(next, &r.exit))
}

/// Whether one of the subnets holds the address.
fn any_holds(subnets: &[Subnet], address: u32) -> bool
    ensures { result ≡ list_any (λ s. holds s address) subnets.now }
{
    subnets.iter().any(|s| holds(s, address))
}

/// Whether a subnet of an interface holds the address, where the interface isn't shut.
pub fn has_subnet_of(interface: &Interface, address: u32) -> bool
    ensures { result ≡ list_any (λ s. holds s address) (live_subnets interface.now) }
{
    if interface.shut {
        return false;
    }
    match &interface.primary {
        Some(s) => holds(s, address) || any_holds(interface.secondary.as_slice(), address),
        None => any_holds(interface.secondary.as_slice(), address),
    }
}

/// Whether one of the subnets has room for more than two routers.
fn any_has_many(subnets: &[Subnet]) -> bool
    ensures { result ≡ list_any has_many subnets.now }
{
    subnets.iter().any(|s| s.length < 30)
}

/// Whether a subnet of an interface has room for more than two routers, where the interface isn't shut.
fn has_many_of(interface: &Interface) -> bool
    ensures { result ≡ list_any has_many (live_subnets interface.now) }
{
    if interface.shut {
        return false;
    }
    match &interface.primary {
        Some(s) => s.length < 30 || any_has_many(interface.secondary.as_slice()),
        None => any_has_many(interface.secondary.as_slice()),
    }
}

/// Whether there is such an interface.
fn is_over_many(interface: Option<&Interface>) -> bool
    ensures { result ≡ is_over_many (option_copied interface.entry) }
{
    match interface {
        None => false,
        Some(interface) => has_many_of(interface),
    }
}

/// Whether the interface is IP-enabled and none of its subnets holds the address.
fn is_beyond(address: u32, interface: Option<&Interface>) -> bool
    ensures { result ≡ is_beyond address (option_copied interface.entry) }
{
    match interface {
        None => false,
        Some(interface) => is_enabled(interface) && !has_subnet_of(interface, address),
    }
}
