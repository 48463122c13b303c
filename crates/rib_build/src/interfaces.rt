//! What the interfaces say about routes: which addresses are the router's own, and which names are those of enabled ones.
//! From these it is told whether a route is usable at all, and whether it is valid without another route.

ghost use Rattle.std.specs.Prelude.{◌≡◌, ◌||◌, ℕ, List, IfOk, OnOk, nat_eq, if◌then◌else◌};
ghost use Rattle.std.specs.Option.{option_or};
ghost use Rattle.std.specs.HashSet.{contains};
ghost use Rattle.net_types.specs.Routes.{
  has_address,
  live_subnets,
  is_enabled,
  same_text,
};

use net_types::{Config, Interface, NoMemory, Route, RouteExit, Text};
use net_view::is_enabled;
use std::alloc::Global;
use std::collections::{HashMap, HashSet};

/// What the interfaces of a router say about its routes.
#[derive(Drop)]
pub struct Interfaces<'a> {
    /// The addresses of the enabled interfaces.
    pub own: HashSet<u32>,
    /// Whether the first interface of a name is enabled.
    pub enabled: HashMap<&'a [u8], bool>,
}

impl<'a> Interfaces<'a> {
    ghost use Rattle.net_types.specs.declared.config.Config.{Config};
    ghost use Rattle.rib_build.specs.Interfaces.{is_own_by, is_enabled_by, next_is_own_by, is_usable_by, is_anchored_by, Know};

    /// What the interfaces of this configuration say.
    pub fn of(alloc: Global, config: &'a Config) -> Result<Interfaces<'a>, NoMemory>
        ensures { IfOk result (λ interfaces. Know interfaces config.now) }
    {
        let mut own = HashSet::new(alloc);
        let mut enabled = HashMap::new(alloc);
        for interface in config.interfaces.as_slice() {
            add_addresses(interface, &mut own)?;
            add_name(interface, &mut enabled)?;
        }
        Ok(Interfaces { own, enabled })
    }

    fn is_own(&self, address: u32) -> bool
        ensures { result ≡ is_own_by self.now address }
    {
        self.own.contains(&address)
    }

    fn has_enabled(&self, name: &Text) -> bool
        ensures { result ≡ is_enabled_by self.now name.now }
    {
        match self.enabled.get(name.as_bytes()) {
            None => false,
            Some(enabled) => *enabled,
        }
    }

    fn next_is_own(&self, exit: &RouteExit) -> bool
        ensures { result ≡ next_is_own_by self.now exit.now }
    {
        match exit {
            RouteExit::Null => false,
            RouteExit::Port { name: _ } => false,
            RouteExit::Both { name: _, next } => self.is_own(*next),
            RouteExit::Next { next } => self.is_own(*next),
        }
    }

    /// Whether the route can be valid at all.
    pub fn is_usable(&self, route: &Route) -> bool
        ensures { result ≡ is_usable_by self.now route.now }
    {
        route.distance != 255 && !self.next_is_own(&route.exit)
    }

    /// Whether the route needs no other route.
    pub fn is_anchored(&self, exit: &RouteExit) -> bool
        ensures { result ≡ is_anchored_by self.now exit.now }
    {
        match exit {
            RouteExit::Null => true,
            RouteExit::Port { name } => self.has_enabled(name),
            RouteExit::Both { name, next: _ } => self.has_enabled(name),
            RouteExit::Next { next: _ } => false,
        }
    }
}

ghost use Rattle.rib_build.specs.Names.{named};

/// Adds the addresses of the interface, if it is not shut.
fn add_addresses(interface: &Interface, own: &mut HashSet<u32>) -> Result<(), NoMemory>
    ensures { OnOk result ((a : ℕ) → contains nat_eq own.new a ≡ (contains nat_eq own.old a || has_address a (live_subnets interface.now))) }
{
    if interface.shut {
        return Ok(());
    }
    if let Some(subnet) = &interface.primary {
        own.insert(subnet.address)?;
    }
    for subnet in interface.secondary.as_slice() {
        own.insert(subnet.address)?;
    }
    Ok(())
}

/// Adds the name of the interface, if it is new.
fn add_name<'a>(
    interface: &'a Interface,
    enabled: &mut HashMap<&'a [u8], bool>,
) -> Result<(), NoMemory>
    ensures { OnOk result ((name : List ℕ) → named (λ k. k.now) enabled.new name ≡ (option_or (named (λ k. k.now) enabled.old name) (if same_text interface.now.name name then Some (is_enabled interface.now) else None))) }
{
    let name = interface.name.as_bytes();
    if enabled.contains_key(name) {
        return Ok(());
    }
    enabled.insert(name, is_enabled(interface))?;
    Ok(())
}
