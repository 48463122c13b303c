//! The greatest distances of some routes, by which it is known which route has a backup.
ghost use Rattle.std.specs.Prelude.{◌≡◌};

use net_types::{NoMemory, Route};
use std::alloc::Global;
use std::collections::HashMap;

/// The greatest distance below 255 of the routes of each prefix, by address and length.
#[derive(Drop)]
pub struct Backups {
    pub greatest: HashMap<(u32, u8), u8>,
}

impl Backups {
    ghost use Rattle.std.specs.Prelude.{◌+◌, ◌||◌, ℕ, List, IfOk, OnOk};
    ghost use Rattle.std.specs.List.{list_any};
    ghost use Rattle.net_types.specs.declared.config.Route.{Route};
    ghost use Rattle.config_checks.specs.Findings.{is_backup};
    ghost use Rattle.config_checks.specs.Held.{has_from, is_farther, AreGreatest};

    /// The distances of these routes.
    pub fn of(alloc: Global, routes: &[Route]) -> Result<Backups, NoMemory>
        ensures { IfOk result (λ backups. AreGreatest backups routes.now) }
    {
        let mut backups = Backups {
            greatest: HashMap::new(alloc),
        };
        for route in routes {
            backups.add(route)?;
        }
        Ok(backups)
    }

    fn add(&mut self, route: &Route) -> Result<(), NoMemory>
        ensures { OnOk result ((address length d : ℕ) → has_from self.new address length d ≡ (has_from self.old address length d || is_farther address length d route.now)) }
    {
        if route.distance == 255 || self.has_from(route, u16::from(route.distance)) {
            return Ok(());
        }
        let prefix = (route.prefix.address, route.prefix.length);
        self.greatest.insert(prefix, route.distance)?;
        Ok(())
    }

    /// Whether there is such a distance, or a greater one, for the prefix of a route.
    fn has_from(&self, route: &Route, distance: u16) -> bool
        ensures { result ≡ has_from self.now route.now.prefix.address route.now.prefix.length distance }
    {
        match self
            .greatest
            .get(&(route.prefix.address, route.prefix.length))
        {
            None => false,
            Some(greatest) => distance <= u16::from(*greatest),
        }
    }

    /// Whether one of the routes is a backup of this one.
    pub fn has(&self, route: &Route) -> bool
        ensures { (routes : List Route) → AreGreatest self.now routes → result ≡ list_any (is_backup route.now) routes }
    {
        self.has_from(route, u16::from(route.distance) + 1)
    }
}
