//! The prefixes of some routes, by which an address is looked up.
ghost use Rattle.std.specs.Prelude.{◌≡◌, IfOk, ◌++◌, ◌∷◌, []};
ghost use Rattle.std.specs.List.{list_any};

use net_types::{NoMemory, Route, first_bits};
use std::alloc::Global;
use std::collections::HashSet;

/// The prefixes of some routes: of each the first bits of its address, as a number, and its length.
#[derive(Drop)]
pub struct Held {
    pub numbers: HashSet<(u32, u8)>,
}

impl Held {
    ghost use Rattle.std.specs.Prelude.{List, OnOk};
    ghost use Rattle.net_types.specs.declared.config.Route.{Route};
    ghost use Rattle.config_checks.specs.Findings.{holds_at, longest};
    ghost use Rattle.config_checks.specs.Held.{AreOf};

    /// The prefixes of these routes.
    pub fn of(alloc: Global, routes: &[Route]) -> Result<Held, NoMemory>
        ensures { IfOk result (λ held. AreOf held routes.now) }
    {
        let mut held = Held {
            numbers: HashSet::with_capacity(alloc, routes.len())?,
        };
        for route in routes {
            held.add(route)?;
        }
        Ok(held)
    }

    /// No prefixes.
    pub fn none(alloc: Global) -> Held
        ensures { AreOf result [] }
    {
        Held {
            numbers: HashSet::new(alloc),
        }
    }

    /// Adds the prefix of a route.
    pub fn add(&mut self, route: &Route) -> Result<(), NoMemory>
        ensures { OnOk result ((routes : List Route) → AreOf self.old routes → AreOf self.new (routes ++ route.now ∷ [])) }
    {
        let length = route.prefix.length;
        let number = first_bits(length, route.prefix.address);
        self.numbers.insert((number, length))?;
        Ok(())
    }

    /// Whether a route of this length holds the address.
    fn has(&self, length: u8, address: u32) -> bool
        ensures { (routes : List Route) → AreOf self.now routes → result ≡ list_any (holds_at length address) routes }
    {
        self.numbers
            .contains(&(first_bits(length, address), length))
    }

    /// The length of the longest prefixes that hold the address.
    pub fn longest(&self, address: u32) -> Option<u8>
        ensures { (routes : List Route) → AreOf self.now routes → result ≡ longest routes address }
    {
        for less in 0..33 {
            let length = 32 - less;
            if self.has(length, address) {
                return Some(length);
            }
        }
        None
    }
}
