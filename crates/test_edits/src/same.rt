//! Whether what is kept of a network is what is found from nothing.

use crate::plan::{DEVICES, INTERFACES};
use crate::sets::{headers_of, same_sets};
use crate::walks::{same_labels, same_visits, walk_all};
use cube_diagram::Diagrams;
use live_network::{LiveNetwork, LiveWays};
use net_types::{Duplicate, Links, NoMemory, Place};
use set_walk::{PlaceWays, Way};
use std::alloc::Global;

/// How many were the same, and how many were not.
#[derive(Clone, Copy)]
pub(crate) struct Count {
    pub(crate) same: u64,
    pub(crate) other: u64,
}

impl Count {
    fn none() -> Count {
        Count { same: 0, other: 0 }
    }

    fn with(self, more: Count) -> Count {
        Count {
            same: self.same.saturating_add(more.same),
            other: self.other.saturating_add(more.other),
        }
    }

    fn add(&mut self, same: bool) {
        if same {
            self.same = self.same.saturating_add(1);
        } else {
            self.other = self.other.saturating_add(1);
        }
    }
}

/// What was compared: place by place its ways, the labels of all headers that enter there, and the devices that they visit.
#[derive(Clone, Copy)]
pub(crate) struct Compared {
    pub(crate) ways: Count,
    pub(crate) labels: Count,
    pub(crate) visits: Count,
}

impl Compared {
    pub(crate) fn none() -> Compared {
        Compared {
            ways: Count::none(),
            labels: Count::none(),
            visits: Count::none(),
        }
    }

    pub(crate) fn with(self, more: Compared) -> Compared {
        Compared {
            ways: self.ways.with(more.ways),
            labels: self.labels.with(more.labels),
            visits: self.visits.with(more.visits),
        }
    }
}

/// Opens the network anew, and compares all places.
pub(crate) fn compare(
    alloc: Global,
    live: &LiveNetwork,
    links: &Links,
) -> Result<Compared, NoMemory> {
    let network = live.world().network.copy(alloc)?;
    let anew = LiveNetwork::open(alloc, network, links)?;
    compare_places(alloc, live, &anew)
}

fn compare_places(
    alloc: Global,
    live: &LiveNetwork,
    anew: &LiveNetwork,
) -> Result<Compared, NoMemory> {
    let mut compared = Compared::none();
    for device in 0..DEVICES {
        for interface in 0..INTERFACES {
            let place = Place { device, interface };
            compare_place(alloc, live, anew, place, &mut compared)?;
        }
    }
    Ok(compared)
}

fn compare_place(
    alloc: Global,
    live: &LiveNetwork,
    anew: &LiveNetwork,
    place: Place,
    compared: &mut Compared,
) -> Result<(), NoMemory> {
    let ways = same_ways(alloc, live.ways(), anew.ways(), place)?;
    compared.ways.add(ways);
    let mut one = walk_all(alloc, live, place)?;
    let other = walk_all(alloc, anew, place)?;
    let labels = same_labels(alloc, &mut one, &other)?;
    compared.labels.add(labels);
    let visits = same_visits(alloc, &mut one, &other)?;
    compared.visits.add(visits);
    Ok(())
}

// Whether both have the same ways at the place, or none.
fn same_ways(
    alloc: Global,
    one: &LiveWays,
    other: &LiveWays,
    place: Place,
) -> Result<bool, NoMemory> {
    match (ways_at(one, place), ways_at(other, place)) {
        (None, None) => Ok(true),
        (Some(a), Some(b)) => have_same(alloc, one, other, &a.ways, &b.ways),
        _ => Ok(false),
    }
}

fn ways_at(live: &LiveWays, place: Place) -> Option<&PlaceWays> {
    let position = live.ways.positions.get(&place)?;
    live.ways.lists.get(*position)
}

// Whether each step of either is made by the same headers in both.
fn have_same(
    alloc: Global,
    one: &LiveWays,
    other: &LiveWays,
    a: &[Way],
    b: &[Way],
) -> Result<bool, NoMemory> {
    let mut first = one.tables.diagrams.twin()?;
    let mut second = other.tables.diagrams.twin()?;
    have_same_in(alloc, &mut first, &mut second, a, b)
}

// The same, of ways in these tables.
fn have_same_in(
    alloc: Global,
    first: &mut Diagrams,
    second: &mut Diagrams,
    a: &[Way],
    b: &[Way],
) -> Result<bool, NoMemory> {
    for way in a.iter().chain(b.iter()) {
        let one = headers_of(first, a, &way.step)?;
        let other = headers_of(second, b, &way.step)?;
        if !same_sets(alloc, first, one, second, other)? {
            return Ok(false);
        }
    }
    Ok(true)
}
