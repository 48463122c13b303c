//! Small networks, from configurations and links. Routers have the numbers 0, 1, .. in both networks of a plan, and so
//! have the interfaces of each.

use crate::drawn::add_routes;
use crate::texts::{
    AT_EACH_OTHER, END_UP, EQUAL_CHOICES, FOUR_ENDS, LONG_CHAIN, MOVED_END, NO_WAY_BACK, OFFICE,
    OTHER_CHOICE, OUTER_RULES, SHUT_CHOICE, SHUT_END, STOPPED_CHOICE, THERE_AND_BACK,
    TRANSLATED_ONCE, TRANSLATED_TWICE, TWO_LINKS,
};
use ios_config::read_config;
use net_types::{Config, Links, List, NetDevice, Network, NoMemory, Place, Segment};
use net_view::WorldRef;
use std::alloc::Global;

/// Where packets enter each network.
pub(crate) const INGRESS: Place = Place {
    device: 0,
    interface: 0,
};

/// Two networks and their links.
#[derive(Clone, Copy)]
pub(crate) enum Plan {
    /// Two routers, each with a default route by the other.
    Pair,
    /// Two equal routes, by a router that passes some traffic, in the new network other traffic, and by one that lacks the
    /// route.
    Fan,
    /// The same, and in the new network the router that lacks the route is shut down.
    FarEnd,
    /// Two links in a circle, with translation there and back.
    Circle,
    /// A lan of four ends; in the new network the fourth doesn't send back.
    Lan,
    /// The same lan; in the new network the second end has another address.
    MovedEnd,
    /// A chain of as many routers as a packet with the TTL 255 passes, and one with the TTL 254 doesn't.
    Chain,
    /// One router with two links.
    TwoLinks,
    /// Two equal routes, one of them stopped by a list.
    StoppedChoice,
    /// Two routers that translate, there and back; in the new network only there.
    TranslatedTwice,
    /// A lan whose other end is shut down, in the new network up.
    ShutEnd,
    /// The router of an office.
    Office,
    /// A lan of three ends; the first router translates hosts outside.
    OuterLan,
}

impl Plan {
    fn old(self) -> &'static [&'static str] {
        match self {
            Plan::Pair => &AT_EACH_OTHER,
            Plan::Fan | Plan::FarEnd => &EQUAL_CHOICES,
            Plan::Circle => &THERE_AND_BACK,
            Plan::Lan | Plan::MovedEnd => &FOUR_ENDS,
            Plan::Chain => &LONG_CHAIN,
            Plan::TwoLinks => &TWO_LINKS,
            Plan::StoppedChoice => &STOPPED_CHOICE,
            Plan::TranslatedTwice => &TRANSLATED_TWICE,
            Plan::ShutEnd => &SHUT_END,
            Plan::Office => &OFFICE,
            Plan::OuterLan => &OUTER_RULES,
        }
    }

    fn new(self) -> &'static [&'static str] {
        match self {
            Plan::Fan => &OTHER_CHOICE,
            Plan::FarEnd => &SHUT_CHOICE,
            Plan::Lan => &NO_WAY_BACK,
            Plan::MovedEnd => &MOVED_END,
            Plan::TranslatedTwice => &TRANSLATED_ONCE,
            Plan::ShutEnd => &END_UP,
            _ => self.old(),
        }
    }
}

/// Two networks over the same links.
#[derive(Drop)]
pub(crate) struct Networks {
    old: Network,
    new: Network,
    links: Links,
}

impl Networks {
    /// The networks of the plan, where their configurations are read.
    pub(crate) fn of(alloc: Global, plan: Plan) -> Option<Networks> {
        match links(alloc, plan) {
            Ok(links) => with_links(alloc, plan, links),
            Err(_) => None,
        }
    }

    /// The same, with routes that are drawn by this number in the old network.
    pub(crate) fn drawn(alloc: Global, plan: Plan, number: u64) -> Option<Networks> {
        let mut networks = Networks::of(alloc, plan)?;
        add_routes(alloc, &mut networks.old, number).ok()?;
        Some(networks)
    }

    /// Both, to be compiled together.
    pub(crate) fn both(&self) -> net_forms::Networks<'_> {
        net_forms::Networks {
            old: self.old(),
            new: self.new(),
        }
    }

    pub(crate) fn old(&self) -> WorldRef<'_> {
        WorldRef {
            network: &self.old,
            links: &self.links,
        }
    }

    pub(crate) fn new(&self) -> WorldRef<'_> {
        WorldRef {
            network: &self.new,
            links: &self.links,
        }
    }
}

fn with_links(alloc: Global, plan: Plan, links: Links) -> Option<Networks> {
    match network(alloc, plan.old()) {
        Some(old) => with_old(alloc, plan, links, old),
        None => None,
    }
}

fn with_old(alloc: Global, plan: Plan, links: Links, old: Network) -> Option<Networks> {
    match network(alloc, plan.new()) {
        Some(new) => Some(Networks { old, new, links }),
        None => None,
    }
}

fn network(alloc: Global, routers: &[&str]) -> Option<Network> {
    let mut devices = List::empty(alloc);
    for (name, text) in (0..).zip(routers) {
        add_device(alloc, &mut devices, name, text)?;
    }
    Some(Network { devices })
}

fn add_device(alloc: Global, devices: &mut List<NetDevice>, name: u32, text: &str) -> Option<()> {
    match config(alloc, text) {
        Some(config) => add_configured(alloc, devices, name, config),
        None => None,
    }
}

fn config(alloc: Global, text: &str) -> Option<Config> {
    let bytes = text.as_bytes();
    if bytes.len() > 16_777_216 {
        return None;
    }
    match read_config(alloc, bytes) {
        Ok(reading) => Some(reading.config),
        Err(_) => None,
    }
}

fn add_configured(
    alloc: Global,
    devices: &mut List<NetDevice>,
    name: u32,
    config: Config,
) -> Option<()> {
    let numbers = numbers(alloc, config.interfaces.as_slice().len()).ok()?;
    if numbers.as_slice().len() != config.interfaces.as_slice().len() {
        return None;
    }
    devices
        .push(NetDevice {
            name,
            config,
            numbers,
        })
        .ok()
}

// The numbers 0, 1, .., as many as there are interfaces.
fn numbers(alloc: Global, count: usize) -> Result<List<u32>, NoMemory> {
    let mut numbers = List::empty(alloc);
    for number in 0..u32::try_from(count).unwrap_or(0) {
        numbers.push(number)?;
    }
    Ok(numbers)
}

fn links(alloc: Global, plan: Plan) -> Result<Links, NoMemory> {
    let mut segments = List::empty(alloc);
    add_segments(alloc, &mut segments, plan)?;
    Ok(Links {
        segments,
        ingress: List::empty(alloc),
    })
}

fn add_segments(alloc: Global, segments: &mut List<Segment>, plan: Plan) -> Result<(), NoMemory> {
    match plan {
        Plan::Pair => add_chain(alloc, segments, 2),
        Plan::Chain => add_chain(alloc, segments, 254),
        Plan::TranslatedTwice => add_chain(alloc, segments, 2),
        Plan::Fan | Plan::FarEnd => {
            add_p2p(alloc, segments, at(0, 1), at(1, 0))?;
            add_p2p(alloc, segments, at(0, 2), at(2, 0))
        }
        Plan::Circle => {
            add_p2p(alloc, segments, at(0, 1), at(1, 1))?;
            add_p2p(alloc, segments, at(1, 0), at(0, 0))
        }
        Plan::Lan | Plan::MovedEnd => {
            let ends = [at(0, 1), at(1, 0), at(2, 0), at(3, 0)];
            add(alloc, segments, true, &ends)
        }
        Plan::ShutEnd => add(alloc, segments, true, &[at(0, 1), at(1, 0)]),
        Plan::OuterLan => add(alloc, segments, true, &[at(0, 1), at(1, 0), at(2, 0)]),
        _ => Ok(()),
    }
}

// Adds the links of so many routers in a row: interface 1 of each leads to interface 0 of the next one.
fn add_chain(alloc: Global, segments: &mut List<Segment>, count: u32) -> Result<(), NoMemory> {
    for device in 1..count {
        add_p2p(alloc, segments, at(device - 1, 1), at(device, 0))?;
    }
    Ok(())
}

fn add_p2p(
    alloc: Global,
    segments: &mut List<Segment>,
    one: Place,
    other: Place,
) -> Result<(), NoMemory> {
    add(alloc, segments, false, &[one, other])
}

fn add(
    alloc: Global,
    segments: &mut List<Segment>,
    lan: bool,
    ends: &[Place],
) -> Result<(), NoMemory> {
    let ends = List::new(ends.to_vec(alloc)?);
    segments.push(Segment { lan, ends })
}

pub(crate) fn at(device: u32, interface: u32) -> Place {
    Place { device, interface }
}
