//! The labels of headers, and into how many regions the cubes round them fall.

use crate::cases::{NetworkCase, show_all};
use crate::networks::{Plan, at};
use crate::regions::{Walks, Wanted};
use crate::tables::{cube_of, ip, web};
use hdr_bits::Header;
use net_types::{Outcome, Place};
use std::io;
use transfer_rel::{Prepared, Version};

fn exit(place: Place, src: Option<u32>) -> Outcome {
    Outcome::Exit {
        place,
        src,
        dst: None,
        sport: None,
        dport: None,
    }
}

// A header with some of its labels, and the regions of its cube.
#[derive(Clone, Copy)]
struct Case {
    name: &'static str,
    plan: Plan,
    /// The network that is walked.
    version: Version,
    header: Header,
    labels: [Wanted; 2],
    /// The bits of the cube that are open.
    open: u128,
}

// One outcome under a TTL.
fn one(ttl: u8, first: Outcome) -> Wanted {
    Wanted {
        ttl,
        first,
        second: None,
    }
}

// A drop and another outcome under a TTL.
fn dropped_or(ttl: u8, second: Outcome) -> Wanted {
    Wanted {
        ttl,
        first: Outcome::Dropped,
        second: Some(second),
    }
}

/// Prints for each case whether the header has the labels of the table, and how many regions its cube has.
pub(crate) fn show(rt: &HostRuntime) -> io::Result<()> {
    show_all(rt, &pair_cases())?;
    show_all(rt, &fan_cases())?;
    show_all(rt, &circle_cases())?;
    show_all(rt, &lan_cases())?;
    show_all(rt, &[chain_case()])
}

// A web request of the host 10.0.0.9 in the old network.
fn requested(name: &'static str, plan: Plan, dst: u32, labels: [Wanted; 2], open: u128) -> Case {
    Case {
        name,
        plan,
        version: Version::Old,
        header: web(ip(10, 0, 0, 9), dst),
        labels,
        open,
    }
}

fn pair_cases() -> [Case; 2] {
    let expired = one(255, Outcome::Expired);
    let local = one(2, Outcome::Local { place: at(1, 0) });
    [
        // Nobody looks at an open bit.
        requested(
            "loop",
            Plan::Pair,
            ip(8, 8, 8, 8),
            [one(1, Outcome::Expired), expired],
            3 << 80 | 3 << 24,
        ),
        // Of the link's four addresses the first one is sent to and fro, two are local, and the last one is dropped.
        requested(
            "link",
            Plan::Pair,
            ip(10, 0, 12, 2),
            [one(1, Outcome::Expired), local],
            3 << 80,
        ),
    ]
}

fn fan_cases() -> [Case; 2] {
    let there = exit(at(1, 1), None);
    [
        // The ports 81, and 82 and 83, and the protocol 7 are stopped; of port 80 one address is the second router's.
        requested(
            "fan",
            Plan::Fan,
            ip(192, 168, 0, 2),
            [one(1, Outcome::Expired), dropped_or(2, Outcome::Expired)],
            3 << 80 | 3 << 24 | 1 << 40,
        ),
        requested(
            "fan, of the first port",
            Plan::Fan,
            ip(192, 168, 0, 2),
            [dropped_or(3, there), dropped_or(255, there)],
            3 << 80,
        ),
    ]
}

// One source of four is translated, so the two others beside it are a region.
fn circled(name: &'static str, src: u32, dst: u32, labels: [Wanted; 2]) -> Case {
    Case {
        header: web(src, dst),
        ..requested(name, Plan::Circle, dst, labels, 3 << 48)
    }
}

fn circle_cases() -> [Case; 4] {
    let inside = ip(10, 0, 0, 5);
    let global = ip(203, 0, 113, 5);
    let far = ip(8, 8, 8, 8);
    let near = ip(9, 9, 9, 9);
    let looping = [one(1, Outcome::Expired), one(255, Outcome::Expired)];
    let out = one(3, exit(at(1, 2), None));
    let out_again = one(3, exit(at(1, 2), Some(inside)));
    [
        circled("there and back in a loop", inside, far, looping),
        circled("back and there in a loop", global, far, looping),
        circled(
            "there and back",
            inside,
            near,
            [one(2, Outcome::Expired), out],
        ),
        circled("back", global, near, [one(2, Outcome::Expired), out_again]),
    ]
}

// To an address behind the lan, or on it.
fn on_lan(name: &'static str, dst: u32, first: u8, second: Wanted, open: u128) -> Case {
    requested(
        name,
        Plan::Lan,
        dst,
        [one(first, Outcome::Expired), second],
        open,
    )
}

fn lan_cases() -> [Case; 6] {
    let by_second = one(3, exit(at(1, 1), None));
    let dropped = one(2, Outcome::Dropped);
    let back = one(255, Outcome::Expired);
    let out = one(2, exit(at(0, 1), None));
    let local = one(2, Outcome::Local { place: at(3, 0) });
    let fourth = ip(172, 16, 2, 9);
    let ports = 3 << 24;
    [
        // Of the second router's subnet one address is its own.
        on_lan(
            "lan, on by the second",
            ip(172, 16, 0, 0),
            2,
            by_second,
            3 << 88 | 1 << 80,
        ),
        on_lan(
            "lan, lost at the third",
            ip(172, 16, 1, 9),
            1,
            dropped,
            ports,
        ),
        on_lan("lan, back from the fourth", fourth, 2, back, ports),
        Case {
            version: Version::New,
            ..on_lan("lan, not back from the fourth", fourth, 1, dropped, ports)
        },
        on_lan("lan, out by no end", ip(172, 16, 3, 9), 1, out, ports),
        // Four ends have addresses of their own, and behind the fourth, the next one and the two after it leave.
        on_lan("lan, its own addresses", ip(10, 0, 5, 4), 1, local, 7 << 80),
    ]
}

fn chain_case() -> Case {
    let out = one(255, exit(at(253, 1), None));
    requested(
        "chain",
        Plan::Chain,
        ip(8, 8, 8, 8),
        [one(254, Outcome::Expired), out],
        3 << 80,
    )
}

impl NetworkCase for Case {
    fn plan(&self) -> Plan {
        self.plan
    }

    fn show_in(&self, rt: &HostRuntime, prepared: &Prepared) -> io::Result<()> {
        let walks = Walks {
            alloc: rt.alloc(),
            prepared,
            version: self.version,
        };
        show_regions(rt, self, walks)
    }
}

fn show_regions(rt: &HostRuntime, case: &Case, walks: Walks) -> io::Result<()> {
    let found = cube_of(&case.header, case.open).and_then(|cube| walks.region_count(&cube));
    let Some(regions) = found else {
        return println!(rt; "no memory");
    };
    let mut labels = true;
    for wanted in case.labels {
        labels &= walks.has_label(&case.header, wanted);
    }
    let name = case.name;
    println!(rt; "{name}: labels {labels}, regions {regions}")
}
