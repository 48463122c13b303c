//! Where a header may end, and whether it loops, by its graph.

use crate::cases::{NetworkCase, show_all};
use crate::networks::{Plan, at};
use crate::regions::graph_of;
use crate::tables::{ip, web};
use hdr_bits::Header;
use net_types::{NoMemory, Place};
use region_walk::Graph;
use std::alloc::Global;
use std::io;
use transfer_rel::{Prepared, Version};

/// The TTLs under which is asked.
const TTLS: [u8; 5] = [1, 2, 3, 4, 255];

// A header that enters, and a place at which it may end.
#[derive(Clone, Copy)]
struct Case {
    name: &'static str,
    plan: Plan,
    header: Header,
    place: Place,
}

// The answers under each TTL.
#[derive(Clone, Copy)]
struct Answers {
    ends: [bool; 5],
    loops: [bool; 5],
}

fn entering(name: &'static str, plan: Plan, header: Header, place: Place) -> Case {
    Case {
        name,
        plan,
        header,
        place,
    }
}

/// Prints for each case under which TTLs the header may end at the place, and under which it loops.
pub(crate) fn show(rt: &HostRuntime) -> io::Result<()> {
    let host = ip(10, 0, 0, 9);
    let inside = ip(10, 0, 0, 5);
    let global = ip(203, 0, 113, 5);
    let far = ip(8, 8, 8, 8);
    let near = ip(9, 9, 9, 9);
    let cases = [
        // It comes to the second router at the first move and at the third.
        entering("sent to each other", Plan::Pair, web(host, far), at(1, 0)),
        // What is for a device is taken under the TTL 1 too.
        entering(
            "for the second router",
            Plan::Pair,
            web(host, ip(10, 0, 12, 2)),
            at(1, 0),
        ),
        // After two moves it is where it entered, as it entered.
        entering(
            "there and back in a loop",
            Plan::Circle,
            web(inside, far),
            at(1, 2),
        ),
        // After two moves it is where it entered, with another source, and after three where it was after one.
        entering(
            "back and there in a loop",
            Plan::Circle,
            web(global, far),
            at(1, 2),
        ),
        // What would leave under the TTL 1 expires.
        entering("there and back", Plan::Circle, web(inside, near), at(1, 2)),
        entering(
            "one of two choices arrives",
            Plan::Fan,
            web(host, ip(192, 168, 0, 2)),
            at(1, 1),
        ),
    ];
    show_all(rt, &cases)
}

impl NetworkCase for Case {
    fn plan(&self) -> Plan {
        self.plan
    }

    fn show_in(&self, rt: &HostRuntime, prepared: &Prepared) -> io::Result<()> {
        let Some(found) = by_graph(rt.alloc(), self, prepared) else {
            return println!(rt; "no graph");
        };
        let name = self.name;
        let ends = found.ends;
        let loops = found.loops;
        println!(rt; "{name}: ends there {ends:?}, loops {loops:?}")
    }
}

// By the graph of this header alone, in the old network.
fn by_graph(alloc: Global, case: &Case, prepared: &Prepared) -> Option<Answers> {
    match graph_of(alloc, prepared, Version::Old, &case.header) {
        Some(graph) => under_each(alloc, case, &graph).ok(),
        None => None,
    }
}

fn under_each(alloc: Global, case: &Case, graph: &Graph) -> Result<Answers, NoMemory> {
    let mut ends = [false; 5];
    for (ttl, answer) in TTLS.iter().zip(ends.iter_mut()) {
        *answer = graph.ends_at(alloc, (*ttl).max(1), case.place)?;
    }
    let mut loops = [false; 5];
    for (ttl, answer) in TTLS.iter().zip(loops.iter_mut()) {
        *answer = graph.loops(alloc, (*ttl).max(1))?;
    }
    Ok(Answers { ends, loops })
}
