//! The devices that headers visit, by walks of sets and by walks of single headers, in networks with drawn routes.

use crate::asking::ask_visitors;
use crate::counting::Counted;
use crate::networks::{Networks, Plan};
use net_types::NoMemory;
use std::alloc::Global;
use std::io;

/// The TTLs under which visits are compared.
const TTLS: [u8; 5] = [0, 1, 2, 3, 64];

/// How many networks are drawn of each plan.
const NETWORKS: u64 = 4;

/// Prints for each plan of how many of the headers at edges the visited devices are wrong, in all networks that are drawn of it,
/// and whether some of the headers come to the second router and some don't.
pub(crate) fn show(rt: &HostRuntime) -> io::Result<()> {
    show_plan(rt, "pair", Plan::Pair)?;
    show_plan(rt, "fan", Plan::Fan)?;
    // Headers are translated on the way.
    show_plan(rt, "circle", Plan::Circle)?;
    show_plan(rt, "translated twice", Plan::TranslatedTwice)?;
    show_plan(rt, "lan", Plan::Lan)?;
    show_plan(rt, "outer rules", Plan::OuterLan)
}

fn show_plan(rt: &HostRuntime, name: &str, plan: Plan) -> io::Result<()> {
    match all_drawn(rt.alloc(), plan) {
        Ok(found) => show_found(rt, name, &found),
        Err(_) => println!(rt; "no memory"),
    }
}

fn show_found(rt: &HostRuntime, name: &str, found: &Counted) -> io::Result<()> {
    let wrong = found.wrong;
    let many = found.asked > 1_000;
    let come = found.second > 0;
    let others = found.second < found.asked;
    println!(rt;
        "{name}, drawn: wrong visits {wrong}, of a thousand or more: {many}, some come to the second: {come}, some don't: {others}"
    )
}

fn all_drawn(alloc: Global, plan: Plan) -> Result<Counted, NoMemory> {
    let mut all = Counted::none();
    for number in 1..=NETWORKS {
        if let Some(networks) = Networks::drawn(alloc, plan, number) {
            all = all.with(&visits(alloc, &networks)?);
        }
    }
    Ok(all)
}

fn visits(alloc: Global, networks: &Networks) -> Result<Counted, NoMemory> {
    let mut all = Counted::none();
    for ttl in TTLS {
        all = all.with(&ask_visitors(alloc, networks.both(), ttl)?);
    }
    Ok(all)
}
