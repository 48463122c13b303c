//! Small networks whose devices are replaced, again and again: after each change the ways of all places, the labels of all headers that
//! enter there and the devices that they visit have to be those that are found from nothing.
//!
//! The first word is the number of networks, and the second one the number of changes of each. What is drawn follows from the number
//! of a network.

use crate::devices::{changed, drawn};
use crate::draws::Draws;
use crate::plan::{DEVICES, links};
use crate::same::{Compared, Count, compare};
use live_network::LiveNetwork;
use net_types::{Duplicate, Links, List, Network, NoMemory};
use std::alloc::Global;
use std::{env, io};

/// Prints how many ways, labels and visits are the same as those found from nothing.
pub(crate) fn show_all(rt: &HostRuntime) -> io::Result<()> {
    let mut words = env::args(rt)?.skip(1);
    let networks = number(words.next());
    let changes = number(words.next());
    match run(rt.alloc(), networks, changes) {
        Ok(
            Compared {
                ways,
                labels,
                visits,
            },
        ) => {
            println!(rt; "networks {networks} changes {changes}")?;
            show(rt, "ways", ways)?;
            show(rt, "labels", labels)?;
            show(rt, "visits", visits)
        }
        Err(_) => println!(rt; "no memory"),
    }
}

fn show<R: Print>(rt: &R, what: &str, count: Count) -> io::Result<()> {
    let Count { same, other } = count;
    println!(rt; "{what} the same {same} otherwise {other}")
}

fn number(word: Option<String>) -> u64 {
    let Some(word) = word else {
        return 3;
    };
    word.parse().unwrap_or(3)
}

fn run(alloc: Global, networks: u64, changes: u64) -> Result<Compared, NoMemory> {
    let links = links(alloc)?;
    let mut all = Compared::none();
    for number in 0..networks {
        let found = run_one(alloc, number, changes, &links)?;
        all = all.with(found);
    }
    Ok(all)
}

// The changes of one network.
fn run_one(alloc: Global, number: u64, changes: u64, links: &Links) -> Result<Compared, NoMemory> {
    let mut draws = Draws::of(number);
    let network = network(alloc, &mut draws)?;
    let mut live = LiveNetwork::open(alloc, network, links)?;
    run_changes(alloc, &mut live, &mut draws, changes, links)
}

fn run_changes(
    alloc: Global,
    live: &mut LiveNetwork,
    draws: &mut Draws,
    changes: u64,
    links: &Links,
) -> Result<Compared, NoMemory> {
    let mut all = compare(alloc, live, links)?;
    for _turn in 0..changes {
        change(alloc, live, draws)?;
        let found = compare(alloc, live, links)?;
        all = all.with(found);
    }
    Ok(all)
}

fn network(alloc: Global, draws: &mut Draws) -> Result<Network, NoMemory> {
    let mut devices = List::empty(alloc);
    for name in 0..DEVICES {
        devices.push(drawn(alloc, draws, name)?)?;
    }
    Ok(Network { devices })
}

// Replaces a device by another version of it, or by one that has nothing to do with it.
fn change(alloc: Global, live: &mut LiveNetwork, draws: &mut Draws) -> Result<(), NoMemory> {
    let name = draws.below(DEVICES);
    let devices = live.world().network.devices.as_slice();
    let Some(device) = devices.iter().find(|d| d.name == name) else {
        return Ok(());
    };
    let next = if draws.below(3) == 0 {
        drawn(alloc, draws, name)?
    } else {
        changed(alloc, draws, device.copy(alloc)?)?
    };
    live.replace(alloc, next)?;
    Ok(())
}
