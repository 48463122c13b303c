//! Edits of small networks, one after the other.

use crate::networks::{Linked, Plan, network_of};
use incr_review::{Edit, EditFail, EditKind, Review, Touched};
use net_types::{NoMemory, Route, RouteExit, Subnet};
use std::alloc::Global;
use std::io;

/// What is edited: a route to `Null0` is added at a device, or dropped.
#[derive(Clone, Copy)]
struct Change {
    add: bool,
    device: u32,
    address: u32,
    length: u8,
}

/// 172.16.0.0
pub(crate) const PRIVATE: u32 = 0xac10_0000;
/// 172.0.0.0
const AROUND: u32 = 0xac00_0000;
/// 192.168.0.0
const OFFICE: u32 = 0xc0a8_0000;

fn added(device: u32, address: u32, length: u8) -> Change {
    Change {
        add: true,
        device,
        address,
        length,
    }
}

fn dropped(device: u32, address: u32, length: u8) -> Change {
    Change {
        add: false,
        device,
        address,
        length,
    }
}

/// Prints for each case what each of its edits leaves alone and walks again, and how many rows the report has then.
pub(crate) fn show(rt: &HostRuntime) -> io::Result<()> {
    // What neither router knows meets the second one by the loop alone. What an edit gives back stays a region of its own, and is
    // walked together with what lies round it where a later edit changes the moves of both.
    let by_loop = [
        added(1, PRIVATE, 12),
        dropped(1, PRIVATE, 12),
        added(1, AROUND, 8),
        dropped(1, AROUND, 8),
    ];
    show_case(rt, "met by a loop alone", Plan::Pair, &by_loop)?;
    // The third router drops in any case what only one of the two choices sends there.
    let by_choice = [
        added(2, OFFICE, 24),
        dropped(2, OFFICE, 24),
        added(1, OFFICE, 25),
        dropped(1, OFFICE, 25),
    ];
    show_case(rt, "met by one of two choices", Plan::Fan, &by_choice)?;
    let refused = [
        dropped(1, OFFICE, 25),
        added(1, OFFICE, 25),
        added(3, OFFICE, 25),
        dropped(1, OFFICE, 25),
    ];
    show_case(rt, "refused between others", Plan::Fan, &refused)
}

fn show_case(rt: &HostRuntime, name: &str, plan: Plan, changes: &[Change]) -> io::Result<()> {
    println!(rt; "{name}")?;
    match network_of(rt.alloc(), plan) {
        Some(linked) => show_edits(rt, &linked, changes),
        None => println!(rt; "  not read"),
    }
}

fn show_edits(rt: &HostRuntime, linked: &Linked, changes: &[Change]) -> io::Result<()> {
    match all_made(rt.alloc(), linked, changes) {
        Ok(all) => show_all(rt, &all),
        Err(_) => println!(rt; "  no memory"),
    }
}

fn show_all(rt: &HostRuntime, all: &[Outcome]) -> io::Result<()> {
    for one in all {
        match *one {
            Outcome::Edited { touched, rows } => {
                let Touched { kept, walked } = touched;
                println!(rt; "  kept {kept} walked {walked} rows {rows}")?;
            }
            Outcome::Refused { kind } => {
                let why = cause(kind);
                println!(rt; "  refused: {why}")?;
            }
        }
    }
    Ok(())
}

fn cause(kind: EditKind) -> &'static str {
    match kind {
        EditKind::UnknownDevice => "no such device",
        EditKind::NoSuchRoute => "no such route",
        _ => "another cause",
    }
}

/// What came of an edit.
#[derive(Clone, Copy)]
enum Outcome {
    Edited { touched: Touched, rows: u64 },
    Refused { kind: EditKind },
}

fn all_made(alloc: Global, linked: &Linked, changes: &[Change]) -> Result<Vec<Outcome>, NoMemory> {
    if linked.links.ingress.as_slice().len() > 1 {
        return Ok(Vec::new(alloc));
    }
    let mut review = Review::open(alloc, &linked.network, &linked.links, 64)?;
    made_in(alloc, &mut review, changes)
}

fn made_in(
    alloc: Global,
    review: &mut Review,
    changes: &[Change],
) -> Result<Vec<Outcome>, NoMemory> {
    let mut all = Vec::new(alloc);
    for change in changes {
        let outcome = made(alloc, review, *change)?;
        all.push(outcome)?;
    }
    Ok(all)
}

fn made(alloc: Global, review: &mut Review, change: Change) -> Result<Outcome, NoMemory> {
    let edited = review.edit(alloc, &edit_of(change));
    match edited {
        Ok(touched) => {
            let rows = review.affected(alloc)?;
            Ok(Outcome::Edited { touched, rows })
        }
        Err(EditFail::Refused { kind }) => Ok(Outcome::Refused { kind }),
        Err(EditFail::NoMemory) => Err(NoMemory),
    }
}

fn edit_of(change: Change) -> Edit {
    let device = change.device;
    let route = null_route(change.address, change.length);
    if change.add {
        Edit::AddRoute { device, route }
    } else {
        Edit::DropRoute { device, route }
    }
}

/// A route of the prefix to `Null0`, with the distance 1.
pub(crate) fn null_route(address: u32, length: u8) -> Route {
    Route {
        prefix: Subnet {
            address,
            length: length.min(32),
        },
        exit: RouteExit::Null,
        distance: 1,
    }
}
