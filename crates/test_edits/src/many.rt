//! Very many edits of a router that no header visits.

use crate::networks::bare;
use crate::small::{PRIVATE, null_route};
use incr_review::{Edit, EditFail, Review, Touched};
use net_gen::generate;
use net_load::Numbered;
use net_types::{Links, Network, NoMemory};
use std::alloc::Global;
use std::io;

/// How often a route is added and dropped again.
const ROUNDS: u32 = 5_000;

/// Prints how often the first edit's answer came again, without a region that is walked, and the sections and rows of the
/// report at the end. A review that walked all again at each edit would not end in time.
pub(crate) fn show(rt: &HostRuntime) -> io::Result<()> {
    println!(rt; "ten thousand edits of a router without interfaces")?;
    match edited(rt.alloc()) {
        Ok(Some(told)) => {
            let Told {
                edits,
                sections,
                rows,
            } = told;
            println!(rt; "  walked 0 and the same kept {edits} times")?;
            println!(rt; "  sections {sections} rows {rows}")
        }
        Ok(None) => println!(rt; "  not made"),
        Err(_) => println!(rt; "  not edited"),
    }
}

/// What came of the edits.
#[derive(Clone, Copy)]
struct Told {
    edits: u32,
    sections: usize,
    rows: u64,
}

fn edited(alloc: Global) -> Result<Option<Told>, EditFail> {
    let mut numbered = generate(alloc, 7, 20)?;
    edited_with_bare(alloc, &mut numbered)
}

// The router without interfaces joins the network.
fn edited_with_bare(alloc: Global, numbered: &mut Numbered) -> Result<Option<Told>, EditFail> {
    let Ok(spare) = u32::try_from(numbered.names.texts.as_slice().len()) else {
        return Ok(None);
    };
    let Some(device) = bare(alloc, spare) else {
        return Ok(None);
    };
    numbered.old.devices.push(device)?;
    after_edits(alloc, &numbered.old, &numbered.links, spare)
}

fn after_edits(
    alloc: Global,
    network: &Network,
    links: &Links,
    device: u32,
) -> Result<Option<Told>, EditFail> {
    if links.ingress.as_slice().len() > 2 {
        return Ok(None);
    }
    let mut review = Review::open(alloc, network, links, 255)?;
    let told = tell(alloc, &mut review, device)?;
    Ok(Some(told))
}

fn tell(alloc: Global, review: &mut Review, device: u32) -> Result<Told, EditFail> {
    let edits = edits(alloc, review, device)?;
    let sections = review.sections(alloc)?.len();
    let rows = review.affected(alloc)?;
    Ok(Told {
        edits,
        sections,
        rows,
    })
}

// Adds and drops a route, and counts the answers that are the first one's with nothing walked.
fn edits(alloc: Global, review: &mut Review, device: u32) -> Result<u32, EditFail> {
    let there = Edit::AddRoute {
        device,
        route: null_route(PRIVATE, 16),
    };
    let back = Edit::DropRoute {
        device,
        route: null_route(PRIVATE, 16),
    };
    edits_to_and_fro(alloc, review, &there, &back)
}

fn edits_to_and_fro(
    alloc: Global,
    review: &mut Review,
    there: &Edit,
    back: &Edit,
) -> Result<u32, EditFail> {
    let first = review.edit(alloc, there)?;
    let mut same = count_of(first, first);
    let second = review.edit(alloc, back)?;
    same = same.saturating_add(count_of(first, second));
    for _ in 1..ROUNDS {
        let one = review.edit(alloc, there)?;
        let other = review.edit(alloc, back)?;
        same = same.saturating_add(count_of(first, one));
        same = same.saturating_add(count_of(first, other));
    }
    Ok(same)
}

fn count_of(first: Touched, touched: Touched) -> u32 {
    u32::from(touched.walked == 0 && touched == first)
}
