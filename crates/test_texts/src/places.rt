//! What is found of links.

use crate::networks::shown;
use net_types::{Loaded, Text};
use place_checks::{Folders, LinkFindings, Networks, PlaceFinding, StrayNext, link_findings};
use std::{fs, io};
use test_stop::Stop;
use topo_links::{LinkTable, read_links};

/// The findings by the table of the file `joined`, for both networks and for each alone.
pub(crate) fn show(rt: &HostRuntime, old: &[Loaded], new: &[Loaded]) -> Result<(), Stop> {
    let text = fs::read_to_string(rt, "joined")?;
    if text.len() > 16_777_216 {
        return Ok(());
    }
    match read_links(rt.alloc(), text.as_bytes()) {
        Ok(table) => show_table(rt, old, new, &table),
        Err(_) => Ok(println!(rt; "no table")?),
    }
}

fn show_table(
    rt: &HostRuntime,
    old: &[Loaded],
    new: &[Loaded],
    table: &LinkTable,
) -> Result<(), Stop> {
    for judged in [Networks::Both, Networks::Old, Networks::New] {
        println!(rt; "== {judged:?}")?;
        let found = link_findings(rt.alloc(), Folders { old, new, judged }, table)?;
        show_found(rt, &found)?;
    }
    Ok(())
}

fn show_found(rt: &HostRuntime, found: &LinkFindings) -> io::Result<()> {
    for finding in &found.places {
        show_finding(rt, finding)?;
    }
    for stray in &found.strays {
        show_stray(rt, stray)?;
    }
    for line in &found.ethernet {
        println!(rt; "line {line} on Ethernet")?;
    }
    Ok(())
}

fn show_place(rt: &HostRuntime, place: &(Text, Text)) -> io::Result<()> {
    print!(rt; " {} {}", shown(&place.0), shown(&place.1))
}

// The place behind the words, and the networks behind it.
fn show_in(
    rt: &HostRuntime,
    words: &str,
    line: u32,
    place: &(Text, Text),
    networks: Networks,
) -> io::Result<()> {
    print!(rt; "line {line} {words}")?;
    show_place(rt, place)?;
    println!(rt; " {networks:?}")
}

fn show_finding(rt: &HostRuntime, finding: &PlaceFinding) -> io::Result<()> {
    match finding {
        PlaceFinding::Missing { line, place, near } => {
            show_missing(rt, *line, place, near.as_ref())
        }
        PlaceFinding::Shut {
            line,
            place,
            networks,
        } => show_in(rt, "shut", *line, place, *networks),
        PlaceFinding::NoAddress {
            line,
            place,
            networks,
        } => show_in(rt, "no address", *line, place, *networks),
        PlaceFinding::Apart {
            line,
            place,
            first,
            networks,
        } => {
            print!(rt; "line {line} apart")?;
            show_two(rt, place, first, *networks)
        }
        PlaceFinding::Unlinked {
            place,
            other,
            networks,
        } => {
            print!(rt; "unlinked")?;
            show_two(rt, place, other, *networks)
        }
    }
}

fn show_missing(
    rt: &HostRuntime,
    line: u32,
    place: &(Text, Text),
    near: Option<&(Text, Text)>,
) -> io::Result<()> {
    print!(rt; "line {line} missing")?;
    show_place(rt, place)?;
    if let Some(near) = near {
        print!(rt; " near")?;
        show_place(rt, near)?;
    }
    println!(rt; "")
}

fn show_two(
    rt: &HostRuntime,
    place: &(Text, Text),
    other: &(Text, Text),
    networks: Networks,
) -> io::Result<()> {
    show_place(rt, place)?;
    show_place(rt, other)?;
    println!(rt; " {networks:?}")
}

fn show_stray(rt: &HostRuntime, stray: &StrayNext) -> io::Result<()> {
    print!(rt; "line {} stray", stray.line)?;
    show_place(rt, &stray.place)?;
    println!(rt; " {} {:?}", stray.next, stray.networks)
}
