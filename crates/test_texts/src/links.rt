//! Link tables: what their texts are read as, and whether they fit two networks.

use crate::devices::device;
use net_types::{Loaded, NoMemory, Text};
use std::alloc::Global;
use std::fs;
use test_stop::Stop;
use topo_links::{LinkFail, LinkKind, LinkLine, LinkRefusal, LinkTable, check, read_links};

/// The old network. E0 of R2 is shut down, and R4 and R5 share two addresses.
fn old_network(alloc: Global) -> Result<Vec<Loaded>, NoMemory> {
    let mut devices = Vec::new(alloc);
    devices.push(device(alloc, b"R1", false, &[1], &[11, 11])?)?;
    devices.push(device(alloc, b"R2", true, &[1], &[12])?)?;
    devices.push(device(alloc, b"R4", false, &[9, 8], &[])?)?;
    devices.push(device(alloc, b"R5", false, &[8, 9], &[])?)?;
    Ok(devices)
}

/// The new network. It has R3 too, and E0 of R2 has the address of E0 of R1.
fn new_network(alloc: Global) -> Result<Vec<Loaded>, NoMemory> {
    let mut devices = Vec::new(alloc);
    devices.push(device(alloc, b"R1", false, &[1], &[11, 11])?)?;
    devices.push(device(alloc, b"R2", false, &[1], &[12])?)?;
    devices.push(device(alloc, b"R3", false, &[12, 3], &[3])?)?;
    devices.push(device(alloc, b"R4", false, &[7], &[])?)?;
    devices.push(device(alloc, b"R5", false, &[7], &[])?)?;
    Ok(devices)
}

/// The tables of the file `links`, each behind a line `==`.
pub(crate) fn show(rt: &HostRuntime) -> Result<(), Stop> {
    let old = old_network(rt.alloc())?;
    let new = new_network(rt.alloc())?;
    show_tables(rt, &old, &new)
}

fn show_tables(rt: &HostRuntime, old: &[Loaded], new: &[Loaded]) -> Result<(), Stop> {
    let cases = fs::read_to_string(rt, "links")?;
    for text in cases.as_str().split("==\n").skip(1) {
        print!(rt; "==\n{text}")?;
        show_table(rt, old, new, text.as_bytes())?;
    }
    Ok(())
}

fn show_table(rt: &HostRuntime, old: &[Loaded], new: &[Loaded], text: &[u8]) -> Result<(), Stop> {
    if text.len() > 16_777_216 {
        return Ok(());
    }
    match read_links(rt.alloc(), text) {
        Ok(table) => show_fit(rt, old, new, &table),
        Err(fail) => show_fail(rt, "refused", &fail),
    }
}

fn show_fit(
    rt: &HostRuntime,
    old: &[Loaded],
    new: &[Loaded],
    table: &LinkTable,
) -> Result<(), Stop> {
    for line in table.lines.as_slice() {
        show_line(rt, line)?;
    }
    match check(rt.alloc(), table, old, new) {
        Ok(()) => {
            println!(rt; "=> fits")?;
            Ok(())
        }
        Err(fail) => show_fail(rt, "doesn't fit", &fail),
    }
}

fn show_line(rt: &HostRuntime, line: &LinkLine) -> Result<(), Stop> {
    let kind = match line.kind {
        LinkKind::P2p => "p2p",
        LinkKind::Lan => "lan",
        LinkKind::Ingress => "ingress",
    };
    print!(rt; "=> line {} {kind}", line.line)?;
    for (device, interface) in line.ends.as_slice() {
        let device = device.as_bytes().escape_ascii();
        let interface = interface.as_bytes().escape_ascii();
        print!(rt; " {device} {interface}")?;
    }
    println!(rt; "")?;
    Ok(())
}

fn show_fail(rt: &HostRuntime, answer: &str, fail: &LinkFail) -> Result<(), Stop> {
    match fail {
        LinkFail::NoMemory => Err(Stop::NoMemory),
        LinkFail::Refused { kind, line, word } => show_refusal(rt, answer, *kind, *line, word),
    }
}

fn show_refusal(
    rt: &HostRuntime,
    answer: &str,
    kind: LinkRefusal,
    line: u32,
    word: &Text,
) -> Result<(), Stop> {
    let word = word.as_bytes().escape_ascii();
    println!(rt; "=> {answer} line {line} {} {word}", kind.name())?;
    Ok(())
}
