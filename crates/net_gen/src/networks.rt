//! The two networks and their links.
ghost use Rattle.std.specs.Prelude.{◌≡◌, ◌≤◌, ◌-◌, IfOk, map};
ghost use Rattle.net_gen.specs.Devices.{numbers, name};
ghost use Rattle.net_gen.specs.Networks.{file, files, link, ingress, table, networks};

use crate::devices::{device, name};
use net_load::{Numbered, number_all};
use net_types::{List, Loaded, NoMemory, Text};
use std::alloc::Global;
use topo_links::{LinkKind, LinkLine, LinkTable};

/// The old and the new network of a number and a size of 2 to 200, with their links, over one list of names.
///
/// Routers R1 to Rn stand in a chain, each with a network of its own. Packets enter at the networks of the first and
/// the last one. In the new network the list at the first one lets packets to one host of each network in besides.
pub fn generate(alloc: Global, number: u64, size: u32) -> Result<Numbered, NoMemory>
    requires { 2 ≤ size × size ≤ 200 }
    ensures { IfOk result (λ made. made ≡ networks number size) }
{
    let old = files(alloc, false, number, size)?;
    let new = files(alloc, true, number, size)?;
    let table = table(alloc, size)?;
    number_all(alloc, old, new, &table, &[])
}

// The devices, as read from files of their names.
fn files(alloc: Global, new: bool, number: u64, size: u32) -> Result<Vec<Loaded>, NoMemory>
    requires { size ≤ 200 }
    ensures { IfOk result (λ loaded. loaded.items ≡ files new number size) }
{
    let mut files = Vec::new(alloc);
    for j in 1..size + 1 {
        files.push(file(alloc, new, number, size, j)?)?;
    }
    Ok(files)
}

fn file(alloc: Global, new: bool, number: u64, size: u32, j: u32) -> Result<Loaded, NoMemory>
    requires { size ≤ 200 × 1 ≤ j × j ≤ size }
    ensures { IfOk result (λ f. f ≡ file new number size j) }
{
    Ok(Loaded {
        file: name(alloc, j)?,
        config: device(alloc, new, number, size, j)?,
        passed: 0,
    })
}

fn end(alloc: Global, j: u32, interface: &[u8]) -> Result<(Text, Text), NoMemory>
    ensures { IfOk result (λ e. e ≡ (name j, interface.now)) }
{
    let device = name(alloc, j)?;
    let interface = Text::copy_of(alloc, interface)?;
    Ok((device, interface))
}

// `p2p Rj Ethernet1 Rk Ethernet0`, for the device k behind j.
fn link(alloc: Global, j: u32) -> Result<LinkLine, NoMemory>
    requires { j ≤ 200 }
    ensures { IfOk result (λ line. line ≡ link j) }
{
    let left = end(alloc, j, b"Ethernet1")?;
    let right = end(alloc, j + 1, b"Ethernet0")?;
    Ok(LinkLine {
        line: j,
        kind: LinkKind::P2p,
        ends: List::new(vec![in alloc; left, right]?),
    })
}

// `ingress Rj Ethernet2`
fn ingress(alloc: Global, line: u32, j: u32) -> Result<LinkLine, NoMemory>
    ensures { IfOk result (λ l. l ≡ ingress line j) }
{
    let only = end(alloc, j, b"Ethernet2")?;
    Ok(LinkLine {
        line,
        kind: LinkKind::Ingress,
        ends: List::new(vec![in alloc; only]?),
    })
}

fn links(alloc: Global, size: u32) -> Result<Vec<LinkLine>, NoMemory>
    requires { 1 ≤ size × size ≤ 200 }
    ensures { IfOk result (λ lines. lines.items ≡ map link (numbers (size - 1))) }
{
    let mut lines = Vec::new(alloc);
    for j in 1..size {
        lines.push(link(alloc, j)?)?;
    }
    Ok(lines)
}

fn table(alloc: Global, size: u32) -> Result<LinkTable, NoMemory>
    requires { 2 ≤ size × size ≤ 200 }
    ensures { IfOk result (λ t. t ≡ table size) }
{
    let mut lines = links(alloc, size)?;
    lines.push(ingress(alloc, size, 1)?)?;
    lines.push(ingress(alloc, size + 1, size)?)?;
    Ok(LinkTable {
        lines: List::new(lines),
    })
}
