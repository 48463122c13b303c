//! All that is wrong with the links of networks.
ghost use Rattle.std.specs.Prelude.{◌≡◌, ◌++◌, true, false, IfOk, OnOk, flat_map};
ghost use Rattle.place_checks.specs.Ethernet.{ethernet_links};
ghost use Rattle.place_checks.specs.Findings.{device_unlinked, line_findings, place_findings};
ghost use Rattle.place_checks.specs.Index.{IsNet, AreNets};
ghost use Rattle.place_checks.specs.Sights.{folder_of, pair_of, folders_of};
ghost use Rattle.place_checks.specs.Strays.{stray_findings};

use crate::ends::check_line;
use crate::ethernet::ethernet_links;
use crate::nets::{Net, Nets};
use crate::segments::Segments;
use crate::strays::stray_findings;
use crate::unlinked::check_nets;
use crate::{Networks, PlaceFinding, StrayNext};
use net_types::{Loaded, NoMemory};
use std::alloc::Global;
use topo_links::{LinkLine, LinkTable};

/// The devices of two networks, and which of the two is judged by a table.
///
/// One network alone is the old one of two, the new one is empty, and the old one is judged. Where each network has a table
/// of its own, each table judges its network, and a place that the other network has isn't missing.
#[derive(Clone, Copy)]
pub struct Folders<'a> {
    pub old: &'a [Loaded],
    pub new: &'a [Loaded],
    pub judged: Networks,
}

/// What is found of the links of networks.
#[derive(Drop)]
pub struct LinkFindings {
    /// What is wrong with places, in order: by the lines of the table and their ends, and then by the places of the old network
    /// and those that the new one alone has. Each is told once, with the networks in which it is so.
    pub places: Vec<PlaceFinding>,
    /// The next hops on lans that no end has: lan by lan and end by end, in the order of the routes. Each is told once, with the
    /// networks in which it is so.
    pub strays: Vec<StrayNext>,
    /// The numbers of the lines that are p2p and on Ethernet, where an address of the link's subnet is no end's.
    pub ethernet: Vec<u32>,
}

/// All that is found of the links of the judged networks.
///
/// # Errors
///
/// There was no memory.
pub fn link_findings(
    alloc: Global,
    folders: Folders,
    table: &LinkTable,
) -> Result<LinkFindings, NoMemory>
    ensures places { IfOk result (λ found. found.places.items ≡ place_findings (folders_of folders.entry) table.now.lines) }
    ensures strays { IfOk result (λ found. found.strays.items ≡ stray_findings (folders_of folders.entry) table.now.lines) }
    ensures ethernet { IfOk result (λ found. found.ethernet.items ≡ ethernet_links (folders_of folders.entry) table.now.lines) }
{
    let old = Net::of(alloc, folders.old)?;
    findings_beside(alloc, &old, folders, table.lines.as_slice())
}

/// All that is found, beside the old network.
fn findings_beside(
    alloc: Global,
    old: &Net,
    folders: Folders,
    lines: &[LinkLine],
) -> Result<LinkFindings, NoMemory>
    requires folder { folder_of old.now ≡ folders.old.now }
    requires net { IsNet old.now }
    ensures places { IfOk result (λ found. found.places.items ≡ place_findings (folders_of folders.entry) lines.now) }
    ensures strays { IfOk result (λ found. found.strays.items ≡ stray_findings (folders_of folders.entry) lines.now) }
    ensures ethernet { IfOk result (λ found. found.ethernet.items ≡ ethernet_links (folders_of folders.entry) lines.now) }
{
    let new = Net::of(alloc, folders.new)?;
    let nets = Nets {
        old,
        new: &new,
        judged: folders.judged,
    };
    findings_of(alloc, nets, lines)
}

/// All that is found of two networks.
fn findings_of(alloc: Global, nets: Nets, lines: &[LinkLine]) -> Result<LinkFindings, NoMemory>
    requires { AreNets nets }
    ensures places { IfOk result (λ found. found.places.items ≡ place_findings (pair_of nets.entry) lines.now) }
    ensures strays { IfOk result (λ found. found.strays.items ≡ stray_findings (pair_of nets.entry) lines.now) }
    ensures ethernet { IfOk result (λ found. found.ethernet.items ≡ ethernet_links (pair_of nets.entry) lines.now) }
{
    Ok(LinkFindings {
        places: place_findings(alloc, nets, lines)?,
        strays: stray_findings(alloc, nets, lines)?,
        ethernet: ethernet_links(alloc, nets, lines)?,
    })
}

/// All that is wrong with places.
fn place_findings(
    alloc: Global,
    nets: Nets,
    lines: &[LinkLine],
) -> Result<Vec<PlaceFinding>, NoMemory>
    requires { AreNets nets }
    ensures { IfOk result (λ found. found.items ≡ place_findings (pair_of nets.entry) lines.now) }
{
    let mut found = Vec::new(alloc);
    check_lines(alloc, nets, lines, &mut found)?;
    check_unlinked(alloc, nets, lines, &mut found)?;
    Ok(found)
}

/// The places that no segment joins with another one of their subnet.
fn check_unlinked(
    alloc: Global,
    nets: Nets,
    lines: &[LinkLine],
    found: &mut Vec<PlaceFinding>,
) -> Result<(), NoMemory>
    requires { AreNets nets }
    ensures { OnOk result (found.new.items ≡ found.old.items ++ flat_map (device_unlinked false (pair_of nets.entry) lines.now) (pair_of nets.entry).old ++ flat_map (device_unlinked true (pair_of nets.entry) lines.now) (pair_of nets.entry).new) }
{
    let segments = Segments::of(alloc, lines)?;
    check_nets(alloc, nets, &segments, found)
}

/// The lines of a table.
fn check_lines(
    alloc: Global,
    nets: Nets,
    lines: &[LinkLine],
    found: &mut Vec<PlaceFinding>,
) -> Result<(), NoMemory>
    requires { AreNets nets }
    ensures { OnOk result (found.new.items ≡ found.old.items ++ flat_map (line_findings (pair_of nets.entry)) lines.now) }
{
    for line in lines {
        check_line(alloc, nets, line, found)?;
    }
    Ok(())
}
