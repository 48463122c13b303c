//! The check of a link table against two networks, or against its own one of two.
ghost use Rattle.std.specs.Prelude.{◌≡◌, IfOk, map, find};
ghost use Rattle.std.specs.Option.{option_copied};
ghost use Rattle.topo_links.specs.Check.{is_unknown, dotted, twice_at, line_fault, table_fault, own_line_fault, own_table_fault};
ghost use Rattle.topo_links.specs.NetIndex.{IsNet, Judges};

use crate::ends::at_word;
use crate::net_index::NetIndex;
use crate::{LinkFail, LinkLine, LinkRefusal, LinkTable};
use net_types::{Loaded, NoMemory, Text};
use std::alloc::Global;

/// Whether the device is in neither network.
fn is_unknown(old: &NetIndex, new: &NetIndex, device: &Text) -> bool
    requires old { IsNet old.now }
    requires new { IsNet new.now }
    ensures { result ≡ is_unknown old.now.devices.items.now new.now.devices.items.now device.now }
{
    !old.has_device(device) && !new.has_device(device)
}

/// The first device of a line that is in neither network.
fn unknown_device<'t>(old: &NetIndex, new: &NetIndex, ends: &'t [(Text, Text)]) -> Option<&'t Text>
    requires old { IsNet old.now }
    requires new { IsNet new.now }
    ensures { option_copied result ≡ find (is_unknown old.now.devices.items.now new.now.devices.items.now) (map (λ e. e.0) ends.now) }
{
    for (device, _) in ends {
        if is_unknown(old, new, device) {
            return Some(device);
        }
    }
    None
}

/// An address as four numbers with dots between.
pub(crate) fn dotted(alloc: Global, address: u32) -> Result<Text, NoMemory>
    ensures { IfOk result (λ text. text ≡ dotted address) }
{
    let first = address / 16777216;
    let second = address / 65536 % 256;
    let third = address / 256 % 256;
    let fourth = address % 256;
    let text = format!(in alloc; "{first}.{second}.{third}.{fourth}")?;
    Text::copy_of(alloc, text.as_bytes())
}

/// The refusal for an address that stands twice, or nothing.
fn judge_shared(alloc: Global, line: u32, shared: Option<u32>) -> Result<(), LinkFail>
    ensures { Judges (twice_at line shared) result }
{
    let Some(address) = shared else {
        return Ok(());
    };
    let word = dotted(alloc, address)?;
    Err(at_word(alloc, LinkRefusal::AddressTwice, line, &word))
}

/// Whether a line is right in both networks.
#[tactic(auto, unfolding(crate::specs::Check::line_fault))]
fn check_line(
    alloc: Global,
    old: &NetIndex,
    new: &NetIndex,
    line: &LinkLine,
) -> Result<(), LinkFail>
    requires old { IsNet old.now }
    requires new { IsNet new.now }
    ensures { Judges (line_fault old.now.devices.items.now new.now.devices.items.now line.now) result }
{
    if let Some(device) = unknown_device(old, new, line.ends.as_slice()) {
        return Err(at_word(alloc, LinkRefusal::UnknownDevice, line.line, device));
    }
    let shared = old.shared_address(alloc, line)?;
    if shared.is_some() {
        return judge_shared(alloc, line.line, shared);
    }
    let shared = new.shared_address(alloc, line)?;
    judge_shared(alloc, line.line, shared)
}

/// Checks the table against the old and the new network.
///
/// By line, and first in a line: `UnknownDevice` with its first device that is in neither network. `AddressTwice`
/// where two IP-enabled ends of one segment have one address in one of the networks, with the least such address in
/// the old network, else with the least in the new one. An address that stands twice on one interface isn't counted.
pub fn check(
    alloc: Global,
    table: &LinkTable,
    old: &[Loaded],
    new: &[Loaded],
) -> Result<(), LinkFail>
    ensures exact { Judges (table_fault old.now new.now table.now.lines) result }
{
    let old = NetIndex::of(alloc, old)?;
    let new = NetIndex::of(alloc, new)?;
    check_lines(alloc, &old, &new, table.lines.as_slice())
}

/// Checks the lines one after the other.
fn check_lines(
    alloc: Global,
    old: &NetIndex,
    new: &NetIndex,
    lines: &[LinkLine],
) -> Result<(), LinkFail>
    requires old { IsNet old.now }
    requires new { IsNet new.now }
    ensures { Judges (table_fault old.now.devices.items.now new.now.devices.items.now lines.now) result }
{
    for line in lines {
        check_line(alloc, old, new, line)?;
    }
    Ok(())
}

/// Checks the table of one network, where the other one has a table of its own.
///
/// By line, and first in a line: `UnknownDevice` with its first device that is in neither network. `AddressTwice`
/// where two IP-enabled ends of one segment have one address in the table's own network, with the least such address.
/// An address that stands twice on one interface isn't counted.
pub fn check_own(
    alloc: Global,
    table: &LinkTable,
    own: &[Loaded],
    other: &[Loaded],
) -> Result<(), LinkFail>
    ensures exact { Judges (own_table_fault own.now other.now table.now.lines) result }
{
    let own = NetIndex::of(alloc, own)?;
    let other = NetIndex::of(alloc, other)?;
    check_own_lines(alloc, &own, &other, table.lines.as_slice())
}

/// Checks the lines one after the other.
fn check_own_lines(
    alloc: Global,
    own: &NetIndex,
    other: &NetIndex,
    lines: &[LinkLine],
) -> Result<(), LinkFail>
    requires own { IsNet own.now }
    requires other { IsNet other.now }
    ensures { Judges (own_table_fault own.now.devices.items.now other.now.devices.items.now lines.now) result }
{
    for line in lines {
        check_own_line(alloc, own, other, line)?;
    }
    Ok(())
}

/// Whether a line is right in its own network.
#[tactic(auto, unfolding(crate::specs::Check::own_line_fault))]
fn check_own_line(
    alloc: Global,
    own: &NetIndex,
    other: &NetIndex,
    line: &LinkLine,
) -> Result<(), LinkFail>
    requires own { IsNet own.now }
    requires other { IsNet other.now }
    ensures { Judges (own_line_fault own.now.devices.items.now other.now.devices.items.now line.now) result }
{
    if let Some(device) = unknown_device(own, other, line.ends.as_slice()) {
        return Err(at_word(alloc, LinkRefusal::UnknownDevice, line.line, device));
    }
    let shared = own.shared_address(alloc, line)?;
    judge_shared(alloc, line.line, shared)
}
