//! The check of a link table against one network: whether an address stands twice.
ghost use Rattle.std.specs.Prelude.{◌≡◌, IfOk, option_map, option_to_list};
ghost use Rattle.topo_links.specs.Check.{dotted};
ghost use Rattle.topo_links.specs.NetIndex.{IsNet};
ghost use Rattle.topo_links.specs.Shared.{least_onto};
ghost use Rattle.topo_links.specs.Twice.{address_twice, least_twice};

use crate::judge::dotted;
use crate::net_index::NetIndex;
use crate::shared::lesser;
use crate::{LinkLine, LinkTable};
use net_types::{Loaded, NoMemory, Text};
use std::alloc::Global;

/// The least address that two IP-enabled ends of one segment have in a network, of all segments of the table, as four numbers
/// with dots between; none where no address stands twice. An address that stands twice on one interface isn't counted.
pub fn address_twice(
    alloc: Global,
    table: &LinkTable,
    folder: &[Loaded],
) -> Result<Option<Text>, NoMemory>
    ensures { IfOk result (λ twice. twice ≡ address_twice folder.now table.now.lines) }
{
    let net = NetIndex::of(alloc, folder)?;
    let least = least_twice(alloc, &net, table.lines.as_slice())?;
    written(alloc, least)
}

/// The least address that two ends of one segment have.
///
/// The lines are gone through from the last to the first, beside the least of those after.
fn least_twice(alloc: Global, net: &NetIndex, lines: &[LinkLine]) -> Result<Option<u32>, NoMemory>
    requires { IsNet net.now }
    ensures { IfOk result (λ least. least ≡ least_twice net.now.devices.items.now lines.now) }
{
    let mut least = None;
    let mut i = lines.len();
    while i > 0 {
        i -= 1;
        let shared = net.shared_address(alloc, &lines[i])?;
        least = lesser_of(shared, least);
    }
    Ok(least)
}

/// The lesser of two addresses, each of which may be missing.
fn lesser_of(address: Option<u32>, other: Option<u32>) -> Option<u32>
    ensures { result ≡ least_onto (option_to_list address) other }
{
    match address {
        None => other,
        Some(address) => lesser(address, other),
    }
}

/// An address as text, if there is one.
fn written(alloc: Global, address: Option<u32>) -> Result<Option<Text>, NoMemory>
    ensures { IfOk result (λ text. text ≡ option_map dotted address) }
{
    let Some(address) = address else {
        return Ok(None);
    };
    Ok(Some(dotted(alloc, address)?))
}
