//! The headers with the destinations of those that have a value.

ghost use Rattle.std.specs.Prelude.{◌<◌, IfOk, OnOk, length, nat_eq};
ghost use Rattle.indexmap.specs.IndexMap.{get};
ghost use Rattle.hdr_bits.specs.Lists.{Extends};
ghost use Rattle.cube_diagram.specs.Combined.{IsSound};
ghost use Rattle.cube_diagram.specs.Images.{AreByDestination, HasDestinations};

use crate::combine::{Tables, split};
use crate::table::{MARK, NOTHING, Node};
use indexmap::IndexMap;
use no_memory::NoMemory;

/// How many bits the destination has, which are the first ones.
const DESTINATION: u8 = 32;

/// The number that gives 1 to all headers with the destination of one to which this number gives a value. What is known of
/// other numbers is used again.
pub(crate) fn by_destination(
    tables: &mut Tables,
    id: u32,
    known: &mut IndexMap<u32, u32>,
) -> Result<u32, NoMemory>
    requires sound { IsSound tables.old }
    requires id { id < length tables.old.table.nodes.items }
    requires known { AreByDestination tables.old.table.nodes.items (get nat_eq known.old) }
    ensures told { IfOk result (HasDestinations tables.new.table.nodes.items id) }
    ensures known { OnOk result (AreByDestination tables.new.table.nodes.items (get nat_eq known.new)) }
    ensures grows { Extends tables.old.table.nodes.items tables.new.table.nodes.items }
    ensures sound { IsSound tables.new }
{
    if id == NOTHING {
        return Ok(NOTHING);
    }
    let Node::Split { bit, low, high } = tables.table.node_at(id) else {
        return Ok(MARK);
    };
    // Behind the destination some header has a value, since the number isn't that of nothing.
    if bit >= DESTINATION {
        return Ok(MARK);
    }
    if let Some(r) = known.get(&id) {
        return Ok(*r);
    }
    let a = by_destination(tables, low, known)?;
    let b = by_destination(tables, high, known)?;
    let result = split(tables, bit, a, b)?;
    known.insert(id, result)?;
    Ok(result)
}
