//! A function of another table.

ghost use Rattle.std.specs.Prelude.{◌<◌, IfOk, OnOk, length, nat_eq};
ghost use Rattle.indexmap.specs.IndexMap.{get};
ghost use Rattle.hdr_bits.specs.Lists.{Extends};
ghost use Rattle.cube_diagram.specs.Nodes.{IsReduced};
ghost use Rattle.cube_diagram.specs.Combined.{IsSound};
ghost use Rattle.cube_diagram.specs.Images.{IsCopied, AreCopied};

use crate::combine::{Tables, add, split};
use crate::table::{NOTHING, Node, NodeTable};
use indexmap::IndexMap;
use no_memory::NoMemory;

/// The number of the function that has this number in the other table. What is known of other numbers is used again.
pub(crate) fn copied(
    tables: &mut Tables,
    source: &NodeTable,
    id: u32,
    known: &mut IndexMap<u32, u32>,
) -> Result<u32, NoMemory>
    requires sound { IsSound tables.old }
    requires reduced { IsReduced source.now.nodes.items }
    requires id { id < length source.now.nodes.items }
    requires known { AreCopied source.now.nodes.items tables.old.table.nodes.items (get nat_eq known.old) }
    ensures copied { IfOk result (IsCopied source.now.nodes.items tables.new.table.nodes.items id) }
    ensures known { OnOk result (AreCopied source.now.nodes.items tables.new.table.nodes.items (get nat_eq known.new)) }
    ensures grows { Extends tables.old.table.nodes.items tables.new.table.nodes.items }
    ensures sound { IsSound tables.new }
{
    match source.node_at(id) {
        Node::Nothing => Ok(NOTHING),
        Node::Value { value } => {
            let r = add(tables, Node::Value { value })?;
            Ok(r)
        }
        Node::Split { bit, low, high } => {
            if let Some(r) = known.get(&id) {
                return Ok(*r);
            }
            let a = copied(tables, source, low, known)?;
            let b = copied(tables, source, high, known)?;
            let result = split(tables, bit, a, b)?;
            known.insert(id, result)?;
            Ok(result)
        }
    }
}
