//! Where a function has a value.

ghost use Rattle.std.specs.Prelude.{◌<◌, IfOk, length};
ghost use Rattle.hdr_bits.specs.Lists.{Extends};
ghost use Rattle.cube_diagram.specs.Combined.{IsSound};
ghost use Rattle.cube_diagram.specs.Images.{IsPicked};

use crate::combine::{Tables, split};
use crate::memo::Combination;
use crate::table::{MARK, NOTHING, Node};
use no_memory::NoMemory;

/// The number that gives 1 where this number gives the value, and nothing elsewhere.
pub(crate) fn picked(tables: &mut Tables, value: u32, id: u32) -> Result<u32, NoMemory>
    requires sound { IsSound tables.old }
    requires id { id < length tables.old.table.nodes.items }
    ensures picked { IfOk result (IsPicked tables.new.table.nodes.items id value) }
    ensures grows { Extends tables.old.table.nodes.items tables.new.table.nodes.items }
    ensures sound { IsSound tables.new }
{
    match tables.table.node_at(id) {
        Node::Nothing => Ok(NOTHING),
        Node::Value { value: v } => {
            if v == value {
                return Ok(MARK);
            }
            Ok(NOTHING)
        }
        Node::Split { bit, low, high } => {
            if let Some(r) = tables.picked.recall(id, value) {
                return Ok(r);
            }
            let a = picked(tables, value, low)?;
            let b = picked(tables, value, high)?;
            let result = split(tables, bit, a, b)?;
            let known = Combination {
                first: id,
                second: value,
                result,
            };
            tables
                .picked
                .remember(tables.alloc, tables.table.nodes.len(), known);
            Ok(result)
        }
    }
}
