//! A function whose values are told anew.

ghost use Rattle.std.specs.Prelude.{◌<◌, ◌≡◌, Some, IfOk, OnOk, length, nat_eq};
ghost use Rattle.indexmap.specs.IndexMap.{get};
ghost use Rattle.hdr_bits.specs.Lists.{Extends};
ghost use Rattle.cube_diagram.specs.Combined.{IsSound};
ghost use Rattle.cube_diagram.specs.Images.{IsRetold, AreRetold, IsConstant, retold};

use crate::combine::{Tables, add, split};
use crate::table::{NOTHING, Node};
use indexmap::IndexMap;
use no_memory::NoMemory;

/// The number that gives what the list tells of the values that this number gives. What is known of other numbers
/// is used again.
pub(crate) fn retold(
    tables: &mut Tables,
    told: &[Option<u32>],
    id: u32,
    known: &mut IndexMap<u32, u32>,
) -> Result<u32, NoMemory>
    requires sound { IsSound tables.old }
    requires id { id < length tables.old.table.nodes.items }
    requires known { AreRetold tables.old.table.nodes.items told.now (get nat_eq known.old) }
    ensures retold { IfOk result (IsRetold tables.new.table.nodes.items told.now id) }
    ensures known { OnOk result (AreRetold tables.new.table.nodes.items told.now (get nat_eq known.new)) }
    ensures grows { Extends tables.old.table.nodes.items tables.new.table.nodes.items }
    ensures sound { IsSound tables.new }
{
    match tables.table.node_at(id) {
        Node::Nothing => Ok(NOTHING),
        Node::Value { value } => {
            let r = constant(tables, told_of(told, value))?;
            Ok(r)
        }
        Node::Split { bit, low, high } => {
            if let Some(r) = known.get(&id) {
                return Ok(*r);
            }
            let a = retold(tables, told, low, known)?;
            let b = retold(tables, told, high, known)?;
            let result = split(tables, bit, a, b)?;
            known.insert(id, result)?;
            Ok(result)
        }
    }
}

// What the list tells of the value.
fn told_of(told: &[Option<u32>], value: u32) -> Option<u32>
    ensures { result ≡ retold told.now (Some value) }
{
    match told.get(value as usize) {
        Some(next) => *next,
        None => None,
    }
}

/// The number that gives this to all headers.
pub(crate) fn constant(tables: &mut Tables, value: Option<u32>) -> Result<u32, NoMemory>
    requires sound { IsSound tables.old }
    ensures constant { IfOk result (IsConstant tables.new.table.nodes.items value) }
    ensures grows { Extends tables.old.table.nodes.items tables.new.table.nodes.items }
    ensures sound { IsSound tables.new }
{
    let Some(value) = value else {
        return Ok(NOTHING);
    };
    let r = add(tables, Node::Value { value })?;
    Ok(r)
}
