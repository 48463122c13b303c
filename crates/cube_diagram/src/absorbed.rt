//! The functions of another table, all of them, with other numbers as values.

ghost use Rattle.std.specs.Prelude.{◌≡◌, ◌<◌, Some, IfOk, length, slice_get};
ghost use Rattle.hdr_bits.specs.Lists.{Extends};
ghost use Rattle.cube_diagram.specs.Absorbed.{AreAbsorbed, IsAbsorbed, renumbered};
ghost use Rattle.cube_diagram.specs.Combined.{IsSound};
ghost use Rattle.cube_diagram.specs.Nodes.{IsReduced};

use crate::combine::{Tables, add, split};
use crate::table::{NOTHING, Node, NodeTable};
use no_memory::NoMemory;

/// For each number of the other table the number of its function here, with other values: those that stand at its own.
pub(crate) fn absorbed(
    tables: &mut Tables,
    source: &NodeTable,
    told: &[u32],
) -> Result<Vec<u32>, NoMemory>
    requires sound { IsSound tables.old }
    requires reduced { IsReduced source.now.nodes.items }
    ensures count { IfOk result (λ r. length r.items ≡ length source.now.nodes.items) }
    ensures absorbed { IfOk result (λ r. AreAbsorbed source.now.nodes.items told.now tables.new.table.nodes.items r.items) }
    ensures grows { Extends tables.old.table.nodes.items tables.new.table.nodes.items }
    ensures sound { IsSound tables.new }
{
    let count = source.nodes.len();
    let mut numbers = Vec::with_capacity(tables.alloc, count)?;
    for i in 0..count {
        let number = absorbed_at(tables, source, i, told, &numbers)?;
        numbers.push(number)?;
    }
    Ok(numbers)
}

// The number here of the function at a position of the other table, where those of all before it are known.
fn absorbed_at(
    tables: &mut Tables,
    source: &NodeTable,
    i: usize,
    told: &[u32],
    numbers: &[u32],
) -> Result<u32, NoMemory>
    requires sound { IsSound tables.old }
    requires reduced { IsReduced source.now.nodes.items }
    requires position { i < length source.now.nodes.items }
    requires count { length numbers.now ≡ i }
    requires numbers { AreAbsorbed source.now.nodes.items told.now tables.old.table.nodes.items numbers.now }
    ensures absorbed { IfOk result (IsAbsorbed source.now.nodes.items told.now tables.new.table.nodes.items i) }
    ensures grows { Extends tables.old.table.nodes.items tables.new.table.nodes.items }
    ensures sound { IsSound tables.new }
{
    match source.nodes[i] {
        Node::Nothing => Ok(NOTHING),
        Node::Value { value } => {
            let value = renumbered(told, value);
            let r = add(tables, Node::Value { value })?;
            Ok(r)
        }
        Node::Split { bit, low, high } => {
            let a = numbers[low as usize];
            let b = numbers[high as usize];
            let r = split(tables, bit, a, b)?;
            Ok(r)
        }
    }
}

// The number that stands at the value; the value itself where none does.
fn renumbered(told: &[u32], value: u32) -> u32
    ensures { result ≡ renumbered told.now value }
{
    match told.get(value as usize) {
        Some(number) => *number,
        None => value,
    }
}
