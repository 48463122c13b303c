//! A function of headers in which some digits were written.

ghost use Rattle.std.specs.Prelude.{◌<◌, IfOk, OnOk, length, nat_eq};
ghost use Rattle.indexmap.specs.IndexMap.{get};
ghost use Rattle.hdr_bits.specs.Lists.{Extends};
ghost use Rattle.cube_diagram.specs.Combined.{IsSound};
ghost use Rattle.cube_diagram.specs.Images.{IsWritten, AreWritten, IsOverwritten};
ghost use Rattle.hdr_bits.specs.declared.header.Header.{Header};
ghost use Rattle.hdr_bits.specs.HeaderBits.{number, IsHeader};
ghost use Rattle.cube_alg.specs.Stamps.{applied};

use crate::combine::{Tables, split};
use crate::descent::is_one_at;
use crate::table::Node;
use cube_alg::Stamp;
use hdr_bits::Cube;
use indexmap::IndexMap;
use no_memory::NoMemory;

/// The digits that the stamp writes.
pub(crate) fn digits_of(stamp: Stamp) -> Cube
    ensures { (h : Header) → IsHeader h → IsOverwritten result (number h) (number (applied stamp h)) }
{
    stamp.forth(&Cube::all())
}

/// The number that gives a header what this number gives it once the cube's digits are written into it. What is known of
/// other numbers is used again.
pub(crate) fn written(
    tables: &mut Tables,
    cube: &Cube,
    id: u32,
    known: &mut IndexMap<u32, u32>,
) -> Result<u32, NoMemory>
    requires sound { IsSound tables.old }
    requires id { id < length tables.old.table.nodes.items }
    requires known { AreWritten tables.old.table.nodes.items cube.now (get nat_eq known.old) }
    ensures written { IfOk result (IsWritten tables.new.table.nodes.items cube.now id) }
    ensures known { OnOk result (AreWritten tables.new.table.nodes.items cube.now (get nat_eq known.new)) }
    ensures grows { Extends tables.old.table.nodes.items tables.new.table.nodes.items }
    ensures sound { IsSound tables.new }
{
    let Node::Split { bit, low, high } = tables.table.node_at(id) else {
        return Ok(id);
    };
    if is_one_at(cube.fixed, bit) {
        if is_one_at(cube.bits, bit) {
            let r = written(tables, cube, high, known)?;
            return Ok(r);
        }
        let r = written(tables, cube, low, known)?;
        return Ok(r);
    }
    if let Some(r) = known.get(&id) {
        return Ok(*r);
    }
    let a = written(tables, cube, low, known)?;
    let b = written(tables, cube, high, known)?;
    let result = split(tables, bit, a, b)?;
    known.insert(id, result)?;
    Ok(result)
}
