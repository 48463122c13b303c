//! The cubes of a function: the paths of its diagram.

ghost use Rattle.std.specs.Prelude.{◌≡◌, ◌<◌, ◌≤◌, ℕ, Option, IfOk, IsTrue, OnOk, length};
ghost use Rattle.hdr_bits.specs.CubeBits.{IsStar};
ghost use Rattle.cube_diagram.specs.Nodes.{IsReduced, tested_at};
ghost use Rattle.cube_diagram.specs.Paths.{IsPath, AddsRows, EndsPath};

use crate::descent::is_one_at;
use crate::table::{Node, NodeTable};
use cube_alg::{Piece, split};
use hdr_bits::Cube;
use no_memory::NoMemory;

/// The number at the end of a path.
#[derive(Clone, Copy, PartialEq, Eq, Debug)]
pub(crate) struct PathEnd {
    pub(crate) path: Cube,
    pub(crate) id: u32,
}

/// From the end of this path further down, by the digits that the cube has at the bits that are tested.
pub(crate) fn path_within(table: &NodeTable, id: u32, path: &Cube, cube: &Cube) -> PathEnd
    requires reduced { IsReduced table.now.nodes.items }
    requires id { id < length table.now.nodes.items }
    requires free { (k : ℕ) → tested_at table.now.nodes.items id ≤ k → k < 112 → IsStar path.now k }
    ensures below { result.id < length table.now.nodes.items }
    ensures free { (k : ℕ) → tested_at table.now.nodes.items result.id ≤ k → k < 112 → IsStar result.path k }
    ensures path { (value : ℕ → Option ℕ) (from : ℕ) → IsPath table.now.nodes.items value path.now from id → EndsPath table.now.nodes.items value result.path result.id }
{
    let end = PathEnd { path: *path, id };
    let Node::Split { bit, low, high } = table.node_at(id) else {
        return end;
    };
    if !is_one_at(cube.fixed, bit) {
        return end;
    }
    let (zeros, ones) = split(path, u32::from(bit));
    if is_one_at(cube.bits, bit) {
        path_within(table, high, &ones, cube)
    } else {
        path_within(table, low, &zeros, cube)
    }
}

/// Adds the rows of a function whose headers in this path's cube the number stands for, in order: one for each way down
/// to a value, with a digit at each bit that is tested on the way. It answers whether it added all of them, and ends
/// where there would be more than so many rows.
pub(crate) fn add_rows(
    table: &NodeTable,
    id: u32,
    path: &Cube,
    most: usize,
    rows: &mut Vec<Piece>,
) -> Result<bool, NoMemory>
    requires reduced { IsReduced table.now.nodes.items }
    requires id { id < length table.now.nodes.items }
    requires free { (k : ℕ) → tested_at table.now.nodes.items id ≤ k → k < 112 → IsStar path.now k }
    ensures rows { IfOk result
        (λ all. IsTrue all → (value : ℕ → Option ℕ) (from : ℕ) → IsPath table.now.nodes.items value path.now from id → AddsRows value path.now from rows.old.items rows.new.items) }
    ensures few { OnOk result (length rows.old.items ≤ most → length rows.new.items ≤ most) }
{
    match table.node_at(id) {
        Node::Nothing => Ok(true),
        Node::Value { value } => {
            if rows.len() >= most {
                return Ok(false);
            }
            rows.push(Piece { cube: *path, value })?;
            Ok(true)
        }
        Node::Split { bit, low, high } => {
            let (zeros, ones) = split(path, u32::from(bit));
            let has_zeros = add_rows(table, low, &zeros, most, rows)?;
            if !has_zeros {
                return Ok(false);
            }
            let has_ones = add_rows(table, high, &ones, most, rows)?;
            Ok(has_ones)
        }
    }
}
