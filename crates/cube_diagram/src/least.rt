//! The least header that has a value.

ghost use Rattle.std.specs.Prelude.{◌≡◌, ◌≢◌, ◌<◌, length};
ghost use Rattle.cube_diagram.specs.Nodes.{IsReduced};
ghost use Rattle.cube_diagram.specs.Images.{IsLeast};

use crate::table::{NOTHING, Node, NodeTable};

/// The least of the headers, by their numbers, to which the number gives a value: it leaves every bit before its own 0.
/// The number gives one to some header.
pub(crate) fn least(table: &NodeTable, id: u32) -> u128
    requires reduced { IsReduced table.now.nodes.items }
    requires id { id < length table.now.nodes.items }
    requires some { id ≢ 0 }
    ensures { IsLeast table.now.nodes.items id result }
{
    let Node::Split { bit, low, high } = table.node_at(id) else {
        return 0;
    };
    if low != NOTHING {
        return least(table, low);
    }
    (1u128 << (111 - bit)) + least(table, high)
}
