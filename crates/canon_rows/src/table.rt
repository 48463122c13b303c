//! A table in which each function has one number: a reduced ordered decision diagram.

ghost use Rattle.std.specs.Prelude.{◌≡◌, ◌<◌, ◌≤◌, ◌^◌, ◌+◌, ℕ, List, Option, Some, All, [], ◌∷◌, IfOk, OnOk, map, slice_get};
ghost use Rattle.canon_rows.specs.Pieces.{value_of};
ghost use Rattle.canon_rows.specs.PlainRows.{Plain, plain, IsWellFormed, Each};
ghost use Rattle.hdr_bits.specs.Lists.{Extends};
ghost use Rattle.canon_rows.specs.Nodes.{one_row, StandsFor, IsNumberOf, AreHalvesOf, IsOfHalves, AreDistinct};

use crate::Piece;
use crate::halves::{half, is_split, joined, weight};
use hdr_bits::Cube;
use indexmap::IndexSet;
use no_memory::NoMemory;
use std::alloc::Global;

/// A function on the bits that are left, by its rows.
///
/// A function of two rows or more is cut at the first bit where its two halves differ, and found by
/// the bit and the numbers of these halves.
#[derive(Clone, Copy, PartialEq, Eq, Hash, Debug)]
pub(crate) enum Node {
    /// It has no row.
    NoRow,
    /// It has one row.
    OneRow { fixed: u128, bits: u128, value: u64 },
    /// It is the function `low` where the bit is 0, and the function `high` where it is 1.
    Halves { shift: u32, low: usize, high: usize },
}

/// The number of the function that the pieces define on the last `width` bits.
pub(crate) fn number_of_pieces(
    alloc: Global,
    nodes: &mut IndexSet<Node>,
    pieces: Vec<Piece>,
    width: u32,
) -> Result<usize, NoMemory>
    requires width { width ≤ 112 }
    requires within { All (λ p. p.cube.fixed < 2 ^ width) pieces.items }
    ensures number { IfOk result (λ id. IsNumberOf nodes.new.keys width id (value_of pieces.items)) }
    ensures grows { OnOk result (Extends nodes.old.keys nodes.new.keys) }
{
    let Some(first) = pieces.first() else {
        let id = number_of(nodes, Node::NoRow)?;
        return Ok(id);
    };
    if width == 0 || pieces.len() == 1 {
        let id = number_of(nodes, node_of_piece(first))?;
        return Ok(id);
    }
    let shift = width - 1;
    if !is_split(&pieces, shift) {
        let id = number_of_pieces(alloc, nodes, pieces, shift)?;
        return Ok(id);
    }
    let zeros = half(alloc, &pieces, shift, false)?;
    let ones = half(alloc, &pieces, shift, true)?;
    drop(pieces);
    let low = number_of_pieces(alloc, nodes, zeros, shift)?;
    let high = number_of_pieces(alloc, nodes, ones, shift)?;
    let id = number_of_halves(nodes, shift, low, high)?;
    Ok(id)
}

// The number of the function with these halves at this bit.
fn number_of_halves(
    nodes: &mut IndexSet<Node>,
    shift: u32,
    low: usize,
    high: usize,
) -> Result<usize, NoMemory>
    requires shift { shift < 112 }
    ensures number { IfOk result
        (λ id. (f g h : ℕ → Option ℕ) → AreHalvesOf shift f g h → IsNumberOf nodes.old.keys shift low g → IsNumberOf nodes.old.keys shift high h → IsNumberOf nodes.new.keys (shift + 1) id f) }
    ensures grows { OnOk result (Extends nodes.old.keys nodes.new.keys) }
{
    if low == high {
        return Ok(low);
    }
    let node = node_of_halves(nodes, shift, low, high);
    let id = number_of(nodes, node)?;
    Ok(id)
}

// The node of the function with these halves, which are two functions.
fn node_of_halves(nodes: &IndexSet<Node>, shift: u32, low: usize, high: usize) -> Node
    requires shift { shift < 112 }
    ensures { IsOfHalves nodes.now.keys shift low high result }
{
    let cut = Node::Halves { shift, low, high };
    let Some(zeros) = nodes.get_index(low) else {
        return cut;
    };
    let Some(ones) = nodes.get_index(high) else {
        return cut;
    };
    let weight = weight(shift);
    match (*zeros, *ones) {
        (Node::NoRow, Node::OneRow { fixed, bits, value }) => Node::OneRow {
            fixed: fixed | weight,
            bits: bits | weight,
            value,
        },
        (Node::OneRow { fixed, bits, value }, Node::NoRow) => Node::OneRow {
            fixed: fixed | weight,
            bits,
            value,
        },
        (Node::NoRow, Node::NoRow)
        | (Node::OneRow { .. }, Node::OneRow { .. })
        | (Node::Halves { .. }, _)
        | (_, Node::Halves { .. }) => cut,
    }
}

// The node of the function with this one row.
fn node_of_piece(p: &Piece) -> Node
    ensures { result ≡ one_row (plain p.now) }
{
    Node::OneRow {
        fixed: p.cube.fixed,
        bits: p.cube.bits,
        value: p.value,
    }
}

// The number of this node, which is added where the table lacks it.
fn number_of(nodes: &mut IndexSet<Node>, node: Node) -> Result<usize, NoMemory>
    ensures entry { IfOk result (λ id. slice_get nodes.new.keys id ≡ Some node) }
    ensures grows { OnOk result (Extends nodes.old.keys nodes.new.keys) }
    ensures distinct { OnOk result (AreDistinct nodes.new.keys) }
{
    let (id, _) = nodes.insert_full(node)?;
    Ok(id)
}

/// The rows of the function with this number on the last `width` bits.
///
/// A number that stands for no function has no rows.
pub(crate) fn rows_of(
    alloc: Global,
    nodes: &IndexSet<Node>,
    id: usize,
    width: u32,
) -> Result<Vec<Piece>, NoMemory>
    requires width { width ≤ 112 }
    ensures rows { IfOk result (λ r. (rows : List Plain) → Each (IsWellFormed width) rows → StandsFor nodes.now.keys width id rows → map plain r.items ≡ rows) }
    ensures within { IfOk result (λ r. All (λ p. p.cube.fixed < 2 ^ width) r.items) }
{
    let Some(node) = nodes.get_index(id) else {
        return Ok(Vec::new(alloc));
    };
    match *node {
        Node::NoRow => Ok(Vec::new(alloc)),
        Node::OneRow { fixed, bits, value } => alone(alloc, fixed, bits, value, width),
        Node::Halves { shift, low, high } => {
            if shift >= width {
                return Ok(Vec::new(alloc));
            }
            let zeros = rows_of(alloc, nodes, low, shift)?;
            let ones = rows_of(alloc, nodes, high, shift)?;
            joined(alloc, &zeros, &ones, shift)
        }
    }
}

// The row with these masks, where they are those of a cube of the last `width` bits.
fn alone(
    alloc: Global,
    fixed: u128,
    bits: u128,
    value: u64,
    width: u32,
) -> Result<Vec<Piece>, NoMemory>
    requires width { width ≤ 112 }
    ensures row { let row : Plain = record { fixed = fixed; bits = bits; value = value } in IfOk result (λ r. IsWellFormed width row → map plain r.items ≡ row ∷ []) }
    ensures within { IfOk result (λ r. All (λ p. p.cube.fixed < 2 ^ width) r.items) }
{
    let mut rows = Vec::new(alloc);
    if fixed < 1 << width && bits & fixed == bits {
        let cube = Cube { fixed, bits };
        rows.push(Piece { cube, value })?;
    }
    Ok(rows)
}
