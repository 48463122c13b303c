//! The cut of a region by first match: disjoint parts, each with the value of the first piece that holds its headers.

ghost use Rattle.std.specs.Prelude.{◌≡◌, ◌<◌, ◌^◌, ◌-◌, ℕ, Some, All, AllPairs, Any, IfOk, OnOk, IfSome, IsNone, bit_and};
ghost use Rattle.hdr_bits.specs.Bits.{bit_of};
ghost use Rattle.hdr_bits.specs.CubeBits.{IsIn, IsStar};
ghost use Rattle.cube_alg.specs.Pairs.{Meets, IsInside};
ghost use Rattle.cube_alg.specs.Rest.{Narrows};

use crate::pair::{is_wider, meets, split};
use hdr_bits::Cube;
use no_memory::NoMemory;
use std::alloc::Global;

/// A cube with a value for its headers. In a list the first piece that holds a header decides.
#[derive(Clone, Copy, PartialEq, Eq, Debug)]
pub struct Piece {
    pub cube: Cube,
    pub value: u32,
}

ghost use Rattle.cube_alg.specs.Pieces.{value_of, AreApartPieces, AreStarsAt, AddsCut};

/// Disjoint pieces that give each header what the first of these pieces that holds it gives, in an order of
/// their own. Where the last of the pieces is the cube of all headers they cover all headers. They fix no bit that no piece fixes.
pub fn first_cut(alloc: Global, pieces: &[Piece]) -> Result<Vec<Piece>, NoMemory>
    ensures apart { IfOk result (λ r. AllPairs AreApartPieces r.items) }
    ensures exact { IfOk result (λ r. (h : ℕ) → value_of r.items h ≡ value_of pieces.now h) }
    ensures each { IfOk result
        (λ r. All (λ p. (h : ℕ) → IsIn p.cube h → value_of pieces.now h ≡ Some p.value) r.items) }
    ensures holder { IfOk result
        (λ r. (h v : ℕ) → value_of pieces.now h ≡ Some v → Any (λ p. IsIn p.cube h) r.items) }
    ensures stars { IfOk result (λ r. (k : ℕ) → k < 112 → AreStarsAt pieces.now k → AreStarsAt r.items k) }
{
    let parts = cut_within(alloc, pieces, &Cube::all())?;
    Ok(parts)
}

/// Disjoint parts of the region that give each of its headers what the first of these pieces that holds it
/// gives. They fix no bit that neither the region nor a piece fixes. No piece that has no header of the region costs more
/// than one test.
pub fn cut_within(alloc: Global, pieces: &[Piece], region: &Cube) -> Result<Vec<Piece>, NoMemory>
    ensures inside { IfOk result (λ r. All (λ p. IsInside p.cube region.now) r.items) }
    ensures apart { IfOk result (λ r. AllPairs AreApartPieces r.items) }
    ensures exact { IfOk result (λ r. (h : ℕ) → IsIn region.now h → value_of r.items h ≡ value_of pieces.now h) }
    ensures each { IfOk result
        (λ r. All (λ p. (h : ℕ) → IsIn p.cube h → value_of pieces.now h ≡ Some p.value) r.items) }
    ensures holder { IfOk result
        (λ r. (h v : ℕ) → IsIn region.now h → value_of pieces.now h ≡ Some v → Any (λ p. IsIn p.cube h) r.items) }
    ensures stars { IfOk result (λ r. (k : ℕ) → k < 112 → IsStar region.now k → AreStarsAt pieces.now k → AreStarsAt r.items k) }
{
    let there = meeting(alloc, pieces, region)?;
    let mut parts = Vec::new(alloc);
    add_cut(alloc, &there, *region, &mut parts)?;
    Ok(parts)
}

// Adds a cut of the cube by pieces that each have headers in it.
fn add_cut(
    alloc: Global,
    pieces: &[Piece],
    node: Cube,
    parts: &mut Vec<Piece>,
) -> Result<(), NoMemory>
    requires meets { All (λ p. Meets p.cube node) pieces.now }
    ensures { OnOk result (AddsCut node pieces.now parts.old.items parts.new.items) }
{
    let Some(first) = pieces.first() else {
        return Ok(());
    };
    if let Some(value) = settled(pieces, &node) {
        parts.push(Piece { cube: node, value })?;
        return Ok(());
    }
    let Some(bit) = free_bit(&first.cube, &node) else {
        parts.push(Piece {
            cube: node,
            value: first.value,
        })?;
        return Ok(());
    };
    let (low, high) = split(&node, bit);
    let zeros = meeting(alloc, pieces, &low)?;
    add_cut(alloc, &zeros, low, parts)?;
    let ones = meeting(alloc, pieces, &high)?;
    add_cut(alloc, &ones, high, parts)?;
    Ok(())
}

// The one value of all headers of the cube, where it is soon seen: the pieces up to the first one that
// covers the cube have one value.
fn settled(pieces: &[Piece], node: &Cube) -> Option<u32>
    requires meets { All (λ p. Meets p.cube node.now) pieces.now }
    ensures { IfSome result (λ v. (h : ℕ) → IsIn node.now h → value_of pieces.now h ≡ Some v) }
{
    let first = pieces.first()?;
    for p in pieces {
        if p.value != first.value {
            return None;
        }
        if is_wider(&p.cube, node) {
            return Some(p.value);
        }
    }
    None
}

// The first bit where the cube has a digit and the node has none.
pub(crate) fn free_bit(cube: &Cube, node: &Cube) -> Option<u32>
    ensures none { IsNone result → bit_and cube.now.fixed node.now.fixed ≡ cube.now.fixed }
    ensures bit { IfSome result (Narrows cube.now node.now) }
    ensures first { IfSome result (λ k. (i : ℕ) → i < k → Narrows cube.now node.now i → ⊥) }
{
    let free = cube.fixed ^ (cube.fixed & node.fixed);
    if free == 0 {
        return None;
    }
    Some(free.leading_zeros() - 16)
}

// The pieces with headers in the cube, up to one that holds it whole.
fn meeting(alloc: Global, pieces: &[Piece], node: &Cube) -> Result<Vec<Piece>, NoMemory>
    ensures meets { IfOk result (λ r. All (λ p. Meets p.cube node.now) r.items) }
    ensures value { IfOk result (λ r. (h : ℕ) → IsIn node.now h → value_of r.items h ≡ value_of pieces.now h) }
    ensures stars { IfOk result (λ r. (k : ℕ) → AreStarsAt pieces.now k → AreStarsAt r.items k) }
{
    let mut kept = Vec::new(alloc);
    for p in pieces {
        if !meets(&p.cube, node) {
            continue;
        }
        kept.push(*p)?;
        if is_wider(&p.cube, node) {
            return Ok(kept);
        }
    }
    Ok(kept)
}
