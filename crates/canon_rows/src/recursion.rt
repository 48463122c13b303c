//! The same rows by a plain recursion over the bits, which compares whole lists of rows.

ghost use Rattle.std.specs.Prelude.{◌≡◌, ◌<◌, ◌≤◌, ◌^◌, ◌↔◌, All, IfOk, IsTrue, map};
ghost use Rattle.hdr_bits.specs.Rows.{AreRows};
ghost use Rattle.canon_rows.specs.Pieces.{value_of, HasValue};
ghost use Rattle.canon_rows.specs.PlainRows.{plain, IsRowsOf};

use crate::halves::{half, is_split, joined};
use crate::{BITS, Piece};
use no_memory::NoMemory;
use std::alloc::Global;

/// The rows of the function that the pieces define, exactly as [`canon`](crate::canon) gives them.
///
/// It is the shorter program of the two, and takes longer. It answers `NoMemory` only where there was
/// none.
pub fn canon_by_recursion(alloc: Global, pieces: &[Piece]) -> Result<Vec<Piece>, NoMemory>
    ensures rows { IfOk result (λ rows. AreRows (value_of pieces.now) (map (λ p. p.cube) rows.items)) }
    ensures values { IfOk result (λ rows. All (HasValue (value_of pieces.now)) rows.items) }
{
    rows(alloc, pieces, BITS)
}

// The rows on the numbers below 2 ^ width.
fn rows(alloc: Global, pieces: &[Piece], width: u32) -> Result<Vec<Piece>, NoMemory>
    requires width { width ≤ 112 }
    requires within { All (λ p. p.cube.fixed < 2 ^ width) pieces.now }
    ensures rows { IfOk result (λ r. IsRowsOf width (value_of pieces.now) (map plain r.items)) }
    ensures within { IfOk result (λ r. All (λ p. p.cube.fixed < 2 ^ width) r.items) }
{
    let mut alone = Vec::new(alloc);
    let Some(first) = pieces.first() else {
        return Ok(alone);
    };
    if width == 0 {
        alone.push(*first)?;
        return Ok(alone);
    }
    let shift = width - 1;
    if !is_split(pieces, shift) {
        return rows(alloc, pieces, shift);
    }
    let zeros = half(alloc, pieces, shift, false)?;
    let low = rows(alloc, &zeros, shift)?;
    let ones = half(alloc, pieces, shift, true)?;
    let high = rows(alloc, &ones, shift)?;
    if is_same(&low, &high) {
        return Ok(low);
    }
    joined(alloc, &low, &high, shift)
}

// Whether two lists of rows are equal.
fn is_same(low: &[Piece], high: &[Piece]) -> bool
    ensures { IsTrue result ↔ (map plain low.now ≡ map plain high.now) }
{
    low == high
}
