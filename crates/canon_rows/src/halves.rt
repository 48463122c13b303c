//! The halves of a list of pieces at a bit, and the rows of two halves put together. A bit is told by its `shift`: its
//! weight is `2 ^ shift`.
//!
//! Each works on the bits from one on to the last: the bits before it have been taken off, so
//! masks are numbers below `2 ^ width`, and the first bit that is left has the weight
//! `2 ^ (width - 1)`.

ghost use Rattle.std.specs.Prelude.{◌≡◌, ◌<◌, ◌≤◌, ◌^◌, ◌+◌, ℕ, false, All, [], ◌∷◌, IfOk, IfSome, map};
ghost use Rattle.std.specs.Option.{option_to_list};
ghost use Rattle.canon_rows.specs.Pieces.{value_of, with_top};
ghost use Rattle.canon_rows.specs.PlainRows.{plain, whole, with_zero, with_one};

use crate::Piece;
use hdr_bits::Cube;
use no_memory::NoMemory;
use std::alloc::Global;

// Whether some piece has a digit at the bit of weight 2 ^ shift.
pub(crate) fn is_split(pieces: &[Piece], shift: u32) -> bool
    requires { shift < 112 }
    ensures { result ≡ false → All (λ p. p.cube.fixed < 2 ^ shift) pieces.now }
{
    let weight = weight(shift);
    pieces.iter().any(|p| p.cube.fixed >= weight)
}

// 2 ^ shift
#[tactic(auto, using(crate::proofs::HalfMasks::room))]
pub(crate) fn weight(shift: u32) -> u128
    requires { shift < 112 }
    ensures value { result ≡ 2 ^ shift }
    ensures room { result + result ≤ 2 ^ 112 }
{
    1 << shift
}

// The function where the bit is 0, or where it is 1.
pub(crate) fn half(
    alloc: Global,
    pieces: &[Piece],
    shift: u32,
    high: bool,
) -> Result<Vec<Piece>, NoMemory>
    requires shift { shift < 112 }
    requires within { All (λ p. p.cube.fixed < 2 ^ (shift + 1)) pieces.now }
    ensures within { IfOk result (λ r. All (λ p. p.cube.fixed < 2 ^ shift) r.items) }
    ensures value { IfOk result
        (λ r. (n : ℕ) → n < 2 ^ shift → value_of r.items n ≡ value_of pieces.now (with_top high shift n)) }
{
    let mut kept = Vec::new(alloc);
    for p in pieces {
        if let Some(part) = part_of(p, shift, high) {
            kept.push(part)?;
        }
    }
    Ok(kept)
}

// The part of a piece where the bit is 0, or where it is 1.
#[tactic(auto, using(crate::proofs::PieceParts::gives_star, crate::proofs::PieceParts::gives_low, crate::proofs::PieceParts::gives_high, crate::proofs::PieceParts::gives_low_not, crate::proofs::PieceParts::gives_high_not, crate::proofs::HalfMasks::digits_of_half, crate::proofs::HalfMasks::digits_of_half_high))]
pub(crate) fn part_of(p: &Piece, shift: u32, high: bool) -> Option<Piece>
    requires shift { shift < 112 }
    requires within { p.now.cube.fixed < 2 ^ (shift + 1) }
    ensures within { IfSome result (λ q. q.cube.fixed < 2 ^ shift) }
    ensures value { (n : ℕ) → n < 2 ^ shift → value_of (option_to_list result) n ≡ value_of (p.now ∷ []) (with_top high shift n) }
{
    let weight = weight(shift);
    let Cube { fixed, bits } = p.cube;
    if fixed < weight {
        return Some(*p);
    }
    if high {
        if bits < weight {
            return None;
        }
        let cube = Cube {
            fixed: fixed - weight,
            bits: bits - weight,
        };
        return Some(Piece {
            cube,
            value: p.value,
        });
    }
    if bits >= weight {
        return None;
    }
    let cube = Cube {
        fixed: fixed - weight,
        bits,
    };
    Some(Piece {
        cube,
        value: p.value,
    })
}

// The rows of both halves, with a digit at this bit.
pub(crate) fn joined(
    alloc: Global,
    low: &[Piece],
    high: &[Piece],
    shift: u32,
) -> Result<Vec<Piece>, NoMemory>
    requires shift { shift < 112 }
    requires low { All (λ p. p.cube.fixed < 2 ^ shift) low.now }
    requires high { All (λ p. p.cube.fixed < 2 ^ shift) high.now }
    ensures rows { IfOk result (λ r. map plain r.items ≡ whole shift (map plain low.now) (map plain high.now)) }
    ensures within { IfOk result (λ r. All (λ p. p.cube.fixed < 2 ^ (shift + 1)) r.items) }
{
    let mut all = Vec::new(alloc);
    for p in low {
        all.push(zero_at(p, shift))?;
    }
    for q in high {
        all.push(one_at(q, shift))?;
    }
    Ok(all)
}

// The piece with the digit 0 at this bit.
#[tactic(auto, using(crate::proofs::HalfMasks::digits_low))]
pub(crate) fn zero_at(p: &Piece, shift: u32) -> Piece
    requires shift { shift < 112 }
    requires within { p.now.cube.fixed < 2 ^ shift }
    ensures { plain result ≡ with_zero shift (plain p.now) }
{
    Piece {
        cube: Cube {
            fixed: p.cube.fixed + weight(shift),
            bits: p.cube.bits,
        },
        value: p.value,
    }
}

// The piece with the digit 1 at this bit.
#[tactic(auto, using(crate::proofs::HalfMasks::digits_high))]
pub(crate) fn one_at(p: &Piece, shift: u32) -> Piece
    requires shift { shift < 112 }
    requires within { p.now.cube.fixed < 2 ^ shift }
    ensures { plain result ≡ with_one shift (plain p.now) }
{
    let weight = weight(shift);
    Piece {
        cube: Cube {
            fixed: p.cube.fixed + weight,
            bits: p.cube.bits + weight,
        },
        value: p.value,
    }
}
