//! A meaning, and settles by it.
ghost use Rattle.std.specs.Prelude.{ℕ, ◌≡◌, ◌<◌, ◌∷◌, [], AllPairs, IfOk};
ghost use Rattle.hdr_bits.specs.CubeBits.{IsStar};
ghost use Rattle.task_board.specs.Regions.{LieApart};

use chunk_rope::Rope;
use cube_alg::{Region, split};
use hdr_bits::Cube;
use no_memory::NoMemory;
use std::alloc::Global;
use task_board::{Board, Leaf, Meaning, Part, Strange};

/// Every header of slot 1 has the value 7, and no other has one, whatever the mark.
#[derive(Clone, Copy, PartialEq, Eq)]
pub struct Sample {
    pub mark: u64,
}

impl Meaning for Sample {
    type Value = u64;

    ghost use Rattle.std.specs.Prelude.{Some, None, ◌==◌, if◌then◌else◌, refl};

    ghost gives = { λ _ slot _. if slot == 1 then Some 7 else None };

    ghost same = { λ a b e slot h. refl };
}

/// All headers of the slot.
pub fn root(slot: u32) -> Region
    ensures slot { result.slot ≡ slot }
    ensures stars { (k : ℕ) → k < 112 → IsStar result.cube k }
{
    Region {
        slot,
        cube: Cube::all(),
    }
}

pub fn two_roots() -> [Region; 2]
    ensures { AllPairs LieApart result }
{
    [root(0), root(1)]
}

/// What comes of a settle.
pub type Settled = Result<(), Strange<Sample>>;

/// Settles a region of slot 0, which has no value.
pub fn settle_nothing(
    alloc: Global,
    board: &mut Board<Sample>,
    meaning: &Sample,
    ticket: u64,
    region: &Region,
) -> Settled
    requires { region.now.slot ≡ 0 }
{
    board.settle(meaning, ticket, region, Rope::new(alloc), &mut [])
}

// The region as one leaf with the value 7.
fn one_leaf(alloc: Global, region: &Region) -> Result<Rope<Leaf<u64>>, NoMemory>
    ensures { IfOk result (λ r. r.items ≡ record { region = region.now; value = 7 } ∷ []) }
{
    let mut finished = Rope::new(alloc);
    finished.reserve(1)?;
    finished.push_reserved(Leaf {
        region: *region,
        value: 7,
    });
    Ok(finished)
}

/// Settles a region of slot 1 as one leaf.
pub fn settle_whole(
    alloc: Global,
    board: &mut Board<Sample>,
    meaning: &Sample,
    ticket: u64,
    region: &Region,
) -> Result<Settled, NoMemory>
    requires { region.now.slot ≡ 1 }
{
    let finished = one_leaf(alloc, region)?;
    Ok(board.settle(meaning, ticket, region, finished, &mut []))
}

/// Settles a region in its two halves by this bit.
pub fn settle_halves(
    alloc: Global,
    board: &mut Board<Sample>,
    meaning: &Sample,
    ticket: u64,
    region: &Region,
    bit: u32,
) -> Result<Option<[Part; 2]>, NoMemory>
    requires within { bit < 112 }
    requires star { IsStar region.now.cube bit }
{
    board.make_room(2)?;
    let (zero, one) = split(&region.cube, bit);
    let low = Region {
        slot: region.slot,
        cube: zero,
    };
    let high = Region {
        slot: region.slot,
        cube: one,
    };
    let mut parts = [
        Part {
            region: low,
            ticket: 0,
        },
        Part {
            region: high,
            ticket: 0,
        },
    ];
    match board.settle(meaning, ticket, region, Rope::new(alloc), &mut parts) {
        Ok(()) => Ok(Some(parts)),
        Err(_) => Ok(None),
    }
}
