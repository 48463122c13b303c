//! Work on one region, by the function of its slot.

ghost use Rattle.std.specs.Prelude.{ℕ, Option, IfOk, IfSome};
ghost use Rattle.hdr_bits.specs.CubeBits.{IsIn};
ghost use Rattle.steal_pool.specs.Work.{IsWorkOf};
ghost use Rattle.pair_rows.specs.Functions.{IsFunctionOf};
ghost use Rattle.pair_rows.specs.Pairs.{Pair, AreRowsFor, AreRowsWithPairs};
ghost use Rattle.pair_rows.specs.Work.{holds_all};

use crate::function::PairFunction;
use crate::kept::Pairing;
use crate::region_rows::RegionRows;
use cube_alg::{OnCube, Region};
use hdr_bits::Cube;
use net_types::{NoMemory, Row};
use std::alloc::Global;
use steal_pool::{Worked, halves};

/// The rows of the region by the function, where these are at most so many, or else the region's two halves at the first
/// bit at which the function divides it.
pub(crate) fn work_on<K: Pairing>(
    alloc: Global,
    given: &PairFunction,
    region: &Region,
    most: usize,
) -> Result<Worked<RegionRows<K>>, NoMemory>
    requires { IsFunctionOf (K.gives region.now.slot) given.now }
    ensures { IfOk result (IsWorkOf holds_all region.now) }
{
    let rows = rows_within(alloc, given, &region.cube, most)?;
    if rows.is_some() {
        let value = RegionRows::of(*region, rows);
        return Ok(Worked::Whole { value });
    }
    match given.table.divide(given.function, &region.cube) {
        OnCube::All { .. } => {
            let value = RegionRows::of(*region, None);
            Ok(Worked::Whole { value })
        }
        OnCube::Divides { bit } => {
            let parts = halves(alloc, region, bit)?;
            Ok(Worked::Parts { parts })
        }
    }
}

// The rows of the function in the cube, where these are at most so many.
fn rows_within(
    alloc: Global,
    given: &PairFunction,
    cube: &Cube,
    most: usize,
) -> Result<Option<Vec<Row>>, NoMemory>
    ensures { IfOk result (λ found. IfSome found (λ rows. (g : ℕ → Option Pair) → IsFunctionOf g given.now → AreRowsFor g (IsIn cube.now) rows.items)) }
{
    let Some(pieces) = given.table.rows_within(alloc, given.function, cube, most)? else {
        return Ok(None);
    };
    let rows = given.pairs.rows_of(alloc, &pieces)?;
    Ok(Some(rows))
}

/// All rows of the function, each with the pair of its headers.
///
/// It answers `NoMemory` only where there was none.
pub fn rows_of_function(alloc: Global, given: &PairFunction) -> Result<Vec<Row>, NoMemory>
    ensures { IfOk result (λ rows. (g : ℕ → Option Pair) → IsFunctionOf g given.now → AreRowsWithPairs g rows.items) }
{
    let pieces = given.table.rows(alloc, given.function)?;
    let rows = given.pairs.rows_of(alloc, &pieces)?;
    Ok(rows)
}
