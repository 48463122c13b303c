//! From the leaves of a slot to its rows.

ghost use Rattle.std.specs.Prelude.{ℕ, ◌≡◌, ◌<◌, ◌^◌, ◌++◌, AllPairs, IfOk, IfSome, IsTrue};
ghost use Rattle.hdr_bits.specs.Rows.{ComesBefore};
ghost use Rattle.pair_rows.specs.Pairs.{AreRowsFor, AreRowsWithPairs, cubes_of};
ghost use Rattle.pair_rows.specs.Slots.{HoldsHeader};

use crate::kept::Pairing;
use crate::order::comes_before;
use crate::region_rows::RegionRows;
use crate::splitter::PairSource;
use crate::work::rows_of_function;
use cube_alg::Region;
use net_types::{NoMemory, Row};
use std::alloc::Global;
use task_board::Leaf;

/// The rows of the slot: those of its leaves, which are to hold all its headers.
///
/// That the rows of the leaves are one list of rows is seen as they are put together. Were it not so, they are found by the
/// slot's function.
pub(crate) fn rows_of_slot<M: PairSource<K>, K: Pairing>(
    alloc: Global,
    source: &M,
    slot: u32,
    leaves: Vec<Leaf<RegionRows<K>>>,
) -> Result<Vec<Row>, NoMemory>
    ensures { ((h : ℕ) → h < 2 ^ 112 → HoldsHeader slot leaves.items h) → IfOk result (λ rows. AreRowsWithPairs (K.gives slot) rows.items) }
{
    if let Some(rows) = joined_rows(alloc, slot, leaves)? {
        return Ok(rows);
    }
    let given = source.function(alloc, slot)?;
    let rows = rows_of_function(alloc, &given)?;
    Ok(rows)
}

// The rows of the leaves together, if each leaf has those of its own region of the slot, and they are in order.
fn joined_rows<K: Pairing>(
    alloc: Global,
    slot: u32,
    leaves: Vec<Leaf<RegionRows<K>>>,
) -> Result<Option<Vec<Row>>, NoMemory>
    ensures { IfOk result (λ found. IfSome found (λ rows. AreRowsFor (K.gives slot) (HoldsHeader slot leaves.items) rows.items)) }
{
    // Where two regions part, one has 0 and the other 1, so its bits are the smaller number.
    let mut leaves = leaves;
    leaves.sort_by_key(|leaf| leaf.region.cube.bits)?;
    let mut rows = Vec::new(alloc);
    for leaf in leaves {
        let Leaf { region, value } = leaf;
        let own = Region {
            slot,
            cube: region.cube,
        };
        let Some(more) = value.of_region(&own) else {
            return Ok(None);
        };
        let is_next = add_behind(&mut rows, more)?;
        if !is_next {
            return Ok(None);
        }
    }
    Ok(Some(rows))
}

// Adds rows behind the others, if that leaves all in order; says whether it does.
fn add_behind(rows: &mut Vec<Row>, more: Vec<Row>) -> Result<bool, NoMemory>
    ensures added { IfOk result (λ is_next. IsTrue is_next → rows.new.items ≡ rows.old.items ++ more.items) }
    ensures ordered { IfOk result (λ is_next. IsTrue is_next → AllPairs ComesBefore (cubes_of rows.old.items) → AllPairs ComesBefore (cubes_of more.items) → AllPairs ComesBefore (cubes_of (rows.old.items ++ more.items))) }
{
    if !come_before(rows, &more) {
        return Ok(false);
    }
    let mut more = more;
    rows.append(&mut more)?;
    Ok(true)
}

// Whether the last of the rows comes before the first of these.
fn come_before(rows: &[Row], more: &[Row]) -> bool
    ensures { IsTrue result → AllPairs ComesBefore (cubes_of rows.now) → AllPairs ComesBefore (cubes_of more.now) → AllPairs ComesBefore (cubes_of (rows.now ++ more.now)) }
{
    let Some(last) = rows.last() else {
        return true;
    };
    let Some(first) = more.first() else {
        return true;
    };
    comes_before(&last.cube, &first.cube)
}
