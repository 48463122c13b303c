//! The call.

ghost use Rattle.std.specs.Prelude.{◌≡◌, ◌<◌, ◌^◌, ℕ, IfOk, Some, AllPairs, Any, length, slice_get};
ghost use Rattle.task_board.specs.Regions.{Holds, LieApart};
ghost use Rattle.pair_rows.specs.declared.leaves.SlotRows.{SlotRows};
ghost use Rattle.pair_rows.specs.Pairs.{AreRowsWithPairs};

use crate::kept::{Pairing, SlotFunction};
use crate::leaves::{SlotRows, rows_of_leaves};
use crate::splitter::{BySlots, PairSource};
use cube_alg::Region;
use hdr_bits::Cube;
use net_types::NoMemory;
use once_cell::race::OnceBox;
use std::alloc::Global;
use std::marker::PhantomData;
use std::sync::Wait;
use std::thread::Threads;
use steal_pool::{Gate, Workers, run, whole_slots};

// How many rows of a region are read off at once where the region may be divided among workers.
const ROWS_AT_ONCE: usize = 1_024;

/// The rows of each of so many slots: in each slot the canonical rows of the function from headers to pairs that the source
/// makes for it, each row with its pair.
///
/// They are the same for each number of workers. It answers `NoMemory` only where there was none.
pub fn rows_by_workers<
    M: PairSource<K> + Sync,
    K: Pairing + Send + Sync,
    G: Gate + Sync,
    R: Threads + Wait + Sync,
>(by: &Workers<R, G>, alloc: Global, source: &M, slots: usize) -> Result<Vec<SlotRows>, NoMemory>
    requires few { slots < 2 ^ 32 }
    ensures count { IfOk result (λ all. length all.items ≡ slots) }
    ensures rows { IfOk result (λ all. (k : ℕ) (s : SlotRows) → slice_get all.items k ≡ Some s → AreRowsWithPairs (K.gives k) s.rows.items) }
{
    let cells: Vec<OnceBox<SlotFunction<K>>> = empty_cells(alloc, slots)?;
    let roots = whole_slots(alloc, slots)?;
    let splitter = BySlots {
        source,
        cells: cells.as_slice(),
        most: most_at_once(by.count),
        pairing: PhantomData,
    };
    let leaves = run(by, alloc, roots.as_slice(), splitter)?;
    let all = rows_of_leaves(by, alloc, source, slots, leaves)?;
    Ok(all)
}

// How many rows of a region are read off at once. One worker has nobody to share with.
fn most_at_once(workers: u32) -> usize {
    if workers == 1 {
        usize::MAX
    } else {
        ROWS_AT_ONCE
    }
}

// A cell for each slot.
fn empty_cells<K: Pairing>(
    alloc: Global,
    slots: usize,
) -> Result<Vec<OnceBox<SlotFunction<K>>>, NoMemory> {
    let mut cells = Vec::with_capacity(alloc, slots)?;
    for _ in 0..slots {
        cells.push(OnceBox::new(alloc))?;
    }
    Ok(cells)
}
