//! The leaves of each slot, and its rows by them.

ghost use Rattle.std.specs.Prelude.{◌≡◌, ◌<◌, ◌^◌, ℕ, ⊤, List, [], ◌∷◌, ◌++◌, IfOk, OnOk, Some, length, map, slice_get, slice_index_or};
ghost use Rattle.task_board.specs.declared.leaf.Leaf.{Leaf as Area};
ghost use Rattle.pair_rows.specs.declared.leaves.SlotLeaves.{SlotLeaves};
ghost use Rattle.pair_rows.specs.declared.leaves.SlotRows.{SlotRows};
ghost use Rattle.pair_rows.specs.Pairs.{AreRowsWithPairs};
ghost use Rattle.pair_rows.specs.Slots.{AreSorted, HoldsHeader, IsMade, MakesRows};

use crate::joined::rows_of_slot;
use crate::kept::Pairing;
use crate::region_rows::RegionRows;
use crate::splitter::PairSource;
use chunk_rope::Rope;
use net_types::{NoMemory, Row};
use std::alloc::Global;
use std::mem;
use std::thread::{Threads, for_each_mut};
use steal_pool::Workers;
use task_board::Leaf;

/// The rows of one slot.
#[derive(Drop)]
pub struct SlotRows {
    pub rows: Vec<Row>,
}

/// The leaves of one slot, in the order in which they came, and then its rows: none until they are made, and where there was
/// no memory for them.
#[derive(Drop)]
pub(crate) struct SlotLeaves<K: Pairing> {
    pub(crate) leaves: Vec<Leaf<RegionRows<K>>>,
    pub(crate) rows: Option<Vec<Row>>,
}

/// The rows of each of so many slots, by leaves that hold all its headers. Each of the workers makes those of some slots.
pub(crate) fn rows_of_leaves<
    M: PairSource<K> + Sync,
    K: Pairing + Send + Sync,
    G,
    R: Threads + Sync,
>(
    by: &Workers<R, G>,
    alloc: Global,
    source: &M,
    slots: usize,
    leaves: Rope<Leaf<RegionRows<K>>>,
) -> Result<Vec<SlotRows>, NoMemory>
    requires few { slots < 2 ^ 32 }
    requires whole { (k h : ℕ) → k < slots → h < 2 ^ 112 → HoldsHeader k leaves.items h }
    ensures count { IfOk result (λ all. length all.items ≡ slots) }
    ensures rows { IfOk result (λ all. (k : ℕ) (s : SlotRows) → slice_get all.items k ≡ Some s → AreRowsWithPairs (K.gives k) s.rows.items) }
{
    let mut sorted = sorted_leaves(alloc, slots, leaves)?;
    make_rows(by, alloc, source, &mut sorted);
    let all = all_made(alloc, sorted)?;
    Ok(all)
}

// The leaves of each slot. What costs more than a move for each leaf is left to the workers.
fn sorted_leaves<K: Pairing>(
    alloc: Global,
    slots: usize,
    leaves: Rope<Leaf<RegionRows<K>>>,
) -> Result<Vec<SlotLeaves<K>>, NoMemory>
    ensures count { IfOk result (λ all. length all.items ≡ slots) }
    ensures sorted { IfOk result (λ all. AreSorted leaves.items all.items) }
{
    let mut all = empty_slots(alloc, slots)?;
    let mut leaves = leaves;
    while let Some(leaf) = leaves.pop_front() {
        add_leaf(leaf, &mut all)?;
    }
    Ok(all)
}

// So many slots without a leaf.
fn empty_slots<K: Pairing>(alloc: Global, slots: usize) -> Result<Vec<SlotLeaves<K>>, NoMemory>
    ensures count { IfOk result (λ all. length all.items ≡ slots) }
    ensures empty { IfOk result (λ all. AreSorted [] all.items) }
{
    let mut all = Vec::with_capacity(alloc, slots)?;
    for _ in 0..slots {
        all.push(SlotLeaves {
            leaves: Vec::new(alloc),
            rows: None,
        })?;
    }
    Ok(all)
}

// One leaf more.
fn add_leaf<K: Pairing>(
    leaf: Leaf<RegionRows<K>>,
    all: &mut Vec<SlotLeaves<K>>,
) -> Result<(), NoMemory>
    ensures count { length all.new.items ≡ length all.old.items }
    ensures sorted { OnOk result ((before : List (Area ⊤)) → AreSorted before all.old.items → AreSorted (before ++ leaf ∷ []) all.new.items) }
{
    let slot = leaf.region.slot as usize;
    if slot < all.len() {
        all[slot].leaves.push(leaf)?;
    }
    Ok(())
}

// Makes the rows of each slot, by these workers at most.
fn make_rows<M: PairSource<K> + Sync, K: Pairing + Send + Sync, G, R: Threads + Sync>(
    by: &Workers<R, G>,
    alloc: Global,
    source: &M,
    slots: &mut [SlotLeaves<K>],
)
    requires few { length slots.old < 2 ^ 32 }
    ensures count { length slots.new ≡ length slots.old }
    ensures made { (k : ℕ) (d : SlotLeaves K) → k < length slots.old → IsMade (K.gives k) k (slice_index_or slots.old k d) (slice_index_or slots.new k d) }
{
    for_each_mut(
        by.rt,
        slots,
        by.count as usize,
        &|number: usize, slot: &mut SlotLeaves<K>|
            requires { number < 2 ^ 32 }
            ensures { IsMade (K.gives number) number slot.entry.now slot.exit.now }
        {
            let leaves = mem::replace(&mut slot.leaves, Vec::new(alloc));
            slot.rows = rows_at(alloc, source, number as u32, leaves);
        },
    );
}

// The rows of the slot, where there is memory for them.
fn rows_at<M: PairSource<K>, K: Pairing>(
    alloc: Global,
    source: &M,
    slot: u32,
    leaves: Vec<Leaf<RegionRows<K>>>,
) -> Option<Vec<Row>>
    ensures { MakesRows (K.gives slot) slot leaves.items result }
{
    match rows_of_slot(alloc, source, slot, leaves) {
        Ok(rows) => Some(rows),
        Err(_) => None,
    }
}

// The rows of all slots, if those of each are made.
fn all_made<K: Pairing>(alloc: Global, made: Vec<SlotLeaves<K>>) -> Result<Vec<SlotRows>, NoMemory>
    ensures { IfOk result (λ all. map (λ s. Some s.rows) all.items ≡ map (λ m. m.rows) made.items) }
{
    let mut all = Vec::with_capacity(alloc, made.len())?;
    for slot in made {
        let slot = rows_made(slot)?;
        all.push(slot)?;
    }
    Ok(all)
}

// The rows of a slot, if they are made.
fn rows_made<K: Pairing>(slot: SlotLeaves<K>) -> Result<SlotRows, NoMemory>
    ensures { IfOk result (λ s. slot.rows ≡ Some s.rows) }
{
    let SlotLeaves { rows, .. } = slot;
    match rows {
        Some(rows) => Ok(SlotRows { rows }),
        None => Err(NoMemory),
    }
}
