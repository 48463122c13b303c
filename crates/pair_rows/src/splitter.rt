//! Work on the regions of all slots, by their functions.

ghost use Rattle.std.specs.Prelude.{IfOk};
ghost use Rattle.pair_rows.specs.Functions.{IsFunctionOf};

use crate::function::PairFunction;
use crate::kept::{Pairing, SlotFunction};
use crate::region_rows::RegionRows;
use crate::work::work_on;
use cube_alg::Region;
use net_types::NoMemory;
use once_cell::race::OnceBox;
use std::alloc::Global;
use std::marker::PhantomData;
use steal_pool::{Splitter, Worked};
use task_board::Meaning;

/// What makes the function of a slot. It is asked once for a slot, or once by each of several workers that come at the
/// same time.
pub trait PairSource<K: Pairing> {
    /// The function of the slot, in a table of its own.
    fn function(&self, alloc: Global, slot: u32) -> Result<PairFunction, NoMemory>
        ensures { IfOk result (IsFunctionOf (K.gives slot)) };
}

/// Finds the rows of the regions of a slot by its function, which is made where it isn't there yet. A region with more rows
/// than so many is halved.
///
/// Its meaning is named by its type, so any two are equal.
#[derive_where(Clone, Copy, PartialEq, Eq)]
pub(crate) struct BySlots<'a, M, K: Pairing> {
    #[derive_where(skip)]
    pub(crate) source: &'a M,
    #[derive_where(skip)]
    pub(crate) cells: &'a [OnceBox<SlotFunction<K>>],
    #[derive_where(skip)]
    pub(crate) most: usize,
    pub(crate) pairing: PhantomData<K>,
}

impl<'a, M, K: Pairing + Send> Meaning for BySlots<'a, M, K> {
    ghost use Rattle.std.specs.Prelude.{refl};
    ghost use Rattle.pair_rows.specs.Work.{holds_all};

    type Value = RegionRows<K>;

    // Each header is in a region whose rows are found.
    ghost gives = { λ _. holds_all };

    ghost same = { λ a b e slot h. refl };
}

impl<'a, M: PairSource<K>, K: Pairing + Send> Splitter for BySlots<'a, M, K> {
    fn work(&self, alloc: Global, region: &Region) -> Result<Worked<RegionRows<K>>, NoMemory> {
        if let Some(cell) = self.cells.get(region.slot as usize) {
            let kept = kept_in(alloc, cell, self.source, region.slot)?;
            if let Some(given) = kept.of_slot(region.slot) {
                return work_on(alloc, given, region, self.most);
            }
        }
        let given = self.source.function(alloc, region.slot)?;
        work_on(alloc, &given, region, self.most)
    }
}

// What the cell holds, which is the slot's function where it was empty.
fn kept_in<'a, M: PairSource<K>, K: Pairing>(
    alloc: Global,
    cell: &'a OnceBox<SlotFunction<K>>,
    source: &M,
    slot: u32,
) -> Result<&'a SlotFunction<K>, NoMemory> {
    cell.get_or_try_init(|| made(alloc, source, slot))
}

fn made<M: PairSource<K>, K: Pairing>(
    alloc: Global,
    source: &M,
    slot: u32,
) -> Result<Box<SlotFunction<K>>, NoMemory> {
    let given = source.function(alloc, slot)?;
    let kept = Box::new(alloc, SlotFunction::of(slot, given))?;
    Ok(kept)
}
