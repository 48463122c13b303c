//! The lists that each worker makes.

ghost use Rattle.std.specs.Prelude.{All, IfOk, IfSome};
ghost use Rattle.list_tables.specs.Made.{IsMadeList, IsMadeShare};

use crate::lists::{BothDevices, ListPosition, list_at};
use crate::wanted::WantedList;
use acl_match::add_list;
use cube_diagram::Diagrams;
use net_types::NoMemory;
use std::alloc::Global;
use std::thread::{Threads, map_indices};
use steal_pool::Workers;

/// A list with the number of its function.
#[derive(Clone, Copy)]
pub(crate) struct MadeList {
    pub(crate) at: ListPosition,
    pub(crate) function: u32,
}

/// The lists of one worker, in a table of their own.
#[derive(Drop)]
pub(crate) struct MadeShare {
    pub(crate) table: Diagrams,
    pub(crate) lists: Vec<MadeList>,
}

/// What each of the workers made; nothing of one who had no memory.
pub(crate) fn made_by_workers<R: Threads + Sync, G>(
    by: &Workers<R, G>,
    alloc: Global,
    both: BothDevices,
    wanted: &[WantedList],
) -> Result<Vec<Option<MadeShare>>, NoMemory>
    ensures { IfOk result (λ made. All (λ share. IfSome share (IsMadeShare both.entry)) made.items) }
{
    let make = move |worker: usize| -> Option<MadeShare>
        ensures { IfSome result (IsMadeShare both.entry) }
    { share_of(alloc, both, wanted, worker) };
    // No worker without a list.
    let makers = wanted.len().min(by.count as usize);
    let made = map_indices(by.rt, alloc, makers, &make)?;
    Ok(made)
}

// The lists of this worker, where there is memory for them.
fn share_of(
    alloc: Global,
    both: BothDevices,
    wanted: &[WantedList],
    worker: usize,
) -> Option<MadeShare>
    ensures { IfSome result (IsMadeShare both.entry) }
{
    match made_share(alloc, both, wanted, worker) {
        Ok(share) => Some(share),
        Err(_) => None,
    }
}

fn made_share(
    alloc: Global,
    both: BothDevices,
    wanted: &[WantedList],
    worker: usize,
) -> Result<MadeShare, NoMemory>
    ensures { IfOk result (IsMadeShare both.entry) }
{
    let mut table = Diagrams::new(alloc)?;
    let lists = made_in(alloc, &mut table, both, wanted, worker)?;
    Ok(MadeShare { table, lists })
}

// The lists of this worker, in this table.
fn made_in(
    alloc: Global,
    table: &mut Diagrams,
    both: BothDevices,
    wanted: &[WantedList],
    worker: usize,
) -> Result<Vec<MadeList>, NoMemory>
    ensures { IfOk result (λ lists. All (IsMadeList table.new both.entry) lists.items) }
{
    let mut lists = Vec::new(alloc);
    for list in wanted {
        if list.worker != worker {
            continue;
        }
        let function = add_list(alloc, table, list_at(both, list.at))?;
        lists.push(MadeList {
            at: list.at,
            function,
        })?;
    }
    Ok(lists)
}
