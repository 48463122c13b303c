//! From the tables of the workers to the one in which the networks are compiled.

ghost use Rattle.std.specs.Prelude.{◌≡◌, ◌<◌, ℕ, nat_eq, List, [], Some, All, IfOk, IfSome, OnOk, slice_get};
ghost use Rattle.indexmap.specs.IndexMap.{get};
ghost use Rattle.cube_diagram.specs.Functions.{Functions, count_of};
ghost use Rattle.cube_diagram.specs.Images.{AreCopied};
ghost use Rattle.net_types.specs.declared.network.NetDevice.{NetDevice};
ghost use Rattle.net_forms.specs.declared.forms.DeviceLists.{DeviceLists};
ghost use Rattle.net_forms.specs.Forms.{IsList};
ghost use Rattle.net_forms.specs.Known.{AreKnownLists};
ghost use Rattle.list_tables.specs.declared.lists.BothDevices.{BothDevices};
ghost use Rattle.list_tables.specs.Made.{AreKnown, IsMadeList, IsMadeShare, list_at};

use crate::lists::{BothDevices, ListPosition};
use crate::shares::{MadeList, MadeShare};
use cube_diagram::Diagrams;
use indexmap::IndexMap;
use net_forms::{DeviceLists, KnownList, Tables, Version};
use net_types::NoMemory;
use std::alloc::Global;

/// What is known of the lists of two networks, by the positions of their devices, in one table.
#[derive(Drop)]
pub(crate) struct KnownLists {
    pub(crate) tables: Tables,
    pub(crate) old_lists: Vec<DeviceLists>,
    pub(crate) new_lists: Vec<DeviceLists>,
}

/// What the workers made, in one table. A worker who had no memory made nothing: its lists are made where the networks are
/// compiled.
pub(crate) fn known_of(
    alloc: Global,
    both: BothDevices,
    made: &[Option<MadeShare>],
) -> Result<KnownLists, NoMemory>
    requires { All (λ share. IfSome share (IsMadeShare both)) made.now }
    ensures { IfOk result (AreKnown both.entry) }
{
    let mut known = nothing_known(alloc, both)?;
    for share in made {
        let Some(share) = share else {
            continue;
        };
        add_share(alloc, share, &mut known)?;
    }
    Ok(known)
}

/// No list of any device.
pub(crate) fn none_known(alloc: Global) -> Result<KnownLists, NoMemory>
    ensures { IfOk result (λ known. (both : BothDevices) → AreKnown both known) }
{
    let tables = Tables::new(alloc)?;
    let old_lists = Vec::new(alloc);
    let new_lists = Vec::new(alloc);
    Ok(KnownLists {
        tables,
        old_lists,
        new_lists,
    })
}

// No list yet, with room for those of each device.
fn nothing_known(alloc: Global, both: BothDevices) -> Result<KnownLists, NoMemory>
    ensures { IfOk result (AreKnown both.entry) }
{
    let old_lists = no_lists(alloc, both.old.len())?;
    let new_lists = no_lists(alloc, both.new.len())?;
    let tables = Tables::new(alloc)?;
    Ok(KnownLists {
        tables,
        old_lists,
        new_lists,
    })
}

// No list of each of so many devices.
fn no_lists(alloc: Global, devices: usize) -> Result<Vec<DeviceLists>, NoMemory>
    ensures { IfOk result (λ known. (n : ℕ) (k : DeviceLists) → slice_get known.items n ≡ Some k → k.lists.items ≡ []) }
{
    let mut known = Vec::with_capacity(alloc, devices)?;
    for _ in 0..devices {
        known.push(DeviceLists {
            lists: Vec::new(alloc),
        })?;
    }
    Ok(known)
}

// The lists of one worker more.
fn add_share(alloc: Global, share: &MadeShare, known: &mut KnownLists) -> Result<(), NoMemory>
    requires { All (λ m. m.function < count_of share.now.table) share.now.lists.items }
    ensures { OnOk result ((both : BothDevices) → IsMadeShare both share.now → AreKnown both known.old → AreKnown both known.new) }
{
    let mut copied = IndexMap::new(alloc);
    for list in &share.lists {
        add_made(&share.table, *list, &mut copied, known)?;
    }
    Ok(())
}

// One list more, from the table where it was made.
fn add_made(
    source: &Diagrams,
    list: MadeList,
    copied: &mut IndexMap<u32, u32>,
    known: &mut KnownLists,
) -> Result<(), NoMemory>
    requires function { list.function < count_of source.now }
    requires copied { AreCopied source.now known.old.tables.diagrams (get nat_eq copied.old) }
    ensures copied { OnOk result (AreCopied source.now known.new.tables.diagrams (get nat_eq copied.new)) }
    ensures known { OnOk result ((both : BothDevices) → IsMadeList source.now both list → AreKnown both known.old → AreKnown both known.new) }
{
    let at = list.at;
    let function = known
        .tables
        .diagrams
        .copy_from(source, list.function, copied)?;
    match at.version {
        Version::Old => add_to(&mut known.old_lists, at, function),
        Version::New => add_to(&mut known.new_lists, at, function),
    }
}

// One list more of a device.
fn add_to(known: &mut Vec<DeviceLists>, at: ListPosition, function: u32) -> Result<(), NoMemory>
    ensures { OnOk result ((fs : Functions) (ds : List NetDevice) → IsList fs (list_at ds at) function → AreKnownLists fs ds known.old.items → AreKnownLists fs ds known.new.items) }
{
    if at.device < known.len() {
        known[at.device].lists.push(KnownList {
            position: at.list,
            function,
        })?;
    }
    Ok(())
}
