//! Networks that are compiled once the workers have made the functions of their long lists and of their routes.

ghost use Rattle.std.specs.Prelude.{◌≡◌, IfOk, OnOk};
ghost use Rattle.net_view.specs.Borrowed.{world_of};
ghost use Rattle.net_forms.specs.Forms.{TablesGrow};
ghost use Rattle.net_forms.specs.Known.{AreKnownFates, AreKnownLists};
ghost use Rattle.net_forms.specs.Networks.{IsFormedNetwork};
ghost use Rattle.net_forms.specs.Pairs.{worlds_of};
ghost use Rattle.list_tables.specs.declared.lists.BothDevices.{BothDevices};
ghost use Rattle.list_tables.specs.Made.{AreKnown, AreKnownBoth};

use crate::fates::fates_by_workers;
use crate::known::{KnownLists, known_of, none_known};
use crate::lists::BothDevices;
use crate::shares::made_by_workers;
use crate::wanted::{have_one_worker, known_devices, wanted_lists};
use net_forms::{Beforehand, FormedNetwork, Networks, Prepared, Tables};
use net_types::NoMemory;
use net_view::WorldRef;
use std::alloc::Global;
use std::thread::Threads;
use steal_pool::Workers;

/// What is known of two networks before they are compiled.
#[derive(Drop)]
pub(crate) struct KnownBoth {
    pub(crate) lists: KnownLists,
    /// The functions of what the old network's devices do with destinations, by their positions.
    pub(crate) old_fates: Vec<Option<u32>>,
    /// The same of the new network's.
    pub(crate) new_fates: Vec<Option<u32>>,
}

/// The functions of what the devices of two networks do with destinations, by their positions.
#[derive(Drop)]
struct BothFates {
    old: Vec<Option<u32>>,
    new: Vec<Option<u32>>,
}

/// Compiles two networks, as `Prepared::of` does, whose long access lists and routes are prepared by the workers.
///
/// It answers `NoMemory` only where there was none.
pub fn prepared_by_workers<'a, R: Threads + Sync, G>(
    by: &Workers<R, G>,
    alloc: Global,
    networks: Networks<'a>,
) -> Result<Prepared<'a>, NoMemory>
    ensures { IfOk result (λ p. p ≡ worlds_of networks.entry) }
{
    let both = BothDevices {
        old: networks.old.network.devices.as_slice(),
        new: networks.new.network.devices.as_slice(),
    };
    let known = known_by_workers(by, alloc, both)?;
    prepared_with(alloc, networks, known)
}

/// Compiles one network so.
///
/// It answers `NoMemory` only where there was none.
pub fn formed_by_workers<'a, R: Threads + Sync, G>(
    by: &Workers<R, G>,
    alloc: Global,
    world: WorldRef<'a>,
) -> Result<FormedNetwork<'a>, NoMemory>
    ensures { IfOk result (IsFormedNetwork (world_of world.entry)) }
{
    let alone = BothDevices {
        old: world.network.devices.as_slice(),
        new: &[],
    };
    let known = known_by_workers(by, alloc, alone)?;
    formed_with(alloc, world, known)
}

// What is made beforehand: nothing where one worker would make it all.
fn known_by_workers<R: Threads + Sync, G>(
    by: &Workers<R, G>,
    alloc: Global,
    both: BothDevices,
) -> Result<KnownBoth, NoMemory>
    ensures { IfOk result (AreKnownBoth both.entry) }
{
    if by.count < 2 {
        let nothing = nothing_made(alloc)?;
        return Ok(nothing);
    }
    let known = known_devices(by, alloc, both)?;
    known_beside(by, alloc, both, &known)
}

// The same where these devices of the new network are equal to one of the old.
fn known_beside<R: Threads + Sync, G>(
    by: &Workers<R, G>,
    alloc: Global,
    both: BothDevices,
    known: &[bool],
) -> Result<KnownBoth, NoMemory>
    ensures { IfOk result (AreKnownBoth both.entry) }
{
    let mut lists = lists_by_workers(by, alloc, both, known)?;
    let fates = fates_of_both(by, alloc, both, known, &mut lists.tables)?;
    Ok(KnownBoth {
        lists,
        old_fates: fates.old,
        new_fates: fates.new,
    })
}

// The functions of what the devices of both networks do with destinations.
fn fates_of_both<R: Threads + Sync, G>(
    by: &Workers<R, G>,
    alloc: Global,
    both: BothDevices,
    known: &[bool],
    tables: &mut Tables,
) -> Result<BothFates, NoMemory>
    ensures old { IfOk result (λ r. AreKnownFates tables.new.diagrams tables.new.fates both.entry.old.now r.old.items) }
    ensures new { IfOk result (λ r. AreKnownFates tables.new.diagrams tables.new.fates both.entry.new.now r.new.items) }
    ensures kept { OnOk result (TablesGrow tables.old tables.new) }
{
    let old = fates_by_workers(by, alloc, both.old, &[], tables)?;
    let new = fates_by_workers(by, alloc, both.new, known, tables)?;
    Ok(BothFates { old, new })
}

fn nothing_made(alloc: Global) -> Result<KnownBoth, NoMemory>
    ensures { IfOk result (λ known. (both : BothDevices) → AreKnownBoth both known) }
{
    let lists = none_known(alloc)?;
    let old_fates = Vec::new(alloc);
    let new_fates = Vec::new(alloc);
    Ok(KnownBoth {
        lists,
        old_fates,
        new_fates,
    })
}

// The functions of long lists.
fn lists_by_workers<R: Threads + Sync, G>(
    by: &Workers<R, G>,
    alloc: Global,
    both: BothDevices,
    known: &[bool],
) -> Result<KnownLists, NoMemory>
    ensures { IfOk result (AreKnown both.entry) }
{
    let wanted = wanted_lists(alloc, both, known, by.count)?;
    if have_one_worker(&wanted) {
        let none = none_known(alloc)?;
        return Ok(none);
    }
    let made = made_by_workers(by, alloc, both, &wanted)?;
    known_of(alloc, both, &made)
}

fn prepared_with<'a>(
    alloc: Global,
    networks: Networks<'a>,
    known: KnownBoth,
) -> Result<Prepared<'a>, NoMemory>
    requires old { AreKnownLists known.lists.tables.diagrams networks.old.network.now.devices known.lists.old_lists.items }
    requires new { AreKnownLists known.lists.tables.diagrams networks.new.network.now.devices known.lists.new_lists.items }
    requires old_fates { AreKnownFates known.lists.tables.diagrams known.lists.tables.fates networks.old.network.now.devices known.old_fates.items }
    requires new_fates { AreKnownFates known.lists.tables.diagrams known.lists.tables.fates networks.new.network.now.devices known.new_fates.items }
    ensures { IfOk result (λ p. p ≡ worlds_of networks.entry) }
{
    let KnownBoth {
        lists,
        old_fates,
        new_fates,
    } = known;
    let KnownLists {
        tables,
        old_lists,
        new_lists,
    } = lists;
    let of_old = Beforehand {
        lists: &old_lists,
        fates: &old_fates,
    };
    let of_new = Beforehand {
        lists: &new_lists,
        fates: &new_fates,
    };
    Prepared::with_known(alloc, tables, networks, of_old, of_new)
}

fn formed_with<'a>(
    alloc: Global,
    world: WorldRef<'a>,
    known: KnownBoth,
) -> Result<FormedNetwork<'a>, NoMemory>
    requires lists { AreKnownLists known.lists.tables.diagrams world.network.now.devices known.lists.old_lists.items }
    requires fates { AreKnownFates known.lists.tables.diagrams known.lists.tables.fates world.network.now.devices known.old_fates.items }
    ensures { IfOk result (IsFormedNetwork (world_of world.entry)) }
{
    let KnownBoth {
        lists,
        old_fates,
        ..
    } = known;
    let KnownLists {
        tables,
        old_lists,
        ..
    } = lists;
    let before = Beforehand {
        lists: &old_lists,
        fates: &old_fates,
    };
    FormedNetwork::with_known(alloc, tables, world, before)
}
