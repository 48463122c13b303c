//! What devices do with destinations, made functions by the workers, each in tables of its own, and taken over from there.

ghost use Rattle.std.specs.Prelude.{◌≡◌, ℕ, All, IfOk, IfSome, List, None, OnOk, Option, Some, slice_get, slice_set};
ghost use Rattle.net_types.specs.declared.network.NetDevice.{NetDevice};
ghost use Rattle.net_forms.specs.Forms.{TablesGrow};
ghost use Rattle.net_forms.specs.Known.{AreKnownFates};
ghost use Rattle.list_tables.specs.Made.{IsFateShare, IsMadeFates};

use crate::wanted::{WantedFates, makers, wanted_fates};
use device_fates::add_device;
use net_forms::Tables;
use net_types::{NetDevice, NoMemory};
use net_view::device_at;
use std::alloc::Global;
use std::thread::{Threads, map_indices};
use steal_pool::Workers;

/// The function of what the device at a position does with destinations.
#[derive(Clone, Copy)]
pub(crate) struct MadeFates {
    pub(crate) device: usize,
    pub(crate) function: u32,
}

/// Those of one worker, in tables of their own.
#[derive(Drop)]
pub(crate) struct FateShare {
    pub(crate) tables: Tables,
    pub(crate) made: Vec<MadeFates>,
}

/// The functions of what the devices do with destinations, by their positions. A device has none where `known` marks it, where
/// its worker had no memory for it, and where all have few pieces together: it is then made where the network is compiled.
pub(crate) fn fates_by_workers<R: Threads + Sync, G>(
    by: &Workers<R, G>,
    alloc: Global,
    devices: &[NetDevice],
    known: &[bool],
    tables: &mut Tables,
) -> Result<Vec<Option<u32>>, NoMemory>
    ensures fates { IfOk result (λ r. AreKnownFates tables.new.diagrams tables.new.fates devices.now r.items) }
    ensures kept { TablesGrow tables.old tables.new }
{
    let wanted = wanted_fates(alloc, devices, known, by.count)?;
    if wanted.is_empty() {
        return Ok(Vec::new(alloc));
    }
    let shares = fate_shares(by, alloc, devices, &wanted)?;
    fates_of_shares(alloc, devices, &shares, tables)
}

// What they made, taken over.
fn fates_of_shares(
    alloc: Global,
    devices: &[NetDevice],
    shares: &[Option<FateShare>],
    tables: &mut Tables,
) -> Result<Vec<Option<u32>>, NoMemory>
    requires { All (λ share. IfSome share (IsFateShare devices.now)) shares.now }
    ensures fates { IfOk result (λ r. AreKnownFates tables.new.diagrams tables.new.fates devices.now r.items) }
    ensures kept { TablesGrow tables.old tables.new }
{
    let mut fates = no_fates(alloc, devices.len())?;
    for share in shares {
        let Some(share) = share else {
            continue;
        };
        add_fates(alloc, share, tables, &mut fates)?;
    }
    Ok(fates)
}

// What each of the workers made; nothing of one who had no memory.
fn fate_shares<R: Threads + Sync, G>(
    by: &Workers<R, G>,
    alloc: Global,
    devices: &[NetDevice],
    wanted: &[WantedFates],
) -> Result<Vec<Option<FateShare>>, NoMemory>
    ensures { IfOk result (λ made. All (λ share. IfSome share (IsFateShare devices.now)) made.items) }
{
    let make = move |worker: usize| -> Option<FateShare>
        ensures { IfSome result (IsFateShare devices.entry.now) }
    { fate_share(alloc, devices, wanted, worker) };
    let made = map_indices(by.rt, alloc, makers(wanted), &make)?;
    Ok(made)
}

// The functions of this worker, where there is memory for them.
fn fate_share(
    alloc: Global,
    devices: &[NetDevice],
    wanted: &[WantedFates],
    worker: usize,
) -> Option<FateShare>
    ensures { IfSome result (IsFateShare devices.now) }
{
    match made_share(alloc, devices, wanted, worker) {
        Ok(share) => Some(share),
        Err(_) => None,
    }
}

fn made_share(
    alloc: Global,
    devices: &[NetDevice],
    wanted: &[WantedFates],
    worker: usize,
) -> Result<FateShare, NoMemory>
    ensures { IfOk result (IsFateShare devices.now) }
{
    let mut tables = Tables::new(alloc)?;
    let made = made_in(alloc, &mut tables, devices, wanted, worker)?;
    Ok(FateShare { tables, made })
}

// The functions of this worker, in these tables.
fn made_in(
    alloc: Global,
    tables: &mut Tables,
    devices: &[NetDevice],
    wanted: &[WantedFates],
    worker: usize,
) -> Result<Vec<MadeFates>, NoMemory>
    ensures { IfOk result (λ made. All (IsMadeFates tables.new devices.now) made.items) }
{
    let mut made = Vec::new(alloc);
    for one in wanted {
        if one.worker != worker {
            continue;
        }
        let Some(device) = device_at(devices, one.device) else {
            continue;
        };
        let function = add_device(
            alloc,
            &mut tables.diagrams,
            &mut tables.fates,
            &device.config,
        )?;
        made.push(MadeFates {
            device: one.device,
            function,
        })?;
    }
    Ok(made)
}

// What one worker more has made, with the numbers that its fates have here.
fn add_fates(
    alloc: Global,
    share: &FateShare,
    tables: &mut Tables,
    known: &mut Vec<Option<u32>>,
) -> Result<(), NoMemory>
    ensures known { OnOk result ((ds : List NetDevice) → IsFateShare ds share.now → AreKnownFates tables.old.diagrams tables.old.fates ds known.old.items → AreKnownFates tables.new.diagrams tables.new.fates ds known.new.items) }
    ensures kept { TablesGrow tables.old tables.new }
{
    let numbers = tables.fates.numbers_of(alloc, &share.tables.fates)?;
    let absorbed = tables.diagrams.absorb(&share.tables.diagrams, &numbers)?;
    for made in &share.made {
        put_fates(*made, &absorbed, known);
    }
    Ok(())
}

// The function of one device more.
fn put_fates(made: MadeFates, absorbed: &[u32], known: &mut Vec<Option<u32>>)
    ensures { known.new.items ≡ slice_set known.old.items made.device (slice_get absorbed.now made.function) }
{
    if made.device < known.len() {
        known[made.device] = absorbed.get(made.function as usize).copied();
    }
}

// No function of so many devices.
fn no_fates(alloc: Global, devices: usize) -> Result<Vec<Option<u32>>, NoMemory>
    ensures { IfOk result (λ none. (n : ℕ) (f : Option ℕ) → slice_get none.items n ≡ Some f → f ≡ None) }
{
    let mut none = Vec::with_capacity(alloc, devices)?;
    for _ in 0..devices {
        none.push(None)?;
    }
    Ok(none)
}
