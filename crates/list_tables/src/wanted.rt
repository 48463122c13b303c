//! Which functions of lists and of routes are made beforehand, and by whom. The choice changes no answer, so no clause speaks of it.

ghost use Rattle.std.specs.Prelude.{◌≤◌};

use crate::lists::{BothDevices, ListPosition};
use device_equality::same_device;
use indexmap::IndexMap;
use net_forms::Version;
use net_types::{Config, Interface, NetDevice, NoMemory, Text};
use net_view::same_text;
use std::alloc::Global;
use std::thread::{Threads, for_each_mut};
use steal_pool::Workers;

/// A list of fewer entries is made about as soon as it is copied from one table to another.
const MANY_ENTRIES: usize = 64;

/// Fewer pieces of all devices together are made functions about as soon as threads are started for them.
const MANY_PIECES: usize = 4096;

/// A list that is to be made beforehand.
#[derive(Clone, Copy)]
pub(crate) struct WantedList {
    pub(crate) at: ListPosition,
    /// The number of its device's name.
    pub(crate) name: u32,
    pub(crate) entries: usize,
    /// The worker who makes it, from 0.
    pub(crate) worker: usize,
}

/// A device whose routes and interfaces are to be made a function beforehand.
#[derive(Clone, Copy)]
pub(crate) struct WantedFates {
    /// The position of the device.
    pub(crate) device: usize,
    /// The worker who makes it, from 0.
    pub(crate) worker: usize,
}

/// Which devices of the new network are equal to one of the old, by their positions: such a device is compiled once. Workers
/// compare them.
pub(crate) fn known_devices<R: Threads + Sync, G>(
    by: &Workers<R, G>,
    alloc: Global,
    both: BothDevices,
) -> Result<Vec<bool>, NoMemory> {
    let positions = positions_of(alloc, both.old)?;
    known_by_positions(by, alloc, both, &positions)
}

// The positions of the devices, by their names.
fn positions_of(alloc: Global, devices: &[NetDevice]) -> Result<IndexMap<u32, usize>, NoMemory> {
    let mut positions = IndexMap::new(alloc);
    for i in 0..devices.len() {
        positions.insert(devices[i].name, i)?;
    }
    Ok(positions)
}

// The same, where the devices of the old network have these positions.
fn known_by_positions<R: Threads + Sync, G>(
    by: &Workers<R, G>,
    alloc: Global,
    both: BothDevices,
    positions: &IndexMap<u32, usize>,
) -> Result<Vec<bool>, NoMemory> {
    let mut known = Vec::with_capacity(alloc, both.new.len())?;
    for _ in 0..both.new.len() {
        known.push(false)?;
    }
    let compare = move |i: usize, known: &mut bool| { *known = is_known(both, positions, i) };
    for_each_mut(by.rt, &mut known, comparers(by, both.new), &compare);
    Ok(known)
}

/// Whether the device at this position is one of those.
pub(crate) fn is_known_at(known: &[bool], position: usize) -> bool {
    match known.get(position) {
        Some(known) => *known,
        None => false,
    }
}

/// The long lists that interfaces name, each with its worker: those of the old network, and of the new one those of the devices
/// that aren't known.
pub(crate) fn wanted_lists(
    alloc: Global,
    both: BothDevices,
    known: &[bool],
    workers: u32,
) -> Result<Vec<WantedList>, NoMemory> {
    let mut wanted = Vec::new(alloc);
    for i in 0..both.old.len() {
        add_wanted(&both.old[i], Version::Old, i, &mut wanted)?;
    }
    for i in 0..both.new.len() {
        if !is_known_at(known, i) {
            add_wanted(&both.new[i], Version::New, i, &mut wanted)?;
        }
    }
    // Two versions of a list stand together, and mostly with one worker, whose table has what they share once.
    wanted.sort_by_key(|w| (w.name, w.at.list))?;
    share_out(&mut wanted, workers as usize);
    Ok(wanted)
}

/// The devices that `known` doesn't mark, each with its worker, if they have many pieces together and there are several workers
/// for them. Workers have about as many pieces each, one counted for a route and three for an interface: its broadcast address,
/// its own address and its subnet.
pub(crate) fn wanted_fates(
    alloc: Global,
    devices: &[NetDevice],
    known: &[bool],
    workers: u32,
) -> Result<Vec<WantedFates>, NoMemory> {
    let mut wanted = Vec::new(alloc);
    let all = unknown_pieces(devices, known);
    if all < MANY_PIECES {
        return Ok(wanted);
    }
    let last = (workers as usize).saturating_sub(1);
    let mut before: usize = 0;
    for device in 0..devices.len() {
        if is_known_at(known, device) {
            continue;
        }
        // Devices without pieces behind all others are the last worker's too.
        let worker = (before.saturating_mul(workers as usize) / all).min(last);
        wanted.push(WantedFates { device, worker })?;
        before = before.saturating_add(piece_count(&devices[device].config));
    }
    // What one worker makes alone would only be made in one table and then taken over to another.
    if wanted.iter().all(|w| w.worker == 0) {
        wanted.clear();
    }
    Ok(wanted)
}

/// How many workers have some of them.
pub(crate) fn makers(wanted: &[WantedFates]) -> usize {
    match wanted.last() {
        None => 0,
        Some(last) => last.worker.saturating_add(1),
    }
}

// How many pieces the devices have that aren't known.
fn unknown_pieces(devices: &[NetDevice], known: &[bool]) -> usize {
    let mut pieces: usize = 0;
    for i in 0..devices.len() {
        if !is_known_at(known, i) {
            pieces = pieces.saturating_add(piece_count(&devices[i].config));
        }
    }
    pieces
}

// About how many pieces the function of the device is made of.
fn piece_count(config: &Config) -> usize {
    let interfaces = config.interfaces.as_slice().len();
    let routes = config.routes.as_slice().len();
    routes.saturating_add(interfaces.saturating_mul(3))
}

// How many workers compare devices.
fn comparers<R, G>(by: &Workers<R, G>, devices: &[NetDevice]) -> usize
    ensures { 1 ≤ result }
{
    if unknown_pieces(devices, &[]) < MANY_PIECES {
        return 1;
    }
    by.count as usize
}

// Whether the old network has a device equal to the one at this position of the new one.
fn is_known(both: BothDevices, positions: &IndexMap<u32, usize>, i: usize) -> bool {
    let Some(device) = both.new.get(i) else {
        return false;
    };
    let Some(position) = positions.get(&device.name) else {
        return false;
    };
    let Some(known) = both.old.get(*position) else {
        return false;
    };
    same_device(known, device)
}

// The long lists of a device that its interfaces name.
fn add_wanted(
    device: &NetDevice,
    version: Version,
    position: usize,
    wanted: &mut Vec<WantedList>,
) -> Result<(), NoMemory> {
    let lists = device.config.lists.as_slice();
    for list in 0..lists.len() {
        let entries = lists[list].entries.as_slice().len();
        if entries >= MANY_ENTRIES && is_used(&device.config, &lists[list].name) {
            let at = ListPosition {
                version,
                device: position,
                list,
            };
            wanted.push(WantedList {
                at,
                name: device.name,
                entries,
                worker: 0,
            })?;
        }
    }
    Ok(())
}

// Whether an interface names a list of this name.
fn is_used(config: &Config, name: &Text) -> bool {
    config.interfaces.as_slice().iter().any(|i| names(i, name))
}

fn names(interface: &Interface, name: &Text) -> bool {
    is_name(&interface.input, name) || is_name(&interface.output, name)
}

fn is_name(named: &Option<Text>, name: &Text) -> bool {
    match named {
        None => false,
        Some(named) => same_text(named.as_bytes(), name.as_bytes()),
    }
}

/// Whether one worker makes them all.
pub(crate) fn have_one_worker(wanted: &[WantedList]) -> bool {
    wanted.iter().all(|w| w.worker == 0)
}

// Each worker has lists that stand together, and about as many entries as any other. One worker has both versions of a list.
fn share_out(wanted: &mut [WantedList], workers: usize) {
    let mut all: usize = 0;
    for list in 0..wanted.len() {
        all = all.saturating_add(wanted[list].entries);
    }
    let mut worker: usize = 0;
    let mut entries: usize = 0;
    for list in 0..wanted.len() {
        wanted[list].worker = worker;
        entries = entries.saturating_add(wanted[list].entries);
        if entries.saturating_mul(workers) >= all && is_last_version(wanted, list) {
            worker = worker.saturating_add(1);
            entries = 0;
        }
    }
}

// Whether the next one, if there is one, is another list and no other version of this one.
fn is_last_version(wanted: &[WantedList], list: usize) -> bool {
    match (wanted.get(list), wanted.get(list.saturating_add(1))) {
        (Some(one), Some(next)) => one.name != next.name || one.at.list != next.at.list,
        _ => true,
    }
}
