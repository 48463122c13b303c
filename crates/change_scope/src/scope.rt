//! The scope of a change.

ghost use Rattle.std.specs.Prelude.{◌<◌, All, Contains, IfOk, IfSome};
ghost use Rattle.cube_diagram.specs.Functions.{Keeps, count_of};
ghost use Rattle.like_devices.specs.Like.{IsLike};
ghost use Rattle.net_forms.specs.Networks.{IsIndexed, IsNetworkForm};
ghost use Rattle.net_types.specs.declared.network.NetDevice.{NetDevice};
ghost use Rattle.net_view.specs.Borrowed.{world_of};
ghost use Rattle.set_walk.specs.Scopes.{IsScope};
ghost use Rattle.change_scope.specs.Differences.{HasAll};
ghost use Rattle.change_scope.specs.Translated.{ByDestination, HasAllRules};
ghost use Rattle.change_scope.specs.Pairs.{AreBoth, HasTurned, IsPair};
ghost use Rattle.change_scope.specs.Devices.{AreAlikeAt};

use crate::addresses::add_addresses;
use crate::devices::are_comparable;
use crate::differences::add_form;
use crate::named::headers_to;
use cube_diagram::Diagrams;
use device_fates::Fates;
use indexmap::IndexSet;
use like_devices::has_name;
use net_forms::{FormedDevice, NetworkForm, device_named};
use net_types::{NetDevice, NoMemory};
use std::alloc::Global;

/// Two networks that are compiled in one table, and the names of devices that they have alike.
#[derive(Clone, Copy)]
pub(crate) struct Pair<'a> {
    pub(crate) alloc: Global,
    pub(crate) fates: &'a Fates,
    pub(crate) old: &'a NetworkForm<'a>,
    pub(crate) new: &'a NetworkForm<'a>,
    pub(crate) like: &'a IndexSet<u32>,
}

/// A device of both networks, with its functions in each.
#[derive(Clone, Copy)]
pub(crate) struct Both<'a> {
    pub(crate) old: FormedDevice<'a>,
    pub(crate) new: FormedDevice<'a>,
}

/// A set of headers that is closed under what both networks do with headers, and outside which they do the same. `like` has
/// names of devices that are alike in both networks. The table is the one in which the networks are compiled, or a copy of
/// it that may have grown since: the sets are added to it, and no function that is there is changed.
///
/// It is found from destinations alone, and has all headers to each of its destinations, so that what a rule makes of a
/// header's source doesn't matter. Each address of a translation rule is in it. Where a device is in one network alone, has
/// other interfaces or rules, or sends otherwise, it has all headers.
///
/// # Errors
///
/// There was no memory.
pub fn scope_of<'a>(
    alloc: Global,
    fates: &'a Fates,
    old: &'a NetworkForm<'a>,
    new: &'a NetworkForm<'a>,
    like: &'a IndexSet<u32>,
    table: &mut Diagrams,
) -> Result<u32, NoMemory>
    requires old { IsNetworkForm table.old fates.now old.now }
    requires new { IsNetworkForm table.old fates.now new.now }
    requires like { All (IsLike (world_of old.now.world) (world_of new.now.world)) like.now.keys }
    ensures scope { IfOk result (IsScope (world_of old.now.world) (world_of new.now.world) table.new) }
    ensures kept { Keeps table.old table.new }
{
    let pair = Pair {
        alloc,
        fates,
        old,
        new,
        like,
    };
    let before = old.world.network.devices.as_slice();
    let after = new.world.network.devices.as_slice();
    let set = translated(alloc, table, before, after)?;
    let first = add_devices(pair, table, before, set)?;
    let all = add_devices(pair, table, after, first)?;
    Ok(all)
}

// The headers to the addresses of the translation rules of these devices.
fn translated(
    alloc: Global,
    table: &mut Diagrams,
    before: &[NetDevice],
    after: &[NetDevice],
) -> Result<u32, NoMemory>
    ensures below { IfOk result (λ r. r < count_of table.new) }
    ensures by { IfOk result (ByDestination table.new) }
    ensures old { IfOk result (HasAllRules before.now table.new) }
    ensures new { IfOk result (HasAllRules after.now table.new) }
    ensures kept { Keeps table.old table.new }
{
    let mut addresses = IndexSet::new(alloc);
    add_addresses(before, &mut addresses)?;
    add_addresses(after, &mut addresses)?;
    let set = headers_to(alloc, table, addresses.as_slice())?;
    Ok(set)
}

// The set, with the headers with which devices of these names don't do the same.
fn add_devices(
    pair: Pair,
    table: &mut Diagrams,
    devices: &[NetDevice],
    set: u32,
) -> Result<u32, NoMemory>
    requires pair { IsPair table.old pair }
    requires turned { HasTurned pair table.old set }
    ensures turned { IfOk result (HasTurned pair.entry table.new) }
    ensures all { IfOk result (HasAll table.old set table.new) }
    ensures alike { IfOk result (λ r. (d : NetDevice) → Contains devices.now d → AreAlikeAt (world_of pair.entry.old.now.world) (world_of pair.entry.new.now.world) table.new r d.name) }
    ensures kept { Keeps table.old table.new }
{
    let mut all = set;
    for device in devices {
        all = add_device(pair, table, device.name, all)?;
    }
    Ok(all)
}

// The set, with the headers with which the device of this name doesn't do the same.
fn add_device(pair: Pair, table: &mut Diagrams, name: u32, set: u32) -> Result<u32, NoMemory>
    requires pair { IsPair table.old pair }
    requires turned { HasTurned pair table.old set }
    ensures turned { IfOk result (HasTurned pair.entry table.new) }
    ensures all { IfOk result (HasAll table.old set table.new) }
    ensures alike { IfOk result (λ r. AreAlikeAt (world_of pair.entry.old.now.world) (world_of pair.entry.new.now.world) table.new r name) }
    ensures kept { Keeps table.old table.new }
{
    if set == table.everything() {
        return Ok(set);
    }
    if has_name(pair.like, name) {
        return Ok(set);
    }
    add_unlike(pair, table, name, set)
}

// The same of a device that isn't known to be alike.
fn add_unlike(pair: Pair, table: &mut Diagrams, name: u32, set: u32) -> Result<u32, NoMemory>
    requires pair { IsPair table.old pair }
    requires turned { HasTurned pair table.old set }
    ensures turned { IfOk result (HasTurned pair.entry table.new) }
    ensures all { IfOk result (HasAll table.old set table.new) }
    ensures alike { IfOk result (λ r. AreAlikeAt (world_of pair.entry.old.now.world) (world_of pair.entry.new.now.world) table.new r name) }
    ensures kept { Keeps table.old table.new }
{
    let Some(both) = both_named(pair, name) else {
        return Ok(table.everything());
    };
    let all = add_form(pair.alloc, table, both.old.form, both.new.form, set)?;
    Ok(all)
}

// The devices of this name in both networks, where they can be compared by their functions.
fn both_named<'a>(pair: Pair<'a>, name: u32) -> Option<Both<'a>>
    requires old { IsIndexed pair.old.now }
    requires new { IsIndexed pair.new.now }
    ensures { IfSome result (AreBoth pair.entry name) }
{
    let Some(old) = device_named(pair.old, name) else {
        return None;
    };
    let Some(new) = device_named(pair.new, name) else {
        return None;
    };
    if !are_comparable(&pair.old.wiring, &pair.new.wiring, old.device, new.device) {
        return None;
    }
    Some(Both { old, new })
}
