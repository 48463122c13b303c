//! The devices of a world by the numbers of their names, and the interfaces at places.

ghost use Rattle.std.specs.Prelude.{◌≡◌, ◌==◌, ℕ, nat_eq, IfOk, OnOk, Some, None, if◌then◌else◌, option_map, option_and_then, position, slice_get};
ghost use Rattle.std.specs.Option.{option_copied, option_or};
ghost use Rattle.indexmap.specs.IndexMap.{get};
ghost use Rattle.net_types.specs.World.{seat_at};
ghost use Rattle.net_view.specs.Borrowed.{seat_of, world_of};

use indexmap::IndexMap;
use net_types::{NetDevice, Place};
use net_view::{SeatRef, WorldRef, device_at, seat_numbered};
use no_memory::NoMemory;
use std::alloc::Global;
use std::marker::Model;

/// A world, with the positions of its devices by the numbers of their names.
#[derive(Drop)]
pub(crate) struct DeviceIndex<'a> {
    world: WorldRef<'a>,
    devices: IndexMap<u32, usize>,
}

impl<'a> Model for DeviceIndex<'a> {
    ghost use Rattle.std.specs.Prelude.{◌≡◌, ◌==◌, ℕ, nat_eq, position};
    ghost use Rattle.indexmap.specs.IndexMap.{get};
    ghost use Rattle.net_types.specs.World.{World};
    ghost use Rattle.net_view.specs.Borrowed.{world_of};

    ghost Value = { World };

    ghost view = { λ x. world_of x.world };

    // of two devices of one name the first counts
    ghost invariant = { λ x. (name : ℕ) → get nat_eq x.devices name ≡ position (λ d. d.name == name) x.world.network.now.devices };
}

impl<'a> DeviceIndex<'a> {
    /// The index of this world.
    pub(crate) fn of(alloc: Global, world: WorldRef<'a>) -> Result<DeviceIndex<'a>, NoMemory>
        ensures { IfOk result (λ index. index ≡ world_of world.entry) }
    {
        let devices = device_numbers(alloc, world.network.devices.as_slice())?;
        Ok(DeviceIndex { world, devices })
    }

    /// The interface at a place.
    pub(crate) fn seat(&self, place: Place) -> Option<SeatRef<'a>>
        ensures { option_map seat_of result ≡ seat_at self.now place }
    {
        let Some(device) = device_in(self.world, &self.devices, place.device) else {
            return None;
        };
        seat_numbered(device, place.interface)
    }

    /// The position of the first device of this name.
    pub(crate) fn device_position(&self, name: u32) -> Option<usize>
        ensures { result ≡ position (λ d. d.name == name) self.now.network.devices }
    {
        self.devices.get(&name).copied()
    }
}

// The number of the first device of each name.
fn device_numbers(alloc: Global, devices: &[NetDevice]) -> Result<IndexMap<u32, usize>, NoMemory>
    ensures { IfOk result (λ numbers. (name : ℕ) → get nat_eq numbers name ≡ position (λ d. d.name == name) devices.now) }
{
    let mut numbers = IndexMap::new(alloc);
    for (i, device) in devices.iter().enumerate() {
        add_first(&mut numbers, device.name, i)?;
    }
    Ok(numbers)
}

// Gives the name this number, unless it has one.
fn add_first(numbers: &mut IndexMap<u32, usize>, name: u32, number: usize) -> Result<(), NoMemory>
    ensures { OnOk result ((n : ℕ) → get nat_eq numbers.new n ≡ option_or (get nat_eq numbers.old n) (if name == n then Some number else None)) }
{
    if numbers.contains_key(&name) {
        return Ok(());
    }
    numbers.insert(name, number)?;
    Ok(())
}

// The device whose name has a number in the table.
fn device_in<'a>(
    world: WorldRef<'a>,
    numbers: &IndexMap<u32, usize>,
    name: u32,
) -> Option<&'a NetDevice>
    ensures { option_copied result ≡ option_and_then (slice_get (world_of world.entry).network.devices) (get nat_eq numbers.now name) }
{
    let Some(number) = numbers.get(&name) else {
        return None;
    };
    device_at(world.network.devices.as_slice(), *number)
}
