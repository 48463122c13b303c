//! The devices of a network by their hostnames, and the interfaces of each by their names.

ghost use Rattle.std.specs.Prelude.{◌≡◌, List, ℕ, find, position, IfOk, OnOk, if◌then◌else◌, Some, None};
ghost use Rattle.std.specs.Option.{option_copied, option_or};
ghost use Rattle.net_types.specs.Routes.{same_text};
ghost use Rattle.ask_query.specs.Devices.{is_called, stands_under};
ghost use Rattle.ask_query.specs.Reading.{device_called, place_called};

use indexmap::IndexMap;
use net_types::{Interface, NetDevice, Network, NoMemory, Place, Text};
use net_view::seat_in;
use std::alloc::Global;
use std::marker::Model;

/// A network, with the first device of each hostname.
pub(crate) struct DeviceIndex<'a> {
    network: &'a Network,
    firsts: IndexMap<&'a [u8], PlaceIndex<'a>>,
}

impl<'a> Drop for DeviceIndex<'a> {
    fn drop(self) {
        let DeviceIndex {
            network: _,
            firsts: _,
        } = self;
    }
}

impl<'a> Model for DeviceIndex<'a> {
    ghost use Rattle.std.specs.Prelude.{◌≡◌, List, ℕ, find};
    ghost use Rattle.net_types.specs.declared.network.Network.{Network};
    ghost use Rattle.ask_query.specs.Devices.{is_called, stands_under};

    // Contracts see the network.
    ghost Value = { Network };

    ghost view = { λ x. x.network.now };

    ghost invariant = { λ x. (name : List ℕ) → stands_under x.firsts name ≡ find (is_called name) x.network.now.devices };
}

impl<'a> DeviceIndex<'a> {
    /// The index of this network.
    pub(crate) fn of(alloc: Global, network: &'a Network) -> Result<DeviceIndex<'a>, NoMemory>
        ensures { IfOk result (λ index. index ≡ network.now) }
    {
        let firsts = firsts_of(alloc, network.devices.as_slice())?;
        Ok(DeviceIndex { network, firsts })
    }

    /// The first device of this hostname.
    pub(crate) fn device_called(&self, name: &Text) -> Option<&PlaceIndex<'a>>
        ensures { option_copied result ≡ device_called self.now name.now }
    {
        self.firsts.get(name.as_bytes())
    }
}

/// A device, with the position of its first interface of each name.
pub(crate) struct PlaceIndex<'a> {
    device: &'a NetDevice,
    positions: IndexMap<&'a [u8], usize>,
}

impl<'a> Drop for PlaceIndex<'a> {
    fn drop(self) {
        let PlaceIndex {
            device: _,
            positions: _,
        } = self;
    }
}

impl<'a> Model for PlaceIndex<'a> {
    ghost use Rattle.std.specs.Prelude.{◌≡◌, List, ℕ, position};
    ghost use Rattle.net_types.specs.declared.network.NetDevice.{NetDevice};
    ghost use Rattle.net_types.specs.Routes.{same_text};
    ghost use Rattle.ask_query.specs.Devices.{stands_under};

    // Contracts see the device.
    ghost Value = { NetDevice };

    ghost view = { λ x. x.device.now };

    ghost invariant = { λ x. (name : List ℕ) → stands_under x.positions name ≡ position (λ i. same_text i.name name) x.device.now.config.interfaces };
}

impl<'a> PlaceIndex<'a> {
    // The index of this device.
    fn of(alloc: Global, device: &'a NetDevice) -> Result<PlaceIndex<'a>, NoMemory>
        ensures { IfOk result (λ index. index ≡ device.now) }
    {
        let positions = positions_of(alloc, device.config.interfaces.as_slice())?;
        Ok(PlaceIndex { device, positions })
    }

    /// The place of its first interface of this name.
    pub(crate) fn place_called(&self, name: &Text) -> Option<Place>
        ensures { result ≡ place_called self.now name.now }
    {
        let position = self.position(name)?;
        let seat = seat_in(self.device, position)?;
        Some(seat.place)
    }

    // The position of its first interface of this name.
    fn position(&self, name: &Text) -> Option<usize>
        ensures { result ≡ position (λ i. same_text i.name name.now) self.now.config.interfaces }
    {
        self.positions.get(name.as_bytes()).copied()
    }
}

// The first device of each hostname.
fn firsts_of<'a>(
    alloc: Global,
    devices: &'a [NetDevice],
) -> Result<IndexMap<&'a [u8], PlaceIndex<'a>>, NoMemory>
    ensures { IfOk result (λ firsts. (name : List ℕ) → stands_under firsts name ≡ find (is_called name) devices.now) }
{
    let mut firsts = IndexMap::new(alloc);
    for device in devices {
        let index = PlaceIndex::of(alloc, device)?;
        add_first(&mut firsts, device.config.hostname.as_bytes(), index)?;
    }
    Ok(firsts)
}

// The position of the first interface of each name.
fn positions_of<'a>(
    alloc: Global,
    interfaces: &'a [Interface],
) -> Result<IndexMap<&'a [u8], usize>, NoMemory>
    ensures { IfOk result (λ positions. (name : List ℕ) → stands_under positions name ≡ position (λ i. same_text i.name name) interfaces.now) }
{
    let mut positions = IndexMap::new(alloc);
    for (position, interface) in interfaces.iter().enumerate() {
        add_first(&mut positions, interface.name.as_bytes(), position)?;
    }
    Ok(positions)
}

// Puts the value under the name, unless one stands there.
fn add_first<'a, V: Drop>(
    values: &mut IndexMap<&'a [u8], V>,
    name: &'a [u8],
    value: V,
) -> Result<(), NoMemory>
    ensures { OnOk result ((other : List ℕ) → stands_under values.new other ≡ option_or (stands_under values.old other) (if same_text name.now other then Some value else None)) }
{
    if values.contains_key(name) {
        return Ok(());
    }
    values.insert(name, value)?;
    Ok(())
}
