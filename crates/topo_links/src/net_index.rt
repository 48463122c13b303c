//! A network by the names of its devices and their interfaces.
ghost use Rattle.std.specs.Prelude.{◌≡◌, All, IfOk, map, find, is_some, option_and_then, slice_get, option_to_list};
ghost use Rattle.std.specs.Option.{option_copied};
ghost use Rattle.topo_links.specs.ByName.{is_named, IsByName};
ghost use Rattle.topo_links.specs.Check.{interface_name, device_named, interface_at, live_addresses, end_addresses, least_shared, shared_address};
ghost use Rattle.topo_links.specs.NetIndex.{interface_lists, IsNet};

use crate::by_name::ByName;
use crate::shared::least_shared;
use crate::{LinkKind, LinkLine};
use net_types::{Interface, Loaded, NoMemory, Text};
use std::alloc::Global;

/// A network, with its devices and their interfaces by their names.
pub struct NetIndex<'a> {
    pub devices: ByName<'a, Loaded>,
    pub interfaces: Vec<ByName<'a, Interface>>,
}

impl<'a> Drop for NetIndex<'a> {
    fn drop(self) {
        let NetIndex {
            devices: _,
            interfaces: _,
        } = self;
    }
}

/// The interfaces of a device by their names.
fn index_device<'a>(alloc: Global, device: &'a Loaded) -> Result<ByName<'a, Interface>, NoMemory>
    ensures items { IfOk result (λ found. found.items.now ≡ device.now.config.interfaces) }
    ensures by_name { IfOk result (IsByName interface_name) }
{
    ByName::of(alloc, device.config.interfaces.as_slice())
}

/// The interfaces of several devices by their names.
fn index_devices<'a>(
    alloc: Global,
    devices: &[&'a Loaded],
) -> Result<Vec<ByName<'a, Interface>>, NoMemory>
    ensures lists { IfOk result (λ found. interface_lists found.items ≡ map (λ l. l.now.config.interfaces) devices.now) }
    ensures each { IfOk result (λ found. All (IsByName interface_name) found.items) }
{
    let mut found = Vec::with_capacity(alloc, devices.len())?;
    for device in devices {
        found.push(index_device(alloc, *device)?)?;
    }
    Ok(found)
}

impl<'a> NetIndex<'a> {
    /// The network of a folder.
    pub fn of(alloc: Global, folder: &'a [Loaded]) -> Result<NetIndex<'a>, NoMemory>
        ensures folder { IfOk result (λ net. net.devices.items.now ≡ folder.now) }
        ensures net { IfOk result IsNet }
    {
        let devices = ByName::of(alloc, folder)?;
        let interfaces = index_devices(alloc, devices.firsts.as_slice())?;
        Ok(NetIndex {
            devices,
            interfaces,
        })
    }

    /// Whether the network has a device of this name.
    pub fn has_device(&self, device: &Text) -> bool
        requires { IsNet self.now }
        ensures { result ≡ is_some (device_named self.now.devices.items.now device.now) }
    {
        self.devices.get(device).is_some()
    }

    /// The interface of this name of the device at a place.
    fn interface_of(&self, place: usize, name: &Text) -> Option<&'a Interface>
        requires { IsNet self.now }
        ensures { option_copied result ≡ option_and_then (find (is_named interface_name name.now)) (slice_get (interface_lists self.now.interfaces.items) place) }
    {
        let Some(interfaces) = self.interfaces.get(place) else {
            return None;
        };
        interfaces.get(name)
    }

    /// The interface at an end.
    fn interface(&self, device: &Text, name: &Text) -> Option<&'a Interface>
        requires { IsNet self.now }
        ensures { option_copied result ≡ interface_at self.now.devices.items.now (device.now, name.now) }
    {
        let Some(place) = self.devices.place(device) else {
            return None;
        };
        self.interface_of(place, name)
    }

    /// The addresses of an end, where it is IP-enabled.
    fn addresses(&self, alloc: Global, device: &Text, name: &Text) -> Result<Vec<u32>, NoMemory>
        requires { IsNet self.now }
        ensures { IfOk result (λ addresses. addresses.items ≡ end_addresses self.now.devices.items.now (device.now, name.now)) }
    {
        match self.interface(device, name) {
            None => Ok(Vec::new(alloc)),
            Some(interface) => Ok(live_addresses(alloc, interface)?),
        }
    }

    /// The addresses of each of several ends.
    fn all_addresses(&self, alloc: Global, ends: &[(Text, Text)]) -> Result<Vec<Vec<u32>>, NoMemory>
        requires { IsNet self.now }
        ensures { IfOk result (λ lists. map (λ l. l.items) lists.items ≡ map (end_addresses self.now.devices.items.now) ends.now) }
    {
        let mut lists = Vec::with_capacity(alloc, ends.len())?;
        for (device, name) in ends {
            lists.push(self.addresses(alloc, device, name)?)?;
        }
        Ok(lists)
    }

    /// The least address that two ends of a segment have.
    pub fn shared_address(&self, alloc: Global, line: &LinkLine) -> Result<Option<u32>, NoMemory>
        requires { IsNet self.now }
        ensures { IfOk result (λ shared. shared ≡ shared_address self.now.devices.items.now line.now) }
    {
        match line.kind {
            LinkKind::P2p => self.shared_by(alloc, line.ends.as_slice()),
            LinkKind::Lan => self.shared_by(alloc, line.ends.as_slice()),
            LinkKind::Ingress => Ok(None),
        }
    }

    /// The least address that two of these ends have.
    fn shared_by(&self, alloc: Global, ends: &[(Text, Text)]) -> Result<Option<u32>, NoMemory>
        requires { IsNet self.now }
        ensures { IfOk result (λ shared. shared ≡ least_shared (map (end_addresses self.now.devices.items.now) ends.now)) }
    {
        let lists = self.all_addresses(alloc, ends)?;
        Ok(least_shared(alloc, &lists)?)
    }
}

/// The addresses of an interface, where it is IP-enabled.
fn live_addresses(alloc: Global, interface: &Interface) -> Result<Vec<u32>, NoMemory>
    ensures { IfOk result (λ addresses. addresses.items ≡ live_addresses interface.now) }
{
    if interface.shut {
        return Ok(Vec::new(alloc));
    }
    let mut addresses = primary_address(alloc, interface)?;
    for subnet in interface.secondary.as_slice() {
        addresses.push(subnet.address)?;
    }
    Ok(addresses)
}

/// The primary address of an interface, if it has one.
fn primary_address(alloc: Global, interface: &Interface) -> Result<Vec<u32>, NoMemory>
    ensures { IfOk result (λ addresses. addresses.items ≡ map (λ s. s.address) (option_to_list interface.now.primary)) }
{
    let mut addresses = Vec::new(alloc);
    let Some(subnet) = &interface.primary else {
        return Ok(addresses);
    };
    addresses.push(subnet.address)?;
    Ok(addresses)
}
