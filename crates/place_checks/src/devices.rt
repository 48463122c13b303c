//! The devices of a network, found by a hash of their names.
ghost use Rattle.std.specs.Prelude.{◌≡◌, IfOk, find, slice_get, position};
ghost use Rattle.std.specs.Option.{option_copied};
ghost use Rattle.topo_links.specs.ByName.{is_named};
ghost use Rattle.topo_links.specs.Check.{host_of, interface_name, device_named, interface_at};
ghost use Rattle.place_checks.specs.Index.{firsts_of, place_in, AreDevices};

use crate::place::PlaceRef;
use net_types::{Interface, Loaded, NoMemory, Text};
use std::alloc::Global;
use topo_links::NameIndex;

/// Devices by their names. Of several with one name the first counts.
pub struct Devices<'a> {
    pub folder: &'a [Loaded],
    pub names: NameIndex,
    pub firsts: Vec<&'a Loaded>,
}

impl<'a> Drop for Devices<'a> {
    fn drop(self) {
        let Devices {
            folder: _,
            names: _,
            firsts: _,
        } = self;
    }
}

impl<'a> Devices<'a> {
    /// The devices of a folder by their names.
    pub fn of(alloc: Global, folder: &'a [Loaded]) -> Result<Devices<'a>, NoMemory>
        ensures folder { IfOk result (λ devices. devices.folder.now ≡ folder.now) }
        ensures devices { IfOk result AreDevices }
    {
        let mut names = NameIndex::new(alloc);
        let mut firsts = Vec::new(alloc);
        for device in folder {
            let name = &device.config.hostname;
            if names.has(name) {
                continue;
            }
            names.add(alloc, name)?;
            firsts.push(device)?;
        }
        Ok(Devices {
            folder,
            names,
            firsts,
        })
    }

    /// The first at a place.
    fn first(&self, place: usize) -> Option<&'a Loaded>
        ensures { option_copied result ≡ slice_get (firsts_of self.now) place }
    {
        let Some(first) = self.firsts.get(place) else {
            return None;
        };
        Some(*first)
    }

    /// The first device of this name.
    pub fn get(&self, name: &Text) -> Option<&'a Loaded>
        requires { AreDevices self.now }
        ensures { option_copied result ≡ device_named self.now.folder.now name.now }
    {
        let Some(place) = self.names.place(name) else {
            return None;
        };
        self.first(place)
    }

    /// The interface at a place.
    pub fn interface(&self, place: PlaceRef) -> Option<&'a Interface>
        requires { AreDevices self.now }
        ensures { option_copied result ≡ interface_at self.now.folder.now (place_in place.entry) }
    {
        let Some(device) = self.get(place.device) else {
            return None;
        };
        interface_of(device, place.interface)
    }
}

/// The first interface of this name of a device.
fn interface_of<'a>(device: &'a Loaded, name: &Text) -> Option<&'a Interface>
    ensures { option_copied result ≡ find (is_named interface_name name.now) device.now.config.interfaces }
{
    device
        .config
        .interfaces
        .as_slice()
        .iter()
        .find(|i| name.same(&i.name))
}
