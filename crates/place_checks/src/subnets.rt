//! The first place of each subnet of a network, found by a hash of the subnet's first bits.
ghost use Rattle.std.specs.Prelude.{◌≡◌, ◌++◌, ◌∷◌, [], ℕ, List, IfOk, OnOk, find, map, flat_map, option_map, option_to_list};
ghost use Rattle.net_types.specs.Routes.{prefix_number};

use crate::place::PlaceRef;
use indexmap::IndexMap;
use net_types::{Interface, Loaded, NoMemory, Subnet, first_bits};
use std::alloc::Global;

/// The first place of each subnet, by the first bits of its addresses, as a number, and its length.
pub struct SubnetIndex<'a> {
    pub firsts: IndexMap<(u32, u8), PlaceRef<'a>>,
}

impl<'a> Drop for SubnetIndex<'a> {
    fn drop(self) {
        let SubnetIndex { firsts: _ } = self;
    }
}

impl<'a> SubnetIndex<'a> {
    ghost use Rattle.place_checks.specs.Homes.{Home, home_of, interface_homes, device_homes, homes, has_bits, home_place};
    ghost use Rattle.place_checks.specs.Index.{AreHomes, place_in};

    /// The subnets of a folder.
    pub fn of(alloc: Global, folder: &'a [Loaded]) -> Result<SubnetIndex<'a>, NoMemory>
        ensures { IfOk result (λ subnets. AreHomes subnets (homes folder.now)) }
    {
        let mut subnets = SubnetIndex {
            firsts: IndexMap::new(alloc),
        };
        for device in folder {
            subnets.add_device(device)?;
        }
        Ok(subnets)
    }

    fn add_device(&mut self, device: &'a Loaded) -> Result<(), NoMemory>
        ensures { OnOk result ((hs : List Home) → AreHomes self.old hs → AreHomes self.new (hs ++ device_homes device.now)) }
    {
        for interface in device.config.interfaces.as_slice() {
            self.add_interface(device, interface)?;
        }
        Ok(())
    }

    fn add_interface(
        &mut self,
        device: &'a Loaded,
        interface: &'a Interface,
    ) -> Result<(), NoMemory>
        ensures { OnOk result ((hs : List Home) → AreHomes self.old hs → AreHomes self.new (hs ++ interface_homes device.now interface.now)) }
    {
        if interface.shut {
            return Ok(());
        }
        self.add_primary(device, interface)?;
        self.add_secondary(device, interface)
    }

    fn add_primary(&mut self, device: &'a Loaded, interface: &'a Interface) -> Result<(), NoMemory>
        ensures { OnOk result ((hs : List Home) → AreHomes self.old hs → AreHomes self.new (hs ++ map (home_of device.now interface.now) (option_to_list interface.now.primary))) }
    {
        match &interface.primary {
            None => Ok(()),
            Some(subnet) => self.add(device, interface, subnet),
        }
    }

    fn add_secondary(
        &mut self,
        device: &'a Loaded,
        interface: &'a Interface,
    ) -> Result<(), NoMemory>
        ensures { OnOk result ((hs : List Home) → AreHomes self.old hs → AreHomes self.new (hs ++ map (home_of device.now interface.now) interface.now.secondary)) }
    {
        for subnet in interface.secondary.as_slice() {
            self.add(device, interface, subnet)?;
        }
        Ok(())
    }

    /// Adds a place of a subnet, where it is the first one.
    fn add(
        &mut self,
        device: &'a Loaded,
        interface: &'a Interface,
        subnet: &Subnet,
    ) -> Result<(), NoMemory>
        ensures { OnOk result ((hs : List Home) → AreHomes self.old hs → AreHomes self.new (hs ++ home_of device.now interface.now subnet.now ∷ [])) }
    {
        let key = (first_bits(subnet.length, subnet.address), subnet.length);
        if self.firsts.contains_key(&key) {
            return Ok(());
        }
        let place = PlaceRef {
            device: &device.config.hostname,
            interface: &interface.name,
        };
        self.firsts.insert(key, place)?;
        Ok(())
    }

    /// The first place of a subnet.
    pub fn first(&self, subnet: &Subnet) -> Option<PlaceRef<'a>>
        ensures { (hs : List Home) → AreHomes self.now hs → option_map place_in result ≡ option_map home_place (find (has_bits (prefix_number subnet.now.length subnet.now.address) subnet.now.length) hs) }
    {
        let key = (first_bits(subnet.length, subnet.address), subnet.length);
        self.firsts.get(&key).copied()
    }
}
