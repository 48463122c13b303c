//! The lookups of a network's devices, each kept once it was asked for.

ghost use Rattle.std.specs.Prelude.{◌≡◌, IfOk};
ghost use Rattle.net_types.specs.Order.{hop_cmp, in_order};
ghost use Rattle.net_types.specs.Routes.{hops};
ghost use Rattle.walk_trace.specs.Kept.{IsFirst};
ghost use Rattle.walk_trace.specs.Numbered.{choices};

use indexmap::IndexMap;
use net_types::{Config, Hop, List, NetDevice, NoMemory, Rib};
use net_view::WorldRef;
use std::alloc::Global;
use std::marker::Model;

/// The installed routes of devices that were asked, and the choices that they gave. What isn't kept is found anew.
pub(crate) struct Routes<'a> {
    world: WorldRef<'a>,
    /// By the number of the device's name.
    ribs: IndexMap<u32, Rib>,
    /// By the number of the device's name and the address.
    choices: IndexMap<(u32, u32), List<Hop>>,
}

impl<'a> Drop for Routes<'a> {
    fn drop(self) {
        let Routes {
            world: _,
            ribs: _,
            choices: _,
        } = self;
    }
}

impl<'a> Model for Routes<'a> {
    ghost use Rattle.std.specs.Prelude.{nat_eq};
    ghost use Rattle.indexmap.specs.IndexMap.{get};
    ghost use Rattle.net_types.specs.World.{World};
    ghost use Rattle.net_view.specs.Borrowed.{world_of};
    ghost use Rattle.walk_trace.specs.Kept.{AllKept, AreChoicesOf, IsRibOf, same_pair};

    ghost Value = { World };

    ghost view = { λ r. world_of r.world };

    ghost invariant = { λ r. AllKept (IsRibOf (world_of r.world)) (get nat_eq r.ribs) × AllKept (AreChoicesOf (world_of r.world)) (get same_pair r.choices) };
}

impl<'a> Routes<'a> {
    ghost use Rattle.net_view.specs.Borrowed.{world_of};

    /// Of a network of which nothing is kept yet.
    pub(crate) fn of(alloc: Global, world: WorldRef<'a>) -> Routes<'a>
        ensures { result ≡ world_of world.entry }
    {
        Routes {
            world,
            ribs: IndexMap::new(alloc),
            choices: IndexMap::new(alloc),
        }
    }

    /// The choices of the device's lookup of an address, in order.
    pub(crate) fn choices(
        &self,
        alloc: Global,
        device: &NetDevice,
        address: u32,
    ) -> Result<Vec<Hop>, NoMemory>
        requires { IsFirst self.now device.now }
        ensures { IfOk result (λ answer. answer.items ≡ choices device.now.config address) }
    {
        match self.choices.get(&(device.name, address)) {
            Some(kept) => {
                let copy = kept.copy_items(alloc)?;
                Ok(copy.into_vec())
            }
            None => self.looked_up(alloc, device, address),
        }
    }

    /// Keeps the choices of the device's lookup of an address.
    pub(crate) fn keep(
        &mut self,
        alloc: Global,
        device: &NetDevice,
        address: u32,
    ) -> Result<(), NoMemory>
        requires { IsFirst self.old device.now }
        ensures { self.new ≡ self.old }
    {
        if self.choices.contains_key(&(device.name, address)) {
            return Ok(());
        }
        self.keep_rib(alloc, device)?;
        let hops = self.looked_up(alloc, device, address)?;
        self.choices
            .insert((device.name, address), List::new(hops))?;
        Ok(())
    }

    fn keep_rib(&mut self, alloc: Global, device: &NetDevice) -> Result<(), NoMemory>
        requires { IsFirst self.old device.now }
        ensures { self.new ≡ self.old }
    {
        if self.ribs.contains_key(&device.name) {
            return Ok(());
        }
        let rib = rib_build::build(alloc, &device.config)?;
        self.ribs.insert(device.name, rib)?;
        Ok(())
    }

    fn looked_up(
        &self,
        alloc: Global,
        device: &NetDevice,
        address: u32,
    ) -> Result<Vec<Hop>, NoMemory>
        requires { IsFirst self.now device.now }
        ensures { IfOk result (λ answer. answer.items ≡ choices device.now.config address) }
    {
        match self.ribs.get(&device.name) {
            Some(rib) => choices_by(alloc, rib, address),
            None => choices(alloc, &device.config, address),
        }
    }
}

fn choices(alloc: Global, config: &Config, address: u32) -> Result<Vec<Hop>, NoMemory>
    ensures { IfOk result (λ answer. answer.items ≡ choices config.now address) }
{
    let rib = rib_build::build(alloc, config)?;
    choices_by(alloc, &rib, address)
}

fn choices_by(alloc: Global, rib: &Rib, address: u32) -> Result<Vec<Hop>, NoMemory>
    ensures { IfOk result (λ answer. answer.items ≡ in_order hop_cmp (hops rib.now address)) }
{
    let hops = fib_lookup::choices(alloc, rib, address)?;
    Ok(hops)
}
