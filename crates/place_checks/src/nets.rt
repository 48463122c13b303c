//! Networks as they are looked up: by devices, and by subnets.
ghost use Rattle.std.specs.Prelude.{◌≡◌, IfOk};
ghost use Rattle.place_checks.specs.Index.{IsNet};
ghost use Rattle.place_checks.specs.Sights.{folder_of};

use crate::Networks;
use crate::devices::Devices;
use crate::subnets::SubnetIndex;
use net_types::{Loaded, NoMemory};
use std::alloc::Global;

/// A network by its devices and its subnets.
pub struct Net<'a> {
    pub devices: Devices<'a>,
    pub subnets: SubnetIndex<'a>,
}

impl<'a> Drop for Net<'a> {
    fn drop(self) {
        let Net {
            devices: _,
            subnets: _,
        } = self;
    }
}

/// Two networks, and which of the two is judged.
#[derive(Clone, Copy)]
pub struct Nets<'n, 'a> {
    pub old: &'n Net<'a>,
    pub new: &'n Net<'a>,
    pub judged: Networks,
}

impl<'a> Net<'a> {
    /// The network of a folder.
    pub fn of(alloc: Global, folder: &'a [Loaded]) -> Result<Net<'a>, NoMemory>
        ensures folder { IfOk result (λ net. folder_of net ≡ folder.now) }
        ensures net { IfOk result IsNet }
    {
        Ok(Net {
            devices: Devices::of(alloc, folder)?,
            subnets: SubnetIndex::of(alloc, folder)?,
        })
    }
}
