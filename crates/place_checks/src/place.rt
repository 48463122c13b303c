//! A place, by the names of its device and its interface.
ghost use Rattle.std.specs.Prelude.{◌≡◌, IfOk};
ghost use Rattle.place_checks.specs.Index.{place_in};

use net_types::{Duplicate, NoMemory, Text};
use std::alloc::Global;

/// The names of a device and of an interface of it.
#[derive(Clone, Copy)]
pub struct PlaceRef<'a> {
    pub device: &'a Text,
    pub interface: &'a Text,
}

/// The place at an end of a line.
pub fn place_at(end: &(Text, Text)) -> PlaceRef
    ensures { place_in result ≡ end.now }
{
    PlaceRef {
        device: &end.0,
        interface: &end.1,
    }
}

/// Copies of the names of a place.
pub fn copy_place(alloc: Global, place: PlaceRef) -> Result<(Text, Text), NoMemory>
    ensures { IfOk result (λ copy. copy ≡ place_in place.entry) }
{
    let device = place.device.copy(alloc)?;
    Ok((device, place.interface.copy(alloc)?))
}
