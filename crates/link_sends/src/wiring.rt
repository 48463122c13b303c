//! The links of a world, indexed, and what is asked of them.

ghost use Rattle.std.specs.Prelude.{◌≡◌, ◌==◌, IfOk, IsTrue, position, slice_get, option_and_then};
ghost use Rattle.std.specs.Option.{option_copied};
ghost use Rattle.indexmap.specs.IndexMap.{get};
ghost use Rattle.net_types.specs.World.{same_place};
ghost use Rattle.net_view.specs.Borrowed.{world_of};
ghost use Rattle.link_sends.specs.Sending.{SendAlike, OfSentOn};
ghost use Rattle.link_sends.specs.Wired.{TellsSent};

use crate::device_index::DeviceIndex;
use crate::segments::{segment_numbers, wires};
use crate::sends::{are_alike, send_over};
use crate::wire::Wire;
use crate::{Next, Sent};
use cube_alg::OnCube;
use cube_diagram::Diagrams;
use hdr_bits::Cube;
use indexmap::IndexMap;
use net_types::Place;
use net_view::WorldRef;
use no_memory::NoMemory;
use std::alloc::Global;
use std::marker::Model;

/// The links of a world, indexed: it is made in near linear time, and a packet is sent without a scan.
pub struct Wiring<'a> {
    index: DeviceIndex<'a>,
    numbers: IndexMap<Place, usize>,
    wires: Vec<Wire>,
    diagrams: Diagrams,
}

impl<'a> Drop for Wiring<'a> {
    fn drop(self) {
        let Wiring {
            index: _,
            numbers: _,
            wires: _,
            diagrams: _,
        } = self;
    }
}

impl<'a> Model for Wiring<'a> {
    ghost use Rattle.indexmap.specs.IndexMap.{get};
    ghost use Rattle.net_types.specs.World.{World, same_place};
    ghost use Rattle.link_sends.specs.Wired.{IsWired};

    ghost Value = { World };

    ghost view = { λ w. w.index };

    ghost invariant = { λ w. IsWired w.index w.diagrams (get same_place w.numbers) w.wires.items };
}

impl<'a> Wiring<'a> {
    /// The links of this world, indexed. It answers `NoMemory` only where there was none.
    ///
    /// Every world is taken: an end may be absent, of two devices or segments of one name or place the first
    /// counts, and of two ends with one address the first that isn't the sender.
    pub fn of(alloc: Global, world: WorldRef<'a>) -> Result<Wiring<'a>, NoMemory>
        ensures { IfOk result (λ wiring. wiring ≡ world_of world.entry) }
    {
        let segments = world.links.segments.as_slice();
        let numbers = segment_numbers(alloc, segments)?;
        let index = DeviceIndex::of(alloc, world)?;
        let mut diagrams = Diagrams::new(alloc)?;
        let wires = wires(alloc, &index, segments, &mut diagrams)?;
        Ok(Wiring {
            index,
            numbers,
            wires,
            diagrams,
        })
    }

    /// What becomes of the packets with headers of the cube that are sent out of the interface to the next address.
    ///
    /// It takes no memory, and at most 226 steps in diagrams. A cube divides only by its destination; nothing is
    /// claimed of whether it must.
    pub fn send_on(&self, interface: Place, next: Next, cube: &Cube) -> OnCube<Sent>
        ensures { OfSentOn self.now interface next cube.now result }
    {
        let Some(wire) = wire_at(&self.numbers, &self.wires, interface) else {
            return OnCube::All { answer: Sent::Exit };
        };
        send_over(&self.diagrams, wire, interface, next, cube)
    }

    /// Whether this world and another are known to send alike out of an interface: packets of every header, to every
    /// next address. It takes no memory.
    ///
    /// It is told by the interface's segments alone, in about as many steps as their ends have addresses. It is true
    /// where the interface is on no segment of either world, where the first other end of a point-to-point segment is
    /// the same in both, and where the ends of a lan have the same places, addresses and state in both, in one order.
    /// A false answer says nothing.
    pub fn sends_alike(&self, other: &Wiring, interface: Place) -> bool
        ensures { IsTrue result → SendAlike self.now other.now interface }
    {
        are_alike(self.wire(interface), other.wire(interface), interface)
    }

    /// The position of the first device of this name. It takes no memory and no scan.
    pub fn device_position(&self, name: u32) -> Option<usize>
        ensures { result ≡ position (λ d. d.name == name) self.now.network.devices }
    {
        self.index.device_position(name)
    }

    /// What is kept of the segment of a place.
    pub(crate) fn wire(&self, place: Place) -> Option<&Wire>
        ensures { TellsSent self.now place (option_copied result) }
    {
        wire_at(&self.numbers, &self.wires, place)
    }
}

// What is kept of the segment of a place.
fn wire_at<'a>(
    numbers: &IndexMap<Place, usize>,
    wires: &'a [Wire],
    place: Place,
) -> Option<&'a Wire>
    ensures { option_copied result ≡ option_and_then (slice_get wires.now) (get same_place numbers.now place) }
{
    let Some(number) = numbers.get(&place) else {
        return None;
    };
    wires.get(*number)
}
