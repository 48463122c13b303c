//! A network as a trace looks at it.

use crate::moves::Moves;
use crate::routes::Routes;
use hdr_bits::Header;
use link_sends::{Sent, Wiring};
use net_types::{Hop, Move, NetDevice, NoMemory, Place, State};
use net_view::{SeatRef, WorldRef, device_at, seat_numbered};
use std::alloc::Global;
use std::marker::Model;

/// A network with its links, which are indexed, and what is kept of its devices: where many packets are traced, each of them finds
/// what the earlier ones asked. What is kept changes no answer.
pub struct Site<'a> {
    world: WorldRef<'a>,
    wiring: Wiring<'a>,
    routes: Routes<'a>,
    moves: Moves<'a>,
}

impl<'a> Drop for Site<'a> {
    fn drop(self) {
        let Site {
            world: _,
            wiring: _,
            routes: _,
            moves: _,
        } = self;
    }
}

impl<'a> Model for Site<'a> {
    ghost use Rattle.std.specs.Prelude.{◌≡◌};
    ghost use Rattle.net_types.specs.World.{World};
    ghost use Rattle.net_view.specs.Borrowed.{world_of};

    ghost Value = { World };

    ghost view = { λ s. world_of s.world };

    ghost invariant = { λ s. (s.wiring ≡ world_of s.world) × (s.routes ≡ world_of s.world) × (s.moves ≡ world_of s.world) };
}

impl<'a> Site<'a> {
    ghost use Rattle.std.specs.Prelude.{◌≡◌, ◌==◌, IfOk, IfSome, find, option_map};
    ghost use Rattle.std.specs.Option.{option_copied};
    ghost use Rattle.net_types.specs.Moves.{send};
    ghost use Rattle.net_types.specs.World.{seat_at, segment_of};
    ghost use Rattle.net_view.specs.Borrowed.{world_of, seat_of};
    ghost use Rattle.walk_trace.specs.Kept.{IsFirst, IsSeated};
    ghost use Rattle.walk_trace.specs.Numbered.{choices, ordered_moves};

    /// A network of which nothing is kept yet. It is made in near linear time.
    pub fn of(alloc: Global, world: WorldRef<'a>) -> Result<Site<'a>, NoMemory>
        ensures { IfOk result (λ site. site ≡ world_of world.entry) }
    {
        let wiring = Wiring::of(alloc, world)?;
        Ok(Site {
            world,
            wiring,
            routes: Routes::of(alloc, world),
            moves: Moves::of(alloc, world),
        })
    }

    /// What stands at a place.
    pub(crate) fn seat(&self, place: Place) -> Option<SeatRef<'a>>
        ensures seat { option_map seat_of result ≡ seat_at self.now place }
        ensures first { IfSome result (λ seat. IsSeated self.now (seat_of seat)) }
    {
        self.seat_at(place)
    }

    // The same, without a scan of the devices.
    fn seat_at(&self, place: Place) -> Option<SeatRef<'a>>
        ensures { option_map seat_of result ≡ seat_at self.now place }
    {
        let Some(device) = self.device_named(place.device) else {
            return None;
        };
        seat_numbered(device, place.interface)
    }

    // The first device of this name, without a scan.
    fn device_named(&self, name: u32) -> Option<&'a NetDevice>
        ensures { option_copied result ≡ find (λ d. d.name == name) self.now.network.devices }
    {
        let Some(position) = self.wiring.device_position(name) else {
            return None;
        };
        device_at(self.world.network.devices.as_slice(), position)
    }

    /// What becomes of a packet that is sent out of the interface to the next address.
    pub(crate) fn send(&self, interface: Place, address: u32, h: &Header) -> Move
        ensures { result ≡ send self.now interface address h.now (segment_of self.now interface) }
    {
        sent_move(interface, h, self.wiring.sent_to(interface, address))
    }

    /// The choices of a device's lookup of an address, in order.
    pub(crate) fn choices(
        &self,
        alloc: Global,
        device: &NetDevice,
        address: u32,
    ) -> Result<Vec<Hop>, NoMemory>
        requires { IsFirst self.now device.now }
        ensures { IfOk result (λ answer. answer.items ≡ choices device.now.config address) }
    {
        self.routes.choices(alloc, device, address)
    }

    /// Keeps the choices of a device's lookup of an address.
    pub(crate) fn keep_choices(
        &mut self,
        alloc: Global,
        device: &NetDevice,
        address: u32,
    ) -> Result<(), NoMemory>
        requires { IsFirst self.old device.now }
        ensures { self.new ≡ self.old }
    {
        self.routes.keep(alloc, device, address)
    }

    /// The moves of a state, if they are kept.
    pub(crate) fn kept_moves(&self, state: &State) -> Option<&[Move]>
        ensures { IfSome result (λ moves. moves.now ≡ ordered_moves self.now state.now) }
    {
        self.moves.get(state)
    }

    /// Keeps the moves of a state.
    pub(crate) fn keep_moves(&mut self, state: &State, moves: Vec<Move>) -> Result<(), NoMemory>
        requires { moves.items ≡ ordered_moves self.old state.now }
        ensures { self.new ≡ self.old }
    {
        self.moves.keep(state, moves)
    }
}

ghost use Rattle.std.specs.Prelude.{◌≡◌};
ghost use Rattle.link_sends.specs.Sending.{sent_move};

fn sent_move(interface: Place, h: &Header, sent: Sent) -> Move
    ensures { result ≡ sent_move interface h.now sent }
{
    match sent {
        Sent::Exit => Move::Exit {
            place: interface,
            header: *h,
        },
        Sent::Go { place } => Move::Go { place, header: *h },
        Sent::Lost => Move::Lost,
    }
}
