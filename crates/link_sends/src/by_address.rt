//! What becomes of packets by the addresses to which they are sent.

ghost use Rattle.std.specs.Prelude.{◌≡◌, ℕ, nat_eq, None, Contains, IfOk};
ghost use Rattle.std.specs.Option.{option_copied};
ghost use Rattle.hdr_bits.specs.declared.header.Header.{Header};
ghost use Rattle.indexmap.specs.IndexMap.{get};
ghost use Rattle.net_types.specs.Moves.{send};
ghost use Rattle.net_types.specs.World.{segment_of};
ghost use Rattle.link_sends.specs.FirstPlaces.{other_than};
ghost use Rattle.link_sends.specs.Sending.{sent_move};
ghost use Rattle.link_sends.specs.Sends.{sent_p2p, sent_lan, sent_over, sent_from};

use crate::first_two::other_than;
use crate::holders::Holders;
use crate::wire::Wire;
use crate::{Sent, Wiring};
use net_types::Place;
use no_memory::NoMemory;
use std::alloc::Global;

/// The addresses that matter on a segment.
#[derive(Drop)]
pub struct Addresses {
    /// What becomes of packets to one of these is told by [`sent_to`](Wiring::sent_to).
    pub listed: Vec<u32>,
    /// What becomes of packets to any other address.
    pub otherwise: Sent,
}

ghost use Rattle.link_sends.specs.ByAddress.{TellsOthers};

impl<'a> Wiring<'a> {
    /// What becomes of packets, of every header, that are sent out of the interface to this next address. It takes no
    /// memory.
    pub fn sent_to(&self, interface: Place, address: u32) -> Sent
        ensures { (h : Header) → send self.now interface address h (segment_of self.now interface) ≡ sent_move interface h result }
    {
        sent_from(self.wire(interface), interface, address)
    }

    /// The addresses of the interface's segment: those of its ends on a lan, and none where the next address doesn't
    /// matter; with what becomes of packets to any other address. An address may stand twice.
    pub fn addresses(&self, alloc: Global, interface: Place) -> Result<Addresses, NoMemory>
        ensures { IfOk result (λ r. (a : ℕ) → (Contains r.listed.items a → ⊥) → (h : Header) → send self.now interface a h (segment_of self.now interface) ≡ sent_move interface h r.otherwise) }
    {
        addresses_from(alloc, self.wire(interface), interface)
    }
}

fn sent_from(wire: Option<&Wire>, e: Place, address: u32) -> Sent
    ensures { result ≡ sent_from (option_copied wire.entry) e address }
{
    match wire {
        None => Sent::Exit,
        Some(wire) => sent_over(wire, e, address),
    }
}

fn sent_over(wire: &Wire, e: Place, address: u32) -> Sent
    ensures { result ≡ sent_over wire.now e address }
{
    match wire {
        Wire::PointToPoint { ends } => sent_p2p(other_than(e, *ends)),
        Wire::Lan { live, silent } => sent_lan(
            holder(live, e, address),
            holder(silent, e, address),
        ),
    }
}

fn sent_p2p(other: Option<Place>) -> Sent
    ensures { result ≡ sent_p2p other }
{
    match other {
        None => Sent::Exit,
        Some(place) => Sent::Go { place },
    }
}

fn sent_lan(live: Option<Place>, silent: Option<Place>) -> Sent
    ensures { result ≡ sent_lan live silent }
{
    match live {
        Some(place) => Sent::Go { place },
        None => match silent {
            Some(_) => Sent::Lost,
            None => Sent::Exit,
        },
    }
}

// The first of the ends with this address that isn't `e`.
fn holder(holders: &Holders, e: Place, address: u32) -> Option<Place>
    ensures { result ≡ other_than e (get nat_eq holders.now.ends address) }
{
    other_than(e, holders.ends.get(&address).copied())
}

fn addresses_from(alloc: Global, wire: Option<&Wire>, e: Place) -> Result<Addresses, NoMemory>
    ensures { IfOk result (TellsOthers (option_copied wire.entry) e) }
{
    match wire {
        None => Ok(Addresses {
            listed: Vec::new(alloc),
            otherwise: Sent::Exit,
        }),
        Some(wire) => addresses_over(alloc, wire, e),
    }
}

fn addresses_over(alloc: Global, wire: &Wire, e: Place) -> Result<Addresses, NoMemory>
    ensures { IfOk result (λ r. (a : ℕ) → (Contains r.listed.items a → ⊥) → sent_over wire.now e a ≡ r.otherwise) }
{
    match wire {
        Wire::PointToPoint { ends } => Ok(Addresses {
            listed: Vec::new(alloc),
            otherwise: sent_p2p(other_than(e, *ends)),
        }),
        Wire::Lan { live, silent } => {
            let listed = held(alloc, live, silent)?;
            Ok(Addresses {
                listed,
                otherwise: Sent::Exit,
            })
        }
    }
}

// The addresses that one of the ends has.
fn held(alloc: Global, live: &Holders, silent: &Holders) -> Result<Vec<u32>, NoMemory>
    ensures live { IfOk result (λ r. (a : ℕ) → (Contains r.items a → ⊥) → get nat_eq live.now.ends a ≡ None) }
    ensures silent { IfOk result (λ r. (a : ℕ) → (Contains r.items a → ⊥) → get nat_eq silent.now.ends a ≡ None) }
{
    let mut addresses = Vec::new(alloc);
    addresses.extend_from_slice(live.ends.keys().as_slice())?;
    addresses.extend_from_slice(silent.ends.keys().as_slice())?;
    Ok(addresses)
}
