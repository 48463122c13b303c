//! The ends of a lan that have an address: which of them receives a packet, for a whole cube of headers.

ghost use Rattle.std.specs.Prelude.{◌≡◌, ◌<◌, ℕ, Bool, nat_eq, Option, Some, None, IfOk, OnOk, IsTrue, option_map, option_and_then, if◌then◌else◌, ◌==◌};
ghost use Rattle.std.specs.List.{list_any};
ghost use Rattle.hdr_bits.specs.declared.header.Header.{Header};
ghost use Rattle.hdr_bits.specs.HeaderBits.{number, IsHeader};
ghost use Rattle.hdr_bits.specs.CubeBits.{is_in};
ghost use Rattle.cube_alg.specs.Pieces.{value_of};
ghost use Rattle.cube_diagram.specs.Functions.{Keeps};
ghost use Rattle.indexmap.specs.IndexMap.{get};
ghost use Rattle.link_sends.specs.FirstPlaces.{other_than};

use crate::Next;
use crate::first_two::{FirstTwo, other_than};
use cube_alg::{OnCube, Piece, Stamp};
use cube_diagram::Diagrams;
use hdr_bits::Cube;
use indexmap::IndexMap;
use net_types::Place;
use no_memory::NoMemory;
use std::alloc::Global;

/// Ends of a lan by their addresses, with the function that gives a header its destination where one of them has it.
#[derive(Drop)]
pub(crate) struct Holders {
    pub ends: IndexMap<u32, FirstTwo>,
    pub function: u32,
}

ghost use Rattle.link_sends.specs.Receivers.{TellsHeld, OfNext};

impl Holders {
    /// These ends, with their function in the table.
    pub(crate) fn of(
        alloc: Global,
        diagrams: &mut Diagrams,
        ends: IndexMap<u32, FirstTwo>,
    ) -> Result<Holders, NoMemory>
        ensures ends { IfOk result (λ holders. holders.ends ≡ ends) }
        ensures function { IfOk result (λ holders. TellsHeld diagrams.new holders.function (get nat_eq holders.ends)) }
        ensures kept { Keeps diagrams.old diagrams.new }
    {
        let pieces = address_pieces(alloc, ends.keys().as_slice())?;
        let function = diagrams.first_match(&pieces)?;
        Ok(Holders { ends, function })
    }

    /// The first of the ends with the next address that isn't `e`.
    pub(crate) fn receiver(
        &self,
        diagrams: &Diagrams,
        e: Place,
        next: Next,
        cube: &Cube,
    ) -> OnCube<Option<Place>>
        requires { TellsHeld diagrams.now self.now.function (get nat_eq self.now.ends) }
        ensures { OfNext (λ a. other_than e (get nat_eq self.now.ends a)) next cube.now result }
    {
        match next {
            Next::Address { address } => OnCube::All {
                answer: self.end_with(e, address),
            },
            Next::Destination => match diagrams.divide(self.function, cube) {
                OnCube::Divides { bit } => OnCube::Divides { bit },
                OnCube::All { answer } => OnCube::All {
                    answer: self.end_with_any(e, answer),
                },
            },
        }
    }

    /// Whether the ends are the same for each address, and were added in the same order.
    pub(crate) fn has_same_ends(&self, other: &Holders) -> bool
        ensures { IsTrue result → self.now.ends.entries ≡ other.now.ends.entries }
    {
        self.ends.as_slice() == other.ends.as_slice()
    }

    // The first of the ends with this address that isn't `e`.
    fn end_with(&self, e: Place, address: u32) -> Option<Place>
        ensures { result ≡ other_than e (get nat_eq self.now.ends address) }
    {
        other_than(e, self.ends.get(&address).copied())
    }

    fn end_with_any(&self, e: Place, address: Option<u32>) -> Option<Place>
        ensures { result ≡ option_and_then (λ a. other_than e (get nat_eq self.now.ends a)) address }
    {
        let Some(address) = address else {
            return None;
        };
        self.end_with(e, address)
    }
}

// The cube of the headers with this destination.
fn cube_to(address: u32) -> Cube
    ensures { (h : Header) → IsHeader h → is_in result (number h) ≡ (h.dst == address) }
{
    let stamp = Stamp {
        src: None,
        dst: Some(address),
        sport: None,
        dport: None,
    };
    stamp.forth(&Cube::all())
}

// A piece for each address, which gives it to the headers with that destination.
fn address_pieces(alloc: Global, addresses: &[u32]) -> Result<Vec<Piece>, NoMemory>
    ensures { IfOk result (λ pieces. (h : Header) → IsHeader h →
        value_of pieces.items (number h) ≡ (if list_any (λ a. h.dst == a) addresses.now then Some h.dst else None)) }
{
    let mut pieces = Vec::with_capacity(alloc, addresses.len())?;
    for address in addresses {
        pieces.push(Piece {
            cube: cube_to(*address),
            value: *address,
        })?;
    }
    Ok(pieces)
}
