//! A function that tells destinations: a header has its destination where that is one of some addresses.

ghost use Rattle.std.specs.Prelude.{◌≡◌, ◌==◌, Some, None, IfOk, if◌then◌else◌};
ghost use Rattle.std.specs.List.{list_any};
ghost use Rattle.hdr_bits.specs.declared.header.Header.{Header};
ghost use Rattle.hdr_bits.specs.HeaderBits.{number, IsHeader};
ghost use Rattle.hdr_bits.specs.CubeBits.{is_in};
ghost use Rattle.cube_alg.specs.Pieces.{value_of};
ghost use Rattle.cube_diagram.specs.Functions.{Keeps};
ghost use Rattle.place_ways.specs.Adding.{TellsAddresses};

use cube_alg::{Piece, Stamp};
use cube_diagram::Diagrams;
use hdr_bits::Cube;
use net_types::NoMemory;
use std::alloc::Global;

/// The function that gives a header its destination where it is one of the addresses, and else nothing.
pub(crate) fn destination_among(
    alloc: Global,
    table: &mut Diagrams,
    addresses: &[u32],
) -> Result<u32, NoMemory>
    ensures told { IfOk result (TellsAddresses table.new addresses.now) }
    ensures kept { Keeps table.old table.new }
{
    let pieces = address_pieces(alloc, addresses)?;
    let function = table.first_match(&pieces)?;
    Ok(function)
}

// A piece for each address, which gives it to the headers with that destination.
fn address_pieces(alloc: Global, addresses: &[u32]) -> Result<Vec<Piece>, NoMemory>
    ensures { IfOk result (λ pieces. (h : Header) → IsHeader h →
        value_of pieces.items (number h) ≡ (if list_any (λ a. h.dst == a) addresses.now then Some h.dst else None)) }
{
    let mut pieces = Vec::with_capacity(alloc, addresses.len())?;
    for address in addresses {
        pieces.push(Piece {
            cube: cube_to(*address),
            value: *address,
        })?;
    }
    Ok(pieces)
}

// The cube of the headers with this destination.
fn cube_to(address: u32) -> Cube
    ensures { (h : Header) → IsHeader h → is_in result (number h) ≡ (h.dst == address) }
{
    let stamp = Stamp {
        src: None,
        dst: Some(address),
        sport: None,
        dport: None,
    };
    stamp.forth(&Cube::all())
}
