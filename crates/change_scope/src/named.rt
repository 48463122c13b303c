//! The headers to some addresses.

ghost use Rattle.std.specs.Prelude.{◌≡◌, ◌<◌, ℕ, Contains, IfOk, IsSome};
ghost use Rattle.cube_alg.specs.Pieces.{value_of};
ghost use Rattle.cube_diagram.specs.Functions.{Keeps, count_of};
ghost use Rattle.hdr_bits.specs.HeaderBits.{number};
ghost use Rattle.change_scope.specs.Translated.{ByDestination, HasNamed, header_to};

use cube_alg::Piece;
use cube_diagram::Diagrams;
use hdr_bits::{Cube, Header};
use net_types::NoMemory;
use std::alloc::Global;

/// The set of all headers to these addresses.
pub(crate) fn headers_to(
    alloc: Global,
    table: &mut Diagrams,
    addresses: &[u32],
) -> Result<u32, NoMemory>
    ensures below { IfOk result (λ r. r < count_of table.new) }
    ensures by { IfOk result (ByDestination table.new) }
    ensures named { IfOk result (HasNamed table.new addresses.now) }
    ensures kept { Keeps table.old table.new }
{
    let pieces = pieces_to(alloc, addresses)?;
    let some = table.first_match(&pieces)?;
    let all = table.by_destination(alloc, some)?;
    Ok(all)
}

// One header to each address.
fn pieces_to(alloc: Global, addresses: &[u32]) -> Result<Vec<Piece>, NoMemory>
    ensures { IfOk result (λ r. (a : ℕ) → Contains addresses.now a → IsSome (value_of r.items (number (header_to a)))) }
{
    let mut pieces = Vec::new(alloc);
    for address in addresses {
        let cube = Cube::of(&header_to(*address));
        pieces.push(Piece { cube, value: 1 })?;
    }
    Ok(pieces)
}

// A header to the address.
fn header_to(address: u32) -> Header
    ensures { result ≡ header_to address }
{
    Header {
        dst: address,
        src: 0,
        proto: 0,
        dport: 0,
        sport: 0,
        flags: 0,
    }
}
