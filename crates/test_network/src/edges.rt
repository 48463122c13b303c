//! Headers at the edges of sets: where a row of a set begins, and what differs from that in one bit.

use cube_alg::Piece;
use cube_diagram::Diagrams;
use hdr_bits::{Cube, Header};
use net_types::NoMemory;
use std::alloc::Global;

/// As many headers stand at an edge: one with each bit flipped, and itself.
pub(crate) const TURNS: u32 = 113;

/// The most rows whose edges are taken.
const ROWS: usize = 2;

/// The header with the bit of this turn flipped.
pub(crate) fn edge(header: &Header, turn: u32) -> Header {
    if turn >= 112 {
        return *header;
    }
    Header::from_bits(header.to_bits() ^ 1u128.wrapping_shl(turn)).unwrap_or(*header)
}

/// Whether the header is in the set. A number that isn't in the table stands for none.
pub(crate) fn has(table: &Diagrams, set: u32, header: &Header) -> bool {
    (set as usize) < table.count() && table.lookup(set, header).is_some()
}

/// The headers with which rows of the set begin, and the least of all headers.
pub(crate) fn starts(alloc: Global, table: &Diagrams, set: u32) -> Result<Vec<Header>, NoMemory> {
    let mut starts = vec![in alloc; Cube::all().least()]?;
    for row in rows(alloc, table, set)?.iter().take(ROWS) {
        starts.push(row.cube.least())?;
    }
    Ok(starts)
}

fn rows(alloc: Global, table: &Diagrams, set: u32) -> Result<Vec<Piece>, NoMemory> {
    if set as usize >= table.count() {
        return Ok(Vec::new(alloc));
    }
    table.rows(alloc, set)
}
