//! The canonical rows of a function on packet headers that is given by pieces.
//!
//! A function gives some headers a value. Its rows are the disjoint ternary cubes that hold exactly
//! these headers, cut only where the value depends on a bit: bit `k` of a row is `*` exactly where
//! flipping bit `k` never changes the value, among all headers that agree with the row's earlier
//! bits. So one function has one list of rows, however its pieces were cut.
//!
//! The rows are the paths of the reduced ordered decision diagram of the function to its values, over
//! the bits in header order, with a skipped bit as `*` (Bryant, "Graph-Based Algorithms for Boolean
//! Function Manipulation", 1986). They are canonical, and not the fewest possible cubes.
#![tactic(auto)]

ghost use Rattle.std.specs.Prelude.{All, AllPairs, IfOk, map};
ghost use Rattle.hdr_bits.specs.Rows.{AreRows};
ghost use Rattle.canon_rows.specs.Pieces.{value_of, AreApart, HasValue};

use hdr_bits::Cube;
use indexmap::IndexSet;
use no_memory::NoMemory;
use std::alloc::Global;

mod halves;
pub mod laws;
pub mod recursion;
mod table;

use table::{number_of_pieces, rows_of};

/// How many bits a cube has.
pub(crate) const BITS: u32 = 112;

/// A cube with the value of its headers.
#[derive(Clone, Copy, PartialEq, Eq, Debug)]
pub struct Piece {
    pub cube: Cube,
    pub value: u64,
}

/// The rows of the function that gives a header the value of the first piece that holds it, and
/// gives no value to a header that no piece holds.
///
/// They come in order, each once and with its value: at the first bit where two rows differ, the
/// one with 0 comes before the one with 1. Where pieces are disjoint, the function gives each header
/// of a piece that piece's value.
///
/// It answers `NoMemory` only where there was none.
pub fn canon(alloc: Global, pieces: &[Piece]) -> Result<Vec<Piece>, NoMemory>
    ensures rows { IfOk result (λ rows. AreRows (value_of pieces.now) (map (λ p. p.cube) rows.items)) }
    ensures values { IfOk result (λ rows. All (HasValue (value_of pieces.now)) rows.items) }
    ensures apart { AllPairs AreApart pieces.now → All (HasValue (value_of pieces.now)) pieces.now }
{
    let mut nodes = IndexSet::new(alloc);
    let whole = number_of_pieces(alloc, &mut nodes, pieces.to_vec(alloc)?, BITS)?;
    rows_of(alloc, &nodes, whole, BITS)
}
