//! Sets of headers as ternary cubes: what two have in common, halves, differences, the cut of a region by
//! first match, and stamps, which replace fields of a header.
#![tactic(auto)]

mod cut;
mod on_cube;
mod pair;
mod rest;
mod stamp;

pub use cut::{Piece, cut_within, first_cut};
use hdr_bits::Cube;
pub use on_cube::OnCube;
pub use pair::{covers, meet, meets, split};
pub use rest::minus;
pub use stamp::Stamp;

/// A cube of headers that enter the network at the ingress with this number.
#[derive(Clone, Copy, PartialEq, Eq, Debug)]
pub struct Region {
    /// The ingress's number.
    pub slot: u32,
    pub cube: Cube,
}
