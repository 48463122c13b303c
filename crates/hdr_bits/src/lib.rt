//! Packet headers of 112 bits, and ternary cubes of them.
//!
//! A header is the number that its six fields make, the most significant bit first: destination 32 bits,
//! source 32, protocol 8, destination port 16, source port 16, flags 8. A cube is a string of 112 bits,
//! each 0, 1 or `*`, and stands for the headers that agree with it at each bit that isn't `*` (header
//! space: Kazemian, Varghese and McKeown, NSDI 2012; the order of the fields is this product's own).
//! `specs/Rows.antt` says which cubes are the canonical rows of a function on headers.
#![tactic(auto)]

mod cube;
mod header;

pub use cube::Cube;
pub use header::Header;
