//! The whole of what a device does with the headers that arrive at an interface, as a list: disjoint cubes that hold every
//! header, each with the moves of all its headers.
#![tactic(auto)]

mod moves;
mod order;
mod transfer;

pub use transfer::{Transfer, TransferEntry};
