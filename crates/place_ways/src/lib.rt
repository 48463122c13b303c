//! The ways of a place of a compiled network: each move that its device makes of headers that arrive there, with the exact
//! set of the headers of which it is made.
//!
//! The sets are made of the functions of the compiled device, stage by stage, in the order in which a packet meets them
//! (IOS: NAT order of operation): input list, translation from outside, lookup, translation from inside, output list,
//! link. No stage lists cubes of headers. Places whose ways are known to be the same share them,
//! also places of two networks.
#![tactic(auto)]

mod add;
mod addresses;
mod arrive;
mod base;
mod device_ways;
mod forward;
mod leave;
mod link;
mod parts;
mod seat;
mod sets;
mod ways;

pub use device_ways::{WiredDevice, put_device};
pub use ways::{BothWays, NetworkWays, ways_of_both, ways_of_one};
