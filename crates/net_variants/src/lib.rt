//! Variants of one network: in each some devices have other configurations, and each is compared with the network.
//!
//! The network is compiled once. Of a variant the changed devices are compiled, and with them those that have an end on a lan where one of
//! these answers otherwise; the headers that may meet a difference are found by the ways of both, and walked. Then the network stands
//! as before.
#![tactic(auto)]

mod comparing;
mod kept;
mod variants;

pub use variants::Variants;
