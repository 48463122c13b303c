//! Networks made from a number: a chain of routers, in an old and a new version that differ in one access list.
#![tactic(auto)]

mod devices;
mod draws;
mod networks;

pub use networks::generate;
