//! Long access lists of two networks, or of one, and the routes of devices with many, made functions by several workers beside one
//! another before the networks are compiled.
//!
//! Each worker has tables of its own, and its functions are taken over from there to the tables of the networks. So what is
//! compiled is the same as without workers, and only the time differs.
#![tactic(auto)]

mod fates;
mod known;
mod lists;
mod prepared;
mod shares;
mod wanted;

pub use prepared::{formed_by_workers, prepared_by_workers};
