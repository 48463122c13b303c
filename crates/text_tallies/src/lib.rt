//! How often each text of a list stands in it, and where first: what is counted is in `specs/Tallies.antt`.
#![tactic(auto)]

mod tallies;

pub use tallies::{Seen, Tallies, Tally};
