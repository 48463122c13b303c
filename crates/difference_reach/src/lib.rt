//! Which headers of a scope may meet a difference of two networks, for each place at once.
//!
//! Two networks over the same links are compared header by header. A header of which no walk comes to a place where the
//! two do different things needs no walk: its labels are equal. To ask that from each ingress anew would cost the size of
//! the network each time. So the question is turned round: once for all ingresses, each place gets the set of the headers
//! that may meet a difference from there on, a function in one table of diagrams. The sets grow backward from the
//! differences, by the ways of the old network, until they stand still, and that they do is tested. The ways are told for a
//! scope alone; a header beyond it meets no difference where the two networks do the same there.
#![tactic(auto)]

mod differing;
mod grow;
mod own;
mod reach;
mod steps;
mod sweep;
mod used;

pub use reach::Reach;
pub use used::used_positions;
