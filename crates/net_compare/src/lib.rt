//! The comparison of two networks: per ingress, the rows of the headers that the two treat differently.
//!
//! Which headers may meet a difference of the two networks is found first, once for each place, as sets. From each ingress
//! these headers alone are walked, all together, in both networks, by the worker that first comes to that ingress. So
//! nothing is done cube by cube, and the work is that of the sets; the leaves are those of the one function that gives a
//! header its two labels where they differ.
#![tactic(auto)]

mod alone;
mod classes;
mod compared;
mod comparison;
mod ingress;
mod known;
pub mod laws;
mod pairs;
mod slots;
mod source;

pub use comparison::{ScopedWays, compare, compare_worlds, scoped_ways};
pub use known::{NetPair, compare_known};
pub use laws::Affected;
