//! The headers that loop: those of which a walk from a place is twice at one place with one header.
//!
//! Nothing is done header by header: they are one set, found by walks of sets of headers. Before any question of them is answered,
//! bounds tell for all places at once where no header loops.
#![tactic(auto)]

mod bounds;
mod search;

pub use bounds::{bound_at, loop_bounds};
pub use search::looping;
