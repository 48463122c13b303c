//! Copies of one table of diagrams, each with the same functions under the same numbers, in which workers walk side by side.
//!
//! Walks add functions to a table and leave those alone that are there. So a worker may go on in a copy in which another has
//! walked, and finds there what that one found.
#![tactic(auto)]

mod twin;

pub use twin::{Base, Twins};
