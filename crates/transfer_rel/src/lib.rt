//! What each device of a network does with a whole cube of headers that arrives at one of its interfaces.
//!
//! An answer for a cube goes down the functions of the compiled networks by the cube's bits, in about a hundred steps for
//! each, whatever the sizes of lists and tables. Where a function looks at an open bit the two halves are asked in turn, until
//! two headers are found that take different entries or the halves are joined to one answer.
#![tactic(auto)]

mod answer;
mod arrive;
mod forward;
mod gate;
mod halves;
mod leave;
mod moves;
mod translate;

pub use answer::moves_on;
pub use moves::{CubeMoves, StampMove};
pub use net_forms::{Prepared, Version};
