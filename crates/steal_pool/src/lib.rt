//! Lanes of regions, from which several threads take, and workers that share a board of open regions.
//!
//! A lane ([`lane`]) has one [`Owner`], which pushes tasks and takes them, and any of up to 64 [`Thief`]s, which other
//! threads hold. Each task that was pushed is handed out at most once, the task of least place first.
//!
//! [`run`] finds the leaves of all roots by a [`Splitter`], with [`Workers`] that take tasks from their lanes and steal from
//! those of others.
#![tactic(auto)]

mod ends;
mod gate;
pub mod laws;
mod pieces;
mod plan;
mod pool;
mod roots;
mod rule;
mod settling;
mod splitter;
mod workers;

pub use ends::{Owner, Thief, lane};
pub use gate::{Gate, OpenGate};
pub use roots::{roots_of, whole_slots};
pub use rule::Task;
pub use splitter::{Splitter, Worked, halves};
pub use workers::{Workers, run};
