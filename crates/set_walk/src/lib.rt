//! Walks of sets of headers: from an ingress, level by level, each place and each stamp with the exact set of the
//! headers that are there; and each outcome with the exact set of the headers whose labels have it.
//!
//! A set is a function of a table of [`Diagrams`](cube_diagram::Diagrams) that gives its members a value (Bryant, IEEE
//! Transactions on Computers, 1986), so what many headers do alike is worked out once, however many cubes they are.
//! The moves of each place are given with the sets of their headers; nothing here looks at a configuration. They are given
//! for the headers of a scope, a set that no walk leaves, and only such headers are walked.
#![tactic(auto)]

mod circles;
mod ends;
mod fields;
mod fits;
mod hash;
mod levels;
mod net;
mod numbers;
mod parts;
pub mod sets;
mod step;
pub mod told;
mod visit_walk;
mod visits;
mod walk;

pub use circles::{Mark, later, same_groups};
pub use ends::OutcomeSet;
pub use fits::keeps_headers;
pub use levels::{first_level, next_level};
pub use net::{Net, PlaceWays, ways_at};
pub use numbers::{LabelNumbers, OutcomeList, label_numbers};
pub use step::{Step, Way, same_step};
pub use told::Steps;
pub use visit_walk::{WalkedSets, labels_and_visitors};
pub use visits::DeviceVisitors;
pub use walk::labels;
