//! The walks of all headers of a cube at once: a graph for a whole region of headers, or the halves of the region where two
//! of its headers take different entries on the way.
#![tactic(auto)]

mod devices;
mod graph;
mod level;
mod outcomes;
mod regions;
mod returns;
mod spot;
mod visit;
mod walk;

pub use graph::Graph;
pub use regions::{Explored, explore};
