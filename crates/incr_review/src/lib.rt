//! A review that is kept while a network is edited: what the headers at each ingress do in the old and in the edited network.
//!
//! An edit changes one device. The headers that didn't visit it do what they did, so their regions are kept, and the headers
//! of the others are walked again, as sets: those of one ingress and one old label together.
//!
//! The definitions are those of `specs/`: what an edit makes of a network in `Edited`, what a region says in `Regions`, and what
//! a review is in `Reviews`; that an edit changes its device alone is a law of [`laws`].
#![tactic(auto)]

mod changed;
mod edited;
mod edits;
mod entries;
mod facts;
mod groups;
pub mod laws;
mod lists;
mod live;
mod numbers;
mod parts;
mod regions;
mod review;
mod routes;
mod rules;
mod same;
mod sections;
mod set_numbers;
mod split;
mod walked;
mod walks;

pub use edited::{EditedDevice, edited_device};
pub use edits::{Edit, EditFail, EditKind};
pub use facts::{FactSet, WalkFact};
pub use regions::{Region, Touched};
pub use review::Review;
