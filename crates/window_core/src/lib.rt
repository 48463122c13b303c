//! The check of a change window as one call: the words of the command line in, a text and a status out.
#![tactic(auto)]

mod asking;
mod base;
mod change;
mod changes;
mod judging;
pub mod laws;
mod reading;
mod text;
mod top;
mod words;

pub use base::{Base, with_table};
pub use changes::Window;
pub use top::rollout_run;
