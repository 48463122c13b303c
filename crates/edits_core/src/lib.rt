//! The review of a network while it is edited as one call: the words of the command line in, a text and a status out.
#![tactic(auto)]

mod editing;
mod inputs;
pub mod laws;
mod reviewing;
mod text;
mod top;
mod words;

pub use top::edits_run;
