//! The comparison of a network with variants of it as one call: the words of the command line in, a text and a status out.
#![tactic(auto)]

mod comparing;
mod inputs;
pub mod laws;
mod reading;
mod text;
mod top;
mod words;

pub use top::variants_run;
