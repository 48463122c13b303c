//! The doctor as one call: the words of the command line in, a text and a status out.
#![tactic(auto)]

mod looking;
mod others;
mod reading;
mod top;
mod usage;
mod words;

pub use top::doctor_run;
