//! The audit of a network as one call: the words of the command line in, a text and a status out.
#![tactic(auto)]

mod audits;
mod text;
mod top;
mod words;

pub use top::audit_run;
