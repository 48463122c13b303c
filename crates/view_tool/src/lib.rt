//! The program `view` as one call: it hands the words of the command line to the command that the first of them names.
#![tactic(auto)]

mod commands;

pub use commands::{Command, tool};
