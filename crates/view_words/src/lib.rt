//! What the commands of the program `view` share of the command line: the usage, its name and version, and which words may be operands.
#![tactic(auto)]

mod usage;

pub use usage::{USAGE, VERSION, is_operand};
