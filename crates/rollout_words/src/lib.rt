//! What the commands of the program `rollout` share of the command line: the usage, and which words may be operands.
#![tactic(auto)]

mod usage;

pub use usage::{USAGE, is_operand};
