//! What `rollout audit` wrote of a network, shown to a person with the network's folder beside it.
//!
//! Each finding is shown as the entry's own line, with its file and its place there, and so is each entry that takes its packets.
//! A last entry of a list that denies everything stands apart: the end of a list does so too. `audit_run` is the program on any
//! files and sinks.
#![tactic(auto)]

mod audited;
mod findings;
mod folder;
mod groups;
mod json;
mod lists;
mod printed;
mod said;
mod text;
mod top;
mod unknown;
mod words;

pub use top::audit_run;
