//! Why two networks treat packets differently: the least header of each group of a report, followed through both of them.
//!
//! `why_run` is the program `view --why` on any files and sinks, and `traces_run` is `view --traces`, which follows one packet.
#![tactic(auto)]

mod basis;
mod cases;
mod explain;
mod gathered;
mod json;
mod lines;
mod networks;
mod right;
mod traces;
mod why;
mod words;

pub use traces::traces_run;
pub use why::why_run;
