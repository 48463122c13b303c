//! What `review ask` wrote of the questions of a file, once or before a change and after it, shown to people and machines.
//!
//! Each question is shown with its line and its words, and where it fails with its packet in words: first those that held before and
//! fail now, then those that fail in both, then those that hold only now. `answers_run` is the program on any files and sinks.
#![tactic(auto)]

mod answered;
mod asked;
mod groups;
mod headers;
mod json;
mod packet;
mod reading;
mod said;
mod text;
mod top;
mod words;

pub use top::answers_run;
