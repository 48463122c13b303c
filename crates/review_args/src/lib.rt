//! The words of the command line.
//!
//! The words are those after the program's name: a command, its positional words, and its options.
#![tactic(auto)]

mod numbers;
mod parts;
mod reader;
mod request;

pub use numbers::header;
pub use reader::read_words;
pub use request::{Asking, Comparison, Job, Packet, Request, Tracing, WordsFail};
