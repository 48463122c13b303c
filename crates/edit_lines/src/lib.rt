//! The text of edits: entries of access lists and static routes that are added to a network's devices or dropped, one after the
//! other.
//!
//! It is read by lines and words as a configuration is; blank lines and lines that begin with `!` are skipped, and the
//! indentation of a line means nothing. A line is `entry R LIST SEQ WORDS`, `no-entry R LIST SEQ`, `route R WORDS` or
//! `no-route R WORDS`. WORDS are read as a configuration's: a small text is built of them and read as one.
#![tactic(auto)]

mod built;
mod reading;
mod refusal;
mod words;

pub use reading::{EditLine, read_edits};
pub use refusal::{EditsFail, kind_name};
