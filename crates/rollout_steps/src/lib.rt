//! The text of a change window: which files replace configurations, one after the other.
//!
//! It is read by lines and words as a configuration is; blank lines and lines that begin with `!` are skipped, and the
//! indentation of a line means nothing. A line is `change PATH`.
#![tactic(auto)]

mod reading;
mod refusal;

pub use reading::{StepLine, read_line, read_steps, texts};
pub use refusal::{StepRefusal, StepsFail, at_word, missing};
