//! The text of variants of a network: the name of each, and below it the files that replace configurations in it.
//!
//! It is read by lines and words as a configuration is; blank lines and lines that begin with `!` are skipped, and the
//! indentation of a line means nothing. A line is `variant NAME`, or below such a one `change PATH`, as in the text of a change window.
#![tactic(auto)]

mod reading;

pub use reading::{VariantLine, read_variants};
