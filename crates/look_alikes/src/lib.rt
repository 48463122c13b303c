//! Lines that are passed over and look like a command that isn't: one that is abbreviated, in another case, behind a prompt or a
//! pager's mark, at the wrong margin, or one that takes back what a covered command has written. And the words by which lines
//! are counted, and lines on which the way of no packet depends.
//!
//! A configuration as a device shows it has no such line; one that was typed, pasted or cut has. The reader passes it over, and
//! with it what was meant.
#![tactic(auto)]

mod command;
mod idle;
mod look;
mod naming;
mod words;

pub use command::Command;
pub use idle::is_idle;
pub use look::{LookAlike, look_alike};
pub use naming::{counted_by, is_prepared, refused_by};
