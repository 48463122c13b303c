//! The rows of a report, joined in groups as a person reads them.
//!
//! A row is a cube of headers with its outcomes in two networks. A group stands for many rows with equal outcomes: it has
//! some patterns for each field, and its rows are all choices of one pattern of each field. `Groups` of `specs/` says which
//! rows a group stands for, and `Shown` which headers are shown of it: exactly those of its rows.
#![tactic(auto)]

mod change;
mod draft;
mod gaps;
mod groups;
mod joining;
pub mod laws;
mod least;
mod parts;
mod shown;
mod spans;
mod types;

pub use change::change_of;
pub use groups::group_rows;
pub use least::least_header;
pub use types::{Change, Entry, Flags, Group, Part, Pattern, Shown, Span, Values};
