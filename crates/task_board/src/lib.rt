//! A board of open and finished regions, which stands for its roots.
//!
//! Workers divide the headers of the roots among themselves: each takes a region that is open, finds its value, or cuts
//! it into parts, and settles what it found. The board keeps what was found and what is still open, so that together
//! they account for every header of the roots.
#![tactic(auto)]

mod board;
mod leaf;
mod meaning;
mod parts;

pub use board::{Board, Strange};
pub use leaf::{Leaf, Part};
pub use meaning::Meaning;
