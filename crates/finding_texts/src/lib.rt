//! How findings about places and about configurations are written, and how bytes of a file are shown.
//!
//! Each function adds a text at the end. Where memory runs out, a part of it may stand there.
#![tactic(auto)]

mod adding;
mod configs;
mod places;
mod strays;

pub use adding::append_shown;
pub use configs::append_config;
pub use places::{append_finding, line_of};
pub use strays::append_stray;
