//! Access lists: the verdict on one header, and on all headers at once, as disjoint cubes and as a diagram.
//! The rules are those of IOS access lists: the first entry that matches decides, and the end of a list denies.
#![tactic(auto)]

mod block;
mod diagram;
mod entry;
mod fields;
mod list;
mod ports;

pub use diagram::add_list;
pub use entry::entry_cubes;
pub use header_rules::first_match;
pub use list::compile_list;
