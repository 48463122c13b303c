//! Link tables: how the routers of a network are wired, and where packets enter it.
//!
//! A table is read by lines and words as a configuration is; blank lines and lines that begin with `!` are
//! skipped, and the indentation of a line means nothing. A line is `p2p R I R I`, `lan R I R I` with any number
//! of further pairs `R I`, or `ingress R I`, where `R` is a device name and `I` an interface name.
#![tactic(auto)]

mod by_name;
mod draft;
mod ends;
mod judge;
mod names;
mod net_index;
mod reader;
mod shared;
mod table;
mod taken;
mod twice;

pub use judge::{check, check_own};
pub use names::NameIndex;
pub use reader::read_links;
pub use table::{LinkFail, LinkKind, LinkLine, LinkRefusal, LinkTable};
pub use twice::address_twice;
