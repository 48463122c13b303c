//! The audit of an access list: entries that decide no header, and entries without which the list passes the same
//! headers, each with what earlier entries take of it. The rules are those of IOS access lists: the first entry that
//! matches decides, and the end of a list denies. The definitions are in `specs/Findings.antt`.
#![tactic(auto)]

mod audited;
mod decided;
mod finding;
mod gather;
mod kinds;
mod list;
mod sets;
mod tails;
mod taken;
mod unions;

pub use finding::{Finding, FindingKind, Taken};
pub use list::audit;
