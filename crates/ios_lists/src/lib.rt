//! The commands of access lists, in the manner of Cisco IOS.
//!
//! A list is there from its first line on, also where that is a remark. Both forms of it, `access-list N` and the section
//! of `ip access-list`, have their entries read by one reader.
#![tactic(auto)]

mod endpoints;
mod entries;
mod lists;
mod refused;
mod trailing;

pub use lists::{list_line, numbered_list, open_list};
