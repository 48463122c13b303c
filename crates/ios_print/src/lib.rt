//! Configurations as text, in the manner of Cisco IOS.
//!
//! Each thing that a configuration says has one line, and each line one form: numbers stand for protocols, ports and
//! messages, a wildcard beside each address of an access list, and a number before each entry.
#![tactic(auto)]

mod entries;
mod interfaces;
mod print;
mod routes;
mod text;

pub use print::print_config;
