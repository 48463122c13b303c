//! The scope of a change: a set of headers outside which two networks do the same, so that only headers of the scope have to
//! be followed from place to place.
//!
//! It is found from the compiled functions alone, and is a set of destinations. It has the addresses of all translation
//! rules, and where a device differs the destinations of the headers to which its functions give other values in one network
//! than in the other.
#![tactic(auto)]

mod addresses;
mod devices;
mod differences;
mod named;
mod scope;

pub use scope::scope_of;
