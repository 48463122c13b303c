//! What is odd in the configuration of one router: access lists that are named and not there, or there and not named, masks
//! where wildcards are usual, next hops that are found nowhere or by the wrong route, and translation that is never used.
//!
//! No rule refuses any of these. What is found is in `specs/Findings.antt`, as a whole list.
#![tactic(auto)]

mod backups;
mod checks;
mod finding;
mod held;
mod lists;
mod routes;
mod shut;
mod translation;

pub use checks::config_findings;
pub use finding::{AddressField, ConfigFinding, Direction};
