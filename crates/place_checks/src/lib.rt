//! Places of a link table that are worth a look before a comparison is believed: names that no network has, ends where
//! nothing arrives, ends of one segment in several subnets, interfaces of one subnet that no segment joins, and next hops on
//! lans that no end has; and links on Ethernet that are p2p, where the model differs from a network.
//!
//! No rule refuses any of these: a packet has its fate there too. What is found is in `specs/Findings.antt`,
//! `specs/Strays.antt` and `specs/Ethernet.antt`, as whole lists.
#![tactic(auto)]

mod checks;
mod devices;
mod ends;
mod ethernet;
mod finding;
mod nearest;
mod nets;
mod place;
mod segments;
mod strays;
mod subnets;
mod unlinked;

pub use checks::{Folders, LinkFindings, link_findings};
pub use finding::{Networks, PlaceFinding};
pub use strays::StrayNext;
