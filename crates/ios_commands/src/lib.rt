//! The commands of interfaces, static routes and static translation, banners, and the tables of the commands that are
//! refused.
#![tactic(auto)]

mod banners;
mod interfaces;
mod refused;
mod routes;
mod tables;
mod translation;

pub use banners::{banner, is_banner};
pub use interfaces::{access_group, interface, interface_address, plain};
pub use routes::static_route;
pub use tables::{global_row, interface_row, uncovered};
pub use translation::{NatBook, outer_rule, static_rule};
