//! A network as it is looked at: borrowed, with an interface's seat (its device and its place), and the small questions
//! that are asked of devices and interfaces.
//!
//! Each function is the definition of net_types that its contract names. They scan: what is asked often is indexed by
//! the crates above.
#![tactic(auto)]

mod devices;
mod interfaces;
mod routes;
mod seats;

pub use devices::{WorldRef, device_at, device_named, list_in, list_named};
pub use interfaces::{
    has_address, has_live_address, holds, interface_named, is_enabled, is_inside, is_outside,
    is_own, same_text,
};
pub use routes::every_route;
pub use seats::{SeatRef, seat_at, seat_in, seat_named, seat_numbered};
