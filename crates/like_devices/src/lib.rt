//! Devices that two networks have alike: with one configuration in both, and with links that lead the same way. Whatever
//! arrives at such a device has the same moves in both networks, so nothing of it has to be compared.
#![tactic(auto)]

mod like;

pub use like::{has_name, like_devices, send_alike};
