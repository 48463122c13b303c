//! A network that changes device by device: opened once, and after a change only that device is compiled again, and the devices
//! that meet it on a lan where it answers otherwise.
//!
//! What a device does with headers depends on the rest of the network by what becomes of packets that it sends. On a
//! point-to-point segment that is told by the segment alone; on a lan by the addresses and states of the other ends. So a
//! device whose configuration is replaced touches itself and the devices on such lans, and nobody else.
#![tactic(auto)]

mod alike;
mod anew;
mod clear;
mod copied;
mod live;
mod near;
mod network;
mod replace;
mod touched;

pub use anew::settle;
pub use live::{LiveWays, net_of, open_ways, ways_of_formed};
pub use network::LiveNetwork;
pub use replace::{Replacement, replace_at, replace_device};
