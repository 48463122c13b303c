//! The check of a change window: whether each network on the way, from the first one to the one after the last change, meets the
//! questions.
#![tactic(auto)]

mod failing;
mod network;
mod steps;
mod touched;

pub use network::{Step, network_after};
pub use steps::{Rollout, RolloutAnswer, check_rollout};
