//! A single packet with reasons: the states that its walks reach, what each device on the way does with it and by which list,
//! rule and route, and the outcome.
#![tactic(auto)]

mod device;
pub mod laws;
mod moves;
mod numbers;
mod outcomes;
mod routes;
mod site;
mod states;
mod text;
mod told;
mod traced;
mod translation;
mod types;
mod walked;

pub use site::Site;
pub use text::{state_bytes, trace_bytes};
pub use traced::{trace, trace_on};
pub use types::{Trace, TraceChoice, TraceEnd, TraceFate, TraceState};
