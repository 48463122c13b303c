//! What is found of the links of two networks and in their configurations, on small ones. What each must be follows from the
//! definitions.

use crate::{networks, oddities, places};
use net_types::Loaded;
use test_stop::Stop;

/// Prints what is found of both networks.
pub(crate) fn show(rt: &HostRuntime) -> Result<(), Stop> {
    let old = networks::read(rt, "old")?;
    show_old(rt, &old)
}

fn show_old(rt: &HostRuntime, old: &[Loaded]) -> Result<(), Stop> {
    show_both(rt, old)?;
    oddities::show(rt, old)
}

fn show_both(rt: &HostRuntime, old: &[Loaded]) -> Result<(), Stop> {
    let new = networks::read(rt, "new")?;
    places::show(rt, old, &new)
}
