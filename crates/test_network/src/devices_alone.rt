//! What access lists, translation, routes and destinations come to in small configurations, and which devices are found
//! equal. What is printed follows from the rules alone; where two forms of one answer disagree, a `?` is printed.

use crate::{destinations, devices, lists, routes, translation};
use std::io;

/// Prints what each part of a device comes to.
pub(crate) fn show(rt: &HostRuntime) -> io::Result<()> {
    lists::print_lists(rt)?;
    lists::print_verdicts(rt)?;
    translation::print_translation(rt)?;
    routes::print_routes(rt)?;
    destinations::print_destinations(rt)?;
    destinations::print_again(rt)?;
    devices::print_devices(rt)
}
