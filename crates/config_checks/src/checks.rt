//! All that is odd in a configuration.
ghost use Rattle.std.specs.Prelude.{◌≡◌, ◌++◌, IfOk, OnOk, flat_map};
ghost use Rattle.net_types.specs.Routes.{installed};
ghost use Rattle.config_checks.specs.Findings.{
  interface_findings,
  unused_findings,
  wildcard_findings,
  route_findings,
  config_findings,
};

use crate::ConfigFinding;
use crate::lists::{check_interface, check_use, check_wildcards};
use crate::routes::Lookups;
use crate::translation::check_translation;
use net_types::{Config, NoMemory};
use std::alloc::Global;
use topo_links::NameIndex;

/// All that is odd in a configuration, in order: in the lists that interfaces name, in lists that nothing names, in entries,
/// in the next hops of written routes, and in address translation.
///
/// `elsewhere` are the names of lists that commands name which a configuration's value doesn't have, as those that guard the
/// login to a device: such a list isn't told as one that nothing names.
///
/// # Errors
///
/// There was no memory.
pub fn config_findings(
    alloc: Global,
    config: &Config,
    elsewhere: &NameIndex,
) -> Result<Vec<ConfigFinding>, NoMemory>
    ensures { IfOk result (λ found. found.items ≡ config_findings config.now elsewhere.now) }
{
    let mut found = Vec::new(alloc);
    check_interfaces(alloc, config, &mut found)?;
    check_uses(alloc, config, elsewhere, &mut found)?;
    check_entries(alloc, config, &mut found)?;
    check_routes(alloc, config, &mut found)?;
    check_translation(alloc, config, &mut found)?;
    Ok(found)
}

/// The lists that interfaces name.
fn check_interfaces(
    alloc: Global,
    config: &Config,
    found: &mut Vec<ConfigFinding>,
) -> Result<(), NoMemory>
    ensures { OnOk result (found.new.items ≡ found.old.items ++ flat_map (interface_findings config.now) config.now.interfaces) }
{
    for interface in config.interfaces.as_slice() {
        check_interface(alloc, config, interface, found)?;
    }
    Ok(())
}

/// The lists that nothing names.
fn check_uses(
    alloc: Global,
    config: &Config,
    elsewhere: &NameIndex,
    found: &mut Vec<ConfigFinding>,
) -> Result<(), NoMemory>
    ensures { OnOk result (found.new.items ≡ found.old.items ++ flat_map (unused_findings config.now elsewhere.now) config.now.lists) }
{
    for list in config.lists.as_slice() {
        check_use(alloc, config, elsewhere, list, found)?;
    }
    Ok(())
}

/// The entries of all lists.
fn check_entries(
    alloc: Global,
    config: &Config,
    found: &mut Vec<ConfigFinding>,
) -> Result<(), NoMemory>
    ensures { OnOk result (found.new.items ≡ found.old.items ++ flat_map wildcard_findings config.now.lists) }
{
    for list in config.lists.as_slice() {
        check_wildcards(alloc, list, found)?;
    }
    Ok(())
}

/// The written routes.
fn check_routes(
    alloc: Global,
    config: &Config,
    found: &mut Vec<ConfigFinding>,
) -> Result<(), NoMemory>
    ensures { OnOk result (found.new.items ≡ found.old.items ++ flat_map (route_findings config.now (installed config.now)) config.now.routes) }
{
    let known = Lookups::of(alloc, config)?;
    for route in config.routes.as_slice() {
        known.check_route(alloc, route, found)?;
    }
    Ok(())
}
