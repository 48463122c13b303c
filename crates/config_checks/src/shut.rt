//! Subinterfaces of an interface that is shut.
ghost use Rattle.std.specs.Prelude.{◌≡◌, ◌++◌, OnOk};
ghost use Rattle.config_checks.specs.Findings.{is_below, is_open_below, shut_above, shut_findings};

use crate::ConfigFinding;
use net_types::{Config, Duplicate, Interface, NoMemory, Text};
use std::alloc::Global;

/// Tells of each subinterface that isn't shut below an interface that is.
pub fn check_shut(
    alloc: Global,
    config: &Config,
    interface: &Interface,
    found: &mut Vec<ConfigFinding>,
) -> Result<(), NoMemory>
    ensures { OnOk result (found.new.items ≡ found.old.items ++ shut_findings config.now interface.now) }
{
    if !interface.shut {
        return Ok(());
    }
    for other in config.interfaces.as_slice() {
        check_below(alloc, &interface.name, other, found)?;
    }
    Ok(())
}

/// Tells of an interface, where it is below this name and isn't shut.
fn check_below(
    alloc: Global,
    main: &Text,
    other: &Interface,
    found: &mut Vec<ConfigFinding>,
) -> Result<(), NoMemory>
    ensures { OnOk result (found.new.items ≡ found.old.items ++ shut_above main.now other.now) }
{
    if is_open_below(main, other) {
        found.push(ConfigFinding::ShutAbove {
            main: main.copy(alloc)?,
            below: other.name.copy(alloc)?,
        })?;
    }
    Ok(())
}

/// Whether the interface is below this name and isn't shut.
fn is_open_below(main: &Text, other: &Interface) -> bool
    ensures { result ≡ is_open_below main.now other.now }
{
    is_below(main.as_bytes(), other.name.as_bytes()) && !other.shut
}

/// Whether it is the name of a subinterface of an interface of that name.
fn is_below(main: &[u8], name: &[u8]) -> bool
    ensures { result ≡ is_below main.now name.now }
{
    if !name.starts_with(main) {
        return false;
    }
    match name.get(main.len()) {
        None => false,
        Some(b) => *b == b'.',
    }
}
