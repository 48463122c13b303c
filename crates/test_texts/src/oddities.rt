//! What is found in configurations.

use crate::networks::shown;
use config_checks::{ConfigFinding, config_findings};
use net_types::{Loaded, Subnet, Text};
use std::io;
use test_stop::Stop;
use topo_links::NameIndex;

/// The findings of each device; the list 12 is named elsewhere.
pub(crate) fn show(rt: &HostRuntime, devices: &[Loaded]) -> Result<(), Stop> {
    let name = Text::copy_of(rt.alloc(), b"12")?;
    let mut elsewhere = NameIndex::new(rt.alloc());
    elsewhere.add(rt.alloc(), &name)?;
    show_devices(rt, devices, &elsewhere)
}

fn show_devices(rt: &HostRuntime, devices: &[Loaded], elsewhere: &NameIndex) -> Result<(), Stop> {
    for device in devices {
        println!(rt; "== {}", shown(&device.config.hostname))?;
        let found = config_findings(rt.alloc(), &device.config, elsewhere)?;
        show_findings(rt, &found)?;
    }
    Ok(())
}

fn show_findings(rt: &HostRuntime, found: &[ConfigFinding]) -> io::Result<()> {
    for finding in found {
        show_finding(rt, finding)?;
    }
    Ok(())
}

fn show_route(rt: &HostRuntime, what: &str, prefix: &Subnet, next: u32) -> io::Result<()> {
    println!(rt; "{what} {}/{} {next}", prefix.address, prefix.length)
}

fn show_finding(rt: &HostRuntime, finding: &ConfigFinding) -> io::Result<()> {
    match finding {
        ConfigFinding::NoList {
            interface,
            direction,
            list,
        } => println!(rt;
            "no list {} {direction:?} {}",
            shown(interface),
            shown(list)
        ),
        ConfigFinding::EmptyList {
            interface,
            direction,
            list,
        } => println!(rt;
            "empty list {} {direction:?} {}",
            shown(interface),
            shown(list)
        ),
        ConfigFinding::UnusedList { list } => println!(rt; "unused list {}", shown(list)),
        ConfigFinding::MaskAsWildcard {
            list,
            sequence,
            field,
            address,
        } => println!(rt;
            "mask {} {sequence} {field:?} {} {}",
            shown(list),
            address.value,
            address.wild
        ),
        ConfigFinding::NoInside => println!(rt; "no inside"),
        ConfigFinding::NoOutside => println!(rt; "no outside"),
        ConfigFinding::NotInside { local } => println!(rt; "not inside {local}"),
        ConfigFinding::NotOutside { global } => println!(rt; "not outside {global}"),
        other => show_next(rt, other),
    }
}

/// A finding of a next hop.
fn show_next(rt: &HostRuntime, finding: &ConfigFinding) -> io::Result<()> {
    match finding {
        ConfigFinding::NextIsOwn { prefix, next } => show_route(rt, "own", prefix, *next),
        ConfigFinding::NextNowhere { prefix, next } => show_route(rt, "nowhere", prefix, *next),
        ConfigFinding::NextByDefault { prefix, next } => show_route(rt, "default", prefix, *next),
        ConfigFinding::NextByItself { prefix, next } => show_route(rt, "itself", prefix, *next),
        ConfigFinding::NextElsewhere {
            prefix,
            interface: _,
            next,
        } => show_route(rt, "elsewhere", prefix, *next),
        ConfigFinding::NeverFloats {
            prefix,
            distance: _,
            next,
        } => show_route(rt, "never floats", prefix, *next),
        _ => Ok(()),
    }
}
