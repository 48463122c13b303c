//! Networks of files with several configurations.

use ios_config::{ConfigFail, Reading, read_config};
use net_types::{Duplicate, Loaded, Text};
use std::alloc::Global;
use std::fs;
use test_stop::Stop;

/// The configurations of a file, each behind a line `==`. One that is refused is told and left out.
pub(crate) fn read(rt: &HostRuntime, path: &str) -> Result<Vec<Loaded>, Stop> {
    let texts = fs::read_to_string(rt, path)?;
    let mut devices = Vec::new(rt.alloc());
    for text in texts.as_str().split("==\n").skip(1) {
        add_device(rt, &mut devices, text.as_bytes())?;
    }
    Ok(devices)
}

fn add_device(rt: &HostRuntime, devices: &mut Vec<Loaded>, text: &[u8]) -> Result<(), Stop> {
    if text.len() > 16_777_216 {
        return Ok(());
    }
    match read_config(rt.alloc(), text) {
        Ok(reading) => add_read(rt.alloc(), devices, reading),
        Err(ConfigFail::Refused { refusal }) => {
            Ok(println!(rt; "refused line {}", refusal.line)?)
        }
        Err(ConfigFail::NoMemory) => Err(Stop::NoMemory),
    }
}

fn add_read(alloc: Global, devices: &mut Vec<Loaded>, reading: Reading) -> Result<(), Stop> {
    let Reading { config, passed } = reading;
    let file = config.hostname.copy(alloc)?;
    Ok(devices.push(Loaded {
        file,
        config,
        passed,
    })?)
}

/// A name as it is printed.
pub(crate) fn shown(name: &Text) -> &str {
    str::from_utf8(name.as_bytes()).unwrap_or("?")
}
