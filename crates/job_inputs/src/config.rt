//! A configuration by itself, or what stops a job where it is none.

ghost use Rattle.std.specs.Prelude.{◌≡◌, ◌≤◌, IfErr, IfOk, length};
ghost use Rattle.net_io.specs.Limits.{file_limit};
ghost use Rattle.net_load.specs.Numbering.{config_names};
ghost use Rattle.job_core.specs.Causes.{WasRead};
ghost use Rattle.job_inputs.specs.Configs.{SaysConfig};

use crate::folder::refused;
use ios_config::{ConfigFail, Reading, read_config};
use job_core::Stop;
use net_types::{Loaded, NoMemory, Text};
use std::alloc::Global;

/// The configuration that the bytes of the file at a path say, with the path as its file; or why they say none.
pub fn config_in(alloc: Global, path: &str, bytes: &[u8]) -> Result<Loaded, Stop>
    requires { length bytes.now ≤ file_limit }
    ensures config { SaysConfig path.now bytes.now result }
    // A configuration has no more names than its text has bytes.
    ensures names { IfOk result (λ l. length (config_names l.config) ≤ length bytes.now) }
    ensures read { IfErr result WasRead }
{
    match read_config(alloc, bytes) {
        Ok(reading) => Ok(of_file(alloc, path, reading)?),
        Err(ConfigFail::NoMemory) => Err(Stop::NoMemory),
        Err(ConfigFail::Refused { refusal }) => Err(refused(
            alloc,
            Text::copy_of(alloc, path.as_bytes())?,
            refusal,
        )),
    }
}

// The configuration with its file.
fn of_file(alloc: Global, path: &str, reading: Reading) -> Result<Loaded, NoMemory>
    ensures { IfOk result (λ l. l ≡ record { file = path.now; config = reading.config; passed = reading.passed }) }
{
    let Reading { config, passed } = reading;
    Ok(Loaded {
        file: Text::copy_of(alloc, path.as_bytes())?,
        config,
        passed,
    })
}
