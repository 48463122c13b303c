//! A change of a window, as its file is read.

ghost use Rattle.std.specs.Prelude.{◌≡◌, ◌≤◌, ◌+◌, IfErr, IfOk, IfSome, length};
ghost use Rattle.net_io.specs.Limits.{file_limit};
ghost use Rattle.net_load.specs.Limits.{folder_limit};
ghost use Rattle.net_load.specs.Numbering.{config_names};
ghost use Rattle.job_core.specs.Causes.{HasCause, NamesLast, WasRead};
ghost use Rattle.window_core.specs.Changes.{IsWithin, ReadsChange, SaysChange, WithTotal};

use job_core::{Stop, read_bytes};
use job_inputs::config_in;
use net_io::Files;
use net_types::{Loaded, NoMemory, Text};
use rollout_steps::StepLine;
use std::alloc::Global;

// The most bytes that the changed files of a window may have together.
const CHANGES_LIMIT: usize = 67_108_864;

/// A configuration that replaces one.
#[derive(Drop)]
pub struct Change {
    pub device: Loaded,
    /// How many bytes its file and those of the changes before it have together.
    pub total: usize,
}

/// The file of a step behind files of so many bytes. `path` is that of the window.
pub(crate) fn read_change<F: Files>(
    alloc: Global,
    files: &mut F,
    path: &str,
    sum: usize,
    step: &StepLine,
) -> Result<Change, Stop>
    requires { sum ≤ folder_limit }
    ensures change { IfSome (F.told files.old) (λ t. ReadsChange t path.now sum step.now result) }
    ensures names { IfOk result (λ x. sum + length (config_names x.device.config) ≤ x.total) }
    ensures total { IfOk result (λ x. x.total ≤ folder_limit) }
    ensures cause { HasCause (F.faults files.old) (F.faults files.new) result }
    ensures last { IfErr result (NamesLast (F.last files.new)) }
    ensures same { F.told files.new ≡ F.told files.old }
{
    match read_bytes(alloc, files, step.path.as_str()) {
        Ok(bytes) => change_in(alloc, path, sum, step.path.as_str(), &bytes),
        Err(stop) => Err(stop),
    }
}

// The change that the bytes of a file say.
fn change_in(
    alloc: Global,
    path: &str,
    sum: usize,
    file: &str,
    bytes: &[u8],
) -> Result<Change, Stop>
    requires sum { sum ≤ folder_limit }
    requires bytes { length bytes.now ≤ file_limit }
    ensures change { SaysChange path.now sum file.now bytes.now result }
    ensures names { IfOk result (λ x. sum + length (config_names x.device.config) ≤ x.total) }
    ensures total { IfOk result (λ x. x.total ≤ folder_limit) }
    ensures read { IfErr result WasRead }
{
    match total_with(alloc, path, sum + bytes.len()) {
        Ok(total) => with_total(alloc, file, bytes, total),
        Err(stop) => Err(stop),
    }
}

// How many bytes there are together, where they are within the limit.
fn total_with(alloc: Global, path: &str, sum: usize) -> Result<usize, Stop>
    ensures total { IsWithin path.now sum result }
    ensures read { IfErr result WasRead }
{
    if sum > CHANGES_LIMIT {
        return Err(Stop::TooLong {
            path: Text::copy_of(alloc, path.as_bytes())?,
        });
    }
    Ok(sum)
}

fn with_total(alloc: Global, file: &str, bytes: &[u8], total: usize) -> Result<Change, Stop>
    requires bytes { length bytes.now ≤ file_limit }
    ensures change { WithTotal file.now bytes.now total result }
    ensures names { IfOk result (λ x. length (config_names x.device.config) ≤ length bytes.now) }
    ensures total { IfOk result (λ x. x.total ≡ total) }
    ensures read { IfErr result WasRead }
{
    match config_in(alloc, file, bytes) {
        Ok(device) => Ok(Change { device, total }),
        Err(stop) => Err(stop),
    }
}
