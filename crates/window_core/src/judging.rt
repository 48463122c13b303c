//! How a change is judged.

ghost use Rattle.std.specs.Prelude.{◌≡◌, IfErr, IfOk};
ghost use Rattle.std.specs.List.{list_any};
ghost use Rattle.topo_links.specs.Twice.{address_twice};
ghost use Rattle.job_core.specs.Causes.{WasRead};
ghost use Rattle.window_core.specs.Changes.{IsJudged, change_fault, device_after, devices_after, is_same_host, twice_fault};

use crate::base::Base;
use job_core::Stop;
use net_text::cut;
use net_types::{Duplicate, Loaded, NoMemory};
use rollout_steps::StepRefusal;
use std::alloc::Global;
use topo_links::address_twice;

/// Whether the base has a device of the hostname, and no address stands twice in the network after the change; the step is at a
/// line of the window at `path`.
pub(crate) fn judge(
    alloc: Global,
    path: &str,
    line: u32,
    base: &Base,
    after: &[Loaded],
    changed: &Loaded,
) -> Result<(), Stop>
    ensures judged { IsJudged path.now (change_fault base.now after.now line changed.now) (λ _. Unit {0}) result }
    ensures read { IfErr result WasRead }
{
    if !has_host(base.devices.as_slice(), changed) {
        let word = cut(alloc, &changed.config.hostname)?;
        let kind = StepRefusal::UnknownDevice.name();
        return Err(Stop::refused(alloc, path, u64::from(line), kind, word)?);
    }
    judge_addresses(alloc, path, line, base, after)
}

// Whether no address stands twice.
fn judge_addresses(
    alloc: Global,
    path: &str,
    line: u32,
    base: &Base,
    after: &[Loaded],
) -> Result<(), Stop>
    ensures judged { IsJudged path.now (twice_fault line (address_twice after.now base.now.table.lines)) (λ _. Unit {0}) result }
    ensures read { IfErr result WasRead }
{
    let Some(word) = address_twice(alloc, &base.table, after)? else {
        return Ok(());
    };
    let kind = StepRefusal::AddressTwice.name();
    Err(Stop::refused(alloc, path, u64::from(line), kind, word)?)
}

// Whether one of the devices has the hostname.
fn has_host(devices: &[Loaded], changed: &Loaded) -> bool
    ensures { result ≡ list_any (is_same_host changed.now) devices.now }
{
    devices.iter().any(|device| is_same_host(changed, device))
}

fn is_same_host(changed: &Loaded, device: &Loaded) -> bool
    ensures { result ≡ is_same_host changed.now device.now }
{
    device.config.hostname.as_bytes() == changed.config.hostname.as_bytes()
}

/// The network with the device of that hostname replaced.
pub(crate) fn replaced(
    alloc: Global,
    devices: Vec<Loaded>,
    changed: &Loaded,
) -> Result<Vec<Loaded>, NoMemory>
    ensures { IfOk result (λ after. after.items ≡ devices_after changed.now devices.items) }
{
    let mut after = Vec::with_capacity(alloc, devices.len())?;
    for device in devices {
        after.push(device_after(alloc, device, changed)?)?;
    }
    Ok(after)
}

fn device_after(alloc: Global, device: Loaded, changed: &Loaded) -> Result<Loaded, NoMemory>
    ensures { IfOk result (λ after. after ≡ device_after changed.now device) }
{
    if is_same_host(changed, &device) {
        return changed.copy(alloc);
    }
    Ok(device)
}
