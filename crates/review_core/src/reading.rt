//! `read NET`: a line for each configuration.

ghost use Rattle.std.specs.Prelude.{◌≡◌, IfErr, IfOk, IfSome};
ghost use Rattle.job_core.specs.Causes.{HasCause, NamesLast};
ghost use Rattle.job_core.specs.Steps.{OrNoMemory};
ghost use Rattle.review_core.specs.Job.{Reads, IsReading};

use job_core::{Report, Stop};
use job_inputs::read_folder;
use net_io::Files;
use net_types::{Loaded, NoMemory};
use report_text::readings_bytes;
use std::alloc::Global;

/// The lines of a folder's configurations.
pub(crate) fn read_network<F: Files>(
    alloc: Global,
    files: &mut F,
    net: &str,
) -> Result<Report, Stop>
    ensures job { IfSome (F.told files.old) (λ t. Reads t net.now result) }
    ensures cause { HasCause (F.faults files.old) (F.faults files.new) result }
    ensures last { IfErr result (NamesLast (F.last files.new)) }
{
    match read_folder(alloc, files, net) {
        Ok(devices) => readings(alloc, &devices),
        Err(stop) => Err(stop),
    }
}

fn readings(alloc: Global, devices: &[Loaded]) -> Result<Report, Stop>
    ensures { OrNoMemory (IsReading devices.now) result }
{
    let report = report_of(alloc, devices)?;
    Ok(report)
}

// Nothing is affected where nothing is compared.
fn report_of(alloc: Global, devices: &[Loaded]) -> Result<Report, NoMemory>
    ensures { IfOk result (IsReading devices.now) }
{
    let text = readings_bytes(alloc, devices)?;
    Ok(Report {
        text,
        affected: false,
    })
}
