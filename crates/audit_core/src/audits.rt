//! The audit of a folder: its lists with their findings, one behind the other.
ghost use Rattle.std.specs.Prelude.{◌∷◌, [], IfErr, IfOk, IfSome, map};
ghost use Rattle.job_core.specs.Causes.{HasCause, NamesLast};
ghost use Rattle.job_core.specs.Steps.{OrNoMemory};
ghost use Rattle.audit_core.specs.Audits.{Audits, IsAudit, Appends};

use crate::text::append_findings;
use acl_audit::audit;
use job_core::{Report, Stop};
use job_inputs::read_folder;
use net_io::Files;
use net_types::{AccessList, Loaded, NoMemory, Text};
use result_text::append_total_line;
use std::alloc::Global;

/// The findings of all access lists of a folder's configurations.
pub(crate) fn audit_network<F: Files>(
    alloc: Global,
    files: &mut F,
    net: &str,
) -> Result<Report, Stop>
    ensures job { IfSome (F.told files.old) (λ t. Audits t net.now result) }
    ensures cause { HasCause (F.faults files.old) (F.faults files.new) result }
    ensures last { IfErr result (NamesLast (F.last files.new)) }
{
    match read_folder(alloc, files, net) {
        Ok(devices) => audits(alloc, &devices),
        Err(stop) => Err(stop),
    }
}

fn audits(alloc: Global, devices: &[Loaded]) -> Result<Report, Stop>
    ensures { OrNoMemory (IsAudit devices.now) result }
{
    let report = report_of(alloc, devices)?;
    Ok(report)
}

// The text, and whether there is a finding.
fn report_of(alloc: Global, devices: &[Loaded]) -> Result<Report, NoMemory>
    ensures { IfOk result (IsAudit devices.now) }
{
    let mut text = Vec::new(alloc);
    let mut count = 0;
    for device in devices {
        let lists = device.config.lists.as_slice();
        count = append_lists(alloc, &mut text, &device.file, lists, count)?;
    }
    append_total_line(&mut text, count as u128)?;
    Ok(Report {
        text,
        affected: count > 0,
    })
}

// The lists of a file. The findings are counted on.
fn append_lists(
    alloc: Global,
    text: &mut Vec<u8>,
    file: &Text,
    lists: &[AccessList],
    before: u64,
) -> Result<u64, NoMemory>
    ensures { IfOk result (Appends (map (λ l. (file.now, l)) lists.now) text.old.items text.new.items before) }
{
    let mut count = before;
    for list in lists {
        count = append_list(alloc, text, file, list, count)?;
    }
    Ok(count)
}

fn append_list(
    alloc: Global,
    text: &mut Vec<u8>,
    file: &Text,
    list: &AccessList,
    before: u64,
) -> Result<u64, NoMemory>
    ensures { IfOk result (Appends ((file.now, list.now) ∷ []) text.old.items text.new.items before) }
{
    let findings = audit(alloc, list)?;
    append_findings(alloc, text, file, &list.name, &findings)?;
    let Some(count) = before.checked_add(findings.len() as u64) else {
        // More findings than memory can hold.
        return Err(NoMemory);
    };
    Ok(count)
}
