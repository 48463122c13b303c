//! `gen NUMBER SIZE`: two networks that are made of a number, compared.

ghost use Rattle.std.specs.Prelude.{IfOk};
ghost use Rattle.review_args.specs.Requests.{IsSize};
ghost use Rattle.net_gen.specs.Networks.{networks};
ghost use Rattle.job_core.specs.Steps.{OrNoMemory};
ghost use Rattle.review_core.specs.Job.{IsSummaryOf};

use crate::rows::any_rows;
use job_core::{Report, Stop};
use net_compare::compare;
use net_gen::generate;
use net_load::Numbered;
use net_types::NoMemory;
use report_text::summary_bytes;
use std::alloc::Global;
use std::sync::Wait;
use std::thread::Threads;
use steal_pool::{Gate, Workers};

// Packets enter with the greatest TTL.
const FIRST_TTL: u8 = 255;

/// How far the two networks of a number and a size differ.
pub(crate) fn compare_generated<R: Threads + Wait + Sync, G: Gate + Sync>(
    by: &Workers<R, G>,
    alloc: Global,
    number: u64,
    size: u32,
) -> Result<Report, Stop>
    requires { IsSize size }
    ensures { OrNoMemory (IsSummaryOf (networks number size)) result }
{
    let report = generated(by, alloc, number, size)?;
    Ok(report)
}

fn generated<R: Threads + Wait + Sync, G: Gate + Sync>(
    by: &Workers<R, G>,
    alloc: Global,
    number: u64,
    size: u32,
) -> Result<Report, NoMemory>
    requires { IsSize size }
    ensures { IfOk result (IsSummaryOf (networks number size)) }
{
    let numbered = generate(alloc, number, size)?;
    summary_of(by, alloc, &numbered)
}

fn summary_of<R: Threads + Wait + Sync, G: Gate + Sync>(
    by: &Workers<R, G>,
    alloc: Global,
    numbered: &Numbered,
) -> Result<Report, NoMemory>
    ensures { IfOk result (IsSummaryOf numbered.now) }
{
    let sections = compare(
        by,
        alloc,
        &numbered.old,
        &numbered.new,
        &numbered.links,
        FIRST_TTL,
    )?;
    let text = summary_bytes(alloc, numbered.old.devices.as_slice().len(), &sections)?;
    let affected = any_rows(&sections);
    Ok(Report { text, affected })
}
