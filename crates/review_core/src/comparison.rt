//! `compare OLD NEW LINKS [NEWLINKS]`: the report on two folders.

ghost use Rattle.std.specs.Prelude.{◌≡◌, ◌≤◌, ◌<◌, ◌^◌, [], IfErr, IfOk, IfSome, length};
ghost use Rattle.net_load.specs.Limits.{folder_limit};
ghost use Rattle.net_load.specs.Numbering.{count_names, extra_names, folder_names, numbered_both};
ghost use Rattle.net_types.specs.Report.{IsReport};
ghost use Rattle.net_compare.specs.Networks.{world};
ghost use Rattle.review_args.specs.Requests.{IsTtl};
ghost use Rattle.job_core.specs.Causes.{HasCause, NamesLast};
ghost use Rattle.job_core.specs.Steps.{OrNoMemory};
ghost use Rattle.review_core.specs.Job.{AreFew, Compares, ComparesWith, ComparesOver, IsComparison, new_table};

use crate::rows::any_rows;
use crate::tables::{Tables, read_tables};
use job_core::{Report, Stop};
use job_inputs::read_folder_by_workers;
use net_compare::compare_worlds;
use net_forms::Networks;
use net_io::Files;
use net_load::{NumberedBoth, number_both};
use net_types::{Loaded, NoMemory, Section};
use net_view::WorldRef;
use report_text::report_bytes;
use review_args::Comparison;
use std::alloc::Global;
use std::sync::Wait;
use std::thread::Threads;
use steal_pool::{Gate, Workers};

/// The report on two folders, wired by a link table; or by one each, where there are new links.
pub(crate) fn compare_folders<F: Files, R: Threads + Wait + Sync, G: Gate + Sync>(
    by: &Workers<R, G>,
    alloc: Global,
    files: &mut F,
    asked: &Comparison,
) -> Result<Report, Stop>
    requires { IsTtl asked.now.ttl }
    ensures job { IfSome (F.told files.old) (λ t. Compares t asked.now result) }
    ensures cause { HasCause (F.faults files.old) (F.faults files.new) result }
    ensures last { IfErr result (NamesLast (F.last files.new)) }
{
    match read_folder_by_workers(by.rt, by.count as usize, alloc, files, asked.old.as_str()) {
        Ok(old) => compare_with(by, alloc, files, old, asked),
        Err(stop) => Err(stop),
    }
}

// The report on the old network, and on a folder and the link tables.
fn compare_with<F: Files, R: Threads + Wait + Sync, G: Gate + Sync>(
    by: &Workers<R, G>,
    alloc: Global,
    files: &mut F,
    old: Vec<Loaded>,
    asked: &Comparison,
) -> Result<Report, Stop>
    requires old { length (folder_names old.items) ≤ folder_limit }
    requires ttl { IsTtl asked.now.ttl }
    ensures job { IfSome (F.told files.old) (λ t. ComparesWith t old.items asked.now result) }
    ensures cause { HasCause (F.faults files.old) (F.faults files.new) result }
    ensures last { IfErr result (NamesLast (F.last files.new)) }
{
    match read_folder_by_workers(by.rt, by.count as usize, alloc, files, asked.new.as_str()) {
        Ok(new) => compare_over(by, alloc, files, old, new, asked),
        Err(stop) => Err(stop),
    }
}

// The report on two networks and the link tables.
fn compare_over<F: Files, R: Threads + Wait + Sync, G: Gate + Sync>(
    by: &Workers<R, G>,
    alloc: Global,
    files: &mut F,
    old: Vec<Loaded>,
    new: Vec<Loaded>,
    asked: &Comparison,
) -> Result<Report, Stop>
    requires old { length (folder_names old.items) ≤ folder_limit }
    requires new { length (folder_names new.items) ≤ folder_limit }
    requires ttl { IsTtl asked.now.ttl }
    ensures job { IfSome (F.told files.old) (λ t. ComparesOver t old.items new.items asked.now result) }
    ensures cause { HasCause (F.faults files.old) (F.faults files.new) result }
    ensures last { IfErr result (NamesLast (F.last files.new)) }
{
    match read_tables(alloc, files, &old, &new, asked) {
        Ok(tables) => report_over(by, alloc, old, new, &tables, asked.ttl),
        Err(stop) => Err(stop),
    }
}

fn report_over<R: Threads + Wait + Sync, G: Gate + Sync>(
    by: &Workers<R, G>,
    alloc: Global,
    old: Vec<Loaded>,
    new: Vec<Loaded>,
    tables: &Tables,
    ttl: u8,
) -> Result<Report, Stop>
    requires old { length (folder_names old.items) ≤ folder_limit }
    requires new { length (folder_names new.items) ≤ folder_limit }
    requires tables { AreFew tables.now }
    requires ttl { IsTtl ttl }
    ensures { OrNoMemory (IsComparison (numbered_both old.items new.items tables.now.old (new_table tables.now) []) ttl) result }
{
    let report = report_on(by, alloc, old, new, tables, ttl)?;
    Ok(report)
}

// The report on two networks with the links of each.
fn report_on<R: Threads + Wait + Sync, G: Gate + Sync>(
    by: &Workers<R, G>,
    alloc: Global,
    old: Vec<Loaded>,
    new: Vec<Loaded>,
    tables: &Tables,
    ttl: u8,
) -> Result<Report, NoMemory>
    requires names { count_names old.items new.items tables.now.old (extra_names (new_table tables.now) []) < 2 ^ 32 }
    requires ttl { IsTtl ttl }
    ensures { IfOk result (IsComparison (numbered_both old.items new.items tables.now.old (new_table tables.now) []) ttl) }
{
    let numbered = number_both(alloc, old, new, &tables.old, tables.of_new(), &[])?;
    report_of(by, alloc, &numbered, ttl)
}

fn report_of<R: Threads + Wait + Sync, G: Gate + Sync>(
    by: &Workers<R, G>,
    alloc: Global,
    numbered: &NumberedBoth,
    ttl: u8,
) -> Result<Report, NoMemory>
    requires { IsTtl ttl }
    ensures { IfOk result (IsComparison numbered.now ttl) }
{
    let sections = sections_of(by, alloc, numbered, ttl)?;
    let text = report_bytes(alloc, &numbered.names, &sections)?;
    let affected = any_rows(&sections);
    Ok(Report { text, affected })
}

// Both networks, each with its own links, from the ingresses of either.
fn sections_of<R: Threads + Wait + Sync, G: Gate + Sync>(
    by: &Workers<R, G>,
    alloc: Global,
    numbered: &NumberedBoth,
    ttl: u8,
) -> Result<Vec<Section>, NoMemory>
    requires { IsTtl ttl }
    ensures { IfOk result (λ sections. IsReport numbered.now.ingress (world numbered.now.old numbered.now.old_links) (world numbered.now.new numbered.now.new_links) ttl sections.items) }
{
    let networks = Networks {
        old: WorldRef {
            network: &numbered.old,
            links: &numbered.old_links,
        },
        new: WorldRef {
            network: &numbered.new,
            links: &numbered.new_links,
        },
    };
    compare_worlds(by, alloc, networks, numbered.ingress.as_slice(), ttl)
}
