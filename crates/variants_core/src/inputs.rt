//! `variants NET LINKS VARIANTS`: the network, its link table and the variants, read in their order, and the reports.

ghost use Rattle.std.specs.Prelude.{◌≡◌, ◌≤◌, IfErr, IfOk, IfSome, length};
ghost use Rattle.net_io.specs.Limits.{file_limit};
ghost use Rattle.net_load.specs.Limits.{folder_limit};
ghost use Rattle.net_load.specs.Numbering.{folder_names};
ghost use Rattle.job_core.specs.Causes.{HasCause, NamesLast, WasRead};
ghost use Rattle.window_core.specs.Window.{HasFewNames};
ghost use Rattle.variants_core.specs.Job.{Compares, GivesBase, GivesLines, GivesVariants, SaysLines, Varies, VariesFrom};
ghost use Rattle.variants_core.specs.Taking.{changes_of};
ghost use Rattle.variants_core.specs.Words.{paths};

use crate::comparing::compare_variants;
use crate::reading::{Variant, take_all};
use crate::words::Asked;
use job_core::{Report, Stop, read_bytes};
use job_inputs::read_folder_by_workers;
use net_io::Files;
use net_types::{List, NoMemory, Text};
use rollout_steps::StepsFail;
use std::alloc::Global;
use std::sync::Wait;
use std::thread::Threads;
use steal_pool::{Gate, Workers};
use variant_lines::{VariantLine, read_variants};
use window_core::{Base, with_table};

/// The reports on the variants that the words name.
pub(crate) fn vary<F: Files, R: Threads + Wait + Sync, G: Gate + Sync>(
    by: &Workers<R, G>,
    alloc: Global,
    files: &mut F,
    asked: &Asked,
) -> Result<Report, Stop>
    ensures job { IfSome (F.told files.old) (λ t. Varies t (paths asked.now) result) }
    ensures cause { HasCause (F.faults files.old) (F.faults files.new) result }
    ensures last { IfErr result (NamesLast (F.last files.new)) }
{
    match read_base(by, alloc, files, asked) {
        Ok(base) => vary_from(by, alloc, files, base, asked),
        Err(stop) => Err(stop),
    }
}

// The network that the words name, with its link table.
fn read_base<F: Files, R: Threads + Sync, G>(
    by: &Workers<R, G>,
    alloc: Global,
    files: &mut F,
    asked: &Asked,
) -> Result<Base, Stop>
    ensures base { IfSome (F.told files.old) (λ t. GivesBase t (paths asked.now) result) }
    ensures names { IfOk result HasFewNames }
    ensures cause { HasCause (F.faults files.old) (F.faults files.new) result }
    ensures last { IfErr result (NamesLast (F.last files.new)) }
    ensures same { F.told files.new ≡ F.told files.old }
{
    match read_folder_by_workers(by.rt, by.count as usize, alloc, files, asked.net) {
        Ok(devices) => with_table(alloc, files, devices, asked.links),
        Err(stop) => Err(stop),
    }
}

// The reports on the variants of this network.
fn vary_from<F: Files, R: Threads + Wait + Sync, G: Gate + Sync>(
    by: &Workers<R, G>,
    alloc: Global,
    files: &mut F,
    base: Base,
    asked: &Asked,
) -> Result<Report, Stop>
    requires { HasFewNames base }
    ensures job { IfSome (F.told files.old) (λ t. VariesFrom t (paths asked.now) base result) }
    ensures cause { HasCause (F.faults files.old) (F.faults files.new) result }
    ensures last { IfErr result (NamesLast (F.last files.new)) }
{
    match read_all(alloc, files, asked.variants, &base) {
        Ok(variants) => compared(by, alloc, base, &variants),
        Err(stop) => Err(stop),
    }
}

fn compared<R: Threads + Wait + Sync, G: Gate + Sync>(
    by: &Workers<R, G>,
    alloc: Global,
    base: Base,
    variants: &List<Variant>,
) -> Result<Report, Stop>
    requires base { HasFewNames base }
    requires names { length (folder_names (changes_of variants.now)) ≤ folder_limit }
    ensures job { Compares base variants.now result }
    ensures read { IfErr result WasRead }
{
    let report = compare_variants(by, alloc, base, variants.as_slice())?;
    Ok(report)
}

// The variants of a file.
fn read_all<F: Files>(
    alloc: Global,
    files: &mut F,
    path: &str,
    base: &Base,
) -> Result<List<Variant>, Stop>
    ensures variants { IfSome (F.told files.old) (λ t. GivesVariants t path.now base.now result) }
    ensures names { IfOk result (λ variants. length (folder_names (changes_of variants)) ≤ folder_limit) }
    ensures cause { HasCause (F.faults files.old) (F.faults files.new) result }
    ensures last { IfErr result (NamesLast (F.last files.new)) }
    ensures same { F.told files.new ≡ F.told files.old }
{
    match read_lines(alloc, files, path) {
        Ok(lines) => take_all(alloc, files, path, base, lines.as_slice()),
        Err(stop) => Err(stop),
    }
}

// The lines of a file.
fn read_lines<F: Files>(alloc: Global, files: &mut F, path: &str) -> Result<List<VariantLine>, Stop>
    ensures lines { IfSome (F.told files.old) (λ t. GivesLines t path.now result) }
    ensures cause { HasCause (F.faults files.old) (F.faults files.new) result }
    ensures last { IfErr result (NamesLast (F.last files.new)) }
    ensures same { F.told files.new ≡ F.told files.old }
{
    match read_bytes(alloc, files, path) {
        Ok(bytes) => lines_in(alloc, path, &bytes),
        Err(stop) => Err(stop),
    }
}

// What the bytes of a file say.
fn lines_in(alloc: Global, path: &str, bytes: &[u8]) -> Result<List<VariantLine>, Stop>
    requires { length bytes.now ≤ file_limit }
    ensures lines { SaysLines path.now bytes.now result }
    ensures read { IfErr result WasRead }
{
    match read_variants(alloc, bytes) {
        Ok(lines) => Ok(List::new(lines)),
        Err(StepsFail::NoMemory) => Err(Stop::NoMemory),
        Err(StepsFail::TooMany) => Err(Stop::TooManyFiles {
            path: Text::copy_of(alloc, path.as_bytes())?,
        }),
        Err(StepsFail::Refused { kind, line, word }) => Err(Stop::refused(
            alloc,
            path,
            u64::from(line),
            kind.name(),
            word,
        )?),
    }
}
