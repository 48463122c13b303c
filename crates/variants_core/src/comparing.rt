//! Each variant, compared with the network.

ghost use Rattle.std.specs.Prelude.{◌≡◌, ◌≤◌, ◌++◌, ◌||◌, IfOk, OnOk, length, map, nat_lt};
ghost use Rattle.net_io.specs.Limits.{file_limit};
ghost use Rattle.net_load.specs.Limits.{folder_limit};
ghost use Rattle.net_load.specs.Numbering.{device_of, folder_names};
ghost use Rattle.window_core.specs.Window.{HasFewNames};
ghost use Rattle.variants_core.specs.Job.{varied_network};
ghost use Rattle.variants_core.specs.Report.{AreCompared, IsAnswer, IsWritten, base_world};
ghost use Rattle.variants_core.specs.Taking.{changes_of};

use crate::reading::Variant;
use crate::text::{append_compared, append_count, row_count};
use job_core::Report;
use net_load::{Numbered, number_all};
use net_types::{Duplicate, List, Loaded, NetDevice, NoMemory, Text};
use net_variants::Variants;
use std::alloc::Global;
use std::sync::Wait;
use std::thread::Threads;
use steal_pool::{Gate, Workers};
use window_core::Base;

// The TTL with which packets enter.
const FIRST_TTL: u8 = 255;

/// The reports on the network and each of these variants.
pub(crate) fn compare_variants<R: Threads + Wait + Sync, G: Gate + Sync>(
    by: &Workers<R, G>,
    alloc: Global,
    base: Base,
    variants: &[Variant],
) -> Result<Report, NoMemory>
    requires base { HasFewNames base }
    requires names { length (folder_names (changes_of variants.now)) ≤ folder_limit }
    ensures { IfOk result (IsAnswer (varied_network base variants.now) variants.now) }
{
    let changes = changes_of(alloc, variants)?;
    let Base { devices, table } = base;
    let numbered = number_all(alloc, devices.into_vec(), changes, &table, &[])?;
    report_of(by, alloc, &numbered, variants)
}

// The changes of all variants, one behind the other.
fn changes_of(alloc: Global, variants: &[Variant]) -> Result<Vec<Loaded>, NoMemory>
    ensures { IfOk result (λ all. all.items ≡ changes_of variants.now) }
{
    let mut all = Vec::new(alloc);
    for variant in variants {
        add_changes(alloc, &mut all, variant.changes.as_slice())?;
    }
    Ok(all)
}

fn add_changes(alloc: Global, all: &mut Vec<Loaded>, changes: &[Loaded]) -> Result<(), NoMemory>
    ensures { OnOk result (all.new.items ≡ all.old.items ++ changes.now) }
{
    for change in changes {
        all.push(change.copy(alloc)?)?;
    }
    Ok(())
}

// The text of all, and whether a variant has a row.
fn report_of<R: Threads + Wait + Sync, G: Gate + Sync>(
    by: &Workers<R, G>,
    alloc: Global,
    numbered: &Numbered,
    variants: &[Variant],
) -> Result<Report, NoMemory>
    requires { numbered.now.new.devices ≡ map (device_of numbered.now.names.texts) (changes_of variants.now) }
    ensures { IfOk result (IsAnswer numbered.now variants.now) }
{
    let mut compared = Variants::open(by, alloc, &numbered.old, &numbered.links)?;
    let mut body = compared_all(by, alloc, numbered, &mut compared, variants)?;
    append_count(&mut body.text, variants.len())?;
    Ok(body)
}

// The same without the last line. The devices of the variants stand one behind the other.
fn compared_all<R: Threads + Wait + Sync, G: Gate + Sync>(
    by: &Workers<R, G>,
    alloc: Global,
    numbered: &Numbered,
    compared: &mut Variants,
    variants: &[Variant],
) -> Result<Report, NoMemory>
    requires devices { numbered.now.new.devices ≡ map (device_of numbered.now.names.texts) (changes_of variants.now) }
    requires base { compared.old ≡ base_world numbered.now }
    ensures { IfOk result (λ r. AreCompared numbered.now variants.now r.text.items r.affected) }
{
    let mut body = Report {
        text: Vec::new(alloc),
        affected: false,
    };
    let mut rest = numbered.new.devices.as_slice();
    for variant in variants {
        let (changes, others) = rest.split_at(variant.changes.as_slice().len());
        let one = Asked {
            numbered,
            name: &variant.name,
            changes,
        };
        compare_one(by, alloc, compared, one, &mut body)?;
        rest = others;
    }
    Ok(body)
}

// A variant: its name, and its devices over all names.
#[derive(Clone, Copy)]
struct Asked<'a> {
    numbered: &'a Numbered,
    name: &'a Text,
    changes: &'a [NetDevice],
}

// Adds what is written of a variant.
fn compare_one<R: Threads + Wait + Sync, G: Gate + Sync>(
    by: &Workers<R, G>,
    alloc: Global,
    compared: &mut Variants,
    one: Asked,
    body: &mut Report,
) -> Result<(), NoMemory>
    ensures written { OnOk result (IsWritten compared.old one.entry.name.now one.entry.changes.now one.entry.numbered.now.names body.old body.new) }
    ensures same { compared.new ≡ compared.old }
{
    let sections = compared.compare(by, alloc, one.changes, FIRST_TTL)?;
    let count = row_count(&sections);
    append_compared(
        alloc,
        &mut body.text,
        &one.numbered.names,
        one.name,
        &sections,
        count,
    )?;
    body.affected = body.affected || count > 0;
    Ok(())
}
