//! A report with its groups as one document of JSON.

ghost use Rattle.std.specs.Prelude.{◌≡◌, ◌++◌, codes, length, map, IfOk, OnOk};
ghost use Rattle.std.specs.List.{join_by};
ghost use Rattle.view_core.specs.Ingresses.{kind_total};
ghost use Rattle.view_core.specs.ReportJson.{kind_object, kinds_array, tally_version, tally_outcome, tally_names, tally_object, tallies_array, groups_start, untouched_member, sizes_members, summary_object, groups_array, ingress_start, ingress_end, ingress_object, document_start, report_json};

use crate::group_json::append_group_object;
use crate::ingresses::{Ingress, all_rows, group_count, kind_total, untouched};
use crate::kinds::{KINDS, in_order};
use crate::summary::change_name;
use crate::tallies::{Tally, tallies_of, version_name};
use json_text::{append_count, append_member, append_place_members, append_rows};
use net_types::{Names, NoMemory, Row};
use report_groups::{Change, Entry};
use report_text::append;
use std::alloc::Global;

/// The document of a report: its summary, and exactly its ingresses with their groups and their rows.
pub(crate) fn json_bytes(
    alloc: Global,
    names: &Names,
    ingresses: &[Ingress],
) -> Result<Vec<u8>, NoMemory>
    ensures { IfOk result (λ text. text.items ≡ report_json names.now ingresses.now) }
{
    let mut out = Vec::new(alloc);
    append_document(alloc, &mut out, names, ingresses)?;
    Ok(out)
}

#[tactic(auto, unfolding(crate::specs::ReportJson::report_json))]
fn append_document(
    alloc: Global,
    out: &mut Vec<u8>,
    names: &Names,
    ingresses: &[Ingress],
) -> Result<(), NoMemory>
    ensures { OnOk result (out.new.items ≡ out.old.items ++ report_json names.now ingresses.now) }
{
    append_head(out, ingresses)?;
    append(out, b",\n\"summary\": ")?;
    append_summary_object(alloc, out, names, ingresses)?;
    append(out, b",\n\"ingresses\": [")?;
    append_ingress_array(alloc, out, names, ingresses)?;
    append(out, b"]}\n")
}

fn append_head(out: &mut Vec<u8>, ingresses: &[Ingress]) -> Result<(), NoMemory>
    ensures { OnOk result (out.new.items ≡ out.old.items ++ document_start ingresses.now) }
{
    append_count(
        out,
        b"{\"schema\": \"diqenyu-report\", \"version\": 1, \"affected\": ",
        all_rows(ingresses),
    )
}

// The summary.
#[tactic(auto, unfolding(crate::specs::ReportJson::summary_object))]
fn append_summary_object(
    alloc: Global,
    out: &mut Vec<u8>,
    names: &Names,
    ingresses: &[Ingress],
) -> Result<(), NoMemory>
    ensures { OnOk result (out.new.items ≡ out.old.items ++ summary_object names.now ingresses.now) }
{
    append_sizes(out, ingresses)?;
    append(out, b",\n\"outcomes\": [")?;
    append_tally_objects(alloc, out, names, ingresses)?;
    append(out, b"]}")?;
    Ok(())
}

#[tactic(auto, unfolding(crate::specs::ReportJson::sizes_members))]
fn append_sizes(out: &mut Vec<u8>, ingresses: &[Ingress]) -> Result<(), NoMemory>
    ensures { OnOk result (out.new.items ≡ out.old.items ++ sizes_members ingresses.now) }
{
    append_group_count(out, ingresses)?;
    append(out, b", \"kinds\": [")?;
    append_kind_objects(out, ingresses)?;
    append_untouched(out, ingresses)
}

fn append_group_count(out: &mut Vec<u8>, ingresses: &[Ingress]) -> Result<(), NoMemory>
    ensures { OnOk result (out.new.items ≡ out.old.items ++ groups_start ingresses.now) }
{
    append_count(out, b"{\"groups\": ", group_count(ingresses))
}

fn append_untouched(out: &mut Vec<u8>, ingresses: &[Ingress]) -> Result<(), NoMemory>
    ensures { OnOk result (out.new.items ≡ out.old.items ++ untouched_member ingresses.now) }
{
    append_count(out, b"], \"untouched\": ", untouched(ingresses) as u128)
}

#[tactic(auto, unfolding(crate::specs::ReportJson::kinds_array, crate::specs::Kinds::kinds))]
fn append_kind_objects(out: &mut Vec<u8>, ingresses: &[Ingress]) -> Result<(), NoMemory>
    ensures { OnOk result (out.new.items ≡ out.old.items ++ kinds_array ingresses.now) }
{
    append_objects_of(out, ingresses, &KINDS)
}

fn append_objects_of(
    out: &mut Vec<u8>,
    ingresses: &[Ingress],
    kinds: &[Change],
) -> Result<(), NoMemory>
    ensures { OnOk result (out.new.items ≡ out.old.items ++ join_by (λ kind. kind_object kind (kind_total ingresses.now kind)) (codes ", ") kinds.now) }
{
    let [first, rest @ ..] = kinds else {
        return Ok(());
    };
    append_kind_object(out, *first, kind_total(ingresses, *first))?;
    for kind in rest {
        append(out, b", ")?;
        append_kind_object(out, *kind, kind_total(ingresses, *kind))?;
    }
    Ok(())
}

#[tactic(auto, unfolding(crate::specs::ReportJson::kind_object))]
fn append_kind_object(out: &mut Vec<u8>, kind: Change, groups: u128) -> Result<(), NoMemory>
    ensures { OnOk result (out.new.items ≡ out.old.items ++ kind_object kind groups) }
{
    append(out, b"{")?;
    append_member(out, b"kind", change_name(kind))?;
    append_count(out, b", \"groups\": ", groups)?;
    append(out, b"}")
}

#[tactic(auto, unfolding(crate::specs::ReportJson::tallies_array))]
fn append_tally_objects(
    alloc: Global,
    out: &mut Vec<u8>,
    names: &Names,
    ingresses: &[Ingress],
) -> Result<(), NoMemory>
    ensures { OnOk result (out.new.items ≡ out.old.items ++ tallies_array names.now ingresses.now) }
{
    let tallies = tallies_of(alloc, names, ingresses)?;
    append_tally_array(out, &tallies)
}

fn append_tally_array(out: &mut Vec<u8>, tallies: &[Tally]) -> Result<(), NoMemory>
    ensures { OnOk result (out.new.items ≡ out.old.items ++ join_by tally_object (codes ",\n") tallies.now) }
{
    let [first, rest @ ..] = tallies else {
        return Ok(());
    };
    append_tally_object(out, first)?;
    for tally in rest {
        append(out, b",\n")?;
        append_tally_object(out, tally)?;
    }
    Ok(())
}

#[tactic(auto, unfolding(crate::specs::ReportJson::tally_object))]
fn append_tally_object(out: &mut Vec<u8>, tally: &Tally) -> Result<(), NoMemory>
    ensures { OnOk result (out.new.items ≡ out.old.items ++ tally_object tally.now) }
{
    append_tally_names(out, tally)?;
    append_count(out, b", \"groups\": ", tally.count.groups as u128)?;
    append_count(out, b", \"rows\": ", tally.count.rows as u128)?;
    append(out, b"}")
}

fn append_tally_names(out: &mut Vec<u8>, tally: &Tally) -> Result<(), NoMemory>
    ensures { OnOk result (out.new.items ≡ out.old.items ++ tally_names tally.now) }
{
    append_tally_version(out, tally)?;
    append_tally_outcome(out, tally)
}

#[tactic(auto, unfolding(crate::specs::ReportJson::tally_version))]
fn append_tally_version(out: &mut Vec<u8>, tally: &Tally) -> Result<(), NoMemory>
    ensures { OnOk result (out.new.items ≡ out.old.items ++ tally_version tally.now) }
{
    append(out, b"{")?;
    append_member(out, b"version", version_name(tally.version))
}

#[tactic(auto, unfolding(crate::specs::ReportJson::tally_outcome))]
fn append_tally_outcome(out: &mut Vec<u8>, tally: &Tally) -> Result<(), NoMemory>
    ensures { OnOk result (out.new.items ≡ out.old.items ++ tally_outcome tally.now) }
{
    append(out, b", ")?;
    append_member(out, b"outcome", tally.text.as_bytes())
}

// The ingresses.
fn append_ingress_array(
    alloc: Global,
    out: &mut Vec<u8>,
    names: &Names,
    ingresses: &[Ingress],
) -> Result<(), NoMemory>
    ensures { OnOk result (out.new.items ≡ out.old.items ++ join_by (ingress_object names.now) (codes ",\n") ingresses.now) }
{
    let [first, rest @ ..] = ingresses else {
        return Ok(());
    };
    append_ingress_object(alloc, out, names, first)?;
    for ingress in rest {
        append(out, b",\n")?;
        append_ingress_object(alloc, out, names, ingress)?;
    }
    Ok(())
}

#[tactic(auto, unfolding(crate::specs::ReportJson::ingress_object))]
fn append_ingress_object(
    alloc: Global,
    out: &mut Vec<u8>,
    names: &Names,
    ingress: &Ingress,
) -> Result<(), NoMemory>
    ensures { OnOk result (out.new.items ≡ out.old.items ++ ingress_object names.now ingress.now) }
{
    let groups = in_order(alloc, ingress.groups.as_slice())?;
    append_ingress_groups(alloc, out, names, ingress, &groups)?;
    append_ingress_rows(alloc, out, names, ingress.section.rows.as_slice())
}

#[tactic(auto, unfolding(crate::specs::ReportJson::ingress_start))]
fn append_ingress_groups(
    alloc: Global,
    out: &mut Vec<u8>,
    names: &Names,
    ingress: &Ingress,
    groups: &[&Entry],
) -> Result<(), NoMemory>
    ensures { OnOk result (out.new.items ≡ out.old.items ++ ingress_start names.now ingress.now (map (λ e. e.now) groups.now)) }
{
    append(out, b"{")?;
    append_place_members(out, names, ingress.section.place)?;
    append(out, b", \"groups\": [")?;
    append_group_array(alloc, out, names, groups)
}

#[tactic(auto, unfolding(crate::specs::ReportJson::ingress_end))]
fn append_ingress_rows(
    alloc: Global,
    out: &mut Vec<u8>,
    names: &Names,
    rows: &[Row],
) -> Result<(), NoMemory>
    ensures { OnOk result (out.new.items ≡ out.old.items ++ ingress_end names.now rows.now) }
{
    append(out, b"],\n\"rows\": [")?;
    append_rows(alloc, out, names, rows)?;
    append(out, b"]}")?;
    Ok(())
}

fn append_group_array(
    alloc: Global,
    out: &mut Vec<u8>,
    names: &Names,
    groups: &[&Entry],
) -> Result<(), NoMemory>
    ensures { OnOk result (out.new.items ≡ out.old.items ++ groups_array names.now (map (λ e. e.now) groups.now)) }
{
    let [first, rest @ ..] = groups else {
        return Ok(());
    };
    append_group_object(alloc, out, names, *first)?;
    for group in rest {
        append(out, b",\n")?;
        append_group_object(alloc, out, names, *group)?;
    }
    Ok(())
}
