//! An audit as one document of JSON.
ghost use Rattle.std.specs.Prelude.{◌≡◌, ◌++◌, codes, IfOk, OnOk};
ghost use Rattle.std.specs.List.{join_by};
ghost use Rattle.json_text.specs.Json.{string_text, key, string_member};
ghost use Rattle.audit_view.specs.ShownJson.{entry_members, rows_member, taken_json, counts_json, finding_json, list_json, audit_json, bool_text};
ghost use Rattle.audit_view.specs.ShownText.{text_of};

use crate::audited::AuditedList;
use crate::findings::{Finding, Taken};
use crate::groups::{Group, count_in, is_in, total};
use crate::lists::FolderList;
use crate::printed::kind_name;
use crate::text::append_line;
use crate::unknown::entry_of;
use json_text::{append_member, append_string};
use net_types::{NoMemory, Text};
use report_text::{append, append_number};
use std::alloc::Global;

/// The document: exactly the lists of the folder with their findings.
#[tactic(auto, unfolding(crate::specs::ShownJson::audit_json))]
pub(crate) fn json_bytes(
    alloc: Global,
    audited: &[AuditedList],
    rows: bool,
) -> Result<Vec<u8>, NoMemory>
    ensures { IfOk result (λ text. text.items ≡ audit_json rows audited.now) }
{
    let mut out = Vec::new(alloc);
    append(
        &mut out,
        b"{\"schema\": \"diqenyu-audit\", \"version\": 1, ",
    )?;
    append_counts(
        &mut out,
        total(Group::Dead, audited),
        total(Group::Redundant, audited),
        total(Group::Closing, audited),
    )?;
    append(&mut out, b",\n\"lists\": [")?;
    append_lists(&mut out, audited, rows)?;
    append(&mut out, b"]}\n")?;
    Ok(out)
}

fn append_lists(out: &mut Vec<u8>, audited: &[AuditedList], rows: bool) -> Result<(), NoMemory>
    ensures { OnOk result (out.new.items ≡ out.old.items ++ join_by (list_json rows) (codes ",\n") audited.now) }
{
    let [first, rest @ ..] = audited else {
        return Ok(());
    };
    append_list(out, first, rows)?;
    for one in rest {
        append(out, b",\n")?;
        append_list(out, one, rows)?;
    }
    Ok(())
}

#[tactic(auto, unfolding(crate::specs::ShownJson::list_json))]
fn append_list(out: &mut Vec<u8>, audited: &AuditedList, rows: bool) -> Result<(), NoMemory>
    ensures { OnOk result (out.new.items ≡ out.old.items ++ list_json rows audited.now) }
{
    append(out, b"{")?;
    append_member(out, b"file", audited.list.file.as_bytes())?;
    append(out, b", ")?;
    append_member(out, b"list", audited.list.name.as_bytes())?;
    append(out, b", ")?;
    append_counts(
        out,
        count_in(Group::Dead, audited) as u128,
        count_in(Group::Redundant, audited) as u128,
        count_in(Group::Closing, audited) as u128,
    )?;
    append(out, b", \"findings\": [")?;
    append_findings(out, &audited.list, audited.findings.as_slice(), rows)?;
    append(out, b"]}")?;
    Ok(())
}

#[tactic(auto, unfolding(crate::specs::ShownJson::counts_json))]
fn append_counts(
    out: &mut Vec<u8>,
    dead: u128,
    redundant: u128,
    closing: u128,
) -> Result<(), NoMemory>
    ensures { OnOk result (out.new.items ≡ out.old.items ++ counts_json dead redundant closing) }
{
    append(out, b"\"dead\": ")?;
    append_number(out, dead)?;
    append(out, b", \"redundant\": ")?;
    append_number(out, redundant)?;
    append(out, b", \"closing\": ")?;
    append_number(out, closing)?;
    Ok(())
}

fn append_findings(
    out: &mut Vec<u8>,
    list: &FolderList,
    findings: &[Finding],
    rows: bool,
) -> Result<(), NoMemory>
    ensures { OnOk result (out.new.items ≡ out.old.items ++ join_by (finding_json rows list.now) (codes ",\n") findings.now) }
{
    let [first, rest @ ..] = findings else {
        return Ok(());
    };
    append_finding(out, list, first, rows)?;
    for finding in rest {
        append(out, b",\n")?;
        append_finding(out, list, finding, rows)?;
    }
    Ok(())
}

#[tactic(auto, unfolding(crate::specs::ShownJson::finding_json))]
fn append_finding(
    out: &mut Vec<u8>,
    list: &FolderList,
    finding: &Finding,
    rows: bool,
) -> Result<(), NoMemory>
    ensures { OnOk result (out.new.items ≡ out.old.items ++ finding_json rows list.now finding.now) }
{
    append(out, b"{")?;
    append_entry(out, list, finding.sequence)?;
    append(out, b", ")?;
    append_member(out, b"kind", kind_name(finding))?;
    append(out, b", \"closing\": ")?;
    append(out, bool_text(is_in(Group::Closing, list, finding)))?;
    append(out, b", \"by\": [")?;
    append_all_taken(out, list, finding.taken.as_slice(), rows)?;
    append(out, b"]}")?;
    Ok(())
}

fn bool_text(is: bool) -> &'static [u8]
    ensures { result.now ≡ bool_text is }
{
    if is { b"true" } else { b"false" }
}

// The sequence number of an entry, and its line.
#[tactic(auto, unfolding(crate::specs::ShownJson::entry_members))]
fn append_entry(out: &mut Vec<u8>, list: &FolderList, sequence: u32) -> Result<(), NoMemory>
    ensures { OnOk result (out.new.items ≡ out.old.items ++ entry_members list.now sequence) }
{
    append(out, b"\"sequence\": ")?;
    append_number(out, sequence)?;
    append(out, b", \"line\": ")?;
    append_line(out, list, sequence)?;
    append(out, b", ")?;
    append_own_text(out, list, sequence)?;
    Ok(())
}

#[tactic(auto, unfolding(crate::specs::ShownText::text_of))]
fn append_own_text(out: &mut Vec<u8>, list: &FolderList, sequence: u32) -> Result<(), NoMemory>
    ensures { OnOk result (out.new.items ≡ out.old.items ++ string_member (codes "text") (text_of list.now sequence)) }
{
    match entry_of(list, sequence) {
        Some(entry) => append_member(out, b"text", entry.text.as_bytes()),
        None => append_member(out, b"text", b""),
    }
}

fn append_all_taken(
    out: &mut Vec<u8>,
    list: &FolderList,
    taken: &[Taken],
    rows: bool,
) -> Result<(), NoMemory>
    ensures { OnOk result (out.new.items ≡ out.old.items ++ join_by (taken_json rows list.now) (codes ", ") taken.now) }
{
    let [first, rest @ ..] = taken else {
        return Ok(());
    };
    append_taken(out, list, first, rows)?;
    for one in rest {
        append(out, b", ")?;
        append_taken(out, list, one, rows)?;
    }
    Ok(())
}

#[tactic(auto, unfolding(crate::specs::ShownJson::taken_json))]
fn append_taken(
    out: &mut Vec<u8>,
    list: &FolderList,
    taken: &Taken,
    rows: bool,
) -> Result<(), NoMemory>
    ensures { OnOk result (out.new.items ≡ out.old.items ++ taken_json rows list.now taken.now) }
{
    append(out, b"{")?;
    append_entry(out, list, taken.sequence)?;
    append(out, b", \"rows\": ")?;
    append_number(out, taken.rows.as_slice().len())?;
    append_headers(out, taken.rows.as_slice(), rows)?;
    append(out, b"}")
}

// The headers of the rows, where they are asked for.
#[tactic(auto, unfolding(crate::specs::ShownJson::rows_member))]
fn append_headers(out: &mut Vec<u8>, texts: &[Text], rows: bool) -> Result<(), NoMemory>
    ensures { OnOk result (out.new.items ≡ out.old.items ++ rows_member rows texts.now) }
{
    if rows {
        append(out, b", \"headers\": [")?;
        append_texts(out, texts)?;
        append(out, b"]")
    } else {
        Ok(())
    }
}

fn append_texts(out: &mut Vec<u8>, texts: &[Text]) -> Result<(), NoMemory>
    ensures { OnOk result (out.new.items ≡ out.old.items ++ join_by string_text (codes ", ") texts.now) }
{
    let [first, rest @ ..] = texts else {
        return Ok(());
    };
    append_string(out, first.as_bytes())?;
    for text in rest {
        append(out, b", ")?;
        append_string(out, text.as_bytes())?;
    }
    Ok(())
}
