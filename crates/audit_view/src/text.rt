//! An audit as text for a person.
ghost use Rattle.std.specs.Prelude.{◌≡◌, ◌++◌, IfOk, OnOk};
ghost use Rattle.std.specs.List.{flat_map};
ghost use Rattle.audit_view.specs.ShownText.{line_of, text_of, lists_text, kinds_text, head_text, name_text, counts_text, summary_line, row_line, row_lines, taken_text, finding_text, open_text, list_text, list_part, denial_text, closing_text, closings_in, or_nothing, view_text};

use crate::audited::AuditedList;
use crate::findings::{Finding, Taken};
use crate::groups::{Group, count_in, has_findings, is_in, lists_with_findings, total};
use crate::lists::FolderList;
use crate::printed::kind_name;
use crate::unknown::entry_of;
use net_types::{NoMemory, Text};
use report_text::TextPart::Bytes;
use report_text::{append, append_all, append_number};
use std::alloc::Global;

// Each function adds a text at the end. Where memory runs out, a part of the text may stand there.

/// The text: how many findings there are, by list, then each list with its findings, and at last the closing denials.
#[tactic(auto, unfolding(crate::specs::ShownText::view_text))]
pub(crate) fn view_bytes(
    alloc: Global,
    audited: &[AuditedList],
    rows: bool,
) -> Result<Vec<u8>, NoMemory>
    ensures { IfOk result (λ text. text.items ≡ view_text rows audited.now) }
{
    let mut closings = Vec::new(alloc);
    append_closings(&mut closings, audited)?;
    let mut text = Vec::new(alloc);
    append_head(&mut text, audited)?;
    append_summary(&mut text, audited)?;
    append_lists(&mut text, audited, rows)?;
    append_denials(&mut text, &closings)?;
    Ok(text)
}

#[tactic(auto, unfolding(crate::specs::ShownText::head_text))]
fn append_head(out: &mut Vec<u8>, audited: &[AuditedList]) -> Result<(), NoMemory>
    ensures { OnOk result (out.new.items ≡ out.old.items ++ head_text audited.now) }
{
    append_list_counts(out, audited)?;
    append_kinds(
        out,
        total(Group::Dead, audited),
        total(Group::Redundant, audited),
    )?;
    append(out, b"; closing denials ")?;
    append_number(out, total(Group::Closing, audited))?;
    append(out, b"\n")?;
    Ok(())
}

#[tactic(auto, unfolding(crate::specs::ShownText::lists_text))]
fn append_list_counts(out: &mut Vec<u8>, audited: &[AuditedList]) -> Result<(), NoMemory>
    ensures { OnOk result (out.new.items ≡ out.old.items ++ lists_text audited.now) }
{
    append(out, b"lists ")?;
    append_number(out, audited.len())?;
    append(out, b", with findings ")?;
    append_number(out, lists_with_findings(audited))?;
    Ok(())
}

#[tactic(auto, unfolding(crate::specs::ShownText::kinds_text))]
fn append_kinds(out: &mut Vec<u8>, dead: u128, redundant: u128) -> Result<(), NoMemory>
    ensures { OnOk result (out.new.items ≡ out.old.items ++ kinds_text dead redundant) }
{
    append(out, b": dead ")?;
    append_number(out, dead)?;
    append(out, b", redundant ")?;
    append_number(out, redundant)?;
    Ok(())
}

fn append_summary(out: &mut Vec<u8>, audited: &[AuditedList]) -> Result<(), NoMemory>
    ensures { OnOk result (out.new.items ≡ out.old.items ++ flat_map summary_line audited.now) }
{
    for one in audited {
        append_summary_line(out, one)?;
    }
    Ok(())
}

fn append_summary_line(out: &mut Vec<u8>, audited: &AuditedList) -> Result<(), NoMemory>
    ensures { OnOk result (out.new.items ≡ out.old.items ++ summary_line audited.now) }
{
    if has_findings(audited) {
        append_counts(out, audited)
    } else {
        Ok(())
    }
}

#[tactic(auto, unfolding(crate::specs::ShownText::counts_text))]
fn append_counts(out: &mut Vec<u8>, audited: &AuditedList) -> Result<(), NoMemory>
    ensures { OnOk result (out.new.items ≡ out.old.items ++ counts_text audited.now) }
{
    append(out, b"  ")?;
    append_name(out, &audited.list)?;
    append_kinds(
        out,
        count_in(Group::Dead, audited) as u128,
        count_in(Group::Redundant, audited) as u128,
    )?;
    append(out, b"\n")?;
    Ok(())
}

#[tactic(auto, unfolding(crate::specs::ShownText::name_text))]
fn append_name(out: &mut Vec<u8>, list: &FolderList) -> Result<(), NoMemory>
    ensures { OnOk result (out.new.items ≡ out.old.items ++ name_text list.now) }
{
    append_all(
        out,
        &[
            Bytes(list.file.as_bytes()),
            Bytes(b" "),
            Bytes(list.name.as_bytes()),
        ],
    )
}

fn append_lists(out: &mut Vec<u8>, audited: &[AuditedList], rows: bool) -> Result<(), NoMemory>
    ensures { OnOk result (out.new.items ≡ out.old.items ++ flat_map (list_part rows) audited.now) }
{
    for one in audited {
        append_list_part(out, one, rows)?;
    }
    Ok(())
}

fn append_list_part(out: &mut Vec<u8>, audited: &AuditedList, rows: bool) -> Result<(), NoMemory>
    ensures { OnOk result (out.new.items ≡ out.old.items ++ list_part rows audited.now) }
{
    if has_findings(audited) {
        append_list(out, audited, rows)
    } else {
        Ok(())
    }
}

#[tactic(auto, unfolding(crate::specs::ShownText::list_text))]
fn append_list(out: &mut Vec<u8>, audited: &AuditedList, rows: bool) -> Result<(), NoMemory>
    ensures { OnOk result (out.new.items ≡ out.old.items ++ list_text rows audited.now) }
{
    append(out, b"\n")?;
    append_name(out, &audited.list)?;
    append(out, b"\n")?;
    append_findings(out, &audited.list, audited.findings.as_slice(), rows)
}

fn append_findings(
    out: &mut Vec<u8>,
    list: &FolderList,
    findings: &[Finding],
    rows: bool,
) -> Result<(), NoMemory>
    ensures { OnOk result (out.new.items ≡ out.old.items ++ flat_map (open_text rows list.now) findings.now) }
{
    for finding in findings {
        append_open(out, list, finding, rows)?;
    }
    Ok(())
}

// A closing denial stands apart.
fn append_open(
    out: &mut Vec<u8>,
    list: &FolderList,
    finding: &Finding,
    rows: bool,
) -> Result<(), NoMemory>
    ensures { OnOk result (out.new.items ≡ out.old.items ++ open_text rows list.now finding.now) }
{
    if is_in(Group::Closing, list, finding) {
        Ok(())
    } else {
        append_finding(out, list, finding, rows)
    }
}

#[tactic(auto, unfolding(crate::specs::ShownText::finding_text))]
fn append_finding(
    out: &mut Vec<u8>,
    list: &FolderList,
    finding: &Finding,
    rows: bool,
) -> Result<(), NoMemory>
    ensures { OnOk result (out.new.items ≡ out.old.items ++ finding_text rows list.now finding.now) }
{
    append(out, b"  line ")?;
    append_line(out, list, finding.sequence)?;
    append_all(out, &[Bytes(b" "), Bytes(kind_name(finding)), Bytes(b": ")])?;
    append_text(out, list, finding.sequence)?;
    append(out, b"\n")?;
    append_all_taken(out, list, finding.taken.as_slice(), rows)
}

fn append_all_taken(
    out: &mut Vec<u8>,
    list: &FolderList,
    taken: &[Taken],
    rows: bool,
) -> Result<(), NoMemory>
    ensures { OnOk result (out.new.items ≡ out.old.items ++ flat_map (taken_text rows list.now) taken.now) }
{
    for one in taken {
        append_taken(out, list, one, rows)?;
    }
    Ok(())
}

#[tactic(auto, unfolding(crate::specs::ShownText::taken_text))]
fn append_taken(
    out: &mut Vec<u8>,
    list: &FolderList,
    taken: &Taken,
    rows: bool,
) -> Result<(), NoMemory>
    ensures { OnOk result (out.new.items ≡ out.old.items ++ taken_text rows list.now taken.now) }
{
    append(out, b"    by line ")?;
    append_line(out, list, taken.sequence)?;
    append(out, b", rows ")?;
    append_number(out, taken.rows.as_slice().len())?;
    append(out, b": ")?;
    append_text(out, list, taken.sequence)?;
    append(out, b"\n")?;
    append_row_lines(out, taken.rows.as_slice(), rows)?;
    Ok(())
}

// The rows, where they are asked for.
#[tactic(auto, unfolding(crate::specs::ShownText::row_lines))]
fn append_row_lines(out: &mut Vec<u8>, texts: &[Text], rows: bool) -> Result<(), NoMemory>
    ensures { OnOk result (out.new.items ≡ out.old.items ++ row_lines rows texts.now) }
{
    if rows {
        append_rows(out, texts)
    } else {
        Ok(())
    }
}

fn append_rows(out: &mut Vec<u8>, texts: &[Text]) -> Result<(), NoMemory>
    ensures { OnOk result (out.new.items ≡ out.old.items ++ flat_map row_line texts.now) }
{
    for text in texts {
        append_row(out, text)?;
    }
    Ok(())
}

fn append_row(out: &mut Vec<u8>, text: &Text) -> Result<(), NoMemory>
    ensures { OnOk result (out.new.items ≡ out.old.items ++ row_line text.now) }
{
    append_all(
        out,
        &[Bytes(b"      "), Bytes(text.as_bytes()), Bytes(b"\n")],
    )
}

/// Adds the place of the line of the entry of this sequence number.
#[tactic(auto, unfolding(crate::specs::ShownText::line_of))]
pub(crate) fn append_line(
    out: &mut Vec<u8>,
    list: &FolderList,
    sequence: u32,
) -> Result<(), NoMemory>
    ensures { OnOk result (out.new.items ≡ out.old.items ++ line_of list.now sequence) }
{
    match entry_of(list, sequence) {
        Some(entry) => append_number(out, entry.line),
        None => Ok(()),
    }
}

/// Adds that line.
#[tactic(auto, unfolding(crate::specs::ShownText::text_of))]
pub(crate) fn append_text(
    out: &mut Vec<u8>,
    list: &FolderList,
    sequence: u32,
) -> Result<(), NoMemory>
    ensures { OnOk result (out.new.items ≡ out.old.items ++ text_of list.now sequence) }
{
    match entry_of(list, sequence) {
        Some(entry) => append(out, entry.text.as_bytes()),
        None => Ok(()),
    }
}

// The closing denials behind a line of their own, where there are any.
fn append_denials(out: &mut Vec<u8>, closings: &[u8]) -> Result<(), NoMemory>
    ensures { OnOk result (out.new.items ≡ out.old.items ++ or_nothing closings.now) }
{
    if closings.is_empty() {
        return Ok(());
    }
    append(out, b"\nclosing denials\n")?;
    append(out, closings)
}

fn append_closings(out: &mut Vec<u8>, audited: &[AuditedList]) -> Result<(), NoMemory>
    ensures { OnOk result (out.new.items ≡ out.old.items ++ flat_map closings_in audited.now) }
{
    for one in audited {
        append_closings_in(out, &one.list, one.findings.as_slice())?;
    }
    Ok(())
}

fn append_closings_in(
    out: &mut Vec<u8>,
    list: &FolderList,
    findings: &[Finding],
) -> Result<(), NoMemory>
    ensures { OnOk result (out.new.items ≡ out.old.items ++ flat_map (closing_text list.now) findings.now) }
{
    for finding in findings {
        append_closing(out, list, finding)?;
    }
    Ok(())
}

fn append_closing(out: &mut Vec<u8>, list: &FolderList, finding: &Finding) -> Result<(), NoMemory>
    ensures { OnOk result (out.new.items ≡ out.old.items ++ closing_text list.now finding.now) }
{
    if is_in(Group::Closing, list, finding) {
        append_denial(out, list, finding)
    } else {
        Ok(())
    }
}

#[tactic(auto, unfolding(crate::specs::ShownText::denial_text))]
fn append_denial(out: &mut Vec<u8>, list: &FolderList, finding: &Finding) -> Result<(), NoMemory>
    ensures { OnOk result (out.new.items ≡ out.old.items ++ denial_text list.now finding.now) }
{
    append_all(
        out,
        &[Bytes(b"  "), Bytes(list.file.as_bytes()), Bytes(b" line ")],
    )?;
    append_line(out, list, finding.sequence)?;
    append(out, b": ")?;
    append_text(out, list, finding.sequence)?;
    append(out, b"\n")
}
