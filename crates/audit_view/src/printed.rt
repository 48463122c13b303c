//! An audit as it is written by the program that makes it.
ghost use Rattle.std.specs.Prelude.{◌≡◌, ◌++◌, not, length, filter, IfOk, OnOk};
ghost use Rattle.std.specs.List.{flat_map};
ghost use Rattle.result_text.specs.AuditText.{audit_text, finding_count, finding_text, findings_text, kind_name, line, list_text, taken_text};
ghost use Rattle.audit_view.specs.Audited.{audited_lists, is_dead};

use crate::audited::AuditedList;
use crate::findings::{Finding, Taken};
use crate::lists::FolderList;
use crate::said::Kind;
use net_types::{NoMemory, Text};
use result_text::{
    append_by_line, append_entry_line, append_list_line, append_row_line, append_total_line,
};
use std::alloc::Global;

/// The text of an audit with these findings.
#[tactic(auto, unfolding(result_text::specs::AuditText::audit_text))]
pub(crate) fn audit_bytes(alloc: Global, audited: &[AuditedList]) -> Result<Vec<u8>, NoMemory>
    ensures { IfOk result (λ text. text.items ≡ audit_text audited_lists audited.now) }
{
    let mut text = Vec::new(alloc);
    append_lists(&mut text, audited)?;
    append_total_line(&mut text, finding_count(audited))?;
    Ok(text)
}

/// How many findings there are.
pub(crate) fn finding_count(audited: &[AuditedList]) -> u128
    ensures { result ≡ finding_count audited_lists audited.now }
{
    let mut count: u128 = 0;
    for one in audited {
        count += one.findings.as_slice().len() as u128;
    }
    count
}

fn append_lists(out: &mut Vec<u8>, audited: &[AuditedList]) -> Result<(), NoMemory>
    ensures { OnOk result (out.new.items ≡ out.old.items ++ flat_map (list_text audited_lists) audited.now) }
{
    for one in audited {
        append_list(out, one)?;
    }
    Ok(())
}

fn append_list(out: &mut Vec<u8>, audited: &AuditedList) -> Result<(), NoMemory>
    ensures { OnOk result (out.new.items ≡ out.old.items ++ list_text audited_lists audited.now) }
{
    append_with(out, &audited.list, audited.findings.as_slice())
}

#[tactic(auto, unfolding(result_text::specs::AuditText::findings_text))]
fn append_with(out: &mut Vec<u8>, list: &FolderList, findings: &[Finding]) -> Result<(), NoMemory>
    ensures { OnOk result (out.new.items ≡ out.old.items ++ findings_text audited_lists list.now.file list.now.name findings.now) }
{
    let dead = dead_count(findings);
    let redundant = redundant_count(findings);
    append_list_line(out, &list.file, &list.name, dead, redundant)?;
    append_findings(out, findings)
}

/// How many of the findings are dead entries.
fn dead_count(findings: &[Finding]) -> usize
    ensures { result ≡ length (filter is_dead findings.now) }
{
    findings.iter().filter(|finding| is_dead(finding)).count()
}

/// How many of them are redundant ones.
fn redundant_count(findings: &[Finding]) -> usize
    ensures { result ≡ length (filter (λ f. not (is_dead f)) findings.now) }
{
    findings.iter().filter(|finding| !is_dead(finding)).count()
}

/// Whether the entry is dead.
fn is_dead(finding: &Finding) -> bool
    ensures { result ≡ is_dead finding.now }
{
    match finding.kind {
        Kind::Dead => true,
        Kind::Redundant => false,
    }
}

/// What a finding is called.
pub(crate) fn kind_name(finding: &Finding) -> &'static [u8]
    ensures { result.now ≡ kind_name (is_dead finding.now) }
{
    result_text::kind_name(is_dead(finding))
}

fn append_findings(out: &mut Vec<u8>, findings: &[Finding]) -> Result<(), NoMemory>
    ensures { OnOk result (out.new.items ≡ out.old.items ++ flat_map (finding_text audited_lists) findings.now) }
{
    for finding in findings {
        append_finding(out, finding)?;
    }
    Ok(())
}

#[tactic(auto, unfolding(result_text::specs::AuditText::finding_text))]
fn append_finding(out: &mut Vec<u8>, finding: &Finding) -> Result<(), NoMemory>
    ensures { OnOk result (out.new.items ≡ out.old.items ++ finding_text audited_lists finding.now) }
{
    append_entry_line(out, finding.sequence, is_dead(finding))?;
    append_all_taken(out, finding.taken.as_slice())
}

fn append_all_taken(out: &mut Vec<u8>, taken: &[Taken]) -> Result<(), NoMemory>
    ensures { OnOk result (out.new.items ≡ out.old.items ++ flat_map (taken_text audited_lists) taken.now) }
{
    for one in taken {
        append_taken(out, one)?;
    }
    Ok(())
}

#[tactic(auto, unfolding(result_text::specs::AuditText::taken_text))]
fn append_taken(out: &mut Vec<u8>, taken: &Taken) -> Result<(), NoMemory>
    ensures { OnOk result (out.new.items ≡ out.old.items ++ taken_text audited_lists taken.now) }
{
    append_by_line(out, taken.sequence, taken.rows.as_slice().len())?;
    append_rows(out, taken.rows.as_slice())
}

fn append_rows(out: &mut Vec<u8>, rows: &[Text]) -> Result<(), NoMemory>
    ensures { OnOk result (out.new.items ≡ out.old.items ++ flat_map line rows.now) }
{
    for row in rows {
        append_row_line(out, row.as_bytes())?;
    }
    Ok(())
}
