//! How findings are written.

ghost use Rattle.std.specs.Prelude.{◌≡◌, ◌++◌, OnOk, length, filter, not};
ghost use Rattle.std.specs.List.{flat_map};
ghost use Rattle.report_text.specs.FieldText.{cube_text};
ghost use Rattle.result_text.specs.AuditText.{finding_text, findings_text, line, taken_text};
ghost use Rattle.audit_core.specs.AuditText.{audited_lists, is_dead};

use acl_audit::{Finding, FindingKind, Taken};
use hdr_bits::Cube;
use net_types::{NoMemory, Text};
use report_text::cube_bytes;
use result_text::{append_by_line, append_entry_line, append_list_line, append_row_line};
use std::alloc::Global;

/// A list with its findings. Where memory runs out, a part of the text may stand there.
#[tactic(auto, unfolding(result_text::specs::AuditText::findings_text))]
pub(crate) fn append_findings(
    alloc: Global,
    out: &mut Vec<u8>,
    file: &Text,
    name: &Text,
    findings: &[Finding],
) -> Result<(), NoMemory>
    ensures { OnOk result (out.new.items ≡ out.old.items ++ findings_text audited_lists file.now name.now findings.now) }
{
    let dead = dead_count(findings);
    let redundant = redundant_count(findings);
    append_list_line(out, file, name, dead, redundant)?;
    append_each(alloc, out, findings)
}

fn dead_count(findings: &[Finding]) -> usize
    ensures { result ≡ length (filter is_dead findings.now) }
{
    findings.iter().filter(|finding| is_dead(finding)).count()
}

fn redundant_count(findings: &[Finding]) -> usize
    ensures { result ≡ length (filter (λ f. not (is_dead f)) findings.now) }
{
    findings.iter().filter(|finding| !is_dead(finding)).count()
}

fn is_dead(finding: &Finding) -> bool
    ensures { result ≡ is_dead finding.now }
{
    match finding.kind {
        FindingKind::Dead => true,
        FindingKind::Redundant => false,
    }
}

// The findings one after the other.
fn append_each(alloc: Global, out: &mut Vec<u8>, findings: &[Finding]) -> Result<(), NoMemory>
    ensures { OnOk result (out.new.items ≡ out.old.items ++ flat_map (finding_text audited_lists) findings.now) }
{
    for finding in findings {
        append_finding(alloc, out, finding)?;
    }
    Ok(())
}

#[tactic(auto, unfolding(result_text::specs::AuditText::finding_text))]
fn append_finding(alloc: Global, out: &mut Vec<u8>, finding: &Finding) -> Result<(), NoMemory>
    ensures { OnOk result (out.new.items ≡ out.old.items ++ finding_text audited_lists finding.now) }
{
    append_entry_line(out, finding.sequence, is_dead(finding))?;
    append_all_taken(alloc, out, finding.taken.as_slice())
}

// What each earlier entry takes.
fn append_all_taken(alloc: Global, out: &mut Vec<u8>, taken: &[Taken]) -> Result<(), NoMemory>
    ensures { OnOk result (out.new.items ≡ out.old.items ++ flat_map (taken_text audited_lists) taken.now) }
{
    for one in taken {
        append_taken(alloc, out, one)?;
    }
    Ok(())
}

#[tactic(auto, unfolding(result_text::specs::AuditText::taken_text))]
fn append_taken(alloc: Global, out: &mut Vec<u8>, taken: &Taken) -> Result<(), NoMemory>
    ensures { OnOk result (out.new.items ≡ out.old.items ++ taken_text audited_lists taken.now) }
{
    append_by_line(out, taken.sequence, taken.rows.as_slice().len())?;
    append_rows(alloc, out, taken.rows.as_slice())
}

// The rows, a line for each.
fn append_rows(alloc: Global, out: &mut Vec<u8>, rows: &[Cube]) -> Result<(), NoMemory>
    ensures { OnOk result (out.new.items ≡ out.old.items ++ flat_map (λ r. line (cube_text r)) rows.now) }
{
    for row in rows {
        append_row(alloc, out, row)?;
    }
    Ok(())
}

fn append_row(alloc: Global, out: &mut Vec<u8>, row: &Cube) -> Result<(), NoMemory>
    ensures { OnOk result (out.new.items ≡ out.old.items ++ line (cube_text row.now)) }
{
    let cube = cube_bytes(alloc, row)?;
    append_row_line(out, &cube)
}
