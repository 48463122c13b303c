//! Entries that an audit names and that aren't in their list.
ghost use Rattle.std.specs.Prelude.{◌≡◌, ◌++◌, ◌<◌, ◌^◌, true, not, map, position, IfOk, IfSome, OnOk};
ghost use Rattle.std.specs.List.{flat_map};
ghost use Rattle.std.specs.Option.{option_copied};
ghost use Rattle.audit_view.specs.Audited.{has_sequence, entry_of, is_known, taken_marks, finding_marks, list_marks, marks, first_unknown};

use crate::audited::AuditedList;
use crate::findings::{Finding, Taken};
use crate::lists::{FolderList, ListEntry};
use net_types::{NoMemory, Text};
use std::alloc::Global;

/// How many lines of the audit stand before the first one that names an entry which its list hasn't, if there is one.
pub(crate) fn first_unknown(
    alloc: Global,
    audited: &[AuditedList],
) -> Result<Option<usize>, NoMemory>
    ensures place { IfOk result (λ place. place ≡ first_unknown audited.now) }
    ensures small { IfOk result (λ place. IfSome place (λ n. n < 2 ^ 63)) }
{
    let marks = marks(alloc, audited)?;
    Ok(first_false(&marks))
}

fn first_false(marks: &[bool]) -> Option<usize>
    ensures place { result ≡ position not marks.now }
    ensures small { IfSome result (λ n. n < 2 ^ 63) }
{
    marks.iter().position(|known| !*known)
}

/// The entry of this sequence number.
pub(crate) fn entry_of(list: &FolderList, sequence: u32) -> Option<&ListEntry>
    ensures { option_copied result ≡ entry_of list.now sequence }
{
    list.entries
        .as_slice()
        .iter()
        .find(|entry| entry.sequence == sequence)
}

fn is_known(list: &FolderList, sequence: u32) -> bool
    ensures { result ≡ is_known list.now sequence }
{
    entry_of(list, sequence).is_some()
}

// For each line of the audit whether it names no other entry.
fn marks(alloc: Global, audited: &[AuditedList]) -> Result<Vec<bool>, NoMemory>
    ensures { IfOk result (λ found. found.items ≡ marks audited.now) }
{
    let mut marks = Vec::new(alloc);
    for one in audited {
        add_list(&mut marks, one)?;
    }
    Ok(marks)
}

fn add_list(marks: &mut Vec<bool>, audited: &AuditedList) -> Result<(), NoMemory>
    ensures { OnOk result (marks.new.items ≡ marks.old.items ++ list_marks audited.now) }
{
    marks.push(true)?;
    add_findings(marks, &audited.list, audited.findings.as_slice())
}

fn add_findings(
    marks: &mut Vec<bool>,
    list: &FolderList,
    findings: &[Finding],
) -> Result<(), NoMemory>
    ensures { OnOk result (marks.new.items ≡ marks.old.items ++ flat_map (finding_marks list.now) findings.now) }
{
    for finding in findings {
        add_finding(marks, list, finding)?;
    }
    Ok(())
}

fn add_finding(marks: &mut Vec<bool>, list: &FolderList, finding: &Finding) -> Result<(), NoMemory>
    ensures { OnOk result (marks.new.items ≡ marks.old.items ++ finding_marks list.now finding.now) }
{
    marks.push(is_known(list, finding.sequence))?;
    add_all_taken(marks, list, finding.taken.as_slice())
}

fn add_all_taken(marks: &mut Vec<bool>, list: &FolderList, taken: &[Taken]) -> Result<(), NoMemory>
    ensures { OnOk result (marks.new.items ≡ marks.old.items ++ flat_map (taken_marks list.now) taken.now) }
{
    for one in taken {
        add_taken(marks, list, one)?;
    }
    Ok(())
}

fn add_taken(marks: &mut Vec<bool>, list: &FolderList, taken: &Taken) -> Result<(), NoMemory>
    ensures { OnOk result (marks.new.items ≡ marks.old.items ++ taken_marks list.now taken.now) }
{
    marks.push(is_known(list, taken.sequence))?;
    add_rows(marks, taken.rows.as_slice())
}

fn add_rows(marks: &mut Vec<bool>, rows: &[Text]) -> Result<(), NoMemory>
    ensures { OnOk result (marks.new.items ≡ marks.old.items ++ map (λ row. true) rows.now) }
{
    for _row in rows {
        marks.push(true)?;
    }
    Ok(())
}
