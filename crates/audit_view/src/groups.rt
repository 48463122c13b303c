//! Findings by what they are, and how many of each there are.
ghost use Rattle.std.specs.Prelude.{◌≡◌, filter, length};
ghost use Rattle.std.specs.List.{sum_by, list_any};
ghost use Rattle.audit_view.specs.Shown.{is_this, group_of, same_group, is_in, count_in, total, has_findings, lists_with_findings};

use crate::audited::AuditedList;
use crate::findings::Finding;
use crate::lists::FolderList;
use crate::said::Kind;

/// What a finding is.
#[derive(Clone, Copy, Debug, PartialEq, Eq)]
pub enum Group {
    /// An entry that decides no packet.
    Dead,
    /// An entry without which the list passes the same packets.
    Redundant,
    /// One of these that is the last of its list and denies everything.
    Closing,
}

fn is_this(sequence: Option<u32>, this: u32) -> bool
    ensures { result ≡ is_this sequence this }
{
    match sequence {
        Some(sequence) => sequence == this,
        None => false,
    }
}

/// What the finding is.
pub(crate) fn group_of(list: &FolderList, finding: &Finding) -> Group
    ensures { result ≡ group_of list.now finding.now }
{
    if is_this(list.closing, finding.sequence) {
        return Group::Closing;
    }
    match finding.kind {
        Kind::Dead => Group::Dead,
        Kind::Redundant => Group::Redundant,
    }
}

fn same_group(a: Group, b: Group) -> bool
    ensures { result ≡ same_group a b }
{
    match (a, b) {
        (Group::Dead, Group::Dead) => true,
        (Group::Redundant, Group::Redundant) => true,
        (Group::Closing, Group::Closing) => true,
        _ => false,
    }
}

/// Whether the finding is one of these.
pub(crate) fn is_in(group: Group, list: &FolderList, finding: &Finding) -> bool
    ensures { result ≡ is_in group list.now finding.now }
{
    same_group(group, group_of(list, finding))
}

/// How many of these a list has.
#[tactic(auto, unfolding(crate::specs::Shown::count_in))]
pub(crate) fn count_in(group: Group, audited: &AuditedList) -> usize
    ensures { result ≡ count_in group audited.now }
{
    audited
        .findings
        .as_slice()
        .iter()
        .filter(|finding| is_in(group, &audited.list, finding))
        .count()
}

/// How many of these there are.
pub(crate) fn total(group: Group, audited: &[AuditedList]) -> u128
    ensures { result ≡ total group audited.now }
{
    let mut count: u128 = 0;
    for one in audited {
        count += count_in(group, one) as u128;
    }
    count
}

/// Whether the list has findings beside a closing denial.
#[tactic(auto, unfolding(crate::specs::Shown::has_findings))]
pub(crate) fn has_findings(audited: &AuditedList) -> bool
    ensures { result ≡ has_findings audited.now }
{
    audited
        .findings
        .as_slice()
        .iter()
        .any(|finding| !is_in(Group::Closing, &audited.list, finding))
}

/// How many lists have such findings.
pub(crate) fn lists_with_findings(audited: &[AuditedList]) -> usize
    ensures { result ≡ lists_with_findings audited.now }
{
    audited.iter().filter(|one| has_findings(one)).count()
}
