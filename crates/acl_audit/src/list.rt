//! A whole list.

ghost use Rattle.std.specs.Prelude.{◌≡◌, ◌<◌, Some, IfOk, length, slice_get, take};
ghost use Rattle.hdr_bits.specs.HeaderBits.{header_of};
ghost use Rattle.net_types.specs.declared.config.Entry.{Entry};
ghost use Rattle.net_types.specs.AccessLists.{matches};
ghost use Rattle.cube_diagram.specs.Functions.{Keeps};
ghost use Rattle.acl_audit.specs.Findings.{AreFindings, Finds};
ghost use Rattle.acl_audit.specs.Sets.{IsAudited, IsSet, AreMatched, any_matches};

use crate::audited::Audited;
use crate::finding::Finding;
use crate::gather::push_if;
use crate::kinds::kind_of;
use crate::sets::{add_set, match_sets};
use crate::tails::tail_sets;
use crate::taken::taken_by_earlier;
use crate::unions::Unions;
use cube_diagram::Diagrams;
use net_types::{AccessList, Entry, List};
use no_memory::NoMemory;
use std::alloc::Global;

/// The dead and the redundant entries of the list, in its order, which is that of rising sequence numbers. It answers
/// `NoMemory` only where there was none.
///
/// All sets of headers are diagrams in one table, made once for all entries: what each matches and decides, what the
/// list says from it on, and the unions of what blocks of neighbours decide. Of the entries before a finding only those
/// that take some of its headers cost time; blocks of which none does are passed over. The rows of what entries take can
/// be very many.
pub fn audit(alloc: Global, list: &AccessList) -> Result<Vec<Finding>, NoMemory>
    ensures { IfOk result (λ findings. AreFindings list.now.entries (length list.now.entries) findings.items) }
{
    let mut diagrams = Diagrams::new(alloc)?;
    findings_of(alloc, &mut diagrams, list.entries.as_slice())
}

fn findings_of(
    alloc: Global,
    diagrams: &mut Diagrams,
    entries: &[Entry],
) -> Result<Vec<Finding>, NoMemory>
    ensures { IfOk result (λ findings. AreFindings entries.now (length entries.now) findings.items) }
{
    let matched = match_sets(alloc, diagrams, entries)?;
    let tails = tail_sets(alloc, diagrams, entries, &matched)?;
    let unions = Unions::over(alloc, diagrams, entries, &matched)?;
    let audited = Audited {
        entries,
        tails: &tails,
        unions: &unions,
    };
    judge_all(alloc, diagrams, audited, &matched)
}

// Judges one entry after the other. `matched` has the sets of the headers that they match.
fn judge_all(
    alloc: Global,
    diagrams: &mut Diagrams,
    audited: Audited,
    matched: &[u32],
) -> Result<Vec<Finding>, NoMemory>
    requires audited { IsAudited diagrams.old audited }
    requires matched { AreMatched diagrams.old audited.entries.now matched.now }
    ensures { IfOk result (λ findings. AreFindings audited.entry.entries.now (length audited.entry.entries.now) findings.items) }
{
    let mut findings = Vec::new(alloc);
    let mut head = diagrams.nothing();
    for i in 0..audited.entries.len() {
        let set = matched[i];
        let finding = judge(alloc, diagrams, audited, i, set, head)?;
        push_if(&mut findings, finding)?;
        head = add_set(diagrams, head, set)?;
    }
    Ok(findings)
}

// Judges the entry at a position. `matched` is the set of its headers, `head` that of the entries before it.
fn judge(
    alloc: Global,
    diagrams: &mut Diagrams,
    audited: Audited,
    position: usize,
    matched: u32,
    head: u32,
) -> Result<Option<Finding>, NoMemory>
    requires audited { IsAudited diagrams.old audited }
    requires position { position < length audited.entries.now }
    requires matched { (e : Entry) → slice_get audited.entries.now position ≡ Some e → IsSet diagrams.old (λ h. matches e (header_of h)) matched }
    requires head { IsSet diagrams.old (any_matches (take position audited.entries.now)) head }
    ensures finding { IfOk result (λ finding. (e : Entry) → slice_get audited.entry.entries.now position ≡ Some e → Finds audited.entry.entries.now position e finding) }
    ensures kept { Keeps diagrams.old diagrams.new }
{
    let own = audited.unions.set(0, position);
    let Some(kind) = kind_of(diagrams, audited, position, own, head)? else {
        return Ok(None);
    };
    let taken = taken_by_earlier(alloc, diagrams, audited, position, matched)?;
    Ok(Some(Finding {
        sequence: audited.entries[position].sequence,
        kind,
        taken: List::new(taken),
    }))
}
