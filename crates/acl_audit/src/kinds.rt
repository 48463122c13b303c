//! Whether an entry is dead or redundant.

ghost use Rattle.std.specs.Prelude.{◌≡◌, ◌<◌, ◌+◌, ◌==◌, Some, ℕ, List, slice_get, take, drop, IfOk, IsTrue, ◌↔◌, length};
ghost use Rattle.hdr_bits.specs.declared.header.Header.{Header};
ghost use Rattle.hdr_bits.specs.HeaderBits.{IsHeader};
ghost use Rattle.net_types.specs.AccessLists.{entries_verdict, passes};
ghost use Rattle.std.specs.List.{remove};
ghost use Rattle.net_types.specs.declared.config.Entry.{Entry};
ghost use Rattle.cube_diagram.specs.Functions.{Keeps, count_of};
ghost use Rattle.acl_audit.specs.Findings.{IsKind, IsDead};
ghost use Rattle.acl_audit.specs.Sets.{IsAudited, IsSet, AreTails, any_matches, decided_in, passes_to};

use crate::audited::Audited;
use crate::finding::FindingKind;
use cube_diagram::Diagrams;
use net_types::Entry;
use no_memory::NoMemory;

/// The kind of the entry at a position, if it is of one. `own` is the set of headers that are decided under its sequence
/// number, `head` that of those that an entry before it matches.
pub(crate) fn kind_of(
    diagrams: &mut Diagrams,
    audited: Audited,
    position: usize,
    own: u32,
    head: u32,
) -> Result<Option<FindingKind>, NoMemory>
    requires audited { IsAudited diagrams.old audited }
    requires position { position < length audited.entries.now }
    requires head { IsSet diagrams.old (any_matches (take position audited.entries.now)) head }
    requires own { IsSet diagrams.old (decided_in audited.entries.now 0 position) own }
    ensures kind { IfOk result (λ kind. (e : Entry) → slice_get audited.entry.entries.now position ≡ Some e → IsKind audited.entry.entries.now position e kind) }
    ensures kept { Keeps diagrams.old diagrams.new }
{
    if is_dead(diagrams, own) {
        return Ok(Some(FindingKind::Dead));
    }
    let same = passes_same(diagrams, audited, position, head)?;
    if same {
        return Ok(Some(FindingKind::Redundant));
    }
    Ok(None)
}

// Whether no header is in the set of those that are decided under an entry's sequence number.
fn is_dead(diagrams: &Diagrams, own: u32) -> bool
    requires { own < count_of diagrams.now }
    ensures { (entries : List Entry) (position : ℕ) (e : Entry) → slice_get entries position ≡ Some e
        → IsSet diagrams.now (decided_in entries 0 position) own → IsTrue result ↔ IsDead entries e }
{
    diagrams.is_nothing(own)
}

// Whether the list without the entry passes the same headers. What entries before it decide is the same, so what counts
// is whether the tails with it and without it differ elsewhere.
fn passes_same(
    diagrams: &mut Diagrams,
    audited: Audited,
    position: usize,
    head: u32,
) -> Result<bool, NoMemory>
    requires audited { IsAudited diagrams.old audited }
    requires position { position < length audited.entries.now }
    requires head { IsSet diagrams.old (any_matches (take position audited.entries.now)) head }
    ensures same { IfOk result (λ same. IsTrue same ↔ ((h : Header) → IsHeader h
        → passes (entries_verdict (remove audited.entry.entries.now position) h) ≡ passes (entries_verdict audited.entry.entries.now h))) }
    ensures kept { Keeps diagrams.old diagrams.new }
{
    let whole = audited.tails[audited.entries.len() - position];
    let rest = rest_set(diagrams, audited.entries, audited.tails, position);
    let difference = diagrams.difference(whole, rest)?;
    let open = diagrams.without(difference, head)?;
    Ok(diagrams.is_nothing(open))
}

// What the list without the entry passes of the headers that no entry before it matches. Without its only entry a list
// passes everything.
fn rest_set(diagrams: &Diagrams, entries: &[Entry], tails: &[u32], position: usize) -> u32
    requires position { position < length entries.now }
    requires tails { AreTails diagrams.now entries.now tails.now }
    requires all { length tails.now ≡ length entries.now + 1 }
    ensures { IsSet diagrams.now (λ h. passes_to (length entries.now == 1) (drop (position + 1) entries.now) h) result }
{
    if entries.len() == 1 {
        return diagrams.everything();
    }
    tails[entries.len() - 1 - position]
}
