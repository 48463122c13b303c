//! What the entries of a list decide.

ghost use Rattle.std.specs.Prelude.{◌<◌, List, nat_eq, IfOk};
ghost use Rattle.indexmap.specs.IndexMap.{get};
ghost use Rattle.hdr_bits.specs.HeaderBits.{header_of};
ghost use Rattle.net_types.specs.AccessLists.{entries_verdict};
ghost use Rattle.cube_diagram.specs.Functions.{Keeps, count_of};
ghost use Rattle.acl_audit.specs.Findings.{is_by};
ghost use Rattle.net_types.specs.declared.config.Entry.{Entry};
ghost use Rattle.acl_audit.specs.Sets.{IsSet, AreDecided, AreMatched, AreNumbers};

use crate::sets::add_set;
use cube_diagram::Diagrams;
use indexmap::IndexMap;
use net_types::Entry;
use no_memory::NoMemory;
use std::alloc::Global;

/// By sequence numbers the sets of headers that the entries decide. `matched` has the sets of those that they match.
pub(crate) fn decided_sets(
    alloc: Global,
    diagrams: &mut Diagrams,
    entries: &[Entry],
    matched: &[u32],
) -> Result<IndexMap<u32, u32>, NoMemory>
    requires { AreMatched diagrams.old entries.now matched.now }
    ensures sets { IfOk result (λ decided. AreDecided diagrams.new entries.now (get nat_eq decided)) }
    ensures kept { Keeps diagrams.old diagrams.new }
{
    let mut decided = IndexMap::new(alloc);
    let mut head = diagrams.nothing();
    for i in 0..entries.len() {
        let e = &entries[i];
        let own = diagrams.without(matched[i], head)?;
        let all = add_set(diagrams, decided_by(diagrams, &decided, e.sequence), own)?;
        decided.insert(e.sequence, all)?;
        head = add_set(diagrams, head, matched[i])?;
    }
    Ok(decided)
}

/// The headers that are decided under this sequence number.
pub(crate) fn decided_by(diagrams: &Diagrams, decided: &IndexMap<u32, u32>, sequence: u32) -> u32
    requires { AreNumbers diagrams.now (get nat_eq decided.now) }
    ensures below { result < count_of diagrams.now }
    ensures set { (entries : List Entry) → AreDecided diagrams.now entries (get nat_eq decided.now) → IsSet diagrams.now (λ h. is_by sequence (entries_verdict entries (header_of h))) result }
{
    match decided.get(&sequence) {
        Some(set) => *set,
        None => diagrams.nothing(),
    }
}
