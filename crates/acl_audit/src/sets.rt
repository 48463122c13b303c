//! Sets of headers: functions of a table of diagrams that give 1 to their members.

ghost use Rattle.std.specs.Prelude.{◌<◌, ◌||◌, ℕ, Bool, IfOk};
ghost use Rattle.hdr_bits.specs.HeaderBits.{header_of};
ghost use Rattle.cube_diagram.specs.Functions.{Keeps, count_of};
ghost use Rattle.net_types.specs.AccessLists.{matches};
ghost use Rattle.acl_audit.specs.Sets.{IsSet, AreMatched};

use acl_match::entry_cubes;
use cube_diagram::Diagrams;
use net_types::Entry;
use no_memory::NoMemory;
use std::alloc::Global;

/// The headers that the entry matches.
pub(crate) fn match_set(
    alloc: Global,
    diagrams: &mut Diagrams,
    entry: &Entry,
) -> Result<u32, NoMemory>
    ensures set { IfOk result (IsSet diagrams.new (λ h. matches entry.now (header_of h))) }
    ensures kept { Keeps diagrams.old diagrams.new }
{
    let cubes = entry_cubes(alloc, entry)?;
    let set = diagrams.add_entry(&cubes, 1)?;
    Ok(set)
}

/// The headers that each of the entries matches.
pub(crate) fn match_sets(
    alloc: Global,
    diagrams: &mut Diagrams,
    entries: &[Entry],
) -> Result<Vec<u32>, NoMemory>
    ensures sets { IfOk result (λ sets. AreMatched diagrams.new entries.now sets.items) }
    ensures kept { Keeps diagrams.old diagrams.new }
{
    let mut sets = Vec::with_capacity(alloc, entries.len())?;
    for e in entries {
        let set = match_set(alloc, diagrams, e)?;
        sets.push(set)?;
    }
    Ok(sets)
}

/// The headers of either set.
pub(crate) fn add_set(diagrams: &mut Diagrams, a: u32, b: u32) -> Result<u32, NoMemory>
    requires first { a < count_of diagrams.old }
    requires second { b < count_of diagrams.old }
    ensures set { IfOk result (λ r. (s t : ℕ → Bool) → IsSet diagrams.old s a → IsSet diagrams.old t b → IsSet diagrams.new (λ h. s h || t h) r) }
    ensures kept { Keeps diagrams.old diagrams.new }
{
    let set = diagrams.first_of(&[a, b])?;
    Ok(set)
}
