//! What the last entries of a list pass.

ghost use Rattle.std.specs.Prelude.{◌≡◌, ◌<◌, ◌+◌, ℕ, Bool, IfOk, length, if◌then◌else◌};
ghost use Rattle.hdr_bits.specs.HeaderBits.{header_of};
ghost use Rattle.net_types.specs.AccessLists.{matches};
ghost use Rattle.cube_diagram.specs.Functions.{Keeps, count_of};
ghost use Rattle.acl_audit.specs.Sets.{IsSet, AreMatched, AreTails};

use crate::sets::add_set;
use cube_diagram::Diagrams;
use net_types::Entry;
use no_memory::NoMemory;
use std::alloc::Global;

/// The sets of headers that the last entries pass, where the end denies: first of none, last of all of them. `matched`
/// has the sets of those that the entries match.
pub(crate) fn tail_sets(
    alloc: Global,
    diagrams: &mut Diagrams,
    entries: &[Entry],
    matched: &[u32],
) -> Result<Vec<u32>, NoMemory>
    requires { AreMatched diagrams.old entries.now matched.now }
    ensures sets { IfOk result (λ tails. AreTails diagrams.new entries.now tails.items) }
    ensures all { IfOk result (λ tails. length tails.items ≡ length entries.now + 1) }
    ensures kept { Keeps diagrams.old diagrams.new }
{
    let mut tails = Vec::new(alloc);
    let mut tail = diagrams.nothing();
    tails.push(tail)?;
    for count in 0..entries.len() {
        let position = entries.len() - 1 - count;
        tail = put_before(diagrams, &entries[position], matched[position], tail)?;
        tails.push(tail)?;
    }
    Ok(tails)
}

// What passes where the entry, which matches these headers, stands before a list that passes those.
fn put_before(
    diagrams: &mut Diagrams,
    entry: &Entry,
    matched: u32,
    passed: u32,
) -> Result<u32, NoMemory>
    requires matched { IsSet diagrams.old (λ h. matches entry.now (header_of h)) matched }
    requires passed { passed < count_of diagrams.old }
    ensures set { IfOk result (λ r. (t : ℕ → Bool) → IsSet diagrams.old t passed
        → IsSet diagrams.new (λ h. if matches entry.now (header_of h) then entry.now.permit else t h) r) }
    ensures kept { Keeps diagrams.old diagrams.new }
{
    if entry.permit {
        let both = add_set(diagrams, matched, passed)?;
        return Ok(both);
    }
    let rest = diagrams.without(passed, matched)?;
    Ok(rest)
}
