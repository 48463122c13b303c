//! Addresses that two ends of a segment have.
ghost use Rattle.std.specs.Prelude.{◌≡◌, ◌||◌, ℕ, IfOk, OnOk, map, filter};
ghost use Rattle.topo_links.specs.Check.{has_value, lesser, least_shared};
ghost use Rattle.topo_links.specs.Shared.{least_onto};

use indexmap::IndexSet;
use net_types::NoMemory;
use std::alloc::Global;

/// The least address that stands in two of the lists.
///
/// The lists are gone through from the last to the first, beside the addresses of those after.
pub fn least_shared(alloc: Global, lists: &[Vec<u32>]) -> Result<Option<u32>, NoMemory>
    ensures { IfOk result (λ least. least ≡ least_shared (map (λ l. l.items) lists.now)) }
{
    let mut seen = IndexSet::new(alloc);
    let mut least = None;
    let mut i = lists.len();
    while i > 0 {
        i -= 1;
        least = least_seen(&seen, &lists[i], least);
        note(&mut seen, &lists[i])?;
    }
    Ok(least)
}

/// Whether the address was seen.
fn is_seen(seen: &IndexSet<u32>, address: u32) -> bool
    ensures { result ≡ has_value address seen.now.keys }
{
    seen.contains(&address)
}

/// The lesser of two addresses, of which the second may be missing.
pub(crate) fn lesser(address: u32, other: Option<u32>) -> Option<u32>
    ensures { result ≡ lesser address other }
{
    match other {
        None => Some(address),
        Some(other) => Some(address.min(other)),
    }
}

/// The least of the addresses that were seen, and of one more, if there is one.
fn least_seen(seen: &IndexSet<u32>, addresses: &[u32], least: Option<u32>) -> Option<u32>
    ensures { result ≡ least_onto (filter (λ a. has_value a seen.now.keys) addresses.now) least }
{
    let mut best = least;
    let mut i = addresses.len();
    while i > 0 {
        i -= 1;
        if is_seen(seen, addresses[i]) {
            best = lesser(addresses[i], best);
        }
    }
    best
}

/// Notes that the addresses were seen.
fn note(seen: &mut IndexSet<u32>, addresses: &[u32]) -> Result<(), NoMemory>
    ensures { OnOk result ((a : ℕ) → has_value a seen.new.keys ≡ (has_value a seen.old.keys || has_value a addresses.now)) }
{
    for address in addresses {
        seen.insert(*address)?;
    }
    Ok(())
}
