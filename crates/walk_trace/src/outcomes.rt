//! The label of a header: the outcomes of all its walks.

ghost use Rattle.std.specs.Prelude.{◌≡◌, ◌≤◌, ◌++◌, true, false, IfOk, OnOk, map, flat_map};
ghost use Rattle.net_types.specs.Walks.{outcome_of, ends, label};
ghost use Rattle.walk_trace.specs.Numbered.{next_in_order, firsts, reached, numbered};
ghost use Rattle.walk_trace.specs.Outcomes.{outcomes_at, SameSet};

use crate::device::ordered_moves;
use crate::numbers::{add_next, numbered};
use crate::site::Site;
use crate::states::States;
use hdr_bits::Header;
use header_rules::add_outcomes;
use net_types::{Label, NoMemory, Outcome, Place, State};
use std::alloc::Global;

/// The label of a header that enters at a place with this TTL.
///
/// A state that is reached by fewer moves than the TTL allows counts once, by however many walks it is reached. The states at
/// which the TTL is 1 are those of the last level, and are found level by level, each once in a level.
pub(crate) fn label(
    alloc: Global,
    site: &Site,
    ttl: u8,
    place: Place,
    h: &Header,
) -> Result<Label, NoMemory>
    requires { 1 ≤ ttl }
    ensures { IfOk result (λ answer. answer ≡ label site.now ttl place h.now) }
{
    let start = State { place, header: *h };
    let outcomes = outcomes(alloc, site, ttl, &start)?;
    Label::of(outcomes)
}

fn outcomes(alloc: Global, site: &Site, ttl: u8, start: &State) -> Result<Vec<Outcome>, NoMemory>
    requires { 1 ≤ ttl }
    ensures { IfOk result (λ found. SameSet found.items (map (outcome_of start.now.header) (ends site.now ttl start.now))) }
{
    let mut found = Vec::new(alloc);
    add_early(alloc, site, ttl - 1, start, &mut found)?;
    let last = last_level(alloc, site, ttl - 1, start)?;
    add_outcomes_at(alloc, site, true, &start.header, &last, &mut found)?;
    Ok(found)
}

// Adds the outcomes of the walks of fewer than `n` moves, where the TTL is above 1.
fn add_early(
    alloc: Global,
    site: &Site,
    n: u8,
    start: &State,
    found: &mut Vec<Outcome>,
) -> Result<(), NoMemory>
    ensures { OnOk result (found.new.items ≡ found.old.items ++ flat_map (outcomes_at site.now false start.now.header) (numbered site.now n start.now)) }
{
    if n == 0 {
        return Ok(());
    }
    let states = numbered(alloc, site, n, start)?;
    let states = states.since(alloc, 0)?;
    add_outcomes_at(alloc, site, false, &start.header, &states, found)
}

// Where the walks of `n` moves lead.
fn last_level(alloc: Global, site: &Site, n: u8, start: &State) -> Result<Vec<State>, NoMemory>
    ensures { IfOk result (λ level. SameSet level.items (reached site.now n start.now)) }
{
    let mut level = Vec::new(alloc);
    level.push(*start)?;
    for _n in 0..n {
        level = next_level(alloc, site, &level)?;
    }
    Ok(level)
}

// The states after one more move, each once.
fn next_level(alloc: Global, site: &Site, level: &[State]) -> Result<Vec<State>, NoMemory>
    ensures { IfOk result (λ next. next.items ≡ firsts (flat_map (next_in_order site.now) level.now)) }
{
    let mut found = States::new(alloc);
    add_next(alloc, site, level, &mut found)?;
    let next = found.since(alloc, 0)?;
    Ok(next)
}

// Adds the outcomes of the moves of these states; `last` says that the packets arrive with the TTL 1.
fn add_outcomes_at(
    alloc: Global,
    site: &Site,
    last: bool,
    first: &Header,
    states: &[State],
    found: &mut Vec<Outcome>,
) -> Result<(), NoMemory>
    ensures { OnOk result (found.new.items ≡ found.old.items ++ flat_map (outcomes_at site.now last first.now) states.now) }
{
    for state in states {
        add_outcomes_of(alloc, site, last, first, state, found)?;
    }
    Ok(())
}

fn add_outcomes_of(
    alloc: Global,
    site: &Site,
    last: bool,
    first: &Header,
    state: &State,
    found: &mut Vec<Outcome>,
) -> Result<(), NoMemory>
    ensures { OnOk result (found.new.items ≡ found.old.items ++ outcomes_at site.now last first.now state.now) }
{
    let moves = ordered_moves(alloc, site, state)?;
    add_outcomes(last, first, &moves, found)
}
