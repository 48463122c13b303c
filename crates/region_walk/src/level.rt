//! Levels: which visits the walks of one number of moves lead to.

ghost use Rattle.std.specs.Prelude.{◌≡◌, [], ◌∷◌, ◌++◌, IfOk, OnOk, flat_map};
ghost use Rattle.transfer_rel.specs.CubeMoves.{SameSet};
ghost use Rattle.region_walk.specs.Lists.{items_at};
ghost use Rattle.region_walk.specs.Visits.{next_numbers, states_at, states_below};

use crate::visit::Visit;
use net_types::{List, NoMemory};
use std::alloc::Global;

/// The numbers of the visits at one number of moves, each once.
#[derive(Drop)]
pub(crate) struct Level {
    pub states: List<usize>,
}

/// The numbers of the spots to which the visits with these numbers go on, each once.
pub(crate) fn next_states(
    alloc: Global,
    visits: &[Visit],
    states: &[usize],
) -> Result<Vec<usize>, NoMemory>
    ensures { IfOk result (λ next. SameSet next.items (flat_map next_numbers (items_at visits.now states.now))) }
{
    let mut next = Vec::new(alloc);
    for state in states {
        add_next(visits, *state, &mut next)?;
    }
    let next = once(next)?;
    Ok(next)
}

fn add_next(visits: &[Visit], state: usize, next: &mut Vec<usize>) -> Result<(), NoMemory>
    ensures { OnOk result (next.new.items ≡ next.old.items ++ flat_map next_numbers (items_at visits.now (state ∷ []))) }
{
    let Some(visit) = visits.get(state) else {
        return Ok(());
    };
    next.extend_from_slice(visit.next.as_slice())?;
    Ok(())
}

/// The numbers of the visits below a level, each once.
pub(crate) fn states_below(
    alloc: Global,
    levels: &[Level],
    limit: u8,
) -> Result<Vec<usize>, NoMemory>
    ensures { IfOk result (λ states. SameSet states.items (states_below levels.now limit)) }
{
    let mut states = Vec::new(alloc);
    for n in 0..limit {
        states.extend_from_slice(states_at(levels, n))?;
    }
    let states = once(states)?;
    Ok(states)
}

/// The numbers of the visits at a level; none past the last one.
pub(crate) fn states_at(levels: &[Level], n: u8) -> &[usize]
    ensures { result.now ≡ states_at levels.now n }
{
    match levels.get(usize::from(n)) {
        Some(level) => level.states.as_slice(),
        None => &[],
    }
}

// The numbers, each once.
fn once(numbers: Vec<usize>) -> Result<Vec<usize>, NoMemory>
    ensures { IfOk result (λ kept. SameSet kept.items numbers.items) }
{
    let mut numbers = numbers;
    numbers.sort()?;
    numbers.dedup();
    Ok(numbers)
}
