//! Walks that come back to a state: the loops of a region.

ghost use Rattle.std.specs.Prelude.{◌↔◌, IfOk, IsTrue};
ghost use Rattle.region_walk.specs.Returns.{ComesBack, SomeComesBack, HasLoop};

use crate::level::{Level, next_states, states_at};
use crate::visit::Visit;
use net_types::NoMemory;
use std::alloc::Global;

/// Whether some walk of at most so many moves comes to one state twice. Of each state the least level at which it stands
/// leaves the most moves, so the levels are taken from the first on.
pub(crate) fn has_loop(
    alloc: Global,
    visits: &[Visit],
    levels: &[Level],
    limit: u8,
) -> Result<bool, NoMemory>
    ensures { IfOk result (λ answer. IsTrue answer ↔ HasLoop visits.now levels.now limit) }
{
    for n in 0..limit {
        if some_comes_back(alloc, visits, states_at(levels, n), limit - n)? {
            return Ok(true);
        }
    }
    Ok(false)
}

// Whether a walk of at most so many moves leads from one of the visits with these numbers back to it.
fn some_comes_back(
    alloc: Global,
    visits: &[Visit],
    states: &[usize],
    limit: u8,
) -> Result<bool, NoMemory>
    ensures { IfOk result (λ answer. IsTrue answer ↔ SomeComesBack visits.now limit states.now) }
{
    for state in states {
        if comes_back(alloc, visits, *state, limit)? {
            return Ok(true);
        }
    }
    Ok(false)
}

// Whether a walk of at most so many moves leads from the visit with this number back to it.
fn comes_back(alloc: Global, visits: &[Visit], state: usize, limit: u8) -> Result<bool, NoMemory>
    ensures { IfOk result (λ answer. IsTrue answer ↔ ComesBack visits.now limit state) }
{
    let mut states = Vec::new(alloc);
    states.push(state)?;
    for _n in 0..limit {
        states = next_states(alloc, visits, &states)?;
        if states.contains(&state) {
            return Ok(true);
        }
        if states.len() == 0 {
            return Ok(false);
        }
    }
    Ok(false)
}
