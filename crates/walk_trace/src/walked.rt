//! What a trace asks of the devices, found before it is told. A state's moves are asked for at each level of a walk, and so
//! without what is kept here a packet in a loop would have the routes of its devices built for each of its moves. What is kept
//! changes no answer, so no clause says which states it is of.

ghost use Rattle.std.specs.Prelude.{◌≡◌};

use crate::device::keep_moves;
use crate::numbers::add_next_of;
use crate::site::Site;
use crate::states::States;
use net_types::{NoMemory, State};
use std::alloc::Global;

/// Keeps the moves of the states that the walks of fewer moves than the TTL lead to.
pub(crate) fn keep_walked(
    alloc: Global,
    site: &mut Site,
    ttl: u8,
    start: &State,
) -> Result<(), NoMemory>
    ensures { site.new ≡ site.old }
{
    let mut found = States::new(alloc);
    found.add(start)?;
    // How many states there were before the last level.
    let mut before = 0;
    for _n in 0..ttl {
        let level = found.since(alloc, before)?;
        before = found.len();
        keep_level(alloc, site, &level, &mut found)?;
    }
    Ok(())
}

// Keeps the moves of these states, and adds the states that they lead to.
fn keep_level(
    alloc: Global,
    site: &mut Site,
    level: &[State],
    found: &mut States,
) -> Result<(), NoMemory>
    ensures { site.new ≡ site.old }
{
    for state in level {
        keep_moves(alloc, site, state)?;
        add_next_of(alloc, site, state, found)?;
    }
    Ok(())
}
