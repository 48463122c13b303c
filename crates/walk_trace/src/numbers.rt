//! The states of a trace, found by breadth.

ghost use Rattle.std.specs.Prelude.{◌≡◌, ◌≤◌, IfOk, OnOk, filter_map, flat_map, fold};
ghost use Rattle.net_types.specs.Walks.{next_state};
ghost use Rattle.walk_trace.specs.Numbered.{next_in_order, with_state, numbered};

use crate::device::ordered_moves;
use crate::site::Site;
use crate::states::States;
use net_types::{Move, NoMemory, State};
use std::alloc::Global;

/// The numbered states of a walk that begins in a state with this TTL.
pub(crate) fn numbered(
    alloc: Global,
    site: &Site,
    ttl: u8,
    start: &State,
) -> Result<States, NoMemory>
    requires { 1 ≤ ttl }
    ensures { IfOk result (λ found. found ≡ numbered site.now ttl start.now) }
{
    let mut found = States::new(alloc);
    found.add(start)?;
    // How many states there were before the last level.
    let mut before = 0;
    for _n in 1..ttl {
        let level = found.since(alloc, before)?;
        before = found.len();
        add_next(alloc, site, &level, &mut found)?;
    }
    Ok(found)
}

// Adds the states that the moves of these lead to, in order.
pub(crate) fn add_next(
    alloc: Global,
    site: &Site,
    states: &[State],
    found: &mut States,
) -> Result<(), NoMemory>
    ensures { OnOk result (found.new ≡ fold with_state found.old (flat_map (next_in_order site.now) states.now)) }
{
    for state in states {
        add_next_of(alloc, site, state, found)?;
    }
    Ok(())
}

pub(crate) fn add_next_of(
    alloc: Global,
    site: &Site,
    state: &State,
    found: &mut States,
) -> Result<(), NoMemory>
    ensures { OnOk result (found.new ≡ fold with_state found.old (next_in_order site.now state.now)) }
{
    let moves = ordered_moves(alloc, site, state)?;
    add_reached(&moves, found)
}

fn add_reached(moves: &[Move], found: &mut States) -> Result<(), NoMemory>
    ensures { OnOk result (found.new ≡ fold with_state found.old (filter_map next_state moves.now)) }
{
    for one in moves {
        if let Some(state) = next_state(one) {
            found.add(&state)?;
        }
    }
    Ok(())
}

fn next_state(one: &Move) -> Option<State>
    ensures { result ≡ next_state one.now }
{
    match one {
        Move::Go { place, header } => Some(State {
            place: *place,
            header: *header,
        }),
        Move::Drop => None,
        Move::Local { place: _ } => None,
        Move::Lost => None,
        Move::Exit {
            place: _,
            header: _,
        } => None,
    }
}
