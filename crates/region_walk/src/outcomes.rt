//! The outcomes of all walks of a region.

ghost use Rattle.std.specs.Prelude.{◌≡◌, ◌≤◌, ◌↔◌, ◌∷◌, [], ◌++◌, IfOk, OnOk, IsTrue, flat_map, filter_map};
ghost use Rattle.net_types.specs.Questions.{IsAt, HasOutcomeAt};
ghost use Rattle.transfer_rel.specs.CubeMoves.{SameSet};
ghost use Rattle.region_walk.specs.Lists.{items_at};
ghost use Rattle.region_walk.specs.Spots.{outcome_by, last_outcome_by, outcome_of_move};
ghost use Rattle.region_walk.specs.Visits.{visits_at, visit_outcomes, outcomes_below};

use crate::level::{Level, states_at, states_below};
use crate::visit::Visit;
use net_types::{NoMemory, Outcome, Place};
use std::alloc::Global;
use transfer_rel::StampMove;

/// The outcomes under a TTL. A visit below the last level counts once, at however many levels it stands.
pub(crate) fn all_outcomes(
    alloc: Global,
    visits: &[Visit],
    levels: &[Level],
    ttl: u8,
) -> Result<Vec<Outcome>, NoMemory>
    requires { 1 ≤ ttl }
    ensures { IfOk result (λ outcomes. SameSet outcomes.items (outcomes_below ttl (visits_at visits.now levels.now) ttl)) }
{
    let last = ttl - 1;
    let before = states_below(alloc, levels, last)?;
    let mut outcomes = Vec::new(alloc);
    add_outcomes(visits, &before, false, &mut outcomes)?;
    add_outcomes(visits, states_at(levels, last), true, &mut outcomes)?;
    Ok(outcomes)
}

// Adds the outcomes of the visits with these numbers.
fn add_outcomes(
    visits: &[Visit],
    states: &[usize],
    last: bool,
    outcomes: &mut Vec<Outcome>,
) -> Result<(), NoMemory>
    ensures { OnOk result (outcomes.new.items ≡ outcomes.old.items ++ flat_map (visit_outcomes last) (items_at visits.now states.now)) }
{
    for state in states {
        add_outcomes_of(visits, *state, last, outcomes)?;
    }
    Ok(())
}

fn add_outcomes_of(
    visits: &[Visit],
    state: usize,
    last: bool,
    outcomes: &mut Vec<Outcome>,
) -> Result<(), NoMemory>
    ensures { OnOk result (outcomes.new.items ≡ outcomes.old.items ++ flat_map (visit_outcomes last) (items_at visits.now (state ∷ []))) }
{
    let Some(visit) = visits.get(state) else {
        return Ok(());
    };
    add_outcomes_by(visit.moves.as_slice(), last, outcomes)?;
    Ok(())
}

fn add_outcomes_by(
    moves: &[StampMove],
    last: bool,
    outcomes: &mut Vec<Outcome>,
) -> Result<(), NoMemory>
    ensures { OnOk result (outcomes.new.items ≡ outcomes.old.items ++ filter_map (outcome_of_move last) moves.now) }
{
    for one in moves {
        if let Some(outcome) = outcome_of_move(one, last) {
            outcomes.push(outcome)?;
        }
    }
    Ok(())
}

fn outcome_of_move(one: &StampMove, last: bool) -> Option<Outcome>
    ensures { result ≡ outcome_of_move last one.now }
{
    if last {
        return last_outcome_by(one);
    }
    outcome_by(one)
}

// How a move ends a walk that arrives with the TTL 1.
fn last_outcome_by(one: &StampMove) -> Option<Outcome>
    ensures { result ≡ last_outcome_by one.now }
{
    match one {
        StampMove::Drop => Some(Outcome::Dropped),
        StampMove::Local { place } => Some(Outcome::Local { place: *place }),
        StampMove::Lost => Some(Outcome::Expired),
        StampMove::Exit { place: _, stamp: _ } => Some(Outcome::Expired),
        StampMove::Go { place: _, stamp: _ } => Some(Outcome::Expired),
    }
}

// How a move ends a walk that arrives with a greater TTL.
fn outcome_by(one: &StampMove) -> Option<Outcome>
    ensures { result ≡ outcome_by one.now }
{
    match one {
        StampMove::Drop => Some(Outcome::Dropped),
        StampMove::Local { place } => Some(Outcome::Local { place: *place }),
        StampMove::Lost => Some(Outcome::Dropped),
        StampMove::Exit { place, stamp } => Some(Outcome::Exit {
            place: *place,
            src: stamp.src,
            dst: stamp.dst,
            sport: stamp.sport,
            dport: stamp.dport,
        }),
        StampMove::Go { place: _, stamp: _ } => None,
    }
}

/// Whether one of the outcomes is at the place.
pub(crate) fn some_is_at(outcomes: &[Outcome], place: Place) -> bool
    ensures { IsTrue result ↔ HasOutcomeAt place outcomes.now }
{
    for outcome in outcomes {
        if is_at(outcome, place) {
            return true;
        }
    }
    false
}

// Whether a packet with the outcome is taken by the device at the place, or leaves the network there.
fn is_at(outcome: &Outcome, place: Place) -> bool
    ensures { IsTrue result ↔ IsAt place outcome.now }
{
    match *outcome {
        Outcome::Dropped => false,
        Outcome::Expired => false,
        Outcome::Local { place: end } => same_place(end, place),
        Outcome::Exit {
            place: end,
            src: _,
            dst: _,
            sport: _,
            dport: _,
        } => same_place(end, place),
    }
}

fn same_place(a: Place, b: Place) -> bool
    ensures { IsTrue result ↔ (a ≡ b) }
{
    a == b
}
