//! The questions that a step may touch: by the difference of the network before it from the one after it.

ghost use Rattle.std.specs.Prelude.{ℕ, ◌≡◌, ◌==◌, IfOk, OnOk, position};
ghost use Rattle.hdr_bits.specs.declared.header.Header.{Header};
ghost use Rattle.hdr_bits.specs.HeaderBits.{number};
ghost use Rattle.hdr_bits.specs.CubeBits.{IsIn};
ghost use Rattle.cube_diagram.specs.Functions.{Keeps};
ghost use Rattle.indexmap.specs.IndexMap.{get};
ghost use Rattle.difference_reach.specs.Reaches.{AreNumbers};
ghost use Rattle.live_network.specs.Live.{IsLive, IsRenewed};
ghost use Rattle.net_types.specs.World.{World, same_place};
ghost use Rattle.net_view.specs.Borrowed.{world_of};
ghost use Rattle.place_ways.specs.Places.{ArePlaceWays};
ghost use Rattle.set_walk.specs.Nets.{IsNet};
ghost use Rattle.set_walk.specs.Sets.{InSet, IsSet};
ghost use Rattle.rollout.specs.Steps.{IsStep};
ghost use Rattle.rollout.specs.Touched.{AreTouched, IsTouchedSo, MayTouch};

use crate::network::Step;
use cube_diagram::Diagrams;
use difference_reach::Reach;
use hdr_bits::Cube;
use indexmap::IndexMap;
use live_network::{LiveWays, Replacement, replace_device};
use net_forms::Networks;
use net_types::{NetDevice, NoMemory, Place, Question};
use set_walk::Net;
use set_walk::sets::both;
use std::alloc::Global;

/// For each question whether some header of its filter, where it enters, may walk otherwise after the step than before it. Of a
/// question that isn't touched every header of the filter walks alike in both networks. What is kept of the first network becomes
/// what is kept of the second one.
pub(crate) fn touched(
    alloc: Global,
    live: &mut LiveWays,
    step: Step,
    questions: &[Question],
) -> Result<Vec<bool>, NoMemory>
    requires live { IsLive (world_of step.networks.old) live.old }
    requires step { IsStep step }
    ensures touched { IfOk result (λ r. AreTouched (world_of step.entry.networks.old) (world_of step.entry.networks.new) questions.now r.items) }
    ensures live { OnOk result (IsLive (world_of step.entry.networks.new) live.new) }
{
    let before = replaced(alloc, live, step)?;
    let networks = step.networks;
    let touched = touched_between(alloc, live, networks, &before, questions)?;
    Ok(touched)
}

// Makes of what is kept of the first network of the step what is kept of the second one, and answers the positions before.
fn replaced(
    alloc: Global,
    live: &mut LiveWays,
    step: Step,
) -> Result<IndexMap<Place, usize>, NoMemory>
    requires live { IsLive (world_of step.networks.old) live.old }
    requires step { IsStep step }
    ensures live { OnOk result (IsLive (world_of step.entry.networks.new) live.new) }
    ensures before { IfOk result (λ r. (p : Place) → get same_place r p ≡ get same_place live.old.ways.positions p) }
    ensures renewed { IsRenewed live.old live.new }
{
    let devices = step.networks.old.network.devices.as_slice();
    let Some(position) = position_named(devices, step.change.name) else {
        let same = live.ways.positions.clone()?;
        return Ok(same);
    };
    let before = &devices[position];
    let at = Replacement {
        world: step.networks.new,
        before,
        after: step.change,
    };
    let positions = replace_device(alloc, live, at)?;
    Ok(positions)
}

fn position_named(devices: &[NetDevice], name: u32) -> Option<usize>
    ensures { result ≡ position (λ d. d.name == name) devices.now }
{
    devices.iter().position(|d| d.name == name)
}

// The questions, where this is kept of the second network, and the places of the first one have these positions.
fn touched_between(
    alloc: Global,
    live: &mut LiveWays,
    networks: Networks,
    before: &IndexMap<Place, usize>,
    questions: &[Question],
) -> Result<Vec<bool>, NoMemory>
    requires live { IsLive (world_of networks.new) live.old }
    requires before { ArePlaceWays (world_of networks.old) live.old.tables.diagrams live.old.scope live.old.ways.lists.items (get same_place before.now) }
    ensures touched { IfOk result (λ r. AreTouched (world_of networks.entry.old) (world_of networks.entry.new) questions.now r.items) }
    ensures live { OnOk result (IsLive (world_of networks.entry.new) live.new) }
{
    let ways = &live.ways;
    let old = Net {
        world: networks.old,
        places: before,
        lists: &ways.lists,
        scope: live.scope,
    };
    let new = Net {
        world: networks.new,
        places: &ways.positions,
        lists: &ways.lists,
        scope: live.scope,
    };
    let touched = touched_by(alloc, &mut live.tables.diagrams, &old, &new, questions)?;
    Ok(touched)
}

// By the ways of both networks for all headers, in one list.
fn touched_by(
    alloc: Global,
    table: &mut Diagrams,
    old: &Net,
    new: &Net,
    questions: &[Question],
) -> Result<Vec<bool>, NoMemory>
    requires old { IsNet table.old old.now }
    requires new { IsNet table.old new.now }
    requires scope { old.now.scope ≡ new.now.scope }
    requires lists { old.now.lists.now ≡ new.now.lists.now }
    requires all { (h : Header) → InSet table.old old.now.scope h }
    ensures touched { IfOk result (λ r. AreTouched (world_of old.now.world) (world_of new.now.world) questions.now r.items) }
    ensures kept { Keeps table.old table.new }
{
    let reach = Reach::of(alloc, table, old, new)?;
    let touched = touched_in(alloc, table, &reach, questions)?;
    Ok(touched)
}

// By the headers that may meet a difference.
fn touched_in(
    alloc: Global,
    table: &mut Diagrams,
    reach: &Reach,
    questions: &[Question],
) -> Result<Vec<bool>, NoMemory>
    requires { AreNumbers table.old reach.now }
    ensures touched { IfOk result (λ r. (old new : World) (scope : ℕ) → MayTouch old new table.old scope reach.now → AreTouched old new questions.now r.items) }
    ensures kept { Keeps table.old table.new }
{
    let mut touched = Vec::with_capacity(alloc, questions.len())?;
    for question in questions {
        touched.push(is_touched(table, reach, question)?)?;
    }
    Ok(touched)
}

fn is_touched(table: &mut Diagrams, reach: &Reach, question: &Question) -> Result<bool, NoMemory>
    requires { AreNumbers table.old reach.now }
    ensures stands { IfOk result (λ r. (old new : World) (scope : ℕ) → MayTouch old new table.old scope reach.now → IsTouchedSo old new question.now r) }
    ensures kept { Keeps table.old table.new }
{
    let meeting = reach.headers_at(table, question.from)?;
    let filter = filter_set(table, &question.filter)?;
    let set = both(table, filter, meeting)?;
    Ok(!table.is_nothing(set))
}

// The headers of a filter.
fn filter_set(table: &mut Diagrams, filter: &Cube) -> Result<u32, NoMemory>
    ensures set { IfOk result (λ r. IsSet table.new r (λ h. IsIn filter.now (number h))) }
    ensures kept { Keeps table.old table.new }
{
    let set = table.add_entry(&[*filter], 1)?;
    Ok(set)
}
