//! Bounds of what loops, for all places at once.
//!
//! A header that enters a loop goes on by one of its ways to where it enters one too. So of all headers, sweep by sweep, those
//! stay that go on to where they stayed. Where the sweeps end early, too many stay, and never too few: which of them loop
//! within the TTL is asked of each question.

ghost use Rattle.std.specs.Prelude.{◌≡◌, ◌<◌, ◌⊎◌, All, IfOk, OnOk, Contains, replicate, length, slice_get, option_and_then};
ghost use Rattle.hdr_bits.specs.declared.header.Header.{Header};
ghost use Rattle.hdr_bits.specs.HeaderBits.{IsHeader};
ghost use Rattle.cube_diagram.specs.Functions.{Keeps, count_of};
ghost use Rattle.indexmap.specs.IndexMap.{get};
ghost use Rattle.net_types.specs.World.{same_place};
ghost use Rattle.net_view.specs.Borrowed.{world_of};
ghost use Rattle.set_walk.specs.declared.step.Way.{Way};
ghost use Rattle.set_walk.specs.Sets.{InSet};
ghost use Rattle.set_walk.specs.Ways.{IsGiven};
ghost use Rattle.loop_search.specs.Bounds.{AreInTable, AreBounds, EntersLoop};
ghost use Rattle.loop_search.specs.Looping.{ByWay, LeadsTo};
ghost use Rattle.loop_search.specs.WholeNets.{IsWholeNet};

use cube_diagram::Diagrams;
use indexmap::{IndexMap, IndexSet};
use net_types::{NoMemory, Place, Question, QuestionKind};
use set_walk::sets::{before_stamp, both, either};
use set_walk::{Net, Step, Way, ways_at};
use std::alloc::Global;

/// How often the places are swept before what stays is taken as it is.
const MOST_SWEEPS: u32 = 16;

/// For each list of ways a set of headers: of each place that has the list, it has all that enter a loop from there. Where no
/// question asks of loops these are all headers.
pub fn loop_bounds(
    alloc: Global,
    table: &mut Diagrams,
    net: &Net,
    questions: &[Question],
) -> Result<Vec<u32>, NoMemory>
    requires { IsWholeNet table.old net.now }
    ensures below { IfOk result (λ r. AreInTable table.new r.items) }
    ensures bounds { IfOk result (λ r. AreBounds table.new net.now r.items) }
    ensures kept { Keeps table.old table.new }
{
    let mut bounds = vec![in alloc; table.everything(); net.lists.len()]?;
    if !asks_of_loops(questions) {
        return Ok(bounds);
    }
    let places = place_of_each(alloc, net)?;
    narrow(alloc, table, net, &places, &mut bounds)?;
    Ok(bounds)
}

fn asks_of_loops(questions: &[Question]) -> bool {
    questions
        .iter()
        .any(|question| question.kind == QuestionKind::NoLoop)
}

// Of the places that share a list of ways the first.
fn place_of_each(alloc: Global, net: &Net) -> Result<Vec<Place>, NoMemory> {
    let mut seen = IndexSet::new(alloc);
    let mut firsts = Vec::new(alloc);
    let places = net.places.keys().as_slice();
    for place in places {
        if let Some(position) = net.places.get(place).copied() {
            if seen.insert(position)? {
                firsts.push(*place)?;
            }
        }
    }
    Ok(firsts)
}

// Narrows the bounds of these places until none changes. A loop is left by a place before others, whose lists may stand before
// or behind its own; so sweeps go back and forth.
fn narrow(
    alloc: Global,
    table: &mut Diagrams,
    net: &Net,
    places: &[Place],
    bounds: &mut [u32],
) -> Result<(), NoMemory>
    requires net { IsWholeNet table.old net.now }
    requires below { AreInTable table.old bounds.old }
    requires bounds { AreBounds table.old net.now bounds.old }
    ensures below { OnOk result (AreInTable table.new bounds.new) }
    ensures bounds { OnOk result (AreBounds table.new net.now bounds.new) }
    ensures kept { Keeps table.old table.new }
{
    for number in 0..MOST_SWEEPS {
        let changed = if number % 2 == 0 {
            sweep_back(alloc, table, net, places, bounds)?
        } else {
            sweep_forth(alloc, table, net, places, bounds)?
        };
        if !changed {
            return Ok(());
        }
    }
    Ok(())
}

// Narrows the bounds of all places, from the last to the first, and tells whether one changed.
fn sweep_back(
    alloc: Global,
    table: &mut Diagrams,
    net: &Net,
    places: &[Place],
    bounds: &mut [u32],
) -> Result<bool, NoMemory>
    requires net { IsWholeNet table.old net.now }
    requires below { AreInTable table.old bounds.old }
    requires bounds { AreBounds table.old net.now bounds.old }
    ensures below { OnOk result (AreInTable table.new bounds.new) }
    ensures bounds { OnOk result (AreBounds table.new net.now bounds.new) }
    ensures kept { Keeps table.old table.new }
{
    let mut changed = false;
    for index in (0..places.len()).rev() {
        changed |= narrow_at(alloc, table, net, places[index], bounds)?;
    }
    Ok(changed)
}

// The same, from the first to the last.
fn sweep_forth(
    alloc: Global,
    table: &mut Diagrams,
    net: &Net,
    places: &[Place],
    bounds: &mut [u32],
) -> Result<bool, NoMemory>
    requires net { IsWholeNet table.old net.now }
    requires below { AreInTable table.old bounds.old }
    requires bounds { AreBounds table.old net.now bounds.old }
    ensures below { OnOk result (AreInTable table.new bounds.new) }
    ensures bounds { OnOk result (AreBounds table.new net.now bounds.new) }
    ensures kept { Keeps table.old table.new }
{
    let mut changed = false;
    for index in 0..places.len() {
        changed |= narrow_at(alloc, table, net, places[index], bounds)?;
    }
    Ok(changed)
}

// Of the list of the place those stay that go on to where they stayed; tells whether some left.
fn narrow_at(
    alloc: Global,
    table: &mut Diagrams,
    net: &Net,
    place: Place,
    bounds: &mut [u32],
) -> Result<bool, NoMemory>
    requires net { IsWholeNet table.old net.now }
    requires below { AreInTable table.old bounds.old }
    requires bounds { AreBounds table.old net.now bounds.old }
    ensures below { OnOk result (AreInTable table.new bounds.new) }
    ensures bounds { OnOk result (AreBounds table.new net.now bounds.new) }
    ensures kept { Keeps table.old table.new }
{
    let Some(position) = position_of(net, place) else {
        return Ok(false);
    };
    let Some(list) = ways_at(net, place) else {
        return Ok(false);
    };
    if position >= bounds.len() {
        return Ok(false);
    }
    let stay = staying(alloc, table, net, bounds, &list.ways)?;
    if stay == bounds[position] {
        return Ok(false);
    }
    bounds[position] = stay;
    Ok(true)
}

fn position_of(net: &Net, place: Place) -> Option<usize>
    ensures { result ≡ get same_place net.now.places.now place }
{
    net.places.get(&place).copied()
}

// The headers that go on by one of the ways to where the bounds have them.
fn staying(
    alloc: Global,
    table: &mut Diagrams,
    net: &Net,
    bounds: &[u32],
    ways: &[Way],
) -> Result<u32, NoMemory>
    requires ways { (x : Way) → Contains ways.now x → IsGiven table.old x }
    requires bounds { AreInTable table.old bounds.now }
    ensures below { IfOk result (λ r. r < count_of table.new) }
    ensures stay { IfOk result (λ r. AreBounds table.old net.now bounds.now → (h : Header) → IsHeader h → ByWay table.old ways.now (LeadsTo (EntersLoop (world_of net.now.world))) h → InSet table.new r h) }
    ensures kept { Keeps table.old table.new }
{
    let mut stay = table.nothing();
    for way in ways {
        stay = with_way(alloc, table, net, bounds, *way, stay)?;
    }
    Ok(stay)
}

// The set, with the headers that go on so by the way.
fn with_way(
    alloc: Global,
    table: &mut Diagrams,
    net: &Net,
    bounds: &[u32],
    way: Way,
    set: u32,
) -> Result<u32, NoMemory>
    requires way { IsGiven table.old way }
    requires bounds { AreInTable table.old bounds.now }
    requires set { set < count_of table.old }
    ensures below { IfOk result (λ r. r < count_of table.new) }
    ensures stay { IfOk result (λ r. AreBounds table.old net.now bounds.now → (h : Header) → IsHeader h → InSet table.old set h ⊎ (InSet table.old way.headers h × LeadsTo (EntersLoop (world_of net.now.world)) way.step h) → InSet table.new r h) }
    ensures kept { Keeps table.old table.new }
{
    match way.step {
        Step::Go { place, stamp } => {
            let Some(there) = bound_at(net.places, bounds, place) else {
                return Ok(set);
            };
            let before = before_stamp(alloc, table, there, &stamp)?;
            let more = both(table, way.headers, before)?;
            either(table, set, more)
        }
        Step::Drop => Ok(set),
        Step::Local { place: _ } => Ok(set),
        Step::Lost => Ok(set),
        Step::Exit { place: _, stamp: _ } => Ok(set),
    }
}

/// The bound of the list of the place, if it has one.
pub fn bound_at(places: &IndexMap<Place, usize>, bounds: &[u32], place: Place) -> Option<u32>
    ensures { result ≡ option_and_then (slice_get bounds.now) (get same_place places.now place) }
{
    let position = places.get(&place).copied()?;
    bounds.get(position).copied()
}
