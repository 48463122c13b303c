//! The headers whose moves an edit may change: those that make a step at a place of the device by the ways of before and not by
//! those of after, or the other way round.

ghost use Rattle.std.specs.Prelude.{◌≡◌, ◌<◌, Contains, IfOk, IfSome, IsTrue, length, slice_get, option_and_then};
ghost use Rattle.std.specs.Option.{option_copied};
ghost use Rattle.indexmap.specs.IndexMap.{get};
ghost use Rattle.hdr_bits.specs.declared.header.Header.{Header};
ghost use Rattle.hdr_bits.specs.HeaderBits.{IsHeader};
ghost use Rattle.cube_diagram.specs.Functions.{Keeps, count_of};
ghost use Rattle.net_types.specs.World.{same_place};
ghost use Rattle.place_ways.specs.Adding.{AreGiven};
ghost use Rattle.place_ways.specs.Devices.{place_of};
ghost use Rattle.set_walk.specs.Sets.{InSet};
ghost use Rattle.incr_review.specs.Changed.{AgreeAtNumbers, AgreeOutside, HasOther, HaveOthers, IsKnownNumber, IsWider, after_at, before_at};
ghost use Rattle.incr_review.specs.Live.{AreWaysGiven};

use cube_diagram::Diagrams;
use indexmap::IndexMap;
use net_types::{NetDevice, NoMemory, Place};
use set_walk::sets::{either, without};
use set_walk::{PlaceWays, Step, Way, same_step};

/// The ways of the places of a device, before and after an edit.
#[derive(Clone, Copy)]
pub(crate) struct WaysChange<'a> {
    pub(crate) device: &'a NetDevice,
    pub(crate) lists: &'a [PlaceWays],
    /// The position of a place's ways before the edit.
    pub(crate) before: &'a IndexMap<Place, usize>,
    /// The same after it.
    pub(crate) after: &'a IndexMap<Place, usize>,
}

/// Any other header makes the same moves at the places of the device before and after the edit.
pub(crate) fn changed_headers(table: &mut Diagrams, change: WaysChange) -> Result<u32, NoMemory>
    requires before { AreWaysGiven table.old change.lists.now (get same_place change.before.now) }
    requires after { AreWaysGiven table.old change.lists.now (get same_place change.after.now) }
    ensures below { IfOk result (λ r. r < count_of table.new) }
    ensures agree { IfOk result (λ r. AgreeAtNumbers table.old table.new r change.entry (Contains change.entry.device.now.numbers)) }
    ensures kept { Keeps table.old table.new }
{
    let numbers = change.device.numbers.as_slice();
    let mut set = table.nothing();
    for i in 0..numbers.len() {
        if !is_known(change, numbers, i) {
            set = with_changed(table, change, numbers[i], set)?;
        }
    }
    Ok(set)
}

// Whether the place of the number has the positions that the place of the number before it has.
fn is_known(change: WaysChange, numbers: &[u32], i: usize) -> bool
    requires { i < length numbers.now }
    ensures { IsTrue result → IsKnownNumber change.entry numbers.now i }
{
    if i == 0 {
        return false;
    }
    let earlier = numbers[i - 1];
    let number = numbers[i];
    have_one_list(change, earlier, number)
}

fn have_one_list(change: WaysChange, a: u32, b: u32) -> bool
    ensures before { IsTrue result → get same_place change.entry.before.now (place_of change.entry.device.now a) ≡ get same_place change.entry.before.now (place_of change.entry.device.now b) }
    ensures after { IsTrue result → get same_place change.entry.after.now (place_of change.entry.device.now a) ≡ get same_place change.entry.after.now (place_of change.entry.device.now b) }
{
    let p = place_of(change.device, a);
    let q = place_of(change.device, b);
    same_position(position_in(change.before, p), position_in(change.before, q))
        && same_position(position_in(change.after, p), position_in(change.after, q))
}

fn place_of(device: &NetDevice, number: u32) -> Place
    ensures { result ≡ place_of device.now number }
{
    Place {
        device: device.name,
        interface: number,
    }
}

fn position_in(positions: &IndexMap<Place, usize>, place: Place) -> Option<usize>
    ensures { result ≡ get same_place positions.now place }
{
    positions.get(&place).copied()
}

fn same_position(a: Option<usize>, b: Option<usize>) -> bool
    ensures { IsTrue result → a ≡ b }
{
    match (a, b) {
        (None, None) => true,
        (Some(i), Some(j)) => i == j,
        _ => false,
    }
}

// The set, with the headers whose moves differ at the place of this number.
fn with_changed(
    table: &mut Diagrams,
    change: WaysChange,
    number: u32,
    set: u32,
) -> Result<u32, NoMemory>
    requires set { set < count_of table.old }
    requires before { AreWaysGiven table.old change.lists.now (get same_place change.before.now) }
    requires after { AreWaysGiven table.old change.lists.now (get same_place change.after.now) }
    ensures below { IfOk result (λ r. r < count_of table.new) }
    ensures wider { IfOk result (IsWider table.old set table.new) }
    ensures agree { IfOk result (λ r. AgreeOutside table.old table.new r (before_at change.entry (place_of change.entry.device.now number)) (after_at change.entry (place_of change.entry.device.now number))) }
    ensures kept { Keeps table.old table.new }
{
    let place = place_of(change.device, number);
    let before = list_at(change.lists, position_in(change.before, place));
    let after = list_at(change.lists, position_in(change.after, place));
    let all = with_apart(table, before, after, set)?;
    Ok(all)
}

fn list_at(lists: &[PlaceWays], position: Option<usize>) -> Option<&PlaceWays>
    ensures { option_copied result ≡ option_and_then (slice_get lists.now) position }
{
    let Some(position) = position else {
        return None;
    };
    lists.get(position)
}

// The set, with the headers whose moves differ by these ways.
fn with_apart(
    table: &mut Diagrams,
    before: Option<&PlaceWays>,
    after: Option<&PlaceWays>,
    set: u32,
) -> Result<u32, NoMemory>
    requires set { set < count_of table.old }
    requires before { IfSome before (λ v. AreGiven table.old v.now.ways.items) }
    requires after { IfSome after (λ v. AreGiven table.old v.now.ways.items) }
    ensures below { IfOk result (λ r. r < count_of table.new) }
    ensures wider { IfOk result (IsWider table.old set table.new) }
    ensures agree { IfOk result (λ r. AgreeOutside table.old table.new r (option_copied before.entry) (option_copied after.entry)) }
    ensures kept { Keeps table.old table.new }
{
    match (before, after) {
        (None, None) => Ok(set),
        (Some(before), Some(after)) => { with_difference(table, &before.ways, &after.ways, set) }
        _ => Ok(table.everything()),
    }
}

fn with_difference(
    table: &mut Diagrams,
    before: &[Way],
    after: &[Way],
    set: u32,
) -> Result<u32, NoMemory>
    requires set { set < count_of table.old }
    requires before { AreGiven table.old before.now }
    requires after { AreGiven table.old after.now }
    ensures below { IfOk result (λ r. r < count_of table.new) }
    ensures wider { IfOk result (IsWider table.old set table.new) }
    ensures lost { IfOk result (λ r. HaveOthers table.old table.new r before.now after.now) }
    ensures found { IfOk result (λ r. HaveOthers table.old table.new r after.now before.now) }
    ensures kept { Keeps table.old table.new }
{
    let lost = with_missing(table, before, after, set)?;
    with_missing(table, after, before, lost)
}

// The set, with the headers of each of the ways that don't make its step by the others.
fn with_missing(
    table: &mut Diagrams,
    ways: &[Way],
    others: &[Way],
    set: u32,
) -> Result<u32, NoMemory>
    requires set { set < count_of table.old }
    requires ways { AreGiven table.old ways.now }
    requires others { AreGiven table.old others.now }
    ensures below { IfOk result (λ r. r < count_of table.new) }
    ensures wider { IfOk result (IsWider table.old set table.new) }
    ensures others { IfOk result (λ r. HaveOthers table.old table.new r ways.now others.now) }
    ensures kept { Keeps table.old table.new }
{
    let mut all = set;
    for (i, way) in ways.iter().enumerate() {
        all = with_alone(table, *way, others, i, all)?;
    }
    Ok(all)
}

// The set, with the headers of the way that don't make its step by the others; that one of them that has it is looked for near this
// index first.
fn with_alone(
    table: &mut Diagrams,
    way: Way,
    others: &[Way],
    near: usize,
    set: u32,
) -> Result<u32, NoMemory>
    requires set { set < count_of table.old }
    requires way { way.headers < count_of table.old }
    requires others { AreGiven table.old others.now }
    ensures below { IfOk result (λ r. r < count_of table.new) }
    ensures wider { IfOk result (IsWider table.old set table.new) }
    ensures other { IfOk result (λ r. (h : Header) → IsHeader h → (InSet table.new r h → ⊥) → InSet table.old way.headers h → HasOther table.old others.now h way) }
    ensures kept { Keeps table.old table.new }
{
    let Some(other) = other_of(others, &way.step, near) else {
        return either(table, set, way.headers);
    };
    let alone = without(table, way.headers, other.headers)?;
    either(table, set, alone)
}

// One of the ways that has this step.
fn other_of(others: &[Way], step: &Step, near: usize) -> Option<Way>
    ensures among { IfSome result (Contains others.now) }
    ensures step { IfSome result (λ x. x.step ≡ step.now) }
{
    if let Some(other) = other_at(others, step, near) {
        return Some(other);
    }
    for other in others {
        if same_step(&other.step, step) {
            return Some(*other);
        }
    }
    None
}

fn other_at(others: &[Way], step: &Step, index: usize) -> Option<Way>
    ensures among { IfSome result (Contains others.now) }
    ensures step { IfSome result (λ x. x.step ≡ step.now) }
{
    let Some(other) = others.get(index) else {
        return None;
    };
    if same_step(&other.step, step) {
        return Some(*other);
    }
    None
}
