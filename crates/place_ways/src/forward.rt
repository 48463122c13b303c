//! Forwarding: what the device does with destinations, and each choice of the lookup.

ghost use Rattle.std.specs.Prelude.{◌≡◌, ◌<◌, ℕ, Some, IfOk, OnOk, map, slice_get};
ghost use Rattle.hdr_bits.specs.declared.header.Header.{Header};
ghost use Rattle.hdr_bits.specs.HeaderBits.{IsHeader};
ghost use Rattle.cube_diagram.specs.Functions.{Keeps, count_of};
ghost use Rattle.device_fates.specs.Fates.{IsFate};
ghost use Rattle.fib_lookup.specs.Forms.{hop_of};
ghost use Rattle.net_types.specs.Moves.{move_by, moves_in};
ghost use Rattle.net_view.specs.Borrowed.{seat_of};
ghost use Rattle.set_walk.specs.declared.step.Step.TheVariants.{Local};
ghost use Rattle.set_walk.specs.Sets.{InSet};
ghost use Rattle.set_walk.specs.Ways.{IsStamp, OfStamp};
ghost use Rattle.place_ways.specs.Adding.{AddsWays, AreGiven, HasMoves, HasValue, MakesAny};
ghost use Rattle.place_ways.specs.Seats.{AreFateSets, IsWaySeat};

use crate::add::join_way;
use crate::leave::add_choice;
use crate::seat::WaySeat;
use cube_diagram::{Diagrams, ValueSet};
use device_fates::Fate;
use fib_lookup::HopForm;
use net_types::{NetDevice, NoMemory, Place};
use set_walk::{Step, Steps, Way};
use std::alloc::Global;

/// The ways of the headers of the scope that came in at the interface, each move once.
pub(crate) fn ways_in(
    alloc: Global,
    table: &mut Diagrams,
    at: WaySeat,
) -> Result<Vec<Way>, NoMemory>
    requires { IsWaySeat table.old at }
    ensures given { IfOk result (λ r. AreGiven table.new r.items) }
    ensures moves { IfOk result (λ r. HasMoves (moves_in at.entry.wiring.now (seat_of at.entry.seat)) table.new at.entry.scope r.items) }
    ensures kept { Keeps table.old table.new }
{
    let mut told = Steps::new(alloc);
    add_fates(alloc, table, at, &mut told)?;
    Ok(told.ways)
}

// By all that the device does with destinations.
fn add_fates(
    alloc: Global,
    table: &mut Diagrams,
    at: WaySeat,
    ways: &mut Steps,
) -> Result<(), NoMemory>
    requires at { IsWaySeat table.old at }
    requires ways { AreGiven table.old ways.old.ways.items }
    ensures added { OnOk result (AddsWays table.old table.new (MakesAny table.old at.entry.scope (moves_in at.entry.wiring.now (seat_of at.entry.seat))) ways.old.ways.items ways.new.ways.items) }
    ensures kept { Keeps table.old table.new }
{
    let sets = table.sets_by_value(alloc, at.device.fates, at.scope)?;
    add_sets(alloc, table, at, &sets, ways)?;
    Ok(())
}

// Of the headers of each set, whose fate has the set's value for its number.
fn add_sets(
    alloc: Global,
    table: &mut Diagrams,
    at: WaySeat,
    sets: &[ValueSet],
    ways: &mut Steps,
) -> Result<(), NoMemory>
    requires at { IsWaySeat table.old at }
    requires sets { AreFateSets table.old at sets.now }
    requires ways { AreGiven table.old ways.old.ways.items }
    ensures added { OnOk result (AddsWays table.old table.new (MakesAny table.old at.entry.scope (moves_in at.entry.wiring.now (seat_of at.entry.seat))) ways.old.ways.items ways.new.ways.items) }
    ensures kept { Keeps table.old table.new }
{
    for one in sets {
        add_numbered(alloc, table, at, one.value, one.set, ways)?;
    }
    Ok(())
}

// Of the given headers, whose fate has this number.
fn add_numbered(
    alloc: Global,
    table: &mut Diagrams,
    at: WaySeat,
    number: u32,
    given: u32,
    ways: &mut Steps,
) -> Result<(), NoMemory>
    requires at { IsWaySeat table.old at }
    requires below { given < count_of table.old }
    requires number { (h : Header) → IsHeader h → InSet table.old given h → HasValue table.old at.device.now.fates number h }
    requires ways { AreGiven table.old ways.old.ways.items }
    ensures added { OnOk result (AddsWays table.old table.new (MakesAny table.old given (moves_in at.entry.wiring.now (seat_of at.entry.seat))) ways.old.ways.items ways.new.ways.items) }
    ensures kept { Keeps table.old table.new }
{
    let Some(fate) = at.fates.get(number) else {
        return Ok(());
    };
    add_fate(alloc, table, at, fate, given, ways)?;
    Ok(())
}

// Of the given headers, whose destinations have this fate.
fn add_fate(
    alloc: Global,
    table: &mut Diagrams,
    at: WaySeat,
    fate: &Fate,
    given: u32,
    ways: &mut Steps,
) -> Result<(), NoMemory>
    requires at { IsWaySeat table.old at }
    requires fate { (h : Header) → IsHeader h → InSet table.old given h → IsFate at.seat.device.now.config fate.now h.dst }
    requires given { given < count_of table.old }
    requires ways { AreGiven table.old ways.old.ways.items }
    ensures added { OnOk result (AddsWays table.old table.new (MakesAny table.old given (moves_in at.entry.wiring.now (seat_of at.entry.seat))) ways.old.ways.items ways.new.ways.items) }
    ensures kept { Keeps table.old table.new }
{
    match fate {
        Fate::Dropped => {
            join_way(table, ways, Step::Drop, given)?;
            Ok(())
        }
        Fate::Own { position } => {
            let step = local(at.seat.device, *position);
            join_way(table, ways, step, given)?;
            Ok(())
        }
        Fate::Sent { choices } => {
            add_choices(alloc, table, at, choices.as_slice(), given, ways)?;
            Ok(())
        }
    }
}

// It is for the interface at this position.
fn local(device: &NetDevice, position: u32) -> Step
    ensures fits { OfStamp IsStamp result }
    ensures place { (n : ℕ) → Some n ≡ slice_get device.now.numbers position → result ≡ Local (record { device = device.now.name; interface = n }) }
{
    let Some(interface) = number_at(device.numbers.as_slice(), position) else {
        return Step::Drop;
    };
    let place = Place {
        device: device.name,
        interface,
    };
    Step::Local { place }
}

fn number_at(numbers: &[u32], position: u32) -> Option<u32>
    ensures { result ≡ slice_get numbers.now position }
{
    numbers.get(position as usize).copied()
}

// By each of these choices.
fn add_choices(
    alloc: Global,
    table: &mut Diagrams,
    at: WaySeat,
    choices: &[HopForm],
    given: u32,
    ways: &mut Steps,
) -> Result<(), NoMemory>
    requires at { IsWaySeat table.old at }
    requires given { given < count_of table.old }
    requires ways { AreGiven table.old ways.old.ways.items }
    ensures added { OnOk result (AddsWays table.old table.new (MakesAny table.old given (λ h. map (move_by at.entry.wiring.now (seat_of at.entry.seat) h) (map (hop_of h.dst) choices.now))) ways.old.ways.items ways.new.ways.items) }
    ensures kept { Keeps table.old table.new }
{
    for form in choices {
        add_choice(alloc, table, at, form, given, ways)?;
    }
    Ok(())
}
