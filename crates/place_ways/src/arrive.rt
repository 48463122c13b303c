//! Arrival: the input list, and translation from outside.

ghost use Rattle.std.specs.Prelude.{◌≡◌, ◌<◌, Some, OnOk};
ghost use Rattle.cube_diagram.specs.Functions.{Keeps, count_of};
ghost use Rattle.net_types.specs.Moves.{coming_in, moves_at, moves_in};
ghost use Rattle.net_view.specs.Borrowed.{seat_of};
ghost use Rattle.set_walk.specs.Sets.{IsWithin};
ghost use Rattle.set_walk.specs.Told.{since};
ghost use Rattle.set_walk.specs.Ways.{IsStamp};
ghost use Rattle.place_ways.specs.Adding.{AddsWays, AreGiven, MakesAny, MakesBehind};
ghost use Rattle.place_ways.specs.Parts.{AreStamped, MakesBehindOne};
ghost use Rattle.place_ways.specs.Seats.{AreWaysIn, IsWaySeat};

use crate::add::add_way;
use crate::parts::{Part, Translation, parts_of};
use crate::seat::WaySeat;
use crate::sets::{before_stamp, both, where_passed, without};
use cube_alg::Stamp;
use cube_diagram::Diagrams;
use net_types::NoMemory;
use net_view::{is_enabled, is_outside};
use set_walk::{Step, Way};
use std::alloc::Global;

/// Adds the ways of the headers of the scope that arrive at the interface. `base` has those of headers that came in.
pub(crate) fn add_arrivals(
    alloc: Global,
    table: &mut Diagrams,
    at: WaySeat,
    base: &[Way],
    ways: &mut Vec<Way>,
) -> Result<(), NoMemory>
    requires at { IsWaySeat table.old at }
    requires base { AreWaysIn table.old at base.now }
    requires ways { AreGiven table.old ways.old.items }
    ensures added { OnOk result (AddsWays table.old table.new (MakesAny table.old at.entry.scope (moves_at at.entry.wiring.now (Some (seat_of at.entry.seat)))) ways.old.items ways.new.items) }
    ensures kept { Keeps table.old table.new }
{
    if !is_enabled(at.seat.interface) {
        add_way(table, ways, Step::Drop, at.scope)?;
        return Ok(());
    }
    let passed = where_passed(table, at.form.input, at.scope)?;
    let denied = without(table, at.scope, passed)?;
    add_way(table, ways, Step::Drop, denied)?;
    add_let_in(alloc, table, at, base, passed, ways)?;
    Ok(())
}

// Of the given headers, which the input list passes. At an outside interface they are translated from outside.
fn add_let_in(
    alloc: Global,
    table: &mut Diagrams,
    at: WaySeat,
    base: &[Way],
    given: u32,
    ways: &mut Vec<Way>,
) -> Result<(), NoMemory>
    requires at { IsWaySeat table.old at }
    requires base { AreWaysIn table.old at base.now }
    requires given { given < count_of table.old }
    requires within { IsWithin table.old given at.scope }
    requires ways { AreGiven table.old ways.old.items }
    ensures added { OnOk result (AddsWays table.old table.new (MakesAny table.old given (λ h. moves_in at.entry.wiring.now (seat_of at.entry.seat) (coming_in (seat_of at.entry.seat) h))) ways.old.items ways.new.items) }
    ensures kept { Keeps table.old table.new }
{
    let outside = Translation {
        device: at.seat.device,
        from_outside: true,
        rule: at.device.rules.outside,
        outer: at.device.rules.outer_outside,
    };
    let translated = is_outside(at.seat.interface.side);
    let parts = parts_of(alloc, table, outside, translated, given)?;
    add_parts(alloc, table, base, &parts, ways)?;
    Ok(())
}

// Of the headers of each part, by the ways of those that its stamp makes of them.
fn add_parts(
    alloc: Global,
    table: &mut Diagrams,
    base: &[Way],
    parts: &[Part],
    ways: &mut Vec<Way>,
) -> Result<(), NoMemory>
    requires base { AreGiven table.old base.now }
    requires parts { AreStamped table.old parts.now }
    requires ways { AreGiven table.old ways.old.items }
    ensures added { OnOk result (AddsWays table.old table.new (MakesBehindOne table.old parts.now base.now) ways.old.items ways.new.items) }
    ensures kept { Keeps table.old table.new }
{
    for part in parts {
        add_behind(alloc, table, base, part.headers, part.stamp, ways)?;
    }
    Ok(())
}

// Of the given headers, by the ways of those that the stamp makes of them.
fn add_behind(
    alloc: Global,
    table: &mut Diagrams,
    base: &[Way],
    given: u32,
    stamp: Stamp,
    ways: &mut Vec<Way>,
) -> Result<(), NoMemory>
    requires base_given { AreGiven table.old base.now }
    requires given { given < count_of table.old }
    requires stamp { IsStamp stamp }
    requires ways { AreGiven table.old ways.old.items }
    ensures added { OnOk result (AddsWays table.old table.new (MakesBehind table.old given stamp base.now) ways.old.items ways.new.items) }
    ensures kept { Keeps table.old table.new }
{
    if table.is_nothing(given) {
        return Ok(());
    }
    for way in base {
        let before = before_stamp(alloc, table, way.headers, &stamp)?;
        let headers = both(table, before, given)?;
        add_way(table, ways, since(&stamp, &way.step), headers)?;
    }
    Ok(())
}

fn since(stamp: &Stamp, step: &Step) -> Step
    ensures { result ≡ since stamp.now step.now }
{
    match *step {
        Step::Drop => Step::Drop,
        Step::Local { place } => Step::Local { place },
        Step::Lost => Step::Lost,
        Step::Exit {
            place,
            stamp: later,
        } => Step::Exit {
            place,
            stamp: stamp.then(&later),
        },
        Step::Go {
            place,
            stamp: later,
        } => Step::Go {
            place,
            stamp: stamp.then(&later),
        },
    }
}
