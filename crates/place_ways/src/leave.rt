//! Leaving: the choice of the lookup, translation from inside, and the output list.

ghost use Rattle.std.specs.Prelude.{◌≡◌, ◌<◌, ◌&&◌, OnOk};
ghost use Rattle.cube_alg.specs.Stamps.{applied};
ghost use Rattle.cube_diagram.specs.Functions.{Keeps, count_of};
ghost use Rattle.fib_lookup.specs.Forms.{hop_of};
ghost use Rattle.link_sends.specs.Sending.{next_address};
ghost use Rattle.net_types.specs.Moves.{is_inside, is_outside, leave, leave_if_any, move_by};
ghost use Rattle.net_types.specs.World.{seat_named};
ghost use Rattle.net_view.specs.Borrowed.{seat_of};
ghost use Rattle.set_walk.specs.Ways.{IsStamp};
ghost use Rattle.place_ways.specs.Adding.{AddsWays, AreGiven, Makes};
ghost use Rattle.place_ways.specs.Leaving.{IsOut, LeavesByOne, leaves};
ghost use Rattle.place_ways.specs.Parts.{AreStamped};
ghost use Rattle.place_ways.specs.Seats.{IsWaySeat};

use crate::add::join_way;
use crate::link::{Link, add_sent};
use crate::parts::{Part, Translation, parts_of};
use crate::seat::{WaySeat, out_named};
use crate::sets::{where_passed_after, without};
use cube_alg::Stamp;
use cube_diagram::Diagrams;
use fib_lookup::HopForm;
use link_sends::Next;
use net_forms::FormedSeat;
use net_types::NoMemory;
use net_view::{is_inside, is_outside};
use set_walk::{Step, Steps};
use std::alloc::Global;

/// An interface of the device, by which headers that came in leave, and the address that they are sent to next.
#[derive(Clone, Copy)]
pub(crate) struct Leaving<'a> {
    pub(crate) at: WaySeat<'a>,
    pub(crate) out: FormedSeat<'a>,
    pub(crate) next: Next,
}

/// Adds the ways of the given headers by a choice of the lookup.
pub(crate) fn add_choice(
    alloc: Global,
    table: &mut Diagrams,
    at: WaySeat,
    form: &HopForm,
    given: u32,
    ways: &mut Steps,
) -> Result<(), NoMemory>
    requires at { IsWaySeat table.old at }
    requires given { given < count_of table.old }
    requires ways { AreGiven table.old ways.old.ways.items }
    ensures added { OnOk result (AddsWays table.old table.new (Makes table.old given (λ h. move_by at.entry.wiring.now (seat_of at.entry.seat) h (hop_of h.dst form.now))) ways.old.ways.items ways.new.ways.items) }
    ensures kept { Keeps table.old table.new }
{
    match form {
        HopForm::Discard => {
            join_way(table, ways, Step::Drop, given)?;
            Ok(())
        }
        HopForm::Direct { name } => {
            let hop = Hop {
                name: name.as_bytes(),
                next: Next::Destination,
            };
            add_named(alloc, table, at, hop, given, ways)?;
            Ok(())
        }
        HopForm::Via { name, next } => {
            let hop = Hop {
                name: name.as_bytes(),
                next: Next::Address { address: *next },
            };
            add_named(alloc, table, at, hop, given, ways)?;
            Ok(())
        }
    }
}

// The name of an interface by which headers leave, and the address that they are sent to next.
#[derive(Clone, Copy)]
struct Hop<'a> {
    name: &'a [u8],
    next: Next,
}

// Out of the interface of this name. Without one the packet is lost.
fn add_named(
    alloc: Global,
    table: &mut Diagrams,
    at: WaySeat,
    hop: Hop,
    given: u32,
    ways: &mut Steps,
) -> Result<(), NoMemory>
    requires at { IsWaySeat table.old at }
    requires given { given < count_of table.old }
    requires ways { AreGiven table.old ways.old.ways.items }
    ensures added { OnOk result (AddsWays table.old table.new (Makes table.old given (λ h. leave_if_any at.entry.wiring.now (seat_of at.entry.seat) h (next_address hop.entry.next h) (seat_named at.entry.seat.device.now hop.entry.name.now))) ways.old.ways.items ways.new.ways.items) }
    ensures kept { Keeps table.old table.new }
{
    let Some(out) = out_named(at, hop.name) else {
        join_way(table, ways, Step::Lost, given)?;
        return Ok(());
    };
    let leaving = Leaving {
        at,
        out,
        next: hop.next,
    };
    add_out(alloc, table, leaving, given, ways)?;
    Ok(())
}

// From an inside to an outside interface they are translated from inside.
fn add_out(
    alloc: Global,
    table: &mut Diagrams,
    leaving: Leaving,
    given: u32,
    ways: &mut Steps,
) -> Result<(), NoMemory>
    requires at { IsWaySeat table.old leaving.at }
    requires out { IsOut table.old leaving }
    requires given { given < count_of table.old }
    requires ways { AreGiven table.old ways.old.ways.items }
    ensures added { OnOk result (AddsWays table.old table.new (Makes table.old given (λ h. leave leaving.entry.at.wiring.now (seat_of leaving.entry.at.seat) h (next_address leaving.entry.next h) (seat_of leaving.entry.out.seat))) ways.old.ways.items ways.new.ways.items) }
    ensures kept { Keeps table.old table.new }
{
    let inside = Translation {
        device: leaving.at.seat.device,
        from_outside: false,
        rule: leaving.at.device.rules.inside,
        outer: leaving.at.device.rules.outer_inside,
    };
    let translated = goes_outside(leaving);
    let parts = parts_of(alloc, table, inside, translated, given)?;
    add_parts(alloc, table, leaving, &parts, ways)?;
    Ok(())
}

fn goes_outside(leaving: Leaving) -> bool
    ensures { result ≡ (is_inside leaving.entry.at.seat.interface.now.side && is_outside leaving.entry.out.seat.interface.now.side) }
{
    is_inside(leaving.at.seat.interface.side) && is_outside(leaving.out.seat.interface.side)
}

// Of the headers of each part, once its stamp was applied.
fn add_parts(
    alloc: Global,
    table: &mut Diagrams,
    leaving: Leaving,
    parts: &[Part],
    ways: &mut Steps,
) -> Result<(), NoMemory>
    requires out { IsOut table.old leaving }
    requires parts { AreStamped table.old parts.now }
    requires ways { AreGiven table.old ways.old.ways.items }
    ensures added { OnOk result (AddsWays table.old table.new (LeavesByOne table.old parts.now leaving.entry) ways.old.ways.items ways.new.ways.items) }
    ensures kept { Keeps table.old table.new }
{
    for part in parts {
        add_passed(alloc, table, leaving, part.headers, part.stamp, ways)?;
    }
    Ok(())
}

// The output list sees the headers that the stamp made, and what it denies is lost. The next address is that of the headers
// as they came from the lookup.
fn add_passed(
    alloc: Global,
    table: &mut Diagrams,
    leaving: Leaving,
    given: u32,
    stamp: Stamp,
    ways: &mut Steps,
) -> Result<(), NoMemory>
    requires out { IsOut table.old leaving }
    requires given { given < count_of table.old }
    requires stamp { IsStamp stamp }
    requires ways { AreGiven table.old ways.old.ways.items }
    ensures added { OnOk result (AddsWays table.old table.new (Makes table.old given (λ h. leaves leaving.entry h (applied stamp h))) ways.old.ways.items ways.new.ways.items) }
    ensures kept { Keeps table.old table.new }
{
    let passed = where_passed_after(alloc, table, leaving.out.form.output, &stamp, given)?;
    let lost = without(table, given, passed)?;
    join_way(table, ways, Step::Lost, lost)?;
    let link = Link {
        wiring: leaving.at.wiring,
        place: leaving.out.seat.place,
        stamp,
    };
    add_sent(alloc, table, link, leaving.next, passed, ways)?;
    Ok(())
}
