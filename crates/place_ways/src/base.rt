//! The ways of headers that came in. They depend on the device and on whether the interface is inside, and on nothing else
//! of it, so they are made once for each device and side, and places share them.

ghost use Rattle.std.specs.Prelude.{◌≡◌, true, Some, IfOk, OnOk, slice_get};
ghost use Rattle.hdr_bits.specs.declared.header.Header.{Header};
ghost use Rattle.hdr_bits.specs.HeaderBits.{IsHeader};
ghost use Rattle.hdr_bits.specs.Lists.{Extends};
ghost use Rattle.cube_diagram.specs.Functions.{Keeps};
ghost use Rattle.net_types.specs.Moves.{is_inside, moves_at, moves_in};
ghost use Rattle.net_view.specs.Borrowed.{seat_of};
ghost use Rattle.set_walk.specs.Sets.{InSet};
ghost use Rattle.place_ways.specs.Adding.{AreGiven, HasMoves};
ghost use Rattle.place_ways.specs.Places.{AreBases, HasSeatWays, IsBase, base_of, with_base};
ghost use Rattle.place_ways.specs.Seats.{AreWaysIn, IsWaySeat};

use crate::arrive::add_arrivals;
use crate::forward::ways_in;
use crate::seat::WaySeat;
use crate::sets::where_passed;
use cube_diagram::Diagrams;
use net_types::NoMemory;
use net_view::{is_enabled, is_inside, is_outside};
use set_walk::{PlaceWays, Way};
use std::alloc::Global;

/// The positions of the ways of headers that came in at a device: at an inside interface, and at any other.
#[derive(Clone, Copy)]
pub(crate) struct Bases {
    pub(crate) inside: Option<usize>,
    pub(crate) other: Option<usize>,
}

/// The position of the ways of headers of the scope that arrive at the interface. Where they are those of headers that came in, it
/// is the position of these, and else one of its own.
pub(crate) fn seat_position(
    alloc: Global,
    table: &mut Diagrams,
    at: WaySeat,
    bases: &mut Bases,
    lists: &mut Vec<PlaceWays>,
) -> Result<usize, NoMemory>
    requires at { IsWaySeat table.old at }
    requires bases { AreBases at.wiring.now table.old at.scope lists.old.items at.seat.device.now bases.old }
    ensures ways { IfOk result (HasSeatWays at.entry.wiring.now table.new at.entry.scope lists.new.items (seat_of at.entry.seat)) }
    ensures bases { OnOk result (AreBases at.entry.wiring.now table.new at.entry.scope lists.new.items at.entry.seat.device.now bases.new) }
    ensures lists { Extends lists.old.items lists.new.items }
    ensures kept { Keeps table.old table.new }
{
    let base = base_position(alloc, table, at, bases, lists)?;
    let is_base = takes_all(table, at)?;
    if is_base {
        return Ok(base);
    }
    let position = add_own(alloc, table, at, base, lists)?;
    Ok(position)
}

// The position of the ways of headers that came in at the interface. Where there are none yet they are made.
fn base_position(
    alloc: Global,
    table: &mut Diagrams,
    at: WaySeat,
    bases: &mut Bases,
    lists: &mut Vec<PlaceWays>,
) -> Result<usize, NoMemory>
    requires at { IsWaySeat table.old at }
    requires bases { AreBases at.wiring.now table.old at.scope lists.old.items at.seat.device.now bases.old }
    ensures base { IfOk result (IsBase at.entry.wiring.now table.new at.entry.scope lists.new.items at.entry.seat.device.now (is_inside at.entry.seat.interface.now.side)) }
    ensures bases { OnOk result (AreBases at.entry.wiring.now table.new at.entry.scope lists.new.items at.entry.seat.device.now bases.new) }
    ensures lists { Extends lists.old.items lists.new.items }
    ensures kept { Keeps table.old table.new }
{
    let inside = is_inside(at.seat.interface.side);
    if let Some(position) = base_of(*bases, inside) {
        return Ok(position);
    }
    let ways = ways_in(alloc, table, at)?;
    let position = push_ways(lists, ways)?;
    *bases = with_base(*bases, inside, position);
    Ok(position)
}

fn base_of(bases: Bases, inside: bool) -> Option<usize>
    ensures { result ≡ base_of bases inside }
{
    if inside { bases.inside } else { bases.other }
}

fn with_base(bases: Bases, inside: bool, position: usize) -> Bases
    ensures { result ≡ with_base bases inside position }
{
    if inside {
        Bases {
            inside: Some(position),
            other: bases.other,
        }
    } else {
        Bases {
            inside: bases.inside,
            other: Some(position),
        }
    }
}

// Whether all headers of the scope that arrive at the interface come in as they are.
fn takes_all(table: &mut Diagrams, at: WaySeat) -> Result<bool, NoMemory>
    requires { IsWaySeat table.old at }
    ensures same { IfOk result (λ b. b ≡ true → (h : Header) → IsHeader h → InSet table.new at.entry.scope h → moves_at at.entry.wiring.now (Some (seat_of at.entry.seat)) h ≡ moves_in at.entry.wiring.now (seat_of at.entry.seat) h) }
    ensures kept { Keeps table.old table.new }
{
    if !is_enabled(at.seat.interface) {
        return Ok(false);
    }
    if is_outside(at.seat.interface.side) {
        return Ok(false);
    }
    let passed = where_passed(table, at.form.input, at.scope)?;
    Ok(passed == at.scope)
}

// The position of ways of the interface's own, made of those of headers that came in.
fn add_own(
    alloc: Global,
    table: &mut Diagrams,
    at: WaySeat,
    base: usize,
    lists: &mut Vec<PlaceWays>,
) -> Result<usize, NoMemory>
    requires at { IsWaySeat table.old at }
    requires base { IsBase at.wiring.now table.old at.scope lists.old.items at.seat.device.now (is_inside at.seat.interface.now.side) base }
    ensures ways { IfOk result (HasSeatWays at.entry.wiring.now table.new at.entry.scope lists.new.items (seat_of at.entry.seat)) }
    ensures lists { Extends lists.old.items lists.new.items }
    ensures kept { Keeps table.old table.new }
{
    let ways = ways_by(alloc, table, at, &lists[base].ways)?;
    let position = push_ways(lists, ways)?;
    Ok(position)
}

// By the ways of headers that came in.
fn ways_by(
    alloc: Global,
    table: &mut Diagrams,
    at: WaySeat,
    base: &[Way],
) -> Result<Vec<Way>, NoMemory>
    requires at { IsWaySeat table.old at }
    requires base { AreWaysIn table.old at base.now }
    ensures given { IfOk result (λ r. AreGiven table.new r.items) }
    ensures moves { IfOk result (λ r. HasMoves (moves_at at.entry.wiring.now (Some (seat_of at.entry.seat))) table.new at.entry.scope r.items) }
    ensures kept { Keeps table.old table.new }
{
    let mut ways = Vec::new(alloc);
    add_arrivals(alloc, table, at, base, &mut ways)?;
    Ok(ways)
}

fn push_ways(lists: &mut Vec<PlaceWays>, ways: Vec<Way>) -> Result<usize, NoMemory>
    ensures there { IfOk result (λ i. slice_get lists.new.items i ≡ Some (record { ways = ways })) }
    ensures lists { Extends lists.old.items lists.new.items }
{
    let position = lists.len();
    lists.push(PlaceWays { ways })?;
    Ok(position)
}
