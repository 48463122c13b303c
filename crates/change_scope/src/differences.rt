//! The headers with destinations to which functions of two compiled devices give different values.

ghost use Rattle.std.specs.Prelude.{◌≡◌, ◌<◌, IfOk, length};
ghost use Rattle.cube_diagram.specs.Functions.{Keeps, count_of};
ghost use Rattle.change_scope.specs.Differences.{AgreeBeyond, AreBelow, FormsAgree, HasAll, IsBelow, SeatsAgree, SeatsAgreeBelow};
ghost use Rattle.change_scope.specs.Translated.{ByDestination};

use cube_diagram::Diagrams;
use net_forms::{DeviceForm, SeatForm};
use net_types::NoMemory;
use std::alloc::Global;

/// The set, with all headers to the destinations of those to which the functions of the two devices give different values.
/// Lists ask for ports and sources too: a set of such headers would make the functions of every device's destinations
/// larger.
pub(crate) fn add_form(
    alloc: Global,
    table: &mut Diagrams,
    a: &DeviceForm,
    b: &DeviceForm,
    set: u32,
) -> Result<u32, NoMemory>
    requires first { a.now.fates < count_of table.old }
    requires second { b.now.fates < count_of table.old }
    requires first_seats { AreBelow table.old a.now.seats.items }
    requires second_seats { AreBelow table.old b.now.seats.items }
    requires count { length b.now.seats.items ≡ length a.now.seats.items }
    requires set { set < count_of table.old }
    requires by { ByDestination table.old set }
    ensures below { IfOk result (λ r. r < count_of table.new) }
    ensures by { IfOk result (ByDestination table.new) }
    ensures all { IfOk result (HasAll table.old set table.new) }
    ensures agree { IfOk result (FormsAgree table.old a.now b.now table.new) }
    ensures kept { Keeps table.old table.new }
{
    let more = add_difference(alloc, table, a.fates, b.fates, set)?;
    let all = add_seats(alloc, table, &a.seats, &b.seats, more)?;
    Ok(all)
}

// The same of the lists of two interfaces at each position.
fn add_seats(
    alloc: Global,
    table: &mut Diagrams,
    a: &[SeatForm],
    b: &[SeatForm],
    set: u32,
) -> Result<u32, NoMemory>
    requires first { AreBelow table.old a.now }
    requires second { AreBelow table.old b.now }
    requires count { length b.now ≡ length a.now }
    requires set { set < count_of table.old }
    requires by { ByDestination table.old set }
    ensures below { IfOk result (λ r. r < count_of table.new) }
    ensures by { IfOk result (ByDestination table.new) }
    ensures all { IfOk result (HasAll table.old set table.new) }
    ensures agree { IfOk result (SeatsAgreeBelow table.old a.now b.now (length a.now) table.new) }
    ensures kept { Keeps table.old table.new }
{
    let mut all = set;
    for i in 0..a.len() {
        all = add_seat(alloc, table, a[i], b[i], all)?;
    }
    Ok(all)
}

fn add_seat(
    alloc: Global,
    table: &mut Diagrams,
    a: SeatForm,
    b: SeatForm,
    set: u32,
) -> Result<u32, NoMemory>
    requires first { IsBelow table.old a }
    requires second { IsBelow table.old b }
    requires set { set < count_of table.old }
    requires by { ByDestination table.old set }
    ensures below { IfOk result (λ r. r < count_of table.new) }
    ensures by { IfOk result (ByDestination table.new) }
    ensures all { IfOk result (HasAll table.old set table.new) }
    ensures agree { IfOk result (SeatsAgree table.old a b table.new) }
    ensures kept { Keeps table.old table.new }
{
    let more = add_difference(alloc, table, a.input, b.input, set)?;
    let all = add_difference(alloc, table, a.output, b.output, more)?;
    Ok(all)
}

// The set, with all headers to the destinations of those to which the two functions give different values.
fn add_difference(
    alloc: Global,
    table: &mut Diagrams,
    a: u32,
    b: u32,
    set: u32,
) -> Result<u32, NoMemory>
    requires first { a < count_of table.old }
    requires second { b < count_of table.old }
    requires set { set < count_of table.old }
    requires by { ByDestination table.old set }
    ensures below { IfOk result (λ r. r < count_of table.new) }
    ensures by { IfOk result (ByDestination table.new) }
    ensures all { IfOk result (HasAll table.old set table.new) }
    ensures agree { IfOk result (AgreeBeyond table.old a b table.new) }
    ensures kept { Keeps table.old table.new }
{
    if a == b {
        return Ok(set);
    }
    let different = table.difference(a, b)?;
    let reached = table.by_destination(alloc, different)?;
    let all = table.first_of(&[set, reached])?;
    Ok(all)
}
