//! Where the link leads that packets leave by.

ghost use Rattle.std.specs.Prelude.{◌≡◌, ◌<◌, ℕ, Contains, OnOk};
ghost use Rattle.hdr_bits.specs.declared.header.Header.{Header};
ghost use Rattle.hdr_bits.specs.HeaderBits.{IsHeader};
ghost use Rattle.cube_alg.specs.Stamps.{applied};
ghost use Rattle.cube_diagram.specs.Functions.{Keeps, count_of};
ghost use Rattle.link_sends.specs.Sending.{next_address, sent_move};
ghost use Rattle.net_types.specs.Moves.{send};
ghost use Rattle.net_types.specs.World.{segment_of};
ghost use Rattle.set_walk.specs.Ways.{IsStamp};
ghost use Rattle.place_ways.specs.Adding.{AddsWays, AreGiven, ByOne, HasValue, Makes, TellsAddresses, stamped_step};

use crate::add::join_way;
use crate::addresses::destination_among;
use crate::sets::{where_value, without};
use cube_alg::Stamp;
use cube_diagram::Diagrams;
use link_sends::{Addresses, Next, Sent, Wiring};
use net_types::{NoMemory, Place};
use set_walk::{Step, Steps};
use std::alloc::Global;

/// The link of a place, and the stamp that makes what is sent there of the headers that arrived at the device.
#[derive(Clone, Copy)]
pub(crate) struct Link<'a> {
    pub(crate) wiring: &'a Wiring<'a>,
    pub(crate) place: Place,
    pub(crate) stamp: Stamp,
}

/// Adds the ways of headers that are sent over the link, each to the next address that it had before the stamp.
pub(crate) fn add_sent(
    alloc: Global,
    table: &mut Diagrams,
    link: Link,
    next: Next,
    given: u32,
    ways: &mut Steps,
) -> Result<(), NoMemory>
    requires given { given < count_of table.old }
    requires stamp { IsStamp link.stamp }
    requires ways { AreGiven table.old ways.old.ways.items }
    ensures added { OnOk result (AddsWays table.old table.new (Makes table.old given (λ h. send link.entry.wiring.now link.entry.place (next_address next h) (applied link.entry.stamp h) (segment_of link.entry.wiring.now link.entry.place))) ways.old.ways.items ways.new.ways.items) }
    ensures kept { Keeps table.old table.new }
{
    match next {
        Next::Address { address } => {
            add_sent_to(table, link, address, given, ways)?;
            Ok(())
        }
        Next::Destination => {
            add_destinations(alloc, table, link, given, ways)?;
            Ok(())
        }
    }
}

// To one next address.
fn add_sent_to(
    table: &mut Diagrams,
    link: Link,
    address: u32,
    given: u32,
    ways: &mut Steps,
) -> Result<(), NoMemory>
    requires given { given < count_of table.old }
    requires stamp { IsStamp link.stamp }
    requires ways { AreGiven table.old ways.old.ways.items }
    ensures added { OnOk result (AddsWays table.old table.new (Makes table.old given (λ h. send link.entry.wiring.now link.entry.place address (applied link.entry.stamp h) (segment_of link.entry.wiring.now link.entry.place))) ways.old.ways.items ways.new.ways.items) }
    ensures kept { Keeps table.old table.new }
{
    let sent = link.wiring.sent_to(link.place, address);
    let step = stamped_step(link.place, link.stamp, sent);
    join_way(table, ways, step, given)?;
    Ok(())
}

// To the headers' own destinations, as they came from the lookup.
fn add_destinations(
    alloc: Global,
    table: &mut Diagrams,
    link: Link,
    given: u32,
    ways: &mut Steps,
) -> Result<(), NoMemory>
    requires given { given < count_of table.old }
    requires stamp { IsStamp link.stamp }
    requires ways { AreGiven table.old ways.old.ways.items }
    ensures added { OnOk result (AddsWays table.old table.new (Makes table.old given (λ h. send link.entry.wiring.now link.entry.place h.dst (applied link.entry.stamp h) (segment_of link.entry.wiring.now link.entry.place))) ways.old.ways.items ways.new.ways.items) }
    ensures kept { Keeps table.old table.new }
{
    let addresses = link.wiring.addresses(alloc, link.place)?;
    add_by_addresses(alloc, table, link, &addresses, given, ways)?;
    Ok(())
}

// To each of the addresses, and to all others.
fn add_by_addresses(
    alloc: Global,
    table: &mut Diagrams,
    link: Link,
    addresses: &Addresses,
    given: u32,
    ways: &mut Steps,
) -> Result<(), NoMemory>
    requires otherwise { (a : ℕ) → (Contains addresses.now.listed.items a → ⊥) → (h : Header) → send link.wiring.now link.place a h (segment_of link.wiring.now link.place) ≡ sent_move link.place h addresses.now.otherwise }
    requires given { given < count_of table.old }
    requires stamp { IsStamp link.stamp }
    requires ways { AreGiven table.old ways.old.ways.items }
    ensures added { OnOk result (AddsWays table.old table.new (Makes table.old given (λ h. send link.entry.wiring.now link.entry.place h.dst (applied link.entry.stamp h) (segment_of link.entry.wiring.now link.entry.place))) ways.old.ways.items ways.new.ways.items) }
    ensures kept { Keeps table.old table.new }
{
    let listed = addresses.listed.as_slice();
    let function = destination_among(alloc, table, listed)?;
    add_listed(table, link, listed, function, given, ways)?;
    let rest = without(table, given, function)?;
    let step = stamped_step(link.place, link.stamp, addresses.otherwise);
    join_way(table, ways, step, rest)?;
    Ok(())
}

// To the addresses of the list. The function tells which of them a header has.
fn add_listed(
    table: &mut Diagrams,
    link: Link,
    addresses: &[u32],
    function: u32,
    given: u32,
    ways: &mut Steps,
) -> Result<(), NoMemory>
    requires function { TellsAddresses table.old addresses.now function }
    requires given { given < count_of table.old }
    requires stamp { IsStamp link.stamp }
    requires ways { AreGiven table.old ways.old.ways.items }
    ensures added { OnOk result (AddsWays table.old table.new (λ h m. ByOne (λ a. HasValue table.old function a h × Makes table.old given (λ h. send link.entry.wiring.now link.entry.place h.dst (applied link.entry.stamp h) (segment_of link.entry.wiring.now link.entry.place)) h m) addresses.now) ways.old.ways.items ways.new.ways.items) }
    ensures kept { Keeps table.old table.new }
{
    for address in addresses {
        add_address(table, link, *address, function, given, ways)?;
    }
    Ok(())
}

// To one of them.
fn add_address(
    table: &mut Diagrams,
    link: Link,
    address: u32,
    function: u32,
    given: u32,
    ways: &mut Steps,
) -> Result<(), NoMemory>
    requires below { function < count_of table.old }
    requires tells { (h : Header) → IsHeader h → HasValue table.old function address h → h.dst ≡ address }
    requires given { given < count_of table.old }
    requires stamp { IsStamp link.stamp }
    requires ways { AreGiven table.old ways.old.ways.items }
    ensures added { OnOk result (AddsWays table.old table.new (λ h m. HasValue table.old function address h × Makes table.old given (λ h. send link.entry.wiring.now link.entry.place h.dst (applied link.entry.stamp h) (segment_of link.entry.wiring.now link.entry.place)) h m) ways.old.ways.items ways.new.ways.items) }
    ensures kept { Keeps table.old table.new }
{
    let part = where_value(table, function, address, given)?;
    add_sent_to(table, link, address, part, ways)?;
    Ok(())
}

fn stamped_step(place: Place, stamp: Stamp, sent: Sent) -> Step
    ensures { result ≡ stamped_step place stamp sent }
{
    match sent {
        Sent::Exit => Step::Exit { place, stamp },
        Sent::Go { place } => Step::Go { place, stamp },
        Sent::Lost => Step::Lost,
    }
}
