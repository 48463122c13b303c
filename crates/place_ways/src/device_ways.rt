//! The ways of the places of one device, found anew.

ghost use Rattle.std.specs.Prelude.{◌≡◌, None, IfOk, IfSome, OnOk, length, option_map};
ghost use Rattle.hdr_bits.specs.Lists.{Extends};
ghost use Rattle.indexmap.specs.IndexMap.{get};
ghost use Rattle.cube_diagram.specs.Functions.{Keeps};
ghost use Rattle.net_types.specs.World.{same_place, seat_numbered};
ghost use Rattle.net_view.specs.Borrowed.{seat_of};
ghost use Rattle.place_ways.specs.Devices.{IsSeatIn, IsSeatPosition, IsWiredDevice, PutsDevice, PutsSeat};
ghost use Rattle.place_ways.specs.Places.{AreBases};

use crate::base::{Bases, seat_position};
use crate::seat::WaySeat;
use crate::ways::{NetworkWays, put_position};
use cube_diagram::Diagrams;
use device_fates::Fates;
use link_sends::Wiring;
use net_forms::{DeviceForm, FormedDevice, formed_numbered};
use net_types::{NetDevice, NoMemory, Place};
use set_walk::PlaceWays;
use std::alloc::Global;

/// A compiled device, with the links over which it sends, and the headers for which its ways are told.
#[derive(Clone, Copy)]
pub struct WiredDevice<'a> {
    /// What devices do with destinations, by numbers.
    pub fates: &'a Fates,
    pub wiring: &'a Wiring<'a>,
    pub device: &'a NetDevice,
    /// The functions of the device.
    pub form: &'a DeviceForm,
    /// The headers for which ways are told, a set of the table.
    pub scope: u32,
}

/// Puts the ways of the device's interfaces behind the others, and gives the place of each the position of its own. Every other
/// place keeps its position, and every position its ways.
///
/// # Errors
///
/// There was no memory. Then ways that no place has may stand behind the others, and some places may have new positions.
pub fn put_device<'a>(
    alloc: Global,
    table: &mut Diagrams,
    at: WiredDevice<'a>,
    ways: &mut NetworkWays,
) -> Result<(), NoMemory>
    requires { IsWiredDevice table.old at }
    ensures put { OnOk result (PutsDevice at.entry.wiring.now table.new at.entry.scope ways.new.lists.items at.entry.device.now (get same_place ways.old.positions) (get same_place ways.new.positions)) }
    ensures lists { Extends ways.old.lists.items ways.new.lists.items }
    ensures kept { Keeps table.old table.new }
{
    let mut bases = Bases {
        inside: None,
        other: None,
    };
    for number in at.device.numbers.as_slice() {
        put_seat(alloc, table, at, *number, &mut bases, ways)?;
    }
    Ok(())
}

// Those of the interface of this number, if there is one.
fn put_seat<'a>(
    alloc: Global,
    table: &mut Diagrams,
    at: WiredDevice<'a>,
    number: u32,
    bases: &mut Bases,
    ways: &mut NetworkWays,
) -> Result<(), NoMemory>
    requires at { IsWiredDevice table.old at }
    requires bases { AreBases at.wiring.now table.old at.scope ways.old.lists.items at.device.now bases.old }
    ensures put { OnOk result (PutsSeat at.entry.wiring.now table.new at.entry.scope ways.new.lists.items at.entry.device.now number (get same_place ways.old.positions) (get same_place ways.new.positions)) }
    ensures bases { OnOk result (AreBases at.entry.wiring.now table.new at.entry.scope ways.new.lists.items at.entry.device.now bases.new) }
    ensures lists { Extends ways.old.lists.items ways.new.lists.items }
    ensures kept { Keeps table.old table.new }
{
    let position = position_numbered(alloc, table, at, number, bases, &mut ways.lists)?;
    let place = Place {
        device: at.device.name,
        interface: number,
    };
    put_position(&mut ways.positions, place, position)?;
    Ok(())
}

// The position of the ways of the interface of this number, if there is one.
fn position_numbered<'a>(
    alloc: Global,
    table: &mut Diagrams,
    at: WiredDevice<'a>,
    number: u32,
    bases: &mut Bases,
    lists: &mut Vec<PlaceWays>,
) -> Result<Option<usize>, NoMemory>
    requires at { IsWiredDevice table.old at }
    requires bases { AreBases at.wiring.now table.old at.scope lists.old.items at.device.now bases.old }
    ensures position { IfOk result (IsSeatPosition at.entry.wiring.now table.new at.entry.scope lists.new.items (seat_numbered at.entry.device.now number)) }
    ensures bases { OnOk result (AreBases at.entry.wiring.now table.new at.entry.scope lists.new.items at.entry.device.now bases.new) }
    ensures lists { Extends lists.old.items lists.new.items }
    ensures kept { Keeps table.old table.new }
{
    let Some(seat) = seat_of_number(at, number) else {
        return Ok(None);
    };
    let position = seat_position(alloc, table, seat, bases, lists)?;
    Ok(Some(position))
}

fn seat_of_number<'a>(at: WiredDevice<'a>, number: u32) -> Option<WaySeat<'a>>
    requires { length at.form.now.seats.items ≡ length at.device.now.config.interfaces }
    ensures seat { option_map (λ s. seat_of s.seat) result ≡ seat_numbered at.entry.device.now number }
    ensures form { IfSome result (IsSeatIn at.entry) }
{
    let formed = FormedDevice {
        device: at.device,
        form: at.form,
    };
    let Some(one) = formed_numbered(formed, number) else {
        return None;
    };
    Some(WaySeat {
        fates: at.fates,
        wiring: at.wiring,
        seat: one.seat,
        device: at.form,
        form: one.form,
        scope: at.scope,
    })
}
