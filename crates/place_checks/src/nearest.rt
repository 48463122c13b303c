//! The place with the nearest name, for one that isn't there.
ghost use Rattle.std.specs.Prelude.{◌≡◌, ◌<◌, ◌≤◌, IfOk, IfSome, find, length, position};
ghost use Rattle.std.specs.Char.{is_ascii_digit};
ghost use Rattle.std.specs.Option.{option_copied};
ghost use Rattle.place_checks.specs.Nearest.{
  is_alike,
  letters,
  has_number,
  is_short_for,
  short_of_interface,
  number_of_interface,
  near_interface,
  near_device,
  near_in_device,
  near_in,
};
ghost use Rattle.place_checks.specs.Index.{place_in, AreDevices, IsNet};
ghost use Rattle.place_checks.specs.Sights.{folder_of};

use crate::devices::Devices;
use crate::nets::Net;
use crate::place::PlaceRef;
use net_types::{Duplicate, Interface, Loaded, NoMemory, Text};
use std::alloc::Global;

/// Whether they are the same but for case.
fn is_alike(name: &[u8], other: &[u8]) -> bool
    ensures { result ≡ is_alike name.now other.now }
{
    name.eq_ignore_ascii_case(other)
}

/// The place of the first digit.
fn first_digit(name: &[u8]) -> Option<usize>
    ensures value { result ≡ position is_ascii_digit name.now }
    ensures within { IfSome result (λ i. i < length name.now) }
{
    name.iter().position(|b| b.is_ascii_digit())
}

/// The place of the first digit, or the length where there is none.
fn letters(name: &[u8]) -> usize
    ensures value { result ≡ letters name.now }
    ensures within { result ≤ length name.now }
{
    match first_digit(name) {
        None => name.len(),
        Some(place) => place,
    }
}

/// Whether a name has what is written from the first digit on.
fn has_number(written: &[u8], name: &[u8]) -> bool
    ensures { result ≡ has_number written.now name.now }
{
    written[letters(written)..] == name[letters(name)..]
}

/// Whether what is written is short for a name.
fn is_short_for(written: &[u8], name: &[u8]) -> bool
    ensures { result ≡ is_short_for written.now name.now }
{
    if !has_number(written, name) {
        return false;
    }
    let count = letters(written);
    let front = &name[..letters(name)];
    let begin = if count < front.len() {
        &front[..count]
    } else {
        front
    };
    is_alike(&written[..count], begin)
}

/// The first interface that the name is short for.
fn first_short<'a>(written: &[u8], interfaces: &'a [Interface]) -> Option<&'a Interface>
    ensures { option_copied result ≡ find (short_of_interface written.now) interfaces.now }
{
    interfaces
        .iter()
        .find(|i| is_short_for(written, i.name.as_bytes()))
}

/// The first interface with the number of the name.
fn first_numbered<'a>(written: &[u8], interfaces: &'a [Interface]) -> Option<&'a Interface>
    ensures { option_copied result ≡ find (number_of_interface written.now) interfaces.now }
{
    interfaces
        .iter()
        .find(|i| has_number(written, i.name.as_bytes()))
}

/// The first interface that the name is short for, else the first with its number.
fn near_interface<'a>(written: &[u8], interfaces: &'a [Interface]) -> Option<&'a Interface>
    ensures { option_copied result ≡ near_interface written.now interfaces.now }
{
    match first_short(written, interfaces) {
        Some(interface) => Some(interface),
        None => first_numbered(written, interfaces),
    }
}

/// The first device of a name that is the same but for case.
fn alike_device<'a>(folder: &'a [Loaded], name: &[u8]) -> Option<&'a Loaded>
    ensures { option_copied result ≡ find (λ l. is_alike name.now l.config.hostname) folder.now }
{
    folder
        .iter()
        .find(|l| is_alike(name, l.config.hostname.as_bytes()))
}

/// The device of a name, else the first whose name is the same but for case.
fn near_device<'a>(devices: &Devices<'a>, name: &Text) -> Option<&'a Loaded>
    requires { AreDevices devices.now }
    ensures { option_copied result ≡ near_device devices.now.folder.now name.now }
{
    match devices.get(name) {
        Some(device) => Some(device),
        None => alike_device(devices.folder, name.as_bytes()),
    }
}

/// The nearest place of a network.
pub fn near_in(alloc: Global, net: &Net, place: PlaceRef) -> Result<Option<(Text, Text)>, NoMemory>
    requires { IsNet net.now }
    ensures { IfOk result (λ near. near ≡ near_in (folder_of net.now) (place_in place.entry)) }
{
    let Some(device) = near_device(&net.devices, place.device) else {
        return Ok(None);
    };
    let interfaces = device.config.interfaces.as_slice();
    let Some(interface) = near_interface(place.interface.as_bytes(), interfaces) else {
        return Ok(None);
    };
    let host = device.config.hostname.copy(alloc)?;
    Ok(Some((host, interface.name.copy(alloc)?)))
}
