//! Seats: an interface with its device and its place, found by place, number, name or position.

ghost use Rattle.std.specs.Prelude.{◌≡◌, ◌==◌, position, option_map};
ghost use Rattle.net_types.specs.Routes.{same_text};
ghost use Rattle.net_types.specs.World.{seat_in, seat_at, seat_numbered, seat_named};
ghost use Rattle.net_view.specs.Borrowed.{world_of, seat_of};

use crate::devices::{WorldRef, device_named};
use crate::interfaces::same_text;
use net_types::{Interface, NetDevice, Place};

/// An interface with its device and its place.
#[derive(Clone, Copy)]
pub struct SeatRef<'a> {
    pub place: Place,
    pub device: &'a NetDevice,
    pub interface: &'a Interface,
}

/// The interface at a place: of the first device of its name the first interface of its number.
pub fn seat_at<'a>(w: WorldRef<'a>, p: Place) -> Option<SeatRef<'a>>
    ensures { option_map seat_of result ≡ seat_at (world_of w.entry) p }
{
    let Some(device) = device_named(w.network, p.device) else {
        return None;
    };
    seat_numbered(device, p.interface)
}

/// The device's first interface of this number.
pub fn seat_numbered<'a>(device: &'a NetDevice, number: u32) -> Option<SeatRef<'a>>
    ensures { option_map seat_of result ≡ seat_numbered device.now number }
{
    let Some(position) = position_numbered(device.numbers.as_slice(), number) else {
        return None;
    };
    seat_in(device, position)
}

fn position_numbered(numbers: &[u32], number: u32) -> Option<usize>
    ensures { result ≡ position (λ n. n == number) numbers.now }
{
    numbers.iter().position(|n| *n == number)
}

/// The device's first interface of this name.
pub fn seat_named<'a>(device: &'a NetDevice, name: &[u8]) -> Option<SeatRef<'a>>
    ensures { option_map seat_of result ≡ seat_named device.now name.now }
{
    let Some(position) = position_named(device.config.interfaces.as_slice(), name) else {
        return None;
    };
    seat_in(device, position)
}

fn position_named(interfaces: &[Interface], name: &[u8]) -> Option<usize>
    ensures { result ≡ position (λ i. same_text i.name name.now) interfaces.now }
{
    interfaces
        .iter()
        .position(|i| same_text(i.name.as_bytes(), name))
}

/// The interface at a position of its device, if it has a number there.
pub fn seat_in<'a>(device: &'a NetDevice, position: usize) -> Option<SeatRef<'a>>
    ensures { option_map seat_of result ≡ seat_in device.now position }
{
    let Some(interface) = device.config.interfaces.as_slice().get(position) else {
        return None;
    };
    let Some(number) = device.numbers.as_slice().get(position) else {
        return None;
    };
    Some(SeatRef {
        place: Place {
            device: device.name,
            interface: *number,
        },
        device,
        interface,
    })
}
