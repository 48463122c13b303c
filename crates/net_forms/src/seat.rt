//! How devices and interfaces are found, with their compiled forms.

ghost use Rattle.std.specs.Prelude.{◌≡◌, ◌==◌, IfSome, find, length, option_map, position, slice_get};
ghost use Rattle.std.specs.Option.{option_copied};
ghost use Rattle.net_view.specs.Borrowed.{seat_of, world_of};
ghost use Rattle.net_types.specs.Routes.{same_text};
ghost use Rattle.net_types.specs.World.{seat_at, seat_in, seat_named, seat_numbered};

use crate::forms::{DeviceForm, NetworkForm, SeatForm, Tables};
use link_sends::Wiring;
use net_types::{Interface, NetDevice, Place};
use net_view::{SeatRef, device_at, same_text, seat_in};

/// A device with its functions.
#[derive(Clone, Copy)]
pub struct FormedDevice<'a> {
    pub device: &'a NetDevice,
    pub form: &'a DeviceForm,
}

/// An interface with the functions of its lists.
#[derive(Clone, Copy)]
pub struct FormedSeat<'a> {
    pub seat: SeatRef<'a>,
    pub form: SeatForm,
}

/// An interface of a compiled network, with all that says what becomes of headers there.
#[derive(Clone, Copy)]
pub struct CompiledSeat<'a> {
    /// The functions and fates.
    pub tables: &'a Tables,
    /// The links of the network.
    pub wiring: &'a Wiring<'a>,
    /// The interface.
    pub seat: SeatRef<'a>,
    /// The functions of its device.
    pub device: &'a DeviceForm,
    /// The functions of its lists.
    pub form: SeatForm,
}

ghost use Rattle.net_forms.specs.Forms.{IsFormOfSeat, IsSeatForm};
ghost use Rattle.net_forms.specs.Networks.{IsFormIn, IsIndexed, IsNetworkForm};
ghost use Rattle.net_forms.specs.Seats.{IsCompiledSeat, StandsIn};

impl<'a> CompiledSeat<'a> {
    /// The device's first interface of that name.
    pub fn named(self, name: &[u8]) -> Option<FormedSeat<'a>>
        requires { IsCompiledSeat self }
        ensures seat { option_map (λ o. seat_of o.seat) result ≡ seat_named self.entry.seat.device.now name.now }
        ensures form { IfSome result (λ o. IsSeatForm self.entry.tables.now.diagrams self.entry.seat.device.now.config o.seat.interface.now o.form) }
    {
        let formed = FormedDevice {
            device: self.seat.device,
            form: self.device,
        };
        formed_named(formed, name)
    }
}

/// What stands at a place of a network that is compiled in these tables.
pub fn seat_at<'a>(
    tables: &'a Tables,
    network: &'a NetworkForm<'a>,
    place: Place,
) -> Option<CompiledSeat<'a>>
    requires { IsNetworkForm tables.now.diagrams tables.now.fates network.now }
    ensures seat { option_map (λ s. seat_of s.seat) result ≡ seat_at (world_of network.now.world) place }
    ensures stands { IfSome result (StandsIn (world_of network.now.world)) }
    ensures tables { IfSome result (λ s. s.tables.now ≡ tables.now) }
{
    let Some(formed) = device_named(network, place.device) else {
        return None;
    };
    let Some(one) = formed_numbered(formed, place.interface) else {
        return None;
    };
    Some(CompiledSeat {
        tables,
        wiring: &network.wiring,
        seat: one.seat,
        device: formed.form,
        form: one.form,
    })
}

/// The first device of that name.
pub fn device_named<'a>(network: &'a NetworkForm<'a>, name: u32) -> Option<FormedDevice<'a>>
    requires { IsIndexed network.now }
    ensures device { option_map (λ d. d.device.now) result ≡ find (λ d. d.name == name) network.now.world.network.now.devices }
    ensures form { IfSome result (λ d. IsFormIn network.now d.device.now d.form.now) }
{
    let Some(n) = network.wiring.device_position(name) else {
        return None;
    };
    let Some(device) = device_at(network.world.network.devices.as_slice(), n) else {
        return None;
    };
    let Some(form) = form_at(&network.devices, n) else {
        return None;
    };
    Some(FormedDevice { device, form })
}

fn form_at<'a>(forms: &'a [DeviceForm], n: usize) -> Option<&'a DeviceForm>
    ensures { option_copied result ≡ slice_get forms.now n }
{
    forms.get(n)
}

/// The device's interface at the first position that has this number.
pub fn formed_numbered<'a>(formed: FormedDevice<'a>, number: u32) -> Option<FormedSeat<'a>>
    requires { length formed.form.now.seats.items ≡ length formed.device.now.config.interfaces }
    ensures seat { option_map (λ v. seat_of v.seat) result ≡ seat_numbered formed.entry.device.now number }
    ensures formed { IfSome result (λ v. IsFormOfSeat formed.entry.device.now formed.entry.form.now (seat_of v.seat) v.form) }
{
    let Some(i) = number_position(formed.device.numbers.as_slice(), number) else {
        return None;
    };
    formed_in(formed, i)
}

fn number_position(numbers: &[u32], number: u32) -> Option<usize>
    ensures { result ≡ position (λ n. n == number) numbers.now }
{
    numbers.iter().position(|n| *n == number)
}

/// The device's first interface of that name.
pub fn formed_named<'a>(formed: FormedDevice<'a>, name: &[u8]) -> Option<FormedSeat<'a>>
    requires { length formed.form.now.seats.items ≡ length formed.device.now.config.interfaces }
    ensures seat { option_map (λ v. seat_of v.seat) result ≡ seat_named formed.entry.device.now name.now }
    ensures formed { IfSome result (λ v. IsFormOfSeat formed.entry.device.now formed.entry.form.now (seat_of v.seat) v.form) }
{
    let Some(i) = name_position(formed.device.config.interfaces.as_slice(), name) else {
        return None;
    };
    formed_in(formed, i)
}

fn name_position(interfaces: &[Interface], name: &[u8]) -> Option<usize>
    ensures { result ≡ position (λ i. same_text i.name name.now) interfaces.now }
{
    interfaces
        .iter()
        .position(|i| same_text(i.name.as_bytes(), name))
}

// The interface at a position of its device.
fn formed_in<'a>(formed: FormedDevice<'a>, i: usize) -> Option<FormedSeat<'a>>
    requires { length formed.form.now.seats.items ≡ length formed.device.now.config.interfaces }
    ensures seat { option_map (λ v. seat_of v.seat) result ≡ seat_in formed.entry.device.now i }
    ensures formed { IfSome result (λ v. IsFormOfSeat formed.entry.device.now formed.entry.form.now (seat_of v.seat) v.form) }
{
    let Some(seat) = seat_in(formed.device, i) else {
        return None;
    };
    let Some(form) = seat_form_at(&formed.form.seats, i) else {
        return None;
    };
    Some(FormedSeat { seat, form })
}

fn seat_form_at(forms: &[SeatForm], i: usize) -> Option<SeatForm>
    ensures { result ≡ slice_get forms.now i }
{
    forms.get(i).copied()
}
