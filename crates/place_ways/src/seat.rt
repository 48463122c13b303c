//! A compiled network, and an interface of one, whose functions stand in a table that grows.

ghost use Rattle.std.specs.Prelude.{◌≡◌, IfSome, length, option_map};
ghost use Rattle.net_view.specs.Borrowed.{seat_of, world_of};
ghost use Rattle.net_types.specs.World.{seat_at, seat_named};

use device_fates::Fates;
use link_sends::Wiring;
use net_forms::{
    DeviceForm, FormedDevice, FormedSeat, NetworkForm, SeatForm, device_named, formed_named,
    formed_numbered,
};
use net_types::Place;
use net_view::SeatRef;

/// An interface of a compiled network, with all that says what becomes of headers there.
#[derive(Clone, Copy)]
pub(crate) struct WaySeat<'a> {
    /// What devices do with destinations, by numbers.
    pub(crate) fates: &'a Fates,
    /// The links of the network.
    pub(crate) wiring: &'a Wiring<'a>,
    /// The interface.
    pub(crate) seat: SeatRef<'a>,
    /// The functions of its device.
    pub(crate) device: &'a DeviceForm,
    /// The functions of its lists.
    pub(crate) form: SeatForm,
    /// The headers for which ways are told, a set of the table.
    pub(crate) scope: u32,
}

/// A compiled network whose functions stand in a table that grows.
#[derive(Clone, Copy)]
pub(crate) struct ScopedNetwork<'a> {
    /// What devices do with destinations, by numbers.
    pub(crate) fates: &'a Fates,
    /// The network, with the functions of its devices.
    pub(crate) form: &'a NetworkForm<'a>,
    /// The headers for which ways are told, a set of the table.
    pub(crate) scope: u32,
}

ghost use Rattle.net_forms.specs.Forms.{IsFormOfSeat};
ghost use Rattle.net_forms.specs.Networks.{IsIndexed};
ghost use Rattle.place_ways.specs.Seats.{AreCounted, IsSeatOf};

/// The device's first interface of that name.
pub(crate) fn out_named<'a>(at: WaySeat<'a>, name: &[u8]) -> Option<FormedSeat<'a>>
    requires { length at.device.now.seats.items ≡ length at.seat.device.now.config.interfaces }
    ensures seat { option_map (λ o. seat_of o.seat) result ≡ seat_named at.entry.seat.device.now name.now }
    ensures form { IfSome result (λ o. IsFormOfSeat at.entry.seat.device.now at.entry.device.now (seat_of o.seat) o.form) }
{
    let formed = FormedDevice {
        device: at.seat.device,
        form: at.device,
    };
    formed_named(formed, name)
}

/// What stands at a place of a compiled network.
pub(crate) fn seat_at<'a>(network: ScopedNetwork<'a>, place: Place) -> Option<WaySeat<'a>>
    requires counts { AreCounted network.form.now }
    requires indexed { IsIndexed network.form.now }
    ensures seat { option_map (λ s. seat_of s.seat) result ≡ seat_at (world_of network.entry.form.now.world) place }
    ensures form { IfSome result (IsSeatOf network.entry.form.now) }
    ensures fates { IfSome result (λ s. s.fates.now ≡ network.entry.fates.now) }
    ensures scope { IfSome result (λ s. s.scope ≡ network.entry.scope) }
{
    let Some(formed) = device_named(network.form, place.device) else {
        return None;
    };
    let Some(one) = formed_numbered(formed, place.interface) else {
        return None;
    };
    Some(WaySeat {
        fates: network.fates,
        wiring: &network.form.wiring,
        seat: one.seat,
        device: formed.form,
        form: one.form,
        scope: network.scope,
    })
}
