//! The devices to which the walks of a region come.

ghost use Rattle.std.specs.Prelude.{◌↔◌, ◌∷◌, [], IsTrue};
ghost use Rattle.region_walk.specs.Lists.{items_at};
ghost use Rattle.region_walk.specs.Devices.{IsAmong, IsMet};

use crate::level::{Level, states_at};
use crate::visit::Visit;

/// Whether one of the visits at the first levels, so many, is at a place of the device.
pub(crate) fn is_met(visits: &[Visit], levels: &[Level], limit: u8, device: u32) -> bool
    ensures { IsTrue result ↔ IsMet visits.now levels.now limit device }
{
    for n in 0..limit {
        if some_is_at(visits, states_at(levels, n), device) {
            return true;
        }
    }
    false
}

// Whether one of the visits with these numbers is.
fn some_is_at(visits: &[Visit], states: &[usize], device: u32) -> bool
    ensures { IsTrue result ↔ IsAmong device (items_at visits.now states.now) }
{
    for state in states {
        if is_at(visits, *state, device) {
            return true;
        }
    }
    false
}

fn is_at(visits: &[Visit], state: usize, device: u32) -> bool
    ensures { IsTrue result ↔ IsAmong device (items_at visits.now (state ∷ [])) }
{
    if state >= visits.len() {
        return false;
    }
    visits[state].spot.place.device == device
}
