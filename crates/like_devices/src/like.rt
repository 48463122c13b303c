//! The devices that are equal in two networks and send alike in both, by their names.

ghost use Rattle.std.specs.Prelude.{◌≡◌, ◌==◌, ℕ, true, All, Contains, IfOk, find};
ghost use Rattle.std.specs.Option.{option_copied};
ghost use Rattle.net_view.specs.Borrowed.{world_of};
ghost use Rattle.link_sends.specs.Sending.{SendAlike};
ghost use Rattle.like_devices.specs.Like.{IsLike};

use device_equality::same_device;
use indexmap::IndexSet;
use link_sends::Wiring;
use net_types::{NetDevice, NoMemory, Place};
use net_view::{WorldRef, device_at};
use std::alloc::Global;

/// The names of devices that do the same in both worlds with whatever arrives: such as are equal in both and send alike.
/// The wirings are those of the worlds.
pub fn like_devices(
    alloc: Global,
    old: WorldRef,
    new: WorldRef,
    before: &Wiring,
    after: &Wiring,
) -> Result<IndexSet<u32>, NoMemory>
    requires before { before.now ≡ world_of old }
    requires after { after.now ≡ world_of new }
    ensures { IfOk result (λ names. All (IsLike (world_of old.entry) (world_of new.entry)) names.keys) }
{
    let mut names = IndexSet::new(alloc);
    for device in old.network.devices.as_slice() {
        if !is_like(old, new, before, after, device.name) {
            continue;
        }
        names.insert(device.name)?;
    }
    Ok(names)
}

// Whether the device of this name is known to do the same in both worlds.
fn is_like(old: WorldRef, new: WorldRef, before: &Wiring, after: &Wiring, name: u32) -> bool
    requires before { before.now ≡ world_of old }
    requires after { after.now ≡ world_of new }
    ensures { result ≡ true → IsLike (world_of old.entry) (world_of new.entry) name }
{
    let Some(a) = device_named(before, old.network.devices.as_slice(), name) else {
        return false;
    };
    let Some(b) = device_named(after, new.network.devices.as_slice(), name) else {
        return false;
    };
    if !same_device(a, b) {
        return false;
    }
    send_alike(before, after, a.name, a.numbers.as_slice())
}

// The first device of that name. The wiring is that of the devices.
fn device_named<'a>(wiring: &Wiring, devices: &'a [NetDevice], name: u32) -> Option<&'a NetDevice>
    requires { devices.now ≡ wiring.now.network.devices }
    ensures { option_copied result ≡ find (λ d. d.name == name) devices.now }
{
    let Some(position) = wiring.device_position(name) else {
        return None;
    };
    device_at(devices, position)
}

/// Whether the device's interfaces with these numbers are known to send alike in both worlds. A false answer says nothing.
pub fn send_alike(before: &Wiring, after: &Wiring, device: u32, numbers: &[u32]) -> bool
    ensures { result ≡ true → (n : ℕ) → Contains numbers.now n → SendAlike before.now after.now (record { device = device; interface = n }) }
{
    for number in numbers {
        let place = Place {
            device,
            interface: *number,
        };
        if !before.sends_alike(after, place) {
            return false;
        }
    }
    true
}

/// Whether the name is among these.
pub fn has_name(names: &IndexSet<u32>, name: u32) -> bool
    ensures { result ≡ true → Contains names.now.keys name }
{
    let Some((_, found)) = names.get_full(&name) else {
        return false;
    };
    *found == name
}
