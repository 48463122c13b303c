//! The device that an edit changes, as it is after it.

ghost use Rattle.std.specs.Prelude.{◌≡◌, ◌<◌, position, length, slice_get, slice_set, IfOk, IfErr, Some};
ghost use Rattle.net_types.specs.declared.network.NetDevice.{NetDevice};
ghost use Rattle.incr_review.specs.Edited.{IsFailOf, device_of, device_edited, edited, is_named};

use crate::edits::{Edit, EditFail, EditKind};
use crate::rules::edit_rules;
use net_types::{Duplicate, List, NetDevice, Network};
use std::alloc::Global;
use std::mem;

/// A device as it is after an edit, with its position in the network.
#[derive(Drop)]
pub struct EditedDevice {
    pub position: usize,
    pub device: NetDevice,
}

/// The device that the edit changes, as it is after the edit: put at its position it makes the edited network.
///
/// An edit is refused with the first of these causes that is there: the network has no device of the number, the device has no
/// list of the name, the list has the sequence of an added entry or no entry of a dropped one, the device has no route that is
/// equal to a dropped one. Other kinds are not answered.
pub fn edited_device(
    alloc: Global,
    network: &Network,
    edit: &Edit,
) -> Result<EditedDevice, EditFail>
    ensures within { IfOk result (λ r. r.position < length network.now.devices) }
    ensures first { IfOk result (λ r. position (is_named (device_of edit.now)) network.now.devices ≡ Some r.position) }
    ensures device { IfOk result (λ r. (x : NetDevice) → slice_get network.now.devices r.position ≡ Some x → device_edited edit.now x ≡ Ok r.device) }
    ensures ok { IfOk result (λ r. edited edit.now network.now ≡ Ok (record { devices = slice_set network.now.devices r.position r.device })) }
    ensures fail { IfErr result (IsFailOf (edited edit.now network.now)) }
{
    let devices = network.devices.as_slice();
    let Some(position) = device_position(devices, edit.device()) else {
        return Err(EditFail::Refused {
            kind: EditKind::UnknownDevice,
        });
    };
    let device = edited_at(alloc, &devices[position], edit)?;
    Ok(EditedDevice { position, device })
}

/// Puts the device at its position, and answers the one that was there.
pub(crate) fn swap_device(
    alloc: Global,
    network: &mut Network,
    changed: EditedDevice,
) -> EditedDevice
    requires { changed.position < length network.old.devices }
    ensures network { network.new ≡ record { devices = slice_set network.old.devices changed.position changed.device } }
    ensures position { result.position ≡ changed.position }
    ensures device { slice_get network.old.devices changed.position ≡ Some result.device }
{
    let EditedDevice { position, device } = changed;
    let mut devices = mem::replace(&mut network.devices, List::empty(alloc)).into_vec();
    let before = mem::replace(&mut devices[position], device);
    network.devices = List::new(devices);
    EditedDevice {
        position,
        device: before,
    }
}

fn device_position(devices: &[NetDevice], number: u32) -> Option<usize>
    ensures { result ≡ position (is_named number) devices.now }
{
    devices.iter().position(|device| device.name == number)
}

fn edited_at(alloc: Global, device: &NetDevice, edit: &Edit) -> Result<NetDevice, EditFail>
    ensures ok { IfOk result (λ r. device_edited edit.now device.now ≡ Ok r) }
    ensures fail { IfErr result (IsFailOf (device_edited edit.now device.now)) }
{
    let mut copy = device.copy(alloc)?;
    edit_rules(alloc, &mut copy.config, edit)?;
    Ok(copy)
}
