//! Lists by where they stand in the networks.

ghost use Rattle.std.specs.Prelude.{◌≡◌, slice_get};
ghost use Rattle.std.specs.Option.{option_copied};
ghost use Rattle.list_tables.specs.Made.{devices_of, list_at};

use net_forms::Version;
use net_types::{AccessList, NetDevice};
use net_view::device_at;

/// The devices of two networks. Where one is compiled alone it is the old one, and the new one has none.
#[derive(Clone, Copy)]
pub(crate) struct BothDevices<'a> {
    pub(crate) old: &'a [NetDevice],
    pub(crate) new: &'a [NetDevice],
}

/// Where a list stands: in which network, and at which positions its device and the list itself.
#[derive(Clone, Copy)]
pub(crate) struct ListPosition {
    pub(crate) version: Version,
    pub(crate) device: usize,
    pub(crate) list: usize,
}

/// The devices of one of the networks.
pub(crate) fn devices_of<'a>(both: BothDevices<'a>, version: Version) -> &'a [NetDevice]
    ensures { result.now ≡ devices_of both.entry version }
{
    match version {
        Version::Old => both.old,
        Version::New => both.new,
    }
}

/// The list that stands there, if one does.
pub(crate) fn list_at<'a>(both: BothDevices<'a>, at: ListPosition) -> Option<&'a AccessList>
    ensures { option_copied result ≡ list_at (devices_of both.entry at.version) at }
{
    let devices = devices_of(both, at.version);
    let Some(device) = device_at(devices, at.device) else {
        return None;
    };
    list_in(device.config.lists.as_slice(), at.list)
}

fn list_in(lists: &[AccessList], position: usize) -> Option<&AccessList>
    ensures { option_copied result ≡ slice_get lists.now position }
{
    lists.get(position)
}
