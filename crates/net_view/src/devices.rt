//! A network with its links, and what is looked up there first: a device by position or name, an access list by name.

ghost use Rattle.std.specs.Prelude.{◌≡◌, ◌==◌, find, slice_get};
ghost use Rattle.std.specs.Option.{option_copied};
ghost use Rattle.net_types.specs.Moves.{list_named};
ghost use Rattle.net_types.specs.Routes.{same_text};

use crate::interfaces::same_text;
use net_types::{AccessList, Config, Links, NetDevice, Network, Text};

/// A network with its links.
#[derive(Clone, Copy)]
pub struct WorldRef<'a> {
    pub network: &'a Network,
    pub links: &'a Links,
}

/// The device at this position.
pub fn device_at<'a>(devices: &'a [NetDevice], position: usize) -> Option<&'a NetDevice>
    ensures { option_copied result ≡ slice_get devices.now position }
{
    devices.get(position)
}

/// The first device of this name.
pub fn device_named<'a>(network: &'a Network, name: u32) -> Option<&'a NetDevice>
    ensures { option_copied result ≡ find (λ d. d.name == name) network.now.devices }
{
    network.devices.as_slice().iter().find(|d| d.name == name)
}

/// The device's first access list of this name, if there is a name and such a list.
pub fn list_named<'a>(config: &'a Config, name: &Option<Text>) -> Option<&'a AccessList>
    ensures { option_copied result ≡ list_named config.now name.now }
{
    let Some(name) = name else {
        return None;
    };
    list_in(config.lists.as_slice(), name.as_bytes())
}

/// The first of the access lists that has this name.
pub fn list_in<'a>(lists: &'a [AccessList], name: &[u8]) -> Option<&'a AccessList>
    ensures { option_copied result ≡ find (λ l. same_text l.name name.now) lists.now }
{
    lists.iter().find(|l| same_text(l.name.as_bytes(), name))
}
