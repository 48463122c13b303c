//! The addresses that translation rules name.

ghost use Rattle.std.specs.Prelude.{Contains, OnOk};
ghost use Rattle.net_types.specs.declared.network.NetDevice.{NetDevice};
ghost use Rattle.change_scope.specs.Translated.{AreNamed, HasMore, IsNamed};

use indexmap::IndexSet;
use net_types::{NatRule, NetDevice, NoMemory};

/// Adds the addresses of all translation rules of the devices.
pub(crate) fn add_addresses(
    devices: &[NetDevice],
    addresses: &mut IndexSet<u32>,
) -> Result<(), NoMemory>
    ensures named { OnOk result ((d : NetDevice) → Contains devices.now d → AreNamed addresses.new.keys d.config.nat) }
    ensures more { OnOk result (HasMore addresses.old.keys addresses.new.keys) }
{
    for device in devices {
        add_rules(device.config.nat.as_slice(), addresses)?;
    }
    Ok(())
}

// Adds the addresses of these rules.
fn add_rules(rules: &[NatRule], addresses: &mut IndexSet<u32>) -> Result<(), NoMemory>
    ensures named { OnOk result (AreNamed addresses.new.keys rules.now) }
    ensures more { OnOk result (HasMore addresses.old.keys addresses.new.keys) }
{
    for rule in rules {
        add_rule(*rule, addresses)?;
    }
    Ok(())
}

// Adds both addresses of the rule.
fn add_rule(rule: NatRule, addresses: &mut IndexSet<u32>) -> Result<(), NoMemory>
    ensures named { OnOk result (IsNamed addresses.new.keys rule) }
    ensures more { OnOk result (HasMore addresses.old.keys addresses.new.keys) }
{
    add_address(addresses, rule.local)?;
    add_address(addresses, rule.global)?;
    Ok(())
}

fn add_address(addresses: &mut IndexSet<u32>, address: u32) -> Result<(), NoMemory>
    ensures added { OnOk result (Contains addresses.new.keys address) }
    ensures more { OnOk result (HasMore addresses.old.keys addresses.new.keys) }
{
    addresses.insert(address)?;
    Ok(())
}
