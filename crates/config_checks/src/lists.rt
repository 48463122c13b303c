//! Access lists: those that interfaces name, those that nothing names, and masks where wildcards are usual.
ghost use Rattle.std.specs.Prelude.{◌≡◌, ◌++◌, OnOk, flat_map};
ghost use Rattle.std.specs.List.{list_any};
ghost use Rattle.net_types.specs.Moves.{list_named};
ghost use Rattle.config_checks.specs.Findings.{
  list_findings,
  named_for,
  named_findings,
  interface_findings,
  is_name,
  names_list,
  is_unused,
  unused_findings,
  is_mask_like,
  field_findings,
  entry_findings,
  wildcard_findings,
};

use crate::shut::check_shut;
use crate::{AddressField, ConfigFinding, Direction};
use ios_words::mask_length;
use net_types::{AccessList, Config, Duplicate, Entry, Interface, Masked, NoMemory, Text};
use net_view::{list_named, same_text};
use std::alloc::Global;
use topo_links::NameIndex;

/// What is odd in the lists that an interface names, and in what is below it where it is shut.
pub fn check_interface(
    alloc: Global,
    config: &Config,
    interface: &Interface,
    found: &mut Vec<ConfigFinding>,
) -> Result<(), NoMemory>
    ensures { OnOk result (found.new.items ≡ found.old.items ++ interface_findings config.now interface.now) }
{
    check_named(alloc, config, interface, Direction::Input, found)?;
    check_named(alloc, config, interface, Direction::Output, found)?;
    check_shut(alloc, config, interface, found)
}

/// The list that an interface names for a direction.
fn named(interface: &Interface, direction: Direction) -> &Option<Text>
    ensures { result.now ≡ named_for interface.now direction }
{
    match direction {
        Direction::Input => &interface.input,
        Direction::Output => &interface.output,
    }
}

/// What is odd in the list of a direction.
fn check_named(
    alloc: Global,
    config: &Config,
    interface: &Interface,
    direction: Direction,
    found: &mut Vec<ConfigFinding>,
) -> Result<(), NoMemory>
    ensures { OnOk result (found.new.items ≡ found.old.items ++ named_findings config.now interface.now.name direction (named_for interface.now direction)) }
{
    let name = named(interface, direction);
    let Some(list) = name else {
        return Ok(());
    };
    match list_named(config, name) {
        None => found.push(ConfigFinding::NoList {
            interface: interface.name.copy(alloc)?,
            direction,
            list: list.copy(alloc)?,
        })?,
        Some(there) => {
            if there.entries.as_slice().is_empty() {
                found.push(ConfigFinding::EmptyList {
                    interface: interface.name.copy(alloc)?,
                    direction,
                    list: list.copy(alloc)?,
                })?;
            }
        }
    }
    Ok(())
}

/// Whether it is this name.
fn is_name(name: &Text, other: &Option<Text>) -> bool
    ensures { result ≡ is_name name.now other.now }
{
    match other {
        None => false,
        Some(other) => same_text(other.as_bytes(), name.as_bytes()),
    }
}

/// Whether the interface names the list.
fn names_list(interface: &Interface, name: &Text) -> bool
    ensures { result ≡ names_list name.now interface.now }
{
    is_name(name, &interface.input) || is_name(name, &interface.output)
}

/// Whether one of the interfaces names the list.
fn is_named(interfaces: &[Interface], name: &Text) -> bool
    ensures { result ≡ list_any (names_list name.now) interfaces.now }
{
    interfaces.iter().any(|i| names_list(i, name))
}

/// Tells of a list that nothing names.
pub fn check_use(
    alloc: Global,
    config: &Config,
    elsewhere: &NameIndex,
    list: &AccessList,
    found: &mut Vec<ConfigFinding>,
) -> Result<(), NoMemory>
    ensures { OnOk result (found.new.items ≡ found.old.items ++ unused_findings config.now elsewhere.now list.now) }
{
    if is_named(config.interfaces.as_slice(), &list.name) || elsewhere.has(&list.name) {
        return Ok(());
    }
    let list = list.name.copy(alloc)?;
    found.push(ConfigFinding::UnusedList { list })?;
    Ok(())
}

/// Whether a wildcard is what a mask of 1 to 31 bits is.
#[tactic(auto, unfolding(crate::specs::Findings::is_mask_like))]
fn is_mask_like(wild: u32) -> bool
    ensures { result ≡ is_mask_like wild }
{
    match mask_length(wild) {
        None => false,
        Some(length) => 0 < length && length < 32,
    }
}

/// Tells of a mask that stands as the wildcard of an entry.
fn check_field(
    alloc: Global,
    list: &Text,
    sequence: u32,
    field: AddressField,
    address: Masked,
    found: &mut Vec<ConfigFinding>,
) -> Result<(), NoMemory>
    ensures { OnOk result (found.new.items ≡ found.old.items ++ field_findings list.now sequence field address) }
{
    if is_mask_like(address.wild) {
        found.push(ConfigFinding::MaskAsWildcard {
            list: list.copy(alloc)?,
            sequence,
            field,
            address,
        })?;
    }
    Ok(())
}

/// Tells of both addresses of an entry.
fn check_entry(
    alloc: Global,
    list: &Text,
    entry: &Entry,
    found: &mut Vec<ConfigFinding>,
) -> Result<(), NoMemory>
    ensures { OnOk result (found.new.items ≡ found.old.items ++ entry_findings list.now entry.now) }
{
    let sequence = entry.sequence;
    check_field(
        alloc,
        list,
        sequence,
        AddressField::Source,
        entry.src,
        found,
    )?;
    check_field(
        alloc,
        list,
        sequence,
        AddressField::Destination,
        entry.dst,
        found,
    )
}

/// Tells of all entries of a list.
pub fn check_wildcards(
    alloc: Global,
    list: &AccessList,
    found: &mut Vec<ConfigFinding>,
) -> Result<(), NoMemory>
    ensures { OnOk result (found.new.items ≡ found.old.items ++ wildcard_findings list.now) }
{
    for entry in list.entries.as_slice() {
        check_entry(alloc, &list.name, entry, found)?;
    }
    Ok(())
}
