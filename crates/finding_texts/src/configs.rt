//! Findings about a configuration.
ghost use Rattle.std.specs.Prelude.{◌≡◌, ◌++◌, OnOk};
ghost use Rattle.finding_texts.specs.ConfigTexts.{config_text, direction_text, field_text, host_text, masked_text, named_text, prefix_text, route_text, way_text};

use crate::adding::append_text;
use config_checks::{AddressField, ConfigFinding, Direction};
use net_types::{Masked, NoMemory, Subnet, Text};
use report_text::{append, append_address, append_number};

const IS_OWN: &[u8] = b": the next hop is the device itself, so it is never valid";

const NOWHERE: &[u8] = b": no route holds the next hop, so it isn't valid";

const BY_DEFAULT: &[u8] = b": only a default holds the next hop, so it goes where that leads";

const BY_ITSELF: &[u8] =
    b": the next hop is looked up in the route's own prefix, so one of the choices is a drop";

const IS_BROADCAST: &[u8] =
    b": the next hop is a broadcast or multicast address, which no neighbour has";

/// A finding.
pub fn append_config(out: &mut Vec<u8>, finding: &ConfigFinding) -> Result<(), NoMemory>
    ensures { OnOk result (out.new.items ≡ out.old.items ++ config_text finding.now) }
{
    match finding {
        ConfigFinding::NoList {
            interface,
            direction,
            list,
        } => {
            append_named(out, interface, *direction, list)?;
            append(out, b", which isn't there: every packet passes")
        }
        ConfigFinding::EmptyList {
            interface,
            direction,
            list,
        } => {
            append_named(out, interface, *direction, list)?;
            append(out, b", which has no entry: every packet passes")
        }
        ConfigFinding::UnusedList { list } => append_unused(out, list),
        ConfigFinding::MaskAsWildcard {
            list,
            sequence,
            field,
            address,
        } => append_mask(out, list, *sequence, *field, *address),
        ConfigFinding::NoInside => append(
            out,
            b"address translation without an interface inside that is up",
        ),
        ConfigFinding::NoOutside => append(
            out,
            b"address translation without an interface outside that is up",
        ),
        ConfigFinding::NotInside { local } => append_host(out, *local, b"inside"),
        ConfigFinding::NotOutside { global } => append_host(out, *global, b"outside"),
        ConfigFinding::ShutAbove { main, below } => append_shut(out, main, below),
        _ => append_route(out, finding),
    }
}

/// A host that isn't behind its side.
fn append_host(out: &mut Vec<u8>, address: u32, side: &[u8]) -> Result<(), NoMemory>
    ensures { OnOk result (out.new.items ≡ out.old.items ++ (host_text address ++ side.now)) }
{
    append(out, b"address translation of ")?;
    append_address(out, address)?;
    append(out, b", to which no route leads out of an interface ")?;
    append(out, side)
}

/// What is odd with a route; nothing of another finding.
fn append_route(out: &mut Vec<u8>, finding: &ConfigFinding) -> Result<(), NoMemory>
    ensures { OnOk result (out.new.items ≡ out.old.items ++ route_text finding.now) }
{
    match finding {
        ConfigFinding::NextIsOwn { prefix, next } => { append_next(out, *prefix, *next, IS_OWN) }
        ConfigFinding::NextNowhere { prefix, next } => { append_next(out, *prefix, *next, NOWHERE) }
        ConfigFinding::NextByDefault { prefix, next } => {
            append_next(out, *prefix, *next, BY_DEFAULT)
        }
        ConfigFinding::NextByItself { prefix, next } => {
            append_next(out, *prefix, *next, BY_ITSELF)
        }
        ConfigFinding::NextIsBroadcast { prefix, next } => {
            append_next(out, *prefix, *next, IS_BROADCAST)
        }
        ConfigFinding::PortAlone { prefix, interface } => append_port(out, *prefix, interface),
        ConfigFinding::NextElsewhere {
            prefix,
            interface,
            next,
        } => append_elsewhere(out, *prefix, interface, *next),
        ConfigFinding::NeverFloats {
            prefix,
            distance,
            next,
        } => append_floating(out, *prefix, *distance, *next),
        _ => Ok(()),
    }
}

/// An entry with a mask for a wildcard.
fn append_mask(
    out: &mut Vec<u8>,
    list: &Text,
    sequence: u32,
    field: AddressField,
    address: Masked,
) -> Result<(), NoMemory>
    ensures { OnOk result (out.new.items ≡ out.old.items ++ config_text (ConfigFinding.MaskAsWildcard list.now sequence field address)) }
{
    append(out, b"entry ")?;
    append_number(out, u64::from(sequence))?;
    append(out, b" of the access list ")?;
    append_text(out, list)?;
    append(out, b" has a mask for a wildcard: ")?;
    append_field(out, field)?;
    append_masked(out, address)
}

/// An address and its wildcard.
fn append_masked(out: &mut Vec<u8>, address: Masked) -> Result<(), NoMemory>
    ensures { OnOk result (out.new.items ≡ out.old.items ++ masked_text address) }
{
    append_address(out, address.value)?;
    append(out, b" ")?;
    append_address(out, address.wild)
}

/// `interface I names the access list L in`
fn append_named(
    out: &mut Vec<u8>,
    interface: &Text,
    direction: Direction,
    list: &Text,
) -> Result<(), NoMemory>
    ensures { OnOk result (out.new.items ≡ out.old.items ++ named_text interface.now direction list.now) }
{
    append(out, b"interface ")?;
    append_text(out, interface)?;
    append(out, b" names the access list ")?;
    append_text(out, list)?;
    append_direction(out, direction)
}

fn append_direction(out: &mut Vec<u8>, direction: Direction) -> Result<(), NoMemory>
    ensures { OnOk result (out.new.items ≡ out.old.items ++ direction_text direction) }
{
    match direction {
        Direction::Input => append(out, b" in"),
        Direction::Output => append(out, b" out"),
    }
}

fn append_field(out: &mut Vec<u8>, field: AddressField) -> Result<(), NoMemory>
    ensures { OnOk result (out.new.items ≡ out.old.items ++ field_text field) }
{
    match field {
        AddressField::Source => append(out, b"source "),
        AddressField::Destination => append(out, b"destination "),
    }
}

/// `route A/N by `
fn append_prefix(out: &mut Vec<u8>, prefix: Subnet) -> Result<(), NoMemory>
    ensures { OnOk result (out.new.items ≡ out.old.items ++ prefix_text prefix) }
{
    append(out, b"route ")?;
    append_address(out, prefix.address)?;
    append(out, b"/")?;
    append_number(out, u64::from(prefix.length))?;
    append(out, b" by ")
}

/// `route A/N by H`
fn append_way(out: &mut Vec<u8>, prefix: Subnet, next: u32) -> Result<(), NoMemory>
    ensures { OnOk result (out.new.items ≡ out.old.items ++ way_text prefix next) }
{
    append_prefix(out, prefix)?;
    append_address(out, next)
}

/// A route by an interface alone, over a lan.
fn append_port(out: &mut Vec<u8>, prefix: Subnet, interface: &Text) -> Result<(), NoMemory>
    ensures { OnOk result (out.new.items ≡ out.old.items ++ config_text (ConfigFinding.PortAlone prefix interface.now)) }
{
    append_prefix(out, prefix)?;
    append(out, b"interface ")?;
    append_text(out, interface)?;
    append(
        out,
        b" alone: any neighbour that answers for the destination takes the packet; write the next hop beside it",
    )
}

/// A subinterface of an interface that is shut.
fn append_shut(out: &mut Vec<u8>, main: &Text, below: &Text) -> Result<(), NoMemory>
    ensures { OnOk result (out.new.items ≡ out.old.items ++ config_text (ConfigFinding.ShutAbove main.now below.now)) }
{
    append(out, b"interface ")?;
    append_text(out, main)?;
    append(out, b" is shut, and its subinterface ")?;
    append_text(out, below)?;
    append(out, b" isn't: a router takes that down too")
}

/// A way, and what is odd with its next hop.
fn append_next(out: &mut Vec<u8>, prefix: Subnet, next: u32, what: &[u8]) -> Result<(), NoMemory>
    ensures { OnOk result (out.new.items ≡ out.old.items ++ (way_text prefix next ++ what.now)) }
{
    append_way(out, prefix, next)?;
    append(out, what)
}

/// A route whose next hop isn't behind its interface.
fn append_elsewhere(
    out: &mut Vec<u8>,
    prefix: Subnet,
    interface: &Text,
    next: u32,
) -> Result<(), NoMemory>
    ensures { OnOk result (out.new.items ≡ out.old.items ++ config_text (ConfigFinding.NextElsewhere prefix interface.now next)) }
{
    append_way(out, prefix, next)?;
    append(out, b": no subnet of interface ")?;
    append_text(out, interface)?;
    append(out, b" holds the next hop")
}

/// A route that has a backup and stays.
fn append_floating(
    out: &mut Vec<u8>,
    prefix: Subnet,
    distance: u8,
    next: u32,
) -> Result<(), NoMemory>
    ensures { OnOk result (out.new.items ≡ out.old.items ++ config_text (ConfigFinding.NeverFloats prefix distance next)) }
{
    append_way(out, prefix, next)?;
    append(out, b" at distance ")?;
    append_number(out, u64::from(distance))?;
    append(
        out,
        b": another route holds the next hop, so the backup never takes over",
    )
}

/// A list that nothing names.
fn append_unused(out: &mut Vec<u8>, list: &Text) -> Result<(), NoMemory>
    ensures { OnOk result (out.new.items ≡ out.old.items ++ config_text (ConfigFinding.UnusedList list.now)) }
{
    append(out, b"nothing names the access list ")?;
    append_text(out, list)
}
