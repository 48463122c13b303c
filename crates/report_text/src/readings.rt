//! What was read of each configuration, as a line: the file, the hostname, and how many things there are of each kind.

ghost use Rattle.std.specs.Prelude.{◌≡◌, ◌++◌, IfOk, OnOk};
ghost use Rattle.report_text.specs.Readings.{entry_count, counts_text, interfaces_text, reading_text, readings_text, routes_text, rules_text};

use crate::fields::{append, append_number};
use crate::parts::TextPart::{Bytes, Number};
use crate::parts::append_all;
use net_types::{AccessList, Interface, Loaded, NoMemory, Route};
use std::alloc::Global;

/// The configurations of a network as text, a line for each, ended by LF.
///
/// A line is `FILE HOST interfaces N routes N lists N entries N nat N passed N`: the file's name, the hostname, how many
/// interfaces, written routes, access lists, entries of all of these and translation rules there are, and how many lines
/// of the file were passed over.
pub fn readings_bytes(alloc: Global, devices: &[Loaded]) -> Result<Vec<u8>, NoMemory>
    ensures { IfOk result (λ text. text.items ≡ readings_text devices.now) }
{
    let mut text = Vec::new(alloc);
    for loaded in devices {
        append_reading(&mut text, loaded)?;
    }
    Ok(text)
}

#[tactic(auto, unfolding(crate::specs::Readings::reading_text))]
fn append_reading(out: &mut Vec<u8>, loaded: &Loaded) -> Result<(), NoMemory>
    ensures { OnOk result (out.new.items ≡ out.old.items ++ reading_text loaded.now) }
{
    append(out, loaded.file.as_bytes())?;
    append(out, b" ")?;
    append(out, loaded.config.hostname.as_bytes())?;
    append_counts(out, loaded)
}

// How much there is of each kind; and what was passed over.
#[tactic(auto, unfolding(crate::specs::Readings::counts_text))]
fn append_counts(out: &mut Vec<u8>, loaded: &Loaded) -> Result<(), NoMemory>
    ensures { OnOk result (out.new.items ≡ out.old.items ++ counts_text loaded.now) }
{
    append_interfaces(out, loaded.config.interfaces.as_slice())?;
    append_routes(out, loaded.config.routes.as_slice())?;
    append_rules(out, loaded)
}

#[tactic(auto, unfolding(crate::specs::Readings::interfaces_text))]
fn append_interfaces(out: &mut Vec<u8>, interfaces: &[Interface]) -> Result<(), NoMemory>
    ensures { OnOk result (out.new.items ≡ out.old.items ++ interfaces_text interfaces.now) }
{
    append(out, b" interfaces ")?;
    append_number(out, interfaces.len())
}

#[tactic(auto, unfolding(crate::specs::Readings::routes_text))]
fn append_routes(out: &mut Vec<u8>, routes: &[Route]) -> Result<(), NoMemory>
    ensures { OnOk result (out.new.items ≡ out.old.items ++ routes_text routes.now) }
{
    append(out, b" routes ")?;
    append_number(out, routes.len())
}

// Lists with their entries, and translation rules; and what was passed over.
#[tactic(auto, unfolding(crate::specs::Readings::rules_text))]
fn append_rules(out: &mut Vec<u8>, loaded: &Loaded) -> Result<(), NoMemory>
    ensures { OnOk result (out.new.items ≡ out.old.items ++ rules_text loaded.now) }
{
    let config = &loaded.config;
    append_all(
        out,
        &[
            Bytes(b" lists "),
            Number(config.lists.as_slice().len() as u128),
            Bytes(b" entries "),
            Number(entry_count(config.lists.as_slice())),
            Bytes(b" nat "),
            Number(config.nat.as_slice().len() as u128),
            Bytes(b" passed "),
            Number(loaded.passed.into()),
            Bytes(b"\n"),
        ],
    )
}

fn entry_count(lists: &[AccessList]) -> u128
    ensures { result ≡ entry_count lists.now }
{
    let mut entries: u128 = 0;
    for list in lists {
        entries += list.entries.as_slice().len() as u128;
    }
    entries
}
