//! The parts of a set of headers by the stamps that make of them what translation makes: by the port or plain rule that
//! applies to a header, and by the outer rule.

ghost use Rattle.std.specs.Prelude.{◌≡◌, ◌<◌, IfOk, OnOk, if◌then◌else◌};
ghost use Rattle.hdr_bits.specs.declared.header.Header.{Header};
ghost use Rattle.hdr_bits.specs.HeaderBits.{IsHeader};
ghost use Rattle.cube_alg.specs.Stamps.{applied};
ghost use Rattle.cube_diagram.specs.Functions.{Keeps, count_of};
ghost use Rattle.set_walk.specs.Sets.{InSet};
ghost use Rattle.place_ways.specs.Parts.{AddsParts, AreParts, IsAmong, IsTranslation, outer_of, rule_of, translates};

use crate::sets::{where_value, without};
use cube_alg::Stamp;
use cube_diagram::Diagrams;
use hdr_bits::Cube;
use nat_static::{inside_stamp, outside_stamp};
use net_types::{NetDevice, NoMemory};
use std::alloc::Global;

/// Translation by the rules of a device, in one direction.
#[derive(Clone, Copy)]
pub(crate) struct Translation<'a> {
    pub(crate) device: &'a NetDevice,
    /// From outside, else from inside.
    pub(crate) from_outside: bool,
    /// The function that tells the port or plain rule.
    pub(crate) rule: u32,
    /// The function that tells the outer rule.
    pub(crate) outer: u32,
}

/// A set of headers, and the stamp that makes of them what they become.
#[derive(Clone, Copy)]
pub(crate) struct Part {
    pub(crate) headers: u32,
    pub(crate) stamp: Stamp,
}

/// The parts of the given headers. Where they aren't translated they are one part.
pub(crate) fn parts_of(
    alloc: Global,
    table: &mut Diagrams,
    translation: Translation,
    translated: bool,
    given: u32,
) -> Result<Vec<Part>, NoMemory>
    requires translation { IsTranslation table.old translation }
    requires given { given < count_of table.old }
    ensures parts { IfOk result (λ r. AreParts table.new (InSet table.old given) (λ h. if translated then translates translation.entry h else h) r.items) }
    ensures kept { Keeps table.old table.new }
{
    if translated {
        let parts = translated_parts(alloc, table, translation, given)?;
        return Ok(parts);
    }
    let mut parts = Vec::new(alloc);
    parts.push(Part {
        headers: given,
        stamp: Stamp::none(),
    })?;
    Ok(parts)
}

fn translated_parts(
    alloc: Global,
    table: &mut Diagrams,
    translation: Translation,
    given: u32,
) -> Result<Vec<Part>, NoMemory>
    requires translation { IsTranslation table.old translation }
    requires given { given < count_of table.old }
    ensures parts { IfOk result (λ r. AreParts table.new (InSet table.old given) (λ h. translates translation.entry h) r.items) }
    ensures kept { Keeps table.old table.new }
{
    let mut parts = Vec::new(alloc);
    let rules = table.values_on(alloc, translation.rule, &Cube::all())?;
    add_by_rules(
        alloc,
        table,
        translation,
        rules.as_slice(),
        given,
        &mut parts,
    )?;
    let rest = without(table, given, translation.rule)?;
    add_by_outers(alloc, table, translation, None, rest, &mut parts)?;
    Ok(parts)
}

// Of those of the given headers to which one of these port or plain rules applies.
fn add_by_rules(
    alloc: Global,
    table: &mut Diagrams,
    translation: Translation,
    rules: &[u32],
    given: u32,
    parts: &mut Vec<Part>,
) -> Result<(), NoMemory>
    requires translation { IsTranslation table.old translation }
    requires given { given < count_of table.old }
    ensures added { OnOk result (AddsParts table.new (λ h. InSet table.old given h × IsAmong (rule_of translation.entry) rules.now h) (λ h. translates translation.entry h) parts.old.items parts.new.items) }
    ensures kept { Keeps table.old table.new }
{
    for rule in rules {
        let part = where_value(table, translation.rule, *rule, given)?;
        add_by_outers(alloc, table, translation, Some(*rule), part, parts)?;
    }
    Ok(())
}

// Of the given headers, to all of which this port or plain rule applies, or none. The outer rule is asked of the headers as
// they come, like the other.
fn add_by_outers(
    alloc: Global,
    table: &mut Diagrams,
    translation: Translation,
    rule: Option<u32>,
    given: u32,
    parts: &mut Vec<Part>,
) -> Result<(), NoMemory>
    requires translation { IsTranslation table.old translation }
    requires given { given < count_of table.old }
    requires rule { (h : Header) → IsHeader h → InSet table.old given h → rule_of translation h ≡ rule }
    ensures added { OnOk result (AddsParts table.new (InSet table.old given) (λ h. translates translation.entry h) parts.old.items parts.new.items) }
    ensures kept { Keeps table.old table.new }
{
    let outers = table.values_on(alloc, translation.outer, &Cube::all())?;
    add_outers(table, translation, rule, outers.as_slice(), given, parts)?;
    let headers = without(table, given, translation.outer)?;
    let stamp = stamp_of(translation, rule, None);
    parts.push(Part { headers, stamp })?;
    Ok(())
}

fn add_outers(
    table: &mut Diagrams,
    translation: Translation,
    rule: Option<u32>,
    outers: &[u32],
    given: u32,
    parts: &mut Vec<Part>,
) -> Result<(), NoMemory>
    requires translation { IsTranslation table.old translation }
    requires given { given < count_of table.old }
    requires rule { (h : Header) → IsHeader h → InSet table.old given h → rule_of translation h ≡ rule }
    ensures added { OnOk result (AddsParts table.new (λ h. InSet table.old given h × IsAmong (outer_of translation.entry) outers.now h) (λ h. translates translation.entry h) parts.old.items parts.new.items) }
    ensures kept { Keeps table.old table.new }
{
    for outer in outers {
        let headers = where_value(table, translation.outer, *outer, given)?;
        let stamp = stamp_of(translation, rule, Some(*outer));
        parts.push(Part { headers, stamp })?;
    }
    Ok(())
}

// What translation replaces in headers to which these rules apply.
fn stamp_of(translation: Translation, rule: Option<u32>, outer: Option<u32>) -> Stamp
    ensures { (h : Header) → rule_of translation.entry h ≡ rule → outer_of translation.entry h ≡ outer → applied result h ≡ translates translation.entry h }
{
    let rules = translation.device.config.nat.as_slice();
    if translation.from_outside {
        outside_stamp(rules, rule, outer)
    } else {
        inside_stamp(rules, rule, outer)
    }
}
