//! A group in a document of JSON.

ghost use Rattle.std.specs.Prelude.{◌≡◌, ◌++◌, ◌≤◌, codes, IfOk, OnOk};
ghost use Rattle.std.specs.List.{join_by};
ghost use Rattle.report_groups.specs.Groups.{field_at};
ghost use Rattle.view_core.specs.GroupJson.{behind_blanks, or_any_value, value_words, address_values, port_values, values_object, address_pattern, number_pattern, address_member, number_member, address_fields, port_fields, fields_object, group_head, group_values, group_outcomes, group_object};
ghost use Rattle.view_core.specs.FieldWords.{flags_text, words_text};
ghost use Rattle.json_text.specs.Json.{string_member};

use crate::fields::{
    Kind, append_fields, append_values, is_open, service_of, source_kind, width_of,
};
use crate::flags::append_flags;
use crate::summary::change_name;
use json_text::{
    address_field_bytes, append_member, append_outcomes_array, append_string, append_texts,
    number_field_bytes,
};
use net_types::{Names, NoMemory};
use report_groups::{Entry, Flags, Group, Pattern, Shown, Values};
use report_text::{append, append_number};
use std::alloc::Global;

/// A group: its kind, its rows, its headers in words and as patterns, and its outcomes in the two networks.
/// Where memory runs out, a part of it may stand there, here and below.
#[tactic(auto, unfolding(crate::specs::GroupJson::group_object))]
pub(crate) fn append_group_object(
    alloc: Global,
    out: &mut Vec<u8>,
    names: &Names,
    entry: &Entry,
) -> Result<(), NoMemory>
    ensures { OnOk result (out.new.items ≡ out.old.items ++ group_object names.now entry.now) }
{
    append(out, b"{")?;
    append_group_head(alloc, out, entry)?;
    append_group_values(alloc, out, entry)?;
    append_group_outcomes(alloc, out, names, entry)?;
    append(out, b"}")
}

#[tactic(auto, unfolding(crate::specs::GroupJson::group_head))]
fn append_group_head(alloc: Global, out: &mut Vec<u8>, entry: &Entry) -> Result<(), NoMemory>
    ensures { OnOk result (out.new.items ≡ out.old.items ++ group_head entry.now) }
{
    append_member(out, b"kind", change_name(entry.change))?;
    append(out, b", \"rows\": ")?;
    append_number(out, entry.rows)?;
    append(out, b", ")?;
    append_words(alloc, out, &entry.shown)
}

fn append_words(alloc: Global, out: &mut Vec<u8>, shown: &Shown) -> Result<(), NoMemory>
    ensures { OnOk result (out.new.items ≡ out.old.items ++ string_member (codes "words") (behind_blanks (words_text shown.now))) }
{
    let mut words = Vec::new(alloc);
    append_fields(alloc, &mut words, shown)?;
    append_member(out, b"words", behind_blanks(&words))
}

/// The words of a line without the two blanks before them.
pub fn behind_blanks(text: &[u8]) -> &[u8]
    ensures { result.now ≡ behind_blanks text.now }
{
    match text {
        [_, _, rest @ ..] => rest,
        _ => b"",
    }
}

#[tactic(auto, unfolding(crate::specs::GroupJson::group_values))]
fn append_group_values(alloc: Global, out: &mut Vec<u8>, entry: &Entry) -> Result<(), NoMemory>
    ensures { OnOk result (out.new.items ≡ out.old.items ++ group_values entry.now) }
{
    append(out, b", \"values\": ")?;
    append_values_object(alloc, out, &entry.shown)?;
    append(out, b", \"fields\": ")?;
    append_fields_object(alloc, out, &entry.group)?;
    Ok(())
}

#[tactic(auto, unfolding(crate::specs::GroupJson::group_outcomes))]
fn append_group_outcomes(
    alloc: Global,
    out: &mut Vec<u8>,
    names: &Names,
    entry: &Entry,
) -> Result<(), NoMemory>
    ensures { OnOk result (out.new.items ≡ out.old.items ++ group_outcomes names.now entry.now) }
{
    append(out, b", \"old\": ")?;
    append_outcomes_array(alloc, out, names, entry.group.old.as_slice())?;
    append(out, b", \"new\": ")?;
    append_outcomes_array(alloc, out, names, entry.group.new.as_slice())
}

// The fields in words.
fn append_values_object(alloc: Global, out: &mut Vec<u8>, shown: &Shown) -> Result<(), NoMemory>
    ensures { OnOk result (out.new.items ≡ out.old.items ++ values_object shown.now) }
{
    append(out, b"{")?;
    append_address_values(alloc, out, shown)?;
    append(out, b", ")?;
    append_port_values(alloc, out, shown)?;
    append(out, b"}")
}

#[tactic(auto, unfolding(crate::specs::GroupJson::address_values))]
fn append_address_values(alloc: Global, out: &mut Vec<u8>, shown: &Shown) -> Result<(), NoMemory>
    ensures { OnOk result (out.new.items ≡ out.old.items ++ address_values shown.now) }
{
    append_value(alloc, out, b"dst", Kind::Address, &shown.dst)?;
    append(out, b", ")?;
    append_value(alloc, out, b"src", Kind::Address, &shown.src)?;
    append(out, b", ")?;
    append_value(alloc, out, b"proto", Kind::Protocol, &shown.proto)
}

#[tactic(auto, unfolding(crate::specs::GroupJson::port_values))]
fn append_port_values(alloc: Global, out: &mut Vec<u8>, shown: &Shown) -> Result<(), NoMemory>
    ensures { OnOk result (out.new.items ≡ out.old.items ++ port_values shown.now) }
{
    let ports = Kind::Port(service_of(&shown.proto));
    let source = source_kind(&shown.proto);
    append_value(alloc, out, b"dport", ports, &shown.dport)?;
    append(out, b", ")?;
    append_value(alloc, out, b"sport", source, &shown.sport)?;
    append(out, b", ")?;
    append_flag_words(alloc, out, &shown.flags)
}

fn append_value(
    alloc: Global,
    out: &mut Vec<u8>,
    name: &[u8],
    kind: Kind,
    values: &Values,
) -> Result<(), NoMemory>
    ensures { OnOk result (out.new.items ≡ out.old.items ++ string_member name.now (value_words kind values.now)) }
{
    let words = value_bytes(alloc, kind, values)?;
    append_member(out, name, &words)
}

/// A field's values, or that all are meant.
fn value_bytes(alloc: Global, kind: Kind, values: &Values) -> Result<Vec<u8>, NoMemory>
    ensures { IfOk result (λ text. text.items ≡ value_words kind values.now) }
{
    let mut words = Vec::new(alloc);
    if is_open(width_of(kind), values) {
        append(&mut words, b"any")?;
    } else {
        append_values(&mut words, values, kind)?;
    }
    Ok(words)
}

fn append_flag_words(alloc: Global, out: &mut Vec<u8>, flags: &Flags) -> Result<(), NoMemory>
    ensures { OnOk result (out.new.items ≡ out.old.items ++ string_member (codes "flags") (or_any_value (behind_blanks (flags_text flags.now)))) }
{
    let mut words = Vec::new(alloc);
    append_flags(&mut words, flags)?;
    append_member(out, b"flags", or_any_value(behind_blanks(&words)))
}

fn or_any_value(text: &[u8]) -> &[u8]
    ensures { result.now ≡ or_any_value text.now }
{
    if text.is_empty() { b"any" } else { text }
}

// The fields by their patterns.
fn append_fields_object(alloc: Global, out: &mut Vec<u8>, group: &Group) -> Result<(), NoMemory>
    ensures { OnOk result (out.new.items ≡ out.old.items ++ fields_object group.now) }
{
    append(out, b"{")?;
    append_address_fields(alloc, out, group)?;
    append(out, b", ")?;
    append_port_fields(alloc, out, group)?;
    append(out, b"}")
}

#[tactic(auto, unfolding(crate::specs::GroupJson::address_fields))]
fn append_address_fields(alloc: Global, out: &mut Vec<u8>, group: &Group) -> Result<(), NoMemory>
    ensures { OnOk result (out.new.items ≡ out.old.items ++ address_fields group.now) }
{
    append_address_member(alloc, out, b"dst", field_at(group, 0))?;
    append(out, b", ")?;
    append_address_member(alloc, out, b"src", field_at(group, 1))?;
    append(out, b", ")?;
    append_number_member(alloc, out, b"proto", 8, field_at(group, 2))
}

#[tactic(auto, unfolding(crate::specs::GroupJson::port_fields))]
fn append_port_fields(alloc: Global, out: &mut Vec<u8>, group: &Group) -> Result<(), NoMemory>
    ensures { OnOk result (out.new.items ≡ out.old.items ++ port_fields group.now) }
{
    append_number_member(alloc, out, b"dport", 16, field_at(group, 3))?;
    append(out, b", ")?;
    append_number_member(alloc, out, b"sport", 16, field_at(group, 4))?;
    append(out, b", ")?;
    append_number_member(alloc, out, b"flags", 8, field_at(group, 5))
}

fn field_at(group: &Group, field: usize) -> &[Pattern]
    ensures { result.now ≡ field_at field group.now }
{
    match group.fields.as_slice().get(field) {
        Some(patterns) => patterns.as_slice(),
        None => &[],
    }
}

#[tactic(auto, unfolding(crate::specs::GroupJson::address_member))]
fn append_address_member(
    alloc: Global,
    out: &mut Vec<u8>,
    name: &[u8],
    patterns: &[Pattern],
) -> Result<(), NoMemory>
    ensures { OnOk result (out.new.items ≡ out.old.items ++ address_member name.now patterns.now) }
{
    append_texts(out, &[b"\"", name, b"\": ["])?;
    append_address_patterns(alloc, out, patterns)?;
    append(out, b"]")
}

fn append_address_patterns(
    alloc: Global,
    out: &mut Vec<u8>,
    patterns: &[Pattern],
) -> Result<(), NoMemory>
    ensures { OnOk result (out.new.items ≡ out.old.items ++ join_by address_pattern (codes ", ") patterns.now) }
{
    let [first, rest @ ..] = patterns else {
        return Ok(());
    };
    append_address_pattern(alloc, out, first)?;
    for pattern in rest {
        append(out, b", ")?;
        append_address_pattern(alloc, out, pattern)?;
    }
    Ok(())
}

fn append_address_pattern(
    alloc: Global,
    out: &mut Vec<u8>,
    pattern: &Pattern,
) -> Result<(), NoMemory>
    ensures { OnOk result (out.new.items ≡ out.old.items ++ address_pattern pattern.now) }
{
    let text = address_field_bytes(alloc, pattern.fixed, pattern.bits)?;
    append_string(out, &text)
}

#[tactic(auto, unfolding(crate::specs::GroupJson::number_member))]
fn append_number_member(
    alloc: Global,
    out: &mut Vec<u8>,
    name: &[u8],
    width: u32,
    patterns: &[Pattern],
) -> Result<(), NoMemory>
    requires { width ≤ 16 }
    ensures { OnOk result (out.new.items ≡ out.old.items ++ number_member name.now width patterns.now) }
{
    append_texts(out, &[b"\"", name, b"\": ["])?;
    append_number_patterns(alloc, out, width, patterns)?;
    append(out, b"]")
}

fn append_number_patterns(
    alloc: Global,
    out: &mut Vec<u8>,
    width: u32,
    patterns: &[Pattern],
) -> Result<(), NoMemory>
    requires { width ≤ 16 }
    ensures { OnOk result (out.new.items ≡ out.old.items ++ join_by (number_pattern width) (codes ", ") patterns.now) }
{
    let [first, rest @ ..] = patterns else {
        return Ok(());
    };
    append_number_pattern(alloc, out, width, first)?;
    for pattern in rest {
        append(out, b", ")?;
        append_number_pattern(alloc, out, width, pattern)?;
    }
    Ok(())
}

fn append_number_pattern(
    alloc: Global,
    out: &mut Vec<u8>,
    width: u32,
    pattern: &Pattern,
) -> Result<(), NoMemory>
    requires { width ≤ 16 }
    ensures { OnOk result (out.new.items ≡ out.old.items ++ number_pattern width pattern.now) }
{
    let text = number_field_bytes(alloc, width, pattern.fixed, pattern.bits)?;
    append_string(out, &text)
}
