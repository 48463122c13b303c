//! Explanations and traces in documents of JSON. Text of files stands in them as `append_string` writes it, and nowhere else.

ghost use Rattle.std.specs.Prelude.{◌≡◌, ◌++◌, codes, filter, IfOk, OnOk, length, map};
ghost use Rattle.std.specs.List.{join_by};
ghost use Rattle.net_text.specs.Lines.{is_line_end};
ghost use Rattle.trace_sides.specs.Sides.{first_text, shared};
ghost use Rattle.json_text.specs.Json.{string_text};
ghost use Rattle.why_core.specs.Cases.{case_in};
ghost use Rattle.why_core.specs.ShownJson.{entry_members, line_count, lines_json, packet_members, sides_members, told_json, told_lines, traces_front, traces_json, traces_schema};
ghost use Rattle.why_core.specs.Words.{traces_in};

use crate::basis::Basis;
use crate::cases::CaseRef;
use crate::explain::Followed;
use crate::words::TracesWords;
use hdr_bits::Header;
use json_text::{append_header_members, append_member, append_place_members, append_string};
use net_types::{Names, NoMemory};
use report_text::TextPart::{Bytes, Number};
use report_text::{append, append_all};
use std::alloc::Global;
use trace_sides::{first_bytes, shared};
use view_core::group_words;
use walk_trace::{Trace, trace_bytes};

// Each function that adds a text adds it at the end. Where memory runs out, a part of the text may stand there.

/// The object of a group: its ingress and its words, its packet, and the packet's traces.
pub(crate) fn told_json(
    alloc: Global,
    basis: &Basis,
    case: CaseRef,
    followed: &Followed,
) -> Result<Vec<u8>, NoMemory>
    ensures { IfOk result (λ text. text.items ≡ told_json basis.now.report.now basis.now.names.now (case_in case.entry) followed.now.header followed.now.old followed.now.new) }
{
    let mut text = Vec::new(alloc);
    append_told(alloc, &mut text, basis, case, followed)?;
    Ok(text)
}

#[tactic(auto, unfolding(crate::specs::ShownJson::told_json))]
fn append_told(
    alloc: Global,
    out: &mut Vec<u8>,
    basis: &Basis,
    case: CaseRef,
    followed: &Followed,
) -> Result<(), NoMemory>
    ensures { OnOk result (out.new.items ≡ out.old.items ++ told_json basis.now.report.now basis.now.names.now (case_in case.entry) followed.now.header followed.now.old followed.now.new) }
{
    append(out, b"{")?;
    append_place_members(out, basis.report, case.section.place)?;
    append(out, b", ")?;
    append_member(
        out,
        b"group",
        &group_words(alloc, basis.report, case.entry)?,
    )?;
    append(out, b", ")?;
    append_packet(
        alloc,
        out,
        basis.names,
        &followed.header,
        &followed.old,
        &followed.new,
    )?;
    append(out, b"}")
}

/// The document of two traces.
#[tactic(auto, unfolding(crate::specs::ShownJson::traces_json))]
pub(crate) fn traces_json(
    alloc: Global,
    names: &Names,
    asked: TracesWords,
    old: &Trace,
    new: &Trace,
) -> Result<Vec<u8>, NoMemory>
    ensures { IfOk result (λ text. text.items ≡ traces_json names.now (traces_in asked.entry) old.now new.now) }
{
    let mut text = Vec::new(alloc);
    append_front(
        &mut text,
        asked.device.as_bytes(),
        asked.interface.as_bytes(),
    )?;
    append_packet(alloc, &mut text, names, &asked.header, old, new)?;
    append(&mut text, b"}\n")?;
    Ok(text)
}

// The schema with its version, and where the packet enters.
#[tactic(auto, unfolding(crate::specs::ShownJson::traces_front))]
fn append_front(out: &mut Vec<u8>, device: &[u8], interface: &[u8]) -> Result<(), NoMemory>
    ensures { OnOk result (out.new.items ≡ out.old.items ++ traces_front device.now interface.now) }
{
    append_schema(out)?;
    append_entry(out, device, interface)?;
    append(out, b", ")
}

#[tactic(auto, unfolding(crate::specs::ShownJson::traces_schema))]
fn append_schema(out: &mut Vec<u8>) -> Result<(), NoMemory>
    ensures { OnOk result (out.new.items ≡ out.old.items ++ traces_schema) }
{
    append(out, b"{\"schema\": \"diqenyu-traces\", \"version\": 1, ")
}

// Where the packet enters.
#[tactic(auto, unfolding(crate::specs::ShownJson::entry_members))]
fn append_entry(out: &mut Vec<u8>, device: &[u8], interface: &[u8]) -> Result<(), NoMemory>
    ensures { OnOk result (out.new.items ≡ out.old.items ++ entry_members device.now interface.now) }
{
    append_member(out, b"device", device)?;
    append(out, b", ")?;
    append_member(out, b"interface", interface)
}

#[tactic(auto, unfolding(crate::specs::ShownJson::packet_members))]
fn append_packet(
    alloc: Global,
    out: &mut Vec<u8>,
    names: &Names,
    header: &Header,
    old: &Trace,
    new: &Trace,
) -> Result<(), NoMemory>
    ensures { OnOk result (out.new.items ≡ out.old.items ++ packet_members names.now header.now old.now new.now) }
{
    append(out, b"\"packet\": ")?;
    append(out, b"{")?;
    append_header_members(alloc, out, header)?;
    append(out, b"},\n")?;
    append_sides(alloc, out, names, old, new)
}

// With how many lines both traces begin, and the lines of each.
#[tactic(auto, unfolding(crate::specs::ShownJson::sides_members))]
fn append_sides(
    alloc: Global,
    out: &mut Vec<u8>,
    names: &Names,
    old: &Trace,
    new: &Trace,
) -> Result<(), NoMemory>
    ensures { OnOk result (out.new.items ≡ out.old.items ++ sides_members names.now old.now new.now) }
{
    let count = shared_lines(alloc, names, old, new)?;
    append_all(
        out,
        &[
            Bytes(b"\"parts\": "),
            Number(count as u128),
            Bytes(b", \"old\": "),
        ],
    )?;
    append_lines(alloc, out, &trace_bytes(alloc, names, old)?)?;
    append(out, b", \"new\": ")?;
    append_lines(alloc, out, &trace_bytes(alloc, names, new)?)
}

// With how many lines both traces begin.
fn shared_lines(alloc: Global, names: &Names, old: &Trace, new: &Trace) -> Result<usize, NoMemory>
    ensures { IfOk result (λ n. n ≡ line_count (first_text names.now (shared names.now old.now new.now) old.now)) }
{
    let count = shared(alloc, names, old, new)?;
    let both = first_bytes(alloc, names, count, old)?;
    Ok(line_count(&both))
}

fn line_count(text: &[u8]) -> usize
    ensures { result ≡ line_count text.now }
{
    text.iter().filter(|b| **b == b'\n').count()
}

#[tactic(auto, unfolding(crate::specs::ShownJson::lines_json))]
fn append_lines(alloc: Global, out: &mut Vec<u8>, text: &[u8]) -> Result<(), NoMemory>
    ensures { OnOk result (out.new.items ≡ out.old.items ++ lines_json text.now) }
{
    let lines = told_lines(alloc, text)?;
    append(out, b"[")?;
    append_strings(out, &lines)?;
    append(out, b"]")
}

// The lines that have a byte.
fn told_lines(alloc: Global, text: &[u8]) -> Result<Vec<&[u8]>, NoMemory>
    ensures { IfOk result (λ lines. map (λ line. line.now) lines.items ≡ told_lines text.now) }
{
    let mut lines = Vec::new(alloc);
    for line in text.split(|b| *b == b'\n') {
        if !line.is_empty() {
            lines.push(line)?;
        }
    }
    Ok(lines)
}

fn append_strings(out: &mut Vec<u8>, lines: &[&[u8]]) -> Result<(), NoMemory>
    ensures { OnOk result (out.new.items ≡ out.old.items ++ join_by string_text (codes ", ") (map (λ line. line.now) lines.now)) }
{
    let [first, rest @ ..] = lines else {
        return Ok(());
    };
    append_string(out, first)?;
    for line in rest {
        append(out, b", ")?;
        append_string(out, line)?;
    }
    Ok(())
}
