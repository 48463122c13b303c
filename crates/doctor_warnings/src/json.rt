//! Notes as one document of JSON.
//!
//! Each function adds a text at the end. Where memory runs out, a part of it may stand there.
ghost use Rattle.std.specs.Prelude.{◌≡◌, ◌++◌, codes, IfOk, OnOk};
ghost use Rattle.std.specs.List.{join_by};
ghost use Rattle.json_text.specs.Json.{string_member};
ghost use Rattle.doctor_warnings.specs.Texts.{says_text};
ghost use Rattle.doctor_warnings.specs.NotesJson.{kind_name, limit_json, limits_part, line_json, lines_part, notes_json, place_members, warned_kind, warning_json, warnings_part};

use crate::limit::{Limit, LimitKind};
use crate::listing::ListedLine;
use crate::network::Notes;
use crate::note_text::kind_text;
use crate::warning::Warning;
use crate::warning_text::{append_says, line_in, path_of};
use json_text::append_member;
use net_types::{NoMemory, Text};
use report_text::{append, append_number};
use std::alloc::Global;

/// The notes as a document: the warnings, the limits, and the lines that are passed over, where all are asked for.
pub fn notes_document(alloc: Global, notes: &Notes) -> Result<Vec<u8>, NoMemory>
    ensures { IfOk result (λ text. text.items ≡ notes_json notes.now) }
{
    let mut out = Vec::new(alloc);
    append_warnings_part(alloc, &mut out, notes.warnings.as_slice())?;
    append_limits_part(&mut out, notes.limits.as_slice())?;
    append_lines_part(&mut out, notes.lines.as_slice())?;
    append(&mut out, b"]}\n")?;
    Ok(out)
}

#[tactic(auto, unfolding(crate::specs::NotesJson::warnings_part))]
fn append_warnings_part(
    alloc: Global,
    out: &mut Vec<u8>,
    warnings: &[Warning],
) -> Result<(), NoMemory>
    ensures { OnOk result (out.new.items ≡ out.old.items ++ warnings_part warnings.now) }
{
    append(
        out,
        b"{\"schema\": \"diqenyu-doctor\", \"version\": 1,\n\"warnings\": [",
    )?;
    append_warnings(alloc, out, warnings)?;
    Ok(())
}

#[tactic(auto, unfolding(crate::specs::NotesJson::limits_part))]
fn append_limits_part(out: &mut Vec<u8>, limits: &[Limit]) -> Result<(), NoMemory>
    ensures { OnOk result (out.new.items ≡ out.old.items ++ limits_part limits.now) }
{
    append(out, b"],\n\"limits\": [")?;
    append_limits(out, limits)?;
    Ok(())
}

#[tactic(auto, unfolding(crate::specs::NotesJson::lines_part))]
fn append_lines_part(out: &mut Vec<u8>, lines: &[ListedLine]) -> Result<(), NoMemory>
    ensures { OnOk result (out.new.items ≡ out.old.items ++ lines_part lines.now) }
{
    append(out, b"],\n\"lines\": [")?;
    append_lines(out, lines)?;
    Ok(())
}

fn append_warnings(alloc: Global, out: &mut Vec<u8>, warnings: &[Warning]) -> Result<(), NoMemory>
    ensures { OnOk result (out.new.items ≡ out.old.items ++ join_by warning_json (codes ",\n") warnings.now) }
{
    let [first, rest @ ..] = warnings else {
        return Ok(());
    };
    append_warning(alloc, out, first)?;
    for warning in rest {
        append(out, b",\n")?;
        append_warning(alloc, out, warning)?;
    }
    Ok(())
}

#[tactic(auto, unfolding(crate::specs::NotesJson::warning_json))]
fn append_warning(alloc: Global, out: &mut Vec<u8>, warning: &Warning) -> Result<(), NoMemory>
    ensures { OnOk result (out.new.items ≡ out.old.items ++ warning_json warning.now) }
{
    append(out, b"{")?;
    append_place(out, path_of(warning), line_in(warning))?;
    append(out, b", ")?;
    append_member(out, b"kind", warned_kind(warning))?;
    append(out, b", ")?;
    append_said(alloc, out, warning)?;
    append(out, b"}")
}

fn warned_kind(warning: &Warning) -> &'static [u8]
    ensures { result.now ≡ warned_kind warning.now }
{
    match warning {
        Warning::NoConfigs { folder: _ } => b"no configurations",
        Warning::Unread { path: _ } => b"not read",
        Warning::OneFolder { path: _ } => b"in one folder",
        Warning::HostTaken { path: _, first: _ } => b"hostname taken",
        Warning::Refused {
            path: _,
            line: _,
            kind: _,
            word: _,
            text: _,
        } => b"refused",
        Warning::Passed {
            path: _,
            line: _,
            reason: _,
            text: _,
        } => b"passed over",
        Warning::Config {
            path: _,
            finding: _,
        } => b"configuration",
        Warning::Place {
            path: _,
            two: _,
            finding: _,
        } => b"place",
        Warning::Stray {
            path: _,
            two: _,
            next: _,
        } => b"next hop",
    }
}

// What a warning says, as a member.
fn append_said(alloc: Global, out: &mut Vec<u8>, warning: &Warning) -> Result<(), NoMemory>
    ensures { OnOk result (out.new.items ≡ out.old.items ++ string_member (codes "says") (says_text warning.now)) }
{
    let text = says_bytes(alloc, warning)?;
    append_member(out, b"says", &text)
}

fn says_bytes(alloc: Global, warning: &Warning) -> Result<Vec<u8>, NoMemory>
    ensures { IfOk result (λ text. text.items ≡ says_text warning.now) }
{
    let mut text = Vec::new(alloc);
    append_says(&mut text, warning)?;
    Ok(text)
}

// The file, and the line's number where a line is meant.
fn append_place(out: &mut Vec<u8>, path: &Text, line: u64) -> Result<(), NoMemory>
    ensures { OnOk result (out.new.items ≡ out.old.items ++ place_members path.now line) }
{
    append_member(out, b"file", path.as_bytes())?;
    if line == 0 {
        return Ok(());
    }
    append(out, b", \"line\": ")?;
    append_number(out, line)
}

fn append_limits(out: &mut Vec<u8>, limits: &[Limit]) -> Result<(), NoMemory>
    ensures { OnOk result (out.new.items ≡ out.old.items ++ join_by limit_json (codes ",\n") limits.now) }
{
    let [first, rest @ ..] = limits else {
        return Ok(());
    };
    append_limit(out, first)?;
    for limit in rest {
        append(out, b",\n")?;
        append_limit(out, limit)?;
    }
    Ok(())
}

#[tactic(auto, unfolding(crate::specs::NotesJson::limit_json))]
fn append_limit(out: &mut Vec<u8>, limit: &Limit) -> Result<(), NoMemory>
    ensures { OnOk result (out.new.items ≡ out.old.items ++ limit_json limit.now) }
{
    append(out, b"{")?;
    append_place(out, &limit.path, limit.line)?;
    append(out, b", ")?;
    append_member(out, b"words", limit.words.as_bytes())?;
    append(out, b", ")?;
    append_member(out, b"kind", kind_name(limit.kind))?;
    append(out, b", ")?;
    append_member(out, b"says", kind_text(limit.kind))?;
    append(out, b"}")
}

fn kind_name(kind: LimitKind) -> &'static [u8]
    ensures { result.now ≡ kind_name kind }
{
    match kind {
        LimitKind::Ethernet => b"ethernet",
        LimitKind::Prepared => b"prepared",
        LimitKind::Idle => b"idle",
        LimitKind::Refused => b"refused",
    }
}

fn append_lines(out: &mut Vec<u8>, lines: &[ListedLine]) -> Result<(), NoMemory>
    ensures { OnOk result (out.new.items ≡ out.old.items ++ join_by line_json (codes ",\n") lines.now) }
{
    let [first, rest @ ..] = lines else {
        return Ok(());
    };
    append_line(out, first)?;
    for line in rest {
        append(out, b",\n")?;
        append_line(out, line)?;
    }
    Ok(())
}

#[tactic(auto, unfolding(crate::specs::NotesJson::line_json))]
fn append_line(out: &mut Vec<u8>, line: &ListedLine) -> Result<(), NoMemory>
    ensures { OnOk result (out.new.items ≡ out.old.items ++ line_json line.now) }
{
    append(out, b"{")?;
    append_place(out, &line.path, line.line)?;
    append(out, b", ")?;
    append_member(out, b"words", line.words.as_bytes())?;
    append(out, b", ")?;
    append_member(out, b"text", line.text.as_bytes())?;
    append(out, b"}")
}
