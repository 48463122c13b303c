//! How limits of the model and lines that are passed over are written: counted by their words, and lines one by one.
//!
//! Each function adds a text at the end. Where memory runs out, a part of it may stand there.
ghost use Rattle.std.specs.Prelude.{◌≡◌, ◌++◌, OnOk, slice_get};
ghost use Rattle.std.specs.List.{flat_map};
ghost use Rattle.std.specs.Option.{option_copied};
ghost use Rattle.doctor_warnings.specs.Texts.{are_asked, count_text, counted_if_any, counted_line, is_idle, kind_text, limit_by, limit_line, limit_text, listed_line};

use crate::heads::{append_behind, append_head, append_place};
use crate::limit::{Limit, LimitKind};
use crate::listing::ListedLine;
use crate::network::Notes;
use finding_texts::append_shown;
use net_types::{NoMemory, Text};
use report_text::{append, append_number};
use text_tallies::Tally;

/// The limits: all where there is a warning or all is asked for, else how many lines no packet depends on.
pub(crate) fn append_notes_limits(
    out: &mut Vec<u8>,
    all: bool,
    notes: &Notes,
    rows: &[Tally],
) -> Result<(), NoMemory>
    ensures { OnOk result (out.new.items ≡ out.old.items ++ flat_map (limit_line (are_asked all notes.now.warnings) notes.now.limits) rows.now) }
{
    let asked = all || notes.warnings.as_slice().len() > 0;
    append_limits(out, asked, notes.limits.as_slice(), rows)
}

fn append_limits(
    out: &mut Vec<u8>,
    asked: bool,
    limits: &[Limit],
    rows: &[Tally],
) -> Result<(), NoMemory>
    ensures { OnOk result (out.new.items ≡ out.old.items ++ flat_map (limit_line asked limits.now) rows.now) }
{
    for row in rows {
        append_limit_if(out, asked, row, limit_in(limits, row.first))?;
    }
    Ok(())
}

fn limit_in(limits: &[Limit], place: usize) -> Option<&Limit>
    ensures { option_copied result ≡ slice_get limits.now place }
{
    limits.get(place)
}

/// A limit, where it is told.
fn append_limit_if(
    out: &mut Vec<u8>,
    asked: bool,
    row: &Tally,
    limit: Option<&Limit>,
) -> Result<(), NoMemory>
    ensures { OnOk result (out.new.items ≡ out.old.items ++ limit_by asked row.now (option_copied limit.entry)) }
{
    match limit {
        None => Ok(()),
        Some(limit) => {
            if asked || is_idle(limit.kind) {
                append_limit(out, row, limit)
            } else {
                Ok(())
            }
        }
    }
}

fn is_idle(kind: LimitKind) -> bool
    ensures { result ≡ is_idle kind }
{
    matches!(kind, LimitKind::Idle)
}

/// A limit, with how often it is met.
fn append_limit(out: &mut Vec<u8>, row: &Tally, limit: &Limit) -> Result<(), NoMemory>
    ensures { OnOk result (out.new.items ≡ out.old.items ++ limit_text row.now limit.now) }
{
    append(out, b"limit: ")?;
    append_shown(out, row.text.as_bytes())?;
    append_count(out, row.count, &limit.path, limit.line)?;
    append(out, b": ")?;
    append(out, kind_text(limit.kind))?;
    append(out, b"\n")
}

/// How many there are, and where the first one is.
fn append_count(out: &mut Vec<u8>, count: u64, path: &Text, line: u64) -> Result<(), NoMemory>
    ensures { OnOk result (out.new.items ≡ out.old.items ++ count_text count path.now line) }
{
    append(out, b" (")?;
    append_number(out, count)?;
    append(out, b"), first ")?;
    append_place(out, path, line)
}

/// What becomes of a network that meets such a limit.
pub(crate) fn kind_text(kind: LimitKind) -> &'static [u8]
    ensures { result.now ≡ kind_text kind }
{
    match kind {
        LimitKind::Ethernet =>
            b"a packet to an unused address of the subnet, as its first one, goes to and fro until it expires; GUIDE.md, section 7",
        LimitKind::Prepared =>
            b"refused; prepare brings it into what is read; GUIDE.md, section 15",
        LimitKind::Idle => b"passed over, and not compared",
        LimitKind::Refused => b"refused, since it isn't in the model; GUIDE.md, section 14",
    }
}

/// The lines that are passed over, counted by their words.
pub(crate) fn append_counted(
    out: &mut Vec<u8>,
    lines: &[ListedLine],
    rows: &[Tally],
) -> Result<(), NoMemory>
    ensures { OnOk result (out.new.items ≡ out.old.items ++ flat_map (counted_line lines.now) rows.now) }
{
    for row in rows {
        append_row(out, row, line_in(lines, row.first))?;
    }
    Ok(())
}

fn line_in(lines: &[ListedLine], place: usize) -> Option<&ListedLine>
    ensures { option_copied result ≡ slice_get lines.now place }
{
    lines.get(place)
}

fn append_row(out: &mut Vec<u8>, row: &Tally, line: Option<&ListedLine>) -> Result<(), NoMemory>
    ensures { OnOk result (out.new.items ≡ out.old.items ++ counted_if_any row.now (option_copied line.entry)) }
{
    let Some(line) = line else {
        return Ok(());
    };
    append(out, b"passed over: ")?;
    append_shown(out, row.text.as_bytes())?;
    append_count(out, row.count, &line.path, line.line)?;
    append(out, b"\n")
}

/// The lines that are passed over, one by one.
pub(crate) fn append_listed(out: &mut Vec<u8>, lines: &[ListedLine]) -> Result<(), NoMemory>
    ensures { OnOk result (out.new.items ≡ out.old.items ++ flat_map listed_line lines.now) }
{
    for line in lines {
        append_line(out, line)?;
    }
    Ok(())
}

fn append_line(out: &mut Vec<u8>, line: &ListedLine) -> Result<(), NoMemory>
    ensures { OnOk result (out.new.items ≡ out.old.items ++ listed_line line.now) }
{
    append_head(out, &line.path, line.line)?;
    append(out, b"passed over")?;
    append_behind(out, &line.text)?;
    append(out, b"\n")
}
