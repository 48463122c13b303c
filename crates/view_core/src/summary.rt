//! What a report says of all its ingresses.

ghost use Rattle.std.specs.Prelude.{◌≡◌, ◌++◌, length, OnOk};
ghost use Rattle.std.specs.List.{flat_map};
ghost use Rattle.view_core.specs.Groups.{change_words};
ghost use Rattle.view_core.specs.Ingresses.{kind_total};
ghost use Rattle.view_core.specs.Kinds.{kind_count};
ghost use Rattle.view_core.specs.Tallies.{tallies};
ghost use Rattle.view_core.specs.ViewText.{kind_line, kind_lines, kind_part, kind_parts, rows_end, changed_line, place_line, some_untouched, untouched_line, counts_text, tally_start, tally_line, changes_text, no_change_text, summary_text};

use crate::ingresses::{Ingress, is_untouched, kind_total, untouched};
use crate::kinds::{KINDS, kind_count};
use crate::tallies::{Count, Tally, tallies_of, version_name};
use json_text::{append_count, append_texts};
use net_types::{Names, NoMemory};
use report_groups::{Change, Entry};
use report_text::TextPart::{Bytes, Number};
use report_text::{append, append_all, append_place};
use std::alloc::Global;

/// What a kind of change is called.
pub(crate) fn change_name(change: Change) -> &'static [u8]
    ensures { result.now ≡ change_words change }
{
    match change {
        Change::Loops => b"loops",
        Change::Closes => b"closes",
        Change::Opens => b"opens",
        Change::Sometimes => b"sometimes",
        Change::Translated => b"translated otherwise",
        Change::Moves => b"moves",
        Change::LoopGone => b"loop gone",
    }
}

/// What changes, or that nothing does at any ingress. Where memory runs out, a part of it may stand there, here and below.
pub(crate) fn append_summary(
    alloc: Global,
    out: &mut Vec<u8>,
    names: &Names,
    ingresses: &[Ingress],
) -> Result<(), NoMemory>
    ensures { OnOk result (out.new.items ≡ out.old.items ++ summary_text names.now ingresses.now) }
{
    if untouched(ingresses) == ingresses.len() {
        append_no_change(out, ingresses.len())
    } else {
        append_changes(alloc, out, names, ingresses)
    }
}

fn append_no_change(out: &mut Vec<u8>, ingresses: usize) -> Result<(), NoMemory>
    ensures { OnOk result (out.new.items ≡ out.old.items ++ no_change_text ingresses) }
{
    append_count(
        out,
        b"  no packet is treated differently at any of ",
        ingresses as u128,
    )?;
    append(out, b" ingresses\n\n")?;
    Ok(())
}

#[tactic(auto, unfolding(crate::specs::ViewText::changes_text))]
fn append_changes(
    alloc: Global,
    out: &mut Vec<u8>,
    names: &Names,
    ingresses: &[Ingress],
) -> Result<(), NoMemory>
    ensures { OnOk result (out.new.items ≡ out.old.items ++ changes_text names.now ingresses.now) }
{
    append_kind_lines(out, ingresses)?;
    append_places(out, names, ingresses)?;
    append_untouched(out, untouched(ingresses), ingresses.len())?;
    append_tallies(alloc, out, names, ingresses)?;
    append(out, b"\n")
}

#[tactic(auto, unfolding(crate::specs::ViewText::kind_lines, crate::specs::Kinds::kinds))]
fn append_kind_lines(out: &mut Vec<u8>, ingresses: &[Ingress]) -> Result<(), NoMemory>
    ensures { OnOk result (out.new.items ≡ out.old.items ++ kind_lines ingresses.now) }
{
    append_lines_of(out, ingresses, &KINDS)
}

fn append_lines_of(
    out: &mut Vec<u8>,
    ingresses: &[Ingress],
    kinds: &[Change],
) -> Result<(), NoMemory>
    ensures { OnOk result (out.new.items ≡ out.old.items ++ flat_map (λ kind. kind_line kind (kind_total ingresses.now kind)) kinds.now) }
{
    for kind in kinds {
        append_kind_line(out, *kind, kind_total(ingresses, *kind))?;
    }
    Ok(())
}

fn append_kind_line(out: &mut Vec<u8>, kind: Change, groups: u128) -> Result<(), NoMemory>
    ensures { OnOk result (out.new.items ≡ out.old.items ++ kind_line kind groups) }
{
    if groups == 0 {
        return Ok(());
    }
    append_all(
        out,
        &[
            Bytes(b"  "),
            Bytes(change_name(kind)),
            Bytes(b" "),
            Number(groups),
            Bytes(b"\n"),
        ],
    )
}

fn append_places(out: &mut Vec<u8>, names: &Names, ingresses: &[Ingress]) -> Result<(), NoMemory>
    ensures { OnOk result (out.new.items ≡ out.old.items ++ flat_map (place_line names.now) ingresses.now) }
{
    for ingress in ingresses {
        append_place_line(out, names, ingress)?;
    }
    Ok(())
}

fn append_place_line(out: &mut Vec<u8>, names: &Names, ingress: &Ingress) -> Result<(), NoMemory>
    ensures { OnOk result (out.new.items ≡ out.old.items ++ place_line names.now ingress.now) }
{
    if is_untouched(ingress) {
        Ok(())
    } else {
        append_changed(out, names, ingress)
    }
}

#[tactic(auto, unfolding(crate::specs::ViewText::changed_line))]
fn append_changed(out: &mut Vec<u8>, names: &Names, ingress: &Ingress) -> Result<(), NoMemory>
    ensures { OnOk result (out.new.items ≡ out.old.items ++ changed_line names.now ingress.now) }
{
    append(out, b"  ingress ")?;
    append_place(out, names, ingress.section.place)?;
    append(out, b": ")?;
    append_kind_parts(out, ingress.groups.as_slice())?;
    append_rows_end(out, ingress.section.rows.as_slice().len())
}

#[tactic(auto, unfolding(crate::specs::ViewText::kind_parts, crate::specs::Kinds::kinds))]
fn append_kind_parts(out: &mut Vec<u8>, groups: &[Entry]) -> Result<(), NoMemory>
    ensures { OnOk result (out.new.items ≡ out.old.items ++ kind_parts groups.now) }
{
    append_parts_of(out, groups, &KINDS)
}

fn append_parts_of(out: &mut Vec<u8>, groups: &[Entry], kinds: &[Change]) -> Result<(), NoMemory>
    ensures { OnOk result (out.new.items ≡ out.old.items ++ flat_map (λ kind. kind_part kind (kind_count groups.now kind)) kinds.now) }
{
    for kind in kinds {
        append_kind_part(out, *kind, kind_count(groups, *kind))?;
    }
    Ok(())
}

fn append_kind_part(out: &mut Vec<u8>, kind: Change, groups: usize) -> Result<(), NoMemory>
    ensures { OnOk result (out.new.items ≡ out.old.items ++ kind_part kind groups) }
{
    if groups == 0 {
        return Ok(());
    }
    append_all(
        out,
        &[
            Bytes(change_name(kind)),
            Bytes(b" "),
            Number(groups as u128),
            Bytes(b", "),
        ],
    )
}

fn append_rows_end(out: &mut Vec<u8>, rows: usize) -> Result<(), NoMemory>
    ensures { OnOk result (out.new.items ≡ out.old.items ++ rows_end rows) }
{
    append_count(out, b"rows ", rows as u128)?;
    append(out, b"\n")
}

fn append_untouched(out: &mut Vec<u8>, untouched: usize, all: usize) -> Result<(), NoMemory>
    ensures { OnOk result (out.new.items ≡ out.old.items ++ untouched_line untouched all) }
{
    if untouched == 0 {
        return Ok(());
    }
    append_some_untouched(out, untouched as u128, all as u128)
}

fn append_some_untouched(out: &mut Vec<u8>, untouched: u128, all: u128) -> Result<(), NoMemory>
    ensures { OnOk result (out.new.items ≡ out.old.items ++ some_untouched untouched all) }
{
    append_count(out, b"  nothing changes at ", untouched)?;
    append_count(out, b" of ", all)?;
    append(out, b" ingresses\n")?;
    Ok(())
}

fn append_tallies(
    alloc: Global,
    out: &mut Vec<u8>,
    names: &Names,
    ingresses: &[Ingress],
) -> Result<(), NoMemory>
    ensures { OnOk result (out.new.items ≡ out.old.items ++ flat_map tally_line (tallies names.now ingresses.now)) }
{
    let tallies = tallies_of(alloc, names, ingresses)?;
    append_tally_lines(out, &tallies)
}

fn append_tally_lines(out: &mut Vec<u8>, tallies: &[Tally]) -> Result<(), NoMemory>
    ensures { OnOk result (out.new.items ≡ out.old.items ++ flat_map tally_line tallies.now) }
{
    for tally in tallies {
        append_tally_line(out, tally)?;
    }
    Ok(())
}

#[tactic(auto, unfolding(crate::specs::ViewText::tally_line))]
fn append_tally_line(out: &mut Vec<u8>, tally: &Tally) -> Result<(), NoMemory>
    ensures { OnOk result (out.new.items ≡ out.old.items ++ tally_line tally.now) }
{
    append_tally_start(out, tally)?;
    append_counts(out, tally.count)
}

fn append_tally_start(out: &mut Vec<u8>, tally: &Tally) -> Result<(), NoMemory>
    ensures { OnOk result (out.new.items ≡ out.old.items ++ tally_start tally.now) }
{
    append_texts(out, &[b"  ", version_name(tally.version), b" "])?;
    append(out, tally.text.as_bytes())
}

fn append_counts(out: &mut Vec<u8>, count: Count) -> Result<(), NoMemory>
    ensures { OnOk result (out.new.items ≡ out.old.items ++ counts_text count) }
{
    append_all(
        out,
        &[
            Bytes(b": groups "),
            Number(count.groups as u128),
            Bytes(b", rows "),
            Number(count.rows as u128),
            Bytes(b"\n"),
        ],
    )
}
