//! A report as text for a person.
ghost use Rattle.std.specs.Prelude.{◌≡◌, ◌++◌, length, map, flat_map, IfOk, OnOk};
ghost use Rattle.report_groups.specs.declared.types.Change.TheVariants as change;
ghost use Rattle.report_text.specs.ReportText.{label_text};
ghost use Rattle.view_core.specs.Groups.{headers_text, group_words, group_text};
ghost use Rattle.view_core.specs.Kinds.{of_kind};
ghost use Rattle.view_core.specs.ViewText.{title_line, summary_head, loop_line, ingress_loops, loops_text, sizes_text, heading_end, heading_text, group_line, ingress_text, view_text};

use crate::fields::append_fields;
use crate::ingresses::{Ingress, is_untouched};
use crate::kinds::{in_order, is_of_kind};
use crate::summary::{append_summary, change_name};
use json_text::{append_count, append_texts};
use net_types::{List, Names, NoMemory, Outcome};
use report_groups::{Change, Entry};
use report_text::{append, append_place, outcome_bytes};
use std::alloc::Global;

/// The report as text: its title where there is one, a summary, all loops, and each ingress with its groups.
pub(crate) fn view_bytes(
    alloc: Global,
    title: &[u8],
    names: &Names,
    ingresses: &[Ingress],
) -> Result<Vec<u8>, NoMemory>
    ensures { IfOk result (λ text. text.items ≡ view_text title.now names.now ingresses.now) }
{
    let mut text = Vec::new(alloc);
    append_view(alloc, &mut text, title, names, ingresses)?;
    Ok(text)
}

#[tactic(auto, unfolding(crate::specs::ViewText::view_text))]
fn append_view(
    alloc: Global,
    out: &mut Vec<u8>,
    title: &[u8],
    names: &Names,
    ingresses: &[Ingress],
) -> Result<(), NoMemory>
    ensures { OnOk result (out.new.items ≡ out.old.items ++ view_text title.now names.now ingresses.now) }
{
    append_title(out, title)?;
    append_head(out, ingresses.len())?;
    append_summary(alloc, out, names, ingresses)?;
    append_loops(alloc, out, names, ingresses)?;
    append_ingresses(alloc, out, names, ingresses)
}

fn append_title(out: &mut Vec<u8>, title: &[u8]) -> Result<(), NoMemory>
    ensures { OnOk result (out.new.items ≡ out.old.items ++ title_line title.now) }
{
    if title.is_empty() {
        return Ok(());
    }
    append_texts(out, &[title, b"\n"])
}

fn append_head(out: &mut Vec<u8>, ingresses: usize) -> Result<(), NoMemory>
    ensures { OnOk result (out.new.items ≡ out.old.items ++ summary_head ingresses) }
{
    append_count(out, b"summary: ingresses ", ingresses as u128)?;
    append(out, b"\n")
}

fn append_loops(
    alloc: Global,
    out: &mut Vec<u8>,
    names: &Names,
    ingresses: &[Ingress],
) -> Result<(), NoMemory>
    ensures { OnOk result (out.new.items ≡ out.old.items ++ loops_text names.now ingresses.now) }
{
    let mut lines = Vec::new(alloc);
    append_loop_lines(alloc, &mut lines, names, ingresses)?;
    if lines.is_empty() {
        return Ok(());
    }
    append_texts(out, &[b"loops\n", &lines, b"\n"])
}

fn append_loop_lines(
    alloc: Global,
    out: &mut Vec<u8>,
    names: &Names,
    ingresses: &[Ingress],
) -> Result<(), NoMemory>
    ensures { OnOk result (out.new.items ≡ out.old.items ++ flat_map (ingress_loops names.now) ingresses.now) }
{
    for ingress in ingresses {
        append_loops_at(alloc, out, names, ingress)?;
    }
    Ok(())
}

fn append_loops_at(
    alloc: Global,
    out: &mut Vec<u8>,
    names: &Names,
    ingress: &Ingress,
) -> Result<(), NoMemory>
    ensures { OnOk result (out.new.items ≡ out.old.items ++ ingress_loops names.now ingress.now) }
{
    let groups = ingress.groups.as_slice();
    for entry in groups {
        if is_of_kind(Change::Loops, entry) {
            append_loop_line(alloc, out, names, ingress, entry)?;
        }
    }
    Ok(())
}

#[tactic(auto, unfolding(crate::specs::ViewText::loop_line))]
fn append_loop_line(
    alloc: Global,
    out: &mut Vec<u8>,
    names: &Names,
    ingress: &Ingress,
    entry: &Entry,
) -> Result<(), NoMemory>
    ensures { OnOk result (out.new.items ≡ out.old.items ++ loop_line names.now ingress.now entry.now) }
{
    append(out, b"  ingress ")?;
    append_place(out, names, ingress.section.place)?;
    append_headers(alloc, out, names, entry)?;
    append(out, b"\n")
}

fn append_ingresses(
    alloc: Global,
    out: &mut Vec<u8>,
    names: &Names,
    ingresses: &[Ingress],
) -> Result<(), NoMemory>
    ensures { OnOk result (out.new.items ≡ out.old.items ++ flat_map (ingress_text names.now) ingresses.now) }
{
    for ingress in ingresses {
        append_ingress(alloc, out, names, ingress)?;
    }
    Ok(())
}

#[tactic(auto, unfolding(crate::specs::ViewText::ingress_text))]
fn append_ingress(
    alloc: Global,
    out: &mut Vec<u8>,
    names: &Names,
    ingress: &Ingress,
) -> Result<(), NoMemory>
    ensures { OnOk result (out.new.items ≡ out.old.items ++ ingress_text names.now ingress.now) }
{
    let groups = in_order(alloc, ingress.groups.as_slice())?;
    append_heading(out, names, ingress)?;
    append_groups(alloc, out, names, &groups)?;
    append(out, b"\n")
}

fn append_heading(out: &mut Vec<u8>, names: &Names, ingress: &Ingress) -> Result<(), NoMemory>
    ensures { OnOk result (out.new.items ≡ out.old.items ++ heading_text names.now ingress.now) }
{
    append(out, b"ingress ")?;
    append_place(out, names, ingress.section.place)?;
    append_heading_end(out, ingress)
}

fn append_heading_end(out: &mut Vec<u8>, ingress: &Ingress) -> Result<(), NoMemory>
    ensures { OnOk result (out.new.items ≡ out.old.items ++ heading_end ingress.now) }
{
    if is_untouched(ingress) {
        return append(out, b": nothing changes\n");
    }
    append_sizes(
        out,
        ingress.section.rows.as_slice().len(),
        ingress.groups.as_slice().len(),
    )
}

fn append_sizes(out: &mut Vec<u8>, rows: usize, groups: usize) -> Result<(), NoMemory>
    ensures { OnOk result (out.new.items ≡ out.old.items ++ sizes_text rows groups) }
{
    append_count(out, b": rows ", rows as u128)?;
    append_count(out, b", groups ", groups as u128)?;
    append(out, b"\n")
}

fn append_groups(
    alloc: Global,
    out: &mut Vec<u8>,
    names: &Names,
    groups: &[&Entry],
) -> Result<(), NoMemory>
    ensures { OnOk result (out.new.items ≡ out.old.items ++ flat_map (group_line names.now) (map (λ e. e.now) groups.now)) }
{
    for group in groups {
        append_group(alloc, out, names, *group)?;
    }
    Ok(())
}

// One line: the change, the headers, and the outcomes.
fn append_group(
    alloc: Global,
    out: &mut Vec<u8>,
    names: &Names,
    entry: &Entry,
) -> Result<(), NoMemory>
    ensures { OnOk result (out.new.items ≡ out.old.items ++ group_line names.now entry.now) }
{
    let line = group_bytes(alloc, names, entry)?;
    append_texts(out, &[b"  ", &line])
}

/// The line of a group: its words, and the end of the line.
///
/// # Errors
///
/// There was no memory.
#[tactic(auto, unfolding(crate::specs::Groups::group_text))]
pub fn group_bytes(alloc: Global, names: &Names, entry: &Entry) -> Result<Vec<u8>, NoMemory>
    ensures { IfOk result (λ text. text.items ≡ group_text names.now entry.now) }
{
    let mut text = group_words(alloc, names, entry)?;
    append(&mut text, b"\n")?;
    Ok(text)
}

/// The words of a group: what the change does to its packets, its headers, and their outcomes in the two networks.
///
/// # Errors
///
/// There was no memory.
#[tactic(auto, unfolding(crate::specs::Groups::group_words))]
pub fn group_words(alloc: Global, names: &Names, entry: &Entry) -> Result<Vec<u8>, NoMemory>
    ensures { IfOk result (λ text. text.items ≡ group_words names.now entry.now) }
{
    let mut text = Vec::new(alloc);
    append(&mut text, change_name(entry.change))?;
    append_headers(alloc, &mut text, names, entry)?;
    Ok(text)
}

#[tactic(auto, unfolding(crate::specs::Groups::headers_text))]
fn append_headers(
    alloc: Global,
    out: &mut Vec<u8>,
    names: &Names,
    entry: &Entry,
) -> Result<(), NoMemory>
    ensures { OnOk result (out.new.items ≡ out.old.items ++ headers_text names.now entry.now) }
{
    append_fields(alloc, out, &entry.shown)?;
    append(out, b": ")?;
    append_outcomes(alloc, out, names, &entry.group.old)?;
    append(out, b" -> ")?;
    append_outcomes(alloc, out, names, &entry.group.new)
}

/// Adds outcomes at the end, with ` | ` between them. Where memory runs out, a part of them may stand there.
pub fn append_outcomes(
    alloc: Global,
    out: &mut Vec<u8>,
    names: &Names,
    outcomes: &List<Outcome>,
) -> Result<(), NoMemory>
    ensures { OnOk result (out.new.items ≡ out.old.items ++ label_text names.now outcomes.now) }
{
    let [first, rest @ ..] = outcomes.as_slice() else {
        return Ok(());
    };
    append(out, &outcome_bytes(alloc, names, first)?)?;
    for outcome in rest {
        let text = outcome_bytes(alloc, names, outcome)?;
        append_texts(out, &[b" | ", &text])?;
    }
    Ok(())
}
