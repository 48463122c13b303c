//! Outcomes, labels, rows and sections as text, a whole report, and the extent of a comparison.

ghost use Rattle.std.specs.Prelude.{◌≡◌, ◌++◌, decimal, flat_map, IfOk, OnOk};
ghost use Rattle.report_text.specs.FieldText.{address_text};
ghost use Rattle.report_text.specs.ReportText.{name_text, place_text, change_text, outcome_text, label_text, row_text, section_text, row_count, affected_text, report_text, summary_text};

use crate::cubes::append_cube;
use crate::fields::{append, append_address, append_number};
use crate::parts::TextPart::{Bytes, Number};
use crate::parts::append_all;
use net_types::{Label, Names, NoMemory, Outcome, Place, Row, Section};
use std::alloc::Global;

/// An outcome as text: `drop`, `expired`, `local DEVICE INTERFACE`, or `exit DEVICE INTERFACE` with those of ` src A`,
/// ` dst A`, ` sport N` and ` dport N` that changed, in this order.
///
/// The names are those at the numbers of the place; a number that is no position in the names is an empty word.
pub fn outcome_bytes(alloc: Global, names: &Names, outcome: &Outcome) -> Result<Vec<u8>, NoMemory>
    ensures { IfOk result (λ text. text.items ≡ outcome_text names.now outcome.now) }
{
    let mut text = Vec::new(alloc);
    append_outcome(&mut text, names, outcome)?;
    Ok(text)
}

/// A label as text: its outcomes in order, as `outcome_bytes` gives them, with ` | ` between them.
pub fn label_bytes(alloc: Global, names: &Names, label: &Label) -> Result<Vec<u8>, NoMemory>
    ensures { IfOk result (λ text. text.items ≡ label_text names.now label.now) }
{
    let mut text = Vec::new(alloc);
    append_label(&mut text, names, label)?;
    Ok(text)
}

/// A report as text, each line of it ended by LF.
///
/// Each section has the line `ingress DEVICE INTERFACE rows N` and, for each row, the lines CUBE, `old LABEL` and
/// `new LABEL`. The last line is `affected N` with the number of all rows.
#[tactic(auto, unfolding(crate::specs::ReportText::report_text))]
pub fn report_bytes(alloc: Global, names: &Names, sections: &[Section]) -> Result<Vec<u8>, NoMemory>
    ensures { IfOk result (λ text. text.items ≡ report_text names.now sections.now) }
{
    let mut text = Vec::new(alloc);
    for section in sections {
        append_section(&mut text, names, section)?;
    }
    append_affected(&mut text, sections)?;
    Ok(text)
}

/// The extent of a comparison as text, each line of it ended by LF.
///
/// The lines are `devices N`, with the number of the devices, `ingresses N`, with that of the sections, and `affected N`
/// with the number of all rows.
#[tactic(auto, unfolding(crate::specs::ReportText::summary_text))]
pub fn summary_bytes(
    alloc: Global,
    devices: usize,
    sections: &[Section],
) -> Result<Vec<u8>, NoMemory>
    ensures { IfOk result (λ text. text.items ≡ summary_text devices sections.now) }
{
    let mut text = Vec::new(alloc);
    append_all(
        &mut text,
        &[
            Bytes(b"devices "),
            Number(devices as u128),
            Bytes(b"\ningresses "),
            Number(sections.len() as u128),
            Bytes(b"\n"),
        ],
    )?;
    append_affected(&mut text, sections)?;
    Ok(text)
}

// The last line: the number of all rows.
#[tactic(auto, unfolding(crate::specs::ReportText::affected_text))]
fn append_affected(out: &mut Vec<u8>, sections: &[Section]) -> Result<(), NoMemory>
    ensures { OnOk result (out.new.items ≡ out.old.items ++ affected_text sections.now) }
{
    append_all(
        out,
        &[
            Bytes(b"affected "),
            Number(row_count(sections)),
            Bytes(b"\n"),
        ],
    )
}

fn row_count(sections: &[Section]) -> u128
    ensures { result ≡ row_count sections.now }
{
    let mut rows: u128 = 0;
    for section in sections {
        rows += section.rows.as_slice().len() as u128;
    }
    rows
}

/// The name of this number; nothing where there is none.
pub fn name_of(names: &Names, number: u32) -> &[u8]
    ensures { result.now ≡ name_text names.now number }
{
    match names.texts.as_slice().get(number as usize) {
        Some(text) => text.as_bytes(),
        None => &[],
    }
}

/// Adds the names of a place at the end. Where memory runs out, a part of them may stand there.
#[tactic(auto, unfolding(crate::specs::ReportText::place_text))]
pub fn append_place(out: &mut Vec<u8>, names: &Names, place: Place) -> Result<(), NoMemory>
    ensures { OnOk result (out.new.items ≡ out.old.items ++ place_text names.now place) }
{
    append_all(
        out,
        &[
            Bytes(name_of(names, place.device)),
            Bytes(b" "),
            Bytes(name_of(names, place.interface)),
        ],
    )
}

fn append_new_address(out: &mut Vec<u8>, name: &[u8], address: Option<u32>) -> Result<(), NoMemory>
    ensures { OnOk result (out.new.items ≡ out.old.items ++ change_text name.now address_text address) }
{
    match address {
        Some(address) => {
            append(out, name)?;
            append_address(out, address)
        }
        None => Ok(()),
    }
}

fn append_new_port(out: &mut Vec<u8>, name: &[u8], port: Option<u16>) -> Result<(), NoMemory>
    ensures { OnOk result (out.new.items ≡ out.old.items ++ change_text name.now decimal port) }
{
    match port {
        Some(port) => {
            append(out, name)?;
            append_number(out, port)
        }
        None => Ok(()),
    }
}

#[tactic(auto, unfolding(crate::specs::ReportText::outcome_text))]
fn append_outcome(out: &mut Vec<u8>, names: &Names, outcome: &Outcome) -> Result<(), NoMemory>
    ensures { OnOk result (out.new.items ≡ out.old.items ++ outcome_text names.now outcome.now) }
{
    match *outcome {
        Outcome::Dropped => append(out, b"drop"),
        Outcome::Expired => append(out, b"expired"),
        Outcome::Local { place } => {
            append(out, b"local ")?;
            append_place(out, names, place)
        }
        Outcome::Exit {
            place,
            src,
            dst,
            sport,
            dport,
        } => {
            append(out, b"exit ")?;
            append_place(out, names, place)?;
            append_new_address(out, b" src ", src)?;
            append_new_address(out, b" dst ", dst)?;
            append_new_port(out, b" sport ", sport)?;
            append_new_port(out, b" dport ", dport)
        }
    }
}

fn append_label(out: &mut Vec<u8>, names: &Names, label: &Label) -> Result<(), NoMemory>
    ensures { OnOk result (out.new.items ≡ out.old.items ++ label_text names.now label.now) }
{
    let [first, rest @ ..] = label.as_slice() else {
        return Ok(());
    };
    append_outcome(out, names, first)?;
    for outcome in rest {
        append(out, b" | ")?;
        append_outcome(out, names, outcome)?;
    }
    Ok(())
}

#[tactic(auto, unfolding(crate::specs::ReportText::row_text))]
fn append_row(out: &mut Vec<u8>, names: &Names, row: &Row) -> Result<(), NoMemory>
    ensures { OnOk result (out.new.items ≡ out.old.items ++ row_text names.now row.now) }
{
    append_cube(out, &row.cube)?;
    append(out, b"\nold ")?;
    append_label(out, names, &row.old)?;
    append(out, b"\nnew ")?;
    append_label(out, names, &row.new)?;
    append(out, b"\n")
}

fn append_rows(out: &mut Vec<u8>, names: &Names, rows: &[Row]) -> Result<(), NoMemory>
    ensures { OnOk result (out.new.items ≡ out.old.items ++ flat_map (row_text names.now) rows.now) }
{
    for row in rows {
        append_row(out, names, row)?;
    }
    Ok(())
}

#[tactic(auto, unfolding(crate::specs::ReportText::section_text))]
fn append_section(out: &mut Vec<u8>, names: &Names, section: &Section) -> Result<(), NoMemory>
    ensures { OnOk result (out.new.items ≡ out.old.items ++ section_text names.now section.now) }
{
    let rows = section.rows.as_slice();
    append(out, b"ingress ")?;
    append_place(out, names, section.place)?;
    append_all(
        out,
        &[Bytes(b" rows "), Number(rows.len() as u128), Bytes(b"\n")],
    )?;
    append_rows(out, names, rows)
}
