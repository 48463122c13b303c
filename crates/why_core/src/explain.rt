//! What becomes of the least header of each group in both networks.

ghost use Rattle.std.specs.Prelude.{◌≡◌, ◌++◌, ◌∷◌, [], None, IfOk, IfSome, IsTrue, OnOk, Contains, length, map};
ghost use Rattle.std.specs.List.{list_all};
ghost use Rattle.why_core.specs.Cases.{Case, case_in, ground_of, has_outcomes, is_right, packet_text, told_text};
ghost use Rattle.why_core.specs.Shown.{case_shown, shown_of};
ghost use Rattle.why_core.specs.Told.{IsTold, IsToldOf, IsWrong, AreRight};

use crate::basis::Basis;
use crate::cases::{CaseRef, cases_of, explained, groups_of};
use crate::gathered::gathered;
use crate::json::told_json;
use crate::lines::head_or_end;
use crate::right::{agreeing, has_outcomes};
use crate::words::{FIRST_TTL, Manner};
use hdr_bits::Header;
use net_types::{Names, NoMemory, Place, Section};
use report_groups::least_header;
use report_text::{append, append_place, header_bytes};
use std::alloc::Global;
use trace_sides::sides_bytes;
use view_core::{Format, group_bytes};
use walk_trace::{Trace, trace_on};

/// What there is to say of a report and two networks.
#[derive(Drop)]
pub enum Told {
    /// The explanation of its groups.
    Explained { text: Vec<u8> },
    /// It is one of other networks, which is seen in the section that begins with this line; it is empty behind the last one.
    Other { line: Vec<u8> },
}

/// A header, and what becomes of it in both networks.
pub(crate) struct Followed {
    pub(crate) header: Header,
    pub(crate) old: Trace,
    pub(crate) new: Trace,
}

impl Drop for Followed {
    fn drop(self) {
        let Followed {
            header: _,
            old: _,
            new: _,
        } = self;
    }
}

/// The explanation of a report's groups, of all or the first hundred; or that it is one of other networks.
pub(crate) fn explanation(
    alloc: Global,
    basis: &mut Basis,
    sections: &[Section],
    ingress: &[Place],
    manner: Manner,
) -> Result<Told, NoMemory>
    ensures { IfOk result (IsTold (ground_of basis.old) ingress.now manner sections.now) }
{
    let count = agreeing(alloc, basis.report, basis.names, sections, ingress)?;
    if count < sections.len() || count < ingress.len() {
        let line = head_or_end(alloc, basis.report, sections.get(count))?;
        return Ok(Told::Other { line });
    }
    let groups = groups_of(alloc, sections)?;
    let cases = cases_of(alloc, sections, ingress, &groups)?;
    told_of(alloc, basis, &cases, manner)
}

fn told_of(
    alloc: Global,
    basis: &mut Basis,
    cases: &[CaseRef],
    manner: Manner,
) -> Result<Told, NoMemory>
    ensures { IfOk result (IsToldOf (ground_of basis.old) (map case_in cases.now) manner) }
{
    let some = explained(manner.all, cases);
    let mut told = Vec::new(alloc);
    match add_cases(alloc, &mut told, basis, some, manner.format)? {
        None => {
            let text = gathered(alloc, cases.len(), &told, manner.format)?;
            Ok(Told::Explained { text })
        }
        Some(case) => {
            let line = head_or_end(alloc, basis.report, Some(case.section))?;
            Ok(Told::Other { line })
        }
    }
}

// Adds what is said of each group, up to the first of which the report says something else.
fn add_cases<'a>(
    alloc: Global,
    told: &mut Vec<Vec<u8>>,
    basis: &mut Basis,
    cases: &[CaseRef<'a>],
    format: Format,
) -> Result<Option<CaseRef<'a>>, NoMemory>
    ensures told { IfOk result (λ wrong. wrong ≡ None → map (λ text. text.items) told.new.items ≡ map (λ text. text.items) told.old.items ++ map (case_shown format (ground_of basis.old)) (map case_in cases.now)) }
    ensures right { IfOk result (λ wrong. wrong ≡ None → AreRight (ground_of basis.old) (map case_in cases.now)) }
    ensures wrong { IfOk result (λ wrong. IfSome wrong (λ case. IsWrong (ground_of basis.old) (map case_in cases.now) (case_in case))) }
    ensures same { ground_of basis.new ≡ ground_of basis.old }
{
    for case in cases {
        if !add_case(alloc, told, basis, *case, format)? {
            return Ok(Some(*case));
        }
    }
    Ok(None)
}

// Adds what is said of a group, and answers whether the report says of it what both networks do.
fn add_case(
    alloc: Global,
    told: &mut Vec<Vec<u8>>,
    basis: &mut Basis,
    case: CaseRef,
    format: Format,
) -> Result<bool, NoMemory>
    ensures right { IfOk result (λ right. right ≡ is_right (ground_of basis.old) (case_in case.entry)) }
    ensures told { IfOk result (λ right. IsTrue right → map (λ text. text.items) told.new.items ≡ map (λ text. text.items) told.old.items ++ case_shown format (ground_of basis.old) (case_in case.entry) ∷ []) }
    ensures same { ground_of basis.new ≡ ground_of basis.old }
{
    let header = least_header(&case.entry.group);
    let old = trace_on(alloc, &mut basis.before, case.place, &header, FIRST_TTL)?;
    let new = trace_on(alloc, &mut basis.after, case.place, &header, FIRST_TTL)?;
    let followed = Followed { header, old, new };
    add_followed(alloc, told, basis, case, &followed, format)
}

fn add_followed(
    alloc: Global,
    told: &mut Vec<Vec<u8>>,
    basis: &Basis,
    case: CaseRef,
    followed: &Followed,
    format: Format,
) -> Result<bool, NoMemory>
    ensures right { IfOk result (λ right. right ≡ has_outcomes basis.now.report.now basis.now.names.now case.entry.entry.now followed.now.old followed.now.new) }
    ensures told { IfOk result (λ right. IsTrue right → map (λ text. text.items) told.new.items ≡ map (λ text. text.items) told.old.items ++ shown_of format basis.now.report.now basis.now.names.now (case_in case.entry) followed.now.header followed.now.old followed.now.new ∷ []) }
{
    if !has_outcomes(
        alloc,
        basis.report,
        basis.names,
        case.entry,
        &followed.old,
        &followed.new,
    )? {
        return Ok(false);
    }
    told.push(shown(alloc, basis, case, followed, format)?)?;
    Ok(true)
}

// What is said of a group and its header.
fn shown(
    alloc: Global,
    basis: &Basis,
    case: CaseRef,
    followed: &Followed,
    format: Format,
) -> Result<Vec<u8>, NoMemory>
    ensures { IfOk result (λ text. text.items ≡ shown_of format basis.now.report.now basis.now.names.now (case_in case.entry) followed.now.header followed.now.old followed.now.new) }
{
    match format {
        Format::Text => told_bytes(alloc, basis, case, followed),
        Format::Json => told_json(alloc, basis, case, followed),
    }
}

// The line of a group, and its header with its traces.
fn told_bytes(
    alloc: Global,
    basis: &Basis,
    case: CaseRef,
    followed: &Followed,
) -> Result<Vec<u8>, NoMemory>
    ensures { IfOk result (λ text. text.items ≡ told_text basis.now.report.now basis.now.names.now (case_in case.entry) followed.now.header followed.now.old followed.now.new) }
{
    let mut text = Vec::new(alloc);
    append_told(alloc, &mut text, basis, case, followed)?;
    Ok(text)
}

#[tactic(auto, unfolding(crate::specs::Cases::told_text))]
fn append_told(
    alloc: Global,
    out: &mut Vec<u8>,
    basis: &Basis,
    case: CaseRef,
    followed: &Followed,
) -> Result<(), NoMemory>
    ensures { OnOk result (out.new.items ≡ out.old.items ++ told_text basis.now.report.now basis.now.names.now (case_in case.entry) followed.now.header followed.now.old followed.now.new) }
{
    append(out, b"ingress ")?;
    append_place(out, basis.report, case.section.place)?;
    append(out, b": ")?;
    append(out, &group_bytes(alloc, basis.report, case.entry)?)?;
    append_packet(alloc, out, basis.names, followed)?;
    append(out, b"\n")
}

// A header, and its traces.
#[tactic(auto, unfolding(crate::specs::Cases::packet_text))]
fn append_packet(
    alloc: Global,
    out: &mut Vec<u8>,
    names: &Names,
    followed: &Followed,
) -> Result<(), NoMemory>
    ensures { OnOk result (out.new.items ≡ out.old.items ++ packet_text names.now followed.now.header followed.now.old followed.now.new) }
{
    append(out, b"packet ")?;
    append(out, &header_bytes(alloc, &followed.header)?)?;
    append(out, b"\n")?;
    append(
        out,
        &sides_bytes(alloc, names, &followed.old, &followed.new)?,
    )
}
