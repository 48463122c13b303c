//! Whether a report is of these networks.

ghost use Rattle.std.specs.Prelude.{◌≡◌, ◌≤◌, ℕ, List, IfOk, length};
ghost use Rattle.std.specs.Str.{bytes_eq};
ghost use Rattle.net_types.specs.declared.label.Outcome.{Outcome};
ghost use Rattle.report_text.specs.ReportText.{label_text, place_text};
ghost use Rattle.why_core.specs.Cases.{agreeing, has_outcomes};

use net_types::{Label, List, Names, NoMemory, Outcome, Place, Section};
use report_groups::Entry;
use report_text::{append_place, label_bytes};
use std::alloc::Global;
use view_core::append_outcomes;
use walk_trace::Trace;

/// How many sections, from the first on, are those of the networks' ingresses.
pub(crate) fn agreeing(
    alloc: Global,
    report: &Names,
    names: &Names,
    sections: &[Section],
    ingress: &[Place],
) -> Result<usize, NoMemory>
    ensures count { IfOk result (λ n. n ≡ agreeing report.now names.now sections.now ingress.now) }
    ensures within_sections { IfOk result (λ n. n ≤ length sections.now) }
    ensures within_ingress { IfOk result (λ n. n ≤ length ingress.now) }
{
    let most = sections.len().min(ingress.len());
    for i in 0..most {
        if !are_one(alloc, report, names, sections[i].place, ingress[i])? {
            return Ok(i);
        }
    }
    Ok(most)
}

// Whether two places have the same names.
fn are_one(
    alloc: Global,
    report: &Names,
    names: &Names,
    told: Place,
    place: Place,
) -> Result<bool, NoMemory>
    ensures { IfOk result (λ same. same ≡ bytes_eq (place_text report.now told) (place_text names.now place)) }
{
    let mut said = Vec::new(alloc);
    append_place(&mut said, report, told)?;
    let mut is = Vec::new(alloc);
    append_place(&mut is, names, place)?;
    Ok(said.as_slice() == is.as_slice())
}

/// Whether the outcomes that a report says of a group are those of two traces.
pub(crate) fn has_outcomes(
    alloc: Global,
    report: &Names,
    names: &Names,
    entry: &Entry,
    old: &Trace,
    new: &Trace,
) -> Result<bool, NoMemory>
    ensures { IfOk result (λ has. has ≡ has_outcomes report.now names.now entry.now old.now new.now) }
{
    let old_same = are_alike(alloc, report, names, &entry.group.old, &old.outcome)?;
    let new_same = are_alike(alloc, report, names, &entry.group.new, &new.outcome)?;
    Ok(old_same && new_same)
}

// Whether outcomes that a report says read as a label does.
fn are_alike(
    alloc: Global,
    report: &Names,
    names: &Names,
    told: &List<Outcome>,
    label: &Label,
) -> Result<bool, NoMemory>
    ensures { IfOk result (λ same. same ≡ bytes_eq (label_text report.now told.now) (label_text names.now label.now)) }
{
    let mut said = Vec::new(alloc);
    append_outcomes(alloc, &mut said, report, told)?;
    let is = label_bytes(alloc, names, label)?;
    Ok(said.as_slice() == is.as_slice())
}
