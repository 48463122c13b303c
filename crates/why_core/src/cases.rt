//! The groups of a report, each with its ingress.

ghost use Rattle.std.specs.Prelude.{◌≡◌, ◌++◌, IfOk, OnOk, map};
ghost use Rattle.view_core.specs.Kinds.{in_order};
ghost use Rattle.why_core.specs.Cases.{AreGroups, case_in, cases, cases_at, explained};

use net_types::{NoMemory, Place, Section};
use report_groups::{Entry, group_rows};
use std::alloc::Global;
use view_core::in_order;

/// A group of a section, and the section's ingress by its numbers in the networks.
#[derive(Clone, Copy)]
pub struct CaseRef<'a> {
    pub section: &'a Section,
    pub place: Place,
    pub entry: &'a Entry,
}

/// The groups of each section.
pub(crate) fn groups_of(alloc: Global, sections: &[Section]) -> Result<Vec<Vec<Entry>>, NoMemory>
    ensures { IfOk result (λ groups. AreGroups sections.now (map (λ entries. entries.items) groups.items)) }
{
    let mut groups = Vec::new(alloc);
    for section in sections {
        groups.push(group_rows(alloc, section.rows.as_slice())?)?;
    }
    Ok(groups)
}

/// All groups in the order of the report, those of one ingress as a view shows them.
pub(crate) fn cases_of<'a>(
    alloc: Global,
    sections: &'a [Section],
    ingress: &[Place],
    groups: &'a [Vec<Entry>],
) -> Result<Vec<CaseRef<'a>>, NoMemory>
    ensures { IfOk result (λ found. map case_in found.items ≡ cases sections.now ingress.now (map (λ entries. entries.items) groups.now)) }
{
    let mut found = Vec::new(alloc);
    let count = sections.len().min(ingress.len()).min(groups.len());
    for i in 0..count {
        add_cases(alloc, &mut found, &sections[i], ingress[i], &groups[i])?;
    }
    Ok(found)
}

// Adds the groups of a section.
fn add_cases<'a>(
    alloc: Global,
    found: &mut Vec<CaseRef<'a>>,
    section: &'a Section,
    place: Place,
    entries: &'a [Entry],
) -> Result<(), NoMemory>
    ensures { OnOk result (map case_in found.new.items ≡ map case_in found.old.items ++ cases_at section.now place (in_order entries.now)) }
{
    let ordered = in_order(alloc, entries)?;
    add_ordered(found, section, place, &ordered)
}

fn add_ordered<'a>(
    found: &mut Vec<CaseRef<'a>>,
    section: &'a Section,
    place: Place,
    entries: &[&'a Entry],
) -> Result<(), NoMemory>
    ensures { OnOk result (map case_in found.new.items ≡ map case_in found.old.items ++ cases_at section.now place (map (λ e. e.now) entries.now)) }
{
    for entry in entries {
        found.push(CaseRef {
            section,
            place,
            entry: *entry,
        })?;
    }
    Ok(())
}

/// All groups, or the first hundred.
pub(crate) fn explained<'a, 'b>(all: bool, cases: &'b [CaseRef<'a>]) -> &'b [CaseRef<'a>]
    ensures { map case_in result.now ≡ explained all (map case_in cases.now) }
{
    if all || cases.len() <= 100 {
        return cases;
    }
    let (first, _) = cases.split_at(100);
    first
}
