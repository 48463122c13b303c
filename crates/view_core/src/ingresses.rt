//! The ingresses of a report with the groups of their rows.

ghost use Rattle.std.specs.Prelude.{◌≡◌, IfOk, count_by};
ghost use Rattle.view_core.specs.Ingresses.{IsIngress, AreIngresses, is_untouched, untouched, group_count, kind_total, all_rows};

use crate::kinds::kind_count;
use net_types::{List, NoMemory, Section};
use report_groups::{Change, Entry, group_rows};
use std::alloc::Global;

/// An ingress of a report: its rows, and their groups.
pub struct Ingress {
    pub section: Section,
    pub groups: List<Entry>,
}

impl Drop for Ingress {
    fn drop(self) {
        let Ingress {
            section: _,
            groups: _,
        } = self;
    }
}

/// Each section of a report with its groups.
pub(crate) fn ingresses_of(alloc: Global, sections: Vec<Section>) -> Result<Vec<Ingress>, NoMemory>
    ensures { IfOk result (λ ingresses. AreIngresses sections.items ingresses.items) }
{
    let mut ingresses = Vec::with_capacity(alloc, sections.len())?;
    for section in sections {
        let ingress = ingress_of(alloc, section)?;
        ingresses.push(ingress)?;
    }
    Ok(ingresses)
}

fn ingress_of(alloc: Global, section: Section) -> Result<Ingress, NoMemory>
    ensures section { IfOk result (λ i. i.section ≡ section) }
    ensures groups { IfOk result IsIngress }
{
    let groups = group_rows(alloc, section.rows.as_slice())?;
    Ok(Ingress {
        section,
        groups: List::new(groups),
    })
}

/// Whether no packet that enters there is treated differently.
pub(crate) fn is_untouched(ingress: &Ingress) -> bool
    ensures { result ≡ is_untouched ingress.now }
{
    ingress.section.rows.as_slice().is_empty()
}

/// At how many ingresses nothing changes.
pub(crate) fn untouched(ingresses: &[Ingress]) -> usize
    ensures { result ≡ untouched ingresses.now }
{
    let mut count = 0;
    for ingress in ingresses {
        if is_untouched(ingress) {
            count += 1;
        }
    }
    count
}

/// How many groups there are.
pub(crate) fn group_count(ingresses: &[Ingress]) -> u128
    ensures { result ≡ group_count ingresses.now }
{
    let mut groups: u128 = 0;
    for ingress in ingresses {
        groups += ingress.groups.as_slice().len() as u128;
    }
    groups
}

/// How many groups are of this kind.
pub(crate) fn kind_total(ingresses: &[Ingress], kind: Change) -> u128
    ensures { result ≡ kind_total ingresses.now kind }
{
    let mut groups: u128 = 0;
    for ingress in ingresses {
        groups += kind_count(ingress.groups.as_slice(), kind) as u128;
    }
    groups
}

/// How many rows there are.
pub(crate) fn all_rows(ingresses: &[Ingress]) -> u128
    ensures { result ≡ all_rows ingresses.now }
{
    let mut rows: u128 = 0;
    for ingress in ingresses {
        rows += ingress.section.rows.as_slice().len() as u128;
    }
    rows
}
