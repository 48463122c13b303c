//! The headers of a set that enter a network at a place, by their labels and the devices that they visit.

ghost use Rattle.std.specs.Prelude.{◌≡◌, ◌≢◌, ◌<◌, ◌≤◌, ℕ, [], List, IfOk, OnOk, filter_map};
ghost use Rattle.hdr_bits.specs.declared.header.Header.{Header};
ghost use Rattle.hdr_bits.specs.HeaderBits.{number, IsHeader};
ghost use Rattle.cube_diagram.specs.Functions.{Keeps, count_of, value_at};
ghost use Rattle.net_types.specs.Order.{in_order, outcome_cmp};
ghost use Rattle.net_view.specs.Borrowed.{world_of};
ghost use Rattle.set_walk.specs.Nets.{IsNet};
ghost use Rattle.set_walk.specs.Sets.{IsWithin};
ghost use Rattle.incr_review.specs.Parts.{AreParts};
ghost use Rattle.incr_review.specs.Walked.{AreLabelled, AreWalked, HaveOutcomes, IsLabelled, device_in, outcome_in, outcomes_of};

use crate::facts::{WalkFact, facts_of};
use crate::parts::{Part, parts_by};
use cube_diagram::Diagrams;
use net_types::{Label, List, NoMemory, Outcome, Place};
use set_walk::{Net, labels_and_visitors};
use std::alloc::Global;

/// Headers that enter at one place, all of which have this label and visit exactly these devices.
#[derive(Drop)]
pub(crate) struct WalkedPart {
    /// The set of the headers, not empty.
    pub(crate) headers: u32,
    pub(crate) label: Label,
    /// The numbers of their names.
    pub(crate) devices: List<u32>,
}

/// The headers of a domain that enter at the place with this TTL, by one walk of all of them.
pub(crate) fn walked_parts(
    alloc: Global,
    table: &mut Diagrams,
    net: &Net,
    place: Place,
    domain: u32,
    ttl: u8,
) -> Result<Vec<WalkedPart>, NoMemory>
    requires net { IsNet table.old net.now }
    requires domain { domain < count_of table.old }
    requires within { IsWithin table.old domain net.now.scope }
    requires ttl { 1 ≤ ttl }
    ensures walked { IfOk result (λ r. AreWalked (world_of net.now.world) ttl place table.new domain r.items) }
    ensures kept { Keeps table.old table.new }
{
    let walked = labels_and_visitors(alloc, table, net, place, domain, ttl)?;
    let facts = facts_of(alloc, &walked)?;
    let parts = parts_by(alloc, table, domain, &facts)?;
    labelled(alloc, &parts)
}

// Each part with the label and the devices that its facts tell.
fn labelled(alloc: Global, parts: &[Part]) -> Result<Vec<WalkedPart>, NoMemory>
    requires { HaveOutcomes parts.now }
    ensures { IfOk result (λ r. AreLabelled parts.now r.items) }
{
    let mut all = Vec::with_capacity(alloc, parts.len())?;
    for part in parts {
        all.push(labelled_part(alloc, part)?)?;
    }
    Ok(all)
}

fn labelled_part(alloc: Global, part: &Part) -> Result<WalkedPart, NoMemory>
    requires { outcomes_of part.now ≢ [] }
    ensures { IfOk result (IsLabelled part.now) }
{
    let outcomes = outcomes_of(alloc, &part.facts)?;
    let label = Label::of(outcomes)?;
    let devices = devices_of(alloc, &part.facts)?;
    Ok(WalkedPart {
        headers: part.headers,
        label,
        devices: List::new(devices),
    })
}

fn outcomes_of(alloc: Global, facts: &[WalkFact]) -> Result<Vec<Outcome>, NoMemory>
    ensures { IfOk result (λ r. r.items ≡ filter_map outcome_in facts.now) }
{
    let outcomes = facts
        .iter()
        .filter_map(|fact| outcome_in(*fact))
        .collect(alloc)?;
    Ok(outcomes)
}

fn outcome_in(fact: WalkFact) -> Option<Outcome>
    ensures { result ≡ outcome_in fact }
{
    match fact {
        WalkFact::Ends { outcome } => Some(outcome),
        WalkFact::Visits { .. } => None,
    }
}

fn devices_of(alloc: Global, facts: &[WalkFact]) -> Result<Vec<u32>, NoMemory>
    ensures { IfOk result (λ r. r.items ≡ filter_map device_in facts.now) }
{
    let devices = facts
        .iter()
        .filter_map(|fact| device_in(*fact))
        .collect(alloc)?;
    Ok(devices)
}

fn device_in(fact: WalkFact) -> Option<u32>
    ensures { result ≡ device_in fact }
{
    match fact {
        WalkFact::Ends { .. } => None,
        WalkFact::Visits { device } => Some(device),
    }
}
