//! The report on two networks.

ghost use Rattle.std.specs.Prelude.{◌≡◌, ◌<◌, ◌≤◌, ◌^◌, ℕ, IfOk, IfSome, length};
ghost use Rattle.net_forms.specs.Pairs.{AreBothForms, ArePreparedParts};
ghost use Rattle.net_types.specs.Report.{IsReport};
ghost use Rattle.net_view.specs.Borrowed.{world_of};
ghost use Rattle.set_walk.specs.Scopes.{AreAlikeBeyond};
ghost use Rattle.place_ways.specs.Places.{ArePlaceWays};
ghost use Rattle.indexmap.specs.IndexMap.{get};
ghost use Rattle.net_types.specs.World.{same_place};
ghost use Rattle.net_compare.specs.Networks.{world};

use crate::known::{NetPair, compare_in};
use change_scope::scope_of;
use cube_diagram::Diagrams;
use list_tables::prepared_by_workers;
use net_forms::{BothForms, Networks, PreparedParts, Tables};
use net_types::{Links, Network, NoMemory, Place, Section};
use net_view::WorldRef;
use place_ways::{BothWays, ways_of_both};
use set_walk::Net;
use std::alloc::Global;
use std::sync::Wait;
use std::thread::Threads;
use steal_pool::{Gate, Workers};

/// The scope of a change, with the ways of all places of both networks for its headers.
pub struct ScopedWays {
    /// The number of the function that has a value on exactly the headers of the scope.
    pub scope: u32,
    pub ways: BothWays,
}

impl Drop for ScopedWays {
    fn drop(self) {
        let ScopedWays { scope: _, ways: _ } = self;
    }
}

/// The report on two networks with the same links: for each ingress, in order, the canonical rows of exactly the
/// headers whose outcomes under this TTL differ, each with its two labels.
///
/// The report is the same for each number of workers. The TTL is at least 1. It answers `NoMemory` only where there was none.
pub fn compare<G: Gate + Sync, R: Threads + Wait + Sync>(
    by: &Workers<R, G>,
    alloc: Global,
    old: &Network,
    new: &Network,
    links: &Links,
    ttl: u8,
) -> Result<Vec<Section>, NoMemory>
    requires { 1 ≤ ttl }
    ensures { IfOk result (λ sections. IsReport links.now.ingress (world old.now links.now) (world new.now links.now) ttl sections.items) }
{
    let networks = Networks {
        old: WorldRef {
            network: old,
            links,
        },
        new: WorldRef {
            network: new,
            links,
        },
    };
    compare_worlds(by, alloc, networks, links.ingress.as_slice(), ttl)
}

/// The same of two networks with links of their own, for these ingresses.
pub fn compare_worlds<G: Gate + Sync, R: Threads + Wait + Sync>(
    by: &Workers<R, G>,
    alloc: Global,
    networks: Networks,
    ingress: &[Place],
    ttl: u8,
) -> Result<Vec<Section>, NoMemory>
    requires { 1 ≤ ttl }
    ensures { IfOk result (λ sections. IsReport ingress.now (world_of networks.entry.old) (world_of networks.entry.new) ttl sections.items) }
{
    // A slot has a number of 32 bits.
    if ingress.len() > u32::MAX as usize {
        return Err(NoMemory);
    }
    let prepared = prepared_by_workers(by, alloc, networks)?;
    sections_prepared(by, alloc, prepared.into_parts(), ingress, ttl)
}

// The sections of two compiled networks.
fn sections_prepared<G: Gate + Sync, R: Threads + Wait + Sync>(
    by: &Workers<R, G>,
    alloc: Global,
    parts: PreparedParts,
    ingress: &[Place],
    ttl: u8,
) -> Result<Vec<Section>, NoMemory>
    requires ttl { 1 ≤ ttl }
    requires few { length ingress.now < 2 ^ 32 }
    requires parts { ArePreparedParts (record { old = world_of parts.old.world; new = world_of parts.new.world }) parts }
    ensures { IfOk result (λ sections. IsReport ingress.now (world_of parts.entry.old.world) (world_of parts.entry.new.world) ttl sections.items) }
{
    let PreparedParts {
        tables,
        old,
        new,
        like,
    } = parts;
    let Tables { diagrams, fates } = tables;
    let forms = BothForms {
        fates: &fates,
        old: &old,
        new: &new,
        like: &like,
    };
    sections_formed(by, alloc, diagrams, forms, ingress, ttl)
}

// The sections of two networks with these forms in the table.
fn sections_formed<G: Gate + Sync, R: Threads + Wait + Sync>(
    by: &Workers<R, G>,
    alloc: Global,
    mut table: Diagrams,
    forms: BothForms,
    ingress: &[Place],
    ttl: u8,
) -> Result<Vec<Section>, NoMemory>
    requires ttl { 1 ≤ ttl }
    requires few { length ingress.now < 2 ^ 32 }
    requires forms { AreBothForms table forms }
    ensures { IfOk result (λ sections. IsReport ingress.now (world_of forms.entry.old.now.world) (world_of forms.entry.new.now.world) ttl sections.items) }
{
    let scoped = scoped_ways(alloc, forms, &mut table)?;
    let networks = Networks {
        old: forms.old.world,
        new: forms.new.world,
    };
    let walked = Walked {
        networks,
        scoped: &scoped,
    };
    sections_by(by, alloc, table, walked, ingress, ttl)
}

/// The scope of the change from one compiled network to the other, and the ways of all places for its headers.
///
/// It answers `NoMemory` only where there was none.
pub fn scoped_ways<'a>(
    alloc: Global,
    forms: BothForms<'a>,
    table: &mut Diagrams,
) -> Result<ScopedWays, NoMemory>
    requires { AreBothForms table.old forms }
    ensures old { IfOk result (λ r. ArePlaceWays (world_of forms.entry.old.now.world) table.new r.scope r.ways.lists.items (get same_place r.ways.old)) }
    ensures new { IfOk result (λ r. ArePlaceWays (world_of forms.entry.new.now.world) table.new r.scope r.ways.lists.items (get same_place r.ways.new)) }
    ensures beyond { IfOk result (λ r. AreAlikeBeyond (world_of forms.entry.old.now.world) (world_of forms.entry.new.now.world) table.new r.scope) }
{
    let scope = scope_of(alloc, forms.fates, forms.old, forms.new, forms.like, table)?;
    let ways = ways_of_both(alloc, forms, scope, table)?;
    Ok(ScopedWays { scope, ways })
}

// Two networks with the ways of all places for the headers of a scope, outside which they do the same.
#[derive(Clone, Copy)]
struct Walked<'a> {
    networks: Networks<'a>,
    scoped: &'a ScopedWays,
}

// By these ways.
fn sections_by<G: Gate + Sync, R: Threads + Wait + Sync>(
    by: &Workers<R, G>,
    alloc: Global,
    table: Diagrams,
    walked: Walked,
    ingress: &[Place],
    ttl: u8,
) -> Result<Vec<Section>, NoMemory>
    requires ttl { 1 ≤ ttl }
    requires few { length ingress.now < 2 ^ 32 }
    requires old { ArePlaceWays (world_of walked.networks.old) table walked.scoped.now.scope walked.scoped.now.ways.lists.items (get same_place walked.scoped.now.ways.old) }
    requires new { ArePlaceWays (world_of walked.networks.new) table walked.scoped.now.scope walked.scoped.now.ways.lists.items (get same_place walked.scoped.now.ways.new) }
    requires beyond { AreAlikeBeyond (world_of walked.networks.old) (world_of walked.networks.new) table walked.scoped.now.scope }
    ensures { IfOk result (λ sections. IsReport ingress.now (world_of walked.entry.networks.old) (world_of walked.entry.networks.new) ttl sections.items) }
{
    let scope = walked.scoped.scope;
    let ways = &walked.scoped.ways;
    let old = Net {
        world: walked.networks.old,
        places: &ways.old,
        lists: &ways.lists,
        scope,
    };
    let new = Net {
        world: walked.networks.new,
        places: &ways.new,
        lists: &ways.lists,
        scope,
    };
    let nets = NetPair {
        old: &old,
        new: &new,
    };
    compare_in(by, alloc, table, nets, ingress, ttl)
}
