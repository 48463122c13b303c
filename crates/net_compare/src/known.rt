//! The report on two networks whose ways are known.

ghost use Rattle.std.specs.Prelude.{◌≡◌, ◌<◌, ◌≤◌, ◌^◌, ℕ, IfOk, IfSome, length};
ghost use Rattle.cube_diagram.specs.Functions.{Keeps};
ghost use Rattle.net_types.specs.Report.{IsReport};
ghost use Rattle.net_types.specs.World.{World};
ghost use Rattle.net_view.specs.Borrowed.{world_of};
ghost use Rattle.set_walk.specs.Nets.{IsNet};
ghost use Rattle.set_walk.specs.Scopes.{AreAlikeBeyond};
ghost use Rattle.net_compare.specs.Slots.{AreRowsOfSlots, affected_in};
ghost use Rattle.net_compare.specs.Walkable.{AreWalkable, gives_of};

use crate::alone::compare_alone;
use crate::classes::Classes;
use crate::compared::Compared;
use crate::slots::Slots;
use crate::source::Ingresses;
use cube_diagram::Diagrams;
use difference_reach::Reach;
use net_types::{List, NoMemory, Place, Section};
use pair_rows::{Pairing, SlotRows, rows_by_workers};
use set_walk::Net;
use std::alloc::Global;
use std::marker::Brand;
use std::sync::Wait;
use std::thread::Threads;
use steal_pool::{Gate, Workers};
use table_twins::{Base, Twins};

// So many functions are copied in the time of a walk from an ingress, about.
const COPIED_FOR_INGRESS: usize = 4096;

/// Two networks, each with the ways of its places for the headers of one scope, in one list of ways.
#[derive(Clone, Copy)]
pub struct NetPair<'a> {
    pub old: &'a Net<'a>,
    pub new: &'a Net<'a>,
}

/// The report on two networks whose ways are known in this table for the headers of a scope, outside which they do the same: for each
/// ingress, in order, the canonical rows of exactly the headers whose outcomes under this TTL differ, each with its two labels.
/// Functions may be added to the table, but none that was there is changed.
///
/// The report is the same for each number of workers. The TTL is at least 1. It answers `NoMemory` only where there was none.
pub fn compare_known<G: Gate + Sync, R: Threads + Wait + Sync>(
    by: &Workers<R, G>,
    alloc: Global,
    table: &mut Diagrams,
    nets: NetPair,
    ingress: &[Place],
    ttl: u8,
) -> Result<Vec<Section>, NoMemory>
    requires ttl { 1 ≤ ttl }
    requires few { length ingress.now < 2 ^ 32 }
    requires old { IsNet table.old nets.old.now }
    requires new { IsNet table.old nets.new.now }
    requires scope { nets.old.now.scope ≡ nets.new.now.scope }
    requires lists { nets.old.now.lists.now ≡ nets.new.now.lists.now }
    requires beyond { AreAlikeBeyond (world_of nets.old.now.world) (world_of nets.new.now.world) table.old nets.old.now.scope }
    ensures report { IfOk result (λ sections. IsReport ingress.now (world_of nets.entry.old.now.world) (world_of nets.entry.new.now.world) ttl sections.items) }
    ensures kept { Keeps table.old table.new }
{
    if by.count == 1 || are_dear(table.count(), ingress.len()) {
        return compare_alone(alloc, table, nets, ingress, ttl);
    }
    let copy = table.twin()?;
    compare_in(by, alloc, copy, nets, ingress, ttl)
}

// Whether copies of so many functions, one for each worker, cost more than the walks from so many ingresses that workers share.
fn are_dear(functions: usize, ingresses: usize) -> bool {
    functions / COPIED_FOR_INGRESS > ingresses
}

/// The same, in a table that is given up.
pub(crate) fn compare_in<G: Gate + Sync, R: Threads + Wait + Sync>(
    by: &Workers<R, G>,
    alloc: Global,
    mut table: Diagrams,
    nets: NetPair,
    ingress: &[Place],
    ttl: u8,
) -> Result<Vec<Section>, NoMemory>
    requires ttl { 1 ≤ ttl }
    requires few { length ingress.now < 2 ^ 32 }
    requires old { IsNet table nets.old.now }
    requires new { IsNet table nets.new.now }
    requires scope { nets.old.now.scope ≡ nets.new.now.scope }
    requires lists { nets.old.now.lists.now ≡ nets.new.now.lists.now }
    requires beyond { AreAlikeBeyond (world_of nets.old.now.world) (world_of nets.new.now.world) table nets.old.now.scope }
    ensures { IfOk result (λ sections. IsReport ingress.now (world_of nets.entry.old.now.world) (world_of nets.entry.new.now.world) ttl sections.items) }
{
    let reach = Reach::of(alloc, &mut table, nets.old, nets.new)?;
    let classes = Classes::new(alloc);
    let compared = Compared {
        old: nets.old,
        new: nets.new,
        reach: &reach,
        classes: &classes,
        ingress,
        ttl,
    };
    sections_at(by, alloc, table, &compared)
}

// The sections of the ingresses, in their order. What each header is given in each slot is named for it by a type.
fn sections_at<G: Gate + Sync, R: Threads + Wait + Sync>(
    by: &Workers<R, G>,
    alloc: Global,
    table: Diagrams,
    compared: &Compared,
) -> Result<Vec<Section>, NoMemory>
    requires { AreWalkable table compared.now }
    ensures { IfOk result (λ sections. IsReport compared.now.ingress.now (world_of compared.now.old.now.world) (world_of compared.now.new.now.world) compared.now.ttl sections.items) }
{
    sections_named::<Brand, G, R>(by, alloc, table, compared)
}

fn sections_named<K: Pairing + Base + Send + Sync, G: Gate + Sync, R: Threads + Wait + Sync>(
    by: &Workers<R, G>,
    alloc: Global,
    table: Diagrams,
    compared: &Compared,
) -> Result<Vec<Section>, NoMemory>
    requires nets { AreWalkable table compared.now }
    requires base { K.base ≡ table }
    requires gives { K.gives ≡ gives_of compared.now }
    ensures { IfOk result (λ sections. IsReport compared.now.ingress.now (world_of compared.now.old.now.world) (world_of compared.now.new.now.world) compared.now.ttl sections.items) }
{
    let slots: Slots<K> = Slots::of(compared);
    let all = rows_of(by, alloc, table, &slots)?;
    let sections = sections_of(alloc, compared.ingress, all)?;
    Ok(sections)
}

// The rows of each ingress. One who walks alone walks in the table itself, several in copies.
fn rows_of<K: Pairing + Base + Send + Sync, G: Gate + Sync, R: Threads + Wait + Sync>(
    by: &Workers<R, G>,
    alloc: Global,
    table: Diagrams,
    slots: &Slots<K>,
) -> Result<Vec<SlotRows>, NoMemory>
    requires { K.base ≡ table }
    ensures { IfOk result (λ all. AreRowsOfSlots K.gives (length slots.now) all.items) }
{
    if by.count == 1 || slots.count() < 2 {
        return rows_alone(by, alloc, table, slots);
    }
    rows_shared(by, alloc, &table, slots)
}

fn rows_alone<K: Pairing + Base + Send + Sync, G: Gate + Sync, R: Threads + Wait + Sync>(
    by: &Workers<R, G>,
    alloc: Global,
    table: Diagrams,
    slots: &Slots<K>,
) -> Result<Vec<SlotRows>, NoMemory>
    requires { K.base ≡ table }
    ensures { IfOk result (λ all. AreRowsOfSlots K.gives (length slots.now) all.items) }
{
    let twins: Twins<K> = Twins::of(alloc, table)?;
    rows_in(by, alloc, None, &twins, slots)
}

fn rows_shared<K: Pairing + Base + Send + Sync, G: Gate + Sync, R: Threads + Wait + Sync>(
    by: &Workers<R, G>,
    alloc: Global,
    table: &Diagrams,
    slots: &Slots<K>,
) -> Result<Vec<SlotRows>, NoMemory>
    requires { K.base ≡ table.now }
    ensures { IfOk result (λ all. AreRowsOfSlots K.gives (length slots.now) all.items) }
{
    let twins: Twins<K> = Twins::new(alloc);
    rows_in(by, alloc, Some(table), &twins, slots)
}

// By workers who walk in these twins of the base.
fn rows_in<K: Pairing + Base + Send + Sync, G: Gate + Sync, R: Threads + Wait + Sync>(
    by: &Workers<R, G>,
    alloc: Global,
    base: Option<&Diagrams>,
    twins: &Twins<K>,
    slots: &Slots<K>,
) -> Result<Vec<SlotRows>, NoMemory>
    requires { IfSome base (λ b. K.base ≡ b.now) }
    ensures { IfOk result (λ all. AreRowsOfSlots K.gives (length slots.now) all.items) }
{
    let source: Ingresses<R, K> = Ingresses::of(by.rt, base, twins, slots);
    let count = slots.count();
    let all = rows_by_workers::<Ingresses<R, K>, K, G, R>(by, alloc, &source, count)?;
    Ok(all)
}

// The rows of each slot as the section of its ingress.
fn sections_of(
    alloc: Global,
    ingress: &[Place],
    all: Vec<SlotRows>,
) -> Result<Vec<Section>, NoMemory>
    requires { length all.items ≡ length ingress.now }
    ensures { IfOk result (λ sections. (old new : World) (t : ℕ) → AreRowsOfSlots (affected_in old new t ingress.now) (length ingress.now) all.items → IsReport ingress.now old new t sections.items) }
{
    let mut sections = Vec::new(alloc);
    let mut rest = all.into_iter();
    for place in ingress {
        let Some(slot) = rest.next() else {
            unreachable!();
        };
        sections.push(Section {
            place: *place,
            rows: List::new(slot.rows),
        })?;
    }
    Ok(sections)
}
