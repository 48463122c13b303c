//! Walks of a whole network for the regions of a review.

ghost use Rattle.std.specs.Prelude.{◌≡◌, ◌≤◌, ◌<◌, ◌+◌, ◌^◌, ◌++◌, IfOk, OnErr, OnOk, count_by, filter, length, true, vec_len, vec_capacity};
ghost use Rattle.hdr_bits.specs.declared.header.Header.{Header};
ghost use Rattle.indexmap.specs.IndexMap.{get};
ghost use Rattle.cube_diagram.specs.Functions.{Keeps, count_of};
ghost use Rattle.net_types.specs.World.{same_place};
ghost use Rattle.net_view.specs.Borrowed.{world_of};
ghost use Rattle.set_walk.specs.Nets.{IsNet};
ghost use Rattle.set_walk.specs.Sets.{InSet};
ghost use Rattle.incr_review.specs.Again.{AddsAgain, ArePlaced, IsWalkIn, leaves};
ghost use Rattle.incr_review.specs.Groups.{IsDisjoint};
ghost use Rattle.incr_review.specs.Live.{AreWaysGiven};
ghost use Rattle.incr_review.specs.Opened.{AreOpened};
ghost use Rattle.incr_review.specs.Regions.{AreReviewed, StandApart, stays};
ghost use Rattle.incr_review.specs.Walking.{HaveWalked, IsAgainAfter, IsChangedSet, IsWalkOf, step_of};

use crate::changed::{WaysChange, changed_headers};
use crate::groups::{add_groups, leaving_groups};
use crate::regions::{Region, Touched, Walk, Walking, add_regions, stays};
use crate::split::{Split, split_leaving};
use cube_diagram::Diagrams;
use indexmap::IndexMap;
use net_types::{NetDevice, NoMemory, Place};
use set_walk::Net;
use std::alloc::Global;

/// What is walked after an edit, with this TTL.
#[derive(Clone, Copy)]
pub(crate) struct Again<'a> {
    /// The network after it, for all headers.
    pub(crate) net: &'a Net<'a>,
    /// The position of a place's ways before it.
    pub(crate) before: &'a IndexMap<Place, usize>,
    /// The device that was edited.
    pub(crate) device: &'a NetDevice,
    /// Whether it is known that no device translates.
    pub(crate) plain: bool,
    pub(crate) ttl: u8,
}

/// The regions of all headers at each ingress, where the old network is this one too.
pub(crate) fn opened(
    alloc: Global,
    table: &mut Diagrams,
    net: &Net,
    ttl: u8,
) -> Result<Vec<Region>, NoMemory>
    requires net { IsNet table.old net.now }
    requires all { (h : Header) → InSet table.old net.now.scope h }
    requires least { 1 ≤ ttl }
    requires few { length net.now.world.links.now.ingress < 2 ^ 32 }
    ensures reviewed { IfOk result (λ r. AreReviewed (world_of net.entry.now.world) (world_of net.entry.now.world) ttl net.entry.now.world.links.now.ingress table.new r.items) }
    ensures apart { IfOk result (λ r. StandApart r.items) }
    ensures kept { Keeps table.old table.new }
{
    let walk = Walk {
        net,
        ingress: net.world.links.ingress.as_slice(),
        ttl,
    };
    all_regions(alloc, table, walk)
}

// The regions of all headers at each ingress, by one walk from each.
fn all_regions(alloc: Global, table: &mut Diagrams, walk: Walk) -> Result<Vec<Region>, NoMemory>
    requires walk { IsWalkIn table.old walk }
    requires few { length walk.ingress.now < 2 ^ 32 }
    ensures opened { IfOk result (λ r. AreOpened (world_of walk.entry.net.now.world) walk.entry.ttl walk.entry.ingress.now table.new (length walk.entry.ingress.now) r.items) }
    ensures kept { Keeps table.old table.new }
{
    let mut regions = Vec::new(alloc);
    let slots = walk.ingress.len() as u32;
    for slot in 0..slots {
        let walking = Walking {
            slot,
            headers: walk.net.scope,
            old: None,
        };
        add_regions(alloc, table, walk, walking, &mut regions)?;
    }
    Ok(regions)
}

/// Walks the headers of the regions that visit the device, as far as the edit may have changed their moves, and answers how many
/// regions stay and how many don't. Without memory the regions are as before.
pub(crate) fn walk_again(
    alloc: Global,
    table: &mut Diagrams,
    again: Again,
    regions: &mut Vec<Region>,
) -> Result<Touched, NoMemory>
    requires net { IsNet table.old again.net.now }
    requires all { (h : Header) → InSet table.old again.net.now.scope h }
    requires before { AreWaysGiven table.old again.net.now.lists.now (get same_place again.before.now) }
    requires least { 1 ≤ again.ttl }
    requires placed { ArePlaced again.net.now.world.links.now.ingress table.old regions.old.items }
    requires disjoint { IsDisjoint table.old regions.old.items }
    ensures walked { OnOk result (HaveWalked table.old (step_of again.entry) table.new regions.old.items regions.new.items) }
    ensures as_before { OnErr result (regions.new.items ≡ regions.old.items) }
    ensures stay { IfOk result (λ t. t.kept ≡ count_by (stays again.entry.device.now.name) regions.old.items) }
    ensures all { IfOk result (λ t. t.kept + t.walked ≡ length regions.old.items) }
    ensures kept { Keeps table.old table.new }
{
    let all = regions.len();
    let mut more = regions_after(alloc, table, again, regions)?;
    regions.reserve(more.len())?;
    let kept = put_regions(regions, again.device.name, &mut more);
    Ok(Touched {
        kept: kept as u64,
        walked: (all - kept) as u64,
    })
}

// Those that stay, and these behind them. It answers how many stay.
fn put_regions(regions: &mut Vec<Region>, device: u32, more: &mut Vec<Region>) -> usize
    requires { vec_len regions.old + vec_len more.old ≤ vec_capacity regions.old }
    ensures regions { regions.new.items ≡ filter (stays device) regions.old.items ++ more.old.items }
    ensures kept { result ≡ count_by (stays device) regions.old.items }
    ensures most { result ≤ length regions.old.items }
{
    regions.retain(|region| stays(region, device));
    let kept = regions.len();
    let _ = regions.append(more);
    kept
}

// The regions of the headers of those that visit the device.
fn regions_after(
    alloc: Global,
    table: &mut Diagrams,
    again: Again,
    regions: &[Region],
) -> Result<Vec<Region>, NoMemory>
    requires net { IsNet table.old again.net.now }
    requires all { (h : Header) → InSet table.old again.net.now.scope h }
    requires before { AreWaysGiven table.old again.net.now.lists.now (get same_place again.before.now) }
    requires least { 1 ≤ again.ttl }
    requires placed { ArePlaced again.net.now.world.links.now.ingress table.old regions.now }
    requires disjoint { IsDisjoint table.old regions.now }
    ensures again { IfOk result (λ r. IsAgainAfter table.old (step_of again.entry) regions.now table.new r.items) }
    ensures kept { Keeps table.old table.new }
{
    let changed = changed_set(table, again)?;
    let mut split = split_leaving(alloc, table, regions, again.device.name, changed)?;
    walk_inside(alloc, table, again, &mut split)?;
    Ok(split.outside)
}

// Headers outside of which every header makes the same moves as before.
fn changed_set(table: &mut Diagrams, again: Again) -> Result<u32, NoMemory>
    requires net { IsNet table.old again.net.now }
    requires all { (h : Header) → InSet table.old again.net.now.scope h }
    requires before { AreWaysGiven table.old again.net.now.lists.now (get same_place again.before.now) }
    ensures below { IfOk result (λ r. r < count_of table.new) }
    ensures walks { IfOk result (IsChangedSet table.old (step_of again.entry) table.new) }
    ensures kept { Keeps table.old table.new }
{
    if !again.plain {
        return Ok(again.net.scope);
    }
    let change = WaysChange {
        device: again.device,
        lists: again.net.lists,
        before: again.before,
        after: again.net.places,
    };
    changed_headers(table, change)
}

// Walks the headers inside of the set again, and puts their regions behind those outside.
fn walk_inside(
    alloc: Global,
    table: &mut Diagrams,
    again: Again,
    split: &mut Split,
) -> Result<(), NoMemory>
    requires walk { IsWalkOf table.old again }
    requires inside { ArePlaced again.net.now.world.links.now.ingress table.old split.old.inside.items }
    requires disjoint { IsDisjoint table.old split.old.inside.items }
    ensures added { OnOk result (AddsAgain (world_of again.entry.net.now.world) again.entry.ttl again.entry.net.now.world.links.now.ingress table.old (filter (leaves again.entry.device.now.name) split.old.inside.items) table.new split.old.outside.items split.new.outside.items) }
    ensures kept { Keeps table.old table.new }
{
    let groups = leaving_groups(alloc, table, &split.inside, again.device.name)?;
    let net = again.net;
    let walk = Walk {
        net,
        ingress: net.world.links.ingress.as_slice(),
        ttl: again.ttl,
    };
    add_groups(alloc, table, walk, &groups, &mut split.outside)
}
