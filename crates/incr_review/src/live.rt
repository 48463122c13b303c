//! Walks of the edited network, by what is kept of it.

ghost use Rattle.std.specs.Prelude.{◌≡◌, ◌≤◌, ◌<◌, ◌+◌, ◌^◌, [], IfOk, IsTrue, OnErr, OnOk, count_by, length};
ghost use Rattle.indexmap.specs.IndexMap.{get};
ghost use Rattle.net_types.specs.World.{same_place};
ghost use Rattle.net_view.specs.Borrowed.{world_of};
ghost use Rattle.live_network.specs.Live.{IsLive};
ghost use Rattle.incr_review.specs.Again.{ArePlaced};
ghost use Rattle.incr_review.specs.Groups.{IsDisjoint};
ghost use Rattle.incr_review.specs.Live.{AreWaysGiven, HaveNoRules, IsWalked};
ghost use Rattle.incr_review.specs.Regions.{AreReviewed, StandApart, stays};
ghost use Rattle.incr_review.specs.Walking.{HaveWalked, live_step};

use crate::regions::{Region, Touched};
use crate::walks::{Again, opened, walk_again};
use indexmap::IndexMap;
use live_network::LiveWays;
use net_types::{NetDevice, NoMemory, Place};
use net_view::WorldRef;
use set_walk::Net;
use std::alloc::Global;

/// Whether it is known that no device translates.
pub(crate) fn have_no_rules(devices: &[NetDevice]) -> bool
    ensures { IsTrue result → HaveNoRules devices.now }
{
    devices.iter().all(|device| has_no_rules(device))
}

fn has_no_rules(device: &NetDevice) -> bool
    ensures { IsTrue result → device.now.config.nat ≡ [] }
{
    device.config.nat.as_slice().len() == 0
}

/// The regions of all headers at each ingress, where the old network is this one too.
pub(crate) fn open_regions(
    alloc: Global,
    live: &mut LiveWays,
    world: WorldRef,
    ttl: u8,
) -> Result<Vec<Region>, NoMemory>
    requires live { IsLive (world_of world) live.old }
    requires least { 1 ≤ ttl }
    requires few { length world.links.now.ingress < 2 ^ 32 }
    ensures reviewed { IfOk result (λ r. AreReviewed (world_of world.entry) (world_of world.entry) ttl world.entry.links.now.ingress live.new.tables.diagrams r.items) }
    ensures apart { IfOk result (λ r. StandApart r.items) }
    ensures walked { IsWalked live.old live.new }
{
    let ways = &live.ways;
    let net = Net {
        world,
        places: &ways.positions,
        lists: &ways.lists,
        scope: live.scope,
    };
    opened(alloc, &mut live.tables.diagrams, &net, ttl)
}

/// What is known of an edit that was made.
#[derive(Clone, Copy)]
pub(crate) struct Change<'a> {
    /// The position of a place's ways before it.
    pub(crate) before: &'a IndexMap<Place, usize>,
    /// The device that was edited.
    pub(crate) device: &'a NetDevice,
    /// Whether it is known that no device translates.
    pub(crate) plain: bool,
    pub(crate) ttl: u8,
}

/// Walks the headers of the regions that visit the device again, as far as the edit may have changed their moves, and answers how many
/// regions stay and how many don't. Without memory the regions are as before.
pub(crate) fn walk_live(
    alloc: Global,
    live: &mut LiveWays,
    world: WorldRef,
    change: Change,
    regions: &mut Vec<Region>,
) -> Result<Touched, NoMemory>
    requires live { IsLive (world_of world) live.old }
    requires before { AreWaysGiven live.old.tables.diagrams live.old.ways.lists.items (get same_place change.before.now) }
    requires least { 1 ≤ change.ttl }
    requires placed { ArePlaced world.links.now.ingress live.old.tables.diagrams regions.old.items }
    requires disjoint { IsDisjoint live.old.tables.diagrams regions.old.items }
    ensures again { OnOk result (HaveWalked live.old.tables.diagrams (live_step live.old (world_of world.entry) change.entry) live.new.tables.diagrams regions.old.items regions.new.items) }
    ensures as_before { OnErr result (regions.new.items ≡ regions.old.items) }
    ensures stay { IfOk result (λ t. t.kept ≡ count_by (stays change.entry.device.now.name) regions.old.items) }
    ensures all { IfOk result (λ t. t.kept + t.walked ≡ length regions.old.items) }
    ensures walked { IsWalked live.old live.new }
{
    let ways = &live.ways;
    let net = Net {
        world,
        places: &ways.positions,
        lists: &ways.lists,
        scope: live.scope,
    };
    let again = Again {
        net: &net,
        before: change.before,
        device: change.device,
        plain: change.plain,
        ttl: change.ttl,
    };
    walk_again(alloc, &mut live.tables.diagrams, again, regions)
}
