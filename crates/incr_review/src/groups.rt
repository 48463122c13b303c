//! The headers that an edit makes walk again, joined: those of one ingress and one old label together.
//!
//! So they are walked once, however many regions they were in before, and regions don't pile up over edits there and back.

ghost use Rattle.std.specs.Prelude.{◌≡◌, ◌<◌, ◌↔◌, IfOk, IfSome, IsTrue, OnOk, filter, map};
ghost use Rattle.cube_diagram.specs.Functions.{Keeps, count_of};
ghost use Rattle.net_view.specs.Borrowed.{world_of};
ghost use Rattle.incr_review.specs.Again.{AddsAgain, ArePlaced, IsWalkIn, leaves};
ghost use Rattle.incr_review.specs.Groups.{as_known, AreGroupsBelow, AreJoined, IsDisjoint, IsGroupOf, JoinsRegion};
ghost use Rattle.incr_review.specs.Sections.{AreBelow};

use crate::regions::{Region, Walk, Walking, add_regions, stays};
use cube_diagram::Diagrams;
use net_types::{Duplicate, Label, NoMemory};
use set_walk::sets::either;
use std::alloc::Global;

/// Headers that enter at one ingress, all of which have this label in the old network.
#[derive(Drop)]
pub(crate) struct Group {
    /// The position of the ingress.
    pub(crate) slot: u32,
    /// The set of the headers.
    pub(crate) headers: u32,
    pub(crate) old: Label,
}

/// The headers of the regions that visit the device, one group for each ingress and old label.
pub(crate) fn leaving_groups(
    alloc: Global,
    table: &mut Diagrams,
    regions: &[Region],
    device: u32,
) -> Result<Vec<Group>, NoMemory>
    requires below { AreBelow table.old regions.now }
    requires disjoint { IsDisjoint table.old regions.now }
    ensures joined { IfOk result (λ r. AreJoined table.old (filter (leaves device) regions.now) table.new r.items) }
    ensures kept { Keeps table.old table.new }
{
    let mut groups = Vec::new(alloc);
    for region in regions {
        if !stays(region, device) {
            join(alloc, table, region, &mut groups)?;
        }
    }
    Ok(groups)
}

// The region's headers go to the group of its ingress and old label, or are a new one.
fn join(
    alloc: Global,
    table: &mut Diagrams,
    region: &Region,
    groups: &mut Vec<Group>,
) -> Result<(), NoMemory>
    requires region { region.now.headers < count_of table.old }
    requires groups { AreGroupsBelow table.old groups.old.items }
    ensures joined { OnOk result (JoinsRegion table.old region.now table.new groups.old.items groups.new.items) }
    ensures kept { Keeps table.old table.new }
{
    let Some(index) = group_position(groups, region) else {
        let old = region.old.copy(alloc)?;
        groups.push(Group {
            slot: region.slot,
            headers: region.headers,
            old,
        })?;
        return Ok(());
    };
    let headers = either(table, groups[index].headers, region.headers)?;
    groups[index].headers = headers;
    Ok(())
}

fn group_position(groups: &[Group], region: &Region) -> Option<usize>
    ensures { IfSome result (IsGroupOf region.now groups.now) }
{
    for (index, group) in groups.iter().enumerate() {
        if is_of(group, region) {
            return Some(index);
        }
    }
    None
}

fn is_of(group: &Group, region: &Region) -> bool
    ensures { IsTrue result ↔ ((group.now.slot ≡ region.now.slot) × (group.now.old ≡ region.now.old)) }
{
    group.slot == region.slot && group.old.same(&region.old)
}

/// Walks the headers of the groups, group by group, and adds their regions behind the others.
pub(crate) fn add_groups(
    alloc: Global,
    table: &mut Diagrams,
    walk: Walk,
    groups: &[Group],
    after: &mut Vec<Region>,
) -> Result<(), NoMemory>
    requires walk { IsWalkIn table.old walk }
    requires groups { ArePlaced walk.ingress.now table.old (map as_known groups.now) }
    ensures added { OnOk result (AddsAgain (world_of walk.entry.net.now.world) walk.entry.ttl walk.entry.ingress.now table.old (map as_known groups.now) table.new after.old.items after.new.items) }
    ensures kept { Keeps table.old table.new }
{
    for group in groups {
        let walking = Walking {
            slot: group.slot,
            headers: group.headers,
            old: Some(&group.old),
        };
        add_regions(alloc, table, walk, walking, after)?;
    }
    Ok(())
}
