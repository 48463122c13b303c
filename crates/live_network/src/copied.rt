//! What is kept of a network, copied to tables that have nothing else.

ghost use Rattle.std.specs.Prelude.{◌≡◌, ◌<◌, nat_eq, Contains, IfOk, OnOk, Some, length, slice_get};
ghost use Rattle.indexmap.specs.IndexMap.{get};
ghost use Rattle.cube_diagram.specs.Functions.{Keeps, count_of};
ghost use Rattle.cube_diagram.specs.Images.{AreCopied};
ghost use Rattle.difference_reach.specs.Reaches.{AreGivenAt};
ghost use Rattle.net_view.specs.Borrowed.{world_of};
ghost use Rattle.place_ways.specs.Adding.{AreGiven};
ghost use Rattle.set_walk.specs.declared.net.PlaceWays.{PlaceWays};
ghost use Rattle.live_network.specs.Copied.{AreWayCopies, HaveCopies, IsSetCopy, IsWayCopy};
ghost use Rattle.live_network.specs.Live.{IsLive};

use crate::live::{LiveWays, net_of, size_of};
use crate::replace::copied_positions;
use cube_diagram::Diagrams;
use difference_reach::used_positions;
use indexmap::{IndexMap, IndexSet};
use net_forms::Tables;
use net_types::NoMemory;
use net_view::WorldRef;
use place_ways::NetworkWays;
use set_walk::{PlaceWays, Way};
use std::alloc::Global;

/// A table to which functions of another one are copied.
#[derive(Drop)]
pub(crate) struct CopyTable {
    pub(crate) table: Diagrams,
    /// The numbers here of what was copied before.
    pub(crate) known: IndexMap<u32, u32>,
}

/// The same in tables of its own: the ways that places have, and no others.
pub(crate) fn copied(alloc: Global, world: WorldRef, live: &LiveWays) -> Result<LiveWays, NoMemory>
    requires { IsLive (world_of world) live.now }
    ensures { IfOk result (IsLive (world_of world.entry)) }
{
    let net = net_of(live, world);
    let used = used_positions(alloc, &net)?;
    let Tables { diagrams, fates } = Tables::new(alloc)?;
    let mut into = CopyTable {
        table: diagrams,
        known: IndexMap::new(alloc),
    };
    let source = &live.tables.diagrams;
    let scope = copied_set(source, live.scope, &mut into)?;
    let lists = copied_lists(alloc, source, &live.ways.lists, &used, &mut into)?;
    let positions = copied_positions(&live.ways.positions)?;
    let ways = NetworkWays { lists, positions };
    let tables = Tables {
        diagrams: into.table,
        fates,
    };
    let made = size_of(&tables, &ways);
    Ok(LiveWays {
        tables,
        scope,
        ways,
        made,
    })
}

// The lists at their positions, those alone that are used.
fn copied_lists(
    alloc: Global,
    source: &Diagrams,
    lists: &[PlaceWays],
    used: &IndexSet<usize>,
    into: &mut CopyTable,
) -> Result<Vec<PlaceWays>, NoMemory>
    requires used { AreGivenAt source.now lists.now used.now.keys }
    requires known { AreCopied source.now into.old.table (get nat_eq into.old.known) }
    ensures copies { IfOk result (λ r. HaveCopies source.now into.new.table lists.now r.items (Contains used.now.keys)) }
    ensures kept { Keeps into.old.table into.new.table }
{
    let mut all = Vec::with_capacity(alloc, lists.len())?;
    for i in 0..lists.len() {
        let list = copied_list(alloc, source, lists, used, i, into)?;
        all.push(list)?;
    }
    Ok(all)
}

// The list at the position, where it is used.
fn copied_list(
    alloc: Global,
    source: &Diagrams,
    lists: &[PlaceWays],
    used: &IndexSet<usize>,
    position: usize,
    into: &mut CopyTable,
) -> Result<PlaceWays, NoMemory>
    requires used { AreGivenAt source.now lists.now used.now.keys }
    requires position { position < length lists.now }
    requires known { AreCopied source.now into.old.table (get nat_eq into.old.known) }
    ensures list { IfOk result (λ r. (v : PlaceWays) → Contains used.now.keys position → slice_get lists.now position ≡ Some v → AreWayCopies source.now into.new.table v.ways.items r.ways.items) }
    ensures known { OnOk result (AreCopied source.now into.new.table (get nat_eq into.new.known)) }
    ensures kept { Keeps into.old.table into.new.table }
{
    if !used.contains(&position) {
        return Ok(PlaceWays {
            ways: Vec::new(alloc),
        });
    }
    let ways = copied_ways(alloc, source, &lists[position].ways, into)?;
    Ok(PlaceWays { ways })
}

fn copied_ways(
    alloc: Global,
    source: &Diagrams,
    ways: &[Way],
    into: &mut CopyTable,
) -> Result<Vec<Way>, NoMemory>
    requires ways { AreGiven source.now ways.now }
    requires known { AreCopied source.now into.old.table (get nat_eq into.old.known) }
    ensures copies { IfOk result (λ r. AreWayCopies source.now into.new.table ways.now r.items) }
    ensures known { OnOk result (AreCopied source.now into.new.table (get nat_eq into.new.known)) }
    ensures kept { Keeps into.old.table into.new.table }
{
    let mut all = Vec::with_capacity(alloc, ways.len())?;
    for way in ways {
        let copy = copied_way(source, way, into)?;
        all.push(copy)?;
    }
    Ok(all)
}

fn copied_way(source: &Diagrams, way: &Way, into: &mut CopyTable) -> Result<Way, NoMemory>
    requires way { way.now.headers < count_of source.now }
    requires known { AreCopied source.now into.old.table (get nat_eq into.old.known) }
    ensures way { IfOk result (IsWayCopy source.now into.new.table way.now) }
    ensures known { OnOk result (AreCopied source.now into.new.table (get nat_eq into.new.known)) }
    ensures kept { Keeps into.old.table into.new.table }
{
    let headers = copied_set(source, way.headers, into)?;
    Ok(Way {
        step: way.step,
        headers,
    })
}

fn copied_set(source: &Diagrams, set: u32, into: &mut CopyTable) -> Result<u32, NoMemory>
    requires set { set < count_of source.now }
    requires known { AreCopied source.now into.old.table (get nat_eq into.old.known) }
    ensures set { IfOk result (IsSetCopy source.now set into.new.table) }
    ensures known { OnOk result (AreCopied source.now into.new.table (get nat_eq into.new.known)) }
    ensures kept { Keeps into.old.table into.new.table }
{
    let copy = into.table.copy_from(source, set, &mut into.known)?;
    Ok(copy)
}
