//! The ways of the places of a network, in tables that grow, and one device of it compiled anew.

ghost use Rattle.std.specs.Prelude.{◌≡◌, ◌<◌, IfOk, OnOk};
ghost use Rattle.hdr_bits.specs.declared.header.Header.{Header};
ghost use Rattle.indexmap.specs.IndexMap.{get};
ghost use Rattle.cube_diagram.specs.Functions.{count_of};
ghost use Rattle.net_forms.specs.Networks.{IsFormedNetwork};
ghost use Rattle.net_types.specs.World.{same_place};
ghost use Rattle.net_view.specs.Borrowed.{world_of};
ghost use Rattle.place_ways.specs.Devices.{PutsDevice};
ghost use Rattle.set_walk.specs.Nets.{IsNet};
ghost use Rattle.set_walk.specs.Sets.{InSet};
ghost use Rattle.live_network.specs.Live.{IsLive, IsRenewed};

use link_sends::Wiring;
use net_forms::{Beforehand, FormedNetwork, KnownParts, Tables, compile_device};
use net_types::{NetDevice, NoMemory};
use net_view::WorldRef;
use place_ways::{NetworkWays, WiredDevice, put_device, ways_of_one};
use set_walk::Net;
use std::alloc::Global;

/// What is kept of a network that changes device by device.
pub struct LiveWays {
    pub tables: Tables,
    /// All headers, a set of the table.
    pub scope: u32,
    /// The ways of its places.
    pub ways: NetworkWays,
    /// How many nodes and lists of ways there were when it was made.
    pub(crate) made: usize,
}

impl Drop for LiveWays {
    fn drop(self) {
        let LiveWays {
            tables: _,
            scope: _,
            ways: _,
            made: _,
        } = self;
    }
}

/// How many nodes a table has, and how many lists of ways there are.
pub(crate) fn size_of(tables: &Tables, ways: &NetworkWays) -> usize {
    tables.diagrams.count().saturating_add(ways.lists.len())
}

/// Compiles the network, and finds the ways of all its places for all headers.
///
/// # Errors
///
/// There was no memory.
pub fn open_ways(alloc: Global, world: WorldRef) -> Result<LiveWays, NoMemory>
    ensures { IfOk result (IsLive (world_of world.entry)) }
{
    let tables = Tables::new(alloc)?;
    let nothing = Beforehand {
        lists: &[],
        fates: &[],
    };
    let formed = FormedNetwork::with_known(alloc, tables, world, nothing)?;
    let live = ways_of_formed(alloc, formed)?;
    Ok(live)
}

/// The same of a network that is compiled.
///
/// # Errors
///
/// There was no memory.
pub fn ways_of_formed(alloc: Global, formed: FormedNetwork) -> Result<LiveWays, NoMemory>
    requires { IsFormedNetwork (world_of formed.form.world) formed }
    ensures { IfOk result (IsLive (world_of formed.entry.form.world)) }
{
    let FormedNetwork { mut tables, form } = formed;
    let scope = tables.diagrams.everything();
    let ways = ways_of_one(alloc, &tables.fates, &form, scope, &mut tables.diagrams)?;
    let made = size_of(&tables, &ways);
    Ok(LiveWays {
        tables,
        scope,
        ways,
        made,
    })
}

/// The network with its ways, for all headers.
pub fn net_of<'a>(live: &'a LiveWays, world: WorldRef<'a>) -> Net<'a>
    requires { IsLive (world_of world) live.now }
    ensures net { IsNet live.now.tables.diagrams result }
    ensures world { world_of result.world ≡ world_of world.entry }
    ensures scope { result.scope ≡ live.now.scope }
    ensures places { result.places.now ≡ live.now.ways.positions }
    ensures lists { result.lists.now ≡ live.now.ways.lists.items }
{
    Net {
        world,
        scope: live.scope,
        places: &live.ways.positions,
        lists: &live.ways.lists,
    }
}

/// Compiles the device, and puts the ways of its interfaces over these links: the place of each has those that are found now, and
/// every other place those that it had.
///
/// # Errors
///
/// There was no memory. Then some of its places may have new ways.
pub(crate) fn put_compiled(
    alloc: Global,
    live: &mut LiveWays,
    wiring: &Wiring,
    device: &NetDevice,
) -> Result<(), NoMemory>
    requires scope { live.old.scope < count_of live.old.tables.diagrams }
    requires all { (h : Header) → InSet live.old.tables.diagrams live.old.scope h }
    ensures put { OnOk result (PutsDevice wiring.now live.new.tables.diagrams live.old.scope live.new.ways.lists.items device.now (get same_place live.old.ways.positions) (get same_place live.new.ways.positions)) }
    ensures renewed { IsRenewed live.old live.new }
{
    let nothing = KnownParts {
        lists: &[],
        fates: None,
    };
    let form = compile_device(alloc, &mut live.tables, device, nothing)?;
    let at = WiredDevice {
        fates: &live.tables.fates,
        wiring,
        device,
        form: &form,
        scope: live.scope,
    };
    put_device(alloc, &mut live.tables.diagrams, at, &mut live.ways)
}
