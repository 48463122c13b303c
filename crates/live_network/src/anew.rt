//! Tables that don't grow without end: where much of what is kept is of no use any more, the rest is copied to others.

ghost use Rattle.net_view.specs.Borrowed.{world_of};
ghost use Rattle.live_network.specs.Live.{IsLive};

use crate::copied::copied;
use crate::live::{LiveWays, size_of};
use net_view::WorldRef;
use std::alloc::Global;

/// How much is added at least before anything is copied.
const LEAST: usize = 4096;

/// Copies what is kept of the network to tables of its own where it has half as much again as it had when it was made: the
/// ways that its places have, and nothing else. Without memory it stays as it is.
pub fn settle(alloc: Global, world: WorldRef, live: &mut LiveWays)
    requires { IsLive (world_of world) live.old }
    ensures { IsLive (world_of world.entry) live.new }
{
    if !has_grown(live) {
        return;
    }
    if let Ok(copy) = copied(alloc, world, live) {
        *live = copy;
    }
}

fn has_grown(live: &LiveWays) -> bool {
    let size = size_of(&live.tables, &live.ways);
    size.saturating_sub(live.made) > (live.made / 2).max(LEAST)
}
