//! All walks of the headers of a domain, with the devices that they visit.

ghost use Rattle.std.specs.Prelude.{◌≡◌, ◌≤◌, ◌<◌, true, IfOk};
ghost use Rattle.cube_diagram.specs.Functions.{Keeps, count_of};
ghost use Rattle.net_view.specs.Borrowed.{world_of};
ghost use Rattle.set_walk.specs.Sets.{IsWithin};
ghost use Rattle.set_walk.specs.Nets.{IsNet};
ghost use Rattle.set_walk.specs.Outcomes.{AreLabels, AreOnce};
ghost use Rattle.set_walk.specs.Visits.{AreVisitors, StandApart};

use crate::circles::{Mark, later, onward};
use crate::ends::{OutcomeSet, add_ends};
use crate::levels::{first_level, next_level};
use crate::net::Net;
use crate::visits::{DeviceVisitors, add_visitors};
use cube_diagram::Diagrams;
use net_types::{NoMemory, Place};
use std::alloc::Global;

/// What one walk of the headers of a domain tells.
#[derive(Drop)]
pub struct WalkedSets {
    /// Each outcome with the headers whose labels have it.
    pub ends: Vec<OutcomeSet>,
    /// Each device with the headers that visit it.
    pub visitors: Vec<DeviceVisitors>,
}

/// The labels and the visitors of all headers of a domain, a set of the table and within the network's scope, that enter at the
/// place with this TTL, of one walk. The labels are those that [`labels`](crate::labels) gives. Of the visitors each device that a
/// header of the domain visits stands once, with the set of the headers that come to a place of it by fewer moves than the TTL
/// has. A header outside the domain is in none of these sets; one that goes on several ways, or far, is in several. With the TTL
/// 0 there is no outcome and no device.
///
/// Rounds of a circle in which all headers that still go on have come are passed over, since they add no outcome and no visitor.
/// Without memory functions may have been added to the table, but none that was there is changed.
pub fn labels_and_visitors(
    alloc: Global,
    table: &mut Diagrams,
    net: &Net,
    place: Place,
    domain: u32,
    ttl: u8,
) -> Result<WalkedSets, NoMemory>
    requires net { IsNet table.old net.now }
    requires domain { domain < count_of table.old }
    requires within { IsWithin table.old domain net.now.scope }
    ensures labels { IfOk result (λ r. AreLabels (world_of net.now.world) table.old domain place ttl table.new r.ends.items) }
    ensures once { IfOk result (λ r. AreOnce r.ends.items) }
    ensures visitors { IfOk result (λ r. AreVisitors (world_of net.now.world) table.old domain place ttl table.new r.visitors.items) }
    ensures apart { IfOk result (λ r. StandApart r.visitors.items) }
    ensures kept { Keeps table.old table.new }
{
    let mut mark = Mark {
        moves: 0,
        groups: first_level(alloc, table, place, domain)?,
    };
    let mut groups = first_level(alloc, table, place, domain)?;
    let mut ends = Vec::new(alloc);
    let mut visitors = Vec::new(alloc);
    let mut n = 0;
    while n < ttl {
        add_visitors(table, &groups, &mut visitors)?;
        let steps = next_level(alloc, table, net, &groups)?;
        add_ends(table, &steps, n + 1 == ttl, &mut ends)?;
        if steps.len() == 0 {
            return Ok(WalkedSets { ends, visitors });
        }
        mark = later(mark, n, groups);
        groups = steps;
        n = onward(&mark, n + 1, &groups, ttl);
    }
    Ok(WalkedSets { ends, visitors })
}
