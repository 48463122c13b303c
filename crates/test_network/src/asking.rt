//! A network with the ways of its places, and which devices headers visit in it, by walks of sets and by the second opinion.

ghost use Rattle.std.specs.Prelude.{◌≡◌};
ghost use Rattle.indexmap.specs.IndexMap.{get};
ghost use Rattle.net_forms.specs.Pairs.{AreBothForms, ArePreparedParts};
ghost use Rattle.net_types.specs.World.{same_place};
ghost use Rattle.net_view.specs.Borrowed.{world_of};
ghost use Rattle.place_ways.specs.Places.{ArePlaceWays};
ghost use Rattle.set_walk.specs.Nets.{IsNet};

use crate::counting::{Counted, Opinion};
use crate::networks::INGRESS;
use cube_diagram::Diagrams;
use net_forms::{BothForms, Networks, PreparedParts, Tables};
use net_types::NoMemory;
use net_view::WorldRef;
use place_ways::{BothWays, ways_of_both};
use set_walk::{Net, labels_and_visitors};
use std::alloc::Global;
use transfer_rel::Prepared;

/// Asks it of the first of two networks, under the TTL.
pub(crate) fn ask_visitors(
    alloc: Global,
    networks: Networks,
    ttl: u8,
) -> Result<Counted, NoMemory> {
    let prepared = Prepared::of(alloc, networks)?;
    let opinion = Opinion {
        alloc,
        prepared: &prepared,
        ttl,
    };
    ask_compiled(opinion, networks)
}

fn ask_compiled(opinion: Opinion, networks: Networks) -> Result<Counted, NoMemory> {
    let compiled = Prepared::of(opinion.alloc, networks)?;
    ask_parts(opinion, compiled.into_parts())
}

fn ask_parts(opinion: Opinion, parts: PreparedParts) -> Result<Counted, NoMemory>
    requires parts { ArePreparedParts (record { old = world_of parts.old.world; new = world_of parts.new.world }) parts }
{
    let PreparedParts {
        tables,
        old,
        new,
        like,
    } = parts;
    let Tables {
        mut diagrams,
        fates,
    } = tables;
    let forms = BothForms {
        fates: &fates,
        old: &old,
        new: &new,
        like: &like,
    };
    ask_forms(opinion, &mut diagrams, forms)
}

fn ask_forms(opinion: Opinion, table: &mut Diagrams, forms: BothForms) -> Result<Counted, NoMemory>
    requires { AreBothForms table.old forms }
{
    // All headers are asked, so they are the scope.
    let scope = table.everything();
    let ways = ways_of_both(opinion.alloc, forms, scope, table)?;
    ask_ways(opinion, table, forms.old.world, scope, &ways)
}

fn ask_ways(
    opinion: Opinion,
    table: &mut Diagrams,
    world: WorldRef,
    scope: u32,
    ways: &BothWays,
) -> Result<Counted, NoMemory>
    requires { ArePlaceWays (world_of world) table.old scope ways.now.lists.items (get same_place ways.now.old) }
{
    let net = Net {
        world,
        places: &ways.old,
        lists: &ways.lists,
        scope,
    };
    ask_visits(opinion, table, &net)
}

fn ask_visits(opinion: Opinion, table: &mut Diagrams, net: &Net) -> Result<Counted, NoMemory>
    requires { IsNet table.old net.now }
{
    let walked = labels_and_visitors(opinion.alloc, table, net, INGRESS, net.scope, opinion.ttl)?;
    opinion.count_visits(table, &walked.visitors)
}
