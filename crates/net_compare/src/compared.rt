//! What is compared: two networks with the sets of their walks, and the ingresses from which they are walked.

ghost use Rattle.std.specs.Prelude.{◌≤◌, ◌<◌, ◌^◌, length};

use crate::classes::Classes;
use crate::ingress::pairs_at;
use crate::pairs::no_pairs;
use cube_diagram::Diagrams;
use difference_reach::Reach;
use net_types::{NoMemory, Place};
use pair_rows::PairFunction;
use set_walk::Net;
use std::alloc::Global;

/// Two networks with the sets that all workers read, none of which grows, and the ingresses at which packets enter with this TTL.
/// Slot k is the k-th ingress, from 0.
#[derive(Drop)]
pub(crate) struct Compared<'a> {
    pub(crate) old: &'a Net<'a>,
    pub(crate) new: &'a Net<'a>,
    pub(crate) reach: &'a Reach<'a>,
    pub(crate) classes: &'a Classes,
    pub(crate) ingress: &'a [Place],
    pub(crate) ttl: u8,
    pub(crate) ghost least: { 1 ≤ ttl },
    pub(crate) ghost few: { length ingress.now < 2 ^ 32 },
}

impl<'a> Compared<'a> {
    ghost use Rattle.std.specs.Prelude.{IfOk};
    ghost use Rattle.cube_diagram.specs.Functions.{Keeps};
    ghost use Rattle.pair_rows.specs.Functions.{IsFunctionOf};
    ghost use Rattle.net_compare.specs.Walkable.{AreWalkable, gives_of};

    /// The function of a slot. Walks add to the table, but none that was there is changed.
    pub(crate) fn function(
        &self,
        alloc: Global,
        table: &mut Diagrams,
        slot: u32,
    ) -> Result<PairFunction, NoMemory>
        requires { AreWalkable table.old self.now }
        ensures given { IfOk result (IsFunctionOf (gives_of self.now slot)) }
        ensures kept { Keeps table.old table.new }
    {
        match self.ingress.get(slot as usize) {
            None => {
                let none = no_pairs(alloc)?;
                Ok(none)
            }
            Some(place) => {
                let given = pairs_at(alloc, table, self, *place)?;
                Ok(given)
            }
        }
    }
}
