//! The graph of a region: all walks of the headers of a cube, and what it answers of them. These are their label, where they
//! end, whether they loop and which devices they visit.

use crate::devices::is_met;
use crate::level::{Level, states_at};
use crate::outcomes::{all_outcomes, some_is_at};
use crate::returns::has_loop;
use crate::visit::Visit;
use hdr_bits::Cube;
use net_types::{Label, NoMemory, Place};
use std::alloc::Global;
use std::marker::Model;
use transfer_rel::{Prepared, Version};

/// The walks of at most 254 moves of all headers of a cube that enter at a place.
pub struct Graph<'a> {
    prepared: &'a Prepared<'a>,
    version: Version,
    place: Place,
    cube: Cube,
    visits: Vec<Visit>,
    levels: Vec<Level>,
}

impl<'a> Drop for Graph<'a> {
    fn drop(self) {
        let Graph {
            prepared: _,
            version: _,
            place: _,
            cube: _,
            visits: _,
            levels: _,
        } = self;
    }
}

impl<'a> Model for Graph<'a> {
    ghost use Rattle.region_walk.specs.Region.{Region};
    ghost use Rattle.region_walk.specs.Visits.{IsGraph};
    ghost use Rattle.net_forms.specs.Worlds.{world_in};

    ghost Value = { Region };

    ghost view = { λ g. record { world = world_in g.prepared.now g.version; place = g.place; cube = g.cube } };

    ghost invariant = { λ g. IsGraph (world_in g.prepared.now g.version) g.cube g.place g.visits.items g.levels.items };
}

impl<'a> Graph<'a> {
    ghost use Rattle.std.specs.Prelude.{◌≡◌, ◌≤◌, ◌↔◌, IfOk, IsTrue};
    ghost use Rattle.hdr_bits.specs.declared.header.Header.{Header};
    ghost use Rattle.hdr_bits.specs.HeaderBits.{number, IsHeader};
    ghost use Rattle.hdr_bits.specs.CubeBits.{IsIn};
    ghost use Rattle.net_types.specs.Walks.{label};
    ghost use Rattle.net_types.specs.Questions.{Reaches, Loops};
    ghost use Rattle.net_types.specs.Visits as visiting;
    ghost use Rattle.region_walk.specs.Visits.{IsGraph};
    ghost use Rattle.net_forms.specs.Worlds.{world_in};

    /// The graph of these visits and levels.
    pub(crate) fn new(
        prepared: &'a Prepared<'a>,
        version: Version,
        place: Place,
        cube: Cube,
        visits: Vec<Visit>,
        levels: Vec<Level>,
    ) -> Graph<'a>
        requires { IsGraph (world_in prepared.now version) cube place visits.items levels.items }
        ensures { result ≡ record { world = world_in prepared.now version; place = place; cube = cube } }
    {
        Graph {
            prepared,
            version,
            place,
            cube,
            visits,
            levels,
        }
    }

    /// The label that each header of the cube has when it enters at the place with this TTL.
    pub fn label(&self, alloc: Global, ttl: u8) -> Result<Label, NoMemory>
        requires { 1 ≤ ttl }
        ensures { IfOk result (λ answer. (h : Header) → IsHeader h → IsIn self.now.cube (number h) → answer ≡ label self.now.world ttl self.now.place h) }
    {
        let outcomes = all_outcomes(alloc, &self.visits, &self.levels, ttl)?;
        let label = Label::of(outcomes)?;
        Ok(label)
    }

    /// Whether each header of the cube may end at this place when it enters with this TTL; else none may.
    pub fn ends_at(&self, alloc: Global, ttl: u8, place: Place) -> Result<bool, NoMemory>
        requires { 1 ≤ ttl }
        ensures { IfOk result (λ answer. (h : Header) → IsHeader h → IsIn self.now.cube (number h) → IsTrue answer ↔ Reaches self.now.world ttl self.now.place place h) }
    {
        let label = self.label(alloc, ttl)?;
        let ends = some_is_at(label.as_slice(), place);
        Ok(ends)
    }

    /// Whether each header of the cube loops when it enters with this TTL; else none does.
    pub fn loops(&self, alloc: Global, ttl: u8) -> Result<bool, NoMemory>
        requires { 1 ≤ ttl }
        ensures { IfOk result (λ answer. (h : Header) → IsHeader h → IsIn self.now.cube (number h) → IsTrue answer ↔ Loops self.now.world ttl self.now.place h) }
    {
        let last = ttl - 1;
        // What loops has walks of every number of moves.
        if states_at(&self.levels, last).len() == 0 {
            return Ok(false);
        }
        let found = has_loop(alloc, &self.visits, &self.levels, last)?;
        Ok(found)
    }

    /// Whether each header of the cube visits the device when it enters with this TTL: some walk of fewer moves comes to one of
    /// its places; else none does. Under the TTL 0 none visits any.
    pub fn visits(&self, ttl: u8, device: u32) -> bool
        ensures { (h : Header) → IsHeader h → IsIn self.now.cube (number h) → IsTrue result ↔ visiting.Visits self.now.world ttl self.now.place h device }
    {
        is_met(&self.visits, &self.levels, ttl, device)
    }
}
