//! A review: two networks, of which the second is edited, and what the headers at each ingress do in both.

ghost use Rattle.std.specs.Prelude.{◌≡◌, ◌≤◌, ◌<◌, ◌^◌, length, count_by};

use crate::edited::{edited_device, swap_device};
use crate::edits::{Edit, EditFail};
use crate::live::{Change, have_no_rules, open_regions, walk_live};
use crate::regions::{Region, Touched};
use crate::sections::{rows_of_sections, sections_of};
use live_network::{LiveWays, open_ways, replace_at};
use net_types::{Duplicate, Links, Network, NoMemory, Section};
use net_view::WorldRef;
use std::alloc::Global;
use std::marker::Model;

/// A review of an edited network against the old one, with the same links and one TTL.
///
/// Each header at each ingress is in exactly one region, and a region says what is so of each of its headers. That is so after
/// every edit, refused ones included.
pub struct Review<'a> {
    /// The old network, with the links of both.
    baseline: WorldRef<'a>,
    edited: Network,
    ttl: u8,
    /// The ways of the edited network, with the table that has the sets of the regions too.
    live: LiveWays,
    /// Whether it is known that no device translates.
    plain: bool,
    regions: Vec<Region>,
}

impl<'a> Drop for Review<'a> {
    fn drop(self) {
        let Review {
            baseline: _,
            edited: _,
            ttl: _,
            live: _,
            plain: _,
            regions: _,
        } = self;
    }
}

impl<'a> Model for Review<'a> {
    ghost use Rattle.std.specs.Prelude.{◌≤◌};
    ghost use Rattle.net_view.specs.Borrowed.{world_of};
    ghost use Rattle.incr_review.specs.Reviews.{ReviewState, IsKept};

    // Contracts see the two networks, the links, the TTL and the regions with their table.
    ghost Value = { ReviewState };

    ghost view = { λ r. record { baseline = world_of r.baseline; edited = r.edited; ttl = r.ttl; table = r.live.tables.diagrams; regions = r.regions.items } };

    ghost invariant = { λ r. IsKept (world_of r.baseline) r.edited r.ttl r.live r.plain r.regions.items };
}

impl<'a> Review<'a> {
    ghost use Rattle.std.specs.Prelude.{◌+◌, Ok, IfOk, OnOk, IfErr, OnErr, filter};
    ghost use Rattle.cube_diagram.specs.Functions.{Keeps};
    ghost use Rattle.incr_review.specs.Edited.{IsFailOf, device_of, edited};
    ghost use Rattle.incr_review.specs.Regions.{stays, StandApart, StartsWith};
    ghost use Rattle.incr_review.specs.Reviews.{HasRows, IsReview, edited_world};
    ghost use Rattle.net_types.specs.Report.{IsReport};

    /// A review in which nothing was edited yet: the edited network is a copy of the old one.
    ///
    /// The TTL is at least 1, and there are fewer than `2^32` ingresses. It answers `NoMemory` only where there was none.
    pub fn open(
        alloc: Global,
        old: &'a Network,
        links: &'a Links,
        ttl: u8,
    ) -> Result<Review<'a>, NoMemory>
        requires least { 1 ≤ ttl }
        requires few { length links.now.ingress < 2 ^ 32 }
        ensures baseline { IfOk result (λ r. r.baseline ≡ record { network = old.now; links = links.now }) }
        ensures edited { IfOk result (λ r. r.edited ≡ old.now) }
        ensures ttl { IfOk result (λ r. r.ttl ≡ ttl) }
        ensures reviewed { IfOk result IsReview }

        // Headers of one ingress that walk alike are one region.
        ensures apart { IfOk result (λ r. StandApart r.regions) }
    {
        let world = WorldRef {
            network: old,
            links,
        };
        let edited = old.copy(alloc)?;
        let plain = have_no_rules(old.devices.as_slice());
        let mut live = open_ways(alloc, world)?;
        let regions = open_regions(alloc, &mut live, world, ttl)?;
        Ok(Review {
            baseline: world,
            edited,
            ttl,
            live,
            plain,
            regions,
        })
    }

    /// Edits the edited network. The regions whose headers don't visit the edit's device stand first afterwards, unchanged and
    /// in their order. Of the headers of the others those whose moves the edit may change are walked again, those of one ingress
    /// and one old label together. A refused edit leaves the review as it was; so does want of memory, but that the table may
    /// have more functions.
    ///
    /// # Errors
    ///
    /// The edit is refused, with the first cause of these that is there: there is no device of its number, the device has no list
    /// of its name, the list has the sequence of an added entry, has no entry of a dropped one, or the device has no route
    /// that is equal to a dropped one. Or there was no memory.
    pub fn edit(&mut self, alloc: Global, edit: &Edit) -> Result<Touched, EditFail>
        ensures edited { OnOk result (edited edit.now self.old.edited ≡ Ok self.new.edited) }
        ensures baseline { self.new.baseline ≡ self.old.baseline }
        ensures ttl { self.new.ttl ≡ self.old.ttl }
        ensures reviewed { IsReview self.new }
        ensures first { OnOk result (StartsWith (filter (stays (device_of edit.now)) self.old.regions) self.new.regions) }
        ensures sets { Keeps self.old.table self.new.table }
        ensures kept { IfOk result (λ t. t.kept ≡ count_by (stays (device_of edit.now)) self.old.regions) }
        ensures walked { IfOk result (λ t. t.kept + t.walked ≡ length self.old.regions) }
        ensures refused { IfErr result (IsFailOf (edited edit.now self.old.edited)) }
        ensures as_before { OnErr result (self.new ≡ record self.old { table = self.new.table }) }
        ensures untouched { IfErr result (λ e. (e ≡ EditFail.NoMemory → ⊥) → self.new ≡ self.old) }
    {
        let changed = edited_device(alloc, &self.edited, edit)?;
        let old = swap_device(alloc, &mut self.edited, changed);
        let world = WorldRef {
            network: &self.edited,
            links: self.baseline.links,
        };
        let Ok(before) = replace_at(alloc, &mut self.live, world, &old.device, old.position) else {
            swap_device(alloc, &mut self.edited, old);
            return Err(EditFail::NoMemory);
        };
        let change = Change {
            before: &before,
            device: &old.device,
            plain: self.plain,
            ttl: self.ttl,
        };
        match walk_live(alloc, &mut self.live, world, change, &mut self.regions) {
            Ok(touched) => Ok(touched),
            Err(_) => {
                swap_device(alloc, &mut self.edited, old);
                self.live.ways.positions = before;
                Err(EditFail::NoMemory)
            }
        }
    }

    /// The report on the old and the edited network: for each ingress, in the order of the links, the canonical rows of exactly
    /// the headers whose outcomes under the review's TTL differ, each with its two labels.
    ///
    /// It answers `NoMemory` only where there was none.
    pub fn sections(&self, alloc: Global) -> Result<Vec<Section>, NoMemory>
        ensures { IfOk result (λ r. IsReport self.now.baseline.links.ingress self.now.baseline (edited_world self.now) self.now.ttl r.items) }
    {
        let ingress = self.baseline.links.ingress.as_slice();
        sections_of(alloc, &self.live.tables.diagrams, &self.regions, ingress)
    }

    /// How many rows the report has, in steps that go with its diagrams and not with its rows.
    ///
    /// It answers `NoMemory` only where there was none, or where 64 bits don't hold the number.
    pub fn affected(&self, alloc: Global) -> Result<u64, NoMemory>
        ensures rows { IfOk result (HasRows self.now) }
    {
        let ingress = self.baseline.links.ingress.as_slice();
        rows_of_sections(alloc, &self.live.tables.diagrams, &self.regions, ingress)
    }
}
