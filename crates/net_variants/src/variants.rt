//! Each variant compared with the network.

ghost use Rattle.net_view.specs.Borrowed.{world_of};
ghost use Rattle.live_network.specs.Live.{IsLive};
ghost use Rattle.net_variants.specs.Kept.{IsKept};

use crate::comparing::{Asked, compare_kept};
use crate::kept::Kept;
use list_tables::formed_by_workers;
use live_network::{settle, ways_of_formed};
use net_types::{Duplicate, Links, NetDevice, Network, NoMemory, Section};
use net_view::WorldRef;
use std::alloc::Global;
use std::marker::Model;
use std::sync::Wait;
use std::thread::Threads;
use steal_pool::{Gate, Workers};

/// A network with its links, with which variants of it are compared. It is compiled once, and of each variant the changed devices
/// alone.
pub struct Variants<'a> {
    network: &'a Network,
    links: &'a Links,
    kept: Kept,
}

impl<'a> Drop for Variants<'a> {
    fn drop(self) {
        let Variants {
            network: _,
            links: _,
            kept: _,
        } = self;
    }
}

impl<'a> Model for Variants<'a> {
    ghost use Rattle.net_types.specs.World.{World};
    ghost use Rattle.net_variants.specs.Kept.{IsKept};

    // Contracts see the network with its links.
    ghost Value = { World };

    ghost view = { λ v. record { network = v.network.now; links = v.links.now } };

    ghost invariant = { λ v. IsKept (record { network = v.network.now; links = v.links.now }) v.kept };
}

impl<'a> Variants<'a> {
    ghost use Rattle.std.specs.Prelude.{◌≡◌, ◌≤◌, IfOk};
    ghost use Rattle.net_variants.specs.Variants.{IsVariantReport};

    /// Compiles the network. Its long lists are made functions by the workers.
    pub fn open<G, R: Threads + Sync>(
        by: &Workers<R, G>,
        alloc: Global,
        network: &'a Network,
        links: &'a Links,
    ) -> Result<Variants<'a>, NoMemory>
        ensures { IfOk result (λ v. v ≡ record { network = network.now; links = links.now }) }
    {
        let world = WorldRef { network, links };
        let formed = formed_by_workers(by, alloc, world)?;
        let live = ways_of_formed(alloc, formed)?;
        let kept = Kept {
            network: network.copy(alloc)?,
            replaced: Vec::new(alloc),
            live,
        };
        Ok(Variants {
            network,
            links,
            kept,
        })
    }

    /// The report on the network and the variant in which these devices stand in the places of those of their names, one after the
    /// other. The variants before it don't matter.
    ///
    /// The report is the same for each number of workers. The TTL is at least 1. It answers `NoMemory` only where there was none.
    pub fn compare<G: Gate + Sync, R: Threads + Wait + Sync>(
        &mut self,
        by: &Workers<R, G>,
        alloc: Global,
        changes: &[NetDevice],
        ttl: u8,
    ) -> Result<Vec<Section>, NoMemory>
        requires { 1 ≤ ttl }
        ensures report { IfOk result (λ sections. IsVariantReport self.old changes.now ttl sections.items) }
        ensures same { self.new ≡ self.old }
    {
        let world = WorldRef {
            network: self.network,
            links: self.links,
        };
        let asked = Asked { changes, ttl };
        let sections = compare_kept(by, alloc, world, &mut self.kept, asked);
        settle(alloc, world, &mut self.kept.live);
        sections
    }
}
