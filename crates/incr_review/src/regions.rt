//! Regions: sets of headers at an ingress, with their labels in two networks and the devices that they visit.

ghost use Rattle.std.specs.List.{list_any};
ghost use Rattle.std.specs.Option.{option_copied};
ghost use Rattle.std.specs.Prelude.{◌≡◌, ◌<◌, [], ◌∷◌, ◌++◌, ◌==◌, IfOk, OnOk, length, map};
ghost use Rattle.cube_diagram.specs.Functions.{Keeps, count_of};
ghost use Rattle.net_view.specs.Borrowed.{world_of};
ghost use Rattle.incr_review.specs.Regions.{stays};
ghost use Rattle.incr_review.specs.Again.{AddsRegions, IsWalkIn, as_region, old_or};

use crate::walked::{WalkedPart, walked_parts};
use cube_diagram::Diagrams;
use net_types::{Duplicate, Label, List, NoMemory, Place};
use set_walk::Net;
use std::alloc::Global;

/// Headers that enter at one ingress, all of which have these two labels and visit these devices.
#[derive(Drop)]
pub struct Region {
    /// The position of the ingress.
    pub slot: u32,
    /// The set of the headers, not empty: the number of a function of the review's table that gives these headers a value, and
    /// no other header one.
    pub headers: u32,
    /// Their label in the old network.
    pub old: Label,
    /// Their label in the edited network.
    pub new: Label,
    /// The devices that they visit in the edited network.
    pub devices: List<u32>,
}

impl Duplicate for Region {
    fn copy(&self, alloc: Global) -> Result<Region, NoMemory> {
        Ok(Region {
            slot: self.slot,
            headers: self.headers,
            old: self.old.copy(alloc)?,
            new: self.new.copy(alloc)?,
            devices: self.devices.copy_items(alloc)?,
        })
    }
}

/// Whether none of its headers visits the device.
pub(crate) fn stays(region: &Region, device: u32) -> bool
    ensures { result ≡ stays device region.now }
{
    !has_device(region.devices.as_slice(), device)
}

fn has_device(devices: &[u32], device: u32) -> bool
    ensures { result ≡ list_any (λ d. d == device) devices.now }
{
    devices.iter().any(|d| *d == device)
}

/// How many regions an edit left alone, and how many were walked again.
#[derive(Clone, Copy, Debug, PartialEq, Eq)]
pub struct Touched {
    pub kept: u64,
    pub walked: u64,
}

/// What is walked: a network for all headers, from its ingresses, with this TTL.
#[derive(Clone, Copy)]
pub(crate) struct Walk<'a> {
    pub(crate) net: &'a Net<'a>,
    pub(crate) ingress: &'a [Place],
    pub(crate) ttl: u8,
}

/// Headers that are walked from the ingress of this position, and their label in the old network; none where it is the label
/// that the walk finds.
#[derive(Clone, Copy)]
pub(crate) struct Walking<'a> {
    pub(crate) slot: u32,
    pub(crate) headers: u32,
    pub(crate) old: Option<&'a Label>,
}

/// Walks these headers and adds their regions.
pub(crate) fn add_regions(
    alloc: Global,
    table: &mut Diagrams,
    walk: Walk,
    walking: Walking,
    regions: &mut Vec<Region>,
) -> Result<(), NoMemory>
    requires walk { IsWalkIn table.old walk }
    requires slot { walking.slot < length walk.ingress.now }
    requires headers { walking.headers < count_of table.old }
    ensures added { OnOk result (AddsRegions walk.entry walking.entry table.new regions.old.items regions.new.items) }
    ensures kept { Keeps table.old table.new }
{
    let place = walk.ingress[walking.slot as usize];
    let parts = walked_parts(alloc, table, walk.net, place, walking.headers, walk.ttl)?;
    add_parts(alloc, walking, parts, regions)
}

// The parts as regions.
fn add_parts(
    alloc: Global,
    walking: Walking,
    parts: Vec<WalkedPart>,
    regions: &mut Vec<Region>,
) -> Result<(), NoMemory>
    ensures { OnOk result (regions.new.items ≡ regions.old.items ++ map (as_region walking.entry) parts.items) }
{
    for part in parts {
        add_part(alloc, walking, part, regions)?;
    }
    Ok(())
}

// The part as a region.
fn add_part(
    alloc: Global,
    walking: Walking,
    part: WalkedPart,
    regions: &mut Vec<Region>,
) -> Result<(), NoMemory>
    ensures { OnOk result (regions.new.items ≡ regions.old.items ++ as_region walking.entry part ∷ []) }
{
    let old = old_label(alloc, walking.old, &part.label)?;
    regions.push(Region {
        slot: walking.slot,
        headers: part.headers,
        old,
        new: part.label,
        devices: part.devices,
    })?;
    Ok(())
}

// The old label, or this one where none is known.
fn old_label(alloc: Global, old: Option<&Label>, new: &Label) -> Result<Label, NoMemory>
    ensures { IfOk result (λ r. r ≡ old_or (option_copied old.entry) new.now) }
{
    match old {
        None => new.copy(alloc),
        Some(label) => label.copy(alloc),
    }
}
