//! All walks of the headers of a region, level by level.

ghost use Rattle.std.specs.Prelude.{IfOk, OnOk};
ghost use Rattle.net_forms.specs.Worlds.{world_in};
ghost use Rattle.hdr_bits.specs.Lists.{Extends};
ghost use Rattle.region_walk.specs.Spots.{IsBase};
ghost use Rattle.region_walk.specs.Visits.{AreVisited};
ghost use Rattle.region_walk.specs.Seen.{OfSweep, OfWalked};

use crate::level::{Level, next_states};
use crate::spot::Spot;
use crate::visit::{Visit, number_of, visit_at};
use cube_alg::{OnCube, Stamp};
use hdr_bits::{Cube, Header};
use indexmap::IndexSet;
use net_types::{List, NoMemory, Place};
use std::alloc::Global;
use transfer_rel::{Prepared, Version};

/// What a walk over all new spots finds: a visit of each; or, where headers of the region take different entries at one, a
/// bit that is open in the region.
#[derive(Drop)]
pub(crate) enum Sweep {
    All,
    Divides { bit: u32 },
}

/// The visits of a region, with its levels.
#[derive(Drop)]
pub(crate) struct Walked {
    pub visits: Vec<Visit>,
    pub levels: Vec<Level>,
}

/// Walks all headers of the cube from the place, by at most 254 moves; or, where two of them take different entries on the
/// way, answers a bit that is open in the cube.
pub(crate) fn walk(
    alloc: Global,
    prepared: &Prepared,
    version: Version,
    place: Place,
    cube: &Cube,
) -> Result<OnCube<Walked>, NoMemory>
    ensures { IfOk result (λ answer. OfWalked (world_in prepared.now version) place cube.now answer) }
{
    let first = cube.least();
    let mut spots = IndexSet::new(alloc);
    let mut states = Vec::new(alloc);
    states.push(number_of(Spot::new(place, &Stamp::none()), &mut spots)?)?;
    let mut visits = Vec::new(alloc);
    let mut levels = Vec::new(alloc);
    for _n in 0..255u8 {
        match visit_new(
            alloc,
            prepared,
            version,
            cube,
            &first,
            &mut spots,
            &mut visits,
        )? {
            Sweep::Divides { bit } => return Ok(OnCube::Divides { bit }),
            Sweep::All => {}
        }
        let now = states;
        states = next_states(alloc, &visits, &now)?;
        levels.push(Level {
            states: List::new(now),
        })?;
        if states.len() == 0 {
            return Ok(OnCube::All {
                answer: Walked { visits, levels },
            });
        }
    }
    Ok(OnCube::All {
        answer: Walked { visits, levels },
    })
}

// Visits all spots that have no visit. They are those behind the last visit, since spots have numbers in the order in
// which they are found.
fn visit_new(
    alloc: Global,
    prepared: &Prepared,
    version: Version,
    cube: &Cube,
    first: &Header,
    spots: &mut IndexSet<Spot>,
    visits: &mut Vec<Visit>,
) -> Result<Sweep, NoMemory>
    requires base { IsBase cube.now first.now }
    requires visited { AreVisited (world_in prepared.now version) cube.now first.now spots.now.keys visits.now.items }
    ensures sweep { IfOk result (λ answer. OfSweep (world_in prepared.now version) cube.now first.now visits.old.items spots.old.keys spots.new.keys visits.new.items answer) }
    ensures spots { OnOk result (Extends spots.old.keys spots.new.keys) }
    ensures visits { OnOk result (Extends visits.old.items visits.new.items) }
{
    for _number in visits.len()..spots.len() {
        let Some(spot) = spots.get_index(visits.len()) else {
            return Ok(Sweep::All);
        };
        let spot = *spot;
        match visit_at(alloc, prepared, version, cube, first, &spot, spots)? {
            OnCube::Divides { bit } => return Ok(Sweep::Divides { bit }),
            OnCube::All { answer: visit } => visits.push(visit)?,
        }
    }
    Ok(Sweep::All)
}
