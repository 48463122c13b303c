//! What the headers of a region do at a spot.

ghost use Rattle.std.specs.Prelude.{◌≡◌, ◌∷◌, [], Some, IfOk, OnOk, map, filter_map, slice_get};
ghost use Rattle.std.specs.List.{AllByRecursion};
ghost use Rattle.net_forms.specs.Worlds.{world_in};
ghost use Rattle.region_walk.specs.Lists.{AddsFrom, AreNumbersOf};
ghost use Rattle.region_walk.specs.Spots.{IsBase, IsSpot, relative, next_spot};
ghost use Rattle.region_walk.specs.Seen.{OfSeen};
ghost use Rattle.region_walk.specs.Steps.{AddsNumbers, GrowsWith};

use crate::spot::{Spot, next_spot, relative};
use cube_alg::{OnCube, Stamp};
use hdr_bits::{Cube, Header};
use indexmap::IndexSet;
use net_types::{List, NoMemory};
use std::alloc::Global;
use transfer_rel::{Prepared, StampMove, Version, moves_on};

/// A spot with the moves of the headers there, told from the start of their walks, and the numbers of the spots to
/// which they go on.
#[derive(Drop)]
pub(crate) struct Visit {
    pub spot: Spot,
    pub moves: List<StampMove>,
    pub next: List<usize>,
}

/// The visit of a spot; or, where two headers of the region take different entries there, a bit that is open in the region.
/// The spots to which it goes on are added.
pub(crate) fn visit_at(
    alloc: Global,
    prepared: &Prepared,
    version: Version,
    cube: &Cube,
    first: &Header,
    spot: &Spot,
    spots: &mut IndexSet<Spot>,
) -> Result<OnCube<Visit>, NoMemory>
    requires base { IsBase cube.now first.now }
    requires spot { IsSpot cube.now first.now spot.now }
    requires spots { AllByRecursion (IsSpot cube.now first.now) spots.now.keys }
    ensures seen { IfOk result (λ answer. OfSeen (world_in prepared.now version) cube.now first.now spot.now spots.old.keys spots.new.keys answer) }
    ensures grows { OnOk result (GrowsWith (IsSpot cube.now first.now) spots.old.keys spots.new.keys) }
{
    let stamp = spot.stamp();
    match moves_on(alloc, prepared, version, spot.place, &stamp.forth(cube))? {
        OnCube::Divides { bit } => Ok(OnCube::Divides { bit }),
        OnCube::All { answer: moves } => {
            let moves = relative_moves(alloc, first, &stamp, moves.as_slice())?;
            let next = numbers_of(alloc, &moves, spots)?;
            Ok(OnCube::All {
                answer: Visit {
                    spot: *spot,
                    moves: List::new(moves),
                    next: List::new(next),
                },
            })
        }
    }
}

// The moves told from the start of the walk.
fn relative_moves(
    alloc: Global,
    first: &Header,
    before: &Stamp,
    moves: &[StampMove],
) -> Result<Vec<StampMove>, NoMemory>
    ensures { IfOk result (λ told. told.items ≡ map (relative first.now before.now) moves.now) }
{
    let mut told = Vec::new(alloc);
    for one in moves {
        told.push(relative(first, before, one))?;
    }
    Ok(told)
}

// The numbers of the spots to which the moves go on. New spots are added.
fn numbers_of(
    alloc: Global,
    moves: &[StampMove],
    spots: &mut IndexSet<Spot>,
) -> Result<Vec<usize>, NoMemory>
    ensures adds { OnOk result (AddsFrom (filter_map next_spot moves.now) spots.old.keys spots.new.keys) }
    ensures numbers { IfOk result (λ numbers. AreNumbersOf spots.new.keys numbers.items (filter_map next_spot moves.now)) }
{
    let mut numbers = Vec::new(alloc);
    for one in moves {
        add_number_of(one, spots, &mut numbers)?;
    }
    Ok(numbers)
}

fn add_number_of(
    one: &StampMove,
    spots: &mut IndexSet<Spot>,
    numbers: &mut Vec<usize>,
) -> Result<(), NoMemory>
    ensures { OnOk result (AddsNumbers (filter_map next_spot (one.now ∷ [])) spots.old.keys spots.new.keys numbers.old.items numbers.new.items) }
{
    let Some(spot) = next_spot(one) else {
        return Ok(());
    };
    let number = number_of(spot, spots)?;
    numbers.push(number)?;
    Ok(())
}

/// The number of a spot, which is added where it isn't there.
pub(crate) fn number_of(spot: Spot, spots: &mut IndexSet<Spot>) -> Result<usize, NoMemory>
    ensures adds { OnOk result (AddsFrom (spot ∷ []) spots.old.keys spots.new.keys) }
    ensures number { IfOk result (λ number. slice_get spots.new.keys number ≡ Some spot) }
{
    let (number, _) = spots.insert_full(spot)?;
    Ok(number)
}
