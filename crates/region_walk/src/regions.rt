//! A region, explored: the graph of all its headers where they walk alike, else its two halves.

ghost use Rattle.std.specs.Prelude.{IfOk};
ghost use Rattle.cube_alg.specs.OnCubes.{IsOpen};
ghost use Rattle.region_walk.specs.Region.{AreHalves};
ghost use Rattle.region_walk.specs.Answers.{OfExplored};
ghost use Rattle.net_forms.specs.Worlds.{world_in};

use crate::Graph;
use crate::walk::walk;
use cube_alg::{OnCube, split};
use hdr_bits::Cube;
use net_types::{NoMemory, Place};
use std::alloc::Global;
use transfer_rel::{Prepared, Version};

/// What is found of a region.
#[derive(Drop)]
pub enum Explored<'a> {
    /// All its headers walk alike.
    Whole { graph: Graph<'a> },
    /// Two headers of the region take different entries at a place on the way: these are its halves by a bit that is open in it.
    Halves { low: Cube, high: Cube },
}

/// Walks all headers of the cube from the place.
pub fn explore<'a>(
    alloc: Global,
    prepared: &'a Prepared<'a>,
    version: Version,
    place: Place,
    cube: &Cube,
) -> Result<Explored<'a>, NoMemory>
    ensures { IfOk result (λ answer. OfExplored (world_in prepared.now version) place cube.now answer) }
{
    match walk(alloc, prepared, version, place, cube)? {
        OnCube::Divides { bit } => {
            let (low, high) = halves(cube, bit);
            Ok(Explored::Halves { low, high })
        }
        OnCube::All { answer } => Ok(Explored::Whole {
            graph: Graph::new(
                prepared,
                version,
                place,
                *cube,
                answer.visits,
                answer.levels,
            ),
        }),
    }
}

// The halves of the cube by a bit that is open in it.
fn halves(cube: &Cube, bit: u32) -> (Cube, Cube)
    requires { IsOpen cube.now bit }
    ensures { AreHalves cube.now result.0 result.1 }
{
    split(cube, bit)
}
