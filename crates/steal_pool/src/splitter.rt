//! Work on one region, as the pool's user gives it.
ghost use Rattle.std.specs.Prelude.{◌<◌, IfOk};
ghost use Rattle.hdr_bits.specs.CubeBits.{IsStar};
ghost use Rattle.steal_pool.specs.Work.{IsWorkOf, Divide};

use cube_alg::{Region, split};
use no_memory::NoMemory;
use std::alloc::Global;
use task_board::Meaning;

/// What came of the work on a region.
#[derive(Drop)]
pub enum Worked<V> {
    /// No header of the region has a value.
    Nothing,
    /// Each header of the region has this value.
    Whole { value: V },
    /// The region is divided into 2 to 113 parts, which are disjoint, cover it exactly, and each have more fixed bits.
    Parts { parts: Vec<Region> },
}

/// A meaning that finds its values region by region.
pub trait Splitter: Meaning {
    /// Finds the value that all headers of the region have, or that none has one, or divides the region.
    fn work(&self, alloc: Global, region: &Region) -> Result<Worked<Self::Value>, NoMemory>
        ensures { IfOk result (IsWorkOf (Self.gives self.now) region.now) };
}

/// The two halves of a region, by a bit that its cube leaves open: the parts of a division.
pub fn halves(alloc: Global, region: &Region, bit: u32) -> Result<Vec<Region>, NoMemory>
    requires within { bit < 112 }
    requires star { IsStar region.now.cube bit }
    ensures { IfOk result (λ v. Divide region.now v.items) }
{
    let (low, high) = split(&region.cube, bit);
    let parts = Vec::from_array(
        alloc,
        [
            Region {
                slot: region.slot,
                cube: low,
            },
            Region {
                slot: region.slot,
                cube: high,
            },
        ],
    )?;
    Ok(parts)
}
