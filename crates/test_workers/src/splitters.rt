//! Splitters whose leaves are known.
ghost use Rattle.std.specs.Prelude.{◌≡◌, ◌<◌, ◌↔◌, IsTrue};
ghost use Rattle.hdr_bits.specs.CubeBits.{IsStar};

use cube_alg::Region;
use hdr_bits::Cube;
use no_memory::NoMemory;
use std::alloc::Global;
use std::sync::atomic::{AtomicU64, Ordering};
use steal_pool::{Splitter, Worked, halves};
use task_board::Meaning;

/// No header has a value.
#[derive(Clone, Copy, PartialEq, Eq)]
pub struct Nothing;

impl Meaning for Nothing {
    type Value = u64;

    ghost use Rattle.test_workers.specs.Meanings.{none_of, nones_same};

    ghost gives = { none_of };

    ghost same = { nones_same _ };
}

impl Splitter for Nothing {
    fn work(&self, _alloc: Global, _region: &Region) -> Result<Worked<u64>, NoMemory> {
        Ok(Worked::Nothing)
    }
}

/// Each header has the number of its slot, which is told where the first bits of a region are fixed, as many as `depth`.
#[derive(Clone, Copy, PartialEq, Eq)]
pub struct Slots {
    pub depth: u32,
}

impl Meaning for Slots {
    type Value = u64;

    ghost use Rattle.test_workers.specs.Meanings.{slot_of, slots_same};

    ghost gives = { slot_of };

    ghost same = { slots_same _ };
}

impl Splitter for Slots {
    fn work(&self, alloc: Global, region: &Region) -> Result<Worked<u64>, NoMemory> {
        for bit in 0..self.depth.min(112) {
            if is_open(&region.cube, bit) {
                let parts = halves(alloc, region, bit)?;
                return Ok(Worked::Parts { parts });
            }
        }
        let value = u64::from(region.slot);
        Ok(Worked::Whole { value })
    }
}

/// As `Slots` without depth, but the first calls are refused, as many as `refused`.
#[derive(Clone, Copy)]
#[derive_where(PartialEq, Eq)]
pub struct Stingy<'a> {
    #[derive_where(skip)]
    pub calls: &'a AtomicU64,
    pub refused: u64,
}

impl<'a> Meaning for Stingy<'a> {
    type Value = u64;

    ghost use Rattle.test_workers.specs.Meanings.{slot_of, slots_same};

    ghost gives = { slot_of };

    ghost same = { slots_same _ };
}

impl<'a> Splitter for Stingy<'a> {
    fn work(&self, _alloc: Global, region: &Region) -> Result<Worked<u64>, NoMemory> {
        if self.calls.fetch_add(1, Ordering::SeqCst) < self.refused {
            return Err(NoMemory);
        }
        let value = u64::from(region.slot);
        Ok(Worked::Whole { value })
    }
}

fn is_open(cube: &Cube, bit: u32) -> bool
    requires { bit < 112 }
    ensures { IsTrue result → IsStar cube.now bit }
{
    cube.fixed >> (111 - bit) & 1 == 0
}
