//! The roots of a call.
ghost use Rattle.std.specs.Prelude.{◌≡◌, ◌<◌, ◌^◌, ℕ, AllPairs, Any, IfOk, length};
ghost use Rattle.task_board.specs.Regions.{Holds, LieApart};
ghost use Rattle.steal_pool.specs.Roots.{in_slots};

use cube_alg::Region;
use hdr_bits::Cube;
use no_memory::NoMemory;
use std::alloc::Global;

/// The cubes as roots, the k-th in slot k. They are disjoint, since their slots differ.
pub fn roots_of(alloc: Global, cubes: &[Cube]) -> Result<Vec<Region>, NoMemory>
    requires { length cubes.now < 2 ^ 32 }
    ensures roots { IfOk result (λ v. v.items ≡ in_slots 0 cubes.now) }
    ensures count { IfOk result (λ v. length v.items ≡ length cubes.now) }
    ensures apart { IfOk result (λ v. AllPairs LieApart v.items) }
{
    let mut roots = Vec::new(alloc);
    for i in 0..cubes.len() {
        let cube = cubes[i];
        roots.push(Region {
            slot: i as u32,
            cube,
        })?;
    }
    Ok(roots)
}

/// All headers in each of so many slots, as roots.
pub fn whole_slots(alloc: Global, slots: usize) -> Result<Vec<Region>, NoMemory>
    requires { slots < 2 ^ 32 }
    ensures few { IfOk result (λ roots. length roots.items ≡ slots) }
    ensures apart { IfOk result (λ roots. AllPairs LieApart roots.items) }
    ensures whole { IfOk result (λ roots. (k h : ℕ) → k < slots → Any (Holds k h) roots.items) }
{
    let cubes = vec![in alloc; Cube::all(); slots]?;
    let roots = roots_of(alloc, cubes.as_slice())?;
    Ok(roots)
}
