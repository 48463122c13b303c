//! Cubes that test one field, and what lists of cubes have in common.

ghost use Rattle.std.specs.Prelude.{◌≡◌, ◌<◌, ◌≤◌, ◌^◌, ◌+◌, ◌-◌, ◌*◌, ◌/◌, ◌%◌, ◌==◌, ◌&&◌, not, ℕ, IfOk, OnOk, bit_and};
ghost use Rattle.hdr_bits.specs.CubeBits.{is_in};
ghost use Rattle.acl_match.specs.Cubes.{any_in, is_in_some, field};
ghost use Rattle.acl_match.specs.Products.{AddsMeets};
ghost use Rattle.acl_match.specs.Ports.{in_block};

use crate::block::Block;
use cube_alg::{meet, minus};
use hdr_bits::Cube;
use no_memory::NoMemory;
use std::alloc::Global;

/// The headers whose field of 16 bits above the lowest `shift` is in the block.
pub(crate) fn block_cube(shift: u32, block: &Block) -> Cube
    requires { shift + 16 ≤ 112 }
    ensures { (h : ℕ) → is_in result h ≡ in_block (field shift 16 h) block.now }
{
    let size: u32 = 1 << block.width;
    field_cube(shift, 16, 65536 - size, block.first)
}

/// The headers whose field of this width, above the lowest `shift` bits, agrees with the value where the mask
/// has ones. The mask may have holes.
pub(crate) fn field_cube(shift: u32, width: u32, mask: u32, value: u32) -> Cube
    requires within { shift + width ≤ 112 }
    requires width { width ≤ 32 }
    requires mask { mask < 2 ^ width }
    ensures { (h : ℕ) → is_in result h ≡ (bit_and (field shift width h) mask == bit_and value mask) }
{
    let weight: u128 = 1 << shift;
    Cube {
        fixed: u128::from(mask) * weight,
        bits: u128::from(value & mask) * weight,
    }
}

/// The cube, alone.
pub(crate) fn one(alloc: Global, cube: Cube) -> Result<Vec<Cube>, NoMemory>
    ensures { IfOk result (λ r. (h : ℕ) → any_in r.items h ≡ is_in cube h) }
{
    let mut cubes = Vec::new(alloc);
    cubes.push(cube)?;
    Ok(cubes)
}

/// The headers that aren't in the cube: a cube for each bit that it fixes.
pub(crate) fn outside(alloc: Global, cube: &Cube) -> Result<Vec<Cube>, NoMemory>
    ensures { IfOk result (λ r. (h : ℕ) → any_in r.items h ≡ not (is_in cube.now h)) }
{
    let mut cubes = Vec::new(alloc);
    minus(&Cube::all(), cube, &mut cubes)?;
    Ok(cubes)
}

/// The headers of the first, if any, that are also in the second.
pub(crate) fn common(a: Option<Cube>, b: &Cube) -> Option<Cube>
    ensures { (h : ℕ) → is_in_some result h ≡ (is_in_some a h && is_in b.now h) }
{
    match a {
        Some(a) => meet(&a, b),
        None => None,
    }
}

/// The headers that are in a cube of the first and in one of the second.
pub(crate) fn product(
    alloc: Global,
    firsts: &[Cube],
    seconds: &[Cube],
) -> Result<Vec<Cube>, NoMemory>
    ensures { IfOk result (λ r. (h : ℕ) → any_in r.items h ≡ (any_in firsts.now h && any_in seconds.now h)) }
{
    let mut cubes = Vec::new(alloc);
    for c in firsts {
        add_meets(c, seconds, &mut cubes)?;
    }
    Ok(cubes)
}

// Adds what one cube has in common with each of these.
fn add_meets(c: &Cube, tests: &[Cube], cubes: &mut Vec<Cube>) -> Result<(), NoMemory>
    ensures { OnOk result (AddsMeets c.now tests.now cubes.old.items cubes.new.items) }
{
    for t in tests {
        let Some(both) = meet(c, t) else {
            continue;
        };
        cubes.push(both)?;
    }
    Ok(())
}
