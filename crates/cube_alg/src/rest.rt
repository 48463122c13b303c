//! The headers of one cube outside another.

ghost use Rattle.std.specs.Prelude.{◌≡◌, ◌<◌, ◌^◌, ◌-◌, ◌↔◌, ℕ, OnOk, OnErr, IsTrue};
ghost use Rattle.hdr_bits.specs.Bits.{bit_of};
ghost use Rattle.cube_alg.specs.Pairs.{Overlap};
ghost use Rattle.hdr_bits.specs.Lists.{Extends};
ghost use Rattle.cube_alg.specs.Rest.{AddsRest, AddsNarrowing};

use crate::cut::free_bit;
use crate::pair::{meets, split};
use hdr_bits::Cube;
use no_memory::NoMemory;

/// Adds disjoint cubes that hold exactly the headers of `a` outside `b`: `a` itself where the two are
/// disjoint, else for each bit in rising order where only `b` has a digit, the cube that agrees with `b`
/// at all earlier such bits and differs from it there. At `NoMemory` the pieces are as before.
pub fn minus(a: &Cube, b: &Cube, pieces: &mut Vec<Cube>) -> Result<(), NoMemory>
    ensures rest { OnOk result (AddsRest a.now b.now pieces.old.items pieces.new.items) }
    ensures err { OnErr result (pieces.new.items ≡ pieces.old.items) }
{
    if !meets(a, b) {
        pieces.push(*a)?;
        return Ok(());
    }
    let count = pieces.len();
    if add_rest(*a, b, pieces).is_err() {
        pieces.truncate(count);
        return Err(NoMemory);
    }
    Ok(())
}

// Whether the cube's digit at this bit is 1.
fn is_one(c: &Cube, k: u32) -> bool
    requires { k < 112 }
    ensures { IsTrue result ↔ (bit_of c.now.bits k ≡ 1) }
{
    c.bits >> (111 - k) & 1 == 1
}

// The same for a cube that has headers of `b`.
fn add_rest(a: Cube, b: &Cube, pieces: &mut Vec<Cube>) -> Result<(), NoMemory>
    requires overlap { Overlap a b.now }
    ensures rest { OnOk result (AddsNarrowing a b.now pieces.old.items pieces.new.items) }
    ensures grows { Extends pieces.old.items pieces.new.items }
{
    let Some(bit) = free_bit(b, &a) else {
        return Ok(());
    };
    let (low, high) = split(&a, bit);
    if is_one(b, bit) {
        pieces.push(low)?;
        add_rest(high, b, pieces)?;
        return Ok(());
    }
    pieces.push(high)?;
    add_rest(low, b, pieces)?;
    Ok(())
}
