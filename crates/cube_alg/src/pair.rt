//! Two cubes together, and a cube in two.

ghost use Rattle.std.specs.Prelude.{◌≡◌, ◌<◌, ◌^◌, ◌↔◌, ◌+◌, ◌-◌, ℕ, false, IsTrue, IfSome, IsNone, bit_and, bit_or};
ghost use Rattle.hdr_bits.specs.Bits.{bit_of};
ghost use Rattle.hdr_bits.specs.CubeBits.{IsIn, IsStar};
ghost use Rattle.cube_alg.specs.Pairs.{Meets, AreApart, Overlap, IsInside, HasDigit};

use hdr_bits::Cube;

/// Whether some header is in both cubes.
#[tactic(auto, using(crate::proofs::MaskLemmas::meets_of_overlap, crate::proofs::MaskLemmas::overlap_of_meets))]
pub fn meets(a: &Cube, b: &Cube) -> bool
    ensures shared { IsTrue result ↔ Overlap a.now b.now }
    ensures masks { IsTrue result ↔ Meets a.now b.now }
{
    a.bits & b.fixed == b.bits & a.fixed
}

/// Whether each header of the second cube is in the first.
pub fn covers(a: &Cube, b: &Cube) -> bool
    ensures { IsTrue result ↔ IsInside b.now a.now }
{
    is_wider(a, b) && meets(a, b)
}

// Whether the first has a digit only where the second has one.
pub(crate) fn is_wider(a: &Cube, b: &Cube) -> bool
    ensures { IsTrue result ↔ (bit_and a.now.fixed b.now.fixed ≡ a.now.fixed) }
{
    a.fixed & b.fixed == a.fixed
}

/// The headers that are in both cubes; `None` exactly where there are none.
pub fn meet(a: &Cube, b: &Cube) -> Option<Cube>
    ensures both { IfSome result (λ c. (h : ℕ) → IsIn c h ↔ (IsIn a.now h × IsIn b.now h)) }
    ensures digits { IfSome result (λ c. c.fixed ≡ bit_or a.now.fixed b.now.fixed) }
    ensures none { IsNone result ↔ AreApart a.now b.now }
{
    if !meets(a, b) {
        return None;
    }
    Some(Cube {
        fixed: a.fixed | b.fixed,
        bits: a.bits | b.bits,
    })
}

/// The headers of the cube whose bit `k` is 0, and those where it is 1. Bit `k`, below 112, is `*` before.
pub fn split(c: &Cube, k: u32) -> (Cube, Cube)
    requires bit { k < 112 }
    requires star { IsStar c.now k }
    ensures low { (h : ℕ) → IsIn result.0 h ↔ (IsIn c.now h × (bit_of h k ≡ 0)) }
    ensures high { (h : ℕ) → IsIn result.1 h ↔ (IsIn c.now h × (bit_of h k ≡ 1)) }

    // Only that bit is changed.
    ensures low_bits { HasDigit k 0 c.now result.0 }
    ensures high_bits { HasDigit k 1 c.now result.1 }
    ensures fixed { (result.0.fixed ≡ c.now.fixed + 2 ^ (111 - k)) × (result.1.fixed ≡ c.now.fixed + 2 ^ (111 - k)) }
{
    let weight = 1 << (111 - k);
    let low = Cube {
        fixed: c.fixed | weight,
        bits: c.bits,
    };
    let high = Cube {
        fixed: c.fixed | weight,
        bits: c.bits | weight,
    };
    (low, high)
}
