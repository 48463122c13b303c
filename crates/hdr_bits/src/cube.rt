//! Ternary cubes: sets of headers by 112 bits, each 0, 1 or `*`.

ghost use Rattle.std.specs.Prelude.{◌≡◌, ◌<◌, ◌≤◌, ◌^◌, ◌↔◌, ℕ, IsTrue, IsSome, IfSome, bit_and};

use crate::header::{Header, unpack};

/// A set of headers by 112 bits, each 0, 1 or `*`: a header is in it where it agrees at each bit that
/// isn't `*`. It always holds a header.
///
/// Bit `k` has the weight of a header's bit `k`, 2 to the `111 - k`.
#[derive(Clone, Copy, PartialEq, Eq, Hash, Debug)]
pub struct Cube {
    /// The bits that aren't `*`, below 2 to the 112.
    pub fixed: u128,
    /// The digits at those bits, and 0 at each other one.
    pub bits: u128,
    pub ghost below: { fixed < 2 ^ 112 },
    pub ghost digits: { bit_and bits fixed ≡ bits },
}

impl Cube {
    ghost use Rattle.hdr_bits.specs.Bits.{bit_of};
    ghost use Rattle.hdr_bits.specs.HeaderBits.{number};
    ghost use Rattle.hdr_bits.specs.CubeBits.{IsIn, IsStar, is_in};

    /// The cube of all headers.
    pub fn all() -> Cube
        ensures { (k : ℕ) → k < 112 → IsStar result k }
    {
        Cube { fixed: 0, bits: 0 }
    }

    /// The cube of this header alone.
    pub fn of(h: &Header) -> Cube
        ensures { (n : ℕ) → n < 2 ^ 112 → IsIn result n ↔ (n ≡ number h.now) }
    {
        Cube {
            fixed: (1 << 112) - 1,
            bits: h.to_bits(),
        }
    }

    /// The cube with these masks; `None` exactly where the bits are 2 to the 112 or more, or a digit
    /// stands at a bit that is `*`.
    pub fn from_masks(fixed: u128, bits: u128) -> Option<Cube>
        ensures valid { IsSome result ↔ ((fixed < 2 ^ 112) × (bit_and bits fixed ≡ bits)) }
        ensures masks { IfSome result (λ c. (c.fixed ≡ fixed) × (c.bits ≡ bits)) }
    {
        if fixed < 1 << 112 && bits & fixed == bits {
            Some(Cube { fixed, bits })
        } else {
            None
        }
    }

    /// Whether the header is in the cube.
    pub fn contains(&self, h: &Header) -> bool
        ensures member { IsTrue result ↔ IsIn self.now (number h.now) }
        ensures test { result ≡ is_in self.now (number h.now) }
    {
        h.to_bits() & self.fixed == self.bits
    }

    /// The header of the cube with the least number.
    pub fn least(&self) -> Header
        ensures member { IsIn self.now (number result) }
        ensures least { (n : ℕ) → IsIn self.now n → number result ≤ n }
    {
        unpack(self.bits)
    }
}
