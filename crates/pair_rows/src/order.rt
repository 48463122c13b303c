//! The order of rows.

ghost use Rattle.std.specs.Prelude.{◌≡◌, ◌<◌, ◌==◌, Bool, IsTrue, Some, if◌then◌else◌};
ghost use Rattle.hdr_bits.specs.Bits.{bit_of};
ghost use Rattle.hdr_bits.specs.CubeBits.{digit_at};
ghost use Rattle.hdr_bits.specs.Rows.{ComesBefore};

use hdr_bits::Cube;

/// Whether, at the first bit where the two differ, the first has 0 and the second 1.
pub(crate) fn comes_before(a: &Cube, b: &Cube) -> bool
    ensures { IsTrue result → ComesBefore a.now b.now }
{
    let differs = (a.fixed ^ b.fixed) | (a.bits ^ b.bits);
    let first = differs.leading_zeros() - 16;
    if first >= 112 {
        return false;
    }
    has_digit(a, first, false) && has_digit(b, first, true)
}

// Whether the cube has this digit at the bit.
fn has_digit(cube: &Cube, bit: u32, one: bool) -> bool
    requires { bit < 112 }
    ensures { IsTrue result → digit_at cube.now bit ≡ Some (if one then 1 else 0) }
{
    is_one_at(cube.fixed, bit) && is_one_at(cube.bits, bit) == one
}

// Whether this bit of the number is 1.
fn is_one_at(number: u128, bit: u32) -> bool
    requires { bit < 112 }
    ensures { result ≡ (bit_of number bit == 1) }
{
    number >> (111 - bit) & 1 == 1
}
