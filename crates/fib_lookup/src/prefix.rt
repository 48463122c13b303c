//! The cube of the headers whose destinations a prefix holds.

ghost use Rattle.std.specs.Prelude.{◌≡◌, ◌<◌, ◌^◌, ◌/◌, ℕ};
ghost use Rattle.hdr_bits.specs.CubeBits.{is_in};
ghost use Rattle.net_types.specs.Routes.{holds};
ghost use Rattle.fib_lookup.specs.Choices.{IsOfDestinations};

use hdr_bits::Cube;
use net_types::Subnet;

/// The cube of the headers whose destination the prefix holds.
pub fn prefix_cube(prefix: &Subnet) -> Cube
    ensures holds { (h : ℕ) → h < 2 ^ 112 → is_in result h ≡ holds prefix.now (h / 2 ^ 80) }
    ensures destinations { IsOfDestinations result }
{
    let size: u64 = 1 << (32 - u32::from(prefix.length));
    let mask = (1 << 32) - size;
    let address = u64::from(prefix.address);
    let least = address - address % size;
    Cube {
        fixed: u128::from(mask) * (1 << 80),
        bits: u128::from(least) * (1 << 80),
    }
}
