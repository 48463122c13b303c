//! The first bits of an address, by which prefixes are compared.

ghost use Rattle.std.specs.Prelude.{◌≡◌};
ghost use Rattle.net_types.specs.Routes.{prefix_number};

/// The first bits of the address, as many as the length says, as a number.
pub fn first_bits(length: u8, address: u32) -> u32
    ensures { result ≡ prefix_number length address }
{
    (u64::from(address) >> 32u32.saturating_sub(u32::from(length))) as u32
}
