//! A block of ports.

ghost use Rattle.std.specs.Prelude.{◌≡◌, ◌≤◌, ◌^◌, ◌+◌, ◌%◌};

/// The ports that share their first bits: from `first` on, 2 to the `width` of them.
#[derive(Clone, Copy, PartialEq, Eq, Debug)]
pub(crate) struct Block {
    pub(crate) first: u32,
    pub(crate) width: u32,
    pub(crate) ghost width_small: { width ≤ 16 },
    pub(crate) ghost aligned: { first % 2 ^ width ≡ 0 },
    pub(crate) ghost below: { first + 2 ^ width ≤ 2 ^ 16 },
}
