//! Headers as numbers, and the headers of a cube.

use crate::text::{cube, print_all};
use hdr_bits::{Cube, Header};
use test_stop::Stop;

const HEADER: Header = Header {
    dst: 0x8000_0000,
    src: 1,
    proto: 6,
    dport: 80,
    sport: 2,
    flags: 18,
};

/// A header's number has its fields in order, the destination's first bit is bit 0, and flags end at bit 111.
pub(crate) fn show_headers(rt: &HostRuntime) -> Result<(), Stop> {
    let bits = HEADER.to_bits();
    let changed = HEADER.with_bit(111, true).with_bit(0, false);
    print_all(
        rt,
        &[
            ("the destination comes first", bits >> 80 == 0x8000_0000),
            ("flags come last", bits & 0xff == 18),
            ("bit 0", HEADER.bit(0)),
            ("bit 1", HEADER.bit(1)),
            ("bit 110", HEADER.bit(110)),
            ("back", Header::from_bits(bits) == Some(HEADER)),
            (
                "2 to the 112 is no header",
                Header::from_bits(1 << 112).is_none(),
            ),
            (
                "bits set and cleared",
                changed.dst == 0 && changed.flags == 19,
            ),
        ],
    )
}

/// Masks are those of a cube where each digit stands at a bit that isn't `*`.
pub(crate) fn show_cubes(rt: &HostRuntime) -> Result<(), Stop> {
    let even = cube("******10");
    let alone = Cube::of(&Header { flags: 2, ..HEADER });
    let six = Header { flags: 6, ..HEADER };
    let three = Header { flags: 3, ..HEADER };
    print_all(
        rt,
        &[
            ("masks of all bits", Cube::from_masks(0, 0).is_some()),
            ("a bit beyond 112", Cube::from_masks(1 << 112, 0).is_some()),
            ("a digit at a fixed bit", Cube::from_masks(3, 2).is_some()),
            ("a digit at a *", Cube::from_masks(3, 4).is_some()),
            ("the least of ******10 is 2", even.least().flags == 2),
            ("6 is in ******10", even.contains(&six)),
            ("3 is in ******10", even.contains(&three)),
            ("all headers hold 3", Cube::all().contains(&three)),
            ("the cube of one header holds another", alone.contains(&six)),
        ],
    )
}
