//! Stamps: which headers they make, and which ones they send into a cube.

use crate::text::print_all;
use cube_alg::Stamp;
use hdr_bits::{Cube, Header};
use test_stop::Stop;

const HEADER: Header = Header {
    dst: 1,
    src: 2,
    proto: 6,
    dport: 3,
    sport: 4,
    flags: 0,
};

// What a stamp of the destination and the source, and then one of the destination and the source port, make of it.
const MADE: Header = Header {
    dst: 7,
    src: 6,
    sport: 8,
    ..HEADER
};

/// A later stamp's fields stand where both replace one.
pub(crate) fn show(rt: &HostRuntime) -> Result<(), Stop> {
    let first = Stamp {
        dst: Some(5),
        src: Some(6),
        ..Stamp::none()
    };
    let later = Stamp {
        dst: Some(7),
        sport: Some(8),
        ..Stamp::none()
    };
    let both = first.then(&later);
    let image = both.forth(&Cube::all());
    print_all(
        rt,
        &[
            ("first and then", both.apply(&HEADER) == MADE),
            (
                "nothing changes what has it",
                both.changes(&MADE) == Stamp::none(),
            ),
            ("all changes what hasn't", both.changes(&HEADER) == both),
            ("the image holds what is made", image.contains(&MADE)),
            ("the image holds another", image.contains(&HEADER)),
            (
                "all are sent into the image",
                both.back(&image) == Some(Cube::all()),
            ),
            (
                "some are sent elsewhere",
                both.back(&Cube::of(&HEADER)).is_some(),
            ),
        ],
    )
}
