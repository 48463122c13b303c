//! Where the headers of a region may be on their walks.

ghost use Rattle.std.specs.Prelude.{◌≡◌};
ghost use Rattle.region_walk.specs.Spots.{spot_at, stamp_of, since_start, relative, next_spot};

use cube_alg::Stamp;
use hdr_bits::Header;
use net_types::Place;
use transfer_rel::StampMove;

/// A place, with what was replaced in the headers of a region on the way there.
///
/// A field that has the value of a header of the region isn't told, so two spots are two states of each header: a
/// field that is written there and back is as it was.
#[derive(Clone, Copy, PartialEq, Eq, Hash, Debug)]
pub(crate) struct Spot {
    pub place: Place,
    pub src: Option<u32>,
    pub dst: Option<u32>,
    pub sport: Option<u16>,
    pub dport: Option<u16>,
}

impl Spot {
    /// The place with this stamp.
    pub(crate) fn new(place: Place, stamp: &Stamp) -> Spot
        ensures { result ≡ spot_at place stamp.now }
    {
        Spot {
            place,
            src: stamp.src,
            dst: stamp.dst,
            sport: stamp.sport,
            dport: stamp.dport,
        }
    }

    /// What was replaced.
    pub(crate) fn stamp(&self) -> Stamp
        ensures { result ≡ stamp_of self.now }
    {
        Stamp {
            src: self.src,
            dst: self.dst,
            sport: self.sport,
            dport: self.dport,
        }
    }
}

/// A move at a spot with this stamp, told from the start of the walk: against a header of the region.
pub(crate) fn relative(first: &Header, before: &Stamp, one: &StampMove) -> StampMove
    ensures { result ≡ relative first.now before.now one.now }
{
    match one {
        StampMove::Drop => StampMove::Drop,
        StampMove::Local { place } => StampMove::Local { place: *place },
        StampMove::Lost => StampMove::Lost,
        StampMove::Exit { place, stamp } => StampMove::Exit {
            place: *place,
            stamp: since_start(first, before, stamp),
        },
        StampMove::Go { place, stamp } => StampMove::Go {
            place: *place,
            stamp: since_start(first, before, stamp),
        },
    }
}

// A stamp told from the start of the walk: what both together change in a header of the region.
fn since_start(first: &Header, before: &Stamp, stamp: &Stamp) -> Stamp
    ensures { result ≡ since_start first.now before.now stamp.now }
{
    before.then(stamp).changes(first)
}

/// Where a move, told from the start of the walk, goes on to.
pub(crate) fn next_spot(one: &StampMove) -> Option<Spot>
    ensures { result ≡ next_spot one.now }
{
    match one {
        StampMove::Go { place, stamp } => Some(Spot::new(*place, stamp)),
        StampMove::Drop => None,
        StampMove::Local { place: _ } => None,
        StampMove::Lost => None,
        StampMove::Exit { place: _, stamp: _ } => None,
    }
}
