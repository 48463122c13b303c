//! Moves in order: by kind, then by place, then by header.

ghost use Rattle.std.specs.Prelude.{◌≡◌, IfOk};
ghost use Rattle.net_types.specs.Order.{in_order};
ghost use Rattle.device_transfers.specs.MoveOrder.{kind, place_of, header_in, move_cmp};

use hdr_bits::Header;
use net_types::{Move, NoMemory, Place};
use std::cmp::Ordering;

/// The moves in order, each once.
pub(crate) fn moves_in_order(moves: Vec<Move>) -> Result<Vec<Move>, NoMemory>
    ensures { IfOk result (λ sorted. sorted.items ≡ in_order move_cmp moves.items) }
{
    let mut sorted = moves;
    sorted.sort_by(|a, b| move_order(a, b))?;
    sorted.dedup_by(|a, b| move_order(a, b).is_eq());
    Ok(sorted)
}

fn move_order(a: &Move, b: &Move) -> Ordering
    ensures { result ≡ move_cmp a.now b.now }
{
    let by_header = header_in(a).cmp(&header_in(b));
    let by_place = place_of(a).cmp(&place_of(b));
    kind(a).cmp(&kind(b)).then(by_place.then(by_header))
}

// The number of the kind, in the order of the kinds.
fn kind(one: &Move) -> u8
    ensures { result ≡ kind one.now }
{
    match one {
        Move::Drop => 0,
        Move::Local { place: _ } => 1,
        Move::Lost => 2,
        Move::Exit {
            place: _,
            header: _,
        } => 3,
        Move::Go {
            place: _,
            header: _,
        } => 4,
    }
}

fn place_of(one: &Move) -> Option<Place>
    ensures { result ≡ place_of one.now }
{
    match one {
        Move::Drop => None,
        Move::Local { place } => Some(*place),
        Move::Lost => None,
        Move::Exit { place, header: _ } => Some(*place),
        Move::Go { place, header: _ } => Some(*place),
    }
}

fn header_in(one: &Move) -> Option<Header>
    ensures { result ≡ header_in one.now }
{
    match one {
        Move::Drop => None,
        Move::Local { place: _ } => None,
        Move::Lost => None,
        Move::Exit { place: _, header } => Some(*header),
        Move::Go { place: _, header } => Some(*header),
    }
}
