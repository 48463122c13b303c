//! The moves of one header.

ghost use Rattle.std.specs.Prelude.{◌≡◌, IfOk, map, find};
ghost use Rattle.std.specs.Option.{option_copied};
ghost use Rattle.hdr_bits.specs.CubeBits.{is_in};
ghost use Rattle.transfer_rel.specs.CubeMoves.{move_of};

use crate::TransferEntry;
use hdr_bits::Header;
use net_types::{Move, NoMemory};
use std::alloc::Global;
use transfer_rel::StampMove;

/// The first entry whose cube has the header with this number.
pub(crate) fn entry_of(entries: &[TransferEntry], number: u128) -> Option<&TransferEntry>
    ensures { option_copied result ≡ find (λ e. is_in e.cube number) entries.now }
{
    entries
        .iter()
        .find(|e| number & e.cube.fixed == e.cube.bits)
}

/// What these moves are for a header.
pub(crate) fn moves_of(
    alloc: Global,
    moves: &[StampMove],
    h: &Header,
) -> Result<Vec<Move>, NoMemory>
    ensures { IfOk result (λ answer. answer.items ≡ map (move_of h.now) moves.now) }
{
    let mut answer = Vec::new(alloc);
    for one in moves {
        answer.push(move_of(one, h))?;
    }
    Ok(answer)
}

fn move_of(one: &StampMove, h: &Header) -> Move
    ensures { result ≡ move_of h.now one.now }
{
    match one {
        StampMove::Drop => Move::Drop,
        StampMove::Local { place } => Move::Local { place: *place },
        StampMove::Lost => Move::Lost,
        StampMove::Exit { place, stamp } => Move::Exit {
            place: *place,
            header: stamp.apply(h),
        },
        StampMove::Go { place, stamp } => Move::Go {
            place: *place,
            header: stamp.apply(h),
        },
    }
}
