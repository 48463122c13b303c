//! The two halves of a cube, each with moves of all its headers.

ghost use Rattle.std.specs.Prelude.{◌≡◌, ◌↔◌, IfOk, IsTrue, map};
ghost use Rattle.cube_alg.specs.Stamps.{applied};
ghost use Rattle.transfer_rel.specs.Entries.{rewrites, rewritten};
ghost use Rattle.transfer_rel.specs.Halves.{HasEntries, HasEntry, IsJoined, entry_by, shortened};

use crate::forward::same_place;
use crate::{CubeMoves, StampMove};
use cube_alg::{OnCube, Stamp};
use hdr_bits::Header;
use net_types::{List, NoMemory};
use std::alloc::Global;

/// The answer for a cube that this bit divides, by the moves of each of its halves and a header of each: where the two
/// headers take the same entries, the halves have one answer.
pub(crate) fn joined(
    alloc: Global,
    zeros: &[StampMove],
    first: &Header,
    ones: &[StampMove],
    second: &Header,
    bit: u32,
) -> Result<CubeMoves, NoMemory>
    ensures { IfOk result (IsJoined zeros.now first.now ones.now second.now bit) }
{
    if !has_entries(zeros, first, ones, second) || !has_entries(ones, second, zeros, first) {
        return Ok(OnCube::Divides { bit });
    }
    let short = shortened_moves(alloc, zeros, first)?;
    Ok(OnCube::All {
        answer: List::new(short),
    })
}

// Whether each entry of the first header, by these moves of its cube, is one of the second, by those of its own.
fn has_entries(moves: &[StampMove], first: &Header, others: &[StampMove], second: &Header) -> bool
    ensures { IsTrue result ↔ HasEntries moves.now first.now others.now second.now }
{
    moves
        .iter()
        .all(|step| has_entry(others, second, step, first))
}

// Whether the entry of the header by this move is one of the second header.
#[tactic(auto, unfolding(crate::specs::Halves::HasEntry))]
fn has_entry(others: &[StampMove], second: &Header, step: &StampMove, header: &Header) -> bool
    ensures { IsTrue result ↔ HasEntry others.now second.now (entry_by header.now step.now) }
{
    others
        .iter()
        .any(|other| same_entry(other, second, step, header))
}

fn same_entry(a: &StampMove, g: &Header, b: &StampMove, h: &Header) -> bool
    ensures { IsTrue result ↔ (entry_by g.now a.now ≡ entry_by h.now b.now) }
{
    match (*a, *b) {
        (StampMove::Drop, StampMove::Drop) => true,
        (StampMove::Lost, StampMove::Lost) => true,
        (StampMove::Local { place: p }, StampMove::Local { place: q }) => same_place(p, q),
        (StampMove::Exit { place: p, stamp: s }, StampMove::Exit { place: q, stamp: t }) => {
            same_place(p, q) && same_rewrites(&s, g, &t, h)
        }
        (StampMove::Go { place: p, stamp: s }, StampMove::Go { place: q, stamp: t }) => {
            same_place(p, q) && same_rewrites(&s, g, &t, h)
        }
        _ => false,
    }
}

// Whether the stamps replace the same values of the two headers by the same ones.
fn same_rewrites(s: &Stamp, g: &Header, t: &Stamp, h: &Header) -> bool
    ensures { IsTrue result ↔ (rewrites g.now (applied s.now g.now) ≡ rewrites h.now (applied t.now h.now)) }
{
    let there = s.apply(g);
    let here = t.apply(h);
    same_rewrite(g.src, there.src, h.src, here.src)
        && same_rewrite(g.dst, there.dst, h.dst, here.dst)
        && same_port(g.sport, there.sport, h.sport, here.sport)
        && same_port(g.dport, there.dport, h.dport, here.dport)
}

fn same_port(before: u16, after: u16, other_before: u16, other_after: u16) -> bool
    ensures { IsTrue result ↔ (rewritten before after ≡ rewritten other_before other_after) }
{
    same_rewrite(
        u32::from(before),
        u32::from(after),
        u32::from(other_before),
        u32::from(other_after),
    )
}

// Whether both values stay, or both are the same and become the same.
fn same_rewrite(before: u32, after: u32, other_before: u32, other_after: u32) -> bool
    ensures { IsTrue result ↔ (rewritten before after ≡ rewritten other_before other_after) }
{
    if before == after || other_before == other_after {
        return before == after && other_before == other_after;
    }
    before == other_before && after == other_after
}

// The moves without the replacements that leave this header as it is.
fn shortened_moves(
    alloc: Global,
    moves: &[StampMove],
    header: &Header,
) -> Result<Vec<StampMove>, NoMemory>
    ensures { IfOk result (λ short. short.items ≡ map (shortened header.now) moves.now) }
{
    let mut short = Vec::new(alloc);
    for step in moves {
        short.push(shortened(step, header))?;
    }
    Ok(short)
}

fn shortened(step: &StampMove, header: &Header) -> StampMove
    ensures { result ≡ shortened header.now step.now }
{
    match *step {
        StampMove::Exit { place, stamp } => StampMove::Exit {
            place,
            stamp: stamp.changes(header),
        },
        StampMove::Go { place, stamp } => StampMove::Go {
            place,
            stamp: stamp.changes(header),
        },
        StampMove::Drop => StampMove::Drop,
        StampMove::Local { place } => StampMove::Local { place },
        StampMove::Lost => StampMove::Lost,
    }
}
