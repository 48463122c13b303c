//! Regions of a call's board that are settled, by a worker or by the calling thread.
ghost use Rattle.std.specs.Prelude.{◌≡◌, ℕ, IfOk, OnErr, IsNone, IfSome, map, [], None, Some};
ghost use Rattle.task_board.specs.Stands.{IsWorked, Settles, Answers, region_at};

use crate::pieces::{Pieces, work_down};
use crate::plan::{Call, CallMeaning, Plan};
use crate::splitter::Splitter;
use chunk_rope::Rope;
use cube_alg::Region;
use no_memory::NoMemory;
use std::alloc::Global;
use task_board::{Board, Leaf, Part};

/// Settles what came of a region. It answers the parts that are open then: none where the region isn't open any more.
pub fn settle<V: Send + Drop, K: Call<V>>(
    board: &mut Board<CallMeaning<V, K>>,
    ticket: u64,
    region: &Region,
    pieces: Pieces<V>,
) -> Result<Vec<Part>, NoMemory>
    requires { IsWorked K.gives region.now pieces.finished.items pieces.rest.items }
    ensures roots { board.new.roots ≡ board.old.roots }
    ensures settled { region_at board.old.tickets ticket ≡ Some region.now → IfOk result (λ v. (map (λ p. p.region) v.items ≡ map (λ p. p.region) pieces.rest.items) × Settles board.old board.new ticket pieces.finished.items v.items) }
    ensures closed { (region_at board.old.tickets ticket ≡ Some region.now → ⊥) → IfOk result (λ v. (v.items ≡ []) × (board.new ≡ record board.old { spare = board.new.spare })) }
    ensures failed { OnErr result (board.new ≡ record board.old { spare = board.new.spare }) }
{
    let Pieces {
        finished,
        mut rest,
        ..
    } = pieces;
    board.make_room(rest.len())?;
    if board
        .settle(
            &CallMeaning::new(),
            ticket,
            region,
            finished,
            rest.as_mut_slice(),
        )
        .is_err()
    {
        rest.clear();
    }
    Ok(rest)
}

/// Works down and settles whatever is open, and answers all leaves. It ends, since each part that is opened has more fixed bits
/// than the region in whose place it comes.
pub fn finish<S: Splitter, K: Call<S::Value>>(
    alloc: Global,
    plan: &Plan<S, K>,
    mut board: Board<CallMeaning<S::Value, K>>,
) -> Result<Rope<Leaf<S::Value>>, NoMemory>
    ensures { IfOk result (λ r. Answers K.gives board.roots r.items) }
{
    let mut from = 0;
    while let Some(part) = open_from(&board, from) {
        let pieces = work_down(alloc, plan, part.region)?;
        settle(&mut board, part.ticket, &part.region, pieces)?;
        from = part.ticket;
    }
    Ok(board.take_done())
}

// The open region of the least ticket that isn't below this one, or else of the least ticket.
fn open_from<V: Send + Drop, K: Call<V>>(
    board: &Board<CallMeaning<V, K>>,
    from: u64,
) -> Option<Part>
    ensures none { IsNone result → (k : ℕ) → region_at board.now.tickets k ≡ None }
    ensures found { IfSome result (λ p. region_at board.now.tickets p.ticket ≡ Some p.region) }
{
    match board.next_open(from) {
        Some(part) => Some(part),
        None => board.next_open(0),
    }
}
