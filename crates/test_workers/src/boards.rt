//! What boards answer.

use crate::sample::{
    Sample, Settled, root, settle_halves, settle_nothing, settle_whole, two_roots as roots_of_two,
};
use no_memory::NoMemory;
use std::alloc::Global;
use task_board::{Board, Part};

const MEANING: Sample = Sample { mark: 1 };

fn goes<X: Send>(x: X) -> X {
    x
}

// A board of the slots 0 and 1, which may go to another thread.
fn board_of_two(alloc: Global) -> Result<Board<Sample>, NoMemory> {
    let board = Board::open_all(alloc, MEANING, &roots_of_two())?;
    Ok(goes(board))
}

// The ticket and the slot of a part.
fn named(alloc: Global, part: Option<Part>) -> Result<String, NoMemory> {
    let name = match part {
        Some(p) => format!(in alloc; " ticket {} slot {}", p.ticket, p.region.slot)?,
        None => format!(in alloc; " none")?,
    };
    Ok(name)
}

// What a refused settle shows: how many leaves it hands back, the slot that is held, and the mark of the board's meaning.
fn outcome(alloc: Global, settled: &Settled) -> Result<String, NoMemory> {
    let text = match settled {
        Ok(()) => format!(in alloc; " settled")?,
        Err(strange) => {
            let leaves = strange.finished.cursor().take(9).count();
            let held = strange.held.map(|r| r.slot);
            let other = strange.other.map(|m| m.mark);
            format!(in alloc; " strange, leaves {leaves}, held {held:?}, other {other:?}")?
        }
    };
    Ok(text)
}

/// What a board of two roots shows.
pub fn two_roots(alloc: Global) -> Result<String, NoMemory> {
    let board = board_of_two(alloc)?;
    seen(alloc, &board)
}

fn seen(alloc: Global, board: &Board<Sample>) -> Result<String, NoMemory> {
    let first = named(alloc, board.next_open(0))?;
    let second = named(alloc, board.next_open(1))?;
    let third = named(alloc, board.next_open(2))?;
    let (count, roots, mark) = (
        board.open_count(),
        board.roots().len(),
        board.meaning().mark,
    );
    Ok(format!(in alloc; " open {count} of {roots}, mark {mark},{first},{second},{third}")?)
}

/// The same settle twice.
pub fn settled_twice(alloc: Global) -> Result<String, NoMemory> {
    let mut board = board_of_two(alloc)?;
    settle_twice(alloc, &mut board)
}

fn settle_twice(alloc: Global, board: &mut Board<Sample>) -> Result<String, NoMemory> {
    let once = settle_nothing(alloc, board, &MEANING, 0, &root(0));
    let twice = settle_nothing(alloc, board, &MEANING, 0, &root(0));
    both_outcomes(alloc, &once, &twice, board.open_count())
}

fn both_outcomes(
    alloc: Global,
    once: &Settled,
    twice: &Settled,
    count: usize,
) -> Result<String, NoMemory> {
    let first = outcome(alloc, once)?;
    let second = outcome(alloc, twice)?;
    Ok(format!(in alloc; "{first};{second}; open {count}")?)
}

/// A settle of a ticket that is open with another region.
pub fn another_region(alloc: Global) -> Result<String, NoMemory> {
    let mut board = board_of_two(alloc)?;
    whole_outcome(alloc, &mut board, &MEANING, 0)
}

/// A settle that brings another meaning.
pub fn another_meaning(alloc: Global) -> Result<String, NoMemory> {
    let mut board = board_of_two(alloc)?;
    whole_outcome(alloc, &mut board, &Sample { mark: 2 }, 1)
}

fn whole_outcome(
    alloc: Global,
    board: &mut Board<Sample>,
    meaning: &Sample,
    ticket: u64,
) -> Result<String, NoMemory> {
    let came = settle_whole(alloc, board, meaning, ticket, &root(1))?;
    outcome(alloc, &came)
}

/// A settle of a ticket that isn't open, and then of a root in its two halves.
pub fn in_halves(alloc: Global) -> Result<String, NoMemory> {
    let mut board = Board::open_all(alloc, MEANING, &[root(1)])?;
    halve(alloc, &mut board)
}

fn halve(alloc: Global, board: &mut Board<Sample>) -> Result<String, NoMemory> {
    let wrong = whole_outcome(alloc, board, &MEANING, 1)?;
    let parts = settle_halves(alloc, board, &MEANING, 0, &root(1), 0)?;
    let count = match &parts {
        None => 0,
        Some([low, high]) => [low, high]
            .iter()
            .filter(|p| board.next_open(p.ticket) == Some(***p))
            .count(),
    };
    let all = board.open_count();
    Ok(format!(in alloc; "{wrong}; {count} halves, open {all}")?)
}

/// Two settles after which nothing is open, and the leaves.
pub fn to_the_end(alloc: Global) -> Result<String, NoMemory> {
    let mut board = board_of_two(alloc)?;
    let settles = settle_both(alloc, &mut board)?;
    let mut leaves = board.take_done();
    let first = leaves.pop_front().map(|l| (l.region.slot, l.value));
    let empty = leaves.is_empty();
    Ok(format!(in alloc; "{settles}, {first:?}, then none {empty}")?)
}

fn settle_both(alloc: Global, board: &mut Board<Sample>) -> Result<String, NoMemory> {
    let nothing = settle_nothing(alloc, board, &MEANING, 0, &root(0));
    let whole = settle_whole(alloc, board, &MEANING, 1, &root(1))?;
    both_outcomes(alloc, &nothing, &whole, board.open_count())
}
