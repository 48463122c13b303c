//! What the workers of one call share: the board under its lock, how many tasks there are, and word of each turn that ends.
//!
//! Of the tasks two numbers are kept: how many were put into lanes, and at how many a turn has ended. Each is the sum of what the
//! workers did by themselves, which each of them counts in a share of a ledger: the tasks that were put are those that stand in
//! the lists of all owners. So the first number less the second is how many tasks lie in a lane or are worked on.
ghost use Rattle.std.specs.Prelude.{◌≡◌, ◌+◌, ◌-◌, ◌^◌, ◌≤◌, ◌↔◌, min, length, IsTrue, IfOk, OnOk, OnErr, Some, if◌then◌else◌};
ghost use Rattle.task_board.specs.Stands.{IsWorked, region_at};
ghost use Rattle.steal_pool.specs.Pushes.{PushesParts, EndsTurn};

use crate::ends::Owner;
use crate::pieces::{Pieces, work_down};
use crate::plan::{Call, CallMeaning, Plan};
use crate::rule::Task;
use crate::settling::settle;
use crate::splitter::Splitter;
use no_memory::NoMemory;
use std::alloc::Global;
use std::sync::ledger::{Book, Ledger, Share};
use std::sync::{Condvar, Mutex, Wait};
use task_board::{Board, Part};

/// The owner of a worker's lane, and the worker's shares of the two numbers.
#[derive(Drop)]
pub struct Hand<P: Ledger, T: Ledger> {
    owner: Owner,
    puts: Share<P>,
    turns: Share<T>,
    ghost put: { puts.amount ≡ length owner.pushed },
    ghost put_part: { puts.parts ≡ 1 },
    ghost turn_part: { turns.parts ≡ 1 },
}

impl<P: Ledger, T: Ledger> Hand<P, T> {
    /// A lane to which nothing was pushed, with a part of each ledger.
    pub fn of(owner: Owner, puts: Share<P>, turns: Share<T>) -> Hand<P, T>
        requires pushed { length owner.pushed ≡ 0 }
        requires puts { (puts.parts ≡ 1) × (puts.amount ≡ 0) }
        requires turns { turns.parts ≡ 1 }
    {
        Hand { owner, puts, turns }
    }

    /// The first task of the lane.
    pub fn take(&mut self) -> Option<Task> {
        let Hand { owner, .. } = self;
        owner.take()
    }

    /// Pushes a part, and says whether the lane took it.
    pub fn put(&mut self, book: &mut Book<P>, part: Part) -> bool
        ensures { book.new.total ≡ book.old.total + (if result then 1 else 0) }
    {
        let Hand { owner, puts, .. } = self;
        if owner.push(part.ticket, part.region).is_err() {
            return false;
        }
        book.add(puts, 1);
        true
    }
}

// What is behind the lock: the board of this call, how many tasks were put into lanes, and how many turns at one have ended.
// So the first number less the second lie in a lane or are worked on.
#[derive(Drop)]
struct State<V: Send + Drop, K: Call<V>, P: Ledger, T: Ledger> {
    board: Board<CallMeaning<V, K>>,
    put: u64,
    ended: u64,
    puts: Book<P>,
    turns: Book<T>,
    ghost roots: { board.roots ≡ K.roots },
    ghost put_in_all: { put ≡ min puts.total (2 ^ 64 - 1) },
    ghost ended_in_all: { ended ≡ min turns.total (2 ^ 64 - 1) },
}

impl<V: Send + Drop, K: Call<V>, P: Ledger, T: Ledger> State<V, K, P, T> {
    // Whether no task lies in a lane or is worked on.
    fn is_done(&self) -> bool
        ensures { IsTrue result ↔ (self.now.put ≤ self.now.ended) }
    {
        self.put <= self.ended
    }

    // Ends a worker's turn at a task: settles what came of it, and pushes the parts that are open then.
    fn end_turn(
        &mut self,
        hand: &mut Hand<P, T>,
        task: &Task,
        worked: Result<Pieces<V>, NoMemory>,
    ) -> Result<(), NoMemory>
        requires { IfOk worked (λ p. IsWorked K.gives task.now.region p.finished.items p.rest.items) }
        ensures settled { OnOk result (region_at self.old.board.tickets task.now.ticket ≡ Some task.now.region → IfOk worked (λ p. EndsTurn self.old.board self.new.board hand.old.owner hand.new.owner task.now.ticket p.finished.items p.rest.items)) }
        ensures failed { OnErr result ((self.new.board ≡ record self.old.board { spare = self.new.board.spare }) × (hand.new.owner ≡ hand.old.owner)) }
        ensures counted { hand.new.turns.amount ≡ hand.old.turns.amount + 1 }
    {
        let State {
            board,
            put,
            ended,
            puts,
            turns,
        } = self;
        let Hand {
            owner,
            puts: my_puts,
            turns: my_turns,
        } = hand;
        turns.add(my_turns, 1);
        *ended = ended.saturating_add(1);
        let rest = settle(board, task.ticket, &task.region, worked?)?;
        let pushed = push_all(owner, rest.as_slice());
        puts.add(my_puts, pushed);
        *put = put.saturating_add(pushed);
        Ok(())
    }
}

/// The board of a call, which its workers share.
#[derive(Drop)]
pub struct Pool<V: Send + Drop, K: Call<V>, P: Ledger, T: Ledger> {
    state: Mutex<State<V, K, P, T>>,
    moved: Condvar,
}

impl<V: Send + Drop, K: Call<V>, P: Ledger, T: Ledger> Pool<V, K, P, T> {
    /// A pool of so many tasks that were put into lanes, where no turn has ended.
    pub fn of(
        board: Board<CallMeaning<V, K>>,
        put: u64,
        puts: Book<P>,
        turns: Book<T>,
    ) -> Pool<V, K, P, T>
        requires board { board.roots ≡ K.roots }
        requires puts { puts.total ≡ put }
        requires turns { turns.total ≡ 0 }
    {
        let state = State {
            board,
            put,
            ended: 0,
            puts,
            turns,
        };
        Pool {
            state: Mutex::new(state),
            moved: Condvar::new(),
        }
    }

    /// The board, when all workers have ended.
    pub fn into_board(self) -> Board<CallMeaning<V, K>>
        ensures { result.roots ≡ K.roots }
    {
        let Pool { state, moved: _ } = self;
        let State { board, .. } = state.into_inner();
        board
    }

    /// How many turns have ended.
    pub fn ended<R: Wait>(&self, rt: &R) -> u64 {
        self.state.lock(rt).ended
    }

    /// Waits until another turn than so many has ended, or no task is left, and says whether none is left.
    pub fn is_done_after<R: Wait>(&self, rt: &R, ended: u64) -> bool {
        let state = self.moved.wait_while(rt, self.state.lock(rt), |s| {
            s.ended == ended && !s.is_done()
        });
        state.is_done()
    }
}

/// A worker's turn at a task: it works the region down, settles it under the lock, and pushes the parts that are open
/// then to its lane. It counts as one turn.
pub fn take_turn<S: Splitter, K: Call<S::Value>, P: Ledger, T: Ledger, R: Wait>(
    rt: &R,
    alloc: Global,
    pool: &Pool<S::Value, K, P, T>,
    plan: &Plan<S, K>,
    hand: &mut Hand<P, T>,
    task: Task,
) -> Result<(), NoMemory>
    ensures { hand.new.turns.amount ≡ hand.old.turns.amount + 1 }
{
    let worked = work_down(alloc, plan, task.region);
    let mut guard = pool.state.lock(rt);
    let state = &mut *guard;
    let ended = state.end_turn(hand, &task, worked);
    drop(guard);
    pool.moved.notify_all();
    ended
}

// Pushes the parts in order, as long as the lane takes them, and answers how many it took.
fn push_all(owner: &mut Owner, parts: &[Part]) -> u64
    ensures parts { PushesParts owner.old owner.new parts.now }
    ensures count { length owner.new.pushed ≡ length owner.old.pushed + result }
{
    let mut pushed: u64 = 0;
    for i in 0..parts.len() {
        let part = parts[i];
        if owner.push(part.ticket, part.region).is_ok() {
            pushed += 1;
        }
    }
    pushed
}
