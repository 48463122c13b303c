//! Workers, each with a lane of its own and a thief of every other, and the call that starts and joins them.

ghost use Rattle.std.specs.Prelude.{◌≡◌, ◌+◌, ◌<◌, ◌≤◌, ◌^◌, IfOk, AllPairs, length, vec_len};
ghost use Rattle.task_board.specs.Regions.{LieApart};
ghost use Rattle.task_board.specs.Stands.{Answers};

use crate::ends::{Thief, lane};
use crate::gate::Gate;
use crate::plan::{Call, CallMeaning, Plan};
use crate::pool::{Hand, Pool, take_turn};
use crate::rule::Task;
use crate::settling::finish;
use crate::splitter::Splitter;
use chunk_rope::Rope;
use cube_alg::Region;
use no_memory::NoMemory;
use std::alloc::Global;
use std::marker::Brand;
use std::sync::Wait;
use std::sync::ledger::{Blank, Book, Ledger, Share};
use std::thread;
use std::thread::Threads;
use task_board::{Board, Leaf};

// How many regions can be pushed to all lanes, where there are few roots. Those that find no room are left to the calling thread.
const CAPACITY: usize = 16_384;

// How many for each root, where there are many.
const CAPACITY_OF_ROOT: usize = 4;

// The most that a lane takes.
const MOST_IN_LANE: usize = 1 << 20;

// How many to the lane of one worker. The calling thread works on those that are left no later than it would.
const CAPACITY_ALONE: usize = 1024;

// In so many rounds one thief is split into 64.
const ROUNDS: u32 = 6;

/// Who works: 1 to 64 workers, and the gate that each of them passes before it works on a region.
#[derive(Drop)]
pub struct Workers<'a, R, G> {
    /// The runtime that starts their threads.
    pub rt: &'a R,
    pub gate: &'a G,
    /// How many there are.
    pub count: u32,
    pub ghost least: { 1 ≤ count },
    pub ghost most: { count ≤ 64 },
}

impl<'a, R, G> Workers<'a, R, G> {
    /// One of them alone.
    pub fn one(&self) -> Workers<'a, R, G>
        ensures { result.count ≡ 1 }
    {
        Workers {
            rt: self.rt,
            gate: self.gate,
            count: 1,
        }
    }
}

// What a worker holds: its lane, and a thief of each lane.
#[derive(Drop)]
struct Seat<P: Ledger, T: Ledger> {
    hand: Hand<P, T>,
    thieves: Vec<Thief>,
    number: usize,
}

impl<P: Ledger, T: Ledger> Seat<P, T> {
    // The first task of its own lane, or of the next lane in turn that has one.
    fn try_next<R: Wait>(&mut self, rt: &R) -> Option<Task> {
        if let Some(task) = self.hand.take() {
            return Some(task);
        }
        let lanes = self.thieves.len();
        for i in 1..lanes {
            let at = self.number.wrapping_add(i) % lanes;
            if let Some(task) = self.thieves[at].steal(rt) {
                return Some(task);
            }
        }
        None
    }

    // The next task. Where there is none in any lane it waits, until one is pushed or none is left to wait for.
    fn next<V: Send + Drop, K: Call<V>, R: Wait>(
        &mut self,
        rt: &R,
        pool: &Pool<V, K, P, T>,
    ) -> Option<Task> {
        for _ in rt.forever() {
            if let Some(task) = self.try_next(rt) {
                return Some(task);
            }
            // A task that is pushed from here on is pushed by a turn that ends later, so the wait doesn't miss it.
            let ended = pool.ended(rt);
            if let Some(task) = self.try_next(rt) {
                return Some(task);
            }
            if pool.is_done_after(rt, ended) {
                return None;
            }
        }
        unreachable!()
    }
}

// So many thieves of a lane. Each is split once a round, so that none is split more often than it can be.
fn crowd(alloc: Global, first: Thief, count: usize) -> Result<Vec<Thief>, NoMemory> {
    let mut thieves = Vec::new(alloc);
    thieves.push(first)?;
    for _ in 0..ROUNDS {
        for i in 0..thieves.len() {
            if thieves.len() < count {
                let second = thieves[i].split()?;
                thieves.push(second)?;
            }
        }
    }
    Ok(thieves)
}

// How many regions can be pushed to each of so many lanes. A lane is made whole, with a lock in each cell, before anything is pushed.
fn capacity_of(lanes: usize, roots: usize) -> usize
    ensures { (1 ≤ result) × (result ≤ 1048576) }
{
    if lanes < 2 {
        return CAPACITY_ALONE;
    }
    let all = roots.saturating_mul(CAPACITY_OF_ROOT).max(CAPACITY);
    (all / lanes.max(4)).max(1).min(MOST_IN_LANE)
}

// A seat for each worker, with room for so many roots in their lanes. Each has a part of both ledgers.
fn seats<P: Ledger, T: Ledger>(
    alloc: Global,
    count: usize,
    roots: usize,
    mut puts: Share<P>,
    mut turns: Share<T>,
) -> Result<Vec<Seat<P, T>>, NoMemory>
    requires puts { (puts.parts ≡ count) × (puts.amount ≡ 0) }
    requires turns { (turns.parts ≡ count) × (turns.amount ≡ 0) }
    ensures { IfOk result (λ v. vec_len v ≡ count) }
{
    let mut seats = Vec::new(alloc);
    let mut crowds = Vec::new(alloc);
    for number in 0..count {
        let (owner, first) = lane(alloc, capacity_of(count, roots))?;
        seats.push(Seat {
            hand: Hand::of(owner, puts.split_off(1, 0), turns.split_off(1, 0)),
            thieves: Vec::new(alloc),
            number,
        })?;
        crowds.push(crowd(alloc, first, count)?)?;
    }
    for i in 0..crowds.len() {
        for k in 0..seats.len() {
            if let Some(thief) = crowds[i].pop() {
                seats[k].thieves.push(thief)?;
            }
        }
    }
    Ok(seats)
}

// Pushes the open regions in the order of their tickets, the k-th to lane k modulo the number of lanes, and answers how
// many the lanes took.
fn hand_out<V: Send + Drop, K: Call<V>, P: Ledger, T: Ledger>(
    board: &Board<CallMeaning<V, K>>,
    seats: &mut [Seat<P, T>],
    puts: &mut Book<P>,
) -> u64
    requires { 0 < length seats.old }
    ensures { puts.new.total ≡ puts.old.total + result }
{
    let mut pushed: u64 = 0;
    let mut from = 0;
    for k in 0..board.open_count() {
        let Some(part) = board.next_open(from) else {
            break;
        };
        let at = k % seats.len();
        if seats[at].hand.put(puts, part) {
            pushed += 1;
        }
        from = part.ticket.saturating_add(1);
    }
    pushed
}

// Takes tasks, and works on each behind the gate, until none is left or there is no memory.
fn work<S: Splitter, K: Call<S::Value>, P: Ledger, T: Ledger, G: Gate, R: Wait>(
    rt: &R,
    alloc: Global,
    pool: &Pool<S::Value, K, P, T>,
    plan: &Plan<S, K>,
    gate: &G,
    mut seat: Seat<P, T>,
) -> Seat<P, T> {
    for _ in rt.forever() {
        let Some(task) = seat.next(rt, pool) else {
            return seat;
        };
        gate.pass(task.ticket);
        if take_turn(rt, alloc, pool, plan, &mut seat.hand, task).is_err() {
            return seat;
        }
    }
    unreachable!()
}

// The call, whose splitter, roots and ledgers its types name.
fn run_as<
    S: Splitter + Send + Sync,
    K: Call<S::Value> + Send + Sync,
    P: Ledger + Send + Sync,
    T: Ledger + Send + Sync,
    G: Gate + Sync,
    R: Threads + Wait + Sync,
>(
    by: &Workers<R, G>,
    alloc: Global,
    roots: &[Region],
    splitter: S,
    puts: Blank,
    turns: Blank,
) -> Result<Rope<Leaf<S::Value>>, NoMemory>
    requires apart { AllPairs LieApart roots.now }
    requires few { length roots.now < 2 ^ 32 }
    requires gives { K.gives ≡ S.gives splitter }
    requires roots { K.roots ≡ roots.now }
    requires puts { (puts.name ≡ P.name) × (puts.parts ≡ P.parts) × (puts.parts ≡ by.now.count) }
    requires turns { (turns.name ≡ T.name) × (turns.parts ≡ T.parts) × (turns.parts ≡ by.now.count) }
    ensures { IfOk result (λ r. Answers K.gives roots.now r.items) }
{
    let plan: Plan<S, K> = Plan::of(splitter);
    let board = Board::open_all(alloc, CallMeaning::new(), roots)?;
    let (mut puts, my_puts) = puts.open::<P>();
    let (turns, my_turns) = turns.open::<T>();
    let mut seats = seats(alloc, by.count as usize, roots.len(), my_puts, my_turns)?;
    let put = hand_out(&board, seats.as_mut_slice(), &mut puts);
    let pool = Pool::of(board, put, puts, turns);
    let (rt, gate) = (by.rt, by.gate);
    let (shared, rule) = (&pool, &plan);
    let _ = thread::map_vec(rt, seats, &|seat| work(rt, alloc, shared, rule, gate, seat));
    finish(alloc, &plan, pool.into_board())
}

/// Works all roots down to leaves.
///
/// The leaves are pairwise disjoint, each is inside a root, each has the splitter's value of all its headers, and no
/// header of a root outside them has a value. What the workers leave for want of memory, or of room in their lanes, the
/// calling thread works on when they have ended, without the gate.
pub fn run<S: Splitter + Send + Sync, G: Gate + Sync, R: Threads + Wait + Sync>(
    by: &Workers<R, G>,
    alloc: Global,
    roots: &[Region],
    splitter: S,
) -> Result<Rope<Leaf<S::Value>>, NoMemory>
    requires apart { AllPairs LieApart roots.now }
    requires few { length roots.now < 2 ^ 32 }
    ensures { IfOk result (λ r. Answers (S.gives splitter) roots.now r.items) }
{
    let parts = u64::from(by.count);
    run_as::<S, Brand, Brand, Brand, G, R>(
        by,
        alloc,
        roots,
        splitter,
        Blank::new(parts),
        Blank::new(parts),
    )
}
