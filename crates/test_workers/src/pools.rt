//! Pools of workers, by the leaves that they find.

ghost use Rattle.std.specs.Prelude.{◌<◌, ◌^◌, length};

use crate::gates::{Late, Meeting, Relay};
use crate::splitters::{Nothing, Slots, Stingy};
use chunk_rope::Rope;
use hdr_bits::Cube;
use no_memory::NoMemory;
use std::alloc::Global;
use std::sync::Wait;
use std::sync::atomic::AtomicU64;
use std::thread::Threads;
use steal_pool::{Gate, OpenGate, Splitter, Workers, roots_of, run};
use task_board::Leaf;

/// Two roots that are each a leaf, for two workers, each of which waits for the other at the gate.
pub fn met<R: Threads + Wait + Sync>(rt: &R, alloc: Global) -> Result<String, NoMemory> {
    let gate = Meeting::new();
    let two = Workers {
        rt,
        gate: &gate,
        count: 2,
    };
    let roots = [Cube::all(), Cube::all()];
    let Found { leaves, wrong } = find(&two, alloc, &roots, Slots { depth: 0 })?;
    let (passed, gave_up) = (gate.noted(), gate.gave_up());
    let text = format!(in alloc;
        "{passed} passed, {gave_up} gave up, {leaves} leaves, {wrong} wrong"
    )?;
    Ok(text)
}

/// One root in 512 parts, for two workers. The first turn leaves parts open in one lane, and the task that passes next
/// waits for the other worker to steal one.
pub fn shared<R: Threads + Wait + Sync>(rt: &R, alloc: Global) -> Result<String, NoMemory> {
    let gate = Relay::new();
    let two = Workers {
        rt,
        gate: &gate,
        count: 2,
    };
    let Found { leaves, wrong } = find(&two, alloc, &[Cube::all()], Slots { depth: 9 })?;
    let (passed, gave_up) = (gate.passed(), gate.gave_up());
    let text = format!(in alloc;
        "{passed} passed, {gave_up} gave up, {leaves} leaves, {wrong} wrong"
    )?;
    Ok(text)
}

/// One root in which no header has a value.
pub fn nothing<R: Threads + Wait + Sync>(
    rt: &R,
    alloc: Global,
    workers: u32,
) -> Result<String, NoMemory> {
    let by = free(rt, workers);
    let found = find(&by, alloc, &[Cube::all()], Nothing)?;
    by_workers(alloc, by.count, found)
}

/// So many roots, each in 2 to the `depth` parts.
pub fn divided<R: Threads + Wait + Sync>(
    rt: &R,
    alloc: Global,
    workers: u32,
    roots: u16,
    depth: u32,
) -> Result<String, NoMemory> {
    let by = free(rt, workers);
    let found = find_in(&by, alloc, roots, depth)?;
    by_workers(alloc, by.count, found)
}

/// Two roots that are each a leaf, where the first calls of work are refused.
pub fn refused<R: Threads + Wait + Sync>(
    rt: &R,
    alloc: Global,
    refused: u64,
) -> Result<String, NoMemory> {
    let calls = AtomicU64::new(0);
    let splitter = Stingy {
        calls: &calls,
        refused,
    };
    let roots = [Cube::all(), Cube::all()];
    let Found { leaves, wrong } = find(&free(rt, 2), alloc, &roots, splitter)?;
    let text = format!(in alloc; "{refused} times {leaves} leaves, {wrong} wrong")?;
    Ok(text)
}

/// What is kept back until all other workers wait for it.
#[derive(Clone, Copy)]
pub struct Kept {
    pub roots: u16,
    /// Each root comes in 2 to the `depth` parts.
    pub depth: u32,
    pub ticket: u64,
}

/// A task that is kept back while the others wait: they are woken when its turn ends, to take its parts or to end.
pub fn kept_back<R: Threads + Wait + Sync>(
    rt: &R,
    alloc: Global,
    workers: u32,
    kept: Kept,
) -> Result<String, NoMemory> {
    let gate = Late::new(kept.ticket);
    let by = Workers {
        rt,
        gate: &gate,
        count: workers.clamp(1, 64),
    };
    let Found { leaves, wrong } = find_in(&by, alloc, kept.roots, kept.depth)?;
    let Kept { roots, ticket, .. } = kept;
    let count = by.count;
    let text = format!(in alloc;
        "ticket {ticket} of {roots} by {count} workers {leaves} leaves, {wrong} wrong"
    )?;
    Ok(text)
}

/// The one root is kept back while the other workers wait, and then the first call of work is refused: all workers end, and the
/// calling thread works on it.
pub fn kept_and_refused<R: Threads + Wait + Sync>(
    rt: &R,
    alloc: Global,
    workers: u32,
) -> Result<String, NoMemory> {
    let calls = AtomicU64::new(0);
    let splitter = Stingy {
        calls: &calls,
        refused: 1,
    };
    let gate = Late::new(0);
    let by = Workers {
        rt,
        gate: &gate,
        count: workers.clamp(1, 64),
    };
    let found = find(&by, alloc, &[Cube::all()], splitter)?;
    by_workers(alloc, by.count, found)
}

// So many workers, or the nearest number that there may be, whose gate is open.
fn free<'a, R>(rt: &'a R, count: u32) -> Workers<'a, R, OpenGate> {
    Workers {
        rt,
        gate: &OpenGate,
        count: count.clamp(1, 64),
    }
}

/// How many leaves there are, and how many of them have another value than their slot.
#[derive(Clone, Copy)]
struct Found {
    leaves: u64,
    wrong: u64,
}

// What the workers find in so many roots, each in 2 to the `depth` parts.
fn find_in<G: Gate + Sync, R: Threads + Wait + Sync>(
    by: &Workers<R, G>,
    alloc: Global,
    roots: u16,
    depth: u32,
) -> Result<Found, NoMemory> {
    let cubes = vec![in alloc; Cube::all(); usize::from(roots)]?;
    find(by, alloc, cubes.as_slice(), Slots { depth })
}

// What the workers find in roots of these cubes.
fn find<S: Splitter<Value = u64> + Send + Sync, G: Gate + Sync, R: Threads + Wait + Sync>(
    by: &Workers<R, G>,
    alloc: Global,
    cubes: &[Cube],
    splitter: S,
) -> Result<Found, NoMemory>
    requires { length cubes.now < 2 ^ 32 }
{
    let roots = roots_of(alloc, cubes)?;
    let leaves = run(by, alloc, roots.as_slice(), splitter)?;
    Ok(counted(&leaves))
}

fn counted(leaves: &Rope<Leaf<u64>>) -> Found {
    let mut count: u64 = 0;
    let mut wrong: u64 = 0;
    for leaf in leaves.cursor() {
        count = count.saturating_add(1);
        if leaf.value != u64::from(leaf.region.slot) {
            wrong = wrong.saturating_add(1);
        }
    }
    Found {
        leaves: count,
        wrong,
    }
}

fn by_workers(alloc: Global, count: u32, found: Found) -> Result<String, NoMemory> {
    let Found { leaves, wrong } = found;
    let text = format!(in alloc; "by {count} workers {leaves} leaves, {wrong} wrong")?;
    Ok(text)
}
