//! Ropes that are dropped give each item up.
ghost use Rattle.std.specs.Prelude.{◌≤◌};

use chunk_rope::Rope;
use no_memory::NoMemory;
use std::alloc::Global;
use std::cell::Cell;

// An item that counts its drop.
struct Counted<'a> {
    drops: &'a Cell<u64>,
}

impl<'a> Drop for Counted<'a> {
    fn drop(self) {
        let Counted { drops } = self;
        drops.set(drops.get().saturating_add(1));
    }
}

// Fills a rope.
fn push_so_many<'a>(rope: &mut Rope<Counted<'a>>, drops: &'a Cell<u64>, count: usize)
    requires { count ≤ rope.old.spare }
{
    for _ in 0..count {
        rope.push_reserved(Counted { drops });
    }
}

// A rope of so many items in one chunk.
fn one_chunk<'a>(
    alloc: Global,
    drops: &'a Cell<u64>,
    count: usize,
) -> Result<Rope<Counted<'a>>, NoMemory> {
    let mut rope = Rope::new(alloc);
    rope.reserve(count)?;
    push_so_many(&mut rope, drops, count);
    Ok(rope)
}

// Appends so many ropes of one item.
fn append_so_many<'a>(
    alloc: Global,
    rope: &mut Rope<Counted<'a>>,
    drops: &'a Cell<u64>,
    count: usize,
) -> Result<(), NoMemory> {
    for _ in 0..count {
        rope.append(one_chunk(alloc, drops, 1)?);
    }
    Ok(())
}

/// How many items were dropped before the rope of so many was, and after.
pub fn of_one_chunk(alloc: Global, count: usize) -> Result<String, NoMemory> {
    let drops = Cell::new(0);
    let rope = one_chunk(alloc, &drops, count)?;
    let before = drops.get();
    drop(rope);
    let after = drops.get();
    Ok(format!(in alloc; " {before} {after}")?)
}

/// The same where each item has a chunk of its own.
pub fn of_many_chunks(alloc: Global, count: usize) -> Result<String, NoMemory> {
    let drops = Cell::new(0);
    let mut rope = Rope::new(alloc);
    append_so_many(alloc, &mut rope, &drops, count)?;
    let before = drops.get();
    drop(rope);
    let after = drops.get();
    Ok(format!(in alloc; " {before} {after}")?)
}
