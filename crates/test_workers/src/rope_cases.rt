//! Ropes and boards at work: what comes out of a rope, what a dropped one gives up, and what a board answers.
//!
//! Each line of the standard output names a case and what came of it.

use crate::{boards, drops, ropes, threads};
use no_memory::NoMemory;
use std::io;
use std::thread::Threads;

/// Prints what comes out of ropes and boards.
pub(crate) fn show_all<R: Threads + Sync>(rt: &HostRuntime, threads: &R) -> io::Result<()> {
    let alloc = rt.alloc();
    show(rt, "a rope with another appended", ropes::appended(alloc))?;
    show(rt, "a rope with a new one appended", ropes::with_new(alloc))?;
    show(
        rt,
        "three values into a reserved rope",
        ropes::reserved(alloc),
    )?;
    show(
        rt,
        "the spare of the rope that was appended",
        ropes::spare_of_other(alloc),
    )?;
    show(rt, "a pop between two pushes", ropes::popped_between(alloc))?;
    show(
        rt,
        "whether it is empty, before and after",
        ropes::emptied(alloc),
    )?;
    show(rt, "by the cursor", ropes::walked(alloc))?;
    show(
        rt,
        "dropped out of one chunk",
        drops::of_one_chunk(alloc, 100_000),
    )?;
    show(
        rt,
        "dropped out of as many chunks",
        drops::of_many_chunks(alloc, 100_000),
    )?;
    show(rt, "summed by threads", threads::summed(threads, alloc))?;
    show(rt, "two roots", boards::two_roots(alloc))?;
    show(
        rt,
        "a settle, and the same again",
        boards::settled_twice(alloc),
    )?;
    show(
        rt,
        "a settle of another region",
        boards::another_region(alloc),
    )?;
    show(
        rt,
        "a settle by another meaning",
        boards::another_meaning(alloc),
    )?;
    show(rt, "a root in halves", boards::in_halves(alloc))?;
    show(rt, "a leaf to the end", boards::to_the_end(alloc))?;
    Ok(())
}

fn show(rt: &HostRuntime, case: &str, came: Result<String, NoMemory>) -> io::Result<()> {
    match came {
        Ok(text) => println!(rt; "{case}:{text}"),
        Err(NoMemory) => println!(rt; "{case}: no memory"),
    }
}
