//! Lanes and pools at work: what an owner and its thieves are handed, and how many leaves a pool finds.
//!
//! Each line of the standard output names a case and what came of it.

use crate::{lanes, pools};
use no_memory::NoMemory;
use std::io;
use std::sync::Wait;
use std::thread::Threads;

/// Prints what lanes and pools give.
pub(crate) fn show_all<R: Threads + Wait + Sync>(rt: &HostRuntime, threads: &R) -> io::Result<()> {
    show_lanes(rt, threads)?;
    show_shared(rt, threads)?;
    show_divided(rt, threads)?;
    show_kept(rt, threads)?;
    show_refused(rt, threads)
}

fn show_lanes<R: Threads + Wait + Sync>(rt: &HostRuntime, threads: &R) -> io::Result<()> {
    show(
        rt,
        "two pushes, and one beyond the capacity",
        lanes::pushed(rt.alloc()),
    )?;
    show(
        rt,
        "a steal by the thief that was split off, then two takes",
        lanes::stolen(threads, rt.alloc()),
    )?;
    show(
        rt,
        "a lane without a task",
        lanes::empty(threads, rt.alloc()),
    )?;
    show(
        rt,
        "the thieves that one lane has",
        lanes::split_all(rt.alloc()),
    )
}

fn show_shared<R: Threads + Wait + Sync>(rt: &HostRuntime, threads: &R) -> io::Result<()> {
    show(rt, "two workers that meet", pools::met(threads, rt.alloc()))?;
    show(
        rt,
        "one root that two workers share",
        pools::shared(threads, rt.alloc()),
    )
}

fn show_divided<R: Threads + Wait + Sync>(rt: &HostRuntime, threads: &R) -> io::Result<()> {
    for workers in [1, 64] {
        let case = "regions without a value";
        show(rt, case, pools::nothing(threads, rt.alloc(), workers))?;
    }
    for workers in [1, 2, 3, 64] {
        let case = "100 roots in 8 parts each";
        show(
            rt,
            case,
            pools::divided(threads, rt.alloc(), workers, 100, 3),
        )?;
    }
    for workers in [1, 2, 64] {
        let case = "one root in 4096 parts";
        show(
            rt,
            case,
            pools::divided(threads, rt.alloc(), workers, 1, 12),
        )?;
    }
    Ok(())
}

fn show_kept<R: Threads + Wait + Sync>(rt: &HostRuntime, threads: &R) -> io::Result<()> {
    for workers in [2, 64] {
        for (roots, depth, ticket) in [(1, 0, 0), (1, 9, 0), (3, 0, 2), (3, 8, 0)] {
            let kept = pools::Kept {
                roots,
                depth,
                ticket,
            };
            let case = "a task that the others wait for";
            show(
                rt,
                case,
                pools::kept_back(threads, rt.alloc(), workers, kept),
            )?;
        }
        let case = "a task that the others wait for, and that is refused";
        show(
            rt,
            case,
            pools::kept_and_refused(threads, rt.alloc(), workers),
        )?;
    }
    Ok(())
}

fn show_refused<R: Threads + Wait + Sync>(rt: &HostRuntime, threads: &R) -> io::Result<()> {
    for refused in [0, 2, 3] {
        let case = "two workers, and work that is refused";
        show(rt, case, pools::refused(threads, rt.alloc(), refused))?;
    }
    Ok(())
}

fn show(rt: &HostRuntime, case: &str, came: Result<String, NoMemory>) -> io::Result<()> {
    match came {
        Ok(text) => println!(rt; "{case}: {text}"),
        Err(NoMemory) => println!(rt; "{case}: no memory"),
    }
}
