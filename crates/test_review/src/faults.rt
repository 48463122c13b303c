//! Words that are no command, outputs without room, and reads that fail.

use crate::runs::{COMPARE, INGRESS_SHUT, TWO_LINKS, one_each, show_run};
use net_io::MemFiles;
use std::sync::Wait;
use std::thread::Threads;
use test_stop::Stop;

/// Words that are no command, and folders that aren't there.
pub(crate) fn show_words<R: Threads + Wait + Sync>(
    rt: &HostRuntime,
    threads: &R,
) -> Result<(), Stop> {
    let cases: [&[&str]; 8] = [
        &[],
        &["compare", "old", "new"],
        &["compare", "old", "-", "links"],
        &["compare", "old", "", "links"],
        &["compare", "old", "new", "links", "newlinks", "more"],
        &["--help"],
        &["compare", "none", "missing", "links"],
        &["compare", "old", "none", "missing"],
    ];
    let mut files = one_each(rt.alloc(), TWO_LINKS, INGRESS_SHUT)?;
    show_each(rt, threads, &mut files, &cases)
}

fn show_each<R: Threads + Wait + Sync>(
    rt: &HostRuntime,
    threads: &R,
    files: &mut MemFiles,
    cases: &[&[&str]],
) -> Result<(), Stop> {
    for words in cases {
        println!(rt; "== {words:?}")?;
        show_run(rt, threads, files, words, 100)?;
    }
    Ok(())
}

/// The report has 533 bytes.
pub(crate) fn show_rooms<R: Threads + Wait + Sync>(
    rt: &HostRuntime,
    threads: &R,
) -> Result<(), Stop> {
    for room in [0, 100, 532, 533] {
        println!(rt; "== room for {room}")?;
        show_room(rt, threads, room)?;
    }
    Ok(())
}

fn show_room<R: Threads + Wait + Sync>(
    rt: &HostRuntime,
    threads: &R,
    room: usize,
) -> Result<(), Stop> {
    let mut files = one_each(rt.alloc(), TWO_LINKS, INGRESS_SHUT)?;
    show_run(rt, threads, &mut files, &COMPARE, room)
}

/// The calls are two listings and two reads of each of three files.
pub(crate) fn show_faults<R: Threads + Wait + Sync>(
    rt: &HostRuntime,
    threads: &R,
) -> Result<(), Stop> {
    for call in 0..9 {
        println!(rt; "== call {call} fails")?;
        show_fault(rt, threads, call)?;
    }
    Ok(())
}

fn show_fault<R: Threads + Wait + Sync>(
    rt: &HostRuntime,
    threads: &R,
    call: u64,
) -> Result<(), Stop> {
    let mut files = one_each(rt.alloc(), TWO_LINKS, TWO_LINKS)?;
    files.fail_at(call);
    show_run(rt, threads, &mut files, &COMPARE, 100)
}
