//! Audits of a folder of two devices.

use crate::runs::{Program, ROOM, files_with, show_run};
use net_io::MemFiles;
use std::alloc::Global;
use std::sync::Wait;
use std::thread::Threads;
use test_stop::Stop;

// The second entry is dead by the first one, and the last one redundant, since the end of a list denies.
const LISTS: &[u8] = b"hostname R1
ip access-list extended A
 permit tcp any host 10.0.0.1 eq 80
 permit tcp host 10.0.0.7 host 10.0.0.1 eq 80
 deny udp any any
";

const CLEAN: &[u8] = b"hostname R2
access-list 7 permit host 10.0.0.1
";

const AUDIT: [&str; 2] = ["audit", "net"];

fn network(alloc: Global, first: &[u8]) -> Result<MemFiles, Stop> {
    files_with(alloc, &[("net/R1.cfg", first), ("net/R2.cfg", CLEAN)])
}

pub(crate) fn show<R: Threads + Wait + Sync>(rt: &HostRuntime, threads: &R) -> Result<(), Stop> {
    show_words(rt, threads)?;
    show_texts(rt, threads)?;
    show_rooms(rt, threads)?;
    show_faults(rt, threads)
}

fn show_words<R: Threads + Wait + Sync>(rt: &HostRuntime, threads: &R) -> Result<(), Stop> {
    println!(rt; "== words of an audit")?;
    let cases: [&[&str]; 6] = [
        &[],
        &["audit"],
        &["audit", ""],
        &["audit", "net", "net"],
        &["read", "net"],
        &["audit", "none"],
    ];
    let mut files = network(rt.alloc(), LISTS)?;
    for words in cases {
        show_run(rt, threads, Program::Rollout, &mut files, words, ROOM)?;
    }
    Ok(())
}

// Findings, none, a command that isn't covered, and no hostname.
fn show_texts<R: Threads + Wait + Sync>(rt: &HostRuntime, threads: &R) -> Result<(), Stop> {
    println!(rt; "== texts that are audited")?;
    let cases: [&[u8]; 4] = [
        LISTS,
        b"hostname R1\n",
        b"hostname R1\nrouter ospf 1\n",
        b"!\n",
    ];
    for first in cases {
        show_text(rt, threads, first)?;
    }
    println!(rt; "== a byte at each read")?;
    show_by_bytes(rt, threads)?;
    println!(rt; "== a file of 16777217 bytes")?;
    let long = vec![in rt.alloc(); b'!'; 16_777_217]?;
    show_text(rt, threads, &long)
}

fn show_text<R: Threads + Wait + Sync>(
    rt: &HostRuntime,
    threads: &R,
    first: &[u8],
) -> Result<(), Stop> {
    let mut files = network(rt.alloc(), first)?;
    show_run(rt, threads, Program::Rollout, &mut files, &AUDIT, ROOM)
}

fn show_by_bytes<R: Threads + Wait + Sync>(rt: &HostRuntime, threads: &R) -> Result<(), Stop> {
    let mut files = network(rt.alloc(), b"hostname R1\n")?;
    files.at_most(1);
    show_run(rt, threads, Program::Rollout, &mut files, &AUDIT, ROOM)
}

// The text of the clean folder has 44 bytes.
fn show_rooms<R: Threads + Wait + Sync>(rt: &HostRuntime, threads: &R) -> Result<(), Stop> {
    println!(rt; "== an output with little room")?;
    let mut files = network(rt.alloc(), b"hostname R1\n")?;
    for room in [0, 10, 43, 44] {
        show_run(rt, threads, Program::Rollout, &mut files, &AUDIT, room)?;
    }
    Ok(())
}

// The calls are a listing, and two reads of each file.
fn show_faults<R: Threads + Wait + Sync>(rt: &HostRuntime, threads: &R) -> Result<(), Stop> {
    println!(rt; "== a call on the files fails")?;
    for call in 0..6 {
        let mut files = network(rt.alloc(), b"hostname R1\n")?;
        files.fail_at(call);
        show_run(rt, threads, Program::Rollout, &mut files, &AUDIT, ROOM)?;
    }
    Ok(())
}
