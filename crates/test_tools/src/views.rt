//! Reports that are shown.

use crate::runs::{Program, ROOM, put_all, show_run};
use net_io::MemFiles;
use std::alloc::Global;
use std::sync::Wait;
use std::thread::Threads;
use test_stop::Stop;

const REPORT: &[u8] = b"ingress R1 Ethernet0 rows 2
dst 10.0.1.5 src * proto 6 dport 81 sport * flags *
old drop
new exit R1 Ethernet1
dst 10.0.1.5 src * proto 6 dport 90 sport * flags *
old drop
new exit R1 Ethernet1
affected 2
";

fn texts(alloc: Global, report: &[u8]) -> Result<MemFiles, Stop> {
    let mut files = MemFiles::new(alloc)?;
    put_all(&mut files, &[("report", report)])?;
    Ok(files)
}

pub(crate) fn show<R: Threads + Wait + Sync>(rt: &HostRuntime, threads: &R) -> Result<(), Stop> {
    show_words(rt, threads)?;
    show_reports(rt, threads)?;
    show_forms(rt, threads)?;
    show_rooms(rt, threads)?;
    show_faults(rt, threads)
}

fn show_words<R: Threads + Wait + Sync>(rt: &HostRuntime, threads: &R) -> Result<(), Stop> {
    println!(rt; "== words of a view")?;
    let cases: [&[&str]; 11] = [
        &[],
        &["--help"],
        &["--version"],
        &["--help", "report"],
        &["--json"],
        &["report", "report"],
        &["--html", "report"],
        &["--title", "report"],
        &["--json", "--title", "old to new", "report"],
        &["none"],
        &["--json", "none"],
    ];
    let mut files = texts(rt.alloc(), REPORT)?;
    for words in cases {
        show_run(rt, threads, Program::View, &mut files, words, ROOM)?;
    }
    Ok(())
}

// A report, one without a row, and texts that are none: a count that is wrong, a name of two words, no end, nothing.
fn show_reports<R: Threads + Wait + Sync>(rt: &HostRuntime, threads: &R) -> Result<(), Stop> {
    println!(rt; "== reports that are shown")?;
    let cases: [&[u8]; 6] = [
        REPORT,
        b"ingress R1 Ethernet0 rows 0\naffected 0\n",
        b"ingress R1 Ethernet0 rows 0\naffected 1\n",
        b"ingress R1 of Ethernet0 rows 0\naffected 0\n",
        b"ingress R1 Ethernet0 rows 0\naffected 0",
        b"",
    ];
    for report in cases {
        show_report(rt, threads, report)?;
    }
    println!(rt; "== a byte at each read")?;
    show_by_bytes(rt, threads)?;
    println!(rt; "== a text that is longer than other files may be, and no report")?;
    let long = vec![in rt.alloc(); b'!'; 16_777_217]?;
    show_report(rt, threads, &long)
}

fn show_report<R: Threads + Wait + Sync>(
    rt: &HostRuntime,
    threads: &R,
    report: &[u8],
) -> Result<(), Stop> {
    let mut files = texts(rt.alloc(), report)?;
    show_run(rt, threads, Program::View, &mut files, &["report"], ROOM)
}

fn show_by_bytes<R: Threads + Wait + Sync>(rt: &HostRuntime, threads: &R) -> Result<(), Stop> {
    let mut files = texts(rt.alloc(), REPORT)?;
    files.at_most(1);
    show_run(rt, threads, Program::View, &mut files, &["report"], ROOM)
}

// A title, and a document.
fn show_forms<R: Threads + Wait + Sync>(rt: &HostRuntime, threads: &R) -> Result<(), Stop> {
    println!(rt; "== other forms")?;
    let cases: [&[&str]; 2] = [&["--title", "old to new", "report"], &["--json", "report"]];
    let mut files = texts(rt.alloc(), REPORT)?;
    for words in cases {
        show_run(rt, threads, Program::View, &mut files, words, ROOM)?;
    }
    Ok(())
}

fn show_rooms<R: Threads + Wait + Sync>(rt: &HostRuntime, threads: &R) -> Result<(), Stop> {
    println!(rt; "== an output with little room")?;
    let mut files = texts(rt.alloc(), REPORT)?;
    for room in [0, 36] {
        show_run(rt, threads, Program::View, &mut files, &["report"], room)?;
    }
    Ok(())
}

// The calls are two reads of the file.
fn show_faults<R: Threads + Wait + Sync>(rt: &HostRuntime, threads: &R) -> Result<(), Stop> {
    println!(rt; "== a call on the files fails")?;
    for call in 0..3 {
        let mut files = texts(rt.alloc(), REPORT)?;
        files.fail_at(call);
        show_run(
            rt,
            threads,
            Program::View,
            &mut files,
            &["--json", "report"],
            0,
        )?;
    }
    Ok(())
}
