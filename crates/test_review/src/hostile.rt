//! Files and outputs that fail, lie or hand over little: each line says of how many runs how many ended as they must.

use crate::causes;
use crate::filled::Filled;
use crate::runs::{COMPARE, Outputs, cannot_read, ends, files_with, one_each, ran, ran_with};
use crate::tally::Tally;
use net_io::MemFiles;
use std::alloc::Global;
use std::fs;
use std::sync::Wait;
use std::thread::Threads;
use steal_pool::OpenGate;
use test_stop::Stop;

const LIST: &[u8] = b"hostname R1
interface Ethernet0
 ip address 10.0.0.1 255.255.255.0
 ip access-group 101 in
interface Ethernet1
 ip address 10.0.1.1 255.255.255.0
access-list 101 permit icmp any any
";

// The same with one more entry.
const LONGER_LIST: &[u8] = b"hostname R1
interface Ethernet0
 ip address 10.0.0.1 255.255.255.0
 ip access-group 101 in
interface Ethernet1
 ip address 10.0.1.1 255.255.255.0
access-list 101 permit icmp any any
access-list 101 permit tcp any host 10.0.1.5 eq www
";

// How they differ.
const REPORT: &[u8] = b"ingress R1 Ethernet0 rows 1
dst 10.0.1.5 src * proto 6 dport 80 sport * flags *
old drop
new exit R1 Ethernet1
affected 1
";

pub(crate) fn show<R: Threads + Wait + Sync>(rt: &HostRuntime, threads: &R) -> Result<(), Stop> {
    show_single_bytes(rt, threads)?;
    show_faults(rt, threads, 65_536)?;
    show_faults(rt, threads, 1)?;
    show_rooms(rt, threads)?;
    show_filled(rt, threads)?;
    show_no_error_output(rt, threads)?;
    show_cuts(rt, threads)?;
    causes::show(rt, threads)
}

/// Files that give one byte in a read, and an output that takes one in a write.
fn show_single_bytes<R: Threads + Wait + Sync>(rt: &HostRuntime, threads: &R) -> Result<(), Stop> {
    let mut tally = Tally::new();
    tally.note(reports_by_bytes(rt.alloc(), threads)?);
    tally.show(rt, "one byte in each call")
}

fn reports_by_bytes<R: Threads + Wait + Sync>(alloc: Global, threads: &R) -> Result<bool, Stop> {
    let mut files = one_each(alloc, LIST, LONGER_LIST)?;
    files.at_most(1);
    reports_to_bytes(alloc, threads, &mut files)
}

fn reports_to_bytes<R: Threads + Wait + Sync>(
    alloc: Global,
    threads: &R,
    files: &mut MemFiles,
) -> Result<bool, Stop> {
    let mut outputs = Outputs::of(alloc, 1000, 0)?;
    outputs.out.at_most(1);
    let ran = ran_with(alloc, threads, files, &COMPARE, outputs, &OpenGate)?;
    Ok(ran.status == 1 && ran.out.taken() == REPORT)
}

/// Each call fails in turn, until none does. A read gives at most so many bytes.
fn show_faults<R: Threads + Wait + Sync>(
    rt: &HostRuntime,
    threads: &R,
    most: usize,
) -> Result<(), Stop> {
    let paths = called_paths(rt.alloc(), most)?;
    let mut tally = Tally::new();
    for call in 0..paths.len() {
        tally.note(fails_at(rt.alloc(), threads, most, call as u64, paths[call])?);
    }
    let after = fails_at(rt.alloc(), threads, most, paths.len() as u64, "")?;
    println!(rt; "one call more: fails {after}")?;
    tally.show(rt, "the call that fails is named")
}

// The path of each call: a folder is listed, and a file is read until nothing comes.
fn called_paths(alloc: Global, most: usize) -> Result<Vec<&'static str>, Stop> {
    let files: [(&str, usize); 5] = [
        ("old", 0),
        ("old/R1.cfg", LIST.len()),
        ("new", 0),
        ("new/R1.cfg", LONGER_LIST.len()),
        ("links", 21),
    ];
    let mut paths = Vec::new(alloc);
    for (path, size) in files {
        for _ in 0..size.div_ceil(most.max(1)).saturating_add(1) {
            paths.push(path)?;
        }
    }
    Ok(paths)
}

// Whether the run ends with status 4, names this path and writes nothing.
fn fails_at<R: Threads + Wait + Sync>(
    alloc: Global,
    threads: &R,
    most: usize,
    call: u64,
    path: &str,
) -> Result<bool, Stop> {
    let mut files = one_each(alloc, LIST, LONGER_LIST)?;
    files.at_most(most.max(1));
    files.fail_at(call);
    cannot_read(alloc, threads, &mut files, &COMPARE, path)
}

/// An output with room for each number of bytes below the report's.
fn show_rooms<R: Threads + Wait + Sync>(rt: &HostRuntime, threads: &R) -> Result<(), Stop> {
    let mut tally = Tally::new();
    for room in 0..REPORT.len() {
        tally.note(fills(rt.alloc(), threads, &REPORT[..room])?);
    }
    tally.show(rt, "an output with too little room")
}

// Whether the run takes all the room, where there is room for these bytes, and ends with status 6.
fn fills<R: Threads + Wait + Sync>(alloc: Global, threads: &R, bytes: &[u8]) -> Result<bool, Stop> {
    let mut files = one_each(alloc, LIST, LONGER_LIST)?;
    fills_over(alloc, threads, &mut files, bytes)
}

fn fills_over<R: Threads + Wait + Sync>(
    alloc: Global,
    threads: &R,
    files: &mut MemFiles,
    bytes: &[u8],
) -> Result<bool, Stop> {
    let ran = ran(alloc, threads, files, &COMPARE, bytes.len(), &OpenGate)?;
    Ok(
        ran.status == 6
            && ran.out.taken() == bytes
            && ran.err.taken() == b"cannot write\n".as_slice(),
    )
}

/// Files that never end.
fn show_filled<R: Threads + Wait + Sync>(rt: &HostRuntime, threads: &R) -> Result<(), Stop> {
    let line = b"too long old/R1.cfg\n";
    let mut tally = Tally::new();
    tally.note(ends(rt.alloc(), threads, &mut Filled, &COMPARE, 5, line)?);
    tally.show(rt, "a file without an end")
}

/// A refusal, where the error output takes nothing.
fn show_no_error_output<R: Threads + Wait + Sync>(
    rt: &HostRuntime,
    threads: &R,
) -> Result<(), Stop> {
    let mut tally = Tally::new();
    tally.note(refuses_silently(rt.alloc(), threads)?);
    tally.show(rt, "a refusal without an error output")
}

fn refuses_silently<R: Threads + Wait + Sync>(alloc: Global, threads: &R) -> Result<bool, Stop> {
    let mut files = one_each(alloc, b"hostname R1\nrouter ospf 1\n", LIST)?;
    refuses_silently_over(alloc, threads, &mut files)
}

fn refuses_silently_over<R: Threads + Wait + Sync>(
    alloc: Global,
    threads: &R,
    files: &mut MemFiles,
) -> Result<bool, Stop> {
    let outputs = Outputs::of(alloc, 1000, 0)?;
    let ran = ran_with(alloc, threads, files, &COMPARE, outputs, &OpenGate)?;
    Ok(ran.status == 3 && ran.out.taken().is_empty() && ran.err.taken().is_empty())
}

/// The configuration of a usual router, cut after each of its bytes.
fn show_cuts<R: Threads + Wait + Sync>(rt: &HostRuntime, threads: &R) -> Result<(), Stop> {
    let cases = fs::read_to_string(rt, "comparisons")?;
    let text = usual(cases.as_str()).as_bytes();
    let mut files = files_with(rt.alloc(), &[("old/", b"")])?;
    show_cuts_of(rt, threads, &mut files, text)
}

fn show_cuts_of<R: Threads + Wait + Sync>(
    rt: &HostRuntime,
    threads: &R,
    files: &mut MemFiles,
    text: &[u8],
) -> Result<(), Stop> {
    let mut tally = Tally::new();
    for count in 0..text.len() {
        files.put("old/EDGE.cfg", &text[..count])?;
        tally.note(reads(rt.alloc(), threads, files, &text[..count])?);
    }
    tally.show(rt, "a text that is cut")
}

// The first configuration of EDGE.
fn usual(cases: &str) -> &str {
    let (_, rest) = cases.split_once("-- old/EDGE.cfg\n").unwrap_or(("", ""));
    let (text, _) = rest.split_once("-- ").unwrap_or(("", ""));
    text
}

// Whether the text is accepted, or refused at a line that it has.
fn reads<R: Threads + Wait + Sync>(
    alloc: Global,
    threads: &R,
    files: &mut MemFiles,
    text: &[u8],
) -> Result<bool, Stop> {
    let ran = ran(alloc, threads, files, &["read", "old"], 1000, &OpenGate)?;
    let (out, err) = (ran.out.taken(), ran.err.taken());
    let status = ran.status;
    Ok(match status {
        0 => err.is_empty() && !out.is_empty(),
        3 => out.is_empty() && names_a_line(err, text),
        _ => false,
    })
}

fn names_a_line(refusal: &[u8], text: &[u8]) -> bool {
    let lines = text.split(|byte| *byte == b'\n').count();
    let Ok(refusal) = str::from_utf8(refusal) else {
        return false;
    };
    let Some(rest) = refusal.strip_prefix("refused old/EDGE.cfg line ") else {
        return false;
    };
    let (number, _) = rest.split_once(' ').unwrap_or((rest, ""));
    match number.parse::<usize>() {
        Ok(number) => number <= lines,
        Err(_) => false,
    }
}
