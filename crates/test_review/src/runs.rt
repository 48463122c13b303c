//! Runs of the program over files in memory.

use net_io::{Files, MemFiles, MemSink};
use review_core::run;
use std::alloc::{AllocError, Global};
use std::io::Write;
use std::sync::Wait;
use std::thread::Threads;
use steal_pool::{Gate, OpenGate};
use test_stop::Stop;

/// The words of a comparison of the folders `old` and `new`.
pub(crate) const COMPARE: [&str; 4] = ["compare", "old", "new", "links"];

fn strings(alloc: Global, words: &[&str]) -> Result<Vec<String>, AllocError> {
    let mut given = Vec::new(alloc);
    for word in words {
        given.push(word.to_string(alloc)?)?;
    }
    Ok(given)
}

/// Where a run writes to.
#[derive(Drop)]
pub(crate) struct Outputs {
    pub(crate) out: MemSink,
    pub(crate) err: MemSink,
}

impl Outputs {
    /// An output and an error output with room for so many bytes each.
    pub(crate) fn of(alloc: Global, room: usize, error_room: usize) -> Result<Outputs, Stop> {
        let out = MemSink::new(alloc, room)?;
        let err = MemSink::new(alloc, error_room)?;
        Ok(Outputs { out, err })
    }
}

/// What a run gave: its status, and what was written.
#[derive(Drop)]
pub(crate) struct Finished {
    pub(crate) status: u8,
    pub(crate) out: MemSink,
    pub(crate) err: MemSink,
}

/// Runs the words where the output has so much room, and each worker passes the gate.
pub(crate) fn ran<F: Files, R: Threads + Wait + Sync, G: Gate + Sync>(
    alloc: Global,
    threads: &R,
    files: &mut F,
    words: &[&str],
    room: usize,
    gate: &G,
) -> Result<Finished, Stop> {
    let outputs = Outputs::of(alloc, room, 1000)?;
    ran_with(alloc, threads, files, words, outputs, gate)
}

/// Runs the words with these outputs.
pub(crate) fn ran_with<F: Files, R: Threads + Wait + Sync, G: Gate + Sync>(
    alloc: Global,
    threads: &R,
    files: &mut F,
    words: &[&str],
    outputs: Outputs,
    gate: &G,
) -> Result<Finished, Stop> {
    let mut outputs = outputs;
    let words = strings(alloc, words)?;
    let status = status_of(alloc, threads, files, &words, &mut outputs, gate);
    let Outputs { out, err } = outputs;
    Ok(Finished { status, out, err })
}

fn status_of<F: Files, R: Threads + Wait + Sync, G: Gate + Sync>(
    alloc: Global,
    threads: &R,
    files: &mut F,
    words: &[String],
    outputs: &mut Outputs,
    gate: &G,
) -> u8 {
    let Outputs { out, err } = outputs;
    run(threads, alloc, words, files, out, err, gate)
}

/// Whether a run of the words ends with this status and this line, and writes nothing else.
pub(crate) fn ends<F: Files, R: Threads + Wait + Sync>(
    alloc: Global,
    threads: &R,
    files: &mut F,
    words: &[&str],
    status: u8,
    line: &[u8],
) -> Result<bool, Stop> {
    let ran = ran(alloc, threads, files, words, 1000, &OpenGate)?;
    Ok(ran.status == status && ran.out.taken().is_empty() && ran.err.taken() == line)
}

/// Whether a run of the words ends with status 4, names this path and writes nothing else.
pub(crate) fn cannot_read<R: Threads + Wait + Sync>(
    alloc: Global,
    threads: &R,
    files: &mut MemFiles,
    words: &[&str],
    path: &str,
) -> Result<bool, Stop> {
    let line = format!(in alloc; "cannot read {path}\n")?;
    ends(alloc, threads, files, words, 4, line.as_bytes())
}

/// The status, and what was written.
pub(crate) fn show_ran(rt: &HostRuntime, ran: &Finished) -> Result<(), Stop> {
    println!(rt; "status {}", ran.status)?;
    show_lines(rt, ran.out.taken())?;
    show_lines(rt, ran.err.taken())
}

/// Runs the words where the output has so much room, and shows what that gave.
pub(crate) fn show_run<R: Threads + Wait + Sync>(
    rt: &HostRuntime,
    threads: &R,
    files: &mut MemFiles,
    words: &[&str],
    room: usize,
) -> Result<(), Stop> {
    let ran = ran(rt.alloc(), threads, files, words, room, &OpenGate)?;
    show_ran(rt, &ran)
}

/// Runs the words of a command line, with a blank between words, and shows them and what that gave.
pub(crate) fn show_line<R: Threads + Wait + Sync, G: Gate + Sync>(
    rt: &HostRuntime,
    threads: &R,
    files: &mut MemFiles,
    line: &str,
    gate: &G,
) -> Result<(), Stop> {
    println!(rt; "$ {line}")?;
    let words: Vec<&str> = line.split(' ').collect(rt.alloc())?;
    let ran = ran(rt.alloc(), threads, files, &words, 10_000, gate)?;
    show_ran(rt, &ran)
}

/// Bytes as they are, with the end of their last line.
pub(crate) fn show_lines(rt: &HostRuntime, bytes: &[u8]) -> Result<(), Stop> {
    rt.stdout().write_all(bytes)?;
    if !bytes.is_empty() && !bytes.ends_with(b"\n") {
        println!(rt; "")?;
    }
    Ok(())
}

/// The folders `old` and `new` with one file each, and a link table.
pub(crate) fn one_each<'a>(alloc: Global, old: &'a [u8], new: &'a [u8]) -> Result<MemFiles, Stop> {
    let given: [(&str, &[u8]); 5] = [
        ("old/", b""),
        ("old/R1.cfg", old),
        ("new/", b""),
        ("new/R1.cfg", new),
        ("links", b"ingress R1 Ethernet0\n"),
    ];
    files_with(alloc, &given)
}

/// Files in memory, each with its path and its bytes. A path that ends in '/' is that of a folder.
pub(crate) fn files_with(alloc: Global, given: &[(&str, &[u8])]) -> Result<MemFiles, Stop> {
    let mut files = MemFiles::new(alloc)?;
    put_all(&mut files, given)?;
    Ok(files)
}

fn put_all(files: &mut MemFiles, given: &[(&str, &[u8])]) -> Result<(), Stop> {
    for (path, bytes) in given {
        match path.strip_suffix('/') {
            Some(folder) => files.folder(folder)?,
            None => files.put(path, bytes)?,
        }
    }
    Ok(())
}

/// A device with two links.
pub(crate) const TWO_LINKS: &[u8] = b"hostname R1
interface Ethernet0
 ip address 10.0.0.1 255.255.255.252
interface Ethernet1
 ip address 10.0.1.1 255.255.255.252
";

/// The same with its ingress shut down.
pub(crate) const INGRESS_SHUT: &[u8] = b"hostname R1
interface Ethernet0
 ip address 10.0.0.1 255.255.255.252
 shutdown
interface Ethernet1
 ip address 10.0.1.1 255.255.255.252
";
