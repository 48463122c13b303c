//! Runs of both programs over files in memory.

use net_io::{MemFiles, MemSink};
use rollout_core::tool;
use std::alloc::{AllocError, Global};
use std::io::Write;
use std::sync::Wait;
use std::thread::Threads;
use steal_pool::OpenGate;
use test_stop::Stop;
use view_core::view_run;

/// Which program is run.
#[derive(Clone, Copy)]
pub(crate) enum Program {
    Rollout,
    View,
}

/// Enough room for what each case writes.
pub(crate) const ROOM: usize = 100_000;

fn strings(alloc: Global, words: &[&str]) -> Result<Vec<String>, AllocError> {
    let mut given = Vec::new(alloc);
    for word in words {
        given.push(word.to_string(alloc)?)?;
    }
    Ok(given)
}

/// What a run gave: its status, and what was written.
#[derive(Drop)]
pub(crate) struct Finished {
    pub(crate) status: u8,
    pub(crate) out: MemSink,
    pub(crate) err: MemSink,
}

// Where a run writes to.
#[derive(Drop)]
struct Outputs {
    out: MemSink,
    err: MemSink,
}

fn outputs_of(alloc: Global, room: usize) -> Result<Outputs, Stop> {
    let out = MemSink::new(alloc, room)?;
    let err = MemSink::new(alloc, 1000)?;
    Ok(Outputs { out, err })
}

fn status_of<R: Threads + Wait + Sync>(
    alloc: Global,
    threads: &R,
    program: Program,
    files: &mut MemFiles,
    words: &[String],
    outputs: &mut Outputs,
) -> u8 {
    let Outputs { out, err } = outputs;
    match program {
        Program::Rollout => tool(threads, alloc, words, files, out, err, &OpenGate),
        Program::View => view_run(alloc, words, files, out, err),
    }
}

/// Runs the program with these words where the output has so much room.
pub(crate) fn ran<R: Threads + Wait + Sync>(
    alloc: Global,
    threads: &R,
    program: Program,
    files: &mut MemFiles,
    words: &[&str],
    room: usize,
) -> Result<Finished, Stop> {
    let words = strings(alloc, words)?;
    let mut outputs = outputs_of(alloc, room)?;
    let status = status_of(alloc, threads, program, files, &words, &mut outputs);
    let Outputs { out, err } = outputs;
    Ok(Finished { status, out, err })
}

/// Runs it and shows the words, the status, and what was written.
pub(crate) fn show_run<R: Threads + Wait + Sync>(
    rt: &HostRuntime,
    threads: &R,
    program: Program,
    files: &mut MemFiles,
    words: &[&str],
    room: usize,
) -> Result<(), Stop> {
    let ran = ran(rt.alloc(), threads, program, files, words, room)?;
    println!(rt; "{words:?}: status {}", ran.status)?;
    show_lines(rt, ran.out.taken())?;
    show_lines(rt, ran.err.taken())
}

/// Bytes as they are, with the end of their last line.
fn show_lines(rt: &HostRuntime, bytes: &[u8]) -> Result<(), Stop> {
    rt.stdout().write_all(bytes)?;
    if !bytes.is_empty() && !bytes.ends_with(b"\n") {
        println!(rt; "")?;
    }
    Ok(())
}

/// Files in memory, each with its path and its bytes, and the folder `net`.
pub(crate) fn files_with(alloc: Global, given: &[(&str, &[u8])]) -> Result<MemFiles, Stop> {
    let mut files = MemFiles::new(alloc)?;
    files.folder("net")?;
    put_all(&mut files, given)?;
    Ok(files)
}

/// Puts each of the files at its path.
pub(crate) fn put_all(files: &mut MemFiles, given: &[(&str, &[u8])]) -> Result<(), Stop> {
    for (path, bytes) in given {
        files.put(path, bytes)?;
    }
    Ok(())
}
