//! The cases of the file `comparisons`: each a line `== NAME` and its files, each a line `-- PATH` and its lines. There are
//! always the folders `old` and `new`, and a comparison gives the same by 1, 4 and 64 workers. The cases of the file `commands`
//! have, besides their files, the command lines that are run over them, each behind `$ ` and with a blank between words.

use crate::runs::{COMPARE, Finished, files_with, ran, show_line, show_ran};
use net_io::MemFiles;
use std::alloc::Global;
use std::fs;
use std::sync::Wait;
use std::thread::Threads;
use steal_pool::OpenGate;
use test_stop::Stop;

pub(crate) fn show<R: Threads + Wait + Sync>(rt: &HostRuntime, threads: &R) -> Result<(), Stop> {
    let cases = fs::read_to_string(rt, "comparisons")?;
    for case in cases.as_str().split("== ").skip(1) {
        show_case(rt, threads, case)?;
    }
    Ok(())
}

fn show_case<R: Threads + Wait + Sync>(
    rt: &HostRuntime,
    threads: &R,
    case: &str,
) -> Result<(), Stop> {
    let (name, given) = case.split_once('\n').unwrap_or((case, ""));
    println!(rt; "== {name}")?;
    let mut files = files_of(rt.alloc(), given)?;
    show_comparison(rt, threads, &mut files)
}

fn show_comparison<R: Threads + Wait + Sync>(
    rt: &HostRuntime,
    threads: &R,
    files: &mut MemFiles,
) -> Result<(), Stop> {
    let by_four = ran(rt.alloc(), threads, files, &COMPARE, 10_000, &OpenGate)?;
    show_by_workers(rt, threads, files, &by_four)
}

// What four workers gave, and whether others give the same.
fn show_by_workers<R: Threads + Wait + Sync>(
    rt: &HostRuntime,
    threads: &R,
    files: &mut MemFiles,
    by_four: &Finished,
) -> Result<(), Stop> {
    show_ran(rt, by_four)?;
    for workers in ["1", "64"] {
        let words = ["compare", "old", "new", "links", "--workers", workers];
        if !gives(rt.alloc(), threads, files, &words, by_four)? {
            println!(rt; "something else by {workers} workers")?;
        }
    }
    Ok(())
}

// Whether the words give the same.
fn gives<R: Threads + Wait + Sync>(
    alloc: Global,
    threads: &R,
    files: &mut MemFiles,
    words: &[&str],
    wanted: &Finished,
) -> Result<bool, Stop> {
    let ran = ran(alloc, threads, files, words, 10_000, &OpenGate)?;
    Ok(are_equal(wanted, &ran))
}

fn are_equal(one: &Finished, other: &Finished) -> bool {
    one.status == other.status
        && one.out.taken() == other.out.taken()
        && one.err.taken() == other.err.taken()
}

pub(crate) fn show_commands<R: Threads + Wait + Sync>(
    rt: &HostRuntime,
    threads: &R,
) -> Result<(), Stop> {
    let cases = fs::read_to_string(rt, "commands")?;
    for case in cases.as_str().split("== ").skip(1) {
        show_commands_of(rt, threads, case)?;
    }
    Ok(())
}

fn show_commands_of<R: Threads + Wait + Sync>(
    rt: &HostRuntime,
    threads: &R,
    case: &str,
) -> Result<(), Stop> {
    let (name, given) = case.split_once('\n').unwrap_or((case, ""));
    println!(rt; "== {name}")?;
    let mut files = files_of(rt.alloc(), given)?;
    for line in given.lines() {
        if let Some(words) = line.strip_prefix("$ ") {
            show_line(rt, threads, &mut files, words, &OpenGate)?;
        }
    }
    Ok(())
}

fn files_of(alloc: Global, given: &str) -> Result<MemFiles, Stop> {
    let mut files = files_with(alloc, &[("old/", b""), ("new/", b"")])?;
    for file in given.split("-- ").skip(1) {
        put(&mut files, file)?;
    }
    Ok(files)
}

fn put(files: &mut MemFiles, file: &str) -> Result<(), Stop> {
    let (path, text) = file.split_once('\n').unwrap_or((file, ""));
    files.put(path, text.as_bytes())?;
    Ok(())
}
