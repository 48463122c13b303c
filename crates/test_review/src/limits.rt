//! The limits on files and folders, each kept and passed.

use crate::runs::{COMPARE, files_with, show_run};
use net_io::MemFiles;
use std::alloc::Global;
use std::sync::Wait;
use std::thread::Threads;
use test_stop::Stop;

/// A folder `old` of so many files, each of so many bytes, and a folder `new` with R1 alone.
fn files_of(alloc: Global, count: usize, size: usize) -> Result<MemFiles, Stop> {
    let given: [(&str, &[u8]); 4] = [
        ("old/", b""),
        ("new/", b""),
        ("new/R1.cfg", b"hostname R1\n"),
        ("links", b"ingress R1 Ethernet0\n"),
    ];
    let mut files = files_with(alloc, &given)?;
    for i in 0..count {
        put_file(alloc, &mut files, i, size)?;
    }
    Ok(files)
}

fn put_file(alloc: Global, files: &mut MemFiles, i: usize, size: usize) -> Result<(), Stop> {
    let path = format!(in alloc; "old/{i}.cfg")?;
    let bytes = long_text(alloc, i, size)?;
    files.put(path.as_str(), &bytes)?;
    Ok(())
}

/// A hostname, and a comment as long as is wanted.
fn long_text(alloc: Global, i: usize, size: usize) -> Result<Vec<u8>, Stop> {
    let mut text = format!(in alloc; "hostname R{i}\n")?.into_bytes();
    let rest = vec![in alloc; b'!'; size.saturating_sub(text.len())]?;
    text.extend_from_slice(&rest)?;
    Ok(text)
}

pub(crate) fn show<R: Threads + Wait + Sync>(rt: &HostRuntime, threads: &R) -> Result<(), Stop> {
    let cases = [
        (1024, 0),
        (1025, 0),
        (1, 16_777_216),
        (1, 16_777_217),
        (4, 16_777_216),
        (5, 12),
    ];
    for (count, size) in cases {
        println!(rt; "== {count} files of {size} bytes")?;
        show_files(rt, threads, count, size)?;
    }
    show_last_file(rt, threads)
}

fn show_files<R: Threads + Wait + Sync>(
    rt: &HostRuntime,
    threads: &R,
    count: usize,
    size: usize,
) -> Result<(), Stop> {
    let mut files = files_of(rt.alloc(), count, size)?;
    show_run(rt, threads, &mut files, &COMPARE, 1_000)
}

/// Four files fill the folder, and a fifth of 12 bytes passes its limit.
fn show_last_file<R: Threads + Wait + Sync>(rt: &HostRuntime, threads: &R) -> Result<(), Stop> {
    println!(rt; "== 4 files of 16777216 bytes and one of 12")?;
    let mut files = files_of(rt.alloc(), 4, 16_777_216)?;
    put_file(rt.alloc(), &mut files, 4, 12)?;
    show_run(rt, threads, &mut files, &COMPARE, 1_000)
}
