//! Files and sinks in memory.

use crate::names::listed;
use crate::runs::files_with;
use net_io::{MemFiles, MemSink, ReadFail, read_all, write_all};
use std::alloc::{AllocError, Global};
use test_stop::Stop;

/// Bytes that differ from piece to piece of a read.
pub(crate) fn bytes_of(alloc: Global, count: usize) -> Result<Vec<u8>, AllocError> {
    let mut bytes = vec![in alloc; b'x'; count]?;
    for i in 0..bytes.len() {
        if i % 60_000 == 0 {
            bytes[i] = b'a' + (i / 60_000 % 26) as u8;
        }
    }
    Ok(bytes)
}

/// What a read gave: whether these are the bytes, or why there are none.
pub(crate) fn show_read(
    rt: &HostRuntime,
    read: Result<Vec<u8>, ReadFail>,
    bytes: &[u8],
) -> Result<(), Stop> {
    match read {
        Ok(read) => println!(rt;
            "{} bytes, the same: {}",
            read.len(),
            read.as_slice() == bytes
        )?,
        Err(fail) => println!(rt; "{fail:?}")?,
    }
    Ok(())
}

/// A file is read whole up to 16,777,216 bytes.
pub(crate) fn show_sizes(rt: &HostRuntime) -> Result<(), Stop> {
    for count in [0, 1, 65_536, 65_537, 16_777_216, 16_777_217] {
        let bytes = bytes_of(rt.alloc(), count)?;
        println!(rt; "== a file of {count} bytes, and one that isn't there")?;
        show_size(rt, &bytes)?;
    }
    Ok(())
}

fn show_size(rt: &HostRuntime, bytes: &[u8]) -> Result<(), Stop> {
    let mut files = files_with(rt.alloc(), &[("file", bytes)])?;
    show_two(rt, &mut files, ["file", "fil"], bytes)
}

// What a read of each of two paths gives.
fn show_two(
    rt: &HostRuntime,
    files: &mut MemFiles,
    paths: [&str; 2],
    bytes: &[u8],
) -> Result<(), Stop> {
    for path in paths {
        let read = read_all(rt.alloc(), files, path);
        show_read(rt, read, bytes)?;
    }
    Ok(())
}

/// The call of the number fails and no other. Three calls read the bytes, and a fourth finds the end.
pub(crate) fn show_calls(rt: &HostRuntime) -> Result<(), Stop> {
    let bytes = bytes_of(rt.alloc(), 150_000)?;
    for call in 0..5 {
        println!(rt; "== call {call} fails, and the file is read twice")?;
        show_call(rt, &bytes, call)?;
    }
    Ok(())
}

fn show_call(rt: &HostRuntime, bytes: &[u8], call: u64) -> Result<(), Stop> {
    let mut files = files_with(rt.alloc(), &[("file", bytes)])?;
    files.fail_at(9);
    files.fail_at(call);
    show_two(rt, &mut files, ["file", "file"], bytes)
}

/// A listing has the names of its folder alone, and a later file takes the place of an earlier one.
pub(crate) fn show_folders(rt: &HostRuntime) -> Result<(), Stop> {
    let given: [(&str, &[u8]); 10] = [
        ("net/b.cfg", b"net/b.cfg"),
        ("net/a.cfg", b"net/a.cfg"),
        ("net/sub/c.cfg", b"net/sub/c.cfg"),
        ("other/d.cfg", b"other/d.cfg"),
        ("netx", b"netx"),
        ("net", b"net"),
        ("net/a.cfg", b"net/a.cfg"),
        ("net/a.cfg", b"later"),
        ("net/", b""),
        ("empty/", b""),
    ];
    let mut files = files_with(rt.alloc(), &given)?;
    show_listings(rt, &mut files)
}

fn show_listings(rt: &HostRuntime, files: &mut MemFiles) -> Result<(), Stop> {
    for folder in ["net", "empty", "other", "net/"] {
        let names = listed(rt.alloc(), files, folder)?;
        println!(rt; "== {folder}: {}", names.as_str())?;
    }
    let read = read_all(rt.alloc(), files, "net/a.cfg");
    show_read(rt, read, b"later")
}

/// A sink takes its room and then fails.
pub(crate) fn show_rooms(rt: &HostRuntime) -> Result<(), Stop> {
    for room in [0, 3, 5, 6, 7] {
        let mut sink = MemSink::new(rt.alloc(), room)?;
        let first = write_all(&mut sink, b"abc").is_ok();
        let second = write_all(&mut sink, b"abc").is_ok();
        let taken = sink.taken().escape_ascii();
        println!(rt; "== a sink with room for {room}: {first} {second} {taken}")?;
    }
    Ok(())
}
