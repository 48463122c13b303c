//! Files and writers of the system.

use crate::memory::{bytes_of, show_read};
use crate::names::listed;
use net_io::{Files, ReadFail, RealFiles, RealSink, read_all, write_all};
use std::fs;
use test_stop::Stop;

/// The folder `files` beside this program, a file for a folder, paths where nothing is, and a folder for a file.
pub(crate) fn show_files(rt: &HostRuntime) -> Result<(), Stop> {
    let mut files = RealFiles::new(rt.clone()?);
    show_files_of(rt, &mut files)
}

fn show_files_of<F: Files>(rt: &HostRuntime, files: &mut F) -> Result<(), Stop> {
    for folder in ["files", "none", "files/short.cfg"] {
        let names = listed(rt.alloc(), files, folder)?;
        println!(rt; "== folder {folder}: {}", names.as_str())?;
    }
    for path in ["files/short.cfg", "files/none.cfg", "", "files"] {
        println!(rt; "== file {path}")?;
        let read = read_all(rt.alloc(), files, path);
        show_read(rt, read, b"hostname R1\n")?;
    }
    let mut room = [0; 2];
    let count = files.read("files/short.cfg", 9, &mut room);
    println!(rt; "== from byte 9: {count:?} {}", room.escape_ascii())?;
    Ok(())
}

/// A file that is written and read back, and a writer that takes three bytes and then none.
pub(crate) fn show_writers(rt: &HostRuntime) -> Result<(), Stop> {
    let bytes = bytes_of(rt.alloc(), 200_000)?;
    println!(rt; "== written: {}", write_file(rt, &bytes)?)?;
    let read = read_written(rt)?;
    show_read(rt, read, &bytes)?;
    show_full(rt)
}

// What a read of the written file gives, which is removed then.
fn read_written(rt: &HostRuntime) -> Result<Result<Vec<u8>, ReadFail>, Stop> {
    let mut files = RealFiles::new(rt.clone()?);
    let read = read_all(rt.alloc(), &mut files, "written");
    fs::remove_file(rt, "written")?;
    Ok(read)
}

fn show_full(rt: &HostRuntime) -> Result<(), Stop> {
    let mut room = [0; 3];
    let mut full = RealSink::new(room.as_mut_slice());
    let first = write_all(&mut full, b"abc").is_ok();
    let second = write_all(&mut full, b"").is_ok();
    let third = write_all(&mut full, b"d").is_ok();
    println!(rt; "== room for three: {first} {second} {third}")?;
    Ok(())
}

fn write_file(rt: &HostRuntime, bytes: &[u8]) -> Result<bool, Stop> {
    let mut sink = RealSink::new(fs::create(rt, "written")?);
    Ok(write_all(&mut sink, bytes).is_ok())
}
