//! Two workers beside each other, in each command that has workers.

use crate::gates::Meeting;
use crate::runs::{files_with, show_line};
use net_io::MemFiles;
use std::sync::Wait;
use std::thread::Threads;
use test_stop::Stop;

// A device with two links, at each of which packets enter.
const BASE: &[u8] = b"hostname R1
interface Ethernet0
 ip address 10.0.0.1 255.255.255.0
interface Ethernet1
 ip address 10.0.1.1 255.255.255.0
";

const QUESTIONS: &[u8] =
    b"isolate R1 Ethernet0 to R1 Ethernet1\nisolate R1 Ethernet1 to R1 Ethernet0\n";

pub(crate) fn show<R: Threads + Wait + Sync>(rt: &HostRuntime, threads: &R) -> Result<(), Stop> {
    let given: [(&str, &[u8]); 6] = [
        ("old/", b""),
        ("old/R1.cfg", BASE),
        ("new/", b""),
        ("new/R1.cfg", BASE),
        ("links", b"ingress R1 Ethernet0\ningress R1 Ethernet1\n"),
        ("questions", QUESTIONS),
    ];
    let mut files = files_with(rt.alloc(), &given)?;
    show_meetings(rt, threads, &mut files)
}

fn show_meetings<R: Threads + Wait + Sync>(
    rt: &HostRuntime,
    threads: &R,
    files: &mut MemFiles,
) -> Result<(), Stop> {
    println!(rt; "== two workers that meet")?;
    for line in [
        "compare old new links --workers 2",
        "ask old links questions --workers 2",
        "gen 7 2 --workers 2",
    ] {
        show_meeting(rt, threads, files, line)?;
    }
    Ok(())
}

fn show_meeting<R: Threads + Wait + Sync>(
    rt: &HostRuntime,
    threads: &R,
    files: &mut MemFiles,
    line: &str,
) -> Result<(), Stop> {
    let gate = Meeting::new();
    show_line(rt, threads, files, line, &gate)?;
    println!(rt; "{} passed, {} gave up", gate.noted(), gate.gave_up())?;
    Ok(())
}
