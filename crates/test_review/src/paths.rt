//! The path in `cannot read PATH`: of each job every call on its files fails in turn, and the line names that call's path.
//! The line says of how many runs how many ended so.

use crate::runs::{COMPARE, TWO_LINKS, cannot_read, files_with};
use crate::tally::Tally;
use net_io::MemFiles;
use std::alloc::Global;
use std::sync::Wait;
use std::thread::Threads;
use test_stop::Stop;

const SECOND: &[u8] = b"hostname R2
interface Ethernet0
 ip address 10.0.0.2 255.255.255.252
";

const LINKS: &[u8] = b"ingress R1 Ethernet1
p2p R1 Ethernet0 R2 Ethernet0
";

// A job, and the paths of its calls in order: a folder is listed, and of a file the bytes are read and then its end.
struct Case {
    name: &'static str,
    words: &'static [&'static str],
    paths: &'static [&'static str],
}

const CASES: [Case; 5] = [
    Case {
        name: "the path of a fault with two tables",
        words: &["compare", "old", "new", "links", "newlinks"],
        paths: &[
            "old",
            "old/R1.cfg",
            "old/R1.cfg",
            "old/R2.cfg",
            "old/R2.cfg",
            "new",
            "new/R1.cfg",
            "new/R1.cfg",
            "new/R2.cfg",
            "new/R2.cfg",
            "links",
            "links",
            "newlinks",
            "newlinks",
        ],
    },
    Case {
        name: "the path of a fault with one table",
        words: &COMPARE,
        paths: &[
            "old",
            "old/R1.cfg",
            "old/R1.cfg",
            "old/R2.cfg",
            "old/R2.cfg",
            "new",
            "new/R1.cfg",
            "new/R1.cfg",
            "new/R2.cfg",
            "new/R2.cfg",
            "links",
            "links",
        ],
    },
    Case {
        name: "the path of a fault of questions",
        words: &["ask", "new", "newlinks", "questions"],
        paths: &[
            "new",
            "new/R1.cfg",
            "new/R1.cfg",
            "new/R2.cfg",
            "new/R2.cfg",
            "newlinks",
            "newlinks",
            "questions",
            "questions",
        ],
    },
    Case {
        name: "the path of a fault of a trace",
        words: &[
            "trace",
            "old",
            "links",
            "R1",
            "Ethernet1",
            "10.0.0.2,10.0.1.2,6,443,5000,0",
        ],
        paths: &[
            "old",
            "old/R1.cfg",
            "old/R1.cfg",
            "old/R2.cfg",
            "old/R2.cfg",
            "links",
            "links",
        ],
    },
    Case {
        name: "the path of a fault of a reading",
        words: &["read", "new"],
        paths: &[
            "new",
            "new/R1.cfg",
            "new/R1.cfg",
            "new/R2.cfg",
            "new/R2.cfg",
        ],
    },
];

pub(crate) fn show<R: Threads + Wait + Sync>(rt: &HostRuntime, threads: &R) -> Result<(), Stop> {
    for case in &CASES {
        show_case(rt, threads, case)?;
    }
    Ok(())
}

fn show_case<R: Threads + Wait + Sync>(
    rt: &HostRuntime,
    threads: &R,
    case: &Case,
) -> Result<(), Stop> {
    let mut tally = Tally::new();
    let mut call: u64 = 0;
    for path in case.paths {
        tally.note(names(rt.alloc(), threads, case.words, call, path)?);
        call = call.saturating_add(1);
    }
    tally.show(rt, case.name)
}

// Whether the run in which this call fails ends with status 4, names this path and writes nothing else.
fn names<R: Threads + Wait + Sync>(
    alloc: Global,
    threads: &R,
    words: &[&str],
    call: u64,
    path: &str,
) -> Result<bool, Stop> {
    let mut files = two_each(alloc)?;
    files.fail_at(call);
    cannot_read(alloc, threads, &mut files, words, path)
}

// The folders `old` and `new` with two files each, a link table of each, and a file of questions.
fn two_each(alloc: Global) -> Result<MemFiles, Stop> {
    let given: [(&str, &[u8]); 9] = [
        ("old/", b""),
        ("old/R1.cfg", TWO_LINKS),
        ("old/R2.cfg", SECOND),
        ("new/", b""),
        ("new/R1.cfg", TWO_LINKS),
        ("new/R2.cfg", SECOND),
        ("links", LINKS),
        ("newlinks", LINKS),
        ("questions", b"touch\n"),
    ];
    files_with(alloc, &given)
}
