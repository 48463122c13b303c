//! Two causes at once: the first of them decides. The line says of how many runs how many ended as they must.

use crate::runs::{COMPARE, TWO_LINKS, ends, files_with, one_each, ran};
use crate::tally::Tally;
use net_io::MemFiles;
use std::alloc::Global;
use std::sync::Wait;
use std::thread::Threads;
use steal_pool::OpenGate;
use test_stop::Stop;

// A configuration that is refused at its third line.
const REFUSED: &[u8] = b"hostname R1
!
router ospf 1
";

// Files, and what a run over them ends with.
struct Case {
    words: &'static [&'static str],
    files: &'static [(&'static str, &'static [u8])],
    status: u8,
    line: &'static [u8],
}

const CASES: [Case; 5] = [
    Case {
        words: &COMPARE,
        files: &[("old/", b""), ("old/R1.cfg", REFUSED)],
        status: 3,
        line: b"refused old/R1.cfg line 3 NotCovered router\n",
    },
    Case {
        words: &COMPARE,
        files: &[
            ("old/", b""),
            ("old/R1.cfg", TWO_LINKS),
            ("new/", b""),
            ("new/R1.cfg", REFUSED),
        ],
        status: 3,
        line: b"refused new/R1.cfg line 3 NotCovered router\n",
    },
    Case {
        words: &COMPARE,
        files: &[
            ("old/", b""),
            ("old/R1.cfg", TWO_LINKS),
            ("links", b"wire\n"),
        ],
        status: 8,
        line: b"not found new\n",
    },
    Case {
        words: &COMPARE,
        files: &[
            ("old/", b""),
            ("old/R1.cfg", TWO_LINKS),
            ("new/", b""),
            ("new/R1.cfg", TWO_LINKS),
            ("links", b"ingress R9 Ethernet0\nwire\n"),
        ],
        status: 3,
        line: b"refused links line 2 BadWord wire\n",
    },
    Case {
        words: &["ask", "old", "links", "questions"],
        files: &[
            ("old/", b""),
            ("old/R1.cfg", TWO_LINKS),
            ("links", b"p2p R1 Ethernet0 R1 Ethernet1\n"),
            ("questions", b"touch\n"),
        ],
        status: 3,
        line: b"refused links line 0 NoIngress\n",
    },
];

pub(crate) fn show<R: Threads + Wait + Sync>(rt: &HostRuntime, threads: &R) -> Result<(), Stop> {
    let alloc = rt.alloc();
    let mut tally = Tally::new();
    tally.note(decides_by_words(alloc, threads)?);
    for case in &CASES {
        tally.note(ends_as(alloc, threads, case)?);
    }
    tally.note(decides_by_count(alloc, threads)?);
    tally.note(decides_by_length(alloc, threads)?);
    tally.show(rt, "the first of two causes")
}

// Whether the run ends as the case says.
fn ends_as<R: Threads + Wait + Sync>(
    alloc: Global,
    threads: &R,
    case: &Case,
) -> Result<bool, Stop> {
    let mut files = files_with(alloc, case.files)?;
    ends(
        alloc,
        threads,
        &mut files,
        case.words,
        case.status,
        case.line,
    )
}

/// Words that are no command, and files that would fail: no call is made on them, so that the first call of the next run is
/// still the one that fails.
fn decides_by_words<R: Threads + Wait + Sync>(alloc: Global, threads: &R) -> Result<bool, Stop> {
    let mut files = one_each(alloc, TWO_LINKS, TWO_LINKS)?;
    files.fail_at(0);
    makes_no_call(alloc, threads, &mut files)
}

fn makes_no_call<R: Threads + Wait + Sync>(
    alloc: Global,
    threads: &R,
    files: &mut MemFiles,
) -> Result<bool, Stop> {
    let refused = is_no_command(alloc, threads, files, &["compare", "old", "new"])?;
    let next = ends(alloc, threads, files, &COMPARE, 4, b"cannot read old\n")?;
    Ok(refused && next)
}

fn is_no_command<R: Threads + Wait + Sync>(
    alloc: Global,
    threads: &R,
    files: &mut MemFiles,
    words: &[&str],
) -> Result<bool, Stop> {
    let ran = ran(alloc, threads, files, words, 1000, &OpenGate)?;
    Ok(ran.status == 2 && ran.out.taken().is_empty())
}

/// 1,025 files, of which the first is refused.
fn decides_by_count<R: Threads + Wait + Sync>(alloc: Global, threads: &R) -> Result<bool, Stop> {
    let mut files = one_each(alloc, TWO_LINKS, TWO_LINKS)?;
    put_many(alloc, &mut files)?;
    let line = b"too many files old\n";
    ends(alloc, threads, &mut files, &COMPARE, 5, line)
}

fn put_many(alloc: Global, files: &mut MemFiles) -> Result<(), Stop> {
    files.put("old/0000.cfg", REFUSED)?;
    for i in 1..1024 {
        let path = format!(in alloc; "old/{i}.cfg")?;
        files.put(path.as_str(), b"")?;
    }
    Ok(())
}

/// A file of 16,777,217 bytes that is refused at its first line.
fn decides_by_length<R: Threads + Wait + Sync>(alloc: Global, threads: &R) -> Result<bool, Stop> {
    let text = long_text(alloc)?;
    let mut files = one_each(alloc, &text, TWO_LINKS)?;
    let line = b"too long old/R1.cfg\n";
    ends(alloc, threads, &mut files, &COMPARE, 5, line)
}

fn long_text(alloc: Global) -> Result<Vec<u8>, Stop> {
    let mut text = Vec::from_slice(alloc, b"router ospf 1\n")?;
    let rest = vec![in alloc; b'!'; 16_777_203]?;
    text.extend_from_slice(&rest)?;
    Ok(text)
}
