//! Rollouts on a network of two devices with a default route at each other.

use crate::runs::{Finished, Program, ROOM, files_with, put_all, ran, show_run};
use net_io::MemFiles;
use std::alloc::Global;
use std::sync::Wait;
use std::thread::Threads;
use test_stop::Stop;

const R1: &[u8] = b"hostname R1
interface Ethernet0
 ip address 10.0.0.1 255.255.255.0
interface Ethernet1
 ip address 10.0.12.1 255.255.255.252
ip route 0.0.0.0 0.0.0.0 10.0.12.2
";

const R2: &[u8] = b"hostname R2
interface Ethernet0
 ip address 10.0.12.2 255.255.255.252
ip route 0.0.0.0 0.0.0.0 10.0.12.1
";

const LINKS: &[u8] = b"p2p R1 Ethernet1 R2 Ethernet0
ingress R1 Ethernet0
";

const QUESTION: &[u8] = b"reach R1 Ethernet0 to R2 Ethernet0 dst 10.0.12.2\n";

// It fails in the network before all changes.
const FAILING: &[u8] = b"isolate R1 Ethernet0 to R2 Ethernet0 dst 10.0.12.2\n";

// The link to R2 is shut.
const SHUT: &[u8] = b"hostname R1
interface Ethernet0
 ip address 10.0.0.1 255.255.255.0
interface Ethernet1
 ip address 10.0.12.1 255.255.255.252
 shutdown
ip route 0.0.0.0 0.0.0.0 10.0.12.2
";

// R1 and R2, each with the other's address.
const R1_AS_R2: &[u8] = b"hostname R1
interface Ethernet1
 ip address 10.0.12.2 255.255.255.252
";

const R2_AS_R1: &[u8] = b"hostname R2
interface Ethernet0
 ip address 10.0.12.1 255.255.255.252
";

// R1 with another interface.
const WIDER: &[u8] = b"hostname R1
interface Ethernet3
 ip address 10.0.16.1 255.255.255.252
";

// R1 and R2 with two links, and R1 with both addresses of R2.
const TWO: &[u8] = b"hostname R1
interface Ethernet1
 ip address 10.0.12.1 255.255.255.252
interface Ethernet2
 ip address 10.0.8.1 255.255.255.252
";

const OTHER_TWO: &[u8] = b"hostname R2
interface Ethernet0
 ip address 10.0.12.2 255.255.255.252
interface Ethernet1
 ip address 10.0.8.2 255.255.255.252
";

const TWO_LINKS: &[u8] = b"p2p R1 Ethernet1 R2 Ethernet0
p2p R1 Ethernet2 R2 Ethernet1
ingress R1 Ethernet1
";

const TWO_AS_OTHER: &[u8] = b"hostname R1
interface Ethernet1
 ip address 10.0.12.2 255.255.255.252
interface Ethernet2
 ip address 10.0.8.2 255.255.255.252
";

const ROLLOUT: [&str; 5] = ["rollout", "net", "links", "questions", "steps"];

fn network<'a>(alloc: Global, questions: &'a [u8], steps: &'a [u8]) -> Result<MemFiles, Stop> {
    let given: [(&str, &[u8]); 13] = [
        ("net/R1.cfg", R1),
        ("net/R2.cfg", R2),
        ("links", LINKS),
        ("questions", questions),
        ("steps", steps),
        ("s1", SHUT),
        ("s2", R1),
        ("swapped1", R1_AS_R2),
        ("swapped2", R2_AS_R1),
        ("wider", WIDER),
        ("unknown", b"hostname R9\n"),
        ("bad", b"hostname R1\nrouter ospf 1\n"),
        ("nameless", b"!\n"),
    ];
    files_with(alloc, &given)
}

pub(crate) fn show<R: Threads + Wait + Sync>(rt: &HostRuntime, threads: &R) -> Result<(), Stop> {
    show_words(rt, threads)?;
    show_answers(rt, threads)?;
    show_refusals(rt, threads)?;
    show_segments(rt, threads)?;
    show_orders(rt, threads)?;
    show_bytes(rt, threads)?;
    show_counts(rt, threads)?;
    show_lengths(rt, threads)?;
    show_rooms(rt, threads)?;
    show_faults(rt, threads)
}

fn show_steps<R: Threads + Wait + Sync>(
    rt: &HostRuntime,
    threads: &R,
    questions: &[u8],
    steps: &[u8],
) -> Result<(), Stop> {
    let mut files = network(rt.alloc(), questions, steps)?;
    show_run(rt, threads, Program::Rollout, &mut files, &ROLLOUT, ROOM)
}

fn show_words<R: Threads + Wait + Sync>(rt: &HostRuntime, threads: &R) -> Result<(), Stop> {
    println!(rt; "== words of a rollout")?;
    let cases: [&[&str]; 8] = [
        &["rollout"],
        &["rollout", "net", "links", "questions"],
        &["rollout", "net", "links", "questions", "steps", "steps"],
        &["rollout", "net", "links", "", "steps"],
        &["rollout", "net", "links", "questions", "-steps"],
        &["rollout", "none", "links", "questions", "steps"],
        &["rollout", "net", "none", "questions", "steps"],
        &["rollout", "net", "links", "none", "steps"],
    ];
    let mut files = network(rt.alloc(), QUESTION, b"touch\n")?;
    for words in cases {
        show_run(rt, threads, Program::Rollout, &mut files, words, ROOM)?;
    }
    Ok(())
}

// A failure at a step, none without a step, none after one, one behind other lines, and one before all changes; a second question
// that fails; and addresses that are free at the step that takes them.
fn show_answers<R: Threads + Wait + Sync>(rt: &HostRuntime, threads: &R) -> Result<(), Stop> {
    println!(rt; "== rollouts that are answered")?;
    let loops =
        b"! two questions\nnoloop R1 Ethernet0 dst 10.0.0.0/24\nreach R1 Ethernet0 to R2 Ethernet0 dst 10.0.12.2\n";
    let cases: [(&[u8], &[u8]); 7] = [
        (QUESTION, b"change s1\nchange s2\n"),
        (QUESTION, b""),
        (QUESTION, b"change s2\n"),
        (QUESTION, b"change s2\n! then\n\n\tchange s1 \r\n"),
        (FAILING, b"change s1\n"),
        (loops, b"change s1"),
        (b"", b"change s1\nchange swapped2\nchange swapped1\n"),
    ];
    for (questions, steps) in cases {
        show_steps(rt, threads, questions, steps)?;
    }
    Ok(())
}

fn show_refusals<R: Threads + Wait + Sync>(rt: &HostRuntime, threads: &R) -> Result<(), Stop> {
    println!(rt; "== steps that are refused")?;
    let cases: [&[u8]; 11] = [
        b"touch s1\n",
        b"change\n",
        b"!\nchange s1 s2 s2\n",
        b"change unknown\n",
        b"change swapped1\n",
        b"change s2\nchange swapped2\n",
        b"change s1\nchange swapped2\nchange s2\n",
        b"change bad\n",
        b"change nameless\n",
        b"change none\n",
        b"change s1\nchange s1 a234567890123456789012345678901234567890123456789012345678901234567\n",
    ];
    for steps in cases {
        show_steps(rt, threads, QUESTION, steps)?;
    }
    Ok(())
}

// Two links, of which each has an address twice after the step: the least of both is told.
fn show_segments<R: Threads + Wait + Sync>(rt: &HostRuntime, threads: &R) -> Result<(), Stop> {
    println!(rt; "== an address twice on each of two links")?;
    let given: [(&str, &[u8]); 4] = [
        ("net/R1.cfg", TWO),
        ("net/R2.cfg", OTHER_TWO),
        ("two", TWO_AS_OTHER),
        ("links", TWO_LINKS),
    ];
    let mut files = network(rt.alloc(), b"", b"change two\n")?;
    put_all(&mut files, &given)?;
    show_run(rt, threads, Program::Rollout, &mut files, &ROLLOUT, ROOM)
}

// The first of two causes decides, and the lines of the steps come before their files.
fn show_orders<R: Threads + Wait + Sync>(rt: &HostRuntime, threads: &R) -> Result<(), Stop> {
    println!(rt; "== the first of two causes")?;
    let place = b"reach R1 Ethernet3 to R2 Ethernet0\n";
    let cases: [(&[u8], &[u8]); 7] = [
        (place, b"touch\n"),
        (place, b"change wider\n"),
        (QUESTION, b"change none\ntouch\n"),
        (QUESTION, b"change none\nchange bad\n"),
        (QUESTION, b"change bad\nchange none\n"),
        (QUESTION, b"change unknown\nchange bad\n"),
        (QUESTION, b"change swapped1\nchange unknown\n"),
    ];
    for (questions, steps) in cases {
        show_steps(rt, threads, questions, steps)?;
    }
    let mut files = network(rt.alloc(), place, b"touch\n")?;
    files.put("links", b"p2p R1 Ethernet1\n")?;
    show_run(rt, threads, Program::Rollout, &mut files, &ROLLOUT, ROOM)
}

// A path that isn't UTF-8, and a byte at each read.
fn show_bytes<R: Threads + Wait + Sync>(rt: &HostRuntime, threads: &R) -> Result<(), Stop> {
    println!(rt; "== a path that isn't UTF-8")?;
    show_path(rt, threads)?;
    println!(rt; "== a byte at each read")?;
    let mut files = network(rt.alloc(), QUESTION, b"change s1\nchange s2\n")?;
    files.at_most(1);
    show_run(rt, threads, Program::Rollout, &mut files, &ROLLOUT, ROOM)
}

fn show_path<R: Threads + Wait + Sync>(rt: &HostRuntime, threads: &R) -> Result<(), Stop> {
    let alloc = rt.alloc();
    let mut files = network(alloc, QUESTION, b"change \xff s1\n")?;
    let program = Program::Rollout;
    let ran = ran(alloc, threads, program, &mut files, &ROLLOUT, ROOM)?;
    show_refusal(rt, &ran)
}

fn show_refusal(rt: &HostRuntime, ran: &Finished) -> Result<(), Stop> {
    println!(rt; "status {} {}", ran.status, ran.err.taken().escape_ascii())?;
    Ok(())
}

// So many lines that change a file, and then another one.
fn lines_of(alloc: Global, count: usize, last: &[u8]) -> Result<Vec<u8>, Stop> {
    let mut text = Vec::new(alloc);
    for _ in 0..count {
        text.extend_from_slice(b"change s2\n")?;
    }
    text.extend_from_slice(last)?;
    Ok(text)
}

fn show_counts<R: Threads + Wait + Sync>(rt: &HostRuntime, threads: &R) -> Result<(), Stop> {
    let cases: [(usize, &[u8]); 5] = [
        (1024, b""),
        (1025, b""),
        (1024, b"touch\n"),
        (1025, b"touch\n"),
        (1024, b"!\nchange\n"),
    ];
    for (count, last) in cases {
        println!(rt; "== {count} steps, and then \"{}\"", last.escape_ascii())?;
        let steps = lines_of(rt.alloc(), count, last)?;
        show_steps(rt, threads, FAILING, &steps)?;
    }
    Ok(())
}

// A hostname, and a comment as long as is wanted.
fn long_text(alloc: Global, size: usize) -> Result<Vec<u8>, Stop> {
    let mut text = b"hostname R1\n".to_vec(alloc)?;
    let rest = vec![in alloc; b'!'; size.saturating_sub(text.len())]?;
    text.extend_from_slice(&rest)?;
    Ok(text)
}

// The file `full` is as long as a file may be, and four of them as all changed files may be together; `long` has a byte more. A
// file of 12 bytes is the fifth.
fn show_lengths<R: Threads + Wait + Sync>(rt: &HostRuntime, threads: &R) -> Result<(), Stop> {
    let mut files = network(rt.alloc(), FAILING, b"")?;
    put_long(rt.alloc(), &mut files)?;
    show_lengths_of(rt, threads, &mut files)
}

fn put_long(alloc: Global, files: &mut MemFiles) -> Result<(), Stop> {
    for (path, size) in [("full", 16_777_216), ("long", 16_777_217)] {
        let text = long_text(alloc, size)?;
        files.put(path, &text)?;
    }
    Ok(())
}

fn show_lengths_of<R: Threads + Wait + Sync>(
    rt: &HostRuntime,
    threads: &R,
    files: &mut MemFiles,
) -> Result<(), Stop> {
    let cases: [&[u8]; 5] = [
        b"change long\n",
        b"change full\nchange full\nchange full\nchange full\n",
        b"change full\nchange full\nchange full\nchange full\nchange unknown\n",
        b"change full\nchange full\nchange full\nchange full\nchange none\n",
        b"change full\nchange full\nchange full\nchange full\nchange long\n",
    ];
    for steps in cases {
        println!(rt; "== {}", steps.escape_ascii())?;
        files.put("steps", steps)?;
        show_run(rt, threads, Program::Rollout, files, &ROLLOUT, ROOM)?;
    }
    println!(rt; "== steps of 16777217 bytes")?;
    files.put("steps", &long_text(rt.alloc(), 16_777_217)?)?;
    show_run(rt, threads, Program::Rollout, files, &ROLLOUT, ROOM)
}

// The text has 25 bytes.
fn show_rooms<R: Threads + Wait + Sync>(rt: &HostRuntime, threads: &R) -> Result<(), Stop> {
    println!(rt; "== an output with little room")?;
    let mut files = network(rt.alloc(), QUESTION, b"")?;
    for room in [0, 10, 24, 25] {
        show_run(rt, threads, Program::Rollout, &mut files, &ROLLOUT, room)?;
    }
    Ok(())
}

// The calls are a listing, and two reads of each file; the second step is refused, where no call fails before.
fn show_faults<R: Threads + Wait + Sync>(rt: &HostRuntime, threads: &R) -> Result<(), Stop> {
    println!(rt; "== a call on the files fails")?;
    for call in 0..16 {
        let mut files = network(rt.alloc(), QUESTION, b"change s1\nchange bad\n")?;
        files.fail_at(call);
        show_run(rt, threads, Program::Rollout, &mut files, &ROLLOUT, ROOM)?;
    }
    Ok(())
}
