//! Reviews of edits on a network of one device with two lists.

use crate::runs::{Program, ROOM, files_with, show_run};
use net_io::MemFiles;
use std::alloc::Global;
use std::sync::Wait;
use std::thread::Threads;
use test_stop::Stop;

const R1: &[u8] = b"hostname R1
interface Ethernet0
 ip address 10.0.0.1 255.255.255.0
 ip access-group 101 in
interface Ethernet1
 ip address 10.0.1.1 255.255.255.0
ip access-list standard S
 permit 10.0.0.9
access-list 101 permit icmp any any
";

const LINKS: &[u8] = b"ingress R1 Ethernet0\n";

// It permits what no entry permitted before.
const ADDED: &[u8] = b"entry R1 101 20 permit tcp any host 10.0.1.5 eq www\n";

const EDITS: [&str; 4] = ["edits", "net", "links", "edits"];

fn network(alloc: Global, edits: &[u8]) -> Result<MemFiles, Stop> {
    files_with(
        alloc,
        &[("net/R1.cfg", R1), ("links", LINKS), ("edits", edits)],
    )
}

pub(crate) fn show<R: Threads + Wait + Sync>(rt: &HostRuntime, threads: &R) -> Result<(), Stop> {
    show_words(rt, threads)?;
    show_reviews(rt, threads)?;
    show_words_refused(rt, threads)?;
    show_texts_refused(rt, threads)?;
    show_edits_refused(rt, threads)?;
    show_orders(rt, threads)?;
    show_lengths(rt, threads)?;
    show_rooms(rt, threads)?;
    show_faults(rt, threads)
}

fn show_edits<R: Threads + Wait + Sync>(
    rt: &HostRuntime,
    threads: &R,
    edits: &[u8],
) -> Result<(), Stop> {
    let mut files = network(rt.alloc(), edits)?;
    show_run(rt, threads, Program::Rollout, &mut files, &EDITS, ROOM)
}

fn show_words<R: Threads + Wait + Sync>(rt: &HostRuntime, threads: &R) -> Result<(), Stop> {
    println!(rt; "== words of a review of edits")?;
    let cases: [&[&str]; 8] = [
        &["edits"],
        &["edits", "net", "links"],
        &["edits", "net", "links", "edits", "edits"],
        &["edits", "", "links", "edits"],
        &["edits", "net", "links", "-edits"],
        &["edits", "none", "links", "edits"],
        &["edits", "net", "none", "edits"],
        &["edits", "net", "links", "none"],
    ];
    let mut files = network(rt.alloc(), b"touch\n")?;
    for words in cases {
        show_run(rt, threads, Program::Rollout, &mut files, words, ROOM)?;
    }
    Ok(())
}

// An entry that is added, and dropped again; no edit; routes behind a comment, by a next hop, an interface and to nowhere; an entry
// in front of another one; and a list that stays when its last entry goes.
fn show_reviews<R: Threads + Wait + Sync>(rt: &HostRuntime, threads: &R) -> Result<(), Stop> {
    println!(rt; "== edits that are made")?;
    let cases: [&[u8]; 8] = [
        ADDED,
        b"entry R1 101 20 permit tcp any host 10.0.1.5 eq www\nno-entry R1 101 20\n",
        b"",
        b"! first\n\n\troute R1 172.17.0.0 255.255.0.0 10.0.1.2 \r\nno-route R1 172.17.0.0 255.255.0.0 10.0.1.2 1 name back\n",
        b"route R1 172.18.0.0 255.255.0.0 Ethernet1 10.0.1.2\n",
        b"route R1 172.17.0.0 255.255.0.0 Null0 200\n",
        b"entry R1 101 0005 deny icmp any host 10.0.1.7 echo\nentry R1 S 20 permit 10.0.0.7\n",
        b"no-entry R1 101 10\nentry R1 101 10 permit icmp any any\n",
    ];
    for edits in cases {
        show_edits(rt, threads, edits)?;
    }
    println!(rt; "== a byte at each read")?;
    let mut files = network(rt.alloc(), ADDED)?;
    files.at_most(1);
    show_run(rt, threads, Program::Rollout, &mut files, &EDITS, ROOM)
}

fn show_words_refused<R: Threads + Wait + Sync>(rt: &HostRuntime, threads: &R) -> Result<(), Stop> {
    println!(rt; "== lines that are refused by their words")?;
    let cases: [&[u8]; 16] = [
        b"add R1 101 20 permit ip any any\n",
        b"no-entry R1 101 10 a234567890123456789012345678901234567890123456789012345678901234567\n",
        b"entry\n",
        b"entry R1 101 20\n",
        b"no-entry R1 101\n",
        b"route R1\n",
        b"no-route R1\n",
        b"!\nentry R9 101 20 permit ip any any\n",
        b"route R9 10.0.0.0 255.0.0.0 10.0.1.2\n",
        b"entry R1 102 20 permit ip any any\n",
        b"no-entry R1 s 10\n",
        b"entry R1 101 0 permit ip any any\n",
        b"entry R1 101 2147483648 permit ip any any\n",
        b"no-entry R1 101 +10\n",
        b"entry R1 101 20 remark web\n",
        b"entry R1 101 20 permit ip any any\nno-entry R1 101 20 20\n",
    ];
    for edits in cases {
        show_edits(rt, threads, edits)?;
    }
    Ok(())
}

// The kinds are those of configurations.
fn show_texts_refused<R: Threads + Wait + Sync>(rt: &HostRuntime, threads: &R) -> Result<(), Stop> {
    println!(rt; "== lines that are refused as configurations are")?;
    let cases: [&[u8]; 10] = [
        b"entry R1 101 20 permit\n",
        b"entry R1 101 20 allow ip any any\n",
        b"entry R1 101 20 evaluate web\n",
        b"entry R1 S 20 permit tcp any any\n",
        b"entry R1 101 20 permit ip any any fragments\n",
        b"route R1 172.18.0.0 255.0.255.0 10.0.1.2\n",
        b"no-route R1 172.18.0.1 255.255.0.0 10.0.1.2\n",
        b"route R1 172.18.0.0 255.255.0.0 10.0.1.2 1 2\n",
        b"route R1 172.18.0.0 255.255.0.0 Ethernet9\n",
        b"route R1 vrf\n",
    ];
    for edits in cases {
        show_edits(rt, threads, edits)?;
    }
    Ok(())
}

fn show_edits_refused<R: Threads + Wait + Sync>(rt: &HostRuntime, threads: &R) -> Result<(), Stop> {
    println!(rt; "== edits that are refused")?;
    let cases: [&[u8]; 6] = [
        b"entry R1 101 10 permit ip any any\n",
        b"entry R1 101 0010 permit ip any any\n",
        b"no-entry R1 101 011\n",
        b"!\nno-route R1 172.17.0.0 255.255.0.0 10.0.1.2\n",
        b"route R1 172.17.0.0 255.255.0.0 10.0.1.2\nno-route R1 172.17.0.0 255.255.0.0 10.0.1.2 2\n",
        b"no-entry R1 101 10\nno-entry R1 101 10\n",
    ];
    for edits in cases {
        show_edits(rt, threads, edits)?;
    }
    Ok(())
}

// The first of two causes decides, and all lines are read before the first edit is made.
fn show_orders<R: Threads + Wait + Sync>(rt: &HostRuntime, threads: &R) -> Result<(), Stop> {
    println!(rt; "== the first of two causes")?;
    let cases: [&[u8]; 8] = [
        b"no-entry R1 101 11\nentry R9 101\n",
        b"no-entry R9 101 10 x\n",
        b"entry R9 102 0\n",
        b"entry R9 102 0 remark\n",
        b"entry R1 102 0 remark\n",
        b"entry R1 101 0 remark\n",
        b"entry R9 101 20 permit\nroute R1\n",
        b"no-entry R1 101 11\nno-entry R1 101 12\n",
    ];
    for edits in cases {
        show_edits(rt, threads, edits)?;
    }
    let mut files = network(rt.alloc(), b"entry\n")?;
    files.put("links", b"ingress R9 Ethernet0\n")?;
    show_run(rt, threads, Program::Rollout, &mut files, &EDITS, ROOM)
}

fn marks(alloc: Global, size: usize) -> Result<Vec<u8>, Stop> {
    Ok(vec![in alloc; b'!'; size]?)
}

// The longest text of edits, one with a byte more, and links that are too long before edits that are.
fn show_lengths<R: Threads + Wait + Sync>(rt: &HostRuntime, threads: &R) -> Result<(), Stop> {
    for size in [4_194_304, 4_194_305, 16_777_217] {
        println!(rt; "== edits of {size} bytes")?;
        show_edits(rt, threads, &marks(rt.alloc(), size)?)?;
    }
    println!(rt; "== links of 16777217 bytes")?;
    let mut files = network(rt.alloc(), &marks(rt.alloc(), 4_194_305)?)?;
    files.put("links", &marks(rt.alloc(), 16_777_217)?)?;
    show_run(rt, threads, Program::Rollout, &mut files, &EDITS, ROOM)
}

// The text without an edit has 39 bytes.
fn show_rooms<R: Threads + Wait + Sync>(rt: &HostRuntime, threads: &R) -> Result<(), Stop> {
    println!(rt; "== an output with little room")?;
    let mut files = network(rt.alloc(), b"")?;
    for room in [0, 10, 38, 39] {
        show_run(rt, threads, Program::Rollout, &mut files, &EDITS, room)?;
    }
    Ok(())
}

// The calls are a listing, and two reads of each file; the edit is refused, where no call fails before.
fn show_faults<R: Threads + Wait + Sync>(rt: &HostRuntime, threads: &R) -> Result<(), Stop> {
    println!(rt; "== a call on the files fails")?;
    for call in 0..8 {
        let mut files = network(rt.alloc(), b"no-entry R1 101 11\n")?;
        files.fail_at(call);
        show_run(rt, threads, Program::Rollout, &mut files, &EDITS, ROOM)?;
    }
    Ok(())
}
